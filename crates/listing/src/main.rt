// Prints the listing of the file on standard input (RULES, "Listing"). What is printed of what was read is decided, and proved, in listing_file.
#![tactic(auto)]

ghost use Rattle.std.specs.Prelude.{◌≡◌, ◌≤◌, length, take, Some};
ghost use Rattle.std.specs.Io.KnownBytes.{Consumes, IsAtEnd};

use listing_file::Stream;
use std::io::Read;

// Reads until the run is full, the input ends or a read fails, and answers how many octets it has put at the start of the run.
fn read_full<R: Read>(input: &mut R, run: &mut [u8]) -> usize
    ensures in_bounds { result ≤ length run.new }
    ensures taken { Consumes (R.remaining input.old) (R.remaining input.new) (take result run.new) }
{
    let mut got: usize = 0;
    while got < run.len() {
        match input.read(&mut run[got..]) {
            Ok(0) | Err(_) => break,
            Ok(more) => got += more,
        }
    }
    got
}

// Reads once more where reading has stopped: how many octets there still are, at most 1, or nothing where the input cannot be read.
fn read_again<R: Read>(input: &mut R) -> Option<usize>
    ensures { result ≡ Some 0 → IsAtEnd (R.remaining input.new) }
{
    let mut rest = [0u8; 1];
    input.read(&mut rest).ok()
}

fn main(rt: HostRuntime) {
    let mut stdin = rt.stdin();
    let mut input = [0u8; 65537];
    let got = read_full(&mut stdin, &mut input);
    let again = read_again(&mut stdin);
    let mut text = [0u8; 655360];
    let printout = listing_file::print(&mut text, &input, got, again);
    let told = &text[..printout.length];
    // The exit status is 0 in every case, so a write that fails is passed over.
    let _ = match printout.stream {
        Stream::Output => rt.stdout().write_all(told),
        Stream::Error => rt.stderr().write_all(told),
    };
}

// The listing of an input as text in a lent run of octets (RULES, "Listing"): the count of its fields and one line for each, or the line
// of its refusal.
#![tactic(auto)]

ghost use Rattle.std.specs.Prelude.{◌+◌, ◌*◌, ◌≤◌, length};
ghost use Rattle.laws_rows.specs.Rows.{Puts};
ghost use Rattle.listing_file.specs.Listing.{answer_text, line_of, lines_of, taken_text, refused_line, listing_of, Prints};

use octets::FilePlace;
use question::Description;
use refusals::{Refusal, Why};

// Where a program writes.
#[derive(Clone, Copy)]
pub enum Stream {
    Output,
    Error,
}

// What a program is to write: so many octets of its text, and where.
#[derive(Clone, Copy)]
pub struct Printout {
    pub stream: Stream,
    pub length: usize,
}

// Puts what is told of a field.
fn put_answer(run: &mut [u8], at: usize, answer: Result<Description, Refusal>) -> usize
    requires { at + 161 ≤ length run.old }
    ensures { Puts run.old at (answer_text answer) run.new result }
{
    match answer {
        Ok(description) => listing_lines::put_field(run, at, description),
        Err(refusal) => listing_lines::put_refusal(run, at, refusal),
    }
}

// Puts the line of field `k`.
#[tactic(auto, using(text::proofs::Laws::decimal_short, crate::proofs::Laws::answer_short), unfolding(crate::specs::Listing::line_of))]
fn put_line(run: &mut [u8], at: usize, file: &[u8], k: usize) -> usize
    requires { at + 192 ≤ length run.old }
    ensures { Puts run.old at (line_of file.now k) run.new result }
{
    let number = text::put_decimal(run, at, k as u64);
    let answer = text::put(run, number, b" ");
    let told = put_answer(run, answer, question::describe(file, k));
    text::put(run, told, b"\n")
}

// Puts the lines of so many fields.
#[tactic(auto, using(crate::proofs::Laws::lines_short), unfolding(crate::specs::Listing::lines_of))]
fn put_lines(run: &mut [u8], at: usize, file: &[u8], fields: usize) -> usize
    requires { at + 192 * fields ≤ length run.old }
    ensures { Puts run.old at (lines_of file.now fields) run.new result }
{
    let mut end = at;
    for k in 0..fields {
        end = put_line(run, end, file, k);
    }
    end
}

// Puts the line of a refused file.
#[tactic(auto, using(listing_lines::proofs::Laws::refusal_short))]
fn put_refused(run: &mut [u8], refusal: Refusal) -> usize
    requires { 53 ≤ length run.old }
    ensures { Puts run.old 0 (refused_line refusal) run.new result }
{
    let told = listing_lines::put_refusal(run, 0, refusal);
    text::put(run, told, b"\n")
}

// Puts the listing of a file that is taken: the count of its fields, and their lines.
#[tactic(auto, using(text::proofs::Laws::decimal_short))]
fn put_taken(run: &mut [u8], file: &[u8], fields: usize) -> usize
    requires { 28 + 192 * fields ≤ length run.old }
    ensures { Puts run.old 0 (taken_text file.now fields) run.new result }
{
    let word = text::put_decimal(run, 0, fields as u64);
    let first = text::put(run, word, b" fields\n");
    put_lines(run, first, file, fields)
}

// Puts the whole listing of an input at the start of the run, and answers how long it is. A file of 65,536 octets has at most 3,276 fields.
#[tactic(auto, using(tiling::proofs::Bounds::check_few), unfolding(crate::specs::Listing::listing_of))]
pub fn list(run: &mut [u8], input: &[u8]) -> usize
    requires { 655360 ≤ length run.old }
    ensures { Puts run.old 0 (listing_of input.now) run.new result }
{
    if 65536 < input.len() {
        return put_refused(run, Why::InputTooLong.at(FilePlace(65536)));
    }
    match tiling::check(input) {
        Ok(counts) => put_taken(run, input, counts.fields),
        Err(refusal) => put_refused(run, refusal),
    }
}

// Puts what is to be printed of a program's input. Reading has put `got` octets of it into `run`, and then answered `again` where it was tried once more, which
// is `None` where the input cannot be read. A run of 65,537 octets is needed to tell an input of 65,536 octets from a longer one.
pub fn print(text: &mut [u8], run: &[u8], got: usize, again: Option<usize>) -> Printout
    requires in_bounds { 65537 ≤ length run.now }
    requires got_in_bounds { got ≤ length run.now }
    requires in_bounds_2 { 655360 ≤ length text.old }
    ensures { Prints run.now got again text.old text.new result }
{
    match again {
        Some(_) => {
            let length = list(text, &run[..got]);
            Printout {
                stream: Stream::Output,
                length,
            }
        }
        None => {
            let length = text::put(text, 0, b"listing: standard input cannot be read\n");
            Printout {
                stream: Stream::Error,
                length,
            }
        }
    }
}

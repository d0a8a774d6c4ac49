// Asks the leaf layers the questions that stand on standard input, a record of 32 octets each, and answers each in a line. Tests compare the
// lines with computations of their own.
#![tactic(auto)]

ghost use Rattle.std.specs.Prelude.{◌≡◌, ◌≤◌, length};

use bits_reader::BitReader;
use calendar::Unit;
use octets::{BitPlace, FilePlace};
use std::cmp::Ordering;
use std::io;
use std::io::Read;

// Question 1: rebuild one double. R in octets 2-5, E in 6-7, D in 8-9, X in 10-17.
fn rebuild(rt: &impl Print, question: &[u8]) -> io::Result<()>
    requires { length question.now ≡ 32 }
{
    let r = octets::number_at(question, FilePlace(1), 4) as u32;
    let e = octets::sign_and_size(octets::number_at(question, FilePlace(5), 2), 2);
    let d = octets::sign_and_size(octets::number_at(question, FilePlace(7), 2), 2);
    let x = octets::sign_and_size(octets::number_at(question, FilePlace(9), 8), 8);
    match doubles::rebuild_one(r, e, d, x) {
        Ok(value) => {
            let pattern = f64::to_bits(value);
            print!(rt; "double {pattern:016x}")
        }
        Err(refusal) => {
            let number = refusals::number_of(refusal.why);
            let place = refusal.place.0;
            print!(rt; "refused {number} at {place}")
        }
    }
}

// Question 2: a number of bits. The bit place in octet 2, how many bits in octet 3, the run in octets 9-32.
fn read_bits(rt: &impl Print, question: &[u8]) -> io::Result<()>
    requires { length question.now ≡ 32 }
{
    let at = BitPlace(question[1] as usize);
    let b = question[2] as u32 % 33;
    let run = &question[8..];
    let number = BitReader::new(run, at).next(b);
    print!(rt; "bits {number}")
}

fn unit_of(n: u8) -> Unit {
    match n {
        0 => Unit::Minute,
        1 => Unit::Hour,
        _ => Unit::Day,
    }
}

// Question 3: a time, and another so much later. The time in octets 2-8, the unit in octet 9, how many of it in octets 10-13.
fn later(rt: &impl Print, question: &[u8]) -> io::Result<()>
    requires { length question.now ≡ 32 }
{
    match calendar::time_at(question, FilePlace(1)) {
        Some(time) => {
            let count = octets::number_at(question, FilePlace(9), 4) as u32;
            match calendar::plus(time, count, unit_of(question[8])) {
                Some(end) => {
                    print!(rt; "time ")?;
                    rt.write_all(&calendar::digits(end))
                }
                None => print!(rt; "passes 2399"),
            }
        }
        None => print!(rt; "no time"),
    }
}

// Question 4: which of two times is first. They stand in octets 2-8 and 10-16.
fn order(rt: &impl Print, question: &[u8]) -> io::Result<()>
    requires { length question.now ≡ 32 }
{
    let Some(first) = calendar::time_at(question, FilePlace(1)) else {
        return print!(rt; "no time");
    };
    let Some(second) = calendar::time_at(question, FilePlace(9)) else {
        return print!(rt; "no time");
    };
    match calendar::compare(first, second) {
        Ordering::Less => print!(rt; "before"),
        Ordering::Equal => print!(rt; "same"),
        Ordering::Greater => print!(rt; "after"),
    }
}

fn answer(rt: &impl Print, question: &[u8]) -> io::Result<()>
    requires { length question.now ≡ 32 }
{
    match question[0] {
        1 => rebuild(rt, question)?,
        2 => read_bits(rt, question)?,
        3 => later(rt, question)?,
        4 => order(rt, question)?,
        _ => print!(rt; "no question")?,
    }
    println!(rt)
}

// Reads until the run is full, the input ends or a read fails, and answers how many octets it has put at the start of the run.
fn read_full<R: Read>(input: &mut R, run: &mut [u8]) -> usize
    ensures { result ≤ length run.new }
{
    let mut got: usize = 0;
    while got < run.len() {
        match input.read(&mut run[got..]) {
            Ok(0) | Err(_) => break,
            Ok(more) => got += more,
        }
    }
    got
}

// Answers the whole questions of the first 65,536 octets of the input, one after the other. All are read before one is answered, so that whoever asks may write
// them all before reading an answer. What is left of a question at the end is passed over.
fn main(rt: HostRuntime) -> io::Result<()> {
    let mut input = [0u8; 65536];
    let got = read_full(&mut rt.stdin(), &mut input);
    for question in input[..got].chunks_exact(32) {
        answer(&rt, question)?;
    }
    Ok(())
}

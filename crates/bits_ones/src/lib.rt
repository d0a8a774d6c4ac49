// How many bits of a run of octets are set (RULES, "Section 6").
#![tactic(auto)]

ghost use Rattle.std.specs.Prelude.{◌≡◌, ◌+◌, ◌*◌, ◌^◌, ◌≤◌, ◌<◌, length};
ghost use Rattle.std.specs.Int.Count.{ones};
ghost use Rattle.bits_ones.specs.Ones.{ones_before};
ghost use Rattle.bits_ones.specs.Counted.{added_ones, counted};

use octets::BitPlace;

// Three words added bit by bit: each bit set in `sum` counts once, and each in `carry` twice.
#[derive(Clone, Copy)]
pub struct Added {
    pub sum: u64,
    pub carry: u64,
}

// Bits counted by places: those set in `ones` count once, in `twos` twice and in `fours` four times, and `eights` have been found that count
// eight times.
#[derive(Clone, Copy, Default)]
pub struct Tally {
    pub ones: u64,
    pub twos: u64,
    pub fours: u64,
    pub eights: usize,
}

fn add_three(a: u64, b: u64, c: u64) -> Added
    ensures { added_ones result ≡ ones a + ones b + ones c }
{
    let half = a ^ b;
    Added {
        sum: half ^ c,
        carry: a & b | half & c,
    }
}

// Two words at a place of the run, added to one more.
fn with_two(run: &[u8], at: usize, word: u64) -> Added
    requires { at + 16 ≤ length run.now }
    ensures { ones_before run.now (8 * at) + added_ones result ≡ ones_before run.now (8 * (at + 16)) + ones word }
{
    add_three(word, bits::eight(run, at), bits::eight(run, at + 8))
}

// Eight words more: of every eight bits that are set, one is looked at.
fn with_eight(run: &[u8], at: usize, tally: Tally) -> Tally
    requires { (at + 64 ≤ length run.now) × (tally.eights < 2 ^ 63) }
    ensures { ones_before run.now (8 * at) + counted result ≡ ones_before run.now (8 * (at + 64)) + counted tally }
{
    let a = with_two(run, at, tally.ones);
    let b = with_two(run, at + 16, a.sum);
    let c = with_two(run, at + 32, b.sum);
    let d = with_two(run, at + 48, c.sum);
    let e = add_three(tally.twos, a.carry, b.carry);
    let f = add_three(e.sum, c.carry, d.carry);
    let g = add_three(tally.fours, e.carry, f.carry);
    Tally {
        ones: d.sum,
        twos: f.sum,
        fours: g.sum,
        eights: tally.eights + g.carry.count_ones() as usize,
    }
}

// How many bits a tally has counted.
fn total(tally: Tally) -> usize
    requires { counted tally < 2 ^ 64 }
    ensures { result ≡ counted tally }
{
    let ones = tally.ones.count_ones() as usize;
    let twos = tally.twos.count_ones() as usize;
    let fours = tally.fours.count_ones() as usize;
    ones + 2 * twos + 4 * fours + 8 * tally.eights
}

// How many of the first 512 x `eights` bits are set.
#[tactic(auto, using(crate::proofs::Laws::ones_most), unfolding(crate::specs::Ones::ones_before))]
fn ones_in_eights(run: &[u8], eights: usize) -> usize
    requires { (64 * eights ≤ length run.now) × (512 * eights < 2 ^ 64) }
    ensures { result ≡ ones_before run.now (512 * eights) }
{
    let mut tally = Tally::default();
    for i in 0..eights {
        tally = with_eight(run, 64 * i, tally);
    }
    total(tally)
}

// How many bits are set in the words from number `from` up to number `end`.
fn ones_in_words(run: &[u8], from: usize, end: usize) -> usize
    requires { (from ≤ end) × (8 * end ≤ length run.now) × (64 * end < 2 ^ 64) }
    ensures { ones_before run.now (64 * from) + result ≡ ones_before run.now (64 * end) }
{
    let mut ones: usize = 0;
    for i in from..end {
        ones += bits::eight(run, 8 * i).count_ones() as usize;
    }
    ones
}

// How many of the first `n` bits are set: eight words at a time, for a bitmap is counted at every question about its field.
#[tactic(auto, using(crate::proofs::Laws::ones_most, crate::proofs::Laws::ones_more, bits::proofs::Laws::bit_lt))]
pub fn ones_before(run: &[u8], n: usize) -> usize
    requires { n ≤ 8 * length run.now }
    ensures { result ≡ ones_before run.now n }
{
    let eights = n / 512;
    let words = n / 64;
    let mut ones = ones_in_eights(run, eights) + ones_in_words(run, 8 * eights, words);
    for i in 64 * words..n {
        ones += bits::bit_in(run, BitPlace(i)) as usize;
    }
    ones
}

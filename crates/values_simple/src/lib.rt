// Simple packing (5.0): the integers X of a field, put into a lent block, and a field's points, written into runs lent for them.
#![tactic(auto)]

ghost use Rattle.std.specs.Prelude.{◌≡◌, ℕ, suc, ◌*◌, ◌≤◌, length};
ghost use Rattle.laws_rows.specs.Rows.{row};
ghost use Rattle.bits.specs.Fours.{Foured};
ghost use Rattle.values_points.specs.Written.{marks_in, lent, left, Room, Filled};
ghost use Rattle.values_integers.specs.Integers.{simple_integer};
ghost use Rattle.values_simple.specs.Simple.{numbers_from, integers_behind, ZerosWithoutBits, window_fours};

use bits_reader::BitReader;
use doubles::Packing;
use octets::{BitPlace, OctetNumber};
use values_group::{Becomes, Itself};

// Section 7 of a field in simple packing: its octets, and how many bits each number has, at most 31.
#[derive(Clone, Copy)]
pub struct NumberedSection<'a> {
    pub section: &'a [u8],
    pub bits: u32,
    ghost fits: { bits ≤ 31 },
}

// The integer numbered m of the field.
pub fn integer_at(numbered: NumberedSection, m: u64) -> u32
    requires { m ≤ 16777216 }
    ensures { result ≡ simple_integer numbered.entry.section.now numbered.entry.bits m }
{
    let section = numbered.section;
    let bits = numbered.bits;
    let first = octets::first_bit(OctetNumber(6));
    BitReader::new(section, BitPlace(first.0 + m as usize * bits as usize)).next(bits)
}

// How many fours of a field's n integers, from its first on, are read four at a time, each from one window.
pub fn window_fours(section: &[u8], bits: u32, n: u64) -> u64
    requires { n ≤ 16777216 }
    ensures { result ≡ window_fours section.now bits n }
{
    if 14 < bits {
        return 0;
    }
    bits::fours_in(
        section.len(),
        octets::first_bit(OctetNumber(6)),
        bits,
        n as usize,
    ) as u64
}

// Puts numbers one by one, one into each element of a run. The first of them stands at a place.
fn put_each<B: Becomes>(section: &[u8], bits: u32, first: BitPlace, sink: B, run: &mut [B::Element])
    requires limits { (first.0 ≤ 2199023255552) × (bits ≤ 31) × (length run.old ≤ 4294967296) }
    requires taken { (k : ℕ) → suc k ≤ length run.old → B.takes sink (numbers_from section.now bits first.0 k) }
    ensures { run.new ≡ row (λ k. B.becomes sink (numbers_from section.now bits first.0 k)) (length run.old) }
{
    // The loop has a sink of its own: of the lent one the compiler cannot know that what is written leaves it alone.
    let own = sink;
    let mut reader = BitReader::new(section, first);
    for place in run.iter_mut() {
        *place = own.of(reader.next(bits));
    }
}

// Puts so many fours of numbers into a run of as many elements, where eight octets are left behind each.
fn put_fours<B: Becomes>(
    section: &[u8],
    bits: u32,
    first: BitPlace,
    fours: usize,
    sink: B,
    run: &mut [B::Element],
)
    requires limits { (first.0 ≤ 1099511627776) × (length run.old ≤ 4294967296) × (length run.old ≡ 4 * fours) }
    requires foured { Foured (length section.now) first.0 bits (length run.old) fours }
    requires taken { (k : ℕ) → suc k ≤ length run.old → B.takes sink (numbers_from section.now bits first.0 k) }
    ensures { run.new ≡ row (λ k. B.becomes sink (numbers_from section.now bits first.0 k)) (length run.old) }
{
    let own = sink;
    let mut reader = BitReader::new(section, first);
    for four in 0..fours {
        let i = 4 * four;
        let [one, two, three, last] = reader.next_four(bits);
        run[i] = own.of(one);
        run[i + 1] = own.of(two);
        run[i + 2] = own.of(three);
        run[i + 3] = own.of(last);
    }
}

// Puts integers, from number `done` of the field on, one into each element of a lent run: four at a time, and what is left one by one.
pub fn put<B: Becomes>(numbered: NumberedSection, done: u64, sink: B, run: &mut [B::Element])
    requires limits { (done ≤ 16777216) × (length run.old ≤ 16777216) }
    requires taken { (k : ℕ) → suc k ≤ length run.old → B.takes sink (integers_behind numbered.section.now numbered.bits done k) }
    ensures { run.new ≡ row (λ k. B.becomes sink (integers_behind numbered.entry.section.now numbered.entry.bits done k)) (length run.old) }
{
    let section = numbered.section;
    let bits = numbered.bits;
    let start = octets::first_bit(OctetNumber(6));
    let first = BitPlace(start.0 + done as usize * bits as usize);
    let fours = bits::fours_in(section.len(), first, bits, run.len());
    let (front, back) = run.split_at_mut(4 * fours);
    put_fours(section, bits, first, fours, sink, front);
    let rest = BitPlace(first.0 + 4 * fours * bits as usize);
    put_each(section, bits, rest, sink, back);
}

// Puts integers into a lent block, from number `done` of the field on, one for each element. Those of no bits are zeros, as the block has to be then: a
// loop that writes zeros would become a call of the C library.
pub fn unpack(numbered: NumberedSection, done: u64, block: &mut [u32])
    requires { (done ≤ 16777216) × (length block.old ≤ 16777216) × (ZerosWithoutBits numbered.bits block.old) }
    ensures { block.new ≡ row (integers_behind numbered.entry.section.now numbered.entry.bits done) (length block.old) }
{
    if numbered.bits == 0 {
        return;
    }
    put(numbered, done, Itself, block);
}

// Fills the runs for a field of n integers: a block at a time.
pub fn fill(
    numbered: NumberedSection,
    bitmap: &[u8],
    n: u64,
    packing: Packing,
    values: &mut [f64],
    presence: &mut [u8],
)
    requires { (Room bitmap.now values.old presence.old) × (n ≡ (marks_in bitmap.now).rank (length values.old)) }
    ensures { Filled (marks_in bitmap.now) packing (simple_integer numbered.entry.section.now numbered.entry.bits)
        (lent values presence) (left values presence) }
{
    let mut block = [0u32; 56];
    let mut point: usize = 0;
    let mut done: u64 = 0;
    while done < n {
        let count = values_points::block_length(n - done);
        unpack(numbered, done, &mut block[0..count]);
        point = values_points::write(bitmap, packing, &block[0..count], values, presence, point);
        done += count as u64;
    }
    values_points::clear_missing(bitmap, values, presence, point);
}

// Section 7: where the runs of its groups lie, and what stands before them (RULES, "Section 7").
#![tactic(auto)]

ghost use Rattle.std.specs.Prelude.{◌≡◌, ◌+◌, ◌*◌, ◌<◌, ◌≤◌, ◌^◌, length};
ghost use Rattle.octets.specs.Places.{first_bit};
ghost use Rattle.bits.specs.Bits.{bits_at};
ghost use Rattle.section_7_layout.specs.Runs.{differencing_at, layout_of, width_of, length_of, StartsNear, Limited};

use bits_reader::BitReader;
use octets::{BitPlace, FilePlace, OctetNumber, Signed};
use section_5_groups::Grouping;

// The octets of the section on which its runs start: the references of the groups, their widths, their lengths, and the packed values.
#[derive(Clone, Copy)]
pub struct Layout {
    pub references: OctetNumber,
    pub widths: OctetNumber,
    pub lengths: OctetNumber,
    pub packed: OctetNumber,
}

// What stands before the groups: the first value, the second, and Zmin, the least of the second differences.
#[derive(Clone, Copy)]
pub struct Differencing {
    pub first: u32,
    pub second: u32,
    pub zmin: Signed,
}

// The first value, the second and Zmin, of `extra` octets each. The values have no sign, Zmin has one.
pub fn differencing_at(file: &[u8], at: FilePlace, extra: u32) -> Differencing
    requires { (1 ≤ extra) × (extra ≤ 4) × (at.0 + 5 + 3 * extra ≤ length file.now) }
    ensures { result ≡ differencing_at file.now at.0 extra }
{
    let w = extra as usize;
    let first = section::held(file, at, OctetNumber(6), OctetNumber(5 + w)) as u32;
    let second = section::held(file, at, OctetNumber(6 + w), OctetNumber(5 + 2 * w)) as u32;
    let zmin = section::held_signed(file, at, OctetNumber(6 + 2 * w), OctetNumber(5 + 3 * w));
    Differencing {
        first,
        second,
        zmin,
    }
}

// Where the runs of a section with such groups start.
pub fn layout_of(bits: u32, grouping: Grouping) -> Layout
    requires { Limited bits grouping }
    ensures { result ≡ layout_of bits grouping }
{
    let references = OctetNumber(6 + 3 * grouping.extra as usize);
    let widths = OctetNumber(references.0 + bits::octets_of_run(grouping.groups, bits) as usize);
    let lengths = OctetNumber(
        widths.0 + bits::octets_of_run(grouping.groups, grouping.widths.bits) as usize,
    );
    let packed = OctetNumber(
        lengths.0 + bits::octets_of_run(grouping.groups, grouping.lengths.bits) as usize,
    );
    Layout {
        references,
        widths,
        lengths,
        packed,
    }
}

// The number i of a run of numbers of b bits that starts on octet `first`.
#[tactic(auto, using(crate::proofs::Laws::stored_fits))]
pub fn stored(run: &[u8], first: OctetNumber, b: u32, i: u32) -> u32
    requires { (StartsNear first) × (b ≤ 31) }
    ensures { (result ≡ bits_at run.now (first_bit first.0 + i * b) b) × (result < 2 ^ 31) }
{
    let start = octets::first_bit(first);
    BitReader::new(run, BitPlace(start.0 + i as usize * b as usize)).next(b)
}

// The width of group i.
pub fn width_of(run: &[u8], layout: Layout, grouping: Grouping, i: u32) -> u32
    requires { (StartsNear layout.widths) × (grouping.widths.bits ≤ 31) × (grouping.widths.reference ≤ 31) }
    ensures { result ≡ width_of run.now layout grouping i }
{
    let widths = grouping.widths;
    let first = layout.widths;
    widths.reference + stored(run, first, widths.bits, i)
}

// The length of group i. For the last one, what is stored is not used.
pub fn length_of(run: &[u8], layout: Layout, grouping: Grouping, i: u32) -> u64
    requires { (StartsNear layout.lengths) × (grouping.lengths.bits ≤ 31) × (i < grouping.groups) }
    ensures { (result ≡ length_of run.now layout grouping i) × (result < 2 ^ 63) }
{
    let lengths = grouping.lengths;
    let first = layout.lengths;
    if i + 1 == grouping.groups {
        return lengths.last as u64;
    }
    lengths.reference as u64 + lengths.increment as u64 * stored(run, first, lengths.bits, i) as u64
}

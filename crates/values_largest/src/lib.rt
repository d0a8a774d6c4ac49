// The largest integer X of a field, found before any grey is made. In complex packing it is found as the integers are judged: one that is out of its
// range shows.
#![tactic(auto)]

ghost use Rattle.std.specs.Prelude.{◌≡◌, ◌*◌, ◌≤◌, length};
ghost use Rattle.bits.specs.Fours.{Foured};
ghost use Rattle.values_integers.specs.Integers.{simple_integer};
ghost use Rattle.values_group.specs.Group.{most_x, Limits};
ghost use Rattle.values_complex.specs.Complex.{values_in, integer_in};
ghost use Rattle.values_simple.specs.Simple.{Windowed};
ghost use Rattle.values_largest.specs.Largest.{largest_of, largest_in, seen_by};

use bits_reader::BitReader;
use octets::{BitPlace, OctetNumber};
use values_complex::{GroupedSection, Start};
use values_group::{Group, Latest};
use values_simple::NumberedSection;

// The last two integers, and the largest so far.
#[derive(Clone, Copy)]
pub struct Seen {
    pub latest: Latest,
    pub largest: u64,
}

// The largest of so many fours of a field's first integers in simple packing, each four from one window. What was found before stands last in each comparison:
// the other way round the compiler makes a loop of it that takes longer.
fn in_fours(section: &[u8], bits: u32, n: u64, fours: u64) -> u64
    requires { (n ≤ 16777216) × (Windowed section.now bits n fours) }
    ensures { result ≡ largest_of (simple_integer section.now bits) (4 * fours) }
{
    let mut reader = BitReader::new(section, octets::first_bit(OctetNumber(6)));
    let mut largest: u64 = 0;
    for _ in 0..fours {
        let [one, two, three, last] = reader.next_several::<4>(bits);
        let found = two.max(one).max(last.max(three));
        largest = (found as u64).max(largest);
    }
    largest
}

// The largest of a field's n integers in simple packing: the first of them four at a time, and the others one by one.
pub fn of_simple(numbered: NumberedSection, n: u64) -> u32
    requires { n ≤ 16777216 }
    ensures { result ≡ largest_of (simple_integer numbered.entry.section.now numbered.entry.bits) n }
{
    let section = numbered.section;
    let bits = numbered.bits;
    let first = octets::first_bit(OctetNumber(6));
    let fours = values_simple::window_fours(section, bits, n);
    let mut largest = in_fours(section, bits, n, fours);
    let start = 4 * fours;
    let place = BitPlace(first.0 + start as usize * bits as usize);
    let mut reader = BitReader::new(section, place);
    for _ in start..n {
        let x = reader.next(bits);
        largest = (x as u64).max(largest);
    }
    largest as u32
}

// Works out so many fours of a group's first integers. One test behind the last finds any that is out of its range: as a number without a sign it is
// the largest then.
fn in_group_fours(section: &[u8], group: Group, fours: u64, seen: Seen) -> Option<Seen>
    requires { (Limits group seen.latest) × (Foured (length section.now) group.from.0 group.width group.count fours) × (seen.largest ≤ most_x) }
    ensures { result ≡ seen_by section.now group seen (4 * fours) }
{
    let width = group.width;
    let gain = values_group::gain_of(group);
    let mut reader = BitReader::new(section, group.from);
    let mut latest = seen.latest;
    let mut largest = seen.largest;
    for _ in 0..fours {
        let [one, two, three, last] = reader.next_four(width);
        let first = latest.next(one, gain);
        let second = latest.next(two, gain);
        let third = latest.next(three, gain);
        let fourth = latest.next(last, gain);
        largest = fourth.max(third.max(second.max(first.max(largest))));
    }
    if 2147483647 < largest {
        return None;
    }
    Some(Seen { latest, largest })
}

// Works out the integers of a group one by one, with one test behind the last.
fn in_group_each(section: &[u8], group: Group, seen: Seen) -> Option<Seen>
    requires { (Limits group seen.latest) × (seen.largest ≤ most_x) }
    ensures { result ≡ seen_by section.now group seen group.count }
{
    let width = group.width;
    let gain = values_group::gain_of(group);
    let mut reader = BitReader::new(section, group.from);
    let mut latest = seen.latest;
    let mut largest = seen.largest;
    for _ in 0..group.count {
        let x = latest.next(reader.next(width), gain);
        largest = x.max(largest);
    }
    if 2147483647 < largest {
        return None;
    }
    Some(Seen { latest, largest })
}

// Works out the integers of a group, behind the two latest, and finds the largest of them and of those before the group.
fn in_group(section: &[u8], group: Group, seen: Seen) -> Option<Seen>
    requires { (Limits group seen.latest) × (seen.largest ≤ most_x) }
    ensures { result ≡ seen_by section.now group seen group.count }
{
    let fours = bits::fours_in(section.len(), group.from, group.width, group.count as usize) as u64;
    let found = in_group_fours(section, group, fours, seen)?;
    in_group_each(section, values_group::behind(group, 4 * fours), found)
}

// The largest of a field's integers in complex packing, group by group, where none is out of its range.
pub fn of_complex(grouped: GroupedSection) -> Option<u32>
    ensures { result ≡ largest_in (integer_in grouped.entry.section.now grouped.entry.groups)
        (values_in grouped.entry.section.now grouped.entry.groups) }
{
    let section = grouped.section;
    let groups = grouped.groups;
    let layout = groups.layout;
    let grouping = groups.grouping;
    let differencing = groups.differencing;
    if 2147483647 < differencing.first {
        return None;
    }
    if 2147483647 < differencing.second {
        return None;
    }
    let x = differencing.second as u64;
    let before = differencing.first as u64;
    let mut seen = Seen {
        latest: Latest { x, before },
        largest: x.max(before),
    };
    let bit = octets::first_bit(layout.packed);
    let mut start = Start { values: 0, bit };
    for i in 0..grouping.groups {
        let met = values_complex::group_at(&grouped, i, start);
        seen = in_group(section, met.group, seen)?;
        start = met.next;
    }
    Some(seen.largest as u32)
}

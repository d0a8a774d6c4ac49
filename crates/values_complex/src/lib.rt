// Complex packing with second differences (5.3): the groups of a field one after the other, judged in a first pass that writes nothing, and written
// in a second one; and one integer of a field, which the first pass alone finds.
#![tactic(auto)]

ghost use Rattle.std.specs.Prelude.{◌≡◌, ◌+◌, ◌≤◌, ◌<◌, length};
ghost use Rattle.values_points.specs.Written.{marks_in, lent, left, Room, PointsLeft, Filled};
ghost use Rattle.values_group.specs.Group.{Limits, GroupKept, GroupGoes};
ghost use Rattle.values_integers.specs.Worked.{raised_by, lowered_by};
ghost use Rattle.values_integers.specs.Integers.{are_in_range};
ghost use Rattle.values_complex.specs.Complex.{skipped, start_of, group_at, first_of, values_in, integer_in, size_in, worked_in, single_of, AllInRange, Sound, GroupWritten};

use doubles::Packing;
use octets::{BitPlace, Signed};
use section_7::Groups;
use values_group::{Group, Latest};

// Section 7 of a field in complex packing: its octets, and what is known of its groups, which are sound.
#[derive(Clone, Copy)]
pub struct GroupedSection<'a> {
    pub section: &'a [u8],
    pub groups: Groups,
    ghost sound: { Sound section.now groups },
}

// Where a group starts: how many values stand before it, and the place of its first bit.
#[derive(Clone, Copy)]
pub struct Start {
    pub values: u64,
    pub bit: BitPlace,
}

// A group, and where the next one starts.
#[derive(Clone, Copy)]
pub struct Met {
    pub group: Group,
    pub next: Start,
}

// How far the writing has come: the last two integers, and the next point.
#[derive(Clone, Copy)]
pub struct Reached {
    pub latest: Latest,
    pub point: usize,
}

// What Zmin adds.
fn raised_by(zmin: Signed) -> u64
    ensures { result ≡ raised_by zmin }
{
    if zmin.negative { 0 } else { zmin.size }
}

// What Zmin takes away.
fn lowered_by(zmin: Signed) -> u64
    ensures { result ≡ lowered_by zmin }
{
    if zmin.negative { zmin.size } else { 0 }
}

// How many values of a group are among the field's first two, whose packed numbers are not used.
fn skipped(values: u64, length: u64) -> u64
    ensures { result ≡ skipped values length }
{
    length.min(2u64.saturating_sub(values))
}

// Group i, which starts at `start`. The section and its groups are lent: handed on by value they are copied for each group, and decode takes a twelfth longer.
pub fn group_at(grouped: &GroupedSection, i: u32, start: Start) -> Met
    requires within { i < grouped.now.groups.grouping.groups }
    requires start_value { start ≡ start_of grouped.now.section.now grouped.now.groups i }
    ensures { (result.group ≡ group_at grouped.now.section.now grouped.now.groups i)
        × (result.next ≡ start_of grouped.now.section.now grouped.now.groups (i + 1)) }
{
    let section = grouped.section;
    let groups = grouped.groups;
    let layout = groups.layout;
    let grouping = groups.grouping;
    let differencing = groups.differencing;
    let references = layout.references;
    let zmin = differencing.zmin;
    let first = start.bit.0;
    let width = section_7_layout::width_of(section, layout, grouping, i);
    let length = section_7_layout::length_of(section, layout, grouping, i);
    let reference = section_7_layout::stored(section, references, groups.bits, i);
    let skip = skipped(start.values, length);
    Met {
        group: Group {
            from: BitPlace(first + skip as usize * width as usize),
            width,
            base: reference as u64 + raised_by(zmin),
            lowered: lowered_by(zmin),
            count: length - skip,
        },
        next: Start {
            values: start.values + length,
            bit: BitPlace(first + width as usize * length as usize),
        },
    }
}

// The first numbers of a group, and no more than `most` of them.
fn first_of(group: Group, most: u64) -> Group
    ensures { result ≡ first_of group most }
{
    Group {
        count: group.count.min(most),
        ..group
    }
}

// Works out so many integers behind the second, group by group, and stops at one that is out of its range. It writes nothing, and looks at nothing behind them.
fn worked_to(grouped: GroupedSection, wanted: u64) -> Option<Latest>
    requires wanted_bound { wanted + 2 ≤ values_in grouped.section.now grouped.groups }
    requires first_bound { (grouped.groups.differencing.first ≤ 2147483647) × (grouped.groups.differencing.second ≤ 2147483647) }
    ensures { result ≡ worked_in grouped.entry.section.now grouped.entry.groups wanted }
{
    let section = grouped.section;
    let groups = grouped.groups;
    let layout = groups.layout;
    let differencing = groups.differencing;
    let x = differencing.second as u64;
    let before = differencing.first as u64;
    let mut latest = Latest { x, before };
    let bit = octets::first_bit(layout.packed);
    let mut start = Start { values: 0, bit };
    let mut i: u32 = 0;
    let mut left = wanted;
    while 0 < left {
        let met = group_at(&grouped, i, start);
        let group = first_of(met.group, left);
        latest = values_group::judge(section, group, latest)?;
        start = met.next;
        i += 1;
        left -= group.count;
    }
    Some(latest)
}

// Is every integer X of the field from 0 to 2,147,483,647? There are n of them.
pub fn is_in_range(grouped: GroupedSection, n: u64) -> bool
    requires { n ≡ values_in grouped.section.now grouped.groups }
    ensures { result ≡ are_in_range (integer_in grouped.entry.section.now grouped.entry.groups) n }
{
    let differencing = grouped.groups.differencing;
    if 2147483647 < differencing.first {
        return false;
    }
    if 2147483647 < differencing.second {
        return false;
    }
    worked_to(grouped, n - 2).is_some()
}

// The integer numbered m of the field, where none up to it is out of its range. Those behind it are not looked at: for the first, the second is not.
pub fn integer_at(grouped: GroupedSection, m: u64) -> Option<u32>
    requires { m < values_in grouped.section.now grouped.groups }
    ensures { result ≡ single_of (integer_in grouped.entry.section.now grouped.entry.groups) m }
{
    let differencing = grouped.groups.differencing;
    if 2147483647 < differencing.first {
        return None;
    }
    if m == 0 {
        return Some(differencing.first);
    }
    if 2147483647 < differencing.second {
        return None;
    }
    let latest = worked_to(grouped, m - 1)?;
    Some(latest.x as u32)
}

// Writes the group's integers to the next points that are present, and +0 to those missing before each: a block at a time.
fn write_group(
    section: &[u8],
    bitmap: &[u8],
    group: Group,
    packing: Packing,
    block: &mut [u32],
    values: &mut [f64],
    presence: &mut [u8],
    reached: Reached,
) -> Reached
    requires limits { (Limits group reached.latest) × (GroupKept section.now group reached.latest group.count) }
    requires room { (Room bitmap.now values.old presence.old) × (PointsLeft bitmap.now reached.point group.count (length values.old)) }
    requires block_len { length block.old ≡ 56 }
    ensures group_goes { GroupGoes section.now group reached.latest group.count result.latest }
    ensures group_written { GroupWritten (marks_in bitmap.now) packing section.now group reached result
        (lent values presence) (left values presence) }
{
    let mut latest = reached.latest;
    let mut point = reached.point;
    let mut done: u64 = 0;
    while done < group.count {
        let n = values_points::block_length(group.count - done);
        latest = values_group::unpack(section, group, done, &mut block[0..n], latest);
        point = values_points::write(bitmap, packing, &block[0..n], values, presence, point);
        done += n as u64;
    }
    Reached { latest, point }
}

// Fills the runs for a field: the first two integers, and then group by group.
pub fn fill(
    grouped: GroupedSection,
    bitmap: &[u8],
    packing: Packing,
    values: &mut [f64],
    presence: &mut [u8],
)
    requires all_in_range { AllInRange grouped.section.now grouped.groups }
    requires room { Room bitmap.now values.old presence.old }
    requires groups_value { values_in grouped.section.now grouped.groups ≡ (marks_in bitmap.now).rank (length values.old) }
    ensures { Filled (marks_in bitmap.now) packing (size_in grouped.entry.section.now grouped.entry.groups) (lent values presence) (left values presence) }
{
    let section = grouped.section;
    let groups = grouped.groups;
    let layout = groups.layout;
    let grouping = groups.grouping;
    let differencing = groups.differencing;
    let mut block = [0u32; 56];
    block[0] = differencing.first;
    block[1] = differencing.second;
    let point = values_points::write(bitmap, packing, &block[0..2], values, presence, 0);
    let x = differencing.second as u64;
    let before = differencing.first as u64;
    let latest = Latest { x, before };
    let mut reached = Reached { latest, point };
    let bit = octets::first_bit(layout.packed);
    let mut start = Start { values: 0, bit };
    for i in 0..grouping.groups {
        let met = group_at(&grouped, i, start);
        let group = met.group;
        reached = write_group(
            section, bitmap, group, packing, &mut block, values, presence, reached,
        );
        start = met.next;
    }
    values_points::clear_missing(bitmap, values, presence, reached.point);
}

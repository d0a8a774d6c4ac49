// Section 7: what it holds. These are the packed numbers of a field and nothing else, and their groups add up (RULES, "Section 7").
#![tactic(auto)]

ghost use Rattle.std.specs.Prelude.{◌≡◌, ◌&&◌, leb};
ghost use Rattle.section_7_layout.specs.Runs.{StartsNear, Limited};
ghost use Rattle.section_7.specs.Packing.{plan_of, grouped_at, data_at, LimitedBy};

use section::FileSection;
use section_5::{Representation, Template};
use section_5_groups::Grouping;
use section_7_layout::{Differencing, Layout};

// What is known of all groups: where their runs lie, how their widths and lengths are told, the bits of a reference, and what stands before
// them.
#[derive(Clone, Copy)]
pub struct Groups {
    pub layout: Layout,
    pub grouping: Grouping,
    pub bits: u32,
    pub differencing: Differencing,
}

// What section 7 holds: numbers of so many bits one after the other, or groups of them with their plan.
#[derive(Clone, Copy)]
pub enum Data {
    Simple,
    Complex(Groups),
}

// Can a group have such a width and such a length?
fn is_sound(width: u32, length: u64) -> bool
    ensures { result ≡ (leb width 31 && leb 1 length) }
{
    width <= 31 && 1 <= length
}

// How many bits the packed values of all groups take, where the groups are sound and have n values.
fn plan_of(run: &[u8], layout: Layout, grouping: Grouping, n: u32) -> Option<u64>
    requires { (StartsNear layout.widths) × (StartsNear layout.lengths) × (Limited 0 grouping) }
    ensures { result ≡ plan_of run.now layout grouping n }
{
    let mut values: u64 = 0;
    let mut bits: u64 = 0;
    for i in 0..grouping.groups {
        let width = section_7_layout::width_of(run, layout, grouping, i);
        let length = section_7_layout::length_of(run, layout, grouping, i);
        if !is_sound(width, length) {
            return None;
        }
        if (n as u64) < values + length {
            return None;
        }
        values += length;
        bits += width as u64 * length;
    }
    if values != n as u64 {
        return None;
    }
    Some(bits)
}

// The groups of the section, where it holds n values in them, and nothing else.
fn grouped_at(section: FileSection, n: u32, bits: u32, grouping: Grouping) -> Option<Data>
    requires { Limited bits grouping }
    ensures { result ≡ grouped_at section.entry.file.now section.entry.at.0 n bits grouping }
{
    let length = section.length();
    let layout = section_7_layout::layout_of(bits, grouping);
    // A section that ends before its packed values is too short, whatever the groups are: they are not read.
    let head = layout.packed.0 - 1;
    if length < head {
        return None;
    }
    let packed = plan_of(section.octets(), layout, grouping, n)?;
    if length as u64 != head as u64 + bits::octets_of(packed) {
        return None;
    }
    let differencing = section_7_layout::differencing_at(section.file, section.at, grouping.extra);
    Some(Data::Complex(Groups {
        layout,
        grouping,
        bits,
        differencing,
    }))
}

// What section 7 holds, where it is taken: it must hold the values that the representation tells, and nothing else.
#[tactic(auto, unfolding(crate::specs::Packing::data_at))]
pub fn data_at(section: FileSection, representation: Representation) -> Option<Data>
    requires { LimitedBy representation.bits representation.template }
    ensures { result ≡ data_at section.entry.file.now section.entry.at.0 representation }
{
    let template = representation.template;
    match template {
        Template::Simple => {
            let packed = bits::octets_of_run(representation.n, representation.bits);
            if section.length() as u64 != 5 + packed {
                return None;
            }
            Some(Data::Simple)
        }
        Template::Complex(grouping) => {
            grouped_at(section, representation.n, representation.bits, grouping)
        }
    }
}

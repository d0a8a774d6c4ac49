// The greys of a field's integers, in the order in which these are packed: a lent run has one for each. All integers are judged before.
#![tactic(auto)]

ghost use Rattle.std.specs.Prelude.{◌≡◌, ◌≤◌, length};
ghost use Rattle.laws_rows.specs.Rows.{row};
ghost use Rattle.greys.specs.Greys.{grey_of, ScaledTo, Below};
ghost use Rattle.values_integers.specs.Integers.{simple_integer};
ghost use Rattle.values_complex.specs.Complex.{values_in, size_in, AllInRange};
ghost use Rattle.values_greys.specs.Packed.{packed_grey};

use greys::Scale;
use values_complex::{GroupedSection, Start};
use values_group::{Becomes, Latest};
use values_simple::NumberedSection;

// An integer becomes its grey by a scale.
#[derive(Clone, Copy)]
struct Grey {
    scale: Scale,
}

impl Becomes for Grey {
    type Element = u8;

    ghost takes = { λ grey x. ScaledTo grey.scale × (x ≤ grey.scale.largest) };

    ghost becomes = { λ grey x. grey_of grey.scale.largest x };

    fn of(self, x: u32) -> u8 {
        greys::grey_of(self.scale, x)
    }
}

// Puts 1 to each octet, which is the grey of an integer of no bits, from both ends on: a loop that writes one number to octets one behind the other
// would become a call of the C library.
fn put_ones(greys: &mut [u8])
    ensures { greys.new ≡ row (λ _. 1) (length greys.old) }
{
    let all = greys.len();
    for i in 0..all.div_ceil(2) {
        greys[i] = 1;
        greys[all - 1 - i] = 1;
    }
}

// Puts the greys of a field's integers in simple packing.
pub fn put_simple(numbered: NumberedSection, scale: Scale, greys: &mut [u8])
    requires greys_len_bound { length greys.old ≤ 16777216 }
    requires scaled_to { (ScaledTo scale) × (Below scale (simple_integer numbered.section.now numbered.bits) (length greys.old)) }
    ensures { greys.new ≡ row (packed_grey scale (simple_integer numbered.entry.section.now numbered.entry.bits)) (length greys.old) }
{
    if numbered.bits == 0 {
        put_ones(greys);
        return;
    }
    values_simple::put(numbered, 0, Grey { scale }, greys);
}

// Puts the greys of a field's integers in complex packing: of the first two, and then group by group.
pub fn put_complex(grouped: GroupedSection, scale: Scale, greys: &mut [u8])
    requires all_in_range { AllInRange grouped.section.now grouped.groups }
    requires greys_value { length greys.old ≡ values_in grouped.section.now grouped.groups }
    requires scaled_to { (ScaledTo scale) × (Below scale (size_in grouped.section.now grouped.groups) (values_in grouped.section.now grouped.groups)) }
    ensures { greys.new ≡ row (packed_grey scale (size_in grouped.entry.section.now grouped.entry.groups)) (length greys.old) }
{
    let section = grouped.section;
    let groups = grouped.groups;
    let layout = groups.layout;
    let grouping = groups.grouping;
    let differencing = groups.differencing;
    greys[0] = greys::grey_of(scale, differencing.first);
    greys[1] = greys::grey_of(scale, differencing.second);
    let x = differencing.second as u64;
    let before = differencing.first as u64;
    let mut latest = Latest { x, before };
    let bit = octets::first_bit(layout.packed);
    let mut start = Start { values: 0, bit };
    let grey = Grey { scale };
    let mut done: usize = 2;
    for i in 0..grouping.groups {
        let met = values_complex::group_at(&grouped, i, start);
        let group = met.group;
        let end = done + group.count as usize;
        latest = values_group::put(section, group, latest, grey, &mut greys[done..end]);
        start = met.next;
        done = end;
    }
}

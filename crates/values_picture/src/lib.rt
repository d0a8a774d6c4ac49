// The greys of a field's points in the run lent for them. Those of the points that are present are put at its end, in the order in which their integers are
// packed, and are then moved to their points: the grey of a point lies behind the point's place, or at it, so that none is overwritten before it is moved.
#![tactic(auto)]

ghost use Rattle.std.specs.Prelude.{◌≡◌, ◌+◌, ◌≤◌, length};
ghost use Rattle.laws_rows.specs.Rows.{row};
ghost use Rattle.greys.specs.Greys.{ScaledTo, Below};
ghost use Rattle.values_points.specs.Written.{marks_in, Covers};
ghost use Rattle.values_integers.specs.Integers.{simple_integer};
ghost use Rattle.values_complex.specs.Complex.{values_in, size_in, AllInRange};
ghost use Rattle.values_picture.specs.Painted.{grey_at, given_at, Canvas};

use greys::Scale;
use values_complex::GroupedSection;
use values_simple::NumberedSection;

// Moves the greys from `from` on to the points that are present, and writes 0 to those that are missing. Where no missing point is left, the greys behind lie
// at their points. A loop over the places, `for i in 0..greys.len()`, which ends there, takes a sixth longer over a bitmap.
fn spread(bitmap: &[u8], greys: &mut [u8], from: usize)
    requires greys_len_bound { (length greys.old ≤ 16777216) × (Covers bitmap.now (length greys.old)) }
    requires greys_value { from + (marks_in bitmap.now).rank (length greys.old) ≡ length greys.old }
    ensures { greys.new ≡ row (given_at (marks_in bitmap.now) greys.old from) (length greys.old) }
{
    let mut next = from;
    let mut i: usize = 0;
    while i < next {
        if values_points::is_present(bitmap, i) {
            greys[i] = greys[next];
            next += 1;
            i += 1;
        } else {
            greys[i] = 0;
            i += 1;
        }
    }
}

// Paints the points of a field in simple packing, which has n integers.
pub fn paint_simple(
    numbered: NumberedSection,
    bitmap: &[u8],
    n: u64,
    scale: Scale,
    greys: &mut [u8],
)
    requires canvas { Canvas bitmap.now (length greys.old) n }
    requires scaled_to { (ScaledTo scale) × (Below scale (simple_integer numbered.section.now numbered.bits) n) }
    ensures { greys.new ≡ row (grey_at (marks_in bitmap.now) scale (simple_integer numbered.entry.section.now numbered.entry.bits))
        (length greys.old) }
{
    let end = greys.len();
    let from = end - n as usize;
    values_greys::put_simple(numbered, scale, &mut greys[from..end]);
    spread(bitmap, greys, from);
}

// Paints the points of a field in complex packing, which has n integers.
pub fn paint_complex(grouped: GroupedSection, bitmap: &[u8], n: u64, scale: Scale, greys: &mut [u8])
    requires all_in_range { AllInRange grouped.section.now grouped.groups }
    requires n_value { n ≡ values_in grouped.section.now grouped.groups }
    requires canvas { Canvas bitmap.now (length greys.old) n }
    requires scaled_to { (ScaledTo scale) × (Below scale (size_in grouped.section.now grouped.groups) n) }
    ensures { greys.new ≡ row (grey_at (marks_in bitmap.now) scale (size_in grouped.entry.section.now grouped.entry.groups))
        (length greys.old) }
{
    let end = greys.len();
    let from = end - n as usize;
    values_greys::put_complex(grouped, scale, &mut greys[from..end]);
    spread(bitmap, greys, from);
}

// From R, E, D and X to a double: the packing record, the rebuild, and the question that rebuilds one double.
#![tactic(auto)]

ghost use Rattle.std.specs.Prelude.{◌≡◌, ◌≤◌};
ghost use Rattle.std.specs.Float.{binary32};
ghost use Rattle.std.specs.Float.Ieee.{of_bits};
ghost use Rattle.std.specs.Float.Ieee.Scale.{finite};
ghost use Rattle.octets.specs.Numbers.{whole};
ghost use Rattle.doubles.specs.Doubles.{Scaled, power_of_two, power_of_ten, packing_of, rebuilt, is_rebuildable, rebuild_one};

use octets::{FilePlace, Signed};
use refusals::{Refusal, Why};

// What turns X into a double: R, 2 ^ E and 10 ^ |D|, each exact, and whether D is below 0.
#[derive(Clone, Copy)]
pub struct Packing {
    pub reference: f64,
    pub binary: f64,
    pub decimal: f64,
    pub below: bool,
}

// 10 ^ n, by n products with ten. None of them rounds: 10 ^ n is 5 ^ n x 2 ^ n, and a double keeps 2 ^ n in its exponent and 5 ^ n in its 53
// binary digits. 5 ^ 22 has 52 digits. 5 ^ 23 has 54, so that 10 ^ 23 is no double.
fn power_of_ten(n: u64) -> f64
    requires { n ≤ 22 }
    ensures { result ≡ power_of_ten n }
{
    let mut power = 1.0;
    for _ in 0..n {
        power *= 10.0;
    }
    power
}

// 2 ^ e: the double whose exponent's field is 1023 + e and whose fraction's field is 0.
#[tactic(auto, using(crate::proofs::Powers::two_up, crate::proofs::Powers::two_down, crate::proofs::Powers::ordinary_pattern))]
fn power_of_two(e: Signed) -> f64
    requires { e.size ≤ 127 }
    ensures { result ≡ power_of_two (whole e) }
{
    if e.negative {
        f64::from_bits((1023 - e.size) * 0x10_0000_0000_0000)
    } else {
        f64::from_bits((1023 + e.size) * 0x10_0000_0000_0000)
    }
}

// Is the single with these bits finite? Its exponent's field is not all ones then.
#[tactic(auto, using(crate::proofs::Answers::finite_by_field))]
pub fn is_finite(r: u32) -> bool
    ensures { result ≡ finite (of_bits binary32 r) }
{
    r % 0x8000_0000 / 0x80_0000 != 255
}

// The packing record of section 5's numbers. `r` is the single that four octets hold, by its bits.
pub fn packing_of(r: u32, e: Signed, d: Signed) -> Packing
    requires { Scaled r e d }
    ensures { result ≡ packing_of r e d }
{
    Packing {
        reference: f32::from_bits(r) as f64,
        binary: power_of_two(e),
        decimal: power_of_ten(d.size),
        below: d.negative,
    }
}

// R + X x 2 ^ E, rounded once, then divided by 10 ^ D, or multiplied by 10 ^ -D, and rounded once.
#[tactic(auto, unfolding(crate::specs::Doubles::scaled_by, crate::specs::Doubles::sum_of))]
pub fn rebuild(p: Packing, x: u32) -> f64
    ensures { result ≡ rebuilt p x }
{
    let sum = p.reference + x as f64 * p.binary;
    if p.below {
        sum * p.decimal
    } else {
        sum / p.decimal
    }
}

// Can a double be rebuilt of these? R is finite, and the others are in their ranges. X has no sign, unless it is 0.
fn is_rebuildable(r: u32, e: Signed, d: Signed, x: Signed) -> bool
    ensures { result ≡ is_rebuildable r e d x }
{
    is_finite(r)
        && e.size <= 127
        && d.size <= 22
        && x.size <= 0x7fff_ffff
        && (!x.negative || x.size == 0)
}

// One double from R, E, D and X, or the refusal where R is not finite or one of the others is out of its range.
pub fn rebuild_one(r: u32, e: Signed, d: Signed, x: Signed) -> Result<f64, Refusal>
    ensures { result ≡ rebuild_one r e d x }
{
    if !is_rebuildable(r, e, d, x) {
        return Err(Why::NotRebuildable.at(FilePlace(0)));
    }
    Ok(rebuild(packing_of(r, e, d), x.size as u32))
}

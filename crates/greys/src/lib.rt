// X to a grey of a picture, from 1 to 255: by the largest X that is present, and with no double on the way.
#![tactic(auto)]

ghost use Rattle.std.specs.Prelude.{◌≡◌, ◌≤◌};
ghost use Rattle.greys.specs.Greys.{grey_of, scale_of, ScaledTo};

// How greys are worked out: the largest X, or 1 where that is 0, and its share of 254 x 2^56, rounded up.
#[derive(Clone, Copy)]
pub struct Scale {
    pub largest: u64,
    pub share: u64,
}

// The scale of a largest X.
pub fn scale_of(largest: u32) -> Scale
    ensures { result ≡ scale_of largest }
{
    if largest == 0 {
        return Scale {
            largest: 1,
            share: 0xfe00_0000_0000_0001,
        };
    }
    Scale {
        largest: largest as u64,
        share: 0xfe00_0000_0000_0000 / largest as u64 + 1,
    }
}

// The grey of X. Where the largest X is below 2^28, which its share tells, a product finds the grey. That is faster than to divide, and exact: what the share is
// rounded up by, X times, is less than 2^56 / M. The largest X itself is not tested: the compiler would find that narrow integers are all 1 in the other branch,
// which they never take, and would call the C library there.
#[tactic(auto, using(crate::proofs::Laws::product_fits, crate::proofs::Laws::product_grey, crate::proofs::Laws::grey_fits))]
pub fn grey_of(scale: Scale, x: u32) -> u8
    requires { (ScaledTo scale) × (x ≤ scale.largest) }
    ensures { result ≡ grey_of scale.largest x }
{
    if 0xf_e000_0001 < scale.share {
        return ((x as u64 * scale.share >> 56) + 1) as u8;
    }
    (254 * x as u64 / scale.largest + 1) as u8
}

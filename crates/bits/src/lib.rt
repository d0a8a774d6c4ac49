// The numbers of b bits in a run of octets, top bit first, and how many octets a run of them takes.
#![tactic(auto)]

ghost use Rattle.std.specs.Prelude.{◌≡◌, ◌+◌, ◌-◌, ◌*◌, ◌/◌, ◌%◌, ◌^◌, ◌≤◌, ◌<◌, length};
ghost use Rattle.octets.specs.Numbers.{octet_at, number_at};
ghost use Rattle.bits.specs.Bits.{bit_at, bits_at, octets_of};
ghost use Rattle.bits.specs.Fours.{fours_in, numbers_at};

use octets::BitPlace;

// Eight octets as one number. It compiles to one load and one byte swap.
pub fn eight(run: &[u8], from: usize) -> u64
    requires { from + 8 ≤ length run.now }
    ensures { result ≡ number_at run.now from 8 }
{
    u64::from_be_bytes(run[from..from + 8].try_into().unwrap())
}

// An octet of a run, and 0 past its end.
fn octet_or_zero(run: &[u8], i: usize) -> u8
    ensures { result ≡ octet_at run.now i }
{
    run.get(i).copied().unwrap_or(0)
}

// One bit of a run, and 0 past its end.
#[tactic(auto, unfolding(crate::specs::Bits::bit_at))]
pub fn bit_or_zero(run: &[u8], at: BitPlace) -> u8
    ensures { result ≡ bit_at run.now at.0 }
{
    let holding = octets::octet_holding(at);
    (octet_or_zero(run, holding.0 - 1) >> (7 - at.0 % 8)) % 2
}

// One bit of a run that has it. It tests nothing, for the loops over a bitmap.
#[tactic(auto, unfolding(crate::specs::Bits::bit_at))]
pub fn bit_in(run: &[u8], at: BitPlace) -> u8
    requires { at.0 < 8 * length run.now }
    ensures { result ≡ bit_at run.now at.0 }
{
    let holding = octets::octet_holding(at);
    let i = holding.0 - 1;
    (run[i] >> (7 - at.0 % 8)) % 2
}

// The number of b bits from a place on, bit by bit: for the last octets of a run.
#[tactic(auto, using(crate::proofs::Laws::bits_more, crate::proofs::Laws::bits_more_lt), unfolding(crate::specs::Bits::bits_at))]
fn bit_by_bit(run: &[u8], at: BitPlace, b: u32) -> u32
    requires { (at.0 + b < 2 ^ 64) × (b ≤ 32) }
    ensures { result ≡ bits_at run.now at.0 b }
{
    let from = at.0;
    let mut number: u32 = 0;
    for taken in 0..b {
        number = number * 2 + bit_or_zero(run, BitPlace(from + taken as usize)) as u32;
    }
    number
}

// The number of at most 56 bits from a place on, where eight octets are left: it stands in one window, and nothing is tested. How far the window is shifted
// is worked out in 32 bits: in 64, describing a field of many groups takes longer.
pub fn read_wide(run: &[u8], at: BitPlace, b: u32) -> u64
    requires { (at.0 / 8 + 8 ≤ length run.now) × (b ≤ 56) }
    ensures { result ≡ bits_at run.now at.0 b }
{
    let holding = octets::octet_holding(at);
    let window = eight(run, holding.0 - 1);
    let past = (at.0 % 8) as u32;
    (window / 2 >> (63 - past - b)) % (1u64 << b)
}

// The number of b bits from a place on. The bits past the run's end are 0.
#[tactic(auto, using(crate::proofs::Laws::bits_fit))]
pub fn read_bits(run: &[u8], at: BitPlace, b: u32) -> u32
    requires { (at.0 + b < 2 ^ 64) × (b ≤ 32) }
    ensures { result ≡ bits_at run.now at.0 b }
{
    let holding = octets::octet_holding(at);
    if holding.0 + 7 <= run.len() {
        read_wide(run, at, b) as u32
    } else {
        bit_by_bit(run, at, b)
    }
}

// The lowest b bits of a number.
fn lowest(number: u64, b: u32) -> u32
    requires { b ≤ 32 }
    ensures { result ≡ number % 2 ^ b }
{
    (number % (1u64 << b)) as u32
}

// K numbers of b bits, one behind the other, where eight octets are left from the first on: all stand in one window, and nothing is tested. The window is
// shifted down until the last number stands lowest, so that how far each lies above it does not hang on the place. K is known where this is compiled: the
// loop is unrolled, and the numbers stay in registers.
pub fn read_several<const K: usize>(run: &[u8], at: BitPlace, b: u32) -> [u32; K]
    requires { (at.0 / 8 + 8 ≤ length run.now) × (K * b ≤ 56) × (b ≤ 32) }
    ensures { result ≡ numbers_at run.now at.0 b K }
{
    let holding = octets::octet_holding(at);
    let past = (at.0 % 8) as u32;
    let all = (K * b as usize) as u32;
    let window = eight(run, holding.0 - 1) / 2 >> (63 - past - all);
    let mut numbers = [0; K];
    for i in 0..K {
        // In 32 bits, as above: in 64, pictures of complex packing take up to a tenth longer.
        let behind = ((K - 1 - i) * b as usize) as u32;
        numbers[i] = lowest(window >> behind, b);
    }
    numbers
}

// How many fours of `count` numbers of b bits, one behind the other from a place on, are read four at a time from so many octets: those of all
// numbers, or of all but the last 64, where eight octets are left behind them, and else none. Numbers of more bits than half a window are not.
#[tactic(auto, unfolding(crate::specs::Fours::fours_in))]
pub fn fours_in(octets: usize, from: BitPlace, b: u32, count: usize) -> usize
    requires { (from.0 ≤ 1099511627776) × (count ≤ 4294967296) }
    ensures { result ≡ fours_in octets from.0 b count }
{
    if b > 28 {
        return 0;
    }
    let all = count / 4;
    if (from.0 + 4 * all * b as usize) / 8 + 8 <= octets {
        return all;
    }
    // The last 64 numbers take at least eight octets, unless each takes no bit.
    if count < 64 {
        return 0;
    }
    let fewer = (count - 64) / 4;
    if (from.0 + 4 * fewer * b as usize) / 8 + 8 <= octets {
        return fewer;
    }
    0
}

// The place b bits on.
pub fn after(at: BitPlace, b: u32) -> BitPlace
    requires { at.0 + b < 2 ^ 64 }
    ensures { result.0 ≡ at.0 + b }
{
    BitPlace(at.0 + b as usize)
}

// How many octets so many bits take.
pub fn octets_of(bits: u64) -> u64
    ensures { result ≡ octets_of bits }
{
    bits.div_ceil(8)
}

// How many octets a run of `count` numbers of b bits takes.
pub fn octets_of_run(count: u32, b: u32) -> u64
    ensures { result ≡ octets_of (count * b) }
{
    octets_of(count as u64 * b as u64)
}

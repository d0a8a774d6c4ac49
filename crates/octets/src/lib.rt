// Places in a file, in a section and in a run of bits, and the numbers that octets hold.
// A place of one kind becomes a place of another only by a function named here.
#![tactic(auto)]

ghost use Rattle.std.specs.Prelude.{◌≡◌, ◌+◌, ◌-◌, ◌*◌, ◌^◌, ◌<◌, ◌≤◌, length};
ghost use Rattle.octets.specs.Places.{place_of, first_bit, octet_holding};
ghost use Rattle.octets.specs.Numbers.{number_at, signed_of};

// A place in the file, from 0.
#[derive(Clone, Copy)]
pub struct FilePlace(pub usize);

// The number of an octet in its section, from 1.
#[derive(Clone, Copy)]
pub struct OctetNumber(pub usize);

// The place of a bit in a run of octets, from 0: the top bit of the run's first octet.
#[derive(Clone, Copy)]
pub struct BitPlace(pub usize);

// A number with a sign, as the standard's octets hold it. Zero has no sign.
#[derive(Clone, Copy)]
pub struct Signed {
    pub negative: bool,
    pub size: u64,
}

// The place of octet `n` of the section that starts at `start`.
pub fn place_of(start: FilePlace, n: OctetNumber) -> FilePlace
    requires { (1 ≤ n.0) × (start.0 + n.0 ≤ 2 ^ 64) }
    ensures { result.0 ≡ place_of start.0 n.0 }
{
    FilePlace(start.0 + (n.0 - 1))
}

// The place of the top bit of octet `n` of a run.
pub fn first_bit(n: OctetNumber) -> BitPlace
    requires { (1 ≤ n.0) × (n.0 ≤ 2 ^ 61) }
    ensures { result.0 ≡ first_bit n.0 }
{
    BitPlace((n.0 - 1) * 8)
}

// The octet of a run that holds the bit at `at`.
pub fn octet_holding(at: BitPlace) -> OctetNumber
    ensures { result.0 ≡ octet_holding at.0 }
{
    OctetNumber(at.0 / 8 + 1)
}

// The number that `count` octets of the file hold from `at` on.
pub fn number_at(file: &[u8], at: FilePlace, count: usize) -> u64
    requires { (at.0 + count ≤ length file.now) × (count ≤ 8) }
    ensures { (result ≡ number_at file.now at.0 count) × (result < 256 ^ count) }
{
    let mut number: u64 = 0;
    for &octet in &file[at.0..at.0 + count] {
        number = number * 256 + octet as u64;
    }
    number
}

// The sign and the size of the number of `count` octets: the top bit is the sign, the others are the size.
pub fn sign_and_size(number: u64, count: usize) -> Signed
    requires { (1 ≤ count) × (count ≤ 8) }
    ensures { result ≡ signed_of count number }
{
    let top = 1u64 << (8 * count - 1);
    Signed {
        negative: top < number,
        size: number % top,
    }
}

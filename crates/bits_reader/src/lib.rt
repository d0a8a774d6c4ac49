// The bit reader: a section's octets and a bit place in them. It is thin: each method calls one function on the slice and the place.
// Reading moves it: whoever reads a number has the reader behind that number.
#![tactic(auto)]

ghost use Rattle.std.specs.Prelude.{◌≡◌, ◌+◌, ◌*◌, ◌/◌, ◌≤◌, ◌<◌, ◌^◌, length};
ghost use Rattle.bits.specs.Bits.{bits_at};
ghost use Rattle.bits.specs.Fours.{numbers_at};

use octets::BitPlace;

#[derive(Clone, Copy)]
pub struct BitReader<'a> {
    pub run: &'a [u8],
    pub at: BitPlace,
}

impl<'a> BitReader<'a> {
    // A reader of a run, at a place.
    pub fn new(run: &'a [u8], at: BitPlace) -> Self
        ensures { (result.run ≡ run.entry) × (result.at ≡ at) }
    {
        BitReader { run, at }
    }

    // The number of b bits where the reader stands.
    pub fn next(&mut self, b: u32) -> u32
        requires { (self.old.at.0 + b < 2 ^ 64) × (b ≤ 32) }
        ensures number { result ≡ bits_at self.old.run.now self.old.at.0 b }
        ensures same_run { self.new.run ≡ self.old.run }
        ensures behind { self.new.at.0 ≡ self.old.at.0 + b }
    {
        let at = self.at;
        // The place behind comes first: worked out after the number, it makes the loop over a group with a bitmap a hundredth slower.
        self.at = bits::after(at, b);
        bits::read_bits(self.run, at, b)
    }

    // The K numbers of b bits where the reader stands, where eight octets are left: all stand in one window.
    pub fn next_several<const K: usize>(&mut self, b: u32) -> [u32; K]
        requires window { (self.old.at.0 / 8 + 8 ≤ length self.old.run.now) × (K * b ≤ 56) × (b ≤ 32) }
        requires place { self.old.at.0 + K * b < 2 ^ 64 }
        ensures numbers { result ≡ numbers_at self.old.run.now self.old.at.0 b K }
        ensures same_run { self.new.run ≡ self.old.run }
        ensures behind { self.new.at.0 ≡ self.old.at.0 + K * b }
    {
        let at = self.at;
        self.at = BitPlace(at.0 + K * b as usize);
        bits::read_several(self.run, at, b)
    }

    // The four numbers of at most 28 bits where the reader stands, with eight octets left behind the first two: from one window where they have at most 14
    // bits, and else from two.
    pub fn next_four(&mut self, b: u32) -> [u32; 4]
        requires window { ((self.old.at.0 + 2 * b) / 8 + 8 ≤ length self.old.run.now) × (b ≤ 28) }
        requires place { self.old.at.0 + 4 * b < 2 ^ 64 }
        ensures numbers { result ≡ numbers_at self.old.run.now self.old.at.0 b 4 }
        ensures same_run { self.new.run ≡ self.old.run }
        ensures behind { self.new.at.0 ≡ self.old.at.0 + 4 * b }
    {
        if b <= 14 {
            return self.next_several(b);
        }
        let [first, second] = self.next_several::<2>(b);
        let [third, fourth] = self.next_several::<2>(b);
        [first, second, third, fourth]
    }
}

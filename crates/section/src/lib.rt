// One section: its length, and what its octets hold by the numbers that the standard gives them.
#![tactic(auto)]

ghost use Rattle.std.specs.Prelude.{◌≡◌, ◌+◌, ◌-◌, ◌≤◌, ◌<◌, ◌^◌, length};
ghost use Rattle.section.specs.Sections.{octet, held, held_signed, length_at, octets_in, Lies};

use octets::{FilePlace, OctetNumber, Signed};

// The octet numbered `n` of the section at `section`.
pub fn octet(file: &[u8], section: FilePlace, n: OctetNumber) -> u8
    requires { (1 ≤ n.0) × (section.0 + n.0 ≤ length file.now) }
    ensures { (result ≡ octet file.now section.0 n.0) × (result < 256) }
{
    let at = octets::place_of(section, n);
    let i = at.0;
    file[i]
}

// The number that the octets from `first` to `last` of the section hold.
pub fn held(file: &[u8], section: FilePlace, first: OctetNumber, last: OctetNumber) -> u64
    requires { (1 ≤ first.0) × (first.0 ≤ last.0) × (last.0 < first.0 + 8) × (section.0 + last.0 ≤ length file.now) }
    ensures { (result ≡ held file.now section.0 first.0 last.0) × (result < 256 ^ (last.0 + 1 - first.0)) }
{
    octets::number_at(file, octets::place_of(section, first), last.0 + 1 - first.0)
}

// The same with a sign.
pub fn held_signed(file: &[u8], section: FilePlace, first: OctetNumber, last: OctetNumber) -> Signed
    requires { (1 ≤ first.0) × (first.0 ≤ last.0) × (last.0 < first.0 + 8) × (section.0 + last.0 ≤ length file.now) }
    ensures { result ≡ held_signed file.now section.0 first.0 last.0 }
{
    octets::sign_and_size(held(file, section, first, last), last.0 + 1 - first.0)
}

// How long the section says that it is.
pub fn length_of(file: &[u8], section: FilePlace) -> usize
    requires { section.0 + 5 ≤ length file.now }
    ensures { (result ≡ length_at file.now section.0) × (result < 2 ^ 32) }
{
    held(file, section, OctetNumber(1), OctetNumber(4)) as usize
}

// A section that lies in the file: the file, and the place where the section starts.
#[derive(Clone, Copy)]
pub struct FileSection<'a> {
    pub file: &'a [u8],
    pub at: FilePlace,
    ghost lies: { Lies file.now at.0 },
}

impl<'a> FileSection<'a> {
    // How long the section says that it is.
    pub fn length(self) -> usize
        ensures { (result ≡ length_at self.entry.file.now self.entry.at.0) × (5 ≤ result) × (result < 2 ^ 32) }
    {
        length_of(self.file, self.at)
    }

    // The octet numbered `n`.
    pub fn octet(self, n: OctetNumber) -> u8
        requires { (1 ≤ n.0) × (n.0 ≤ length_at self.file.now self.at.0) }
        ensures { (result ≡ octet self.entry.file.now self.entry.at.0 n.0) × (result < 256) }
    {
        octet(self.file, self.at, n)
    }

    // The number that the octets from `first` to `last` hold.
    pub fn held(self, first: OctetNumber, last: OctetNumber) -> u64
        requires { (1 ≤ first.0) × (first.0 ≤ last.0) × (last.0 < first.0 + 8) × (last.0 ≤ length_at self.file.now self.at.0) }
        ensures { (result ≡ held self.entry.file.now self.entry.at.0 first.0 last.0) × (result < 256 ^ (last.0 + 1 - first.0)) }
    {
        held(self.file, self.at, first, last)
    }

    // The same with a sign.
    pub fn held_signed(self, first: OctetNumber, last: OctetNumber) -> Signed
        requires { (1 ≤ first.0) × (first.0 ≤ last.0) × (last.0 < first.0 + 8) × (last.0 ≤ length_at self.file.now self.at.0) }
        ensures { result ≡ held_signed self.entry.file.now self.entry.at.0 first.0 last.0 }
    {
        held_signed(self.file, self.at, first, last)
    }

    // The octets of the section, and of no other, as a part of the file.
    pub fn octets(self) -> &'a [u8]
        ensures { result.now ≡ octets_in self.entry.file.now self.entry.at.0 }
    {
        let from = self.at.0;
        let end = from + self.length();
        &self.file[from..end]
    }
}

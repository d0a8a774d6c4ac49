// Section 5: what template 5.3 says of its groups (RULES, "Section 5").
#![tactic(auto)]

ghost use Rattle.std.specs.Prelude.{◌≡◌};
ghost use Rattle.section.specs.Sections.{length_at};
ghost use Rattle.section_5_groups.specs.Groups.{grouping_at, is_differenced, is_grouping};

use octets::OctetNumber;
use section::FileSection;

// How the widths of groups are stored: each is the reference and a number of so many bits.
#[derive(Clone, Copy)]
pub struct Widths {
    pub reference: u32,
    pub bits: u32,
}

// How their lengths are stored: each is the reference and, times the increment, a number of so many bits. That of the last group is told here.
#[derive(Clone, Copy)]
pub struct Lengths {
    pub reference: u32,
    pub increment: u32,
    pub last: u32,
    pub bits: u32,
}

// What template 5.3 says of its groups. The first value, the second and Zmin take `extra` octets each.
#[derive(Clone, Copy)]
pub struct Grouping {
    pub groups: u32,
    pub widths: Widths,
    pub lengths: Lengths,
    pub extra: u32,
}

// What template 5.3 says of its groups, as its octets hold it.
pub fn grouping_at(section: FileSection) -> Grouping
    requires { length_at section.file.now section.at.0 ≡ 49 }
    ensures { result ≡ grouping_at section.entry.file.now section.entry.at.0 }
{
    let widths = Widths {
        reference: section.octet(OctetNumber(36)) as u32,
        bits: section.octet(OctetNumber(37)) as u32,
    };
    let lengths = Lengths {
        reference: section.held(OctetNumber(38), OctetNumber(41)) as u32,
        increment: section.octet(OctetNumber(42)) as u32,
        last: section.held(OctetNumber(43), OctetNumber(46)) as u32,
        bits: section.octet(OctetNumber(47)) as u32,
    };
    Grouping {
        groups: section.held(OctetNumber(32), OctetNumber(35)) as u32,
        widths,
        lengths,
        extra: section.octet(OctetNumber(49)) as u32,
    }
}

// Are differences of the second order, with general groups and no values marked as missing?
pub fn is_differenced(section: FileSection) -> bool
    requires { length_at section.file.now section.at.0 ≡ 49 }
    ensures { result ≡ is_differenced section.entry.file.now section.entry.at.0 }
{
    section.octet(OctetNumber(22)) == 1
        && section.octet(OctetNumber(23)) == 0
        && section.octet(OctetNumber(48)) == 2
}

// Can `n` values be packed in such groups?
pub fn is_grouping(grouping: Grouping, n: u32) -> bool
    ensures { result ≡ is_grouping grouping n }
{
    let widths = grouping.widths;
    let lengths = grouping.lengths;
    widths.reference <= 31
        && widths.bits <= 31
        && lengths.bits <= 31
        && 1 <= grouping.extra
        && grouping.extra <= 4
        && 2 <= n
        && 1 <= grouping.groups
        && grouping.groups <= n
}

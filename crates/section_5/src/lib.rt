// Section 5: how the values of a field are packed (RULES, "Section 5").
#![tactic(auto)]

ghost use Rattle.std.specs.Prelude.{◌≡◌, ◌≤◌};
ghost use Rattle.section.specs.Sections.{length_at};
ghost use Rattle.section_5.specs.Representation.{is_scaled, complex_at, data_template_at, representation_at};

use octets::{OctetNumber, Signed};
use section::FileSection;
use section_5_groups::Grouping;

// The data template: 5.0, simple packing, or 5.3, complex packing with spatial differencing.
#[derive(Clone, Copy)]
pub enum Template {
    Simple,
    Complex(Grouping),
}

// What section 5 says: N, R by its 32 bits, E, D, octet 20, and the data template.
#[derive(Clone, Copy)]
pub struct Representation {
    pub n: u32,
    pub r: u32,
    pub e: Signed,
    pub d: Signed,
    pub bits: u32,
    pub template: Template,
}

// Are R, E, D and the bits of a number within their limits?
fn is_scaled(section: FileSection) -> bool
    requires { 21 ≤ length_at section.file.now section.at.0 }
    ensures { result ≡ is_scaled section.entry.file.now section.entry.at.0 }
{
    doubles::is_finite(section.held(OctetNumber(12), OctetNumber(15)) as u32)
        && section.held_signed(OctetNumber(16), OctetNumber(17)).size <= 127
        && section.held_signed(OctetNumber(18), OctetNumber(19)).size <= 22
        && section.octet(OctetNumber(20)) <= 31
        && section.octet(OctetNumber(21)) == 0
}

// Template 5.3 in its 49 octets, where these are as they must be.
fn complex_at(section: FileSection) -> Option<Template>
    requires { length_at section.file.now section.at.0 ≡ 49 }
    ensures { result ≡ complex_at section.entry.file.now section.entry.at.0 }
{
    let grouping = section_5_groups::grouping_at(section);
    let n = section.held(OctetNumber(6), OctetNumber(9)) as u32;
    let taken = section_5_groups::is_differenced(section)
        && section_5_groups::is_grouping(grouping, n);
    taken.then_some(Template::Complex(grouping))
}

// The data template, by the section's length and octets 10-11, where it is taken.
fn template_at(section: FileSection) -> Option<Template>
    ensures { result ≡ data_template_at section.entry.file.now section.entry.at.0 }
{
    match section.length() {
        21 if section.held(OctetNumber(10), OctetNumber(11)) == 0 => Some(Template::Simple),
        49 if section.held(OctetNumber(10), OctetNumber(11)) == 3 => complex_at(section),
        _ => None,
    }
}

// What section 5 says, where it is taken.
#[tactic(auto, unfolding(crate::specs::Representation::representation_at))]
pub fn representation_at(section: FileSection) -> Option<Representation>
    ensures { result ≡ representation_at section.entry.file.now section.entry.at.0 }
{
    let template = template_at(section)?;
    if !is_scaled(section) {
        return None;
    }
    let n = section.held(OctetNumber(6), OctetNumber(9)) as u32;
    let r = section.held(OctetNumber(12), OctetNumber(15)) as u32;
    let e = section.held_signed(OctetNumber(16), OctetNumber(17));
    let d = section.held_signed(OctetNumber(18), OctetNumber(19));
    let bits = section.octet(OctetNumber(20)) as u32;
    Some(Representation {
        n,
        r,
        e,
        d,
        bits,
        template,
    })
}

// Section 1: the status of a message, and the time that its forecasts start from (RULES, "Section 1").
#![tactic(auto)]

ghost use Rattle.std.specs.Prelude.{◌≡◌};
ghost use Rattle.section_1.specs.Identification.{is_identification, identification_at};

use calendar::Time;
use octets::OctetNumber;
use section::FileSection;

// What section 1 says: the status, 0 where the message is operational and 1 where it is a trial, and the reference time.
#[derive(Clone, Copy)]
pub struct Identification {
    pub status: u8,
    pub reference: Time,
}

// Does the section have the octets that every section 1 has?
fn is_identification(section: FileSection) -> bool
    ensures { result ≡ is_identification section.entry.file.now section.entry.at.0 }
{
    section.length() == 21
        && section.held(OctetNumber(6), OctetNumber(7)) == 34
        && section.octet(OctetNumber(12)) == 1
        && section.octet(OctetNumber(20)) <= 1
}

// What the section 1 says, where it is taken.
#[tactic(auto, unfolding(crate::specs::Identification::identification_at))]
pub fn identification_at(section: FileSection) -> Option<Identification>
    ensures { result ≡ identification_at section.entry.file.now section.entry.at.0 }
{
    if !is_identification(section) {
        return None;
    }
    let reference = calendar::time_at(section.file, octets::place_of(section.at, OctetNumber(13)))?;
    let status = section.octet(OctetNumber(20));
    Some(Identification { status, reference })
}

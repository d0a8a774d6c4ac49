// Section 4: what a field is about, on which level, and of which time (RULES, "Section 4").
#![tactic(auto)]

ghost use Rattle.std.specs.Prelude.{◌≡◌, true, ◌≤◌};
ghost use Rattle.section.specs.Sections.{length_at};
ghost use Rattle.calendar.specs.Calendar.{Gregorian, ordered};
ghost use Rattle.section_4.specs.Product.{is_template, is_product, level_at, later, GivesKind, agreed, interval_at, product_at, product_definition_at};

use calendar::{Time, Unit};
use octets::{OctetNumber, Signed};
use section::FileSection;
use std::cmp::Ordering;

// The level of a surface: the scaled level over 10 ^ factor.
#[derive(Clone, Copy)]
pub struct Level {
    pub factor: Signed,
    pub scaled: u32,
}

// What a field over an interval is.
#[derive(Clone, Copy)]
pub enum Kind {
    Mean,
    Sum,
}

// A number that stands for no kind.
#[derive(Clone, Copy)]
pub struct UnknownKind(pub u8);

impl TryFrom<u8> for Kind {
    type Error = UnknownKind;

    ghost try_from_gives = { GivesKind };

    fn try_from(number: u8) -> Result<Self, UnknownKind> {
        match number {
            0 => Ok(Kind::Mean),
            1 => Ok(Kind::Sum),
            _ => Err(UnknownKind(number)),
        }
    }
}

// A field is of an instant, the valid time, or of an interval that starts then.
#[derive(Clone, Copy)]
pub enum Product {
    Instant,
    Interval { end: Time, kind: Kind },
}

// What section 4 says. There is no level for the ground, for example, or for mean sea level.
#[derive(Clone, Copy)]
pub struct ProductDefinition {
    pub category: u8,
    pub parameter: u8,
    pub process: u8,
    pub surface: u8,
    pub level: Option<Level>,
    pub product: Product,
    pub valid: Time,
}

// Is it template 4.0 in 34 octets, or template 4.8 in 58?
fn is_template(section: FileSection) -> bool
    ensures { result ≡ is_template section.entry.file.now section.entry.at.0 }
{
    match section.length() {
        34 => section.held(OctetNumber(8), OctetNumber(9)) == 0,
        58 => section.held(OctetNumber(8), OctetNumber(9)) == 8,
        _ => false,
    }
}

// Does the section have the octets that every product has?
fn is_product(section: FileSection) -> bool
    ensures { result ≡ is_product section.entry.file.now section.entry.at.0 }
{
    is_template(section)
        && section.held(OctetNumber(6), OctetNumber(7)) == 0
        && section.held(OctetNumber(19), OctetNumber(22)) <= 2_147_483_647
        && section.octet(OctetNumber(23)) != 255
        && section.held(OctetNumber(29), OctetNumber(34)) == 0xffff_ffff_ffff
}

// The level of the first surface. Factor and scaled level are missing together, and there is no level then, or not at all.
fn level_at(section: FileSection) -> Option<Option<Level>>
    requires { 34 ≤ length_at section.file.now section.at.0 }
    ensures { result ≡ level_at section.entry.file.now section.entry.at.0 }
{
    let scaled = section.held(OctetNumber(25), OctetNumber(28)) as u32;
    match (section.octet(OctetNumber(24)), scaled) {
        (255, 0xffff_ffff) => Some(None),
        (0..=254, 0..=2_147_483_647) => {
            let factor = section.held_signed(OctetNumber(24), OctetNumber(24));
            Some(Some(Level { factor, scaled }))
        }
        _ => None,
    }
}

// The time `count` units after `time`, where the unit is known and the year 2399 is not passed.
fn later(time: Time, count: u32, unit: u8) -> Option<Time>
    requires { Gregorian time }
    ensures { result ≡ later time count unit }
{
    calendar::plus(time, count, Unit::try_from(unit).ok()?)
}

// An interval with the end that is told, where that is the time that its length leads to.
fn agreed(kind: Kind, end: Time, reached: Time) -> Option<Product>
    requires { (Gregorian end) × (Gregorian reached) }
    ensures { result ≡ agreed end kind (ordered end reached) }
{
    match calendar::compare(end, reached) {
        Ordering::Equal => Some(Product::Interval { end, kind }),
        Ordering::Less | Ordering::Greater => None,
    }
}

// The interval that starts at `valid`.
fn interval_at(section: FileSection, valid: Time) -> Option<Product>
    requires { (length_at section.file.now section.at.0 ≡ 58) × (Gregorian valid) }
    ensures { result ≡ interval_at section.entry.file.now section.entry.at.0 valid }
{
    if section.octet(OctetNumber(42)) != 1 {
        return None;
    }
    let end = calendar::time_at(section.file, octets::place_of(section.at, OctetNumber(35)))?;
    let count = section.held(OctetNumber(50), OctetNumber(53)) as u32;
    let reached = later(valid, count, section.octet(OctetNumber(49)))?;
    let kind = Kind::try_from(section.octet(OctetNumber(47))).ok()?;
    agreed(kind, end, reached)
}

// The product: an instant, or an interval that starts at `valid`.
fn product_at(section: FileSection, valid: Time) -> Option<Product>
    requires { (is_template section.file.now section.at.0 ≡ true) × (Gregorian valid) }
    ensures { result ≡ product_at section.entry.file.now section.entry.at.0 valid }
{
    if section.held(OctetNumber(8), OctetNumber(9)) == 0 {
        return Some(Product::Instant);
    }
    interval_at(section, valid)
}

// What section 4 says of a field whose reference time is `reference`, where it is taken.
#[tactic(auto, unfolding(crate::specs::Product::product_definition_at))]
pub fn product_definition_at(section: FileSection, reference: Time) -> Option<ProductDefinition>
    requires { Gregorian reference }
    ensures { result ≡ product_definition_at section.entry.file.now section.entry.at.0 reference }
{
    if !is_product(section) {
        return None;
    }
    let count = section.held(OctetNumber(19), OctetNumber(22)) as u32;
    let valid = later(reference, count, section.octet(OctetNumber(18)))?;
    let level = level_at(section)?;
    let product = product_at(section, valid)?;
    let category = section.octet(OctetNumber(10));
    let parameter = section.octet(OctetNumber(11));
    let process = section.octet(OctetNumber(12));
    let surface = section.octet(OctetNumber(23));
    Some(ProductDefinition {
        category,
        parameter,
        process,
        surface,
        level,
        product,
        valid,
    })
}

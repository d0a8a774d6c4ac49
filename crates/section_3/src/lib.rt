// Section 3: the grid of template 3.0 or 3.30, as the section's octets hold it (RULES, "Section 3").
#![tactic(auto)]

ghost use Rattle.std.specs.Prelude.{◌≡◌, ◌≤◌};
ghost use Rattle.section.specs.Sections.{length_at};
ghost use Rattle.section_3.specs.Section3.{is_of, is_scanned, is_projected, radius_at, frame_at, degree_numbers_at, degrees_at, lambert_numbers_at, lambert_at, grid_at};

use octets::OctetNumber;
use section::FileSection;
use section_3_geometry::{DegreeGrid, Frame, Grid, LambertGrid, Position};

// Is it a section of this length and template, with no list of numbers behind it?
fn is_of(section: FileSection, length: usize, template: u64) -> bool
    requires { 14 ≤ length }
    ensures { result ≡ is_of section.entry.file.now section.entry.at.0 length template }
{
    section.length() == length
        && section.octet(OctetNumber(6)) == 0
        && section.octet(OctetNumber(11)) == 0
        && section.octet(OctetNumber(12)) == 0
        && section.held(OctetNumber(13), OctetNumber(14)) == template
}

// Are its angles in millionths of a degree, its steps given, and its points in rows from north to south, each from west to east?
fn is_scanned(section: FileSection) -> bool
    requires { 72 ≤ length_at section.file.now section.at.0 }
    ensures { result ≡ is_scanned section.entry.file.now section.entry.at.0 }
{
    section.held(OctetNumber(39), OctetNumber(42)) == 0
        && section.held(OctetNumber(43), OctetNumber(46)) == 0xffff_ffff
        && section.octet(OctetNumber(55)) == 0x30
        && section.octet(OctetNumber(72)) == 0
}

// The earth's radius in metres, by its code, where that is known.
fn radius_at(section: FileSection) -> Option<u32>
    requires { 72 ≤ length_at section.file.now section.at.0 }
    ensures { result ≡ radius_at section.entry.file.now section.entry.at.0 }
{
    match section.octet(OctetNumber(15)) {
        1 => {
            let radius = section.held(OctetNumber(17), OctetNumber(20)) as u32;
            let is_stated = section.octet(OctetNumber(16)) == 0
                && radius != 0
                && radius != 0xffff_ffff;
            is_stated.then_some(radius)
        }
        6 => Some(6_371_229),
        _ => None,
    }
}

// What both templates have in the same octets.
fn frame_at(section: FileSection, radius: u32) -> Frame
    requires { 72 ≤ length_at section.file.now section.at.0 }
    ensures { result ≡ frame_at section.entry.file.now section.entry.at.0 radius }
{
    Frame {
        earth: section.octet(OctetNumber(15)),
        radius,
        ni: section.held(OctetNumber(31), OctetNumber(34)) as u32,
        nj: section.held(OctetNumber(35), OctetNumber(38)) as u32,
    }
}

// The numbers of a grid in degrees, as the section's octets hold them.
fn degree_numbers_at(section: FileSection, radius: u32) -> DegreeGrid
    requires { 72 ≤ length_at section.file.now section.at.0 }
    ensures { result ≡ degree_numbers_at section.entry.file.now section.entry.at.0 radius }
{
    let first = Position {
        latitude: section.held_signed(OctetNumber(47), OctetNumber(50)),
        longitude: section.held(OctetNumber(51), OctetNumber(54)) as u32,
    };
    let last = Position {
        latitude: section.held_signed(OctetNumber(56), OctetNumber(59)),
        longitude: section.held(OctetNumber(60), OctetNumber(63)) as u32,
    };
    DegreeGrid {
        frame: frame_at(section, radius),
        first,
        last,
        di: section.held(OctetNumber(64), OctetNumber(67)) as u32,
        dj: section.held(OctetNumber(68), OctetNumber(71)) as u32,
    }
}

// The grid in degrees of a section of template 3.0, where it is taken.
fn degrees_at(section: FileSection) -> Option<Grid>
    requires { 72 ≤ length_at section.file.now section.at.0 }
    ensures { result ≡ degrees_at section.entry.file.now section.entry.at.0 }
{
    if !is_scanned(section) {
        return None;
    }
    let grid = degree_numbers_at(section, radius_at(section)?);
    let points = section.held(OctetNumber(7), OctetNumber(10)) as u32;
    section_3_geometry::is_taken(grid, points).then_some(Grid::Degrees(grid))
}

// Are its winds told along the grid, is the north pole on the sheet, and are its points in rows that go downward, each to the right?
fn is_projected(section: FileSection) -> bool
    requires { 81 ≤ length_at section.file.now section.at.0 }
    ensures { result ≡ is_projected section.entry.file.now section.entry.at.0 }
{
    section.octet(OctetNumber(47)) == 0x08
        && section.octet(OctetNumber(64)) == 0
        && section.octet(OctetNumber(65)) == 0
}

// The numbers of a Lambert grid, as the section's octets hold them.
fn lambert_numbers_at(section: FileSection, radius: u32) -> LambertGrid
    requires { 81 ≤ length_at section.file.now section.at.0 }
    ensures { result ≡ lambert_numbers_at section.entry.file.now section.entry.at.0 radius }
{
    let first = Position {
        latitude: section.held_signed(OctetNumber(39), OctetNumber(42)),
        longitude: section.held(OctetNumber(43), OctetNumber(46)) as u32,
    };
    LambertGrid {
        frame: frame_at(section, radius),
        first,
        stated: section.held_signed(OctetNumber(48), OctetNumber(51)),
        upright: section.held(OctetNumber(52), OctetNumber(55)) as u32,
        dx: section.held(OctetNumber(56), OctetNumber(59)) as u32,
        dy: section.held(OctetNumber(60), OctetNumber(63)) as u32,
        cut1: section.held_signed(OctetNumber(66), OctetNumber(69)),
        cut2: section.held_signed(OctetNumber(70), OctetNumber(73)),
    }
}

// The Lambert grid of a section of template 3.30, where it is taken.
fn lambert_at(section: FileSection) -> Option<Grid>
    requires { 81 ≤ length_at section.file.now section.at.0 }
    ensures { result ≡ lambert_at section.entry.file.now section.entry.at.0 }
{
    if !is_projected(section) {
        return None;
    }
    let grid = lambert_numbers_at(section, radius_at(section)?);
    let points = section.held(OctetNumber(7), OctetNumber(10)) as u32;
    section_3_lambert::is_taken(grid, points).then_some(Grid::Lambert(grid))
}

// The grid that the section 3 describes, where it is taken.
#[tactic(auto, unfolding(crate::specs::Section3::grid_at))]
pub fn grid_at(section: FileSection) -> Option<Grid>
    ensures { result ≡ grid_at section.entry.file.now section.entry.at.0 }
{
    if is_of(section, 72, 0) {
        return degrees_at(section);
    }
    if is_of(section, 81, 30) {
        return lambert_at(section);
    }
    None
}

// Section 6: which points of a field are present (RULES, "Section 6").
#![tactic(auto)]

ghost use Rattle.std.specs.Prelude.{◌≡◌, ◌≤◌};
ghost use Rattle.section.specs.Sections.{length_at};
ghost use Rattle.tiling_sections.specs.Laid.{Stored};
ghost use Rattle.section_6.specs.Presence.{BitmapLies, bitmap_length, bitmap_in, bitmap_in_force, is_bitmap, without_bitmap, presence_at};

use octets::{FilePlace, OctetNumber};
use section::FileSection;

// Which points are present: all, those of the section's own bitmap, or those of an earlier section's. A bitmap is told by the place of the
// section that has it.
#[derive(Clone, Copy)]
pub enum Presence {
    All,
    Own(FilePlace),
    Earlier(FilePlace),
}

// The bitmap in the section, as a part of the file.
fn bitmap_in<'a>(section: FileSection<'a>, points: u32) -> &'a [u8]
    requires { length_at section.file.now section.at.0 ≡ bitmap_length points }
    ensures { result.now ≡ bitmap_in section.entry.file.now section.entry.at.0 points }
{
    let from = octets::place_of(section.at, OctetNumber(7)).0;
    let end = from + bits::octets_of(points as u64) as usize;
    &section.file[from..end]
}

// The bitmap that tells which points are present: a part of the file, and empty where all are.
pub fn bitmap_in_force<'a>(file: &'a [u8], presence: Presence, points: u32) -> &'a [u8]
    requires { BitmapLies file.now presence points }
    ensures { result.now ≡ bitmap_in_force file.now presence points }
{
    match presence {
        Presence::All => &file[..0],
        Presence::Own(at) | Presence::Earlier(at) => bitmap_in(FileSection { file, at }, points),
    }
}

// Has the section a bitmap for so many points, of which `n` are present?
fn is_bitmap(section: FileSection, points: u32, n: u32) -> bool
    ensures { result ≡ is_bitmap section.entry.file.now section.entry.at.0 points n }
{
    section.length() as u64 == 6 + bits::octets_of(points as u64)
        && bits_ones::ones_before(bitmap_in(section, points), points as usize) == n as usize
}

// A section 6 without a bitmap: indicator 254 or 255.
fn without_bitmap(
    section: FileSection,
    bitmap: Option<FilePlace>,
    points: u32,
    n: u32,
) -> Option<Presence>
    requires indicated { 6 ≤ length_at section.file.now section.at.0 }
    requires stored { Stored section.file.now bitmap }
    ensures { result ≡ without_bitmap section.entry.file.now section.entry.at.0 bitmap points n }
{
    match section.octet(OctetNumber(6)) {
        254 => {
            let at = bitmap?;
            let earlier = FileSection {
                file: section.file,
                at,
            };
            is_bitmap(earlier, points, n).then_some(Presence::Earlier(at))
        }
        255 => (points == n).then_some(Presence::All),
        _ => None,
    }
}

// Which points are present by the section 6, where `bitmap` is in force and `n` values are packed, where it is taken.
#[tactic(auto, unfolding(crate::specs::Presence::presence_at))]
pub fn presence_at(
    section: FileSection,
    bitmap: Option<FilePlace>,
    points: u32,
    n: u32,
) -> Option<Presence>
    requires stored { Stored section.file.now bitmap }
    ensures { result ≡ presence_at section.entry.file.now section.entry.at.0 bitmap points n }
{
    let length = section.length();
    if length < 6 {
        return None;
    }
    if section.octet(OctetNumber(6)) == 0 {
        return is_bitmap(section, points, n).then_some(Presence::Own(section.at));
    }
    if length != 6 {
        return None;
    }
    without_bitmap(section, bitmap, points, n)
}

// The sections of one message: what stands at a place, and the walk over all of them in search of a field (RULES, "Tiling a file", step f).
#![tactic(auto)]

ghost use Rattle.std.specs.Prelude.{◌≡◌, ◌+◌, ◌≤◌, length};
ghost use Rattle.tiling_sections.specs.Walk.{follows, section_at, bitmap_behind, starts_after, nowhere, sections, told};

use octets::{FilePlace, OctetNumber};
use refusals::{Refusal, Why};

// Where the sections of a field start: section 0, with which its message starts, sections 1 and 3 in force, and the field's own 4 to 7.
#[derive(Clone, Copy)]
pub struct Starts {
    pub zero: FilePlace,
    pub one: FilePlace,
    pub three: FilePlace,
    pub four: FilePlace,
    pub five: FilePlace,
    pub six: FilePlace,
    pub seven: FilePlace,
}

// Where a field lies: its starts, and the section 6 that indicator 254 refers to, where there is one.
#[derive(Clone, Copy)]
pub struct Located {
    pub starts: Starts,
    pub bitmap: Option<FilePlace>,
}

// A section that stands where it may: its number, and where the next one starts.
#[derive(Clone, Copy)]
pub struct Standing {
    pub number: u8,
    pub next: FilePlace,
}

// What a walk over all sections of a message finds: how many fields, where the next message starts, and where the field lies that is looked for.
#[derive(Clone, Copy)]
pub struct Walked {
    pub count: usize,
    pub next: FilePlace,
    pub hit: Located,
}

// May a section numbered `number` follow one numbered `after`? Section 0 comes first.
fn may_follow(after: u8, number: u8) -> bool
    ensures { result ≡ follows after number }
{
    match after {
        0 => number == 1,
        1 => number == 3,
        3 => number == 4,
        4 => number == 5,
        5 => number == 6,
        6 => number == 7,
        7 => number == 3 || number == 4,
        _ => false,
    }
}

// What stands at `at`, behind a section numbered `after`, where the sections of the message end at `end`: a section, or that end behind a finished field,
// or a fault, which stands at that very place.
#[tactic(auto, unfolding(crate::specs::Walk::section_at))]
pub fn section_at(
    file: &[u8],
    at: FilePlace,
    end: FilePlace,
    after: u8,
) -> Result<Option<Standing>, Why>
    requires { (at.0 ≤ end.0) × (end.0 ≤ length file.now) }
    ensures { result ≡ section_at file.now at.0 end.0 after }
{
    let left = end.0 - at.0;
    if left == 0 {
        if after == 7 {
            return Ok(None);
        }
        return Err(Why::OutOfPlace);
    }
    if left < 5 {
        return Err(Why::BadLength);
    }
    let length = section::length_of(file, at);
    if length < 5 {
        return Err(Why::BadLength);
    }
    if left < length {
        return Err(Why::BadLength);
    }
    let number = section::octet(file, at, OctetNumber(5));
    if !may_follow(after, number) {
        return Err(Why::OutOfPlace);
    }
    Ok(Some(Standing {
        number,
        next: FilePlace(at.0 + length),
    }))
}

// The bitmap in force behind the section 6 from `at` up to `next`: its own where its indicator is 0. A section of five octets has no indicator.
fn bitmap_behind(
    file: &[u8],
    bitmap: Option<FilePlace>,
    at: FilePlace,
    next: FilePlace,
) -> Option<FilePlace>
    requires { (at.0 + 5 ≤ next.0) × (next.0 ≤ length file.now) }
    ensures { result ≡ bitmap_behind file.now bitmap at.0 next.0 }
{
    if 6 <= next.0 - at.0 && section::octet(file, at, OctetNumber(6)) == 0 {
        Some(at)
    } else {
        bitmap
    }
}

// The starts in force behind a section numbered `number` that starts at `at`.
#[tactic(auto, unfolding(crate::specs::Walk::starts_after))]
fn starts_after(starts: Starts, number: u8, at: FilePlace) -> Starts
    ensures { result ≡ starts_after starts number at.0 }
{
    match number {
        0 => Starts { zero: at, ..starts },
        1 => Starts { one: at, ..starts },
        3 => Starts {
            three: at,
            ..starts
        },
        4 => Starts { four: at, ..starts },
        5 => Starts { five: at, ..starts },
        6 => Starts { six: at, ..starts },
        7 => Starts {
            seven: at,
            ..starts
        },
        _ => starts,
    }
}

// Where nothing lies yet.
pub fn nowhere() -> Located
    ensures { result ≡ nowhere }
{
    let start = FilePlace(0);
    let starts = Starts {
        zero: start,
        one: start,
        three: start,
        four: start,
        five: start,
        six: start,
        seven: start,
    };
    Located {
        starts,
        bitmap: None,
    }
}

// The fields of the message at `message`, whose sections end at `end`, with the place of field `k` among them, or the first fault.
#[tactic(auto, using(crate::proofs::Laws::next_within, crate::proofs::Reached::reached_start))]
pub fn fields_in(
    file: &[u8],
    message: FilePlace,
    end: FilePlace,
    k: usize,
) -> Result<Walked, Refusal>
    requires { (message.0 + 16 ≤ end.0) × (end.0 + 4 ≤ length file.now) }
    ensures { result ≡ told k (sections file.now message.0 end.0) }
{
    // Plain locals, and no struct of them: a struct with enums would be copied whole, padding and all, with each section.
    let mut hit = nowhere();
    let mut starts = starts_after(hit.starts, 0, message);
    let mut bitmap: Option<FilePlace> = None;
    let mut at = FilePlace(message.0 + 16);
    let mut after: u8 = 0;
    let mut count: usize = 0;
    loop {
        let found = section_at(file, at, end, after).map_err(|why| why.at(at))?;
        let Some(Standing { number, next }) = found else {
            let next = FilePlace(end.0 + 4);
            return Ok(Walked { count, next, hit });
        };
        starts = starts_after(starts, number, at);
        match number {
            3 => bitmap = None,
            6 => bitmap = bitmap_behind(file, bitmap, at, next),
            7 => {
                if count == k {
                    hit = Located { starts, bitmap };
                }
                count += 1;
            }
            _ => {}
        }
        at = next;
        after = number;
    }
}

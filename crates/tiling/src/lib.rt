// The messages of a file: what steps a to f of RULES, "Tiling a file", say of one, and the tiling of the whole file.
#![tactic(auto)]

ghost use Rattle.std.specs.Prelude.{◌≡◌, ◌≤◌, length};
ghost use Rattle.tiling_sections.specs.Walk.{told};
ghost use Rattle.tiling.specs.Tiling.{header_at, message, tiles, found_in, check, find};
ghost use Rattle.tiling.specs.Lying.{Lying};

use octets::{FilePlace, OctetNumber};
use refusals::{Refusal, Why};
use tiling_sections::{Located, Walked};

// What the whole file holds: the counts of messages and fields, and where the field lies that is looked for.
#[derive(Clone, Copy)]
pub struct Tiled {
    pub messages: usize,
    pub fields: usize,
    pub hit: Located,
}

// How many messages and fields a file has.
#[derive(Clone, Copy)]
pub struct Counts {
    pub messages: usize,
    pub fields: usize,
}

// Steps a to e at `at`: where the sections of the message end, or the fault, which stands at that very place.
#[tactic(auto, unfolding(crate::specs::Tiling::header_at))]
pub fn header_at(file: &[u8], at: FilePlace) -> Result<FilePlace, Why>
    requires { at.0 ≤ length file.now }
    ensures { result ≡ header_at file.now at.0 }
{
    let left = file.len() - at.0;
    if left < 16 {
        return Err(Why::Cut);
    }
    if section::held(file, at, OctetNumber(1), OctetNumber(4)) != 0x4752_4942 {
        return Err(Why::NotGrib2);
    }
    if section::held(file, at, OctetNumber(8), OctetNumber(8)) != 2 {
        return Err(Why::NotGrib2);
    }
    let length = section::held(file, at, OctetNumber(9), OctetNumber(16)) as usize;
    if length < 20 {
        return Err(Why::BadLength);
    }
    if left < length {
        return Err(Why::Cut);
    }
    let end = FilePlace(at.0 + (length - 4));
    if octets::number_at(file, end, 4) != 0x3737_3737 {
        return Err(Why::NoEnd);
    }
    Ok(end)
}

// Steps a to f at `at`, in search of the message's field `k`.
#[tactic(auto, using(crate::proofs::Laws::header_within, crate::proofs::Come::told_sections, crate::proofs::Come::told_bad))]
pub fn message_at(file: &[u8], at: FilePlace, k: usize) -> Result<Walked, Refusal>
    requires { at.0 ≤ length file.now }
    ensures { result ≡ told k (message file.now at.0) }
{
    let end = header_at(file, at).map_err(|why| why.at(at))?;
    tiling_sections::fields_in(file, at, end, k)
}

// The messages of the file one after the other, in search of field `k`.
fn tile(file: &[u8], k: usize) -> Result<Tiled, Refusal>
    ensures { result ≡ found_in k (tiles file.now) }
{
    let mut at = FilePlace(0);
    let mut messages: usize = 0;
    let mut fields: usize = 0;
    let mut found = tiling_sections::nowhere();
    while at.0 < file.len() {
        let message = message_at(file, at, k.saturating_sub(fields))?;
        if fields <= k {
            found = message.hit;
        }
        messages += 1;
        fields += message.count;
        at = message.next;
    }
    Ok(Tiled {
        messages,
        fields,
        hit: found,
    })
}

// The whole file, in search of field `k`: refusals 1 and 2 come first.
pub fn find(file: &[u8], k: usize) -> Result<Tiled, Refusal>
    ensures { (result ≡ find file.now k) × Lying file.now k result }
{
    if 268_435_456 < file.len() {
        return Err(Why::TooLong.at(FilePlace(0)));
    }
    if file.is_empty() {
        return Err(Why::Empty.at(FilePlace(0)));
    }
    tile(file, k)
}

// Checks a file: the counts of messages and fields, or refusal 1 to 7.
pub fn check(file: &[u8]) -> Result<Counts, Refusal>
    ensures { result ≡ check file.now }
{
    let Tiled {
        messages,
        fields,
        ..
    } = find(file, 0)?;
    Ok(Counts { messages, fields })
}

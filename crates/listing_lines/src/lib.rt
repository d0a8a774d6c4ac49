// What a line of the listing says: a refusal, or what a field is (RULES, "Listing").
#![tactic(auto, using(text::proofs::Laws::decimal_short))]

ghost use Rattle.std.specs.Prelude.{◌≡◌, ◌+◌, ◌≤◌, length};
ghost use Rattle.laws_rows.specs.Rows.{Puts};
ghost use Rattle.listing_lines.specs.Lines.{refusal_text, subject_text, size_text, listed_time, field_text};

use calendar::Time;
use question::Description;
use refusals::Refusal;
use section_3_geometry::Frame;
use section_4::{Product, ProductDefinition};

// Puts "refused R at P".
pub fn put_refusal(run: &mut [u8], at: usize, refusal: Refusal) -> usize
    requires { at + 52 ≤ length run.old }
    ensures { Puts run.old at (refusal_text refusal) run.new result }
{
    let number = text::put(run, at, b"refused ");
    let word = text::put_decimal(run, number, refusals::number_of(refusal.why));
    let place = text::put(run, word, b" at ");
    text::put_decimal(run, place, refusal.place.0 as u64)
}

// Puts what a field is about, as "0/0/0".
fn put_subject(run: &mut [u8], at: usize, discipline: u8, definition: ProductDefinition) -> usize
    requires { at + 62 ≤ length run.old }
    ensures { Puts run.old at (subject_text discipline definition) run.new result }
{
    let first = text::put_decimal(run, at, discipline as u64);
    let category = text::put(run, first, b"/");
    let second = text::put_decimal(run, category, definition.category as u64);
    let parameter = text::put(run, second, b"/");
    text::put_decimal(run, parameter, definition.parameter as u64)
}

// Puts a grid's size, as "2x2".
fn put_size(run: &mut [u8], at: usize, frame: Frame) -> usize
    requires { at + 41 ≤ length run.old }
    ensures { Puts run.old at (size_text frame) run.new result }
{
    let columns = text::put_decimal(run, at, frame.ni as u64);
    let rows = text::put(run, columns, b"x");
    text::put_decimal(run, rows, frame.nj as u64)
}

// The time that a line shows: the valid time, for an interval its end.
fn listed_time(definition: ProductDefinition) -> Time
    ensures { result ≡ listed_time definition }
{
    match definition.product {
        Product::Instant => definition.valid,
        Product::Interval { end, .. } => end,
    }
}

// Puts a field's line behind its number.
#[tactic(auto, using(text::proofs::Laws::decimal_short, crate::proofs::Laws::subject_short, crate::proofs::Laws::size_short))]
pub fn put_field(run: &mut [u8], at: usize, description: Description) -> usize
    requires { at + 161 ≤ length run.old }
    ensures { Puts run.old at (field_text description) run.new result }
{
    let definition = description.definition;
    let subject = put_subject(run, at, description.discipline, definition);
    let surface = text::put(run, subject, b" ");
    let kind = text::put_decimal(run, surface, definition.surface as u64);
    let size = text::put(run, kind, b" ");
    let frame = put_size(run, size, section_3_geometry::frame_of(description.grid));
    let time = text::put(run, frame, b" ");
    let digits = calendar::digits(listed_time(definition));
    let moment = text::put(run, time, &digits);
    let count = text::put(run, moment, b" ");
    text::put_decimal(run, count, description.representation.n as u64)
}

// The question picture: a field as a raw PGM picture, written into a run lent for it. It has no precondition: what cannot be answered is refused, and then nothing is
// written. No double is made.
#![tactic(auto)]

ghost use Rattle.std.specs.Prelude.{◌≡◌, ◌≤◌, length};
ghost use Rattle.laws_rows.specs.Rows.{Puts};
ghost use Rattle.section_3_geometry.specs.Geometry.{points_of};
ghost use Rattle.values_largest.specs.Largest.{largest_in};
ghost use Rattle.question.specs.Judge.{integer_of};
ghost use Rattle.question_decode.specs.Decoding.{present_of};
ghost use Rattle.question_picture.specs.Picture.{header, greys_of, point_integer, picture_asked, pictured_by, run_after, pictured, run_left, LargestOf};

use octets::FilePlace;
use question::DescribedField;
use refusals::{Refusal, Why};
use section_3_geometry::Frame;
use section_7::Data;

// How long the lines before the greys are.
fn header_length(frame: Frame) -> usize
    requires { (frame.ni ≤ 65535) × (frame.nj ≤ 65535) }
    ensures { result ≡ length (header frame) }
{
    9 + text::digits_in(frame.ni) + text::digits_in(frame.nj)
}

// Puts the lines before the greys at the start of a run.
fn put_header(run: &mut [u8], frame: Frame) -> usize
    requires { (frame.ni ≤ 65535) × (frame.nj ≤ 65535) × (length (header frame) ≤ length run.old) }
    ensures { Puts run.old 0 (header frame) run.new result }
{
    let kind = text::put(run, 0, b"P5\n");
    let columns = text::put_short(run, kind, frame.ni);
    let space = text::put(run, columns, b" ");
    let rows = text::put_short(run, space, frame.nj);
    text::put(run, rows, b"\n255\n")
}

// The largest integer of a field, which is the largest at a point that is present; or none, where one is out of its range.
fn largest_of(field: DescribedField) -> Option<u32>
    ensures { result ≡ largest_in (integer_of field.entry.file.now field.entry.description) field.entry.description.representation.n }
{
    match field.description.plan {
        Data::Simple => {
            let n = field.description.representation.n as u64;
            Some(values_largest::of_simple(field.numbered(), n))
        }
        Data::Complex(groups) => values_largest::of_complex(field.grouped(groups)),
    }
}

// Paints the points of a field whose largest integer this is.
fn paint(field: DescribedField, largest: u32, stretch: &mut [u8])
    requires { (LargestOf field.file.now field.description largest) × (length stretch.old ≡ points_of field.description.grid) }
    ensures { stretch.new ≡ greys_of (present_of field.entry.file.now field.entry.description)
        (point_integer field.entry.file.now field.entry.description) (points_of field.entry.description.grid) }
{
    let n = field.description.representation.n as u64;
    let scale = greys::scale_of(largest);
    let bitmap = field.bitmap();
    match field.description.plan {
        Data::Simple => {
            values_picture::paint_simple(field.numbered(), bitmap, n, scale, stretch);
        }
        Data::Complex(groups) => {
            values_picture::paint_complex(field.grouped(groups), bitmap, n, scale, stretch);
        }
    }
}

// Writes the picture of a field that is described: 15, and then 16. Nothing is written before there is room for every octet and every integer is judged.
fn picture_asked(field: DescribedField, run: &mut [u8]) -> Result<u32, Refusal>
    ensures value { result ≡ pictured_by (picture_asked field.entry.file.now (length run.old) field.entry.description) }
    ensures run_after { run.new ≡ run_after run.old (picture_asked field.entry.file.now (length run.old) field.entry.description) }
{
    let frame = section_3_geometry::frame_of(field.description.grid);
    let end = header_length(frame) + field.points() as usize;
    if run.len() < end {
        return Err(Why::NoRoom.at(FilePlace(0)));
    }
    let largest = largest_of(field).ok_or(Why::ValueOutOfRange.at(field.description.starts.seven))?;
    let first = put_header(run, frame);
    paint(field, largest, &mut run[first..end]);
    Ok(end as u32)
}

// Writes the picture of field `k` at the start of the run and answers its length, or refuses with 1 to 16.
pub fn picture(file: &[u8], k: usize, run: &mut [u8]) -> Result<u32, Refusal>
    ensures value { result ≡ pictured file.now k (length run.old) }
    ensures run_after { run.new ≡ run_left file.now k run.old }
{
    let description = question::describe(file, k)?;
    picture_asked(
        DescribedField {
            file,
            k,
            description,
        },
        run,
    )
}

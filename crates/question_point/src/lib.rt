// The question point: the value of one point of a field, or that it is missing. No other value is made for it. Behind the refusals of describe come 17, 15 and 16: an
// integer behind the point's own is not looked at. No question has a precondition: what cannot be answered is refused.
#![tactic(auto)]

ghost use Rattle.std.specs.Prelude.{◌≡◌, ◌<◌};
ghost use Rattle.section_3_geometry.specs.Geometry.{points_of};
ghost use Rattle.values_complex.specs.Complex.{single_of};
ghost use Rattle.question.specs.Judge.{integer_of};
ghost use Rattle.question_point.specs.Point.{value_from, value_by, pointed_at, point_asked_of, point_into, point};

use doubles::Packing;
use octets::FilePlace;
use question::DescribedField;
use refusals::{Refusal, Why};
use section_7::Data;

// The integer numbered m of a field, where none up to it is out of its range.
fn integer_of(field: DescribedField, m: u64) -> Option<u32>
    requires { m < field.description.representation.n }
    ensures { result ≡ single_of (integer_of field.entry.file.now field.entry.description) m }
{
    match field.description.plan {
        Data::Simple => Some(values_simple::integer_at(field.numbered(), m)),
        Data::Complex(groups) => values_complex::integer_at(field.grouped(groups), m),
    }
}

// What is told of the point whose integer this is, where section 7 starts there: its value, or 16.
fn value_from(
    packing: Packing,
    seven: FilePlace,
    integer: Option<u32>,
) -> Result<Option<f64>, Refusal>
    ensures { result ≡ value_from packing seven.0 integer }
{
    let x = integer.ok_or(Why::ValueOutOfRange.at(seven))?;
    Ok(Some(doubles::rebuild(packing, x)))
}

// The value of the point that is present behind m others.
fn value_by(field: DescribedField, m: u64) -> Result<Option<f64>, Refusal>
    requires { m < field.description.representation.n }
    ensures { result ≡ value_by field.entry.file.now field.entry.description m }
{
    let packing = question_decode::packing_of(field.description.representation);
    value_from(
        packing,
        field.description.starts.seven,
        integer_of(field, m),
    )
}

// Point n of a field that has it: its value, or none where it is missing.
fn pointed_at(field: DescribedField, n: usize) -> Result<Option<f64>, Refusal>
    requires { n < points_of field.description.grid }
    ensures { result ≡ pointed_at field.entry.file.now field.entry.description n }
{
    let bitmap = field.bitmap();
    if !values_points::is_present(bitmap, n) {
        return Ok(None);
    }
    value_by(field, values_points::rank_of(bitmap, n) as u64)
}

// Point n of a field that is described, for a run of this length.
fn point_asked_of(field: DescribedField, n: usize, room: usize) -> Result<Option<f64>, Refusal>
    ensures { result ≡ point_asked_of field.entry.file.now n room field.entry.description }
{
    question_place::point_asked(field.description.grid, n, 1, room)?;
    pointed_at(field, n)
}

// Point `n` of field `k`, for a run of this length: its value, or none where it is missing, or refusal 1 to 14, 17, 15 or 16.
pub fn point_into(file: &[u8], k: usize, n: usize, room: usize) -> Result<Option<f64>, Refusal>
    ensures { result ≡ point_into file.now k n room }
{
    let description = question::describe(file, k)?;
    point_asked_of(
        DescribedField {
            file,
            k,
            description,
        },
        n,
        room,
    )
}

// Point `n` of field `k`, likewise. An answer that is handed back has its own room.
pub fn point(file: &[u8], k: usize, n: usize) -> Result<Option<f64>, Refusal>
    ensures { result ≡ point file.now k n }
{
    point_into(file, k, n, 1)
}

// The question decode: the values of a field and which of its points are present, written into runs lent for them. It has no precondition:
// what cannot be answered is refused, and then nothing is written.
#![tactic(auto)]

ghost use Rattle.std.specs.Prelude.{◌≡◌, true, length};
ghost use Rattle.laws_rows.specs.Rows.{laid};
ghost use Rattle.doubles.specs.Doubles.{Scaled};
ghost use Rattle.section_3_geometry.specs.Geometry.{points_of};
ghost use Rattle.question.specs.Judge.{has_room, is_decodable};
ghost use Rattle.question_decode.specs.Decoding.{Stretch, packing_by, doubles_of, marks_of, answer, values_left, presence_left};

use doubles::Packing;
use question::DescribedField;
use refusals::Refusal;
use section_5::Representation;
use section_7::Data;

// The packing record of section 5's numbers.
pub fn packing_of(representation: Representation) -> Packing
    requires { Scaled representation.r representation.e representation.d }
    ensures { result ≡ packing_by representation }
{
    let e = representation.e;
    let d = representation.d;
    doubles::packing_of(representation.r, e, d)
}

// Fills the field's stretch of both runs.
fn fill(field: DescribedField, values: &mut [f64], presence: &mut [u8])
    requires decodable { is_decodable field.file.now field.description ≡ true }
    requires stretch { Stretch field.description values.old presence.old }
    ensures values_after { values.new ≡ doubles_of field.entry.file.now field.entry.description }
    ensures presence_after { presence.new ≡ marks_of field.entry.file.now field.entry.description }
{
    let representation = field.description.representation;
    let packing = packing_of(representation);
    let bitmap = field.bitmap();
    match field.description.plan {
        Data::Simple => {
            let n = representation.n as u64;
            values_simple::fill(field.numbered(), bitmap, n, packing, values, presence);
        }
        Data::Complex(groups) => {
            values_complex::fill(field.grouped(groups), bitmap, packing, values, presence);
        }
    }
}

// Decodes a field that is judged, into its stretch of both runs, and answers its point count.
fn decode_judged(
    field: DescribedField,
    start: usize,
    values: &mut [f64],
    presence: &mut [u8],
) -> u32
    requires decodable { is_decodable field.file.now field.description ≡ true }
    requires presence_value { has_room start (points_of field.description.grid) (length values.old) (length presence.old) ≡ true }
    ensures value { result ≡ points_of field.entry.description.grid }
    ensures values_after { values.new ≡ laid values.old start (doubles_of field.entry.file.now field.entry.description) }
    ensures presence_after { presence.new ≡ laid presence.old start (marks_of field.entry.file.now field.entry.description) }
{
    let points = field.points();
    let end = start + points as usize;
    fill(field, &mut values[start..end], &mut presence[start..end]);
    points
}

// Decodes field `k`: fills the stretch of both runs from `start` on and answers the field's point count, or refuses with 1 to 16. Nothing is written
// before there is room for every point and every integer is judged.
pub fn decode(
    file: &[u8],
    k: usize,
    start: usize,
    values: &mut [f64],
    presence: &mut [u8],
) -> Result<u32, Refusal>
    ensures value { result ≡ answer file.now k start (length values.old) (length presence.old) }
    ensures values_after { values.new ≡ values_left file.now k start values.old presence.old }
    ensures presence_after { presence.new ≡ presence_left file.now k start values.old presence.old }
{
    let description = question::judge_values(file, k, start, values.len(), presence.len())?;
    Ok(decode_judged(
        DescribedField {
            file,
            k,
            description,
        },
        start,
        values,
        presence,
    ))
}

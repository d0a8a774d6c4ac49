// The one place where the sections of a field are judged. Refusals 1 to 14 are tried here, in the order of refusals, and get their numbers and places here; and so
// are those behind them that describe and decode can meet. Whoever answers a question asks here first. No question has a precondition: what cannot be answered is
// refused.
#![tactic(auto)]

ghost use Rattle.std.specs.Prelude.{◌≡◌, ◌≤◌, Ok};
ghost use Rattle.section.specs.Sections.{Lies, octets_in};
ghost use Rattle.tiling_sections.specs.Laid.{Laid};
ghost use Rattle.section_3_geometry.specs.Geometry.{points_of};
ghost use Rattle.section_6.specs.Presence.{bitmap_in_force};
ghost use Rattle.question.specs.Describe.{described_at, describe};
ghost use Rattle.question.specs.Judge.{Asks, has_room, is_decodable, values_asked, description_length, numbers_asked, judge};

use octets::{FilePlace, OctetNumber};
use refusals::{Refusal, Why};
use section::FileSection;
use section_1::Identification;
use section_3_geometry::Grid;
use section_4::ProductDefinition;
use section_5::Representation;
use section_6::Presence;
use section_7::{Data, Groups};
use tiling_sections::{Located, Starts};
use values_complex::GroupedSection;
use values_simple::NumberedSection;

// All that is said of a field: the discipline from section 0, what sections 1, 3, 4 and 5 in force for it say, which of its points are present, what
// section 7 holds, and where these sections start.
#[derive(Clone, Copy)]
pub struct Description {
    pub discipline: u8,
    pub identification: Identification,
    pub grid: Grid,
    pub definition: ProductDefinition,
    pub representation: Representation,
    pub presence: Presence,
    pub plan: Data,
    pub starts: Starts,
}

// A field of a file: the file, the field's number there, and what `describe` says of it.
#[derive(Clone, Copy)]
pub struct DescribedField<'a> {
    pub file: &'a [u8],
    pub k: usize,
    pub description: Description,
    ghost described: { describe file.now k ≡ Ok description },
}

impl<'a> DescribedField<'a> {
    // How many points it has.
    pub fn points(&self) -> u32
        ensures { (result ≡ points_of self.now.description.grid) × (result ≤ 16777216) }
    {
        section_3_geometry::points_of(self.description.grid)
    }

    // The octets of its section 7, in which its integers are packed.
    pub fn packed(&self) -> &'a [u8]
        ensures { result.now ≡ octets_in self.now.file.now self.now.description.starts.seven.0 }
    {
        FileSection {
            file: self.file,
            at: self.description.starts.seven,
        }
        .octets()
    }

    // These octets with how many bits each number has that is packed in them.
    pub fn numbered(&self) -> NumberedSection<'a>
        ensures { (result.section.now ≡ octets_in self.now.file.now self.now.description.starts.seven.0)
            × (result.bits ≡ self.now.description.representation.bits) }
    {
        let section = self.packed();
        let bits = self.description.representation.bits;
        NumberedSection { section, bits }
    }

    // These octets with the groups that lie in them, where its packing is complex.
    pub fn grouped(&self, groups: Groups) -> GroupedSection<'a>
        requires { self.now.description.plan ≡ Data.Complex groups }
        ensures { (result.section.now ≡ octets_in self.now.file.now self.now.description.starts.seven.0) × (result.groups ≡ groups) }
    {
        GroupedSection {
            section: self.packed(),
            groups,
        }
    }

    // The bitmap that tells which of its points are present: empty where all are.
    pub fn bitmap(&self) -> &'a [u8]
        ensures { result.now ≡ bitmap_in_force self.now.file.now self.now.description.presence (points_of self.now.description.grid) }
    {
        section_6::bitmap_in_force(self.file, self.description.presence, self.points())
    }

    // Is every integer X of the field in its range?
    fn is_decodable(&self) -> bool
        ensures { result ≡ is_decodable self.now.file.now self.now.description }
    {
        match self.description.plan {
            Data::Simple => true,
            Data::Complex(groups) => {
                values_complex::is_in_range(
                    self.grouped(groups),
                    self.description.representation.n as u64,
                )
            }
        }
    }
}

fn section_of<'a>(file: &'a [u8], at: FilePlace) -> FileSection<'a>
    requires { Lies file.now at.0 }
    ensures { (result.file ≡ file.entry) × (result.at ≡ at) }
{
    FileSection { file, at }
}

// The sections of a field that was found, in the order of their refusals: 9 to 14.
#[tactic(auto, using(section_1::proofs::Laws::identified_gregorian, section_3::proofs::Laws::grid_few, section_7::proofs::Laws::limited), unfolding(crate::specs::Describe::described_at))]
fn described_at(file: &[u8], located: Located) -> Result<Description, Refusal>
    requires { Laid file.now located }
    ensures { result ≡ described_at file.now located }
{
    let starts = located.starts;
    let identification = section_1::identification_at(section_of(file, starts.one)).ok_or(
        Why::BadIdentification.at(starts.one),
    )?;
    let grid = section_3::grid_at(section_of(file, starts.three)).ok_or(Why::BadGrid.at(
        starts.three,
    ))?;
    let reference = identification.reference;
    let definition = section_4::product_definition_at(
        section_of(file, starts.four),
        reference,
    ).ok_or(Why::BadProduct.at(starts.four))?;
    let representation = section_5::representation_at(section_of(file, starts.five)).ok_or(
        Why::BadRepresentation.at(starts.five),
    )?;
    let (bitmap, points) = (located.bitmap, section_3_geometry::points_of(grid));
    let presence = section_6::presence_at(
        section_of(file, starts.six),
        bitmap,
        points,
        representation.n,
    )
    .ok_or(Why::BadBitmap.at(starts.six))?;
    let plan = section_7::data_at(section_of(file, starts.seven), representation).ok_or(
        Why::BadPacking.at(starts.seven),
    )?;
    Ok(Description {
        discipline: section::octet(file, starts.zero, OctetNumber(7)),
        identification,
        grid,
        definition,
        representation,
        presence,
        plan,
        starts,
    })
}

// Describes field `k`, counted from 0 over all messages: the whole description, or refusal 1 to 14.
pub fn describe(file: &[u8], k: usize) -> Result<Description, Refusal>
    ensures { result ≡ describe file.now k }
{
    let tiled = tiling::find(file, k)?;
    if tiled.fields <= k {
        return Err(Why::NoSuchField.at(FilePlace(0)));
    }
    described_at(file, tiled.hit)
}

// Do so many points fit from `start` on into runs of these lengths?
fn has_room(start: usize, points: u32, values: usize, presence: usize) -> bool
    ensures { result ≡ has_room start points values presence }
{
    let points = points as usize;
    start <= values && start <= presence && points <= values - start && points <= presence - start
}

// All values of a field: 15, and then 16.
fn values_asked(
    field: DescribedField,
    start: usize,
    values: usize,
    presence: usize,
) -> Result<Description, Refusal>
    ensures { result ≡ values_asked field.entry.file.now start values presence field.entry.description }
{
    if !has_room(start, field.points(), values, presence) {
        return Err(Why::NoRoom.at(FilePlace(0)));
    }
    if !field.is_decodable() {
        return Err(Why::ValueOutOfRange.at(field.description.starts.seven));
    }
    Ok(field.description)
}

// How many numbers tell a description to C: those of a Lambert grid come behind the others.
fn description_length(grid: Grid) -> usize
    ensures { result ≡ description_length grid }
{
    match grid {
        Grid::Degrees(_) => 53,
        Grid::Lambert(_) => 60,
    }
}

// The numbers of a field that is described, for a run of this length: 15.
fn numbers_asked(description: Description, room: usize) -> Result<Description, Refusal>
    ensures { result ≡ numbers_asked room description }
{
    if room < description_length(description.grid) {
        return Err(Why::NoRoom.at(FilePlace(0)));
    }
    Ok(description)
}

// Judges whether the numbers of field `k` are to be put into a run of this length: its description, or refusal 1 to 14 or 15.
pub fn judge_numbers(file: &[u8], k: usize, room: usize) -> Result<Description, Refusal>
    ensures { result ≡ judge file.now k (Asks.Numbers room) }
{
    numbers_asked(describe(file, k)?, room)
}

// Judges whether the values of field `k` are to be put into runs of these lengths, from `start` on: its description, or refusal 1 to 14, 15 or 16. Each of these two
// functions is called in one place and so compiled in place: then a description is not copied whole.
pub fn judge_values(
    file: &[u8],
    k: usize,
    start: usize,
    values: usize,
    presence: usize,
) -> Result<Description, Refusal>
    ensures { result ≡ judge file.now k (Asks.Values start values presence) }
{
    let description = describe(file, k)?;
    values_asked(
        DescribedField {
            file,
            k,
            description,
        },
        start,
        values,
        presence,
    )
}

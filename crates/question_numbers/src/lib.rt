// A description and a place as rows of numbers with a sign, put into a run that is lent for them. It is how C is told what a field is.
#![tactic(auto)]

ghost use Rattle.std.specs.Prelude.{[], ◌∷◌, ◌≡◌, ◌+◌, ◌≤◌, ◌<◌, pos, length};
ghost use Rattle.octets.specs.Numbers.{whole};
ghost use Rattle.laws_rows.specs.Rows.{Puts};
ghost use Rattle.section_3_geometry.specs.declared.Grid.TheVariants as Grid;
ghost use Rattle.section_3_geometry.specs.Geometry.{points_in};
ghost use Rattle.section_5.specs.Representation.{template_number};
ghost use Rattle.section_6.specs.Presence.{indicator_of};
ghost use Rattle.question.specs.Judge.{description_length};
ghost use Rattle.question_numbers.specs.Numbers.{time_numbers, position_numbers, sheet_numbers, frame_numbers, degree_numbers, grid_numbers, lambert_numbers, level_numbers, product_numbers, definition_numbers, representation_numbers, start_numbers, field_numbers, shared_numbers, numbers_of};
ghost use Rattle.question_numbers.specs.Held.{LambertHeld, LatitudesHeld, GridHeld, SheetHeld, factor_size, RepresentationHeld, StartsHeld, Held};

use calendar::Time;
use octets::Signed;
use question::Description;
use section_3_geometry::{Frame, Grid, LambertGrid, Position};
use section_3_lambert::SheetPlace;
use section_4::{Level, Product, ProductDefinition};
use section_5::{Representation, Template};
use section_6::Presence;
use text::put;
use tiling_sections::Starts;

// The number that a sign and a size are.
fn signed(number: Signed) -> i64
    requires { number.size < 9223372036854775808 }
    ensures { result ≡ whole number }
{
    let size = number.size as i64;
    if number.negative { -size } else { size }
}

fn time_numbers(time: Time) -> [i64; 6]
    ensures { result ≡ time_numbers time }
{
    let date = time.date;
    [
        date.year as i64,
        date.month as i64,
        date.day as i64,
        time.hour as i64,
        time.minute as i64,
        time.second as i64,
    ]
}

fn position_numbers(position: Position) -> [i64; 2]
    requires { position.latitude.size < 9223372036854775808 }
    ensures { result ≡ position_numbers position }
{
    [signed(position.latitude), position.longitude as i64]
}

fn level_numbers(level: Option<Level>) -> [i64; 3]
    requires { factor_size level ≤ 127 }
    ensures { result ≡ level_numbers level }
{
    match level {
        None => [0, 0, 0],
        Some(level) => [1, signed(level.factor), level.scaled as i64],
    }
}

fn product_numbers(product: Product) -> [i64; 8]
    ensures { result ≡ product_numbers product }
{
    match product {
        Product::Instant => [0, 0, 0, 0, 0, 0, 0, 0],
        Product::Interval { end, kind } => {
            let [year, month, day, hour, minute, second] = time_numbers(end);
            [8, year, month, day, hour, minute, second, kind as i64]
        }
    }
}

fn template_number(template: Template) -> i64
    ensures { result ≡ pos (template_number template) }
{
    match template {
        Template::Simple => 0,
        Template::Complex(_) => 3,
    }
}

fn indicator_of(presence: Presence) -> i64
    ensures { result ≡ pos (indicator_of presence) }
{
    match presence {
        Presence::All => 255,
        Presence::Own(_) => 0,
        Presence::Earlier(_) => 254,
    }
}

fn frame_numbers(frame: Frame) -> [i64; 5]
    requires { points_in frame ≤ 16777216 }
    ensures { result ≡ frame_numbers frame }
{
    [
        frame.earth as i64,
        frame.radius as i64,
        frame.ni as i64,
        frame.nj as i64,
        (frame.ni * frame.nj) as i64,
    ]
}

// The first point; and of a grid in degrees the last one and the steps, where a Lambert grid has zeros.
fn degree_numbers(grid: Grid) -> [i64; 6]
    requires { LatitudesHeld grid }
    ensures { result ≡ degree_numbers grid }
{
    match grid {
        Grid::Degrees(degrees) => {
            let [latitude, longitude] = position_numbers(degrees.first);
            let [last_latitude, last_longitude] = position_numbers(degrees.last);
            [
                latitude,
                longitude,
                last_latitude,
                last_longitude,
                degrees.di as i64,
                degrees.dj as i64,
            ]
        }
        Grid::Lambert(lambert) => {
            let [latitude, longitude] = position_numbers(lambert.first);
            [latitude, longitude, 0, 0, 0, 0]
        }
    }
}

fn lambert_numbers(grid: LambertGrid) -> [i64; 7]
    requires { LambertHeld grid }
    ensures { result ≡ lambert_numbers (Grid.Lambert grid) }
{
    [
        30,
        signed(grid.stated),
        grid.upright as i64,
        grid.dx as i64,
        grid.dy as i64,
        signed(grid.cut1),
        signed(grid.cut2),
    ]
}

fn put_grid(run: &mut [i64], at: usize, grid: Grid) -> usize
    requires { (at + 11 ≤ length run.old) × (GridHeld grid) }
    ensures { Puts run.old at (grid_numbers grid) run.new result }
{
    let degrees = put(run, at, &frame_numbers(section_3_geometry::frame_of(grid)));
    put(run, degrees, &degree_numbers(grid))
}

// Puts what a Lambert grid alone has, and nothing of a grid in degrees.
fn put_lambert(run: &mut [i64], at: usize, grid: Grid) -> usize
    requires { (at + length (lambert_numbers grid) ≤ length run.old) × (LatitudesHeld grid) }
    ensures { Puts run.old at (lambert_numbers grid) run.new result }
{
    match grid {
        Grid::Degrees(_) => at,
        Grid::Lambert(lambert) => put(run, at, &lambert_numbers(lambert)),
    }
}

fn put_definition(run: &mut [i64], at: usize, definition: ProductDefinition) -> usize
    requires { (at + 21 ≤ length run.old) × (factor_size definition.level ≤ 127) }
    ensures { Puts run.old at (definition_numbers definition) run.new result }
{
    let level = put(
        run,
        at,
        &[
            definition.category as i64,
            definition.parameter as i64,
            definition.process as i64,
            definition.surface as i64,
        ],
    );
    let product = put(run, level, &level_numbers(definition.level));
    let valid = put(run, product, &product_numbers(definition.product));
    put(run, valid, &time_numbers(definition.valid))
}

fn representation_numbers(representation: Representation) -> [i64; 6]
    requires { RepresentationHeld representation }
    ensures { result ≡ representation_numbers representation }
{
    [
        representation.n as i64,
        representation.r as i64,
        signed(representation.e),
        signed(representation.d),
        representation.bits as i64,
        template_number(representation.template),
    ]
}

fn start_numbers(starts: Starts) -> [i64; 6]
    requires { StartsHeld starts }
    ensures { result ≡ start_numbers starts }
{
    [
        starts.one.0 as i64,
        starts.three.0 as i64,
        starts.four.0 as i64,
        starts.five.0 as i64,
        starts.six.0 as i64,
        starts.seven.0 as i64,
    ]
}

// Puts what sections 0, 1, 3 and 4 say of the field.
fn put_field(run: &mut [i64], description: Description) -> usize
    requires { (40 ≤ length run.old) × (Held description) }
    ensures { Puts run.old 0 (field_numbers description) run.new result }
{
    let identification = description.identification;
    let reference = put(
        run,
        0,
        &[description.discipline as i64, identification.status as i64],
    );
    let frame = put(run, reference, &time_numbers(identification.reference));
    let definition = put_grid(run, frame, description.grid);
    put_definition(run, definition, description.definition)
}

// Puts one number. Where a run of one element is copied, the compiler does not see that nothing of the lent run is read.
fn put_one(run: &mut [i64], at: usize, number: i64) -> usize
    requires { at + 1 ≤ length run.old }
    ensures { Puts run.old at (number ∷ []) run.new result }
{
    run[at] = number;
    at + 1
}

// Puts the numbers that every description has.
fn put_shared(run: &mut [i64], description: Description) -> usize
    requires { (53 ≤ length run.old) × (Held description) }
    ensures { Puts run.old 0 (shared_numbers description) run.new result }
{
    let representation = put_field(run, description);
    let presence = put(
        run,
        representation,
        &representation_numbers(description.representation),
    );
    let starts = put_one(run, presence, indicator_of(description.presence));
    put(run, starts, &start_numbers(description.starts))
}

// Puts the numbers of a description at the start of the run, and answers how many they are.
pub fn put_description(run: &mut [i64], description: Description) -> usize
    requires { (description_length description.grid ≤ length run.old) × (Held description) }
    ensures { Puts run.old 0 (numbers_of description) run.new result }
{
    let lambert = put_shared(run, description);
    put_lambert(run, lambert, description.grid)
}

// Puts the numbers of a position at the start of the run, and answers how many they are.
pub fn put_position(run: &mut [i64], position: Position) -> usize
    requires { (2 ≤ length run.old) × (position.latitude.size < 9223372036854775808) }
    ensures { Puts run.old 0 (position_numbers position) run.new result }
{
    put(run, 0, &position_numbers(position))
}

// Puts the numbers of a place on the sheet at the start of the run, and answers how many they are.
pub fn put_sheet(run: &mut [i64], place: SheetPlace) -> usize
    requires { (2 ≤ length run.old) × (SheetHeld place) }
    ensures { Puts run.old 0 (sheet_numbers place) run.new result }
{
    put(run, 0, &[place.right as i64, place.down as i64])
}

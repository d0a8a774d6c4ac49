// The questions where one of a field's points lies: in degrees, and on the sheet of a Lambert map. Behind the refusals of describe come 20, 17 and 15, which are tried and
// get their numbers and places here. No question has a precondition: what cannot be answered is refused.
#![tactic(auto)]

ghost use Rattle.std.specs.Prelude.{◌≡◌, ◌≤◌};
ghost use Rattle.section_3_geometry.specs.Geometry.{points_of};
ghost use Rattle.question_place.specs.Place.{point_asked, degrees_asked, lambert_asked, on_degrees, on_lambert, place, sheet};

use octets::FilePlace;
use refusals::{Refusal, Why};
use section_3_geometry::{DegreeGrid, Grid, LambertGrid, Position};
use section_3_lambert::SheetPlace;

// A point of a grid is asked, of which so many numbers tell, for a run of this length: 17, and then 15.
pub fn point_asked(grid: Grid, n: usize, needed: usize, room: usize) -> Result<(), Refusal>
    requires { points_of grid ≤ 16777216 }
    ensures { result ≡ point_asked n needed room grid }
{
    if section_3_geometry::points_of(grid) as usize <= n {
        return Err(Why::NoSuchPoint.at(FilePlace(0)));
    }
    if room < needed {
        return Err(Why::NoRoom.at(FilePlace(0)));
    }
    Ok(())
}

// Degrees are asked of a point of a grid: 20, and then those of the point.
fn degrees_asked(grid: Grid, n: usize, room: usize) -> Result<DegreeGrid, Refusal>
    requires { points_of grid ≤ 16777216 }
    ensures { result ≡ degrees_asked n room grid }
{
    let Grid::Degrees(degrees) = grid else {
        return Err(Why::OtherGrid.at(FilePlace(0)));
    };
    point_asked(grid, n, 2, room)?;
    Ok(degrees)
}

// A place on the sheet is asked of a point of a grid: 20, and then those of the point.
fn lambert_asked(grid: Grid, n: usize, room: usize) -> Result<LambertGrid, Refusal>
    requires { points_of grid ≤ 16777216 }
    ensures { result ≡ lambert_asked n room grid }
{
    let Grid::Lambert(lambert) = grid else {
        return Err(Why::OtherGrid.at(FilePlace(0)));
    };
    point_asked(grid, n, 2, room)?;
    Ok(lambert)
}

// Judges whether point `n` of field `k` is to be told in degrees, in a run of this length: its grid in degrees, or refusal 1 to 14, 20, 17 or 15.
pub fn on_degrees(file: &[u8], k: usize, n: usize, room: usize) -> Result<DegreeGrid, Refusal>
    ensures { result ≡ on_degrees file.now k n room }
{
    let description = question::describe(file, k)?;
    degrees_asked(description.grid, n, room)
}

// Judges whether point `n` of field `k` is to be told on the sheet, in a run of this length: its Lambert grid, or refusal 1 to 14, 20, 17 or 15.
pub fn on_lambert(file: &[u8], k: usize, n: usize, room: usize) -> Result<LambertGrid, Refusal>
    ensures { result ≡ on_lambert file.now k n room }
{
    let description = question::describe(file, k)?;
    lambert_asked(description.grid, n, room)
}

// Places point `n` of field `k`: its latitude and longitude, or refusal 1 to 14, 20 or 17. An answer that is handed back has its own room.
pub fn place(file: &[u8], k: usize, n: usize) -> Result<Position, Refusal>
    ensures { result ≡ place file.now k n }
{
    let grid = on_degrees(file, k, n, 2)?;
    Ok(section_3_positions::position_of(grid, n as u32))
}

// Places point `n` of field `k` on the sheet: how far it lies to the right and down, or refusal 1 to 14, 20 or 17.
pub fn sheet(file: &[u8], k: usize, n: usize) -> Result<SheetPlace, Refusal>
    ensures { result ≡ sheet file.now k n }
{
    let grid = on_lambert(file, k, n, 2)?;
    Ok(section_3_lambert::sheet_of(grid, n as u32))
}

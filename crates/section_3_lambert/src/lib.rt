// The numbers of a Lambert grid: which of them make one, and where its points lie on the sheet (RULES, "Section 3").
#![tactic(auto)]

ghost use Rattle.std.specs.Prelude.{◌≡◌};
ghost use Rattle.section_3_lambert.specs.Lambert.{is_spaced, is_coned, is_lambert_grid};
ghost use Rattle.section_3_lambert.specs.Sheet.{SheetMeasured, sheet_of};

use section_3_geometry::LambertGrid;

// A place on the sheet: so far to the right of the first point, and so far below it, in thousandths of a metre.
#[derive(Clone, Copy)]
pub struct SheetPlace {
    pub right: u64,
    pub down: u64,
}

// Are the lengths from a column and from a row to the next from 1 to 2,147,483,647?
fn is_spaced(grid: LambertGrid) -> bool
    ensures { result ≡ is_spaced grid }
{
    (1..=2_147_483_647).contains(&grid.dx) && (1..=2_147_483_647).contains(&grid.dy)
}

// Are the angles of the cone latitudes and a longitude?
fn is_coned(grid: LambertGrid) -> bool
    ensures { result ≡ is_coned grid }
{
    grid.stated.size <= 90_000_000
        && grid.upright <= 359_999_999
        && grid.cut1.size <= 90_000_000
        && grid.cut2.size <= 90_000_000
}

// Do these numbers make a Lambert grid with so many points?
pub fn is_taken(grid: LambertGrid, points: u32) -> bool
    ensures { result ≡ is_lambert_grid grid points }
{
    section_3_geometry::is_counted(grid.frame, points)
        && section_3_geometry::is_position(grid.first)
        && is_coned(grid)
        && is_spaced(grid)
}

// Where point `n` of the grid lies on the sheet.
pub fn sheet_of(grid: LambertGrid, n: u32) -> SheetPlace
    requires { SheetMeasured grid }
    ensures { result ≡ sheet_of grid n }
{
    SheetPlace {
        right: (n % grid.frame.ni) as u64 * grid.dx as u64,
        down: (n / grid.frame.ni) as u64 * grid.dy as u64,
    }
}

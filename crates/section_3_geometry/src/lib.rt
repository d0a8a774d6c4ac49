// A field's grid, which is of one of two kinds, and the numbers that make a grid in degrees (RULES, "Section 3").
#![tactic(auto)]

ghost use Rattle.std.specs.Prelude.{◌≡◌, true, ◌≤◌, ◌<◌, ◌^◌};
ghost use Rattle.section_3_geometry.specs.Geometry.{frame_of, points_of, is_counted, south_of, is_position, is_cornered, span_east, span_south, is_spanned, is_taken};

use octets::Signed;

// A place on the earth, in millionths of a degree: a latitude with its sign, and a longitude eastward from 0 to 359,999,999.
#[derive(Clone, Copy)]
pub struct Position {
    pub latitude: Signed,
    pub longitude: u32,
}

// What both kinds of grid have: the earth's code and its radius in metres, and Ni points in each of Nj rows.
#[derive(Clone, Copy)]
pub struct Frame {
    pub earth: u8,
    pub radius: u32,
    pub ni: u32,
    pub nj: u32,
}

// A grid in degrees, of template 3.0: its first and its last point, and the steps Di and Dj in millionths of a degree.
#[derive(Clone, Copy)]
pub struct DegreeGrid {
    pub frame: Frame,
    pub first: Position,
    pub last: Position,
    pub di: u32,
    pub dj: u32,
}

// A Lambert grid, of template 3.30: its first point; the latitude at which lengths are as stated, and the meridian that is upright on the sheet; the lengths Dx and
// Dy in thousandths of a metre; and the two latitudes at which the cone cuts the earth.
#[derive(Clone, Copy)]
pub struct LambertGrid {
    pub frame: Frame,
    pub first: Position,
    pub stated: Signed,
    pub upright: u32,
    pub dx: u32,
    pub dy: u32,
    pub cut1: Signed,
    pub cut2: Signed,
}

// A field's grid.
#[derive(Clone, Copy)]
pub enum Grid {
    Degrees(DegreeGrid),
    Lambert(LambertGrid),
}

// What is the same question for both kinds: the earth, Ni and Nj.
pub fn frame_of(grid: Grid) -> Frame
    ensures { result ≡ frame_of grid }
{
    match grid {
        Grid::Degrees(degrees) => degrees.frame,
        Grid::Lambert(lambert) => lambert.frame,
    }
}

// How many points a grid has.
pub fn points_of(grid: Grid) -> u32
    requires { points_of grid ≤ 16777216 }
    ensures { result ≡ points_of grid }
{
    let frame = frame_of(grid);
    frame.ni * frame.nj
}

// Are there from 1 to 65,535 columns and rows, and as many points as are told, at most 16,777,216?
pub fn is_counted(frame: Frame, points: u32) -> bool
    ensures { result ≡ is_counted frame points }
{
    (1..=65535).contains(&frame.ni)
        && (1..=65535).contains(&frame.nj)
        && points == frame.ni * frame.nj
        && points <= 16_777_216
}

// Is it a latitude and a longitude?
pub fn is_position(position: Position) -> bool
    ensures { result ≡ is_position position }
{
    position.latitude.size <= 90_000_000 && position.longitude <= 359_999_999
}

// How far south of the north pole a latitude lies.
pub fn south_of(latitude: Signed) -> u64
    requires { latitude.size ≤ 90000000 }
    ensures { result ≡ south_of latitude }
{
    if latitude.negative {
        90_000_000 + latitude.size
    } else {
        90_000_000 - latitude.size
    }
}

// Are the first and the last point on the earth, and is the first not south of the last?
fn is_cornered(grid: DegreeGrid) -> bool
    ensures { result ≡ is_cornered grid }
{
    let first = grid.first;
    let last = grid.last;
    is_position(first) && is_position(last) && south_of(first.latitude) <= south_of(last.latitude)
}

// How far east of the first point the last one lies: past 360 degrees where its longitude is the smaller one.
pub fn span_east(grid: DegreeGrid) -> u64
    requires { is_cornered grid ≡ true }
    ensures { result ≡ span_east grid }
{
    let west = grid.first.longitude as u64;
    let east = grid.last.longitude as u64;
    if east < west {
        east + 360_000_000 - west
    } else {
        east - west
    }
}

// How far south of the first point the last one lies.
pub fn span_south(grid: DegreeGrid) -> u64
    requires { is_cornered grid ≡ true }
    ensures { result ≡ span_south grid }
{
    let first = grid.first.latitude;
    let last = grid.last.latitude;
    south_of(last) - south_of(first)
}

// Does the span differ from so many steps by at most their number?
fn is_spanned(steps: u32, step: u32, span: u64) -> bool
    requires { (steps ≤ 65534) × (span < 2 ^ 32) }
    ensures { result ≡ is_spanned steps step span }
{
    let steady = steps as u64 * step as u64;
    span <= steady + steps as u64 && steady <= span + steps as u64
}

// Do these numbers make a grid in degrees with so many points, whose spans east and south agree with its steps?
pub fn is_taken(grid: DegreeGrid, points: u32) -> bool
    ensures { result ≡ is_taken grid points }
{
    is_counted(grid.frame, points)
        && is_cornered(grid)
        && is_spanned(grid.frame.ni - 1, grid.di, span_east(grid))
        && is_spanned(grid.frame.nj - 1, grid.dj, span_south(grid))
}

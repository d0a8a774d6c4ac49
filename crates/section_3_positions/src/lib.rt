// Where the points of a grid lie (RULES, "Section 3").
#![tactic(auto)]

ghost use Rattle.std.specs.Prelude.{◌≡◌, ◌≤◌, ◌<◌, ◌^◌};
ghost use Rattle.section_3_geometry.specs.Geometry.{Measured};
ghost use Rattle.section_3_positions.specs.Positions.{Away, latitude_at};
ghost use Rattle.section_3_positions.specs.Quotients.{position_of};

use octets::Signed;
use section_3_geometry::{DegreeGrid, Position};

// The latitude that lies so far south of the north pole.
fn latitude_at(south: u64) -> Signed
    ensures { result ≡ latitude_at south }
{
    Signed {
        negative: 90_000_000 < south,
        size: south.abs_diff(90_000_000),
    }
}

// How far point `i` of so many lies from the first, where the last lies a span away: i x span / (count - 1), and a half more, rounded down.
fn away(count: u32, span: u64, i: u32) -> u64
    requires { (1 ≤ count) × (span < 2 ^ 29) }
    ensures { Away count span i result }
{
    let steps = count as u64 - 1;
    if steps == 0 {
        return 0;
    }
    (2 * (i as u64 * span) + steps) / (2 * steps)
}

// Where point `n` of the grid lies.
pub fn position_of(grid: DegreeGrid, n: u32) -> Position
    requires { Measured grid }
    ensures { result ≡ position_of grid n }
{
    let first = grid.first;
    let east = away(
        grid.frame.ni,
        section_3_geometry::span_east(grid),
        n % grid.frame.ni,
    );
    let south = away(
        grid.frame.nj,
        section_3_geometry::span_south(grid),
        n / grid.frame.ni,
    );
    let longitude = ((first.longitude as u64 + east) % 360_000_000) as u32;
    let latitude = latitude_at(section_3_geometry::south_of(first.latitude) + south);
    Position {
        latitude,
        longitude,
    }
}

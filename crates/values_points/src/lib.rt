// The points of a field in the runs lent for them: each gets its double, and 1 where it is present or 0 where it is missing.
#![tactic(auto)]

ghost use Rattle.std.specs.Prelude.{◌≡◌, ◌+◌, ◌≤◌, ◌<◌, length, eqb};
ghost use Rattle.values_points.specs.Written.{every_point, marks_in, lent, left, Covers, Room, PointsLeft, Cleared, Written, block_length, integers_in, are_present};

use doubles::Packing;
use octets::BitPlace;

// How many integers the next block has, of so many that are left. They are at most 56, since of so many points one window of the bitmap tells.
pub fn block_length(left: u64) -> usize
    ensures { result ≡ block_length left }
{
    left.min(56) as usize
}

// Is a point present? Where the bitmap is empty, every one is.
pub fn is_present(bitmap: &[u8], point: usize) -> bool
    requires { Covers bitmap.now (point + 1) }
    ensures { result ≡ eqb ((marks_in bitmap.now).mark point) 1 }
{
    if bitmap.is_empty() {
        return true;
    }
    bits::bit_in(bitmap, BitPlace(point)) == 1
}

// How many points before this one are present.
pub fn rank_of(bitmap: &[u8], point: usize) -> usize
    requires { Covers bitmap.now point }
    ensures { result ≡ (marks_in bitmap.now).rank point }
{
    if bitmap.is_empty() {
        return point;
    }
    bits_ones::ones_before(bitmap, point)
}

// Writes +0 to the points that are missing from `point` on, up to the next that is present or to the end, and answers where it stopped. A loop over
// the places, `for i in point..values.len()`, takes about a tenth longer where most blocks have missing points.
pub fn clear_missing(bitmap: &[u8], values: &mut [f64], presence: &mut [u8], point: usize) -> usize
    requires room { Room bitmap.now values.old presence.old }
    requires point_in_bounds { point ≤ length values.old }
    ensures { Cleared (marks_in bitmap.now) point result (lent values presence) (left values presence) }
{
    let mut i = point;
    while i < values.len() {
        if is_present(bitmap, i) {
            return i;
        }
        values[i] = 0.0;
        presence[i] = 0;
        i += 1;
    }
    i
}

// Writes one integer to the next point that is present, and +0 to those missing before it.
fn write_next(
    bitmap: &[u8],
    packing: Packing,
    x: u32,
    values: &mut [f64],
    presence: &mut [u8],
    point: usize,
) -> usize
    requires room { Room bitmap.now values.old presence.old }
    requires points_left { PointsLeft bitmap.now point 1 (length values.old) }
    ensures { Written (marks_in bitmap.now) packing (λ _. x) 1 point result (lent values presence) (left values presence) }
{
    let next = clear_missing(bitmap, values, presence, point);
    values[next] = doubles::rebuild(packing, x);
    presence[next] = 1;
    next + 1
}

// Writes a block of integers to as many points from `point` on, all of which are present.
fn write_all(packing: Packing, block: &[u32], values: &mut [f64], presence: &mut [u8], point: usize)
    requires { (length presence.old ≡ length values.old) × (length values.old ≤ 16777216) × (point + length block.now ≤ length values.old) }
    ensures { Written every_point packing (integers_in block.now) (length block.now) point (point + length block.now)
        (lent values presence) (left values presence) }
{
    // The loop has a packing of its own: of the lent one the compiler cannot know that the written doubles leave it alone.
    let own = packing;
    for (i, &x) in block.iter().enumerate() {
        values[point + i] = doubles::rebuild(own, x % 0x8000_0000);
        presence[point + i] = 1;
    }
}

// Are the n points from `point` on all present, n at most 56? Near the bitmap's end it may say no where they are.
fn are_present(bitmap: &[u8], point: usize, n: usize) -> bool
    requires { (point ≤ 16777216) × (n ≤ 56) }
    ensures { result ≡ are_present bitmap.now point n }
{
    if bitmap.is_empty() {
        return true;
    }
    if point / 8 + 8 <= bitmap.len() {
        return bits::read_wide(bitmap, BitPlace(point), n as u32) == (1u64 << n) - 1;
    }
    false
}

// Writes a block of integers to the next points that are present, one by one, and +0 to those missing before each.
fn write_each(
    bitmap: &[u8],
    packing: Packing,
    block: &[u32],
    values: &mut [f64],
    presence: &mut [u8],
    point: usize,
) -> usize
    requires room { Room bitmap.now values.old presence.old }
    requires points_left { PointsLeft bitmap.now point (length block.now) (length values.old) }
    ensures { Written (marks_in bitmap.now) packing (integers_in block.now) (length block.now) point result
        (lent values presence) (left values presence) }
{
    let mut next = point;
    for &x in block {
        next = write_next(bitmap, packing, x % 0x8000_0000, values, presence, next);
    }
    next
}

// Writes a block of integers to the next points that are present, and +0 to those missing before each.
pub fn write(
    bitmap: &[u8],
    packing: Packing,
    block: &[u32],
    values: &mut [f64],
    presence: &mut [u8],
    point: usize,
) -> usize
    requires room { Room bitmap.now values.old presence.old }
    requires points_left { (PointsLeft bitmap.now point (length block.now) (length values.old)) × (length block.now ≤ 56) }
    ensures { Written (marks_in bitmap.now) packing (integers_in block.now) (length block.now) point result
        (lent values presence) (left values presence) }
{
    if are_present(bitmap, point, block.len()) {
        write_all(packing, block, values, presence, point);
        return point + block.len();
    }
    write_each(bitmap, packing, block, values, presence, point)
}

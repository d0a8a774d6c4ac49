// What C is given: numbers and lent slices go in, and one number of 64 bits comes out. The crate skeptolyr_c exports these functions to C.
#![tactic(auto)]

ghost use Rattle.std.specs.Prelude.{◌≡◌, length};
ghost use Rattle.tiling.specs.Tiling.{check};
ghost use Rattle.question_decode.specs.Decoding.{answer, values_left, presence_left};
ghost use Rattle.question_point.specs.Point.{point_into};
ghost use Rattle.question_picture.specs.Picture.{pictured, run_left};
ghost use Rattle.skeptolyr.specs.Codes.{check_code, decode_code, point_code, point_left, picture_code, numbers_code, numbers_left, described_for, placed_for, sheet_for};

// Checks a file: messages x 2^32 + fields, or 2^63 + number x 2^32 + place.
pub fn skeptolyr_check(file: &[u8]) -> u64
    ensures { result ≡ check_code (check file.now) }
{
    match tiling::check(file) {
        Ok(counts) => counts.messages as u64 * 0x1_0000_0000 + counts.fields as u64,
        Err(refusal) => refusals::code_of(refusal),
    }
}

// Decodes field `k` into both runs, from `start` on: the point count, or 2^63 + number x 2^32 + place.
pub fn skeptolyr_decode(
    file: &[u8],
    k: usize,
    start: usize,
    values: &mut [f64],
    presence: &mut [u8],
) -> u64
    ensures value { result ≡ decode_code (answer file.now k start (length values.old) (length presence.old)) }
    ensures values_after { values.new ≡ values_left file.now k start values.old presence.old }
    ensures presence_after { presence.new ≡ presence_left file.now k start values.old presence.old }
{
    match question_decode::decode(file, k, start, values, presence) {
        Ok(points) => points as u64,
        Err(refusal) => refusals::code_of(refusal),
    }
}

// Describes field `k`: puts its numbers at the start of the run and answers how many they are, or 2^63 + number x 2^32 + place.
pub fn skeptolyr_describe(file: &[u8], k: usize, numbers: &mut [i64]) -> u64
    ensures value { result ≡ numbers_code (described_for file.now k numbers.old) }
    ensures numbers_after { numbers.new ≡ numbers_left numbers.old (described_for file.now k numbers.old) }
{
    match question::judge_numbers(file, k, numbers.len()) {
        Ok(description) => { question_numbers::put_description(numbers, description) as u64 }
        Err(refusal) => refusals::code_of(refusal),
    }
}

// Places point `n` of field `k`: puts its latitude and its longitude at the start of the run and answers 2, or 2^63 + number x 2^32 + place.
pub fn skeptolyr_place(file: &[u8], k: usize, n: usize, position: &mut [i64]) -> u64
    ensures value { result ≡ numbers_code (placed_for file.now k n position.old) }
    ensures position_after { position.new ≡ numbers_left position.old (placed_for file.now k n position.old) }
{
    match question_place::on_degrees(file, k, n, position.len()) {
        Ok(grid) => {
            let lies = section_3_positions::position_of(grid, n as u32);
            question_numbers::put_position(position, lies) as u64
        }
        Err(refusal) => refusals::code_of(refusal),
    }
}

// Places point `n` of field `k` on the sheet: puts how far it lies to the right and down at the start of the run and answers 2, or 2^63 + number x 2^32 + place.
pub fn skeptolyr_sheet(file: &[u8], k: usize, n: usize, place: &mut [i64]) -> u64
    ensures value { result ≡ numbers_code (sheet_for file.now k n place.old) }
    ensures place_after { place.new ≡ numbers_left place.old (sheet_for file.now k n place.old) }
{
    match question_place::on_lambert(file, k, n, place.len()) {
        Ok(grid) => {
            let lies = section_3_lambert::sheet_of(grid, n as u32);
            question_numbers::put_sheet(place, lies) as u64
        }
        Err(refusal) => refusals::code_of(refusal),
    }
}

// Tells the value of point `n` of field `k`: puts it into the run's first element and answers 1, or puts +0 there and answers 0 where the point is missing, or
// answers 2^63 + number x 2^32 + place.
pub fn skeptolyr_point(file: &[u8], k: usize, n: usize, value: &mut [f64]) -> u64
    ensures value { result ≡ point_code (point_into file.now k n (length value.old)) }
    ensures value_after { value.new ≡ point_left value.old (point_into file.now k n (length value.old)) }
{
    match question_point::point_into(file, k, n, value.len()) {
        Ok(Some(double)) => {
            value[0] = double;
            1
        }
        Ok(None) => {
            value[0] = 0.0;
            0
        }
        Err(refusal) => refusals::code_of(refusal),
    }
}

// Draws field `k`: puts its picture at the start of the run and answers how many octets that is, or 2^63 + number x 2^32 + place.
pub fn skeptolyr_picture(file: &[u8], k: usize, picture: &mut [u8]) -> u64
    ensures value { result ≡ picture_code (pictured file.now k (length picture.old)) }
    ensures picture_after { picture.new ≡ run_left file.now k picture.old }
{
    match question_picture::picture(file, k, picture) {
        Ok(length) => length as u64,
        Err(refusal) => refusals::code_of(refusal),
    }
}

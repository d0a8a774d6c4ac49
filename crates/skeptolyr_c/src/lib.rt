// What C links: each function of the crate skeptolyr under its own name, with the same contract. It only calls that function.
#![tactic(auto)]

ghost use Rattle.std.specs.Prelude.{◌≡◌, length};
ghost use Rattle.tiling.specs.Tiling.{check};
ghost use Rattle.question_decode.specs.Decoding.{answer, values_left, presence_left};
ghost use Rattle.question_point.specs.Point.{point_into};
ghost use Rattle.question_picture.specs.Picture.{pictured, run_left};
ghost use Rattle.skeptolyr.specs.Codes.{check_code, decode_code, point_code, point_left, picture_code, numbers_code, numbers_left, described_for, placed_for, sheet_for};

// Checks a file: messages x 2^32 + fields, or 2^63 + number x 2^32 + place.
#[unsafe(no_mangle)]
pub extern "C" fn skeptolyr_check(file: &[u8]) -> u64
    ensures { result ≡ check_code (check file.now) }
{
    skeptolyr::skeptolyr_check(file)
}

// Decodes field `k` into both runs, from `start` on: the point count, or 2^63 + number x 2^32 + place.
#[unsafe(no_mangle)]
pub extern "C" fn skeptolyr_decode(
    file: &[u8],
    k: usize,
    start: usize,
    values: &mut [f64],
    presence: &mut [u8],
) -> u64
    ensures value { result ≡ decode_code (answer file.now k start (length values.old) (length presence.old)) }
    ensures values_after { values.new ≡ values_left file.now k start values.old presence.old }
    ensures presence_after { presence.new ≡ presence_left file.now k start values.old presence.old }
{
    skeptolyr::skeptolyr_decode(file, k, start, values, presence)
}

// Describes field `k`: puts its numbers at the start of the run and answers how many they are, or 2^63 + number x 2^32 + place.
#[unsafe(no_mangle)]
pub extern "C" fn skeptolyr_describe(file: &[u8], k: usize, numbers: &mut [i64]) -> u64
    ensures value { result ≡ numbers_code (described_for file.now k numbers.old) }
    ensures numbers_after { numbers.new ≡ numbers_left numbers.old (described_for file.now k numbers.old) }
{
    skeptolyr::skeptolyr_describe(file, k, numbers)
}

// Places point `n` of field `k`: puts its latitude and its longitude at the start of the run and answers 2, or 2^63 + number x 2^32 + place.
#[unsafe(no_mangle)]
pub extern "C" fn skeptolyr_place(file: &[u8], k: usize, n: usize, position: &mut [i64]) -> u64
    ensures value { result ≡ numbers_code (placed_for file.now k n position.old) }
    ensures position_after { position.new ≡ numbers_left position.old (placed_for file.now k n position.old) }
{
    skeptolyr::skeptolyr_place(file, k, n, position)
}

// Places point `n` of field `k` on the sheet: puts how far it lies to the right and down at the start of the run and answers 2, or 2^63 + number x 2^32 + place.
#[unsafe(no_mangle)]
pub extern "C" fn skeptolyr_sheet(file: &[u8], k: usize, n: usize, place: &mut [i64]) -> u64
    ensures value { result ≡ numbers_code (sheet_for file.now k n place.old) }
    ensures place_after { place.new ≡ numbers_left place.old (sheet_for file.now k n place.old) }
{
    skeptolyr::skeptolyr_sheet(file, k, n, place)
}

// Tells the value of point `n` of field `k`: puts it into the run's first element and answers 1, or puts +0 there and answers 0 where the point is missing, or
// answers 2^63 + number x 2^32 + place.
#[unsafe(no_mangle)]
pub extern "C" fn skeptolyr_point(file: &[u8], k: usize, n: usize, value: &mut [f64]) -> u64
    ensures value { result ≡ point_code (point_into file.now k n (length value.old)) }
    ensures value_after { value.new ≡ point_left value.old (point_into file.now k n (length value.old)) }
{
    skeptolyr::skeptolyr_point(file, k, n, value)
}

// Draws field `k`: puts its picture at the start of the run and answers how many octets that is, or 2^63 + number x 2^32 + place.
#[unsafe(no_mangle)]
pub extern "C" fn skeptolyr_picture(file: &[u8], k: usize, picture: &mut [u8]) -> u64
    ensures value { result ≡ picture_code (pictured file.now k (length picture.old)) }
    ensures picture_after { picture.new ≡ run_left file.now k picture.old }
{
    skeptolyr::skeptolyr_picture(file, k, picture)
}

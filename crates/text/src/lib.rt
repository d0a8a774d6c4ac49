// What is put into a lent run, piece by piece: elements of any type, and text. Each function answers the place behind its piece.
#![tactic(auto)]

ghost use Rattle.std.specs.Prelude.{◌≡◌, ◌+◌, ◌≤◌, length, drop};
ghost use Rattle.laws_rows.specs.Rows.{Puts};
ghost use Rattle.text.specs.Text.{decimal, last_digit};

// Puts the elements into the run from `at` on. Where the compiler knows how many they are, as in all that C links, the copy is a few moves, and no call of the C
// library.
pub fn put<T: Copy>(run: &mut [T], at: usize, elements: &[T]) -> usize
    requires { at + length elements.now ≤ length run.old }
    ensures { Puts run.old at elements.now run.new result }
{
    let end = at + elements.len();
    run[at..end].copy_from_slice(elements);
    end
}

// Puts the decimal digits of `n` at the end of `digits`, and answers where they start.
fn spell(n: u64, digits: &mut [u8; 20]) -> usize
    ensures { (drop result digits.new ≡ decimal n) × (result ≤ 19) }
{
    let mut rest = n;
    for i in (0..20).rev() {
        digits[i] = (48 + rest % 10) as u8;
        rest /= 10;
        if rest == 0 {
            return i;
        }
    }
    0
}

// Puts the decimal digits of `n` into the run from `at` on.
pub fn put_decimal(run: &mut [u8], at: usize, n: u64) -> usize
    requires { at + 20 ≤ length run.old }
    ensures { Puts run.old at (decimal n) run.new result }
{
    let mut digits = [0u8; 20];
    let start = spell(n, &mut digits);
    put(run, at, &digits[start..])
}

// How many decimal digits a number of at most five has.
pub fn digits_in(n: u32) -> usize
    requires { n ≤ 99999 }
    ensures { result ≡ length (decimal n) }
{
    match n {
        0..=9 => 1,
        10..=99 => 2,
        100..=999 => 3,
        1000..=9999 => 4,
        _ => 5,
    }
}

// Puts the last decimal digit of `n` into the run.
fn put_digit(run: &mut [u8], at: usize, n: u32) -> usize
    requires { at + 1 ≤ length run.old }
    ensures { Puts run.old at (last_digit n) run.new result }
{
    run[at] = (48 + n % 10) as u8;
    at + 1
}

// Puts the decimal digits of a number of at most five into the run, each for itself: a loop that copies them would become a call of the C library, which not every
// program has.
pub fn put_short(run: &mut [u8], at: usize, n: u32) -> usize
    requires { (n ≤ 99999) × (at + 5 ≤ length run.old) }
    ensures { Puts run.old at (decimal n) run.new result }
{
    if n < 10 {
        return put_digit(run, at, n);
    }
    if n < 100 {
        let ones = put_digit(run, at, n / 10);
        return put_digit(run, ones, n);
    }
    if n < 1000 {
        let tens = put_digit(run, at, n / 100);
        let ones = put_digit(run, tens, n / 10);
        return put_digit(run, ones, n);
    }
    if n < 10000 {
        let hundreds = put_digit(run, at, n / 1000);
        let tens = put_digit(run, hundreds, n / 100);
        let ones = put_digit(run, tens, n / 10);
        return put_digit(run, ones, n);
    }
    let thousands = put_digit(run, at, n / 10000);
    let hundreds = put_digit(run, thousands, n / 1000);
    let tens = put_digit(run, hundreds, n / 100);
    let ones = put_digit(run, tens, n / 10);
    put_digit(run, ones, n)
}

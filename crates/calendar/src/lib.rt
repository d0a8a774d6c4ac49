// Gregorian times of the years 1900 to 2399: read from octets, moved on by minutes, hours or days, ordered, and written in 14 digits.
#![tactic(auto)]

ghost use Rattle.std.specs.Prelude.{◌≡◌, ◌+◌, ◌-◌, ◌≤◌, ◌<◌, length};
ghost use Rattle.calendar.specs.Calendar.{is_leap, month_length, is_date, DateInRange, Gregorian, time_at, GivesUnit, seconds_in, plus, digits_of, ordered};
ghost use Rattle.calendar.specs.Count.{days_before_year, days_in_months, day_number, RealDate, InYear};

use octets::FilePlace;
use std::cmp::Ordering;

// Dates and times come one after the other in the order of their parts, the year first.
#[derive(Clone, Copy, PartialEq, Eq, PartialOrd, Ord)]
pub struct Date {
    pub year: u32,
    pub month: u32,
    pub day: u32,
}

#[derive(Clone, Copy, PartialEq, Eq, PartialOrd, Ord)]
pub struct Time {
    pub date: Date,
    pub hour: u32,
    pub minute: u32,
    pub second: u32,
}

#[derive(Clone, Copy)]
pub enum Unit {
    Minute,
    Hour,
    Day,
}

#[tactic(auto, unfolding(crate::specs::Calendar::is_leap))]
fn is_leap(year: u32) -> bool
    ensures { result ≡ is_leap year }
{
    if year % 4 != 0 {
        return false;
    }
    if year % 100 != 0 {
        return true;
    }
    year % 400 == 0
}

#[tactic(auto, unfolding(crate::specs::Calendar::month_length))]
fn month_length(year: u32, month: u32) -> u32
    ensures { result ≡ month_length year month }
{
    match month {
        2 => { if is_leap(year) { 29 } else { 28 } }
        4 | 6 | 9 | 11 => 30,
        _ => 31,
    }
}

fn is_date(date: Date) -> bool
    ensures { result ≡ is_date date }
{
    (1900..=2399).contains(&date.year)
        && (1..=12).contains(&date.month)
        && 1 <= date.day
        && date.day <= month_length(date.year, date.month)
}

// The time in the seven octets from `at` on, where they hold one: the year in two of them, then month, day, hour, minute and second.
pub fn time_at(file: &[u8], at: FilePlace) -> Option<Time>
    requires { at.0 + 7 ≤ length file.now }
    ensures { result ≡ time_at file.now at.0 }
{
    let from = at.0;
    let year = octets::number_at(file, at, 2) as u32;
    let month = file[from + 2] as u32;
    let day = file[from + 3] as u32;
    let hour = file[from + 4] as u32;
    let minute = file[from + 5] as u32;
    let second = file[from + 6] as u32;
    let date = Date { year, month, day };
    if !is_date(date) {
        return None;
    }
    if 23 < hour {
        return None;
    }
    if 59 < minute {
        return None;
    }
    if 59 < second {
        return None;
    }
    Some(Time {
        date,
        hour,
        minute,
        second,
    })
}

// How many days lie before a year, counted from the year 0 on, as if the calendar had held since then.
#[tactic(auto, using(crate::proofs::Years::days_before_year_lem))]
fn days_before_year(year: u32) -> u32
    requires { year ≤ 2400 }
    ensures { result ≡ days_before_year year }
{
    year * 365 + (year + 3) / 4 - (year + 99) / 100 + (year + 399) / 400
}

// How many days of a year lie before a month.
#[tactic(auto, using(crate::proofs::Months::counted), unfolding(crate::specs::Count::days_in_months))]
fn days_before_month(year: u32, month: u32) -> u32
    requires { month ≤ 12 }
    ensures { result ≡ days_in_months year (month - 1) }
{
    let mut days: u32 = 0;
    for passed in 1..month {
        days += month_length(year, passed);
    }
    days
}

// How many days lie before a date.
fn day_number(date: Date) -> u64
    requires { DateInRange date }
    ensures { result ≡ day_number date }
{
    let years = days_before_year(date.year);
    let months = days_before_month(date.year, date.month);
    years as u64 + months as u64 + (date.day - 1) as u64
}

// The year of the day that has so many days before it. 876,582 days lie before the year 2400.
#[tactic(auto, using(crate::proofs::Years::years_at_most, crate::proofs::Years::days_before_year_lem))]
fn year_of(number: u32) -> u32
    requires { number < 876582 }
    ensures { InYear number result }
{
    // No year has more than 366 days, so this one begins no later than the day.
    let mut year = number / 366;
    while days_before_year(year + 1) <= number {
        year += 1;
    }
    year
}

// The date that has so many days before it.
#[tactic(auto, using(crate::proofs::Months::counted), unfolding(crate::specs::Count::days_in_months))]
fn date_of(number: u32) -> Date
    requires { number < 876582 }
    ensures { (RealDate result) × (day_number result ≡ number) }
{
    let year = year_of(number);
    let mut rest = number - days_before_year(year);
    for month in 1..12 {
        let length = month_length(year, month);
        if rest < length {
            let day = rest + 1;
            return Date { year, month, day };
        }
        rest -= length;
    }
    Date {
        year,
        month: 12,
        day: rest + 1,
    }
}

// A number that stands for no unit.
#[derive(Clone, Copy)]
pub struct UnknownUnit(pub u8);

impl TryFrom<u8> for Unit {
    type Error = UnknownUnit;

    ghost try_from_gives = { GivesUnit };

    fn try_from(number: u8) -> Result<Self, UnknownUnit> {
        match number {
            0 => Ok(Unit::Minute),
            1 => Ok(Unit::Hour),
            2 => Ok(Unit::Day),
            _ => Err(UnknownUnit(number)),
        }
    }
}

fn seconds_in(unit: Unit) -> u64
    ensures { (result ≡ seconds_in unit) × (result ≤ 86400) }
{
    match unit {
        Unit::Minute => 60,
        Unit::Hour => 3600,
        Unit::Day => 86400,
    }
}

// The time `count` minutes, hours or days after `time`, where it still lies in the years that the calendar has.
pub fn plus(time: Time, count: u32, unit: Unit) -> Option<Time>
    requires { Gregorian time }
    ensures { result ≡ plus time count unit }
{
    let start = time.date;
    let passed = (time.hour * 60 + time.minute) * 60 + time.second;
    let seconds = passed as u64 + count as u64 * seconds_in(unit);
    let number = day_number(start) + seconds / 86400;
    if 876582 <= number {
        return None;
    }
    let hour = (seconds / 3600 % 24) as u32;
    let minute = (seconds / 60 % 60) as u32;
    let second = (seconds % 60) as u32;
    let date = date_of(number as u32);
    Some(Time {
        date,
        hour,
        minute,
        second,
    })
}

// Which of two times comes first: the order of their parts is that of their 14 digits.
pub fn compare(a: Time, b: Time) -> Ordering
    requires { (Gregorian a) × (Gregorian b) }
    ensures { result ≡ ordered a b }
{
    a.cmp(&b)
}

// The 14 digits of a time: four of the year, two each of month, day, hour, minute and second.
pub fn digits(time: Time) -> [u8; 14]
    ensures { result ≡ digits_of time }
{
    let date = time.date;
    let century = date.year / 100;
    [
        (48 + century / 10 % 10) as u8,
        (48 + century % 10) as u8,
        (48 + date.year / 10 % 10) as u8,
        (48 + date.year % 10) as u8,
        (48 + date.month / 10 % 10) as u8,
        (48 + date.month % 10) as u8,
        (48 + date.day / 10 % 10) as u8,
        (48 + date.day % 10) as u8,
        (48 + time.hour / 10 % 10) as u8,
        (48 + time.hour % 10) as u8,
        (48 + time.minute / 10 % 10) as u8,
        (48 + time.minute % 10) as u8,
        (48 + time.second / 10 % 10) as u8,
        (48 + time.second % 10) as u8,
    ]
}

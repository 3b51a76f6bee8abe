//! A time, and what follows it. Nearly all times are of this century, and are read by their digits
//! alone.

ghost use Rattle.std.specs.Prelude.{◌≡◌, ◌+◌, ◌*◌, ◌<◌, ◌≤◌, IfSome, IsTrue, get_or, length, pos};
ghost use Rattle.std.specs.Prelude.{◌&&◌, if◌then◌else◌, nat_lt};
ghost use Rattle.jiff_core.specs.Calendar.{day_count, days_in_month, is_leap_year};
ghost use Rattle.osm_model.specs.CivilTime.{time_text};
ghost use Rattle.osm_model.specs.Limits.{IsPositive};
ghost use Rattle.osm_opl.specs.Steps.Begins.{BeginsWith, HasMarks, IsPair};

use osm_model::time::time_read;

/// The bytes of a time.
pub(crate) const TIME_SIZE: usize = 20;

// The days from 1970-01-01 to 2000-01-01.
const FIRST_DAY: u32 = 10_957;

// The days of a year before each month, if it isn't a leap year.
static DAYS_BEFORE: [u16; 12] = [0, 31, 59, 90, 120, 151, 181, 212, 243, 273, 304, 334];

/// How a time is read that comes first.
pub(crate) trait TimeReader {
    /// The seconds since 1970 of a time, and what follows it.
    fn after<'a>(&mut self, bytes: &'a [u8]) -> Option<(u32, &'a [u8])>
        ensures { IfSome result (λ r. BeginsWith time_text IsPositive r.0 bytes.now r.1.now) };
}

/// Each time is read by its digits.
#[derive(Drop)]
pub(crate) struct EachTime;

impl TimeReader for EachTime {
    #[inline(always)]
    fn after<'a>(&mut self, bytes: &'a [u8]) -> Option<(u32, &'a [u8])> {
        after_time(bytes)
    }
}

/// The seconds since 1970 of a time, and what follows it.
// Inlined, so that seconds that aren't used aren't computed.
#[inline(always)]
pub(crate) fn after_time(bytes: &[u8]) -> Option<(u32, &[u8])>
    ensures { IfSome result (λ r. BeginsWith time_text IsPositive r.0 bytes.now r.1.now) }
{
    match after_recent_time(bytes) {
        Some(found) => Some(found),
        None => after_any_time(bytes),
    }
}

// A time of any year.
fn after_any_time(bytes: &[u8]) -> Option<(u32, &[u8])>
    ensures { IfSome result (λ r. BeginsWith time_text IsPositive r.0 bytes.now r.1.now) }
{
    if bytes.len() < TIME_SIZE {
        return None;
    }
    let time = time_read(&bytes[..TIME_SIZE])?;
    Some((time, &bytes[TIME_SIZE..]))
}

// A time from 2000 to 2099.
#[inline(always)]
fn after_recent_time(bytes: &[u8]) -> Option<(u32, &[u8])>
    ensures { IfSome result (λ r. BeginsWith time_text IsPositive r.0 bytes.now r.1.now) }
{
    if bytes.len() < TIME_SIZE || !has_marks(bytes) {
        return None;
    }
    let year = pair_at(bytes, 2, 0, 99)?;
    let month = pair_at(bytes, 5, 1, 12)?;
    let day = pair_at(bytes, 8, 1, 31)?;
    let hour = pair_at(bytes, 11, 0, 23)?;
    let minute = pair_at(bytes, 14, 0, 59)?;
    let second = pair_at(bytes, 17, 0, 59)?;
    if day > days_in_month(year, month) {
        return None;
    }
    let days = days_before(year, month, day);
    let time = 86400 * days + second_of_day(hour, minute, second);
    Some((time, &bytes[TIME_SIZE..]))
}

// The days from 1970-01-01 to a date from 2000 to 2099. Its year is counted from 2000.
#[inline(always)]
fn days_before(year: u8, month: u8, day: u8) -> u32
    requires { (year < 100) × (1 ≤ month) × (month ≤ 12) × (1 ≤ day) × (day ≤ 31) }
    ensures count { result + 4_371_953 ≡ day_count (pos (2000 + year)) month day }
    ensures limit { result < 49_000 }
{
    let years = 365 * year as u32 + (year as u32 + 3) / 4;
    let months = DAYS_BEFORE[month as usize - 1] as u32 + leap_day(year, month);
    FIRST_DAY + years + months + (day as u32 - 1)
}

// How many leap days the year has before the month.
#[inline(always)]
fn leap_day(year: u8, month: u8) -> u32
    requires { year < 100 }
    ensures days { result
        ≡ (if nat_lt 2 month && is_leap_year (pos (2000 + year)) then 1 else 0) }
    ensures limit { result ≤ 1 }
{
    if month > 2 && year % 4 == 0 { 1 } else { 0 }
}

#[inline(always)]
fn second_of_day(hour: u8, minute: u8, second: u8) -> u32
    requires { (hour < 24) × (minute < 60) × (second < 60) }
    ensures seconds { result ≡ hour * 3600 + minute * 60 + second }
    ensures limit { result < 86400 }
{
    hour as u32 * 3600 + minute as u32 * 60 + second as u32
}

// All but the pairs of digits is as in `20YY-MM-DDTHH:MM:SSZ`.
#[inline(always)]
fn has_marks(bytes: &[u8]) -> bool
    requires { 20 ≤ length bytes.now }
    ensures { IsTrue result → HasMarks bytes.now }
{
    bytes[0] == b'2'
        && bytes[1] == b'0'
        && bytes[4] == b'-'
        && bytes[7] == b'-'
        && bytes[10] == b'T'
        && bytes[13] == b':'
        && bytes[16] == b':'
        && bytes[19] == b'Z'
}

// The number that the two digits at a place spell, if it is from the least to the most.
#[inline(always)]
fn pair_at(bytes: &[u8], place: usize, least: u8, most: u8) -> Option<u8>
    requires { place + 1 < length bytes.now }
    ensures pair { IfSome result
        (IsPair (get_or bytes.now place 0) (get_or bytes.now (place + 1) 0)) }
    ensures within { IfSome result (λ n. (least ≤ n) × (n ≤ most)) }
{
    let tens = bytes[place];
    if !tens.is_ascii_digit() {
        return None;
    }
    let ones = bytes[place + 1];
    if !ones.is_ascii_digit() {
        return None;
    }
    let number = 10 * (tens - b'0') + (ones - b'0');
    if number < least || number > most {
        return None;
    }
    Some(number)
}

// The days of a month in a year from 2000 to 2099: every fourth of them is a leap year.
#[inline(always)]
fn days_in_month(year: u8, month: u8) -> u8
    requires { year < 100 }
    ensures { result ≤ days_in_month (pos (2000 + year)) month }
{
    match month {
        2 if year % 4 == 0 => 29,
        2 => 28,
        4 | 6 | 9 | 11 => 30,
        _ => 31,
    }
}

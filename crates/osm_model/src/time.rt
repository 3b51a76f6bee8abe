//! Times as texts of 20 bytes, such as `2024-01-01T00:00:00Z`. A text is read by taking its digits
//! as they are, writing the time that they give, and comparing the two texts.

ghost use Rattle.std.specs.Prelude.{◌≡◌, ℕ, List, ◌+◌, ◌-◌, ◌*◌, ◌/◌, ◌%◌, ◌<◌, ◌≤◌, ◌^◌, ◌↔◌};
ghost use Rattle.std.specs.Prelude.{Some, IsTrue, IsNone, IfSome, min, pos, codes, ◌+ℤ◌, ◌*ℤ◌};
ghost use Rattle.std.specs.Prelude.{◌≤ℤ◌};
ghost use Rattle.jiff_core.specs.Calendar.{IsCivilDate};
ghost use Rattle.jiff_core.specs.Date.{epoch_day};
ghost use Rattle.osm_model.specs.CivilTime.{time_text};
ghost use Rattle.osm_model.specs.Clock.{moment_of, HasDigits, loose_moment};
ghost use Rattle.osm_model.specs.Limits.{IsPositive};
ghost use Rattle.osm_model.specs.Time.{Moment, IsMoment, Shows, TimeText, moment_text, seconds_of};
ghost use Rattle.osm_model.specs.Time.{two_digits};

use jiff::civil::Date;

#[derive(Clone, Copy, Debug, PartialEq, Eq)]
struct Clock {
    year: u16,
    month: u8,
    day: u8,
    hour: u8,
    minute: u8,
    second: u8,
}

/// Reads a time as seconds since 1970-01-01T00:00:00Z; none unless the text is a real time. The
/// text has the shape `YYYY-MM-DDTHH:MM:SSZ` (ISO 8601; no leap second). Times run from
/// 1970-01-01T00:00:01Z to 2106-02-07T06:28:15Z.
pub fn time_read(bytes: &[u8]) -> Option<u32>
    ensures sound { IfSome result (λ t. TimeText bytes.now t) }
    ensures complete { (t : ℕ) → TimeText bytes.now t → result ≡ Some t }
{
    let text: &[u8; 20] = bytes.try_into().ok()?;
    read_form(text)
}

/// Writes a time, in seconds since 1970-01-01T00:00:00Z, as a text `YYYY-MM-DDTHH:MM:SSZ`.
pub fn time_write(seconds: u32) -> [u8; 20]
    ensures value { result ≡ time_text seconds }
    ensures shows { Shows result seconds }
    ensures text { 1 ≤ seconds → TimeText result seconds }
    ensures only { (bytes : List ℕ) → Shows bytes seconds → bytes ≡ result }
{
    text_at(seconds)
}

fn read_form(text: &[u8; 20]) -> Option<u32>
    ensures sound { IfSome result (λ t. TimeText text.now t) }
    ensures complete { (t : ℕ) → TimeText text.now t → result ≡ Some t }
{
    let clock = loose_clock(text);
    if !is_text_of(text, clock) {
        return None;
    }
    let seconds = seconds_since(clock)?;
    within_limits(seconds)
}

fn digit(byte: u8) -> u8
    ensures { result ≡ min (byte - 48) 9 }
{
    byte.saturating_sub(b'0').min(9)
}

fn pair(tens: u8, ones: u8) -> u8
    ensures value { result ≡ 10 * min (tens - 48) 9 + min (ones - 48) 9 }
    ensures bound { result < 100 }
{
    10 * digit(tens) + digit(ones)
}

// The digits, or whatever is in their positions.
fn loose_clock(text: &[u8; 20]) -> Clock
    ensures value { moment_of result ≡ loose_moment text.now }
    ensures digits { HasDigits (moment_of result) }
{
    Clock {
        year: 100 * pair(text[0], text[1]) as u16 + pair(text[2], text[3]) as u16,
        month: pair(text[5], text[6]),
        day: pair(text[8], text[9]),
        hour: pair(text[11], text[12]),
        minute: pair(text[14], text[15]),
        second: pair(text[17], text[18]),
    }
}

// The two digits of each number below 100, one number after the other.
static PAIRS: [u8; 200] = *b"\
    0001020304050607080910111213141516171819\
    2021222324252627282930313233343536373839\
    4041424344454647484950515253545556575859\
    6061626364656667686970717273747576777879\
    8081828384858687888990919293949596979899";

// The two digits of a number.
#[inline(always)]
fn digits_of(number: u8) -> [u8; 2]
    requires { number < 100 }
    ensures { result ≡ two_digits number }
{
    let place = 2 * number as usize;
    [PAIRS[place], PAIRS[place + 1]]
}

// The digits are taken from a table, two at a time.
#[inline(always)]
fn text_of(clock: Clock) -> [u8; 20]
    requires { HasDigits (moment_of clock) }
    ensures { result ≡ moment_text (moment_of clock) }
{
    let century = digits_of((clock.year / 100) as u8);
    let year = digits_of((clock.year % 100) as u8);
    let month = digits_of(clock.month);
    let day = digits_of(clock.day);
    let hour = digits_of(clock.hour);
    let minute = digits_of(clock.minute);
    let second = digits_of(clock.second);
    [
        century[0], century[1], year[0], year[1], b'-', month[0], month[1], b'-', day[0], day[1],
        b'T', hour[0], hour[1], b':', minute[0], minute[1], b':', second[0], second[1], b'Z',
    ]
}

fn is_text_of(text: &[u8; 20], clock: Clock) -> bool
    requires { HasDigits (moment_of clock) }
    ensures { IsTrue result ↔ (text.now ≡ moment_text (moment_of clock)) }
{
    text_of(clock) == *text
}

fn within_limits(seconds: i64) -> Option<u32>
    ensures some { IfSome result (λ t. (seconds ≡ pos t) × IsPositive t) }
    ensures none { (t : ℕ) → seconds ≡ pos t → IsPositive t → result ≡ Some t }
{
    if 0 < seconds && seconds <= u32::MAX as i64 {
        Some(seconds as u32)
    } else {
        None
    }
}

// The seconds since 1970, if the calendar and the clock have this moment.
#[tactic(auto, unfolding(crate::specs::Time::seconds_of))]
fn seconds_since(clock: Clock) -> Option<i64>
    requires { HasDigits (moment_of clock) }
    ensures some { IfSome result (λ t.
        (t ≡ seconds_of (moment_of clock)) × IsMoment (moment_of clock)) }
    ensures none { IsNone result → ¬ IsMoment (moment_of clock) }
{
    if clock.hour >= 24 || clock.minute >= 60 || clock.second >= 60 {
        return None;
    }
    let date = Date::new(clock.year as i16, clock.month as i8, clock.day as i8).ok()?;
    Some(total(
        date.to_plain().to_unix_epoch_day(),
        clock.hour,
        clock.minute,
        clock.second,
    ))
}

fn total(day: i32, hour: u8, minute: u8, second: u8) -> i64
    requires { (hour < 24) × (minute < 60) × (second < 60) }
    ensures { result ≡ day *ℤ pos 86400 +ℤ pos (hour * 3600 + minute * 60 + second) }
{
    let second_of_day = hour as u32 * 3600 + minute as u32 * 60 + second as u32;
    day as i64 * 86400 + second_of_day as i64
}

fn text_at(seconds: u32) -> [u8; 20]
    ensures { Shows result seconds }
{
    let clock = clock_at(date_of(seconds / 86400), seconds % 86400);
    text_of(clock)
}

// The date with that day number.
fn date_of(day: u32) -> Date
    requires { day < 49711 }
    ensures day { epoch_day result ≡ pos day }
    ensures date { IsCivilDate result.year result.month result.day }
    ensures year { pos 1970 ≤ℤ result.year }
{
    let plain = jiff_core::civil::Date::from_unix_epoch_day(day as i64).unwrap();
    Date::from_plain(plain)
}

// The moment so many seconds after the date's midnight.
fn clock_at(date: Date, second_of_day: u32) -> Clock
    requires within { second_of_day < 86400 }
    requires date { IsCivilDate date.year date.month date.day }
    requires year { pos 1970 ≤ℤ date.year }
    ensures moment { IsMoment (moment_of result) }
    ensures seconds { seconds_of (moment_of result)
        ≡ epoch_day date *ℤ pos 86400 +ℤ pos second_of_day }
{
    Clock {
        year: date.year() as u16,
        month: date.month() as u8,
        day: date.day() as u8,
        hour: (second_of_day / 3600) as u8,
        minute: (second_of_day / 60 % 60) as u8,
        second: (second_of_day % 60) as u8,
    }
}

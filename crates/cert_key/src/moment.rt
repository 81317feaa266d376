//! Times of certificates (RFC 5280, section 4.1.2.5).
ghost use Rattle.std.specs.Prelude.{◌≡◌, ◌+◌, ◌*◌, ◌≤◌, ◌<◌, IfSome, pos, true};
ghost use Rattle.jiff_core.specs.Calendar.{days_from_civil};
ghost use Rattle.jiff_core.specs.Date.{epoch_day};
ghost use Rattle.cert_key.specs.Inside.Reading.{IsReadAs, view};
ghost use Rattle.cert_key.specs.Inside.Times.{generalized_at, is_decimal, is_z, moment_at};
ghost use Rattle.cert_key.specs.Inside.Times.{moment_view};
ghost use Rattle.cert_key.specs.Inside.Times.{IsDay, IsTimeOfDay};
ghost use Rattle.cert_key.specs.Inside.Times.{seconds_at, time_at, times_at, two_digits_at};
ghost use Rattle.cert_key.specs.Inside.Times.{utc_at, year_of_two};
ghost use Rattle.cert_key.specs.Moment.{is_real, unix_seconds};

use crate::der::{Element, first_element};
use jiff_core::civil::{Date, days_in_month};

/// The tag of a UTCTime, which has two digits of a year.
const UTC_TIME: u8 = 23;

/// The tag of a GeneralizedTime, which has four.
const GENERALIZED_TIME: u8 = 24;

/// What a calendar and a clock show, or could not.
#[derive(Clone, Copy, Debug)]
pub(crate) struct Clock {
    pub(crate) year: u16,
    pub(crate) month: u8,
    pub(crate) day: u8,
    pub(crate) hour: u8,
    pub(crate) minute: u8,
    pub(crate) second: u8,
}

/// The two times of a validity and nothing else, in seconds since the Unix epoch.
#[tactic(auto, unfolding(crate::specs::Inside::Times::times_at))]
pub(crate) fn times_at(bytes: &[u8]) -> Option<(i64, i64)>
    ensures { IsReadAs (λ t. t) result (times_at bytes.now) }
{
    let first = first_element(bytes)?;
    let not_before = time_at(&first)?;
    let second = first_element(first.after)?;
    let not_after = time_at(&second)?;
    if !second.after.is_empty() {
        return None;
    }
    Some((not_before, not_after))
}

#[tactic(auto, unfolding(crate::specs::Inside::Times::time_at))]
fn time_at(element: &Element<'_>) -> Option<i64>
    ensures { IsReadAs (λ t. t) result (time_at (view element.now)) }
{
    if element.tag == UTC_TIME {
        return utc_at(element.content);
    }
    if element.tag == GENERALIZED_TIME {
        return generalized_at(element.content);
    }
    None
}

#[tactic(auto, unfolding(crate::specs::Inside::Times::utc_at))]
fn utc_at(bytes: &[u8]) -> Option<i64>
    ensures { IsReadAs (λ t. t) result (utc_at bytes.now) }
{
    let (year, rest) = two_digits_at(bytes)?;
    moment_at(year_of_two(year), rest)
}

// Two digits say a year from 1950 to 2049.
fn year_of_two(digits: u8) -> u16
    requires { digits < 100 }
    ensures value { result ≡ year_of_two digits }
    ensures within { result ≤ 9999 }
{
    if digits < 50 {
        2000 + u16::from(digits)
    } else {
        1900 + u16::from(digits)
    }
}

#[tactic(auto, unfolding(crate::specs::Inside::Times::generalized_at))]
fn generalized_at(bytes: &[u8]) -> Option<i64>
    ensures { IsReadAs (λ t. t) result (generalized_at bytes.now) }
{
    let (hundreds, rest) = two_digits_at(bytes)?;
    let (years, rest) = two_digits_at(rest)?;
    moment_at(u16::from(hundreds) * 100 + u16::from(years), rest)
}

// What is after the year: month, day, hour, minute and second, and a Z.
#[tactic(auto, unfolding(crate::specs::Inside::Times::moment_at))]
fn moment_at(year: u16, bytes: &[u8]) -> Option<i64>
    requires { year ≤ 9999 }
    ensures { IsReadAs (λ t. t) result (moment_at year bytes.now) }
{
    let (month, rest) = two_digits_at(bytes)?;
    let (day, rest) = two_digits_at(rest)?;
    let (hour, rest) = two_digits_at(rest)?;
    let (minute, rest) = two_digits_at(rest)?;
    let (second, rest) = two_digits_at(rest)?;
    if !is_z(rest) {
        return None;
    }
    seconds_at(Clock {
        year,
        month,
        day,
        hour,
        minute,
        second,
    })
}

#[tactic(auto, unfolding(crate::specs::Inside::Times::is_z))]
fn is_z(bytes: &[u8]) -> bool
    ensures { result ≡ is_z bytes.now }
{
    match bytes {
        [last] => *last == b'Z',
        _ => false,
    }
}

#[tactic(auto, unfolding(crate::specs::Inside::Times::two_digits_at))]
fn two_digits_at(bytes: &[u8]) -> Option<(u8, &[u8])>
    ensures read { IsReadAs (λ n. (n.0, n.1.now)) result (two_digits_at bytes.now) }
    ensures below { IfSome result (λ n. n.0 < 100) }
{
    let [tens, ones, rest @ ..] = bytes else {
        return None;
    };
    if !is_decimal(*tens) || !is_decimal(*ones) {
        return None;
    }
    Some(((*tens - b'0') * 10 + (*ones - b'0'), rest))
}

fn is_decimal(byte: u8) -> bool
    ensures { result ≡ is_decimal byte }
{
    byte >= b'0' && byte <= b'9'
}

#[tactic(auto, unfolding(crate::specs::Inside::Times::seconds_at))]
fn seconds_at(clock: Clock) -> Option<i64>
    requires { clock.year ≤ 9999 }
    ensures { IsReadAs (λ t. t) result (seconds_at (moment_view clock)) }
{
    if !is_real(clock) {
        return None;
    }
    Some(unix_seconds(clock))
}

#[tactic(auto, unfolding(crate::specs::Moment::is_real))]
fn is_real(clock: Clock) -> bool
    requires { clock.year ≤ 9999 }
    ensures value { result ≡ is_real (moment_view clock) }
    ensures day { result ≡ true → IsDay (moment_view clock) }
    ensures time { result ≡ true → IsTimeOfDay (moment_view clock) }
{
    clock.month >= 1
        && clock.month <= 12
        && clock.day >= 1
        && clock.day <= days_in_month(clock.year as i16, clock.month)
        && clock.hour < 24
        && clock.minute < 60
        && clock.second < 60
}

#[tactic(auto, unfolding(crate::specs::Moment::unix_seconds))]
fn unix_seconds(clock: Clock) -> i64
    requires year { clock.year ≤ 9999 }
    requires day { IsDay (moment_view clock) }
    requires time { IsTimeOfDay (moment_view clock) }
    ensures { result ≡ unix_seconds (moment_view clock) }
{
    let day = date_of(clock).to_unix_epoch_day();
    i64::from(day) * 86_400 + i64::from(seconds_of_day(clock))
}

fn date_of(clock: Clock) -> Date
    requires year { clock.year ≤ 9999 }
    requires day { IsDay (moment_view clock) }
    ensures { epoch_day result ≡ days_from_civil (pos clock.year) clock.month clock.day }
{
    Date {
        year: clock.year as i16,
        month: clock.month,
        day: clock.day,
    }
}

fn seconds_of_day(clock: Clock) -> u32
    requires { IsTimeOfDay (moment_view clock) }
    ensures value { result ≡ clock.hour * 3600 + clock.minute * 60 + clock.second }
    ensures below { result < 86_400 }
{
    u32::from(clock.hour) * 3600 + u32::from(clock.minute) * 60 + u32::from(clock.second)
}

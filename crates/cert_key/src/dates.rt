//! Times as texts (RFC 3339).
ghost use Rattle.std.specs.Prelude.{◌≡◌, ◌++◌, ◌<◌, IfOk, OnOk, MatchOption};
ghost use Rattle.std.specs.Prelude.{◌≤ℤ◌, pos, string_bytes};
ghost use Rattle.std.specs.Fmt.{signed_decimal};
ghost use Rattle.std.specs.Int.{int_div_euclid};
ghost use Rattle.jiff_core.specs.Date.{epoch_day};
ghost use Rattle.cert_key.specs.Inside.Times.{IsShown, moment_on, moment_view};
ghost use Rattle.cert_key.specs.Moment.{IsMomentOf, Moment, clock_text, date_text, digits};
ghost use Rattle.cert_key.specs.Moment.{moment_text};

use crate::moment::Clock;
use itoa::Buffer;
use jiff_core::civil::Date;
use std::alloc::{AllocError, Global};

/// How many seconds a day has.
const SECONDS_OF_DAY: i64 = 86_400;

/// A time in seconds since the Unix epoch as a date and a time in UTC, `YYYY-MM-DDTHH:MM:SSZ` (RFC
/// 3339), if its year is from 0 to 9999, as that of a certificate is. Other times are in seconds,
/// in decimal.
///
/// # Errors
/// Memory ran out.
pub fn moment_text(alloc: Global, seconds: i64) -> Result<String, AllocError>
    ensures date { (m : Moment) → IsMomentOf seconds m
        → IfOk result (λ text. string_bytes text ≡ moment_text m) }
    ensures other { ((m : Moment) → IsMomentOf seconds m → ⊥)
        → IfOk result (λ text. string_bytes text ≡ signed_decimal seconds) }
{
    match moment_of(seconds) {
        Some(clock) => clock_moment(alloc, clock),
        None => seconds_text(alloc, seconds),
    }
}

fn seconds_text(alloc: Global, seconds: i64) -> Result<String, AllocError>
    ensures { IfOk result (λ text. string_bytes text ≡ signed_decimal seconds) }
{
    let mut buffer = Buffer::new();
    String::from_str(alloc, buffer.format(seconds))
}

fn moment_of(seconds: i64) -> Option<Clock>
    ensures { MatchOption result ((m : Moment) → IsMomentOf seconds m → ⊥)
        (λ clock. IsMomentOf seconds (moment_view clock)) }
{
    match Date::from_unix_epoch_day(seconds.div_euclid(SECONDS_OF_DAY)) {
        Ok(date) => moment_on(seconds, date),
        Err(_) => None,
    }
}

// The date and time, if this is the date.
fn moment_on(seconds: i64, date: Date) -> Option<Clock>
    requires { epoch_day date ≡ int_div_euclid seconds (pos 86_400) }
    ensures { MatchOption result ((m : Moment) → IsMomentOf seconds m → ⊥)
        (λ clock. IsMomentOf seconds (moment_view clock)) }
{
    if date.year < 0 {
        return None;
    }
    Some(clock_of(date, seconds.rem_euclid(SECONDS_OF_DAY) as u32))
}

fn clock_of(date: Date, second: u32) -> Clock
    requires year { pos 0 ≤ℤ date.year }
    requires second { second < 86_400 }
    ensures { moment_view result ≡ moment_on date second }
{
    Clock {
        year: date.year as u16,
        month: date.month,
        day: date.day,
        hour: (second / 3600) as u8,
        minute: (second / 60 % 60) as u8,
        second: (second % 60) as u8,
    }
}

#[tactic(auto, unfolding(crate::specs::Moment::moment_text))]
fn clock_moment(alloc: Global, clock: Clock) -> Result<String, AllocError>
    requires { IsShown (moment_view clock) }
    ensures { IfOk result (λ text. string_bytes text ≡ moment_text (moment_view clock)) }
{
    let mut text = String::new(alloc);
    push_date(&mut text, clock)?;
    text.push('T')?;
    push_clock(&mut text, clock)?;
    text.push('Z')?;
    Ok(text)
}

fn push_date(text: &mut String, clock: Clock) -> Result<(), AllocError>
    requires { IsShown (moment_view clock) }
    ensures { OnOk result (string_bytes text.new
        ≡ string_bytes text.old ++ date_text (moment_view clock)) }
{
    push_two(text, (clock.year / 100) as u8)?;
    push_two(text, (clock.year % 100) as u8)?;
    text.push_str("-")?;
    push_two(text, clock.month)?;
    text.push_str("-")?;
    push_two(text, clock.day)
}

fn push_clock(text: &mut String, clock: Clock) -> Result<(), AllocError>
    requires { IsShown (moment_view clock) }
    ensures { OnOk result (string_bytes text.new
        ≡ string_bytes text.old ++ clock_text (moment_view clock)) }
{
    push_two(text, clock.hour)?;
    text.push_str(":")?;
    push_two(text, clock.minute)?;
    text.push_str(":")?;
    push_two(text, clock.second)
}

// A number in two digits.
fn push_two(text: &mut String, number: u8) -> Result<(), AllocError>
    requires { number < 100 }
    ensures { OnOk result (string_bytes text.new ≡ string_bytes text.old ++ digits number) }
{
    text.push(char::from(b'0' + number / 10))?;
    text.push(char::from(b'0' + number % 10))
}

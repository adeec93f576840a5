//! Reads days and times as people write them, also with a time zone.

ghost use Rattle.std.specs.Prelude.{◌≡◌, ◌<◌, ◌+◌, IfOk, IfSome, Some, true, string_bytes};
ghost use Rattle.qrcode_payloads.specs.Times.{day_numbered, exact_value, day_said, clock_number, moment_at, local_said, day_after, day_before, clock_minutes, with_minutes, earlier, later, zone_minutes, minute_count, day_count, from_zone, is_utc, zoned, moment_said, is_local, plain_day, has_colons, plain_clock, plain_time};
ghost use Rattle.qrcode_contents.specs.Times.{is_moment};

use crate::numbers::decimal;
use crate::plain::{Cleaning, plain};
use qrcode_contents::fields::characters::{are_digits, matches_form, parts};
use qrcode_contents::times::{Day, Moment, days_in};
use std::alloc::{AllocError, Global};

// The day of a number such as 19970714.
fn day_numbered(number: u64) -> Day
    ensures { result ≡ day_numbered number }
{
    Day {
        year: (number / 10_000 % 10_000) as u16,
        month: (number / 100 % 100) as u8,
        day: (number % 100) as u8,
    }
}

// Reads a number of `count` digits. Returns `None` for any other text.
fn number_of(count: usize, text: &str) -> Option<u64>
    ensures value { result ≡ exact_value count text.now }
{
    if text.len() != count || !are_digits(text.as_bytes()) {
        return None;
    }
    decimal(text, 0)
}

/// Reads a day of eight digits, e.g. 19970714, which need not exist. Returns `None` for any other
/// text.
pub(crate) fn day_said(text: &str) -> Option<Day>
    ensures value { result ≡ day_said text.now }
{
    Some(day_numbered(number_of(8, text)?))
}

// Reads a time of day as a number: six digits, or four without seconds (`1700` gives 170000).
fn clock_number(text: &str) -> Option<u64>
    ensures value { result ≡ clock_number text.now }
{
    if text.len() == 4 {
        return Some(number_of(4, text)?.saturating_mul(100));
    }
    number_of(6, text)
}

// The moment on `day` at the time with this number, e.g. 170000.
fn moment_at(day: Day, number: u64) -> Moment
    ensures { result ≡ moment_at day number }
{
    Moment {
        day,
        hour: (number / 10_000 % 100) as u8,
        minute: (number / 100 % 100) as u8,
        second: (number % 100) as u8,
    }
}

// The next day.
fn day_after(day: Day) -> Day
    requires { day.year < 10_000 }
    ensures value { result ≡ day_after day }
{
    let (year, month, day) = if day.day < days_in(day.year, day.month) {
        (day.year, day.month, day.day + 1)
    } else if day.month < 12 {
        (day.year, day.month + 1, 1)
    } else {
        (day.year + 1, 1, 1)
    };
    Day { year, month, day }
}

// The day before; `None` before the year 0.
fn day_before(day: Day) -> Option<Day>
    ensures value { result ≡ day_before day }
{
    let (year, month, day) = if day.day > 1 {
        (day.year, day.month, day.day - 1)
    } else if day.month > 1 {
        (day.year, day.month - 1, days_in(day.year, day.month - 1))
    } else if day.year > 0 {
        (day.year - 1, 12, 31)
    } else {
        return None;
    };
    Some(Day { year, month, day })
}

// The minutes since midnight.
fn clock_minutes(moment: Moment) -> u16
    ensures { result ≡ clock_minutes moment }
{
    u16::from(moment.hour) * 60 + u16::from(moment.minute)
}

// The moment with another day and other minutes since midnight; the second stays.
fn with_minutes(moment: Moment, day: Day, minutes: u16) -> Moment
    ensures { result ≡ with_minutes moment day minutes }
{
    let hour = (minutes / 60 % 24) as u8;
    let minute = (minutes % 60) as u8;
    let second = moment.second;
    Moment {
        day,
        hour,
        minute,
        second,
    }
}

// The moment `minutes` earlier; `None` before the year 0.
fn earlier(minutes: u16, moment: Moment) -> Option<Moment>
    requires valid { is_moment moment ≡ true }
    requires at_most { minutes < 1440 }
    ensures value { result ≡ earlier minutes moment }
    ensures minutes { IfSome result (λ utc. minute_count utc + minutes ≡ minute_count moment) }
{
    let clock = clock_minutes(moment);
    if minutes <= clock {
        return Some(with_minutes(moment, moment.day, clock - minutes));
    }
    let day = day_before(moment.day)?;
    Some(with_minutes(moment, day, clock + 1440 - minutes))
}

// The moment `minutes` later.
fn later(minutes: u16, moment: Moment) -> Moment
    requires valid { is_moment moment ≡ true }
    requires at_most { minutes < 1440 }
    ensures value { result ≡ later minutes moment }
    ensures minutes { minute_count result ≡ minute_count moment + minutes }
{
    let clock = clock_minutes(moment) + minutes;
    if clock < 1440 {
        return with_minutes(moment, moment.day, clock);
    }
    with_minutes(moment, day_after(moment.day), clock - 1440)
}

// Reads the offset of a zone from UTC, in minutes: two digits of hours, and two of minutes.
#[tactic(auto, unfolding(crate::specs::Times::zone_minutes))]
fn zone_minutes(text: &str) -> Option<u16>
    ensures value { result ≡ zone_minutes text.now }
    ensures at_most { IfSome result (λ minutes. minutes < 1440) }
{
    let number = number_of(4, text)?;
    let (hours, minutes) = (number / 100, number % 100);
    if hours < 24 && minutes < 60 {
        return Some((hours * 60 + minutes) as u16);
    }
    None
}

// Reads a day and a time, in whatever zone they are.
#[tactic(auto, unfolding(crate::specs::Times::local_said))]
fn local_said(day: &str, clock: &str) -> Option<Moment>
    ensures value { result ≡ local_said day.now clock.now }
{
    let day = day_said(day)?;
    let number = clock_number(clock)?;
    Some(moment_at(day, number))
}

// Converts a moment of a zone `ahead` of UTC, or else behind it, to UTC. One that does not exist
// stays as it is. `None` if `zone` is no offset, or before the year 0.
#[tactic(auto, unfolding(crate::specs::Times::from_zone))]
fn from_zone(ahead: bool, zone: &str, local: Moment) -> Option<Moment>
    ensures value { result ≡ from_zone ahead (zone_minutes zone.now) local }
{
    let minutes = zone_minutes(zone)?;
    if !local.is_valid() {
        Some(local)
    } else if ahead {
        earlier(minutes, local)
    } else {
        Some(later(minutes, local))
    }
}

// Whether a time has exactly one Z, at its end.
fn is_utc(time: &str) -> bool
    ensures { result ≡ is_utc time.now }
{
    time.ends_with('Z') && parts(time, 'Z').1.is_empty()
}

// Reads a day, and a time with a zone such as `+0200`, in UTC.
#[tactic(auto, unfolding(crate::specs::Times::zoned))]
fn zoned(day: &str, time: &str) -> Option<Moment>
    ensures value { result ≡ zoned day.now time.now }
{
    let (clock, zone) = parts(time, '+');
    if zone.is_empty() {
        let (clock, zone) = parts(time, '-');
        return from_zone(false, zone, local_said(day, clock)?);
    }
    from_zone(true, zone, local_said(day, clock)?)
}

/// Reads a day, a T, a time, and a Z or a zone, in UTC: e.g. 19970714T170000Z, 19970714T1700Z or
/// 19970714T1900+0200. Returns `None` for any other text.
#[tactic(auto, unfolding(crate::specs::Times::moment_of))]
pub(crate) fn moment_said(text: &str) -> Option<Moment>
    ensures value { result ≡ moment_said text.now }
{
    let (day, time) = parts(text, 'T');
    if is_utc(time) {
        return local_said(day, parts(time, 'Z').0);
    }
    zoned(day, time)
}

/// Returns whether `text` is a day and a time without a zone, e.g. 19970714T170000.
pub(crate) fn is_local(text: &str) -> bool
    ensures value { result ≡ is_local text.now }
{
    let (day, time) = parts(text, 'T');
    local_said(day, time).is_some()
}

/// Returns a day such as 1997-07-14 without its hyphens; any other text unchanged.
#[tactic(auto, unfolding(crate::specs::Times::plain_day))]
pub(crate) fn plain_day(alloc: Global, text: &str) -> Result<String, AllocError>
    ensures { IfOk result (λ value. string_bytes value ≡ plain_day text.now) }
{
    if matches_form(b"dddd-dd-dd", text.as_bytes()) {
        return plain(alloc, text, Cleaning::Digits);
    }
    String::from_str(alloc, text)
}

// Whether a time, perhaps with Z or a zone, has colons where ISO 8601 has them; the zone may lack
// its colon.
#[tactic(auto, unfolding(crate::specs::Times::has_colons))]
fn has_colons(time: &[u8]) -> bool
    ensures { result ≡ has_colons time.now }
{
    matches_form(b"dd:dd", time)
        || matches_form(b"dd:dd:dd", time)
        || matches_form(b"dd:ddZ", time)
        || matches_form(b"dd:dd:ddZ", time)
        || matches_form(b"dd:ddsdd:dd", time)
        || matches_form(b"dd:dd:ddsdd:dd", time)
        || matches_form(b"dd:ddsdddd", time)
        || matches_form(b"dd:dd:ddsdddd", time)
}

// Returns such a time without its colons; any other text unchanged.
#[tactic(auto, unfolding(crate::specs::Times::plain_clock))]
fn plain_clock(alloc: Global, time: &str) -> Result<String, AllocError>
    ensures { IfOk result (λ value. string_bytes value ≡ plain_clock time.now) }
{
    if has_colons(time.as_bytes()) {
        return plain(alloc, time, Cleaning::Clock);
    }
    String::from_str(alloc, time)
}

/// Returns a day, or a day and a time, without the hyphens and colons of ISO 8601; a space becomes
/// a T.
#[tactic(auto, unfolding(crate::specs::Times::plain_time))]
pub(crate) fn plain_time(alloc: Global, text: &str) -> Result<String, AllocError>
    ensures { IfOk result (λ value. string_bytes value ≡ plain_time text.now) }
{
    let written = plain(alloc, text, Cleaning::Time)?;
    let (day, time) = parts(written.as_str(), 'T');
    if time.is_empty() {
        return plain_day(alloc, written.as_str());
    }
    let clock = plain_clock(alloc, time)?;
    let mut value = plain_day(alloc, day)?;
    value.push_str("T")?;
    value.push_str(clock.as_str())?;
    Ok(value)
}

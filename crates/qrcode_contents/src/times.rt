//! Days, and times in UTC.

ghost use Rattle.std.specs.Prelude.{◌≡◌, ◌++◌, ◌≤◌, string_bytes, OnOk, IfOk, IsOkUnless};
ghost use Rattle.qrcode_contents.specs.declared.fields.errors.ContentError.TheVariants.{OutOfMemory};
ghost use Rattle.qrcode_contents.specs.Times.{is_leap, days_in, is_day, wrong_day, is_moment, day_number, moment_number, pair_text, pairs_text, day_text, date_text, said_or_none, moment_text};

use crate::fields::errors::ContentResult;
use std::alloc::Global;
use std::fmt::Write;

/// A day of the Gregorian calendar.
#[derive(Copy, Clone, PartialEq, Eq, Debug)]
pub struct Day {
    /// The year, up to 9999.
    pub year: u16,
    /// The month, 1 to 12.
    pub month: u8,
    /// The day of the month, from 1.
    pub day: u8,
}

/// A time in UTC, to the second.
#[derive(Copy, Clone, PartialEq, Eq, Debug)]
pub struct Moment {
    /// The day.
    pub day: Day,
    /// The hour, up to 23.
    pub hour: u8,
    /// The minute, up to 59.
    pub minute: u8,
    /// The second, up to 59, or 60 for a leap second.
    pub second: u8,
}

fn is_leap(year: u16) -> bool
    ensures { result ≡ is_leap year }
{
    year % 4 == 0 && (year % 100 != 0 || year % 400 == 0)
}

/// Returns the number of days in `month` of `year`; 31 if there is no such month.
pub fn days_in(year: u16, month: u8) -> u8
    ensures { result ≡ days_in year month }
{
    match month {
        2 if is_leap(year) => 29,
        2 => 28,
        4 | 6 | 9 | 11 => 30,
        _ => 31,
    }
}

// Appends numbers below 100, with two digits each.
fn push_pairs(text: &mut String, numbers: &[u16]) -> ContentResult<()>
    ensures appends { OnOk result (string_bytes text.new
        ≡ string_bytes text.old ++ pairs_text numbers.now) }
    ensures memory { IsOkUnless result OutOfMemory }
{
    for number in numbers {
        let tens = number / 10;
        let ones = number % 10;
        write!(text, "{tens}{ones}")?;
    }
    Ok(())
}

impl Day {
    /// Returns whether the day exists, in a year up to 9999.
    pub fn is_valid(self) -> bool
        ensures { result ≡ is_day self }
    {
        self.year < 10_000
            && self.month > 0
            && self.month < 13
            && self.day > 0
            && self.day <= days_in(self.year, self.month)
    }

    /// Returns the day as a number, e.g. 19960415, which is larger for a later day.
    pub fn number(self) -> u32
        ensures { result ≡ day_number self }
    {
        (u32::from(self.year) * 100 + u32::from(self.month)) * 100 + u32::from(self.day)
    }

    /// Returns the day as iCalendar writes it, e.g. 19960415.
    ///
    /// Errors: only `OutOfMemory`.
    #[tactic(auto, unfolding(crate::specs::Times::day_text))]
    pub fn text(self, alloc: Global) -> ContentResult<String>
        ensures value { IfOk result (λ text. string_bytes text ≡ day_text self) }
        ensures memory { IsOkUnless result OutOfMemory }
    {
        let mut text = String::new(alloc);
        let month = u16::from(self.month);
        let day = u16::from(self.day);
        push_pairs(&mut text, &[self.year / 100, self.year % 100, month, day])?;
        Ok(text)
    }

    /// Returns the day as vCard writes it, e.g. 1996-04-15.
    ///
    /// Errors: only `OutOfMemory`.
    #[tactic(auto, unfolding(crate::specs::Times::date_text))]
    pub fn date(self, alloc: Global) -> ContentResult<String>
        ensures value { IfOk result (λ text. string_bytes text ≡ date_text self) }
        ensures memory { IsOkUnless result OutOfMemory }
    {
        let mut text = String::new(alloc);
        push_pairs(&mut text, &[self.year / 100, self.year % 100])?;
        text.push_str("-")?;
        push_pairs(&mut text, &[u16::from(self.month)])?;
        text.push_str("-")?;
        push_pairs(&mut text, &[u16::from(self.day)])?;
        Ok(text)
    }
}

/// Returns whether a day is given that does not exist.
pub(crate) fn is_wrong_day(day: Option<Day>) -> bool
    ensures { result ≡ wrong_day day }
{
    day.is_some_and(|day| !day.is_valid())
}

/// Returns a day as iCalendar writes it; empty for `None`.
pub(crate) fn day_or_none(alloc: Global, day: Option<Day>) -> ContentResult<String>
    ensures value { IfOk result (λ text. string_bytes text ≡ said_or_none day_text day) }
    ensures memory { IsOkUnless result OutOfMemory }
{
    match day {
        Some(day) => day.text(alloc),
        None => Ok(String::new(alloc)),
    }
}

/// Returns a day as vCard writes it; empty for `None`.
pub(crate) fn date_or_none(alloc: Global, day: Option<Day>) -> ContentResult<String>
    ensures value { IfOk result (λ text. string_bytes text ≡ said_or_none date_text day) }
    ensures memory { IsOkUnless result OutOfMemory }
{
    match day {
        Some(day) => day.date(alloc),
        None => Ok(String::new(alloc)),
    }
}

impl Moment {
    /// Returns whether the day and the time exist, where a minute may have a second 60.
    pub fn is_valid(self) -> bool
        ensures { result ≡ is_moment self }
    {
        self.day.is_valid() && self.hour < 24 && self.minute < 60 && self.second < 61
    }

    /// Returns the time as a number, e.g. 19980119070000, which is larger for a later time.
    pub fn number(self) -> u64
        ensures { result ≡ moment_number self }
    {
        let hours = u64::from(self.day.number()) * 100 + u64::from(self.hour);
        (hours * 100 + u64::from(self.minute)) * 100 + u64::from(self.second)
    }

    /// Returns the time as iCalendar writes it, e.g. 19980119T070000Z.
    ///
    /// Errors: only `OutOfMemory`.
    #[tactic(auto, unfolding(crate::specs::Times::moment_text))]
    pub fn text(self, alloc: Global) -> ContentResult<String>
        ensures value { IfOk result (λ text. string_bytes text ≡ moment_text self) }
        ensures memory { IsOkUnless result OutOfMemory }
    {
        let mut text = self.day.text(alloc)?;
        text.push_str("T")?;
        let minute = u16::from(self.minute);
        push_pairs(
            &mut text,
            &[u16::from(self.hour), minute, u16::from(self.second)],
        )?;
        text.push_str("Z")?;
        Ok(text)
    }
}

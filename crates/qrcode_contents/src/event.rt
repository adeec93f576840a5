//! Calendar events as iCalendar (RFC 5545).

ghost use Rattle.std.specs.Prelude.{◌≡◌, ◌++◌, not, Some, IfOk, OnOk, IsOkUnless, string_bytes, codes};
ghost use Rattle.qrcode_contents.specs.declared.fields.errors.ContentError.TheVariants.{OutOfMemory};
ghost use Rattle.qrcode_contents.specs.fields.ContentLines.{content_line, content_text};
ghost use Rattle.qrcode_contents.specs.fields.Refusals.{Answers, checked};
ghost use Rattle.qrcode_contents.specs.Event.{happening_of, wrong_stamp, stamp_text, begins_never, ends_never, ends_early, event_refusal, span_lines, event_text, read_event};
ghost use Rattle.qrcode_contents.specs.Times.{day_text, moment_text};

use crate::fields::content_lines::{push_texts, push_value};
use crate::fields::errors::{Cause, ContentResult, Field};
use crate::fields::refusals::{controls, other_controls, refuse_first};
use crate::times::{Day, Moment};
use std::alloc::Global;

/// The beginning and end of an event.
#[derive(Copy, Clone, PartialEq, Eq, Debug)]
pub enum Span {
    /// Whole days: the first, and the day after the last.
    Days(Day, Day),
    /// From one time to a later one.
    Times(Moment, Moment),
}

/// An event. Empty fields are left out; `summary`, `location` and `description` may have tabs and
/// line feeds.
#[derive(Copy, Clone, PartialEq, Eq, Debug)]
pub struct Event<'a> {
    /// A unique identifier, e.g. `19970610T172345Z-AF23B2@example.com`.
    pub uid: &'a str,
    /// The time when the event was written.
    pub stamp: Option<Moment>,
    /// The beginning and end.
    pub span: Span,
    /// The title.
    pub summary: &'a str,
    /// The place.
    pub location: &'a str,
    /// A description.
    pub description: &'a str,
}

// Appends a line of `key` and `day`.
fn push_day(alloc: Global, text: &mut String, key: &str, day: Day) -> ContentResult<()>
    ensures appends { OnOk result (string_bytes text.new
        ≡ string_bytes text.old ++ content_line (key.now, day_text day)) }
    ensures memory { IsOkUnless result OutOfMemory }
{
    let value = day.text(alloc)?;
    push_value(alloc, text, key, value.as_str())
}

// Appends a line of `key` and `moment`.
fn push_moment(alloc: Global, text: &mut String, key: &str, moment: Moment) -> ContentResult<()>
    ensures appends { OnOk result (string_bytes text.new
        ≡ string_bytes text.old ++ content_line (key.now, moment_text moment)) }
    ensures memory { IsOkUnless result OutOfMemory }
{
    let value = moment.text(alloc)?;
    push_value(alloc, text, key, value.as_str())
}

// Whether a time is given that does not exist.
fn is_wrong(stamp: Option<Moment>) -> bool
    ensures { result ≡ wrong_stamp stamp }
{
    stamp.is_some_and(|moment| !moment.is_valid())
}

// Appends the `DTSTAMP` line; nothing for `None`.
fn push_stamp(alloc: Global, text: &mut String, stamp: Option<Moment>) -> ContentResult<()>
    ensures appends { OnOk result (string_bytes text.new
        ≡ string_bytes text.old ++ content_line (codes "DTSTAMP", stamp_text stamp)) }
    ensures memory { IsOkUnless result OutOfMemory }
{
    match stamp {
        Some(moment) => push_moment(alloc, text, "DTSTAMP", moment),
        None => Ok(()),
    }
}

impl Span {
    // Whether the beginning does not exist, whether the end does not exist, and whether the end is
    // not after the beginning.
    fn faults(self) -> (bool, bool, bool)
        ensures { result ≡ (begins_never self, ends_never self, ends_early self) }
    {
        match self {
            Span::Days(first, end) => {
                let early = end.number() <= first.number();
                (!first.is_valid(), !end.is_valid(), early)
            }
            Span::Times(begin, end) => {
                let early = end.number() <= begin.number();
                (!begin.is_valid(), !end.is_valid(), early)
            }
        }
    }

    // Appends the lines of the beginning and the end.
    fn push(self, alloc: Global, text: &mut String) -> ContentResult<()>
        ensures appends { OnOk result (string_bytes text.new
            ≡ string_bytes text.old ++ content_text (span_lines self)) }
        ensures memory { IsOkUnless result OutOfMemory }
    {
        match self {
            Span::Days(first, end) => {
                push_day(alloc, text, "DTSTART;VALUE=DATE", first)?;
                push_day(alloc, text, "DTEND;VALUE=DATE", end)
            }
            Span::Times(begin, end) => {
                push_moment(alloc, text, "DTSTART", begin)?;
                push_moment(alloc, text, "DTEND", end)
            }
        }
    }
}

impl Event<'_> {
    // Fails on the first wrong field.
    #[tactic(auto, unfolding(crate::specs::Event::event_refusal))]
    fn check(&self) -> ContentResult<()>
        ensures { result ≡ checked (event_refusal (happening_of self.now)) }
    {
        let (begins_never, ends_never, ends_early) = self.span.faults();
        refuse_first(&[
            controls(Field::Uid, self.uid),
            (is_wrong(self.stamp), Field::Stamp, Cause::Range),
            (begins_never, Field::Begin, Cause::Range),
            (ends_never, Field::End, Cause::Range),
            (ends_early, Field::End, Cause::Range),
            other_controls(Field::Summary, self.summary),
            other_controls(Field::Location, self.location),
            other_controls(Field::Description, self.description),
        ])
    }

    // Writes the text without checking the fields.
    fn written(&self, alloc: Global) -> ContentResult<String>
        ensures value { IfOk result (λ text. string_bytes text
            ≡ event_text (happening_of self.now)) }
        ensures memory { IsOkUnless result OutOfMemory }
    {
        let mut text = String::from_str(
            alloc,
            "BEGIN:VCALENDAR\r\nVERSION:2.0\r\nPRODID:-//Goqlanis//Contents//EN\r\nBEGIN:VEVENT\r\n",
        )?;
        push_texts(alloc, &mut text, &[("UID", self.uid)])?;
        push_stamp(alloc, &mut text, self.stamp)?;
        self.span.push(alloc, &mut text)?;
        let texts = [
            ("SUMMARY", self.summary),
            ("LOCATION", self.location),
            ("DESCRIPTION", self.description),
        ];
        push_texts(alloc, &mut text, &texts)?;
        text.push_str("END:VEVENT\r\nEND:VCALENDAR\r\n")?;
        Ok(text)
    }

    /// Returns an iCalendar object (RFC 5545) with the event.
    ///
    /// Errors: `Refused` names the first wrong field and why; `OutOfMemory` if memory runs out.
    pub fn text(&self, alloc: Global) -> ContentResult<String>
        ensures reads { Answers (event_refusal (happening_of self.now)) result
            (λ text. read_event text ≡ Some (happening_of self.now)) }
        ensures value { IfOk result (λ text. string_bytes text
            ≡ event_text (happening_of self.now)) }
    {
        self.check()?;
        self.written(alloc)
    }
}

//! Links to places on the earth.

ghost use Rattle.std.specs.Prelude.{◌≡◌, ◌<◌, ◌*◌, ◌%◌, ◌++◌, Some, IfOk, OnOk, IsOkUnless, string_bytes};
ghost use Rattle.qrcode_contents.specs.declared.fields.errors.ContentError.TheVariants.{OutOfMemory};
ghost use Rattle.qrcode_contents.specs.Geo.{place_refusal, first_digit, fraction_text, sign_text, coordinate_text, place_text, read_place};
ghost use Rattle.qrcode_contents.specs.fields.Refusals.{Answers, checked};

use crate::fields::errors::{Cause, ContentResult, Field};
use crate::fields::refusals::refuse_first;
use std::alloc::Global;
use std::fmt::Write;

/// A place on the earth, in WGS 84 coordinates.
#[derive(Copy, Clone, PartialEq, Eq, Debug)]
pub struct Place {
    /// Millionths of a degree north of the equator, from -90,000,000 to 90,000,000.
    pub latitude: i32,
    /// Millionths of a degree east of Greenwich, from -180,000,000 to 180,000,000.
    pub longitude: i32,
}

// Appends the digit `number / place`, or nothing if `number` is zero. Returns the remainder.
fn push_digit(text: &mut String, number: u32, place: u32) -> ContentResult<u32>
    requires place { 0 < place }
    requires digit { number < place * 10 }
    ensures appends { OnOk result (string_bytes text.new
        ≡ string_bytes text.old ++ first_digit number place) }
    ensures rest { IfOk result (λ rest. rest ≡ number % place) }
    ensures memory { IsOkUnless result OutOfMemory }
{
    if number == 0 {
        return Ok(0);
    }
    let digit = number / place;
    write!(text, "{digit}")?;
    Ok(number % place)
}

// Appends a point and millionths without trailing zeros; nothing if there are none.
fn push_fraction(text: &mut String, millionths: u32) -> ContentResult<()>
    requires { millionths < 1000000 }
    ensures appends { OnOk result (string_bytes text.new
        ≡ string_bytes text.old ++ fraction_text millionths) }
    ensures memory { IsOkUnless result OutOfMemory }
{
    if millionths == 0 {
        return Ok(());
    }
    text.push_str(".")?;
    let mut rest = millionths;
    for index in 0..6_u32 {
        rest = push_digit(text, rest, 10_u32.pow(5 - index))?;
    }
    Ok(())
}

// A minus sign for a negative number, else empty.
fn sign(number: i32) -> &'static str
    ensures { result.now ≡ sign_text number }
{
    if number.is_negative() { "-" } else { "" }
}

// Appends millionths of a degree as degrees, e.g. `-180.5`.
fn push_coordinate(text: &mut String, millionths: i32) -> ContentResult<()>
    ensures appends { OnOk result (string_bytes text.new
        ≡ string_bytes text.old ++ coordinate_text millionths) }
    ensures memory { IsOkUnless result OutOfMemory }
{
    let magnitude = millionths.unsigned_abs();
    let degrees = magnitude / 1_000_000;
    text.push_str(sign(millionths))?;
    write!(text, "{degrees}")?;
    push_fraction(text, magnitude % 1_000_000)
}

impl Place {
    // Rejects coordinates out of range.
    fn check(&self) -> ContentResult<()>
        ensures { result ≡ checked (place_refusal self.now) }
    {
        let north = self.latitude.unsigned_abs();
        let east = self.longitude.unsigned_abs();
        refuse_first(&[
            (north > 90_000_000, Field::Latitude, Cause::Range),
            (east > 180_000_000, Field::Longitude, Cause::Range),
        ])
    }

    // Writes the link without checking the fields.
    fn written(&self, alloc: Global) -> ContentResult<String>
        ensures value { IfOk result (λ text. string_bytes text ≡ place_text self.now) }
        ensures memory { IsOkUnless result OutOfMemory }
    {
        let mut text = String::from_str(alloc, "geo:")?;
        push_coordinate(&mut text, self.latitude)?;
        text.push_str(",")?;
        push_coordinate(&mut text, self.longitude)?;
        Ok(text)
    }

    /// Returns the link to the place, `geo:..`.
    ///
    /// Errors: `Refused` names the first wrong field and why; `OutOfMemory` if memory runs out.
    pub fn text(&self, alloc: Global) -> ContentResult<String>
        ensures reads { Answers (place_refusal self.now) result
            (λ text. read_place text ≡ Some self.now) }
        ensures value { IfOk result (λ text. string_bytes text ≡ place_text self.now) }
    {
        self.check()?;
        self.written(alloc)
    }
}

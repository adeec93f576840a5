//! Checks of fields, of which the first that fails is reported.

ghost use Rattle.std.specs.Prelude.{◌≡◌, length, map, nat_lt};
ghost use Rattle.std.specs.List.{list_any};
ghost use Rattle.std.specs.Str.{chars};
ghost use Rattle.qrcode_contents.specs.declared.fields.errors.Cause.TheVariants.{ControlCharacter, TooLong, TooShort};
ghost use Rattle.qrcode_contents.specs.fields.Characters.{is_control, is_other_control, is_unicode_break};
ghost use Rattle.qrcode_contents.specs.fields.Refusals.{checked, first_refusal, refused_if};

use crate::fields::characters::{
    character_count, has_control, has_other_control, has_unicode_break,
};
use crate::fields::errors::{Cause, ContentError, ContentResult, Field};

/// A check: whether it rejects the field, which field, and for what cause.
pub type Check = (bool, Field, Cause);

/// Returns the check that rejects an ASCII control character, such as a line break.
pub fn controls(field: Field, text: &str) -> Check
    ensures { result ≡ (list_any is_control text.now, field, ControlCharacter) }
{
    (has_control(text), field, Cause::ControlCharacter)
}

/// Returns the check that rejects an ASCII control character other than tab and line feed.
pub fn other_controls(field: Field, text: &str) -> Check
    ensures { result ≡ (list_any is_other_control text.now, field, ControlCharacter) }
{
    (has_other_control(text), field, Cause::ControlCharacter)
}

/// Returns the check that rejects a line break outside ASCII: U+0085, U+2028 or U+2029.
pub fn unicode_breaks(field: Field, text: &str) -> Check
    ensures { result ≡ (list_any is_unicode_break (chars text.now), field, ControlCharacter) }
{
    (has_unicode_break(text), field, Cause::ControlCharacter)
}

/// Returns the check that rejects fewer than `least` characters.
pub fn too_short(field: Field, text: &str, least: usize) -> Check
    ensures { result ≡ (nat_lt (length (chars text.now)) least, field, TooShort) }
{
    (character_count(text) < least, field, Cause::TooShort)
}

/// Returns the check that rejects more than `most` characters.
pub fn too_long(field: Field, text: &str, most: usize) -> Check
    ensures { result ≡ (nat_lt most (length (chars text.now)), field, TooLong) }
{
    (character_count(text) > most, field, Cause::TooLong)
}

/// Fails if one of the checks rejects its field.
///
/// Errors: `Refused` with field and cause of the first check that does.
pub fn refuse_first(checks: &[Check]) -> ContentResult<()>
    ensures { result ≡ checked (first_refusal
        (map (λ check. refused_if check.0 check.1 check.2) checks.now)) }
{
    let mut rest = checks;
    while let [(refused, field, cause), more @ ..] = rest {
        if *refused {
            return Err(ContentError::Refused(*field, *cause));
        }
        rest = more;
    }
    Ok(())
}

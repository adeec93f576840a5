//! Puts a backslash before characters that would end a field.

ghost use Rattle.std.specs.Prelude.{◌≡◌, ◌<◌, ◌++◌, string_bytes, encode_utf8, IfSome, OnOk, IsOkUnless};
ghost use Rattle.qrcode_contents.specs.declared.fields.errors.ContentError.TheVariants.{OutOfMemory};
ghost use Rattle.qrcode_contents.specs.fields.Escapes.{letter_of, escaped};

use crate::fields::errors::ContentResult;

/// Which characters a format escapes, with a backslash and a letter.
#[derive(Copy, Clone, PartialEq, Eq, Debug)]
pub enum Escapes {
    /// Wi-Fi and MECARD: `\`, `;`, `,`, `:` and `"` get a backslash.
    Marks,
    /// vCard and iCalendar: `\`, `;` and `,` get a backslash, and a line feed is `\n`.
    Lines,
}

impl Escapes {
    // What to write after a backslash for `character`; `None` if it needs no escape.
    fn letter_of(self, character: char) -> Option<char>
        ensures value { result ≡ letter_of self character }
        ensures ascii { IfSome result (λ letter. letter < 128) }
    {
        match (self, character) {
            (_, '\\' | ';' | ',') => Some(character),
            (Escapes::Marks, ':' | '"') => Some(character),
            (Escapes::Lines, '\n') => Some('n'),
            _ => None,
        }
    }
}

// Appends a character, escaped if it needs to be.
fn push_character(text: &mut String, escapes: Escapes, character: char) -> ContentResult<()>
    ensures appends { OnOk result (string_bytes text.new
        ≡ string_bytes text.old ++ escaped escapes (encode_utf8 character)) }
    ensures memory { IsOkUnless result OutOfMemory }
{
    if let Some(letter) = escapes.letter_of(character) {
        text.push('\\')?;
        text.push(letter)?;
    } else {
        text.push(character)?;
    }
    Ok(())
}

/// Appends `value`, escaped.
///
/// Errors: only `OutOfMemory`; some of it may then be appended.
pub fn push_escaped(text: &mut String, escapes: Escapes, value: &str) -> ContentResult<()>
    ensures appends { OnOk result (string_bytes text.new
        ≡ string_bytes text.old ++ escaped escapes value.now) }
    ensures memory { IsOkUnless result OutOfMemory }
{
    for character in value.chars() {
        push_character(text, escapes, character)?;
    }
    Ok(())
}

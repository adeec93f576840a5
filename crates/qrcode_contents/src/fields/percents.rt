//! Percent-encoding (RFC 3986).

ghost use Rattle.std.specs.Prelude.{◌≡◌, ◌<◌, ◌++◌, string_bytes, OnOk, IsOkUnless};
ghost use Rattle.qrcode_contents.specs.declared.fields.errors.ContentError.TheVariants.{OutOfMemory};
ghost use Rattle.qrcode_contents.specs.fields.Percents.{is_unreserved, hex_digit, encoded_byte, encoded, decoded};

use crate::fields::errors::ContentResult;

// Whether a byte is not encoded: a letter, a digit, or one of `-._~`.
fn is_unreserved(byte: u8) -> bool
    ensures { result ≡ is_unreserved byte }
{
    matches!(byte, b'-' | b'.' | b'0'..=b'9' | b'A'..=b'Z' | b'_' | b'a'..=b'z' | b'~')
}

// The hexadecimal digit of `number`, with capitals.
pub(crate) fn hex_digit(number: u8) -> u8
    requires { number < 16 }
    ensures value { result ≡ hex_digit number }
    ensures ascii { result < 128 }
{
    if number < 10 {
        48 + number
    } else {
        55 + number
    }
}

/// Appends `byte` as it is if it is a letter, a digit or one of `-._~`, else as a percent sign and
/// two hexadecimal digits.
///
/// Errors: only `OutOfMemory`; some of it may then be appended.
pub fn push_byte(text: &mut String, byte: u8) -> ContentResult<()>
    ensures appends { OnOk result (string_bytes text.new
        ≡ string_bytes text.old ++ encoded_byte byte) }
    ensures memory { IsOkUnless result OutOfMemory }
{
    if is_unreserved(byte) {
        text.push(char::from(byte))?;
        return Ok(());
    }
    text.push('%')?;
    text.push(char::from(hex_digit(byte / 16)))?;
    text.push(char::from(hex_digit(byte % 16)))?;
    Ok(())
}

/// Appends `value`, percent-encoded.
///
/// Errors: only `OutOfMemory`; some of it may then be appended.
#[tactic(auto, unfolding(crate::specs::fields::Percents::encoded))]
pub fn push_encoded(text: &mut String, value: &str) -> ContentResult<()>
    ensures appends { OnOk result (string_bytes text.new
        ≡ string_bytes text.old ++ encoded value.now) }
    ensures reads { OnOk result (decoded (encoded value.now) ≡ value.now) }
    ensures memory { IsOkUnless result OutOfMemory }
{
    let bytes = value.as_bytes();
    for byte in bytes {
        push_byte(text, *byte)?;
    }
    Ok(())
}

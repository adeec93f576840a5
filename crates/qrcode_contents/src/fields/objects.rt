//! Data objects of merchant-presented EMVCo codes, and their checksum.

ghost use Rattle.std.specs.Prelude.{◌≡◌, ◌++◌, string_bytes, OnOk, IsOkUnless};
ghost use Rattle.qrcode_contents.specs.declared.fields.errors.ContentError.TheVariants.{OutOfMemory};
ghost use Rattle.qrcode_contents.specs.fields.Objects.{checked_text, crc_bit, crc_of, crc_step, crc_text, object_text};

use crate::fields::errors::ContentResult;
use crate::fields::percents::hex_digit;
use std::fmt::Write;

/// Appends an object: `tag`, two digits; the length of `value`, two digits up to 99; and `value`.
/// Appends nothing if `value` is empty.
///
/// Errors: only `OutOfMemory`; some of it may then be appended.
pub fn push_object(text: &mut String, tag: &str, value: &str) -> ContentResult<()>
    ensures appends { OnOk result (string_bytes text.new
        ≡ string_bytes text.old ++ object_text (tag.now, value.now)) }
    ensures memory { IsOkUnless result OutOfMemory }
{
    if value.is_empty() {
        return Ok(());
    }
    let tens = value.len() / 10;
    let ones = value.len() % 10;
    write!(text, "{tag}{tens}{ones}{value}")?;
    Ok(())
}

// The CRC register after one more zero bit.
fn crc_bit(register: u16) -> u16
    ensures { result ≡ crc_bit register }
{
    if register < 0x8000 {
        register * 2
    } else {
        ((register - 0x8000) * 2) ^ 0x1021
    }
}

// The CRC register after one more byte.
fn crc_step(register: u16, byte: u8) -> u16
    ensures { result ≡ crc_step register byte }
{
    let half = crc_bit(crc_bit(crc_bit(crc_bit(register ^ (u16::from(byte) * 256)))));
    crc_bit(crc_bit(crc_bit(crc_bit(half))))
}

/// Returns the CRC-16 of `bytes`: polynomial 0x1021, initial value 0xffff.
#[tactic(auto, unfolding(crate::specs::fields::Objects::crc_of))]
pub fn crc(bytes: &[u8]) -> u16
    ensures { result ≡ crc_of bytes.now }
{
    let mut register = 0xffff;
    for byte in bytes {
        register = crc_step(register, *byte);
    }
    register
}

// Appends `check` as four hexadecimal digits.
fn push_crc(text: &mut String, check: u16) -> ContentResult<()>
    ensures appends { OnOk result (string_bytes text.new
        ≡ string_bytes text.old ++ crc_text check) }
    ensures memory { IsOkUnless result OutOfMemory }
{
    text.push(char::from(hex_digit((check / 4096) as u8)))?;
    text.push(char::from(hex_digit((check / 256 % 16) as u8)))?;
    text.push(char::from(hex_digit((check / 16 % 16) as u8)))?;
    text.push(char::from(hex_digit((check % 16) as u8)))?;
    Ok(())
}

/// Appends the checksum of `text` as its last object: `6304`, which it covers too, and four
/// hexadecimal digits.
///
/// Errors: only `OutOfMemory`; some of it may then be appended.
pub fn push_check(text: &mut String) -> ContentResult<()>
    ensures value { OnOk result (string_bytes text.new ≡ checked_text (string_bytes text.old)) }
    ensures memory { IsOkUnless result OutOfMemory }
{
    text.push_str("6304")?;
    let check = crc(text.as_bytes());
    push_crc(text, check)
}

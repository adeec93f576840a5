//! Decodes data bits to the text that a reader shows.

ghost use Rattle.std.specs.Prelude.{◌≡◌, ◌⊎◌, ℕ, List, chars, string_bytes, IsTrue, IfOk, IfErr, IsOkUnless};
ghost use Rattle.qrcode_types.specs.Versions.{is_valid};
ghost use Rattle.qrcode_bits.specs.Shown.{Shows, ShowsOnly};
ghost use Rattle.qrcode_reader.specs.spell.Texts.{IsBehindFront, AppendsText};
ghost use Rattle.qrcode_reader.specs.declared.spell.refusals.Unshown.TheVariants.{NotShown, OutOfMemory};

use crate::spell::headers::prefixed;
use crate::spell::refusals::Unshown;
use crate::spell::segments::{is_end, push_piece};
use qrcode_types::types::{Mode, Version};
use std::alloc::Global;
use std::str;

// Returns the bits after ECI 26 (UTF-8), or all bits if they do not begin with it.
fn after_eci_26(bits: &[bool], version: Version) -> &[bool]
    requires { IsTrue (is_valid version) }
    ensures { IsBehindFront version bits.now result.now }
{
    if version.is_micro() {
        return bits;
    }
    let Some((number, rest)) = prefixed(bits, 4, 0b0111, 8) else {
        return bits;
    };
    if number != 26 {
        return bits;
    }
    rest
}

// Appends the text of the segment at the start of `bits`; returns the rest.
fn push_shown<'a>(
    alloc: Global,
    text: &mut String,
    bits: &'a [bool],
    version: Version,
) -> Result<&'a [bool], Unshown>
    requires { IsTrue (is_valid version) }
    ensures { AppendsText version bits.now (string_bytes text.old) (string_bytes text.new) result }
{
    let mut bytes = Vec::new(alloc);
    let (mode, rest) = push_piece(&mut bytes, bits, version)?;
    if let Mode::Kanji = mode {
        return Err(Unshown::NotShown);
    }
    let Ok(shown) = str::from_utf8(&bytes) else {
        return Err(Unshown::NotShown);
    };
    text.push_str(shown)?;
    Ok(rest)
}

/// Decodes the data bits of a symbol to the text that a reader shows (ISO/IEC 18004:2006, 6.4.2 to
/// 6.4.5). The bits begin with ECI 26 (UTF-8) or with the first segment, and the bytes of each
/// segment are taken separately as UTF-8.
///
/// Errors: `NotShown` if a segment is Kanji, whose text is left open, or not UTF-8, if there is
/// another header, or if `bits` are not just segments and a terminator; `OutOfMemory` if memory
/// runs out.
pub fn text_of(alloc: Global, bits: &[bool], version: Version) -> Result<String, Unshown>
    requires { IsTrue (is_valid version) }
    ensures value { IfOk result (λ text. ShowsOnly version bits.now (chars (string_bytes text))) }
    ensures accepts { (text : List ℕ) → Shows version bits.now text
        → IsOkUnless result OutOfMemory }
    ensures causes { IfErr result (λ e. (e ≡ OutOfMemory)
        ⊎ ((e ≡ NotShown) × ((text : List ℕ) → ¬ Shows version bits.now text))) }
{
    let mut text = String::new(alloc);
    let mut rest = after_eci_26(bits, version);
    while !is_end(rest, version) {
        rest = push_shown(alloc, &mut text, rest, version)?;
    }
    Ok(text)
}

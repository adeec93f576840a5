//! Decodes squares to text.

ghost use Rattle.std.specs.Prelude.{◌≡◌, ℕ, List, chars, string_bytes, IfOk, IfErr, IsOkUnless};
ghost use Rattle.qrcode_types.specs.declared.types.Version.{Version};
ghost use Rattle.qrcode_types.specs.declared.types.EcLevel.{EcLevel};
ghost use Rattle.qrcode_types.specs.declared.types.Color.{Color};
ghost use Rattle.qrcode_symbol.specs.Symbol.{IsDamaged};
ghost use Rattle.qrcode.specs.Texts.{ShowsText, IsShownAs};
ghost use Rattle.qrcode_reader.specs.Readings.{IsTextReading, IsTextCause};
ghost use Rattle.qrcode_reader.specs.declared.refusals.Unread.TheVariants.{OutOfMemory};
ghost use Rattle.qrcode_reader.specs.declared.refusals.UnreadText.TheVariants.{NoBits};

use crate::correction::WrongCodeword;
use crate::reading::read_bits;
use crate::refusals::UnreadText;
use crate::spell::text_of;
use qrcode_layout::masks::MaskPattern;
use qrcode_types::types::{Color, EcLevel, Version};
use std::alloc::Global;

/// A square decoded to text.
#[derive(Drop)]
pub struct TextReading {
    /// The version, known from the side.
    pub version: Version,
    /// The level that the format word names.
    pub ec_level: EcLevel,
    /// The mask that the format word names.
    pub mask: MaskPattern,
    /// The text of the segments.
    pub text: String,
    /// The codewords that were wrong, block by block.
    pub wrong: Vec<WrongCodeword>,
}

/// Decodes a square of modules, given row by row from the top left corner, to the text that a
/// reader shows (ISO/IEC 18004:2006, 6.4.2 to 6.4.5). The bits begin with ECI 26 (UTF-8) or with
/// the first segment, and the bytes of each segment are taken separately as UTF-8. As much may be
/// wrong as for `read`.
///
/// Errors: `NoBits` with the error of `read_bits` if the square has no data bits; `NotShown` if
/// these are not such a text; `NoBits(OutOfMemory)` if memory runs out, also after the bits were
/// read.
pub fn read_text(alloc: Global, modules: &[Color]) -> Result<TextReading, UnreadText>
    ensures value { IfOk result (λ read. IsTextReading modules.now
        read.version read.ec_level read.mask (chars (string_bytes read.text)) read.wrong.items) }
    ensures accepts { (text : List ℕ)
        → ShowsText modules.now text → IsOkUnless result (NoBits OutOfMemory) }
    ensures causes { IfErr result (IsTextCause modules.now) }
    // A symbol made from a text decodes to this text, also within the promised damage.
    ensures gives_back { (version : Version) (level : EcLevel) (text : List ℕ)
        (symbol : List Color) → (shown : IsShownAs version level text symbol)
        → IsDamaged version level shown.mask symbol modules.now
        → IsOkUnless result (NoBits OutOfMemory)
        × IfOk result (λ read. chars (string_bytes read.text) ≡ text) }
{
    let read = read_bits(alloc, modules)?;
    let text = text_of(alloc, &read.bits, read.version)?;
    Ok(TextReading {
        version: read.version,
        ec_level: read.ec_level,
        mask: read.mask,
        text,
        wrong: read.wrong,
    })
}

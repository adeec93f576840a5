//! Segments in a list of bits. A piece is bytes and the mode in which they are written.

ghost use Rattle.std.specs.Prelude.{◌≡◌, ◌≢◌, ◌⊎◌, ℕ, ◌<◌, ◌^◌, ◌++◌, List, IsTrue, IfSome, IfNone, IfOk, IfErr};
ghost use Rattle.qrcode_types.specs.Versions.{is_valid};
ghost use Rattle.qrcode_types.specs.Modes as modes;
ghost use Rattle.qrcode_types.specs.declared.types.Mode.{Mode};
ghost use Rattle.qrcode_bits.specs.Written as written;
ghost use Rattle.qrcode_bits.specs.Spelling as spelling;
ghost use Rattle.qrcode_reader.specs.spell.Steps.{AppendsData, AppendsPiece};

use crate::spell::characters::push_characters;
use crate::spell::fields::{front, number_field};
use crate::spell::refusals::Unspelled;
use qrcode_types::characters::bytes_each;
use qrcode_types::modes::{has_mode, indicator};
use qrcode_types::types::{Mode, Version};
use qrcode_types::versions::terminator_length;

// Whether the segments end here: with the terminator, or as much of it as is left.
pub(crate) fn is_end(bits: &[bool], version: Version) -> bool
    requires { IsTrue (is_valid version) }
    ensures { result ≡ spelling.is_end version bits.now }
{
    bits.iter()
        .take(terminator_length(version))
        .all(|bit| !*bit)
}

// Returns the mode of `version` whose mode indicator is `number`.
fn mode_of(version: Version, number: u32) -> Option<Mode>
    requires { IsTrue (is_valid version) }
    ensures some { IfSome result (λ mode. IsTrue (modes.has_mode version mode)
        × (modes.indicator version mode ≡ number)) }
    ensures none { IfNone result ((mode : Mode) → IsTrue (modes.has_mode version mode)
        → modes.indicator version mode ≢ number) }
{
    for mode in [Mode::Numeric, Mode::Alphanumeric, Mode::Byte, Mode::Kanji] {
        if has_mode(version, mode) && indicator(version, mode) == number {
            return Some(mode);
        }
    }
    None
}

// Appends the bytes of what follows a mode indicator, a length field and that many characters;
// returns the rest.
pub(crate) fn push_data<'a>(
    bytes: &mut Vec<u8>,
    bits: &'a [bool],
    version: Version,
    mode: Mode,
) -> Result<&'a [bool], Unspelled>
    requires { IsTrue (is_valid version) }
    ensures { AppendsData version mode bits.now bytes.old.items bytes.new.items result }
{
    let Some((count, behind)) = number_field(bits, mode.length_bits_count(version)) else {
        return Err(Unspelled::NotSpelled);
    };
    let count = count as usize;
    let Some((characters, rest)) = front(behind, mode.data_bits_count(count)) else {
        return Err(Unspelled::NotSpelled);
    };
    bytes.reserve(count * bytes_each(mode))?;
    push_characters(bytes, mode, characters)?;
    Ok(rest)
}

// Appends the bytes of the segment at the start of `bits`; returns its mode and the rest.
pub(crate) fn push_piece<'a>(
    bytes: &mut Vec<u8>,
    bits: &'a [bool],
    version: Version,
) -> Result<(Mode, &'a [bool]), Unspelled>
    requires { IsTrue (is_valid version) }
    ensures { AppendsPiece version bits.now bytes.old.items bytes.new.items result }
{
    let Some((number, behind)) = number_field(bits, version.mode_bits_count()) else {
        return Err(Unspelled::NotSpelled);
    };
    let Some(mode) = mode_of(version, number) else {
        return Err(Unspelled::NotSpelled);
    };
    let rest = push_data(bytes, behind, version, mode)?;
    Ok((mode, rest))
}

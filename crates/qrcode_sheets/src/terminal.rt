//! Prints lines in black on white, for a terminal with 256 colours.

ghost use Rattle.std.specs.Prelude.{◌≡◌, ◌++◌, string_bytes, IfOk, OnOk, IsOkUnless};
ghost use Rattle.qrcode_types.specs.declared.types.QrError.TheVariants.{OutOfMemory};
ghost use Rattle.qrcode_sheets.specs.Terminal.{coloured_byte, coloured_text};

use qrcode_types::types::QrResult;
use std::alloc::Global;

// The control sequences that set black on white; that reset the colours, with a newline; and both,
// for a newline between lines.
static BLACK_ON_WHITE: &[u8] = b"\x1b[38;5;16;48;5;231m";

static DEFAULT_COLOURS: &[u8] = b"\x1b[0m\n";

static BETWEEN_LINES: &[u8] = b"\x1b[0m\n\x1b[38;5;16;48;5;231m";

/// Puts lines in black on white: sets the colours before each line and resets them after it.
#[tactic(auto, using(crate::proofs::Pieces::flat_map_more))]
pub(crate) fn coloured(alloc: Global, text: &String) -> QrResult<Vec<u8>>
    ensures value { IfOk result (λ lines. lines.items ≡ coloured_text (string_bytes text.now)) }
    ensures memory { IsOkUnless result OutOfMemory }
{
    let mut lines = Vec::from_slice(alloc, BLACK_ON_WHITE)?;
    for byte in text.as_bytes() {
        push_coloured(&mut lines, *byte)?;
    }
    lines.extend_from_slice(DEFAULT_COLOURS)?;
    Ok(lines)
}

// Appends a byte of the text, with the control sequences if it is a newline.
fn push_coloured(lines: &mut Vec<u8>, byte: u8) -> QrResult<()>
    ensures appends { OnOk result (lines.new.items ≡ lines.old.items ++ coloured_byte byte) }
    ensures memory { IsOkUnless result OutOfMemory }
{
    match byte {
        b'\n' => lines.extend_from_slice(BETWEEN_LINES)?,
        byte => lines.push(byte)?,
    }
    Ok(())
}

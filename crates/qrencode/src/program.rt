//! The program, with any writer as its output.

ghost use Rattle.std.specs.Prelude.{◌≡◌, ◌⊎◌, ◌↔◌, List, Some, None, string_bytes, IfOk, IfErr, IsErrOf, IsOkAnd, IfSome, IsOkUnless};
ghost use Rattle.qrcode_types.specs.declared.types.EcLevel.TheVariants.{M};
ghost use Rattle.qrcode_types.specs.declared.types.QrError.TheVariants.{OutOfMemory};
ghost use Rattle.qrcode_bits.specs.Choice.{IsRefused};
ghost use Rattle.qrencode.specs.Runs.{IsRun, IsCannotWrite};
ghost use Rattle.qrencode.specs.Words.{terminal_text, IsTerminalText};

use qrcode::QrCode;
use qrcode::render::string::Str;
use qrcode::types::{QrError, QrResult};
use std::alloc::Global;
use std::io::Write;
use thiserror::Error;

/// Why a run failed. `Display` gives the line for standard error.
#[derive(Clone, Copy, Debug, Error)]
pub enum Fault {
    /// No text was given.
    #[error("qrencode: missing argument")]
    MissingArgument,
    /// The text has no symbol, or memory ran out.
    #[error("qrencode: {0}")]
    Qr(QrError),
    /// Writing failed.
    #[error("qrencode: cannot write")]
    CannotWrite,
}

// A dark module is two spaces in inverse video, a light one two spaces on the default background.
static DARK: &str = "\x1b[7m  \x1b[0m";

static LIGHT: &str = "\x1b[49m  \x1b[0m";

/// Encodes `text` at level M, in the smallest Normal version that holds it, and writes the symbol
/// with its quiet zone to `out`: one line for each row of modules, without a newline at the end.
/// The whole output is made before the first write.
///
/// Errors: `MissingArgument` if there is no text; `Qr(DataTooLong)` if no Normal version holds it;
/// `Qr(OutOfMemory)` if memory runs out; `CannotWrite` if the writer fails, which may have taken a
/// part of the output. On the other errors nothing is written.
pub fn run<W: Write>(alloc: Global, text: Option<&str>, out: &mut W) -> Result<(), Fault>
    ensures usage { IsErrOf result Fault.MissingArgument ↔ (text.entry ≡ None) }
    ensures nothing { IfErr result (λ fault.
        IsCannotWrite fault ⊎ (W.contents out.new ≡ W.contents out.old)) }
    ensures runs { IfSome text.entry (λ t. IsRun (IsTerminalText t.now) (IsRefused M t.now)
        (W.contents out.old) (W.contents out.new) result) }
{
    let Some(text) = text else {
        return Err(Fault::MissingArgument);
    };
    deliver(picture(alloc, text.as_bytes()), out)
}

// Writes `made`, or passes its error on.
fn deliver<W: Write>(made: QrResult<Vec<u8>>, out: &mut W) -> Result<(), Fault>
    ensures { IsRun (λ bytes. IsOkAnd made (λ v. v.items ≡ bytes)) (IsErrOf made)
        (W.contents out.old) (W.contents out.new) result }
{
    let bytes = made.map_err(Fault::Qr)?;
    out.write_all(&bytes).map_err(|_| Fault::CannotWrite)
}

// Encodes `bytes` and draws the symbol.
fn picture(alloc: Global, bytes: &[u8]) -> QrResult<Vec<u8>>
    ensures value { IfOk result (λ text. IsTerminalText bytes.now text.items) }
    ensures causes { IfErr result (IsRefused M bytes.now) }
{
    let code = QrCode::new(alloc, bytes)?;
    let cells = cells(alloc, &code)?;
    Ok(cells.into_bytes())
}

// Draws a symbol as text for the terminal.
fn cells(alloc: Global, code: &QrCode) -> QrResult<String>
    ensures value { IfOk result (λ text.
        string_bytes text ≡ terminal_text code.now.version code.now.modules) }
    ensures memory { IsOkUnless result OutOfMemory }
{
    let mut renderer = code.render();
    renderer.dark_color(Str(DARK));
    renderer.light_color(Str(LIGHT));
    renderer.build(alloc)
}

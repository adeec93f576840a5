//! Draws XBM files: black and white pixels as C source code.

ghost use Rattle.std.specs.Prelude.{◌≡◌, ◌++◌, codes, flat_map, IfOk, OnOk, IsOkUnless};
ghost use Rattle.qrcode_types.specs.declared.types.QrError.TheVariants.{OutOfMemory};
ghost use Rattle.qrcode_sheets.specs.Printers.{hex_pair, turned, xbm_head, xbm_row, xbm_tail};

use crate::packed::{self, Packing};
use crate::zpl::push_pair;
use qrcode_types::types::QrResult;
use std::alloc::Global;

/// A pixel of an XBM file.
pub type Dot = packed::Dot<SourceText>;

/// The XBM format.
#[derive(Copy, Clone)]
pub struct SourceText;

impl Packing for SourceText {
    ghost before = { xbm_head };

    ghost row_of = { xbm_row };

    ghost behind = { xbm_tail };

    fn head(alloc: Global, width: u32, height: u32) -> QrResult<Vec<u8>> {
        Ok(format!(in alloc;
            "#define symbol_width {width}\n#define symbol_height {height}\n\
             static unsigned char symbol_bits[] = {{\n"
        )?
        .into_bytes())
    }

    fn row(bytes: Vec<u8>) -> QrResult<Vec<u8>> {
        let mut row = Vec::new(*bytes.allocator());
        for i in 0..bytes.len() {
            push_number(&mut row, turned(bytes[i]))?;
        }
        row.push(b'\n')?;
        Ok(row)
    }

    fn tail() -> &'static [u8] {
        b"};\n"
    }
}

// Returns the byte with its bits in reverse order.
fn turned(b: u8) -> u8
    ensures { result ≡ turned b }
{
    128 * (b % 2)
        + 64 * (b / 2 % 2)
        + 32 * (b / 4 % 2)
        + 16 * (b / 8 % 2)
        + 8 * (b / 16 % 2)
        + 4 * (b / 32 % 2)
        + 2 * (b / 64 % 2)
        + b / 128
}

// Appends a hexadecimal number in C syntax, and a comma.
fn push_number(text: &mut Vec<u8>, byte: u8) -> QrResult<()>
    ensures appends { OnOk result (text.new.items
        ≡ text.old.items ++ (codes "0x" ++ hex_pair byte ++ codes ",")) }
    ensures memory { IsOkUnless result OutOfMemory }
{
    text.extend_from_slice(b"0x")?;
    push_pair(text, byte)?;
    text.push(b',')?;
    Ok(())
}

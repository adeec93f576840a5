//! Draws raster bit images for receipt printers: the command GS v 0 of ESC/POS.

ghost use Rattle.std.specs.Prelude.{◌≡◌, [], IfOk, IsOkUnless};
ghost use Rattle.qrcode_types.specs.declared.types.QrError.TheVariants.{OutOfMemory};
ghost use Rattle.qrcode_sheets.specs.Printers.{escpos_head};

use crate::packed::{self, Packing};
use qrcode_types::types::{QrError, QrResult};
use std::alloc::Global;

/// A dot of a receipt printer. Black dots are printed.
pub type Dot = packed::Dot<Raster>;

/// The most dots along a side. The command has two bytes for the number of rows.
pub const GREATEST_SIDE: u32 = 65_535;

/// The ESC/POS format. A picture of more than `GREATEST_SIDE` dots along a side fails with
/// `OutOfMemory`.
#[derive(Copy, Clone)]
pub struct Raster;

impl Packing for Raster {
    ghost before = { escpos_head };

    ghost row_of = { λ bytes. bytes };

    ghost behind = { [] };

    fn head(alloc: Global, width: u32, height: u32) -> QrResult<Vec<u8>> {
        if width > GREATEST_SIDE || height > GREATEST_SIDE {
            return Err(QrError::OutOfMemory);
        }
        let bytes = (width + 7) / 8;
        let sizes = [
            (bytes % 256) as u8,
            (bytes / 256) as u8,
            (height % 256) as u8,
            (height / 256) as u8,
        ];
        let mut head = Vec::from_slice(alloc, b"\x1dv0\0")?;
        head.extend_from_slice(&sizes)?;
        Ok(head)
    }

    fn row(bytes: Vec<u8>) -> QrResult<Vec<u8>> {
        Ok(bytes)
    }

    fn tail() -> &'static [u8] {
        &[]
    }
}

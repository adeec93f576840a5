//! A ticket number as a Micro symbol.

ghost use Rattle.std.specs.Prelude.{◌≡◌, true, false, string_bytes, IfOk, IsOkUnless};
ghost use Rattle.qrcode_types.specs.declared.types.QrError.TheVariants.{OutOfMemory};
ghost use Rattle.qrcode.specs.Pictures.{layout_in};
ghost use Rattle.qrcode_render.specs.Picture.{picture};
ghost use Rattle.qrcode_render.specs.Texts.{dense_text};
ghost use Rattle.qrcode_facts.specs.Tickets.{IsTicket};

use qrcode::render::unicode::Dense1x2;
use qrcode::types::QrResult;
use qrcode::{EcLevel, QrCode, Version};
use std::alloc::Global;

/// Draws `number` in decimal as a Micro 2 symbol in half blocks: 9 lines of 17 characters, for a
/// terminal with light text on a dark background. Each number fits.
///
/// Errors: only `OutOfMemory`.
pub fn ticket_blocks(alloc: Global, number: u32) -> QrResult<String>
    ensures picture { IfOk result (λ text. IsTicket number (string_bytes text)) }
    ensures accepts { IsOkUnless result OutOfMemory }
{
    let digits = format!(in alloc; "{number}")?;
    let code = QrCode::with_version(alloc, digits.as_bytes(), Version::Micro(2), EcLevel::L)?;
    light_blocks(alloc, &code)
}

// Draws `code` in half blocks, for light text on a dark background.
fn light_blocks(alloc: Global, code: &QrCode) -> QrResult<String>
    ensures drawing { IfOk result (λ text. string_bytes text
        ≡ dense_text false true (picture (layout_in 1 code.now.version) code.now.modules)) }
    ensures memory { IsOkUnless result OutOfMemory }
{
    code.render()
        .dark_color(Dense1x2::Light)
        .light_color(Dense1x2::Dark)
        .build(alloc)
}

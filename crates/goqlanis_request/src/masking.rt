//! The modules of a symbol under the requested mask.

ghost use Rattle.std.specs.Prelude.{◌≡◌, ◌⊎◌, length, IfErr, IfOk};
ghost use Rattle.qrcode_types.specs.declared.types.QrError.TheVariants.{InvalidVersion, OutOfMemory};
ghost use Rattle.goqlanis_request.specs.Masks.{AreUnder, LacksMask};

use qrcode::QrCode;
use qrcode::types::{Color, QrError, QrResult};
use qrcode_layout::masks::{mask_count, nth_mask};
use std::alloc::Global;

/// Returns the modules of `code` under the mask with this number: 0 to 7, in Micro 0 to 3. Without
/// a number, under its own mask.
///
/// Errors: `InvalidVersion` if the version has no mask with this number; `OutOfMemory` if memory
/// runs out.
pub fn modules_under(alloc: Global, code: &QrCode, mask: Option<usize>) -> QrResult<Vec<Color>>
    ensures under { IfOk result (λ modules. AreUnder mask code.now modules.items) }
    ensures square { IfOk result (λ modules.
        length modules.items ≡ length code.now.modules) }
    ensures causes { IfErr result (λ e. (e ≡ OutOfMemory)
        ⊎ ((e ≡ InvalidVersion) × LacksMask mask code.now.version)) }
{
    let version = code.version();
    match mask {
        None => code.to_colors(alloc),
        Some(number) if number < mask_count(version) => {
            code.under_mask(alloc, nth_mask(version, number))
        }
        Some(_) => Err(QrError::InvalidVersion),
    }
}

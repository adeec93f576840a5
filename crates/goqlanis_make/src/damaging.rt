//! `goqlanis damage`: codes with wrong codewords, bits and modules.

ghost use Rattle.std.specs.Prelude.{◌≡◌, length, IfOk};

use crate::Done;
use goqlanis_files::failure::Failure;
use goqlanis_files::{doubted, refused};
use goqlanis_options::asked::Job;
use goqlanis_options::damage::{AskedDamage, WrongCount};
use goqlanis_request::masking::modules_under;
use goqlanis_request::{Request, drawn, mask_refusal_text};
use qrcode::QrCode;
use qrcode::types::Color;
use qrcode_damage::damage::{Damage, TooMuch, damaged, most_codewords};
use qrcode_damage::laid::laid;
use qrcode_reader::Position;
use qrcode_sheets::sheet::Overlay;
use std::alloc::Global;

// Returns the damage that is asked for, in this code.
fn damage_in(code: &QrCode, asked: AskedDamage) -> Damage {
    let most = most_codewords(code.version(), code.error_correction_level());
    Damage {
        codewords: match asked.codewords {
            WrongCount::Count(count) => count,
            WrongCount::Most => most,
            WrongCount::Beyond => most.saturating_add(1),
        },
        format_bits: asked.format_bits,
        version_bits: asked.version_bits,
        pattern_modules: asked.pattern_modules,
        seed: asked.seed,
    }
}

/// Draws a damaged code. Warns if so much damage need not be read.
///
/// Errors: `Refused` if the code has too few codewords, bits or modules, or warnings are errors;
/// `OutOfMemory`.
pub(crate) fn draw_damaged(
    rt: &HostRuntime,
    asked: &Job<'_, '_>,
    wanted: AskedDamage,
    code: &QrCode,
) -> Done<Vec<u8>> {
    let alloc = rt.alloc();
    let damage = damage_in(code, wanted);
    if !damage.is_promised(code.version(), code.error_correction_level()) {
        doubted!(rt, asked.doubts;
            "beyond what can be corrected: readers read nothing or, in small codes, perhaps other \
            data"
        )?;
    }
    let request = &asked.request;
    let modules = damaged_modules(alloc, request, wanted.position, code, damage)?;
    drawn(alloc, request, code, &modules, Overlay::Nothing).map_err(|_| Failure::OutOfMemory)
}

// Returns the modules of a code, under the requested mask, with this damage and in this position.
fn damaged_modules(
    alloc: Global,
    request: &Request<'_>,
    position: Position,
    code: &QrCode,
    damage: Damage,
) -> Done<Vec<Color>>
    ensures { IfOk result (λ modules. length modules.items ≡ length code.now.modules) }
{
    // Its contract says that the modules are a square.
    let _width = code.width();
    let modules = match modules_under(alloc, code, request.mask) {
        Ok(modules) => modules,
        Err(error) => return Err(Failure::Refused(mask_refusal_text(alloc, error)?)),
    };
    let (version, level) = (code.version(), code.error_correction_level());
    match damaged(alloc, version, level, &modules, damage) {
        Ok(modules) => Ok(laid(alloc, version, position, &modules)?),
        Err(TooMuch::OutOfMemory) => Err(Failure::OutOfMemory),
        Err(error) => refused!(alloc; "{error}"),
    }
}

//! Symbols of payments: from a value with named fields to the symbol in which readers show its text,
//! no larger than the format allows. Symbols of bills are made the same way, those of the other
//! formats without that limit.

ghost use Rattle.std.specs.Prelude.{◌≡◌, ℕ, ◌≤◌, pos, chars, None, IfOk, IfErr, IsTrue};
ghost use Rattle.qrcode_types.specs.Versions.{is_valid, side};
ghost use Rattle.qrcode_types.specs.declared.types.EcLevel.TheVariants.{M};
ghost use Rattle.qrcode_types.specs.declared.types.Version.TheVariants.{Normal};
ghost use Rattle.qrcode_bits.specs.Manners.{HoldsAs};
ghost use Rattle.qrcode_bits.specs.declared.bits.manner.Manner.TheVariants.{Text};
ghost use Rattle.qrcode_contents.specs.Payment.{payment_fields, payment_refusal, payment_text};
ghost use Rattle.qrcode.specs.Texts.{IsShownAs};
ghost use Rattle.qrcode_facts.specs.Wants.{IsWant};
ghost use Rattle.qrcode_facts.specs.declared.payments.Unmade.TheVariants.{Content, Code};

use qrcode::types::QrError;
use qrcode::{EcLevel, QrCode, Version};
use qrcode_contents::errors::ContentError;
use qrcode_contents::payment::{self, Payment};
use std::alloc::Global;

/// Why there is no symbol. If memory runs out it is `OutOfMemory`, in `Content` or in `Code`.
#[derive(Debug, Copy, Clone)]
pub enum Unmade {
    /// The format cannot express the value, or memory ran out for its text.
    Content(ContentError),
    /// No symbol holds the text, or memory ran out for the symbol.
    Code(QrError),
    /// The symbol would be larger than the format allows.
    Large,
}

impl From<ContentError> for Unmade {
    ghost from_gives = { λ error e. e ≡ Content error };

    fn from(error: ContentError) -> Unmade {
        Unmade::Content(error)
    }
}

impl From<QrError> for Unmade {
    ghost from_gives = { λ error e. e ≡ Code error };

    fn from(error: QrError) -> Unmade {
        Unmade::Code(error)
    }
}

// Encodes `text` at `ec_level`; fails with `Large` if that takes a version above `largest`.
fn bounded(alloc: Global, text: &str, ec_level: EcLevel, largest: Version) -> Result<QrCode, Unmade>
    requires { IsTrue (is_valid largest) }
    ensures accepts { (n : ℕ) → largest ≡ Normal (pos n) → HoldsAs Text largest ec_level text.now
        → IfErr result IsWant }
    ensures shown { IfOk result (λ code.
        IsShownAs code.version ec_level (chars text.now) code.modules) }
    ensures at_most { IfOk result (λ code. side code.version ≤ side largest) }
{
    let code = QrCode::of_text(alloc, text, ec_level)?;
    if code.width() > largest.width() as usize {
        return Err(Unmade::Large);
    }
    Ok(code)
}

/// Encodes `payment` at level M, in at most Normal 13: 69 modules along a side. Each payment that
/// its format can express fits.
///
/// Errors: `Content` if the format cannot express `payment`; `Content(OutOfMemory)` or
/// `Code(OutOfMemory)` if memory runs out.
pub fn payment(alloc: Global, payment: &Payment) -> Result<QrCode, Unmade>
    ensures accepts { payment_refusal (payment_fields payment.now) ≡ None → IfErr result IsWant }
    ensures shown { IfOk result (λ code. IsShownAs code.version M
        (chars (payment_text (payment_fields payment.now))) code.modules) }
    ensures at_most { IfOk result (λ code. side code.version ≤ 69) }
{
    let text = payment.text(alloc)?;
    bounded(alloc, text.as_str(), payment::LEVEL, payment::LARGEST)
}

//! Chooses the smallest version that holds bytes after FNC1.

ghost use Rattle.std.specs.Prelude.{◌≡◌, ℕ, ◌≤◌, ◌↔◌, length, IsTrue, IfOk, IfErr};
ghost use Rattle.qrcode_types.specs.declared.types.QrError.TheVariants.{DataTooLong};
ghost use Rattle.qrcode_bits.specs.Refusals.{data_limit};
ghost use Rattle.qrcode_gs1.specs.symbol.Symbols.{HoldsMarked};

use crate::symbol::Fnc1;
use crate::symbol::least::fewest_bits;
use crate::symbol::mark::mark_length;
use qrcode::types::{EcLevel, QrError, QrResult, Version};
use qrcode_types::tables;

// Returns whether a Normal version holds `bytes` after the mark.
fn holds(bytes: &[u8], position: Fnc1, ec_level: EcLevel, number: usize) -> bool
    requires length_at_most { length bytes.now ≤ data_limit }
    requires at_least { 1 ≤ number }
    requires at_most { number ≤ 40 }
    ensures { IsTrue result ↔ HoldsMarked position ec_level bytes.now number }
{
    let version = Version::Normal(number as i16);
    match tables::capacity(version, ec_level) {
        // Each byte takes at least three bits, so few versions need a closer look.
        Some(room) => {
            3 * bytes.len() <= room && mark_length(position) + fewest_bits(bytes, version) <= room
        }
        None => false,
    }
}

// Returns the smallest Normal version from `from` on that holds `bytes` after the mark.
//
// Errors: `DataTooLong` if none does.
pub(crate) fn least_number(
    bytes: &[u8],
    position: Fnc1,
    ec_level: EcLevel,
    from: usize,
) -> QrResult<usize>
    requires length_at_most { length bytes.now ≤ data_limit }
    ensures holds { IfOk result (HoldsMarked position ec_level bytes.now) }
    ensures at_least { IfOk result (λ number. from ≤ number) }
    ensures at_most { IfOk result (λ number. number ≤ 40) }
    ensures least { IfOk result (λ number. (other : ℕ) → from ≤ other
        → HoldsMarked position ec_level bytes.now other → number ≤ other) }
    ensures causes { IfErr result (λ e. (e ≡ DataTooLong)
        × ((number : ℕ) → from ≤ number → ¬ HoldsMarked position ec_level bytes.now number)) }
{
    for number in from.max(1)..41 {
        if holds(bytes, position, ec_level, number) {
            return Ok(number);
        }
    }
    Err(QrError::DataTooLong)
}

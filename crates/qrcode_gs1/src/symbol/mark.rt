//! Writes the mark: the mode indicator of FNC1 and the application's indicator.

ghost use Rattle.std.specs.Prelude.{◌≡◌, ◌+◌, ◌≤◌, false, length, OnOk, IsOkUnless};
ghost use Rattle.qrcode_types.specs.Versions.{is_micro};
ghost use Rattle.qrcode_types.specs.declared.types.QrError.TheVariants.{OutOfMemory};
ghost use Rattle.qrcode_bits.specs.Pushes.{with_bits};
ghost use Rattle.qrcode_bits.specs.Refusals.{bit_limit};
ghost use Rattle.qrcode_gs1.specs.symbol.Characters.{mark};

use crate::symbol::Fnc1;
use qrcode::types::QrResult;
use qrcode_bits::bits::Bits;

// Returns how many bits the mark takes.
pub(crate) fn mark_length(position: Fnc1) -> usize
    ensures value { result ≡ length (mark position) }
    ensures at_most { result ≤ 12 }
{
    match position {
        Fnc1::First => 4,
        Fnc1::Second(_) => 12,
    }
}

// Appends the mode indicator of FNC1 and, in second position, the application's indicator.
pub(crate) fn push_mark(bits: &mut Bits, position: Fnc1) -> QrResult<()>
    requires normal { is_micro bits.old.version ≡ false }
    requires room { length bits.old.bits + 12 ≤ bit_limit }
    ensures appends { OnOk result (bits.new ≡ with_bits bits.old (mark position)) }
    ensures memory { IsOkUnless result OutOfMemory }
{
    match position {
        Fnc1::First => bits.push_fnc1_first_position(),
        Fnc1::Second(application) => bits.push_fnc1_second_position(application),
    }
}

//! Recognises data for which a single segment is the shortest, without a search.

ghost use Rattle.std.specs.Prelude.{◌≡◌, ℕ, ◌+◌, ◌<◌, ◌≤◌, true, false, [], ◌∷◌, length, IsTrue, IfSome};
ghost use Rattle.qrcode_types.specs.Versions.{is_valid};
ghost use Rattle.qrcode_bits.specs.Cuts.{IsLeastCutIn};
ghost use Rattle.qrcode_bits.specs.Sparse.{is_dense, is_dense_at, IsSparse};

use super::Modes;
use crate::digits::are_digits;
use qrcode_types::types::{Mode, Version};

// The search for dense data can stop after each stretch of this many places.
const STRETCH: usize = 64;

/// Returns the mode in which a single segment is the shortest, if that is clear without a search:
/// Numeric for digits only; Byte, in Normal versions, if few letters and digits stand together.
pub(super) fn single_mode(bytes: &[u8], version: Version, modes: Modes) -> Option<Mode>
    requires valid { IsTrue (is_valid version) }
    ensures { IfSome result (λ mode. IsLeastCutIn modes version bytes.now
        (record { mode = mode; begin = 0; end = length bytes.now } ∷ [])) }
{
    if modes.numeric && !bytes.is_empty() && are_digits(bytes) {
        return Some(Mode::Numeric);
    }
    if modes.byte && !version.is_micro() && bytes.len() > 3 && is_sparse(bytes) {
        return Some(Mode::Byte);
    }
    None
}

// Returns whether no byte can begin a Kanji pair, and of any four neighbours at least one is above
// the alphanumeric characters, as lower-case letters are.
fn is_sparse(bytes: &[u8]) -> bool
    requires { 3 < length bytes.now }
    ensures { result ≡ true → IsSparse bytes.now }
{
    let last = bytes.len() - 3;
    let mut from = 0;
    while from < last {
        let to = last.min(from + STRETCH);
        if has_dense(bytes, from, to) {
            return false;
        }
        from = to;
    }
    bytes[last] < 0x81 && bytes[last + 1] < 0x81 && bytes[last + 2] < 0x81
}

// Returns whether four neighbours that begin at one of the places `from..to` are dense. It never
// stops early, so that LLVM checks sixteen places at a time.
fn has_dense(bytes: &[u8], from: usize, to: usize) -> bool
    requires ordered { from ≤ to }
    requires inside { to + 3 ≤ length bytes.now }
    ensures { result ≡ false → (i : ℕ) → from ≤ i → i < to → is_dense_at bytes.now i ≡ false }
{
    let mut dense = false;
    for i in from..to {
        dense |= is_dense(bytes[i], bytes[i + 1], bytes[i + 2], bytes[i + 3]);
    }
    dense
}

// Returns whether the first of four neighbours may begin a Kanji pair, or all are at most `Z`.
#[inline(always)]
fn is_dense(first: u8, second: u8, third: u8, fourth: u8) -> bool
    ensures { result ≡ is_dense first second third fourth }
{
    (first >= 0x81) | ((first <= b'Z') & (second <= b'Z') & (third <= b'Z') & (fourth <= b'Z'))
}

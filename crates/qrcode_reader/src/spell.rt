//! Decodes data bits to bytes, to headers and segments, or to text.

mod characters;
mod fields;
mod headers;
mod parts;
mod refusals;
mod segments;
mod texts;

ghost use Rattle.std.specs.Prelude.{◌≡◌, ◌⊎◌, ℕ, List, IsTrue, IfOk, IfErr, IsOkUnless};
ghost use Rattle.qrcode_types.specs.Versions.{is_valid};
ghost use Rattle.qrcode_bits.specs.Spelling.{Spells, SpellsOnly};
ghost use Rattle.qrcode_reader.specs.declared.spell.refusals.Unspelled.TheVariants.{NotSpelled, OutOfMemory};

pub use headers::Header;
pub use parts::{Part, Parts, pieces};
use qrcode_types::types::Version;
pub use refusals::{Unshown, Unspelled};
use segments::{is_end, push_piece};
use std::alloc::Global;
pub use texts::text_of;

/// Decodes the data bits of a symbol to bytes (ISO/IEC 18004:2006, 6.4): those of all segments up
/// to the terminator, or to the end of `bits` if that cuts the terminator off. What follows the
/// terminator is ignored.
///
/// Errors: `NotSpelled` if `bits` are not just segments and a terminator: there is a header, for
/// example an ECI, or a segment has a number that stands for no character; `OutOfMemory` if memory
/// runs out.
pub fn spell(alloc: Global, bits: &[bool], version: Version) -> Result<Vec<u8>, Unspelled>
    requires { IsTrue (is_valid version) }
    ensures value { IfOk result (λ bytes. SpellsOnly version bits.now bytes.items) }
    ensures accepts { (bytes : List ℕ) → Spells version bits.now bytes
        → IsOkUnless result OutOfMemory }
    ensures causes { IfErr result (λ e. (e ≡ OutOfMemory)
        ⊎ ((e ≡ NotSpelled) × ((bytes : List ℕ) → ¬ Spells version bits.now bytes))) }
{
    let mut bytes = Vec::new(alloc);
    let mut rest = bits;
    while !is_end(rest, version) {
        let (_, behind) = push_piece(&mut bytes, rest, version)?;
        rest = behind;
    }
    Ok(bytes)
}

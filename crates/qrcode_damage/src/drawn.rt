//! Draws wrong codewords where they belong in a symbol.

ghost use Rattle.std.specs.Prelude.{◌≡◌, ◌+◌, length, IsTrue, IfOk};
ghost use Rattle.qrcode_types.specs.Versions.{has_level, has_half_codeword, data_length, total_ec_length};
ghost use Rattle.qrcode_layout.specs.Masks.{nth_mask};
ghost use Rattle.qrcode_symbol.specs.Symbol.{Carries};
ghost use Rattle.qrcode_damage.specs.Flips.{AreHigh};

use crate::words::blocks_of;
use qrcode_layout::masks::nth_mask;
use qrcode_symbol::canvas::Canvas;
use qrcode_types::types::{Color, EcLevel, QrResult, Version};
use std::alloc::Global;

/// Returns the colours of the symbol of these codewords under the version's first mask.
///
/// Errors: only `OutOfMemory`.
pub(crate) fn drawn(
    alloc: Global,
    version: Version,
    ec_level: EcLevel,
    words: &[u8],
) -> QrResult<Vec<Color>>
    requires exists { IsTrue (has_level version ec_level) }
    requires length { length words.now
        ≡ data_length version ec_level + total_ec_length version ec_level }
    requires half { IsTrue (has_half_codeword version ec_level) → AreHigh words.now }
    ensures { IfOk result (λ colors.
        Carries version ec_level words.now (nth_mask version 0) colors.items) }
{
    let data_length = blocks_of(version, ec_level).data_length();
    let (data, ec) = words.split_at(data_length);
    let mut canvas = Canvas::new(alloc, version, ec_level)?;
    canvas.draw_all_functional_patterns();
    canvas.draw_data(data, ec);
    canvas.apply_mask(nth_mask(version, 0));
    canvas.into_colors(alloc)
}

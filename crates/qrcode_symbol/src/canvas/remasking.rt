//! Changes the mask of a finished symbol.

ghost use Rattle.std.specs.Prelude.{◌≡◌, ◌*◌, ◌<◌, Bool, List, not, length, IsTrue};
ghost use Rattle.qrcode_types.specs.Colors.{is_dark, color_of};
ghost use Rattle.qrcode_types.specs.Versions.{has_level, side};
ghost use Rattle.qrcode_layout.specs.Masks.{exists_in, turns, turned_if};
ghost use Rattle.qrcode_penalty.specs.Penalty.{same};
ghost use Rattle.qrcode_symbol.specs.Penalties.{remasked_at, remasked};
ghost use Rattle.qrcode_symbol.specs.Symbol.{IsSymbol};

use super::layer::Layer;
use qrcode_layout::figures::color_of;
use qrcode_layout::masks::MaskPattern;
use qrcode_layout::patterns::{format_index, is_functional_place};
use qrcode_layout::words::format_word;
use qrcode_types::types::{Color, EcLevel, Version};
use qrcode_types::versions::side;

// Reverses a colour if exactly one of two masks reverses its place.
fn turned(old: MaskPattern, mask: MaskPattern, x: usize, y: usize, color: Color) -> Color
    requires column { x < 1000 }
    requires row { y < 1000 }
    ensures { result ≡ color_of
        (turned_if (not (same (turns old x y) (turns mask x y))) (is_dark color)) }
{
    if old.turns(x as i16, y as i16) == mask.turns(x as i16, y as i16) {
        return color;
    }
    !color
}

// Returns the colour of a place under the layer's mask, from its `color` under the mask `old`. It
// takes the format word from the layer, leaves patterns as they are, and changes all other places
// from the old mask to the new one.
fn remasked_at(layer: Layer, old: MaskPattern, x: usize, y: usize, color: Color) -> Color
    requires column { x < layer.width }
    requires row { y < layer.width }
    ensures { result ≡ remasked_at layer.version layer.word old layer.mask x y color }
{
    if let Some(i) = format_index(layer.version, layer.width, x, y) {
        return color_of((layer.word >> (14 - i)) % 2 == 1);
    }
    if is_functional_place(layer.version, layer.width, x, y) {
        return color;
    }
    turned(old, layer.mask, x, y, color)
}

/// Replaces the colours of a symbol under the mask `old`, row by row, by those under `mask`.
#[tactic(auto, using(std::proofs::lemmas::Nat::rows))]
pub fn remask(
    version: Version,
    ec_level: EcLevel,
    old: MaskPattern,
    mask: MaskPattern,
    modules: &mut [Color],
)
    requires exists { IsTrue (has_level version ec_level) }
    requires mask_exists { IsTrue (exists_in version mask) }
    requires square { length modules.old ≡ side version * side version }
    ensures value { modules.new ≡ remasked version ec_level old mask modules.old }

    // The result is a symbol of the same bits.
    ensures symbol { (bits : List Bool) → IsSymbol version ec_level bits old modules.old
        → IsSymbol version ec_level bits mask modules.new }
{
    let width = side(version);
    let layer = Layer {
        version,
        width,
        word: format_word(version, ec_level, mask),
        mask,
    };
    for i in 0..width * width {
        modules[i] = remasked_at(layer, old, i % width, i / width, modules[i]);
    }
}

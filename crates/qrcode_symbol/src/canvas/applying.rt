//! Applies a mask to all modules, with the format word.

ghost use Rattle.std.specs.Prelude.{◌≡◌, ◌*◌, ◌<◌, length, IsTrue};
ghost use Rattle.qrcode_types.specs.Versions.{has_level, side};
ghost use Rattle.qrcode_layout.specs.Masks.{exists_in};
ghost use Rattle.qrcode_symbol.specs.Canvas.{mask_module, with_mask};

use super::Module;
use super::layer::Layer;
use qrcode_layout::figures::color_of;
use qrcode_layout::masks::MaskPattern;
use qrcode_layout::patterns::decided_bit;
use qrcode_layout::words::format_word;
use qrcode_types::types::{EcLevel, Version};
use qrcode_types::versions::side;

// Returns a module after a mask: a bit of the format word or the dark module, which no mask
// changes, or the masked module.
fn mask_module(layer: Layer, x: usize, y: usize, old: Module) -> Module
    requires column { x < layer.width }
    requires row { y < layer.width }
    ensures { result ≡ mask_module layer.version layer.word layer.mask x y old }
{
    match decided_bit(layer.version, layer.width, layer.word, x, y) {
        Some(bit) => Module::Masked(color_of(bit)),
        None => old.mask(layer.mask.turns(x as i16, y as i16)),
    }
}

/// Masks every module, and draws the format word and the dark module.
#[tactic(auto, using(std::proofs::lemmas::Nat::rows))]
pub(super) fn mask_modules(
    version: Version,
    ec_level: EcLevel,
    mask: MaskPattern,
    modules: &mut [Module],
)
    requires exists { IsTrue (has_level version ec_level) }
    requires mask_exists { IsTrue (exists_in version mask) }
    requires square { length modules.old ≡ side version * side version }
    ensures { modules.new ≡ with_mask version ec_level mask modules.old }
{
    let width = side(version);
    let layer = Layer {
        version,
        width,
        word: format_word(version, ec_level, mask),
        mask,
    };
    for i in 0..width * width {
        modules[i] = mask_module(layer, i % width, i / width, modules[i]);
    }
}

//! A mask and its format word, for a symbol of one version.

ghost use Rattle.std.specs.Prelude.{◌≡◌, ◌≤◌, IsTrue};
ghost use Rattle.qrcode_types.specs.Versions.{is_valid, side};

use qrcode_layout::masks::MaskPattern;
use qrcode_types::types::Version;

/// A mask of a symbol, with its format word.
#[derive(Copy, Clone)]
pub(super) struct Layer {
    pub(super) version: Version,
    pub(super) width: usize,
    pub(super) word: u16,
    pub(super) mask: MaskPattern,
    pub(super) ghost valid: { IsTrue (is_valid version) },
    pub(super) ghost wide: { width ≡ side version },
    pub(super) ghost least: { 11 ≤ width },
    pub(super) ghost small: { width ≤ 177 },
}

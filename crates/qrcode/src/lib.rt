//! Encodes bytes and text as QR and Micro QR codes, and draws them.
//!
//!     let code = QrCode::of_text(alloc, "some text", EcLevel::M)?;
//!     let picture = code.render::<svg::Color>().build(alloc)?;
//!
//! - `QrCode::new` encodes bytes in the smallest Normal version that holds them;
//!   `QrCode::with_version` takes the version.
//! - `QrCode::of_text` encodes text so that readers show it as written.
//! - `QrCode::at_least` chooses among all versions from a given one on, Micro included;
//!   `QrCode::at_least_boosted` also raises the level as far as the chosen version allows.
//! - `QrCode::with_bits` takes a list of bits, to which `bits::Bits` appends segments one by one.
//! - `QrCode::render` makes the picture: text, SVG and the other formats of `render`.
//!
//! Each function is proved: it is safe, terminates, and meets the clauses between its head and its
//! body. They say what it returns, and when it fails with which error.
#![tactic(auto)]

ghost use Rattle.std.specs.Prelude.{◌≡◌, ◌↔◌, ◌+◌, ◌*◌, ◌-◌, ◌/◌, ◌%◌, ◌<◌, ◌≤◌, Bool, List, true, false, Some, string_bytes, length, slice_index, slice_get, map, IsTrue, IfOk, IfErr, OnOk, IsOkUnless};
ghost use Rattle.qrcode_types.specs.Versions.{is_valid, side, has_level, capacity, data_length, total_ec_length, has_half_codeword};
ghost use Rattle.qrcode_types.specs.declared.types.QrError.TheVariants.{OutOfMemory, InvalidVersion, DataTooLong};
ghost use Rattle.qrcode_types.specs.Colors.{is_dark};
ghost use Rattle.qrcode_types.specs.declared.types.EcLevel.TheVariants.{M};
ghost use Rattle.qrcode_ec.specs.Allowed.{misdecode_protection};
ghost use Rattle.qrcode_layout.specs.Masks.{exists_in};
ghost use Rattle.qrcode_layout.specs.Patterns.{is_functional_place};
ghost use Rattle.qrcode_symbol.specs.Patterned.{IsDrawn};
ghost use Rattle.qrcode_symbol.specs.Symbol.{IsSymbol};
ghost use Rattle.qrcode_bits.specs.Choice.{Holds};
ghost use Rattle.qrcode_bits.specs.Refusals.{data_limit};
ghost use Rattle.qrcode.specs.Acceptance.{CanSpell, IsAutomatic, IsLeastSymbol, IsRefusedAt};
ghost use Rattle.qrcode.specs.Drawing.{IsMaskOf};
ghost use Rattle.qrcode.specs.Pictures.{quiet_zone, debug_text};
ghost use Rattle.qrcode.specs.Reading.{EncodesBits, IsUnderMask};

use bits::{Bits, Manner};
use canvas::MaskPattern;
use masks::mask_of;
pub use qrcode_bits::{bits, optimize};
pub use qrcode_render as render;
pub use qrcode_symbol::{canvas, ec, types};
use qrcode_types::tables;
use render::{Pixel, Renderer};
use std::alloc::{AllocError, Global};
use std::marker::Model;
use std::ops::Index;
use types::QrError;
pub use types::{Color, EcLevel, QrResult, Version};

pub mod laws;
mod masks;
mod texts;

/// A QR or Micro QR code: its version, its error correction level and its modules.
#[derive(Drop)]
pub struct QrCode {
    content: Vec<Color>,
    version: Version,
    ec_level: EcLevel,
    width: usize,
}

impl Model for QrCode {
    ghost use Rattle.std.specs.Prelude.{◌≡◌, ◌*◌, length, IsTrue};
    ghost use Rattle.qrcode_types.specs.Versions.{side, has_level};
    ghost use Rattle.qrcode_layout.specs.declared.masks.MaskPattern.{MaskPattern};
    ghost use Rattle.qrcode.specs.Code.{Code};
    ghost use Rattle.qrcode.specs.Drawing.{IsMaskOf};

    ghost Value = { Code };

    ghost view = { λ code. record {
      version = code.version;
      level = code.ec_level;
      modules = code.content.items;
    } };

    ghost invariant = { λ code. IsTrue (has_level code.version code.ec_level)
        × ((code.width ≡ side code.version)
        × ((length code.content.items ≡ code.width * code.width)
        × ((mask : MaskPattern) × IsMaskOf code.version code.ec_level mask code.content.items))) };
}

impl QrCode {
    /// Encodes `bytes` at level M, in the smallest Normal version that holds them.
    ///
    /// Errors: `DataTooLong` if no Normal version holds `bytes`, or there are more than 1,048,576;
    /// `OutOfMemory` if memory runs out.
    pub fn new(alloc: Global, bytes: &[u8]) -> QrResult<Self>
        ensures { IsAutomatic M bytes.now result }
    {
        QrCode::with_error_correction_level(alloc, bytes, EcLevel::M)
    }

    /// Encodes `bytes` at level `ec_level`, in the smallest Normal version that holds them.
    ///
    /// Errors: `DataTooLong` if no Normal version holds `bytes`, or there are more than 1,048,576;
    /// `OutOfMemory` if memory runs out.
    pub fn with_error_correction_level(
        alloc: Global,
        bytes: &[u8],
        ec_level: EcLevel,
    ) -> QrResult<Self>
        ensures { IsAutomatic ec_level bytes.now result }
    {
        let bits = bits::encode_auto(alloc, bytes, ec_level)?;
        QrCode::with_bits(alloc, bits, ec_level)
    }

    /// Encodes `bytes` in the given version, Normal or Micro, at level `ec_level`.
    ///
    /// Errors, the first that applies: `InvalidVersion` if there is no such version; `DataTooLong`
    /// if there are more than 1,048,576 bytes; `UnsupportedCharacterSet` if they need a mode that
    /// the version lacks; `InvalidVersion` if the version lacks the level; `DataTooLong` if the
    /// symbol does not hold them. `OutOfMemory` if memory runs out; it may hide the last two.
    pub fn with_version(
        alloc: Global,
        bytes: &[u8],
        version: Version,
        ec_level: EcLevel,
    ) -> QrResult<Self>
        ensures version { IfOk result (λ code. code.version ≡ version) }
        ensures level { IfOk result (λ code. code.level ≡ ec_level) }
        ensures symbol { IfOk result (λ code.
            IsLeastSymbol version ec_level bytes.now code.modules) }
        ensures accepts { Holds version ec_level bytes.now → IsOkUnless result OutOfMemory }
        ensures holds { OnOk result (Holds version ec_level bytes.now) }
        ensures causes { IfErr result (IsRefusedAt version ec_level bytes.now) }
        ensures too_long { IsTrue (is_valid version) → data_limit < length bytes.now
            → result ≡ Err DataTooLong }

        // The same without segments: some list of exactly as many bits as the capacity decodes to
        // the bytes.
        ensures accepts_spelled { CanSpell version ec_level bytes.now
            → IsOkUnless result OutOfMemory }
        ensures only_spelled { OnOk result (CanSpell version ec_level bytes.now) }
    {
        QrCode::in_version(alloc, bytes, Manner::Bytes, version, ec_level)
    }

    /// Makes the symbol of a list of bits, in the version of `bits`. The list must fill the symbol:
    /// `Bits::push_terminator` adds what is missing.
    ///
    /// Errors: `InvalidVersion` if the version lacks the level; `DataTooLong` if there are more
    /// bits than the symbol holds; `OutOfMemory` if memory runs out.
    pub fn with_bits(alloc: Global, bits: Bits, ec_level: EcLevel) -> QrResult<Self>
        requires { IsTrue (has_level bits.version ec_level)
            → capacity bits.version ec_level ≤ length bits.bits }
        ensures version { IfOk result (λ code. code.version ≡ bits.version) }
        ensures level { IfOk result (λ code. code.level ≡ ec_level) }
        ensures symbol { IfOk result (λ code.
            EncodesBits bits.version ec_level bits.bits code.modules) }
        ensures no_level { has_level bits.version ec_level ≡ false → result ≡ Err InvalidVersion }
        ensures no_room { IsTrue (has_level bits.version ec_level)
            → capacity bits.version ec_level < length bits.bits → result ≡ Err DataTooLong }
        ensures accepts { IsTrue (has_level bits.version ec_level)
            → length bits.bits ≤ capacity bits.version ec_level → IsOkUnless result OutOfMemory }
    {
        let version = bits.version();
        let Some(room) = tables::capacity(version, ec_level) else {
            return Err(QrError::InvalidVersion);
        };
        if bits.len() > room {
            return Err(QrError::DataTooLong);
        }
        let bytes = bits.into_bytes();
        let (data, ec) = ec::construct_codewords(alloc, &bytes, version, ec_level)?;
        drop(bytes);
        let content = canvas::drawn_colors(alloc, version, ec_level, &data, &ec)?;
        Ok(QrCode {
            content,
            version,
            ec_level,
            width: version.width() as usize,
        })
    }

    /// Returns the version of the symbol.
    pub fn version(&self) -> Version
        ensures value { result ≡ self.now.version }
        ensures exists { IsTrue (has_level result self.now.level) }
    {
        self.version
    }

    /// Returns the error correction level of the symbol.
    pub fn error_correction_level(&self) -> EcLevel
        ensures { result ≡ self.now.level }
    {
        self.ec_level
    }

    /// Returns the mask of the symbol: the first with the lowest penalty (ISO/IEC 18004:2006,
    /// 6.8.3, except that the balance of dark modules is counted as in the Rust crate `qrcode`).
    pub fn mask(&self) -> MaskPattern
        ensures value { IsMaskOf self.now.version self.now.level result self.now.modules }

        // The modules are a symbol under no other mask, whatever the bits.
        ensures only { (bits : List Bool) (mask : MaskPattern)
            → IsTrue (exists_in self.now.version mask)
            → IsSymbol self.now.version self.now.level bits mask self.now.modules → mask ≡ result }
    {
        mask_of(self.version, &self.content)
    }

    /// Returns the modules of this symbol under another mask, row by row: a symbol that decodes to
    /// the same data. `mask` must be one of the version's; its penalty does not matter.
    ///
    /// Errors: only `OutOfMemory`.
    pub fn under_mask(&self, alloc: Global, mask: MaskPattern) -> QrResult<Vec<Color>>
        requires mask_exists { IsTrue (exists_in self.now.version mask) }
        ensures symbol { IfOk result (λ modules. IsUnderMask
            self.now.version self.now.level mask self.now.modules modules.items) }
        ensures square { IfOk result (λ modules.
            length modules.items ≡ length self.now.modules) }
        ensures memory { IsOkUnless result OutOfMemory }
    {
        let mut modules = Vec::from_slice(alloc, &self.content)?;
        canvas::remask(self.version, self.ec_level, self.mask(), mask, &mut modules);
        Ok(modules)
    }

    /// Returns the number of modules along a side, without the quiet zone.
    pub fn width(&self) -> usize
        ensures across { result ≡ side self.now.version }
        ensures at_least { 11 ≤ result }
        ensures at_most { result ≤ 177 }
        ensures square { length self.now.modules ≡ result * result }
    {
        self.width
    }

    /// Returns how many wrong codewords the standard allows in the whole symbol. The constructors
    /// promise correction block by block: of as many wrong codewords as half the block's error
    /// correction codewords, rounded down.
    pub fn max_allowed_errors(&self) -> usize
        ensures { result ≡ (total_ec_length self.now.version self.now.level
            - misdecode_protection self.now.version self.now.level) / 2 }
    {
        ec::max_allowed_errors(self.version, self.ec_level).unwrap()
    }

    /// Returns whether the module in column `x` and row `y`, both below the width, belongs to a
    /// function pattern, to the format information or to the version information.
    pub fn is_functional(&self, x: usize, y: usize) -> bool
        requires column { x < side self.now.version }
        requires row { y < side self.now.version }
        ensures place { result ≡ is_functional_place self.now.version x y }

        // So exactly these modules are no longer empty once a new canvas has its patterns.
        ensures drawn { IsTrue result ↔ IsDrawn self.now.version x y }
    {
        canvas::is_functional(self.version, self.width as i16, x as i16, y as i16)
    }

    /// Returns the modules as text, `on_char` for dark and `off_char` for light, without a quiet
    /// zone. A newline separates the rows.
    ///
    /// Errors: only `OutOfMemory`.
    pub fn to_debug_str(&self, alloc: Global, on_char: char, off_char: char) -> QrResult<String>
        ensures value { IfOk result (λ text. string_bytes text
            ≡ debug_text self.now.version self.now.modules on_char off_char) }
        ensures memory { IsOkUnless result OutOfMemory }
    {
        self.render()
            .quiet_zone(false)
            .dark_color(on_char)
            .light_color(off_char)
            .build(alloc)
    }

    /// Returns the modules row by row, `true` for dark.
    ///
    /// Errors: only `OutOfMemory`.
    pub fn to_vec(&self, alloc: Global) -> QrResult<Vec<bool>>
        ensures value { IfOk result (λ modules. modules.items ≡ map is_dark self.now.modules) }
        ensures memory { IsOkUnless result OutOfMemory }
    {
        Ok(
            self.content
                .iter()
                .map(|c| c.select(true, false))
                .collect(alloc)?,
        )
    }

    /// Consumes the symbol and returns its modules row by row, `true` for dark.
    ///
    /// Errors: only `OutOfMemory`.
    pub fn into_vec(self, alloc: Global) -> QrResult<Vec<bool>>
        ensures value { IfOk result (λ modules. modules.items ≡ map is_dark self.modules) }
        ensures memory { IsOkUnless result OutOfMemory }
    {
        self.to_vec(alloc)
    }

    /// Returns the colours of the modules, row by row, as a slice.
    pub fn colors(&self) -> &[Color]
        ensures { result.now ≡ self.now.modules }
    {
        &self.content
    }

    /// Copies the colours of the modules, row by row.
    ///
    /// Errors: only `OutOfMemory`.
    pub fn to_colors(&self, alloc: Global) -> QrResult<Vec<Color>>
        ensures value { IfOk result (λ colors. colors.items ≡ self.now.modules) }
        ensures memory { IsOkUnless result OutOfMemory }
    {
        Ok(Vec::from_slice(alloc, &self.content)?)
    }

    /// Consumes the symbol and returns the colours of its modules, row by row. Allocates nothing.
    pub fn into_colors(self) -> Vec<Color>
        ensures { result.items ≡ self.modules }
    {
        self.content
    }

    /// Returns a renderer of the symbol, with a quiet zone of four modules, or of two for Micro QR.
    /// `P` chooses the format, e.g. `char`, or `render::svg::Color`; `build` makes the picture.
    pub fn render<P: Pixel>(&self) -> Renderer<'_, P>
        ensures content { result.content ≡ self.now.modules }
        ensures count { result.count ≡ side self.now.version }
        ensures count_at_least { 11 ≤ result.count }
        ensures count_at_most { result.count ≤ 177 }
        ensures square { length self.now.modules ≡ result.count * result.count }
        ensures zone { result.zone ≡ quiet_zone self.now.version }
        ensures zone_at_most { result.zone ≤ 4 }
        ensures whole_zone { result.whole_zone ≡ quiet_zone self.now.version }
        ensures whole_zone_at_most { result.whole_zone ≤ 4 }
        ensures across { result.across ≡ P.unit.0 }
        ensures down { result.down ≡ P.unit.1 }
        ensures dark { P.is_default_color Color.Dark result.dark }
        ensures light { P.is_default_color Color.Light result.light }
    {
        let quiet_zone = if self.version.is_micro() { 2 } else { 4 };
        Renderer::new(&self.content, self.width, quiet_zone)
    }
}

/// `code[(x, y)]` is the colour of the module in column `x` and row `y`, both below the width.
impl Index<(usize, usize)> for QrCode {
    type Output = Color;

    ghost can_index = { λ code place. (place.0 < side code.version) × (place.1 < side code.version) };

    ghost index_gives = { λ code place color. slice_get code.modules (place.1 * side code.version + place.0) ≡ Some color };

    fn index(&self, (x, y): (usize, usize)) -> &Color {
        &self.content[y * self.width + x]
    }
}

impl Clone for QrCode {
    ghost is_clone = { λ code other. other ≡ code };

    fn clone(&self) -> Result<QrCode, AllocError> {
        Ok(QrCode {
            content: self.content.clone()?,
            version: self.version,
            ec_level: self.ec_level,
            width: self.width,
        })
    }
}

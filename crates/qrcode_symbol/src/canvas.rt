//! The modules of a symbol while it is drawn: patterns, data and masks.

ghost use Rattle.std.specs.Prelude.{◌≡◌, ◌+◌, ◌*◌, ◌<◌, ◌≤◌, pos, neg_ℤ, ◌≤ℤ◌, ◌<ℤ◌, nat_abs, length, map, slice_index_or, slice_set, ◌↔◌, IsTrue, IfOk, IsOkUnless};
ghost use Rattle.std.specs.Borrow.{sem};
ghost use Rattle.qrcode_types.specs.Versions.{is_valid, has_level, side};
ghost use Rattle.qrcode_layout.specs.Masks.{exists_in};
ghost use Rattle.qrcode_layout.specs.Patterns.{is_functional_place};
ghost use Rattle.qrcode_layout.specs.Stream.{FreePlacesAreFilled};
ghost use Rattle.qrcode_layout.specs.Words.{VersionWordsAreApart, FormatWordsAreApart};
ghost use Rattle.qrcode_types.specs.Colors.{is_dark};
ghost use Rattle.qrcode_types.specs.declared.types.QrError.TheVariants.{OutOfMemory};
ghost use Rattle.qrcode_symbol.specs.Canvas.{IsCoordinate, IsOnCanvas, wrapped, module_index, blank, color_of_module, colors_of, masked_module, drawn_bits, with_bits_drawn, with_patterns, with_mask};
ghost use Rattle.qrcode_symbol.specs.Carried.{CarriesAll, AreCarried, drawn_modules};
ghost use Rattle.qrcode_symbol.specs.Lending.{LendsModule};
ghost use Rattle.qrcode_symbol.specs.Masking.{IsBestMasked, AreBestColors};
ghost use Rattle.qrcode_symbol.specs.Patterned.{IsDrawn};
ghost use Rattle.qrcode_symbol.specs.declared.canvas.Module.TheVariants.{Empty, Masked};

pub use qrcode_layout::mask_functions;
pub use qrcode_layout::masks::MaskPattern;

mod applying;
mod codewords;
mod drawing;
mod filling;
mod layer;
mod masked_rows;
mod masking;
mod packing;
mod penalties;
mod remasking;
mod unpacking;

use applying::mask_modules;
use codewords::Codewords;
use drawing::draw_patterns;
use filling::draw_codewords;
use penalties::finished;
pub use penalties::penalty;
use qrcode_layout::laws;
use qrcode_layout::patterns::is_functional_place;
use qrcode_types::types::{Color, EcLevel, QrResult, Version};
use qrcode_types::versions::side;
pub use remasking::remask;
use std::alloc::Global;
use std::marker::Model;

/// A module of a canvas.
#[derive(Copy, Clone, PartialEq, Eq, Debug)]
pub enum Module {
    /// Nothing is drawn here yet.
    Empty,
    /// A module that no mask reverses: it is final.
    Masked(Color),
    /// A module that a mask can reverse.
    Unmasked(Color),
}

impl Module {
    /// Returns whether the module is dark. An empty module is light.
    pub fn is_dark(self) -> bool
        ensures { result ≡ is_dark (color_of_module self) }
    {
        Color::from(self) == Color::Dark
    }

    /// Applies a mask that reverses this module if `should_invert` is `true`. An empty module
    /// becomes dark if the mask reverses it, otherwise light; a masked module stays as it is.
    pub fn mask(self, should_invert: bool) -> Self
        ensures { result ≡ masked_module should_invert self }
    {
        match self {
            Module::Empty if should_invert => Module::Masked(Color::Dark),
            Module::Empty => Module::Masked(Color::Light),
            Module::Masked(color) => Module::Masked(color),
            Module::Unmasked(color) if should_invert => Module::Masked(!color),
            Module::Unmasked(color) => Module::Masked(color),
        }
    }
}

/// Converts a module into its colour. An empty module is light.
impl From<Module> for Color {
    ghost from_gives = { λ m color. color ≡ color_of_module m };

    fn from(m: Module) -> Color {
        match m {
            Module::Empty => Color::Light,
            Module::Masked(color) | Module::Unmasked(color) => color,
        }
    }
}

/// A symbol while it is drawn: its version, level and modules.
#[derive(Clone, Drop)]
pub struct Canvas {
    version: Version,
    ec_level: EcLevel,
    modules: Vec<Module>,
}

impl Model for Canvas {
    ghost use Rattle.std.specs.Prelude.{◌≡◌, ◌*◌, length, IsTrue};
    ghost use Rattle.qrcode_types.specs.Versions.{is_valid, side};
    ghost use Rattle.qrcode_symbol.specs.Canvas.{Drawing};

    ghost Value = { Drawing };

    ghost view = { λ c. record {
      version = c.version;
      level = c.ec_level;
      modules = c.modules.items;
    } };

    ghost invariant = { λ c. IsTrue (is_valid c.version)
        × (length c.modules.items ≡ side c.version * side c.version) };
}

// Converts a coordinate from `-width` to `width - 1` into one from 0 to `width - 1`.
fn wrapped(width: i16, x: i16) -> usize
    requires at_least { pos 11 ≤ℤ width }
    requires inside { IsCoordinate (nat_abs width) x }
    ensures value { result ≡ wrapped (nat_abs width) x }
    ensures inside { result < nat_abs width }
{
    if x < 0 {
        (x + width) as usize
    } else {
        x as usize
    }
}

// Returns the index of a module in row order.
fn module_index(version: Version, x: i16, y: i16) -> usize
    requires valid { IsTrue (is_valid version) }
    requires inside { IsOnCanvas version x y }
    ensures value { result ≡ module_index version x y }
    ensures inside { result < side version * side version }
{
    let width = version.width();
    wrapped(width, y) * (width as usize) + wrapped(width, x)
}

impl Canvas {
    /// Creates a canvas of empty modules.
    ///
    /// Errors: only `OutOfMemory`.
    pub fn new(alloc: Global, version: Version, ec_level: EcLevel) -> QrResult<Self>
        requires { IsTrue (is_valid version) }
        ensures value { IfOk result (λ canvas. canvas
            ≡ record { version = version; level = ec_level; modules = blank version }) }
        ensures memory { IsOkUnless result OutOfMemory }
    {
        let width = side(version);
        let modules = vec![in alloc; Module::Empty; width * width]?;
        Ok(Canvas {
            version,
            ec_level,
            modules,
        })
    }

    /// Returns the module in column `x` and row `y`, both from `-width` to `width - 1`. Negative
    /// coordinates count from the far side.
    pub fn get(&self, x: i16, y: i16) -> Module
        requires { IsOnCanvas self.now.version x y }
        ensures { result
            ≡ slice_index_or self.now.modules (module_index self.now.version x y) Empty }
    {
        self.modules[module_index(self.version, x, y)]
    }

    /// Returns a mutable reference to the module in column `x` and row `y`; coordinates as in
    /// `get`.
    pub fn get_mut(&mut self, x: i16, y: i16) -> &mut Module
        requires { IsOnCanvas self.old.version x y }
        ensures* lends { sem 𝓛 (LendsModule self.entry x y result) }
        ensures value { result.now
            ≡ slice_index_or self.old.modules (module_index self.old.version x y) Empty }
    {
        let index = module_index(self.version, x, y);
        &mut self.modules[index]
    }

    /// Sets a module to a colour that no mask reverses; coordinates as in `get`.
    pub fn put(&mut self, x: i16, y: i16, color: Color)
        requires { IsOnCanvas self.old.version x y }
        ensures { self.new ≡ record self.old {
          modules = slice_set self.old.modules (module_index self.old.version x y) (Masked color);
        } }
    {
        let index = module_index(self.version, x, y);
        self.modules[index] = Module::Masked(color);
    }

    /// Draws the functional patterns over what is there, and makes the places of the format word
    /// light (ISO/IEC 18004:2006, 5.3).
    pub fn draw_all_functional_patterns(&mut self)
        ensures after { self.new ≡ record self.old {
          modules = with_patterns self.old.version self.old.modules;
        } }

        // Any two version words are far apart.
        ensures words_apart { VersionWordsAreApart }

        // The codewords and remainder bits of each version fill its free places.
        ensures free { FreePlacesAreFilled }
    {
        laws::words();
        laws::free_places();
        draw_patterns(self.version, &mut self.modules);
    }

    /// Draws codewords into the empty modules, in the order of the standard's walk (ISO/IEC
    /// 18004:2006, 6.7.3): first `bytes`, the data, then `ec`, the error correction. Of the last
    /// data byte, only the high half is drawn if the version and level have a half codeword. Bits
    /// that find no empty module are dropped.
    pub fn draw_data(&mut self, bytes: &[u8], ec: &[u8])
        ensures after { self.new ≡ record self.old {
          modules = with_bits_drawn self.old.version
              (drawn_bits self.old.version self.old.level bytes.now ec.now) self.old.modules;
        } }

        // Drawn over the patterns of a new canvas, they form a square of the codewords under each
        // mask.
        ensures carries { CarriesAll self.old bytes.now ec.now self.new }
    {
        let codewords = Codewords::new(self.version, self.ec_level, bytes, ec);
        draw_codewords(self.version, codewords, &mut self.modules);
    }

    /// Masks every module, then draws the format word and the dark module.
    pub fn apply_mask(&mut self, mask: MaskPattern)
        requires exists { IsTrue (has_level self.old.version self.old.level) }
        requires mask_exists { IsTrue (exists_in self.old.version mask) }
        ensures after { self.new ≡ record self.old {
          modules = with_mask self.old.version self.old.level mask self.old.modules;
        } }

        // Format words that name different things are far apart.
        ensures words_apart { FormatWordsAreApart }
    {
        laws::words();
        mask_modules(self.version, self.ec_level, mask, &mut self.modules);
    }

    /// Returns a canvas under the first mask with the lowest penalty (ISO/IEC 18004:2006, 6.8.3,
    /// but with the balance of dark modules counted as the Rust crate does). The format word of
    /// each mask is counted too.
    ///
    /// Errors: only `OutOfMemory`.
    pub fn apply_best_mask(&self, alloc: Global) -> QrResult<Self>
        requires { IsTrue (has_level self.now.version self.now.level) }
        ensures version { IfOk result (λ best. best.version ≡ self.now.version) }
        ensures level { IfOk result (λ best. best.level ≡ self.now.level) }
        ensures masked { IfOk result (λ best.
            IsBestMasked self.now.version self.now.level self.now.modules best.modules) }
        ensures memory { IsOkUnless result OutOfMemory }

        // Format words that name different things are far apart.
        ensures words_apart { FormatWordsAreApart }
    {
        let colors = self.best_colors(alloc)?;
        let modules = finished(alloc, &colors)?;
        Ok(Canvas {
            version: self.version,
            ec_level: self.ec_level,
            modules,
        })
    }

    /// Returns the colours of `apply_best_mask`, row by row.
    ///
    /// Errors: only `OutOfMemory`.
    pub fn best_colors(&self, alloc: Global) -> QrResult<Vec<Color>>
        requires { IsTrue (has_level self.now.version self.now.level) }
        ensures best { IfOk result (λ colors.
            AreBestColors self.now.version self.now.level self.now.modules colors.items) }
        ensures memory { IsOkUnless result OutOfMemory }

        // Format words that name different things are far apart.
        ensures words_apart { FormatWordsAreApart }
    {
        laws::words();
        self.clone()?.into_best_colors(alloc)
    }

    /// Returns the same colours as `best_colors`, but frees the canvas before it writes them, which
    /// takes less memory.
    ///
    /// Errors: only `OutOfMemory`.
    pub fn into_best_colors(self, alloc: Global) -> QrResult<Vec<Color>>
        requires { IsTrue (has_level self.version self.level) }
        ensures best { IfOk result (λ colors.
            AreBestColors self.version self.level self.modules colors.items) }
        ensures memory { IsOkUnless result OutOfMemory }

        // Format words that name different things are far apart.
        ensures words_apart { FormatWordsAreApart }
    {
        laws::words();
        masking::best_colors(alloc, self.version, self.ec_level, self.modules)
    }

    /// Returns whether each module is dark, row by row.
    ///
    /// Errors: only `OutOfMemory`.
    pub fn to_bools(&self, alloc: Global) -> QrResult<Vec<bool>>
        ensures value { IfOk result (λ bools.
            bools.items ≡ map (λ m. is_dark (color_of_module m)) self.now.modules) }
        ensures memory { IsOkUnless result OutOfMemory }
    {
        Ok(self.modules.iter().map(|m| m.is_dark()).collect(alloc)?)
    }

    /// Returns the colour of each module, row by row.
    ///
    /// Errors: only `OutOfMemory`.
    pub fn into_colors(self, alloc: Global) -> QrResult<Vec<Color>>
        ensures value { IfOk result (λ colors. colors.items ≡ colors_of self.modules) }
        ensures memory { IsOkUnless result OutOfMemory }
    {
        Ok(self.modules.iter().map(|m| Color::from(*m)).collect(alloc)?)
    }
}

/// Returns the colours of a symbol with these codewords, row by row, under the first mask with the
/// lowest penalty.
///
/// Errors: only `OutOfMemory`.
pub fn drawn_colors(
    alloc: Global,
    version: Version,
    ec_level: EcLevel,
    bytes: &[u8],
    ec: &[u8],
) -> QrResult<Vec<Color>>
    requires { IsTrue (has_level version ec_level) }
    ensures best { IfOk result (λ colors. AreBestColors version ec_level
        (drawn_modules version ec_level bytes.now ec.now) colors.items) }
    ensures memory { IsOkUnless result OutOfMemory }

    // Under each mask, they carry the codewords.
    ensures carries { AreCarried version ec_level bytes.now ec.now }
{
    let mut canvas = Canvas::new(alloc, version, ec_level)?;
    canvas.draw_all_functional_patterns();
    canvas.draw_data(bytes, ec);
    canvas.into_best_colors(alloc)
}

// Returns whether a functional pattern or the format word covers column `x` and row `y`.
fn is_functional_at(version: Version, x: usize, y: usize) -> bool
    requires valid { IsTrue (is_valid version) }
    requires column { x < side version }
    requires row { y < side version }
    ensures place { result ≡ is_functional_place version x y }
    ensures drawn { IsTrue result ↔ IsDrawn version x y }
{
    is_functional_place(version, side(version), x, y)
}

/// Returns whether a functional pattern or the format word covers the module in column `x` and row
/// `y` of `version`, both from `-width` to `width - 1`. Negative coordinates count from the far
/// side.
pub fn is_functional(version: Version, width: i16, x: i16, y: i16) -> bool
    requires valid { IsTrue (is_valid version) }
    requires width { width ≡ pos (side version) }
    requires inside { IsOnCanvas version x y }
    ensures place { result
        ≡ is_functional_place version (wrapped (side version) x) (wrapped (side version) y) }

    // On a new canvas, these are the modules that are no longer empty once the patterns are drawn.
    ensures drawn { IsTrue result
        ↔ IsDrawn version (wrapped (side version) x) (wrapped (side version) y) }
{
    is_functional_at(version, wrapped(width, x), wrapped(width, y))
}

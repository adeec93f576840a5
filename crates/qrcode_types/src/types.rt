//! Errors, colours, error correction levels, versions and modes.

ghost use Rattle.std.specs.Prelude.{◌≡◌, ℕ, ◌<◌, ◌≤◌, ◌↔◌, pos, nat_abs, false, length, List, Some, IsTrue, IfOk, refl};
ghost use Rattle.std.specs.Cmp.{partial_order_from_own_ties};
ghost use Rattle.std.specs.Ordering.{nat_cmp};
ghost use Rattle.qrcode_types.specs.Errors.{error_text};
ghost use Rattle.qrcode_types.specs.Colors.{opposite, select_of};
ghost use Rattle.qrcode_types.specs.Versions.{is_valid, is_micro, side, row_of, level_number, has_level, level_count};
ghost use Rattle.qrcode_types.specs.Fetching.{IsEntry, IsFetched};
ghost use Rattle.qrcode_types.specs.Modes.{by_band, mode_bits_count, length_bits_count, data_bits_count, CountsFit, mode_order, mode_max, IsLeastUpperBound};
ghost use Rattle.qrcode_types.specs.ModeLaws.{mode_laws, mode_ties};
ghost use Rattle.qrcode_types.specs.Bits.{AreBytes};
ghost use Rattle.qrcode_types.specs.Characters.{can_write};
ghost use Rattle.qrcode_types.specs.declared.types.QrError.TheVariants.{OutOfMemory};
ghost use Rattle.qrcode_types.specs.declared.types.EcLevel.{EcLevel};
ghost use Rattle.qrcode_types.specs.declared.types.Version.TheVariants.{Normal, Micro};
ghost use Rattle.qrcode_types.specs.declared.types.Mode.{Mode};

use crate::tables::Blocks;
use std::alloc::{AllocError, AllocFailed};
use std::cmp::Ordering;
use std::error::Error;
use std::fmt;
use std::ops::Not;

/// Why a call failed.
#[derive(Debug, PartialEq, Eq, Copy, Clone)]
pub enum QrError {
    /// The data is too long for the symbol, for a length field, for a list of bits, or for the
    /// limit of 1,048,576 bytes.
    DataTooLong,
    /// There is no such version, or it lacks the level.
    InvalidVersion,
    /// The version lacks a mode that the data needs, or the header before it: an ECI designator,
    /// FNC1 or structured append.
    UnsupportedCharacterSet,
    /// The ECI designator is 1,000,000 or more.
    InvalidEciDesignator,
    /// The mode cannot write a byte of the data.
    InvalidCharacter,
    /// Memory ran out.
    OutOfMemory,
}

impl QrError {
    // Returns the message that `Display` writes.
    fn text(&self) -> &'static str
        ensures { result.now ≡ error_text self.now }
    {
        match self {
            QrError::DataTooLong => "data too long",
            QrError::InvalidVersion => "invalid version",
            QrError::UnsupportedCharacterSet => "unsupported character set",
            QrError::InvalidEciDesignator => "invalid ECI designator",
            QrError::InvalidCharacter => "invalid character",
            QrError::OutOfMemory => "out of memory",
        }
    }
}

/// The result of a call that can fail with a `QrError`.
pub type QrResult<T> = Result<T, QrError>;

impl fmt::Display for QrError {
    ghost output = { λ e. Some (error_text e) };

    // Width, fill and precision have no effect.
    ghost styled_output = { λ e _. Some (error_text e) };

    fn fmt<W: fmt::Write>(&self, f: &mut fmt::Formatter<W>) -> fmt::Result {
        f.write_str(self.text())
    }
}

impl Error for QrError {}

impl From<AllocError> for QrError {
    ghost from_gives = { λ _ e. e ≡ OutOfMemory };

    fn from(_error: AllocError) -> QrError {
        QrError::OutOfMemory
    }
}

impl<T: Drop> From<AllocFailed<T>> for QrError {
    ghost from_gives = { λ _ e. e ≡ OutOfMemory };

    fn from(_error: AllocFailed<T>) -> QrError {
        QrError::OutOfMemory
    }
}

/// The colour of a module.
#[derive(Copy, Clone, PartialEq, Eq, Hash, Debug)]
pub enum Color {
    /// A light module: bit 0.
    Light,
    /// A dark module: bit 1.
    Dark,
}

impl Color {
    /// Returns `dark` for `Dark`, and `light` for `Light`.
    pub fn select<T: Drop>(self, dark: T, light: T) -> T
        ensures { result ≡ select_of self dark light }
    {
        match self {
            Color::Light => light,
            Color::Dark => dark,
        }
    }
}

impl Not for Color {
    type Output = Color;

    // The opposite colour; the opposite of that is the colour itself.
    ghost not_gives = { λ c other. (other ≡ opposite c) × (opposite other ≡ c) };

    fn not(self) -> Color {
        self.select(Color::Light, Color::Dark)
    }
}

/// An error correction level. Levels are ordered from the lowest correction to the highest.
#[derive(Copy, Clone, PartialEq, Eq, PartialOrd, Ord, Debug)]
pub enum EcLevel {
    /// Low: about 7 % of the codewords can be restored.
    L,
    /// Medium: about 15 %.
    M,
    /// Quartile: about 25 %.
    Q,
    /// High: about 30 %.
    H,
}

impl EcLevel {
    /// Returns the number of the level: 0 to 3 for L, M, Q, H. Levels compare as their numbers do.
    pub fn number(self) -> usize
        ensures value { result ≡ level_number self }
        ensures equal { (other : EcLevel)
            → IsTrue (⟦<EcLevel as PartialEq>⟧.eq self other) ↔ (self ≡ other) }
        ensures order { (other : EcLevel)
            → ⟦<EcLevel as Ord>⟧.cmp self other ≡ nat_cmp result (level_number other) }
        ensures partial_order { (other : EcLevel)
            → ⟦<EcLevel as PartialOrd>⟧.partial_cmp self other
            ≡ Some (nat_cmp result (level_number other)) }
    {
        self as usize
    }
}

/// The version of a symbol, which determines its size: `Normal` 1 to 40 or `Micro` 1 to 4.
#[derive(Copy, Clone, PartialEq, Eq, Debug)]
pub enum Version {
    /// A QR code of this version, 1 to 40.
    Normal(i16),
    /// A Micro QR code of this version, 1 to 4.
    Micro(i16),
}

impl Version {
    /// Returns whether this version exists.
    pub fn is_valid(self) -> bool
        ensures { result ≡ is_valid self }
    {
        match self {
            Version::Normal(v) => 1 <= v && v <= 40,
            Version::Micro(v) => 1 <= v && v <= 4,
        }
    }

    /// Returns whether this is a Micro version.
    pub fn is_micro(self) -> bool
        ensures { result ≡ is_micro self }
    {
        matches!(self, Version::Micro(_))
    }

    /// Returns whether this version exists and has the level.
    pub fn has_level(self, ec_level: EcLevel) -> bool
        ensures value { result ≡ has_level self ec_level }

        // There are 168 pairs of a version and a level that it has.
        ensures levels { level_count ≡ 168 }
    {
        Blocks::of(self, ec_level).is_some()
    }

    /// Returns the number of modules along a side, without the quiet zone. The version must exist.
    pub fn width(self) -> i16
        requires { IsTrue (is_valid self) }
        ensures { result ≡ pos (side self) }
    {
        match self {
            Version::Normal(v) => v * 4 + 17,
            Version::Micro(v) => v * 2 + 9,
        }
    }

    // Returns the row of this version in a table with a row for each: Normal 1 to 40, then Micro 1
    // to 4.
    pub(crate) fn row(self) -> usize
        requires { IsTrue (is_valid self) }
        ensures value { result ≡ row_of self }
        ensures at_most { result < 44 }
    {
        match self {
            Version::Normal(v) => (v - 1) as usize,
            Version::Micro(v) => (v + 39) as usize,
        }
    }

    /// Looks up this version and `ec_level` in `table`. The table has one row for each of the 44
    /// versions, Normal 1 to 40 and then Micro 1 to 4, and in each row an entry for L, M, Q and H.
    ///
    /// Errors: `InvalidVersion` if there is no such version, or if the entry equals `T::default()`.
    pub fn fetch<T: PartialEq + Default + Copy>(
        self,
        ec_level: EcLevel,
        table: &[[T; 4]],
    ) -> QrResult<T>
        requires { length table.now ≡ 44 }
        ensures value { IsTrue (is_valid self)
            → IsFetched T.is_default T.eq table.now self ec_level result }
        ensures no_version { is_valid self ≡ false → result ≡ Err QrError.InvalidVersion }
        ensures entry { IfOk result (IsEntry table.now self ec_level) }
    {
        if !self.is_valid() {
            return Err(QrError::InvalidVersion);
        }
        let entry = table[self.row()][ec_level.number()];
        if entry == T::default() {
            return Err(QrError::InvalidVersion);
        }
        Ok(entry)
    }

    /// Returns the number of bits in a mode indicator. The version must exist.
    pub fn mode_bits_count(self) -> usize
        requires { IsTrue (is_valid self) }
        ensures { result ≡ mode_bits_count self }
    {
        match self {
            Version::Normal(_) => 4,
            Version::Micro(v) => (v - 1) as usize,
        }
    }
}

/// How characters are encoded as bits.
#[derive(Copy, Clone, PartialEq, Eq, Debug)]
pub enum Mode {
    /// Digits.
    Numeric,
    /// Digits, capital letters and nine other characters.
    Alphanumeric,
    /// Any bytes.
    Byte,
    /// Pairs of bytes in Shift JIS.
    Kanji,
}

impl Mode {
    /// Returns the number of bits in the length field (character count indicator) before characters
    /// in this mode. The version must exist.
    pub fn length_bits_count(self, version: Version) -> usize
        requires { IsTrue (is_valid version) }
        ensures value { result ≡ length_bits_count self version }
        ensures counts { (mode : Mode) → CountsFit mode version }
    {
        match version {
            Version::Normal(number) => self.normal_length_bits(number),
            Version::Micro(number) => self.micro_length_bits(number),
        }
    }

    // Returns the length of the field in Normal version `number`.
    fn normal_length_bits(self, number: i16) -> usize
        requires { IsTrue (is_valid (Normal number)) }
        ensures { result ≡ length_bits_count self (Normal number) }
    {
        match self {
            Mode::Numeric => by_band(number, 10, 12, 14),
            Mode::Alphanumeric => by_band(number, 9, 11, 13),
            Mode::Byte => by_band(number, 8, 16, 16),
            Mode::Kanji => by_band(number, 8, 10, 12),
        }
    }

    // Returns the length of the field in Micro version `number`.
    fn micro_length_bits(self, number: i16) -> usize
        requires { IsTrue (is_valid (Micro number)) }
        ensures { result ≡ length_bits_count self (Micro number) }
    {
        let number = number as usize;
        match self {
            Mode::Numeric => number + 2,
            Mode::Alphanumeric | Mode::Byte => number + 1,
            Mode::Kanji => number,
        }
    }

    /// Returns how many bits `raw_data_len` characters take in this mode, at most 134,217,728
    /// characters. In Kanji mode a character is a pair of bytes.
    pub fn data_bits_count(self, raw_data_len: usize) -> usize
        requires { raw_data_len ≤ 134217728 }
        ensures { result ≡ data_bits_count self raw_data_len }
    {
        match self {
            Mode::Numeric => (raw_data_len * 10 + 2) / 3,
            Mode::Alphanumeric => (raw_data_len * 11 + 1) / 2,
            Mode::Byte => raw_data_len * 8,
            Mode::Kanji => raw_data_len * 13,
        }
    }

    /// Returns the smallest mode that can write whatever either of the two can: their least upper
    /// bound.
    pub fn max(self, other: Self) -> Self
        ensures value { result ≡ mode_max self other }
        ensures least_upper_bound { IsLeastUpperBound self other result }
        ensures commutes { result ≡ mode_max other self }
        ensures associates { (third : Mode)
            → mode_max result third ≡ mode_max self (mode_max other third) }
        ensures same { self ≡ other → result ≡ self }

        // The result can write whatever either mode can.
        ensures writes_first { (bytes : List ℕ)
            → AreBytes bytes → IsTrue (can_write self bytes) → IsTrue (can_write result bytes) }
        ensures writes_second { (bytes : List ℕ)
            → AreBytes bytes → IsTrue (can_write other bytes) → IsTrue (can_write result bytes) }
    {
        if self <= other {
            other
        } else if other <= self {
            self
        } else {
            Mode::Byte
        }
    }
}

/// A mode is less than another that can write everything it can, and more: `Numeric` <
/// `Alphanumeric` < `Byte`, and `Kanji` < `Byte`.
impl PartialOrd for Mode {
    ghost partial_cmp = { mode_order };

    ghost laws = { partial_order_from_own_ties mode_laws (mode_ties _ refl) };

    fn partial_cmp(&self, other: &Mode) -> Option<Ordering> {
        match (*self, *other) {
            (a, b) if a == b => Some(Ordering::Equal),
            (_, Mode::Byte) | (Mode::Numeric, Mode::Alphanumeric) => Some(Ordering::Less),
            (Mode::Byte, _) | (Mode::Alphanumeric, Mode::Numeric) => Some(Ordering::Greater),
            _ => None,
        }
    }
}

// Selects a number for Normal 1 to 9, 10 to 26, or 27 to 40.
fn by_band(number: i16, small: usize, middle: usize, large: usize) -> usize
    requires { IsTrue (is_valid (Normal number)) }
    ensures { result ≡ by_band (nat_abs number) small middle large }
{
    if number <= 9 {
        small
    } else if number <= 26 {
        middle
    } else {
        large
    }
}

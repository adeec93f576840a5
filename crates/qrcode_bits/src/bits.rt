//! Writes segments into a list of bits, and ends it with terminator and padding.

ghost use Rattle.std.specs.Prelude.{◌≡◌, ℕ, false, ◌+◌, ◌<◌, ◌≤◌, ◌^◌, ◌==◌, [], ◌++◌, length, slice_range, flat_map, replicate, unwrap_or, List, Some, None, Ok, Err, is_ok, IsTrue, IfOk, IfErr, OnOk, if◌then◌else◌};
ghost use Rattle.std.specs.List.{AllByRecursion};
ghost use Rattle.std.specs.Iterator.{IsFinite, HoldsAlong, Drains, Yields};
ghost use Rattle.std.specs.Option.{option_map};
ghost use Rattle.qrcode_types.specs.Bits.{number_bits, bits_of};
ghost use Rattle.qrcode_types.specs.Versions as versions;
ghost use Rattle.qrcode_types.specs.Modes.{mode_bits_count};
ghost use Rattle.qrcode_types.specs.declared.types.EcLevel.{EcLevel};
ghost use Rattle.qrcode_types.specs.declared.types.QrError.TheVariants.{DataTooLong, InvalidVersion, UnsupportedCharacterSet};
ghost use Rattle.qrcode_bits.specs.Segments.{cost_of, AreInside};
ghost use Rattle.qrcode_types.specs.Characters.{character_count};
ghost use Rattle.qrcode_bits.specs.Written.{Piece, written, written_piece, pieces_of, terminated, eci_bits};
ghost use Rattle.qrcode_bits.specs.Spelling.{IsReadBack, SpellsOnly};
ghost use Rattle.qrcode_bits.specs.Refusals.{bit_limit, piece_refusal, count_refusal, append_refusal, indicator_bits, eci_refusal, terminator_refusal, StopsAtLast};
ghost use Rattle.qrcode_bits.specs.declared.optimize.Segment.{Segment};
ghost use Rattle.qrcode_bits.specs.Pushes.{Changes, Appends, PushesPiece, PushesAll};

use crate::optimize::Segment;
use qrcode_types::characters::character_count;
use qrcode_types::modes::{has_mode, indicator};
use qrcode_types::tables::{self, Blocks};
use qrcode_types::types::{EcLevel, Mode, QrError, QrResult, Version};
use qrcode_types::versions::terminator_length;
use std::alloc::Global;
use std::marker::Model;

mod automatic;
mod choice;
mod cuts;
mod ending;
mod manner;
mod optimal;
mod several;
mod stream;
mod text;
mod written;

pub use automatic::{encode_auto, encode_boosted, encode_from, encode_in, highest_level};
use ending::push_ending;
pub use manner::Manner;
pub use optimal::DATA_LIMIT;
use stream::Stream;
use written::{may_write, push_written};

// The largest number of bits in a list.
const BIT_LIMIT: usize = 16_777_216;

/// The bits of a symbol of some version, to which segments are appended. A push that fails leaves
/// the list unchanged; a push of several segments keeps those before the one that failed.
#[derive(Drop)]
pub struct Bits {
    version: Version,
    stream: Stream,
}

impl Model for Bits {
    ghost use Rattle.std.specs.Prelude.{◌≤◌, length, IsTrue};
    ghost use Rattle.qrcode_types.specs.Versions.{is_valid};
    ghost use Rattle.qrcode_bits.specs.BitList.{BitList};
    ghost use Rattle.qrcode_bits.specs.Refusals.{bit_limit};

    ghost Value = { BitList };

    ghost view = { λ b. record { version = b.version; bits = b.stream.bits } };

    ghost invariant = { λ b. IsTrue (is_valid b.version) × (length b.stream.bits ≤ bit_limit) };
}

/// What comes after a mode indicator.
#[derive(Copy, Clone)]
pub enum ExtendedMode {
    /// An ECI designator, which names a character set.
    Eci,
    /// Data in this mode.
    Data(Mode),
    /// Data with FNC1 in the first position.
    Fnc1First,
    /// Data with FNC1 in the second position.
    Fnc1Second,
    /// The header of a symbol that is one of several.
    StructuredAppend,
}

impl Bits {
    /// Creates an empty list. It allocates nothing yet.
    pub fn new(alloc: Global, version: Version) -> Self
        requires { IsTrue (versions.is_valid version) }
        ensures empty { result ≡ record { version = version; bits = [] } }

        // A list can hold the bits of every symbol.
        ensures room { (level : EcLevel) → versions.capacity version level ≤ bit_limit }
    {
        Bits {
            version,
            stream: Stream::new(alloc, symbol_room(version)),
        }
    }

    /// Returns the number of bits.
    pub fn len(&self) -> usize
        ensures value { result ≡ length self.now.bits }
        ensures at_most { result ≤ 16777216 }
    {
        self.stream.len()
    }

    /// Returns whether the list has no bits.
    pub fn is_empty(&self) -> bool
        ensures { result ≡ (length self.now.bits == 0) }
    {
        self.len() == 0
    }

    /// Returns the version of the symbol.
    pub fn version(&self) -> Version
        ensures value { result ≡ self.now.version }
        ensures valid { IsTrue (versions.is_valid result) }
    {
        self.version
    }

    /// Returns how many bits a symbol of the version holds at level `ec_level`.
    ///
    /// Errors: `InvalidVersion` if the version lacks the level.
    pub fn max_len(&self, ec_level: EcLevel) -> QrResult<usize>
        ensures exists { is_ok result ≡ versions.has_level self.now.version ec_level }
        ensures value { IfOk result (λ bits. bits ≡ versions.capacity self.now.version ec_level) }
        ensures no_level { IfErr result (λ e. e ≡ QrError.InvalidVersion) }
        ensures at_most { IfOk result (λ bits. bits ≤ 23648) }
    {
        tables::capacity(self.version, ec_level).ok_or(QrError::InvalidVersion)
    }

    /// Packs the bits into bytes, the first bit highest, and fills the last byte with zeros.
    pub fn into_bytes(self) -> Vec<u8>
        ensures { (zeros : ℕ) × (zeros < 8)
            × (bits_of result.items ≡ self.bits ++ replicate zeros false) }
    {
        self.stream.into_bytes()
    }

    /// Appends a mode indicator (ISO/IEC 18004:2006, 6.4.1).
    ///
    /// Errors, the first that applies: `UnsupportedCharacterSet` if the version has no such
    /// indicator; `DataTooLong` if the list would exceed 16,777,216 bits; `OutOfMemory` if memory
    /// runs out.
    pub fn push_mode_indicator(&mut self, mode: ExtendedMode) -> QrResult<()>
        ensures { Appends
            (append_refusal (length self.old.bits) (indicator_bits self.old.version mode))
            (unwrap_or (indicator_bits self.old.version mode) []) self.old self.new result }
    {
        let number = extended_indicator(self.version, mode)?;
        self.push_number(self.version.mode_bits_count() as u32, number)
    }

    /// Appends the mode indicator of ECI and the designator of a character set (ISO/IEC 18004:2006,
    /// 6.4.2).
    ///
    /// Errors, the first that applies: `UnsupportedCharacterSet` in Micro versions;
    /// `InvalidEciDesignator` if the designator is 1,000,000 or more; `DataTooLong` if the list
    /// would exceed 16,777,216 bits; `OutOfMemory` if memory runs out.
    pub fn push_eci_designator(&mut self, eci_designator: u32) -> QrResult<()>
        ensures { Appends (eci_refusal self.old.version (length self.old.bits) eci_designator)
            (number_bits 4 7 ++ eci_bits eci_designator) self.old self.new result }
    {
        if self.version.is_micro() {
            return Err(QrError::UnsupportedCharacterSet);
        }

        // The indicator 0111, and then 0, 10 or 110 before the designator.
        if eci_designator <= 127 {
            self.push_number(12, (0b0111 << 8) + eci_designator)
        } else if eci_designator <= 16_383 {
            self.push_number(20, (0b0111_10 << 14) + eci_designator)
        } else if eci_designator <= 999_999 {
            self.push_number(28, (0b0111_110 << 21) + eci_designator)
        } else {
            Err(QrError::InvalidEciDesignator)
        }
    }

    /// Appends a segment of digits (ISO/IEC 18004:2006, 6.4.3).
    ///
    /// Errors, the first that applies: `DataTooLong` if the length field is too small, or the list
    /// would exceed 16,777,216 bits; `InvalidCharacter` if a byte is not a digit; `OutOfMemory` if
    /// memory runs out.
    pub fn push_numeric_data(&mut self, bytes: &[u8]) -> QrResult<()>
        ensures { PushesPiece Mode.Numeric bytes.now self.old self.new result }
    {
        self.push_piece(Mode::Numeric, bytes)
    }

    /// Appends an alphanumeric segment: digits, capital letters, space and `$%*+-./:` (ISO/IEC
    /// 18004:2006, 6.4.4). Any other byte is written like `0`.
    ///
    /// Errors, the first that applies: `UnsupportedCharacterSet` if the version lacks the mode;
    /// `DataTooLong` if the length field is too small, or the list would exceed 16,777,216 bits;
    /// `OutOfMemory` if memory runs out.
    pub fn push_alphanumeric_data(&mut self, bytes: &[u8]) -> QrResult<()>
        ensures { PushesPiece Mode.Alphanumeric bytes.now self.old self.new result }
    {
        self.push_piece(Mode::Alphanumeric, bytes)
    }

    /// Appends a segment of bytes (ISO/IEC 18004:2006, 6.4.5).
    ///
    /// Errors, the first that applies: `UnsupportedCharacterSet` if the version lacks the mode;
    /// `DataTooLong` if the length field is too small, or the list would exceed 16,777,216 bits;
    /// `OutOfMemory` if memory runs out.
    pub fn push_byte_data(&mut self, bytes: &[u8]) -> QrResult<()>
        ensures { PushesPiece Mode.Byte bytes.now self.old self.new result }
    {
        self.push_piece(Mode::Byte, bytes)
    }

    /// Appends a Kanji segment: pairs of bytes in Shift JIS (ISO/IEC 18004:2006, 6.4.6).
    ///
    /// Errors, the first that applies: `UnsupportedCharacterSet` if the version lacks the mode;
    /// `DataTooLong` if the length field is too small for the pairs, or the list would exceed
    /// 16,777,216 bits; `InvalidCharacter` if the bytes are not pairs that the mode can write;
    /// `OutOfMemory` if memory runs out.
    pub fn push_kanji_data(&mut self, bytes: &[u8]) -> QrResult<()>
        ensures { PushesPiece Mode.Kanji bytes.now self.old self.new result }
    {
        self.push_piece(Mode::Kanji, bytes)
    }

    /// Appends the mode indicator of FNC1 in the first position, as GS1 data needs it (ISO/IEC
    /// 18004:2006, 6.4.8.1).
    ///
    /// Errors, the first that applies: `UnsupportedCharacterSet` in Micro versions; `DataTooLong`
    /// if the list would exceed 16,777,216 bits; `OutOfMemory` if memory runs out.
    pub fn push_fnc1_first_position(&mut self) -> QrResult<()>
        ensures { Appends (append_refusal (length self.old.bits)
            (indicator_bits self.old.version ExtendedMode.Fnc1First))
            (number_bits 4 5) self.old self.new result }
    {
        self.push_mode_indicator(ExtendedMode::Fnc1First)
    }

    /// Appends the mode indicator of FNC1 in the second position and the application indicator, in
    /// eight bits (ISO/IEC 18004:2006, 6.4.8.2).
    ///
    /// Errors, the first that applies: `UnsupportedCharacterSet` in Micro versions; `DataTooLong`
    /// if the list would exceed 16,777,216 bits; `OutOfMemory` if memory runs out.
    pub fn push_fnc1_second_position(&mut self, application_indicator: u8) -> QrResult<()>
        ensures { Appends (append_refusal (length self.old.bits)
            (option_map (λ bits. bits ++ number_bits 8 application_indicator)
            (indicator_bits self.old.version ExtendedMode.Fnc1Second)))
            (number_bits 4 9 ++ number_bits 8 application_indicator)
            self.old self.new result }
    {
        if self.version.is_micro() {
            return Err(QrError::UnsupportedCharacterSet);
        }
        self.push_number(12, (0b1001 << 8) + u32::from(application_indicator))
    }

    /// Appends the terminator, and padding up to the capacity of a symbol at level `ec_level`
    /// (ISO/IEC 18004:2006, 6.4.9 and 6.4.10). A list that already fills the symbol stays as it is.
    /// Call this last, before `QrCode::with_bits`.
    ///
    /// Errors, the first that applies: `InvalidVersion` if the version lacks the level;
    /// `DataTooLong` if the list is longer than the symbol holds; `OutOfMemory` if memory runs out.
    pub fn push_terminator(&mut self, ec_level: EcLevel) -> QrResult<()>
        ensures ends { Changes
            (terminator_refusal self.old.version ec_level (length self.old.bits)) self.old
            (record self.old { bits = terminated self.old.version ec_level self.old.bits })
            self.new result }
        ensures full { OnOk result
            (length self.new.bits ≡ versions.capacity self.old.version ec_level) }

        // Segments that a reader accepts then decode to their bytes, and to no others.
        ensures spelled { (pieces : List Piece)
            → AllByRecursion (IsReadBack self.old.version) pieces
            → self.old.bits ≡ written self.old.version pieces
            → OnOk result
            (SpellsOnly self.new.version self.new.bits (flat_map (λ p. p.chunk) pieces)) }
    {
        let capacity = self.max_len(ec_level)?;
        let used = self.len();
        if used > capacity {
            return Err(QrError::DataTooLong);
        }
        self.stream.reserve(capacity - used)?;
        let terminator = terminator_length(self.version);
        push_ending(&mut self.stream, terminator, used, capacity);
        Ok(())
    }

    /// Appends the range of `bytes` of each segment, in the segment's mode. Ranges may be in any
    /// order, repeated or empty.
    ///
    /// Errors: that of the first segment that fails, `OutOfMemory` included; the segments before it
    /// stay in the list.
    pub fn push_segments<I: Iterator<Item = Segment> + Drop>(
        &mut self,
        bytes: &[u8],
        segments: I,
    ) -> QrResult<()>
        requires can { I.can_next segments }
        requires finite { IsFinite (I.remaining segments) }
        requires inside { HoldsAlong I.next_gives segments (AreInside (length bytes.now)) }
        ensures pushed { OnOk result ((given : List Segment) × (Drains I.next_gives segments given
            × PushesAll self.old.version self.old.bits bytes.now given self.new.bits)) }
        ensures stopped { IfErr result (λ e. (given : List Segment) × ((rest : I)
            × (Yields I.next_gives segments given rest
            × StopsAtLast self.old.version self.old.bits (pieces_of bytes.now given) e
            self.new.bits))) }
        ensures version { self.new.version ≡ self.old.version }
    {
        for segment in segments {
            self.push_segment(bytes, segment)?;
        }
        Ok(())
    }

    // Appends the range of a segment in its mode.
    fn push_segment(&mut self, bytes: &[u8], segment: Segment) -> QrResult<()>
        requires ordered { segment.begin ≤ segment.end }
        requires inside { segment.end ≤ length bytes.now }
        ensures { PushesPiece segment.mode (slice_range bytes.now segment.begin segment.end)
            self.old self.new result }
    {
        self.push_piece(segment.mode, &bytes[segment.begin..segment.end])
    }

    // Appends a number in `count` bits.
    fn push_number(&mut self, count: u32, number: u32) -> QrResult<()>
        requires at_most { count ≤ 32 }
        requires fits { number < 2 ^ count }
        ensures { Appends (append_refusal (length self.old.bits) (Some (number_bits count number)))
            (number_bits count number) self.old self.new result }
    {
        if self.len() + count as usize > BIT_LIMIT {
            return Err(QrError::DataTooLong);
        }
        self.stream.reserve(count as usize)?;
        self.stream.push_number(count, number);
        Ok(())
    }

    // Appends `bytes` in `mode`, with mode indicator and length field.
    fn push_piece(&mut self, mode: Mode, bytes: &[u8]) -> QrResult<()>
        ensures { PushesPiece mode bytes.now self.old self.new result }
    {
        let length = self.piece_length(mode, character_count(mode, bytes.len()))?;
        if !may_write(mode, bytes) {
            return Err(QrError::InvalidCharacter);
        }
        self.stream.reserve(length)?;
        push_written(&mut self.stream, self.version, mode, bytes);
        Ok(())
    }

    // Returns how many bits a segment of `count` characters takes, if it can be appended.
    fn piece_length(&self, mode: Mode, count: usize) -> QrResult<usize>
        ensures value { IfOk result (λ bits. (bits ≡ cost_of self.now.version mode count)
            × (count_refusal self.now.version (length self.now.bits) mode count ≡ None)) }
        ensures causes { IfErr result (λ e.
            count_refusal self.now.version (length self.now.bits) mode count ≡ Some e) }
    {
        if !has_mode(self.version, mode) {
            return Err(QrError::UnsupportedCharacterSet);
        }
        let length_bits = mode.length_bits_count(self.version);
        if count >= 1 << length_bits {
            return Err(QrError::DataTooLong);
        }
        let length = self.version.mode_bits_count() + length_bits + mode.data_bits_count(count);
        if self.len() + length > BIT_LIMIT {
            return Err(QrError::DataTooLong);
        }
        Ok(length)
    }
}

// Returns how many bytes a list allocates at first: enough for the codewords of a symbol, so that
// one allocation does.
fn symbol_room(version: Version) -> usize {
    let Some(blocks) = Blocks::of(version, EcLevel::L) else {
        return 0;
    };
    blocks
        .data_length()
        .saturating_add(blocks.total_ec_length())
        .saturating_add(10)
}

// Returns the value of a mode indicator.
fn extended_indicator(version: Version, mode: ExtendedMode) -> QrResult<u32>
    requires { IsTrue (versions.is_valid version) }
    ensures value { IfOk result (λ n. (indicator_bits version mode
        ≡ Some (number_bits (mode_bits_count version) n))
        × (n < 2 ^ mode_bits_count version)) }
    ensures causes { IfErr result (λ e. (e ≡ QrError.UnsupportedCharacterSet)
        × (indicator_bits version mode ≡ None)) }
{
    match mode {
        ExtendedMode::Data(mode) => {
            if !has_mode(version, mode) {
                return Err(QrError::UnsupportedCharacterSet);
            }
            Ok(indicator(version, mode))
        }
        ExtendedMode::Eci => only_normal(version, 0b0111),
        ExtendedMode::Fnc1First => only_normal(version, 0b0101),
        ExtendedMode::Fnc1Second => only_normal(version, 0b1001),
        ExtendedMode::StructuredAppend => only_normal(version, 0b0011),
    }
}

// Returns an indicator that Micro QR lacks.
fn only_normal(version: Version, number: u32) -> QrResult<u32>
    ensures { result
        ≡ (if versions.is_micro version then Err QrError.UnsupportedCharacterSet else Ok number) }
{
    if version.is_micro() {
        return Err(QrError::UnsupportedCharacterSet);
    }
    Ok(number)
}

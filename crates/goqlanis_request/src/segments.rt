//! Makes symbols of segments that the user chose.

ghost use Rattle.std.specs.Prelude.{◌≡◌, ◌⊎◌, Some, None, length, IsTrue, IfOk, IfErr, OnOk};
ghost use Rattle.std.specs.List.{position_from};
ghost use Rattle.qrcode_types.specs.Versions.{is_valid};
ghost use Rattle.qrcode_types.specs.declared.types.QrError.TheVariants.{OutOfMemory};
ghost use Rattle.qrcode_bits.specs.Pushes.{Appends, PushesPiece};
ghost use Rattle.goqlanis_request.specs.Segments.{first_of, is_unwritable, last_of, refusal_in, segment_bits, segment_refusal, HaveNoSymbol, IsLeastHeld, IsSymbolOfSegments};

use crate::request::Choice;
use qrcode::QrCode;
use qrcode::bits::Bits;
use qrcode::types::{EcLevel, Mode, QrError, QrResult, Version};
use qrcode_charsets::shortest::{rank, version_at};
use qrcode_types::characters::can_write;
use std::alloc::Global;

/// A segment, or the header of a character set.
#[derive(Clone, Copy)]
pub enum Segment<'a> {
    /// Bytes in a mode; in Kanji mode, pairs of bytes of Shift JIS. An empty segment is left out,
    /// since an empty Numeric segment looks like the terminator of Micro QR.
    Data(Mode, &'a [u8]),
    /// The number of a character set (ECI), at most 999,999, for the segments after it.
    CharacterSet(u32),
}

/// Returns the index of the first segment that its mode cannot write.
pub fn unwritable(segments: &[Segment<'_>]) -> Option<usize>
    ensures { result ≡ position_from is_unwritable 0 segments.now }
{
    segments.iter().position(|segment| is_unwritable(segment))
}

// Whether the mode of a segment cannot write its bytes.
fn is_unwritable(segment: &Segment<'_>) -> bool
    ensures { result ≡ is_unwritable segment.now }
{
    match *segment {
        Segment::Data(mode, bytes) => !can_write(mode, bytes),
        Segment::CharacterSet(_) => false,
    }
}

/// Encodes segments in order, at `level`, in the smallest version that `choice` allows and that
/// holds them. The level is kept, also with `Choice::Boosted`.
///
/// Errors: `InvalidVersion` if there is no such version as the choice names; `OutOfMemory` if
/// memory runs out. If no allowed version holds the segments, the error is that of the largest
/// allowed version. For the first segment that fails, the first cause that applies:
/// `InvalidCharacter` if its mode cannot write its bytes; `UnsupportedCharacterSet` if the version
/// lacks the mode, or ECI; `InvalidEciDesignator` if the number of a character set is above
/// 999,999; `DataTooLong` if it is too long for its length field, or the bits exceed 16,777,216. If
/// none fails: `InvalidVersion` if the version lacks the level; `DataTooLong` if the symbol has no
/// room.
pub fn symbol_of(
    alloc: Global,
    choice: Choice,
    level: EcLevel,
    segments: &[Segment<'_>],
) -> QrResult<QrCode>
    ensures version { IfOk result (λ code. IsLeastHeld choice level segments.now code.version) }
    ensures symbol { IfOk result (IsSymbolOfSegments level segments.now) }
    ensures causes { IfErr result (HaveNoSymbol choice level segments.now) }
{
    let first = first_of(choice);
    if !first.is_valid() {
        return Err(QrError::InvalidVersion);
    }
    let last = last_of(choice);
    for place in rank(first)..rank(last) {
        match in_version(alloc, version_at(place), level, segments) {
            Ok(code) => return Ok(code),
            Err(error) => match error {
                QrError::OutOfMemory => return Err(error),
                _ => {}
            },
        }
    }
    in_version(alloc, last, level, segments)
}

// The version that a choice names.
pub(crate) fn first_of(choice: Choice) -> Version
    ensures { result ≡ first_of choice }
{
    let (Choice::From(version) | Choice::Boosted(version) | Choice::At(version)) = choice;
    version
}

// The largest version that a choice allows.
pub(crate) fn last_of(choice: Choice) -> Version
    ensures { result ≡ last_of choice }
{
    match choice {
        Choice::From(_) | Choice::Boosted(_) => Version::Normal(40),
        Choice::At(version) => version,
    }
}

// Encodes segments in one version.
fn in_version(
    alloc: Global,
    version: Version,
    level: EcLevel,
    segments: &[Segment<'_>],
) -> QrResult<QrCode>
    requires { IsTrue (is_valid version) }
    ensures version { IfOk result (λ code. code.version ≡ version) }
    ensures holds { OnOk result (refusal_in version level segments.now ≡ None) }
    ensures symbol { IfOk result (IsSymbolOfSegments level segments.now) }
    ensures causes { IfErr result (λ e. (e ≡ OutOfMemory)
        ⊎ (refusal_in version level segments.now ≡ Some e)) }
{
    let mut bits = Bits::new(alloc, version);
    for segment in segments {
        push(&mut bits, segment)?;
    }
    bits.push_terminator(level)?;
    QrCode::with_bits(alloc, bits, level)
}

// Appends a segment, unless it is empty.
fn push(bits: &mut Bits, segment: &Segment<'_>) -> QrResult<()>
    ensures { Appends (segment_refusal bits.old.version (length bits.old.bits) segment.now)
        (segment_bits bits.old.version segment.now) bits.old bits.new result }
{
    match *segment {
        Segment::CharacterSet(number) => bits.push_eci_designator(number),
        Segment::Data(_, bytes) if bytes.is_empty() => Ok(()),
        Segment::Data(mode, bytes) if can_write(mode, bytes) => push_data(bits, mode, bytes),
        Segment::Data(_, _) => Err(QrError::InvalidCharacter),
    }
}

/// Appends bytes in a mode.
///
/// Errors: those of the method of `Bits` for this mode, `OutOfMemory` among them.
pub fn push_data(bits: &mut Bits, mode: Mode, bytes: &[u8]) -> QrResult<()>
    ensures { PushesPiece mode bytes.now bits.old bits.new result }
{
    match mode {
        Mode::Numeric => bits.push_numeric_data(bytes),
        Mode::Alphanumeric => bits.push_alphanumeric_data(bytes),
        Mode::Byte => bits.push_byte_data(bytes),
        Mode::Kanji => bits.push_kanji_data(bytes),
    }
}

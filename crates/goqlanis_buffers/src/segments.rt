//! Encodes segments whose modes the caller chooses, and headers.

ghost use Rattle.std.specs.Prelude.{◌≡◌, ◌⊎◌, ◌++◌, ◌≤◌, ℕ, [], length, Some, None, IfOk, IfErr, OnOk, IsTrue};
ghost use Rattle.qrcode_types.specs.Versions.{is_valid, has_level, capacity};
ghost use Rattle.goqlanis_buffers.specs.Answers.{IsSegmentsCause};
ghost use Rattle.goqlanis_buffers.specs.Calls.{TellsLeastOfSegments, WritesSegments};
ghost use Rattle.goqlanis_buffers.specs.Names.{level_named, version_named};
ghost use Rattle.goqlanis_buffers.specs.Segments.{kind_named, segment_bits, segment_refusal, written_segments, AreTaken, IsUnheldCause, IsFirstRefused, IsSymbolOfSegments};
ghost use Rattle.goqlanis_buffers.specs.declared.answers.Refusal.TheVariants.{OutOfMemory};

use crate::answers::Refusal;
use crate::names::{level_named, pair_named};
use crate::symbols::{Symbol, write_symbol};
use goqlanis_request::push_data;
use qrcode::QrCode;
use qrcode::bits::Bits;
use qrcode::types::{EcLevel, Mode, QrResult, Version};
use qrcode_types::characters::can_write;
use std::alloc::Global;

/// A segment: bytes in a mode, or a header for what follows.
#[repr(C)]
#[derive(Clone, Copy)]
pub struct Segment<'a> {
    /// The number of a `SegmentKind`.
    pub kind: u32,
    /// The ECI designator or application indicator; ignored for other kinds.
    pub number: u32,
    /// The bytes; ignored for headers.
    pub bytes: &'a [u8],
}

/// The kind of a segment.
#[derive(Clone, Copy)]
pub enum SegmentKind {
    /// Bytes in a mode. Without bytes the segment is left out, since an empty numeric segment is
    /// the terminator of Micro.
    Data(Mode),
    /// A header: the ECI designator of a character set, below 1,000,000.
    CharacterSet,
    /// A header: FNC1 in the first position.
    FirstPosition,
    /// A header: FNC1 in the second position, with an application indicator below 256.
    SecondPosition,
}

// The kind of a number: 0 for numeric, 1 for alphanumeric, 2 for bytes, 3 for Kanji, 4 for ECI, 5
// and 6 for FNC1 in the first and in the second position.
fn kind_named(number: u32) -> Option<SegmentKind>
    ensures value { result ≡ kind_named number }
{
    match number {
        0 => Some(SegmentKind::Data(Mode::Numeric)),
        1 => Some(SegmentKind::Data(Mode::Alphanumeric)),
        2 => Some(SegmentKind::Data(Mode::Byte)),
        3 => Some(SegmentKind::Data(Mode::Kanji)),
        4 => Some(SegmentKind::CharacterSet),
        5 => Some(SegmentKind::FirstPosition),
        6 => Some(SegmentKind::SecondPosition),
        _ => None,
    }
}

/// Encodes `segments`, one after the other, in the version and at the level of these numbers.
/// Writes the modules to the start of `modules`, and returns version, level and width.
///
/// Errors, the first that applies: `NoSuchLevel`, `NoSuchVersion`, `LevelNotInVersion`; for the
/// first segment with an error `NoSuchKind`, `NotInMode`, `NoMode`, `NoSuchNumber` (for FNC1 in the
/// second position before `NoMode`), `NoRoom`; then `NoRoom`, `SmallBuffer`; or `OutOfMemory`.
/// After an error `modules` is unchanged.
pub fn encode_segments(
    alloc: Global,
    segments: &[Segment<'_>],
    version: u32,
    level: u32,
    modules: &mut [u8],
) -> Result<Symbol, Refusal>
    ensures { WritesSegments version level segments.now modules.old modules.new result }
{
    let code = of_segments(alloc, segments, version, level)?;
    write_symbol(code, modules)
}

// Encodes segments in the version and at the level of these numbers.
fn of_segments(
    alloc: Global,
    segments: &[Segment<'_>],
    version: u32,
    level: u32,
) -> Result<QrCode, Refusal>
    ensures version { IfOk result (λ code. version_named version ≡ Some code.version) }
    ensures level { IfOk result (λ code. level_named level ≡ Some code.level) }
    ensures symbol { IfOk result (λ code.
        IsSymbolOfSegments code.version code.level segments.now code.modules) }
    ensures causes { (room : ℕ) → IfErr result (IsSegmentsCause version level segments.now room) }
{
    let (version, ec_level) = pair_named(version, level)?;
    let mut bits = Bits::new(alloc, version);
    push_all(&mut bits, segments)?;
    bits.push_terminator(ec_level)?;
    Ok(QrCode::with_bits(alloc, bits, ec_level)?)
}

/// Returns the number of the smallest Normal version that holds `segments` at the level numbered
/// `level`.
///
/// Errors: `NoSuchLevel`; for the first segment with an error `NoSuchKind`, `NotInMode`,
/// `NoSuchNumber`; `NoRoom`; or `OutOfMemory`.
pub fn smallest_version(alloc: Global, segments: &[Segment<'_>], level: u32) -> Result<u32, Refusal>
    ensures { TellsLeastOfSegments level segments.now result }
{
    let Some(ec_level) = level_named(level) else {
        return Err(Refusal::NoSuchLevel);
    };
    for number in 1..41 {
        match check_held(alloc, segments, Version::Normal(number as i16), ec_level) {
            Ok(()) => return Ok(number),
            Err(refusal) if refusal != Refusal::NoRoom => return Err(refusal),
            Err(_) => {}
        }
    }
    Err(Refusal::NoRoom)
}

// Checks that the version holds the segments at the level.
fn check_held(
    alloc: Global,
    segments: &[Segment<'_>],
    version: Version,
    ec_level: EcLevel,
) -> Result<(), Refusal>
    requires valid { IsTrue (is_valid version) }
    ensures exists { OnOk result (IsTrue (has_level version ec_level)) }
    ensures taken { OnOk result (AreTaken version segments.now (length segments.now)) }
    ensures room { OnOk result
        (length (written_segments version segments.now) ≤ capacity version ec_level) }
    ensures causes { IfErr result (IsUnheldCause version ec_level segments.now) }
{
    let mut bits = Bits::new(alloc, version);
    let room = bits.max_len(ec_level)?;
    push_all(&mut bits, segments)?;
    if bits.len() > room {
        return Err(Refusal::NoRoom);
    }
    Ok(())
}

// Appends segments in order to an empty list of bits.
fn push_all(bits: &mut Bits, segments: &[Segment<'_>]) -> Result<(), Refusal>
    requires empty { bits.old.bits ≡ [] }
    ensures version { bits.new.version ≡ bits.old.version }
    ensures written { OnOk result
        (bits.new.bits ≡ written_segments bits.old.version segments.now) }
    ensures taken { OnOk result (AreTaken bits.old.version segments.now (length segments.now)) }
    ensures refused { IfErr result (λ refusal. (refusal ≡ OutOfMemory)
        ⊎ IsFirstRefused bits.old.version segments.now refusal) }
{
    for i in 0..segments.len() {
        push(bits, &segments[i])?;
    }
    Ok(())
}

// Appends a segment; one of a mode without bytes is left out.
fn push(bits: &mut Bits, segment: &Segment<'_>) -> Result<(), Refusal>
    ensures version { bits.new.version ≡ bits.old.version }
    ensures appends { OnOk result (bits.new.bits
        ≡ bits.old.bits ++ segment_bits bits.old.version segment.now) }
    ensures taken { OnOk result
        (segment_refusal bits.old.version (length bits.old.bits) segment.now ≡ None) }
    ensures refused { IfErr result (λ refusal. (refusal ≡ OutOfMemory)
        ⊎ (segment_refusal bits.old.version (length bits.old.bits) segment.now ≡ Some refusal)) }
{
    match kind_named(segment.kind) {
        None => return Err(Refusal::NoSuchKind),
        Some(SegmentKind::Data(_)) if segment.bytes.is_empty() => {}
        Some(SegmentKind::Data(mode)) => {
            if !can_write(mode, segment.bytes) {
                return Err(Refusal::NotInMode);
            }
            push_data(bits, mode, segment.bytes)?;
        }
        Some(SegmentKind::CharacterSet) => bits.push_eci_designator(segment.number)?,
        Some(SegmentKind::FirstPosition) => bits.push_fnc1_first_position()?,
        Some(SegmentKind::SecondPosition) => {
            if segment.number > 255 {
                return Err(Refusal::NoSuchNumber);
            }
            bits.push_fnc1_second_position(segment.number as u8)?;
        }
    }
    Ok(())
}

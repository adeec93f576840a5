//! Decodes squares that may be rotated, mirrored or inverted.

ghost use Rattle.std.specs.Prelude.{◌≡◌, ◌≢◌, ◌*◌, ◌%◌, ◌<◌, ◌≤◌, ◌⊎◌, ℕ, Bool, List, length, IsTrue, IfOk, IfErr, IfSome, IfNone};
ghost use Rattle.qrcode_types.specs.Versions.{is_valid, side};
ghost use Rattle.qrcode.specs.Reading.{Reads};
ghost use Rattle.qrcode_reader.specs.Positions.{place_in_square, seen, seen_color, nth_position, turn, IsFirstReading, IsFirstPartsReading};
ghost use Rattle.qrcode_reader.specs.Readings.{ReadsParts, IsPartsCause};
ghost use Rattle.qrcode_reader.specs.declared.spell.parts.Part.{Part};
ghost use Rattle.qrcode_reader.specs.declared.positions.Position.{Position};
ghost use Rattle.qrcode_reader.specs.declared.refusals.Unread.TheVariants.{OutOfMemory};

use crate::figures::has_finders;
use crate::parts::{PartsReading, read_parts};
use crate::reading::{Reading, read};
use crate::refusals::Unread;
use crate::sizes::version_of;
use qrcode_types::types::{Color, Version};
use qrcode_types::versions::side;
use std::alloc::{AllocError, Global};

/// How a symbol lies in a square of modules.
#[derive(Debug, PartialEq, Eq, Copy, Clone)]
pub enum Position {
    /// As it was made.
    Upright,
    /// Rotated a quarter turn counterclockwise.
    TurnedLeft,
    /// Rotated a half turn.
    UpsideDown,
    /// Rotated a quarter turn clockwise.
    TurnedRight,
    /// Left and right swapped.
    Mirrored,
    /// Top and bottom swapped.
    Flipped,
    /// Columns and rows swapped: mirrored along the diagonal from the top left corner.
    Transposed,
    /// Mirrored along the diagonal from the top right corner.
    Antitransposed,
}

/// A square decoded to bytes, in the first position in which it does.
#[derive(Drop)]
pub struct AnyReading {
    /// How the symbol lies in the square.
    pub position: Position,
    /// Whether dark and light are swapped.
    pub is_inverted: bool,
    /// What the square decodes to.
    pub reading: Reading,
}

/// A square decoded to headers and segments, in the first position in which it does.
#[derive(Drop)]
pub struct AnyPartsReading {
    /// How the symbol lies in the square.
    pub position: Position,
    /// Whether dark and light are swapped.
    pub is_inverted: bool,
    /// What the square decodes to.
    pub reading: PartsReading,
}

// Maps a module of the symbol to its place in the square: column and row.
fn place_in_square(position: Position, side: usize, x: usize, y: usize) -> (usize, usize)
    requires column { x < side }
    requires row { y < side }
    ensures value { result ≡ place_in_square position side x y }
    ensures column { result.0 < side }
    ensures row { result.1 < side }
{
    match position {
        Position::Upright => (x, y),
        Position::TurnedLeft => (y, side - 1 - x),
        Position::UpsideDown => (side - 1 - x, side - 1 - y),
        Position::TurnedRight => (side - 1 - y, x),
        Position::Mirrored => (side - 1 - x, y),
        Position::Flipped => (x, side - 1 - y),
        Position::Transposed => (y, x),
        Position::Antitransposed => (side - 1 - y, side - 1 - x),
    }
}

// Returns `color`, or the other colour if dark and light are swapped.
fn seen_color(is_inverted: bool, color: Color) -> Color
    ensures { result ≡ seen_color is_inverted color }
{
    if is_inverted { !color } else { color }
}

/// Returns the upright symbol that lies in `position` in `modules`, a square of `side` by `side`;
/// with dark and light swapped if `is_inverted`.
///
/// Errors: only `AllocError`, if memory runs out.
pub fn seen(
    alloc: Global,
    side: usize,
    position: Position,
    is_inverted: bool,
    modules: &[Color],
) -> Result<Vec<Color>, AllocError>
    requires at_least { 1 ≤ side }
    requires at_most { side < 1000 }
    requires square { length modules.now ≡ side * side }
    ensures { IfOk result (λ colors. colors.items ≡ seen side position is_inverted modules.now) }
{
    let mut colors = Vec::with_capacity(alloc, side * side)?;
    for i in 0..side * side {
        let (column, row) = place_in_square(position, side, i % side, i / side);
        colors.push(seen_color(is_inverted, modules[row * side + column]))?;
    }
    Ok(colors)
}

// Numbers the positions: 0 to 7 in the order of `Position`, 8 to 15 the same inverted.
fn nth_position(number: usize) -> (Position, bool)
    requires { number < 16 }
    ensures { result ≡ nth_position number }
{
    let positions = [
        Position::Upright,
        Position::TurnedLeft,
        Position::UpsideDown,
        Position::TurnedRight,
        Position::Mirrored,
        Position::Flipped,
        Position::Transposed,
        Position::Antitransposed,
    ];
    (positions[number % 8], 8 <= number)
}

// A square seen in one position.
#[derive(Drop)]
struct View {
    position: Position,
    is_inverted: bool,
    modules: Vec<Color>,
}

// Returns the square in the position whose turn it is. Turns 0 to 15 are for positions in which the
// finder patterns are in place, 16 to 31 for the others, so one of the turns `n` and `n + 16` gives
// `None`.
fn view_at(
    alloc: Global,
    version: Version,
    modules: &[Color],
    at: usize,
) -> Result<Option<View>, AllocError>
    requires valid { IsTrue (is_valid version) }
    requires square { length modules.now ≡ side version * side version }
    requires turn { at < 32 }
    ensures position { IfOk result (λ found. IfSome found (λ view.
        nth_position (at % 16) ≡ (view.position, view.is_inverted))) }
    ensures seen { IfOk result (λ found. IfSome found (λ view.
        view.modules.items ≡ seen (side version) view.position view.is_inverted modules.now)) }
    ensures turn { IfOk result (λ found. IfSome found (λ view.
        turn version (side version) modules.now (at % 16) ≡ at)) }
    ensures none { IfOk result (λ found.
        IfNone found (turn version (side version) modules.now (at % 16) ≢ at)) }
{
    let (position, is_inverted) = nth_position(at % 16);
    let colors = seen(alloc, side(version), position, is_inverted, modules)?;
    if has_finders(version, &colors) != (at < 16) {
        return Ok(None);
    }
    Ok(Some(View {
        position,
        is_inverted,
        modules: colors,
    }))
}

// Whether memory ran out.
fn is_memory(error: Unread) -> bool
    ensures { error ≡ OutOfMemory → IsTrue result }
{
    matches!(error, Unread::OutOfMemory)
}

/// Decodes a square whose symbol may be rotated, mirrored or inverted, in the first position in
/// which it decodes to bytes. First come the positions with the finder patterns in place, at most
/// 16 modules of them and their separators being wrong; then the others. Within both, those with
/// the colours as they are come before inverted ones, in the order of `Position`.
///
/// Returns `None` if it decodes in no position.
///
/// Errors: only `AllocError`, if memory runs out.
pub fn read_any(alloc: Global, modules: &[Color]) -> Result<Option<AnyReading>, AllocError>
    ensures square { IfOk result (λ found. IfSome found (λ any. (side : ℕ)
        × (side * side ≡ length modules.now))) }
    ensures value { IfOk result (λ found. IfSome found (λ any. (side : ℕ)
        → side * side ≡ length modules.now → IsFirstReading side modules.now
        any.position any.is_inverted any.reading.version any.reading.ec_level
        any.reading.mask any.reading.data.items any.reading.wrong.items)) }
    ensures none { IfOk result (λ found. IfNone found ((side : ℕ)
        → side * side ≡ length modules.now
        → (position : Position) (is_inverted : Bool) (bytes : List ℕ)
        → ¬ Reads (seen side position is_inverted modules.now) bytes)) }
{
    let Some(version) = version_of(modules.len()) else {
        return Ok(None);
    };
    for at in 0..32 {
        if let Some(view) = view_at(alloc, version, modules, at)? {
            match read(alloc, &view.modules) {
                Ok(reading) => {
                    return Ok(Some(AnyReading {
                        position: view.position,
                        is_inverted: view.is_inverted,
                        reading,
                    }));
                }
                Err(error) => {
                    if is_memory(error) {
                        return Err(AllocError);
                    }
                }
            }
        }
    }
    Ok(None)
}

/// Decodes a square to headers and segments, in the first of the positions of `read_any` in which
/// it decodes to some.
///
/// Errors: that of `read_parts` for the square as given if there is no such position; `OutOfMemory`
/// if memory runs out.
pub fn read_any_parts(alloc: Global, modules: &[Color]) -> Result<AnyPartsReading, Unread>
    ensures square { IfOk result (λ any. (side : ℕ) × (side * side ≡ length modules.now)) }
    ensures value { IfOk result (λ any. (side : ℕ)
        → side * side ≡ length modules.now → IsFirstPartsReading side modules.now
        any.position any.is_inverted any.reading.version any.reading.ec_level any.reading.mask
        any.reading.parts.bytes.items any.reading.parts.parts.items any.reading.wrong.items) }
    ensures causes { IfErr result (λ e. (e ≡ OutOfMemory) ⊎ (IsPartsCause modules.now e
        × ((side : ℕ) → side * side ≡ length modules.now
        → (position : Position) (is_inverted : Bool) (bytes : List ℕ) (parts : List Part)
        → ¬ ReadsParts (seen side position is_inverted modules.now) bytes parts))) }
{
    let Some(version) = version_of(modules.len()) else {
        return Err(Unread::NoSuchSide);
    };
    let mut why = Unread::NoSuchSide;
    for at in 0..32 {
        if let Some(view) = view_at(alloc, version, modules, at)? {
            match read_parts(alloc, &view.modules) {
                Ok(reading) => {
                    return Ok(AnyPartsReading {
                        position: view.position,
                        is_inverted: view.is_inverted,
                        reading,
                    });
                }
                Err(error) => {
                    if is_memory(error) {
                        return Err(Unread::OutOfMemory);
                    }
                    if at % 16 == 0 {
                        why = error;
                    }
                }
            }
        }
    }
    Err(why)
}

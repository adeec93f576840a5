//! Finds and decodes all codes of a picture.

ghost use Rattle.std.specs.Prelude.{◌^◌, ◌+◌, ◌-◌, ◌/◌, ◌≡◌, ◌≤◌, ◌<◌, ◌⊎◌, ◌++◌, ◌∷◌, [], ℕ, Some, All, AllPairs, Any, insert, length, IsTrue, IsFalse, IfOk, IfErr, OnOk};
ghost use Rattle.qrcode_reader.specs.declared.refusals.Unread.TheVariants.{OutOfMemory};
ghost use Rattle.qrcode_scan.specs.declared.scanning.ScanError.TheVariants.{OutOfMemory as NoMemory};
ghost use Rattle.qrcode_scan.specs.Codes.{inner_side, bounds_of, AreApart, AreCodesIn, AreOther, AreTwo, FindsWholes, FindsWholesOf, HasGrid, IsApartFrom, IsCodeFound, IsFoundAs, IsFoundBy, IsMissedOf, IsProbable, Overlaps};
ghost use Rattle.qrcode_scan.specs.Wholes.{HasMany, IsGridOf, IsWholeIn, ShowsCode, Whole};
ghost use Rattle.qrcode_scan.specs.declared.codes.Found.TheVariants.{Nothing, Missed as MissedAt};
ghost use Rattle.qrcode_scan.specs.Scans.{has_faults, HasNoWhole, IsNotClean, IsScanOf, IsUnreadPicture, IsUnreadIn};

use crate::grids::Grid;
use crate::lone::{has_all_dark, lone_grid};
use crate::pixels::Pixels;
use crate::samples::sampled_at;
use crate::scanning::{self, Scan, read_clean, scan_of, seen_in};
use crate::squares::Square;
use crate::wholes::grids_of;
use qrcode_ec::max_allowed_errors;
use qrcode_reader::{AnyPartsReading, Unread, read_any_parts};
use std::alloc::{AllocError, Global};

/// A square that was found by its finder patterns but does not decode.
#[derive(Clone, Copy)]
pub struct Missed {
    /// The position of its modules.
    pub grid: Grid,
    /// Why it does not decode as it is. Rotated, mirrored or inverted it does not decode either.
    pub cause: Unread,
}

impl Missed {
    /// Returns the pixel column and row of its upper left corner.
    pub fn corner(&self) -> (usize, usize)
        ensures left { result.0 ≡ (bounds_of self.now.grid).left }
        ensures top { result.1 ≡ (bounds_of self.now.grid).top }
    {
        let place = bounds_of(&self.grid);
        (place.left, place.top)
    }
}

// What a grid turns out to be.
#[derive(Drop)]
enum Found {
    Nothing,
    Code(Scan),
    Missed(Missed),
}

// The pixels that a square takes: from `left` to before `right`, and from `top` to before `bottom`.
#[derive(Clone, Copy)]
pub(crate) struct PixelBounds {
    pub(crate) left: usize,
    pub(crate) top: usize,
    pub(crate) right: usize,
    pub(crate) bottom: usize,
}

/// The codes of a picture.
#[derive(Drop)]
pub struct Codes {
    /// The decoded codes, from top to bottom, and from left to right where they are side by side.
    pub scans: Vec<Scan>,
    /// Squares that look like codes but do not decode, each once.
    pub missed: Vec<Missed>,
    /// Whether a PNG file has faults that are ignored (`Picture::has_faults`).
    pub has_faults: bool,
}

/// Decodes the codes of a picture: the square in a plain margin, or else the squares that are found
/// by their finder patterns. Among the latter, Micro symbols with more wrong codewords than the
/// standard allows are ignored, unless the picture shows nothing else.
///
/// Errors: why nothing decodes; so without an error there is at least one code.
#[tactic(auto, using(crate::proofs::WhyUnread::unread_picture, crate::proofs::WhyUnread::unseen_picture, crate::proofs::Read::scans_of, crate::proofs::Read::missed_of))]
pub fn read_codes(alloc: Global, bytes: &[u8]) -> Result<Codes, scanning::ScanError>
    ensures value { IfOk result (λ codes. All (IsScanOf bytes.now) codes.scans.items) }
    ensures some { IfOk result (λ codes. 1 ≤ length codes.scans.items) }
    ensures once { IfOk result (λ codes. AllPairs AreTwo codes.scans.items) }
    ensures whole { IfOk result (λ codes. FindsWholesOf bytes.now codes.scans.items) }
    ensures missed { IfOk result (λ codes. All (IsMissedOf bytes.now) codes.missed.items) }
    ensures told_once { IfOk result (λ codes. AllPairs AreOther codes.missed.items) }
    ensures more { IfOk result (λ codes. codes.has_faults ≡ has_faults bytes.now) }
    ensures causes { IfErr result (IsUnreadPicture bytes.now) }
{
    let seen = seen_in(alloc, bytes)?;
    let mut codes = codes_in(alloc, &seen.pixels, seen.is_inverted)?;
    codes.has_faults = seen.has_faults;
    Ok(codes)
}

// Decodes the codes in pixels whose dark and light may have been exchanged.
#[tactic(auto, using(crate::proofs::Read::only_code, crate::proofs::WhyUnread::not_clean))]
fn codes_in(alloc: Global, pixels: &Pixels, is_inverted: bool) -> Result<Codes, scanning::ScanError>
    ensures codes { IfOk result (AreCodesIn pixels.now is_inverted) }
    ensures some { IfOk result (λ codes. 1 ≤ length codes.scans.items) }
    ensures whole { IfOk result (λ codes. FindsWholes pixels.now codes.scans.items) }
    ensures causes { IfErr result (IsUnreadIn pixels.now) }
    ensures none { IfErr result (λ e. (e ≡ NoMemory) ⊎ HasNoWhole pixels.now) }
{
    let cause = match read_clean(alloc, pixels, is_inverted) {
        Ok(scan) => return Ok(only(alloc, scan)?),
        Err(cause) => cause,
    };
    match cause {
        scanning::ScanError::OutOfMemory => Err(cause),
        _ => {
            let codes = codes_found(alloc, pixels, is_inverted)?;
            if codes.scans.is_empty() {
                Err(cause)
            } else {
                Ok(codes)
            }
        }
    }
}

// A single code.
fn only(alloc: Global, scan: Scan) -> Result<Codes, AllocError>
    ensures scans { IfOk result (λ codes. codes.scans.items ≡ scan ∷ []) }
    ensures missed { IfOk result (λ codes. codes.missed.items ≡ []) }
{
    Ok(Codes {
        scans: vec![in alloc; scan]?,
        missed: Vec::new(alloc),
        has_faults: false,
    })
}

// Decodes the code that has all dark pixels, and those that are found by their finder patterns.
#[tactic(auto, using(crate::proofs::Read::no_code))]
fn codes_found(alloc: Global, pixels: &Pixels, is_inverted: bool) -> Result<Codes, AllocError>
    requires { IsNotClean pixels.now }
    ensures codes { IfOk result (AreCodesIn pixels.now is_inverted) }
    ensures whole { IfOk result (λ codes. FindsWholes pixels.now codes.scans.items) }
{
    let mut codes = Codes {
        scans: Vec::new(alloc),
        missed: Vec::new(alloc),
        has_faults: false,
    };
    let grids = all_grids(alloc, pixels)?;
    for grid in &grids {
        add(&mut codes, alloc, pixels, grid, is_inverted)?;
    }
    Ok(codes)
}

// Returns the grid of the code that has all dark pixels, if there is one, and those that are found
// by their finder patterns.
fn all_grids(alloc: Global, pixels: &Pixels) -> Result<Vec<Grid>, AllocError>
    ensures { IfOk result (λ grids. (w : Whole) → IsWholeIn pixels.now w
        → HasMany pixels.now ⊎ Any (IsGridOf w) grids.items) }
{
    let mut grids = grids_of(alloc, pixels)?;
    let Some(grid) = lone_grid(alloc, pixels)? else {
        return Ok(grids);
    };
    grids.insert(0, grid)?;
    Ok(grids)
}

// Adds what is in a grid, unless a decoded code overlaps it. Nor is a Micro symbol found where a
// square that does not decode overlaps it: the modules there are those of the square.
fn add(
    codes: &mut Codes,
    alloc: Global,
    pixels: &Pixels,
    grid: &Grid,
    is_inverted: bool,
) -> Result<(), AllocError>
    requires clean { IsNotClean pixels.now }
    requires codes { AreCodesIn pixels.now is_inverted codes.old }
    ensures codes { OnOk result (AreCodesIn pixels.now is_inverted codes.new) }
    ensures kept { OnOk result ((w : Whole) → Any (IsFoundBy w) codes.old.scans.items
        → Any (IsFoundBy w) codes.new.scans.items) }
    ensures whole { OnOk result ((w : Whole) → ShowsCode pixels.now w → IsGridOf w grid.now
        → Any (IsFoundBy w) codes.new.scans.items) }
{
    if codes.has_read(grid) {
        return Ok(());
    }
    if grid.count < 21 && is_among(&codes.missed, grid) {
        return Ok(());
    }
    match found_at(alloc, pixels, grid, is_inverted)? {
        Found::Code(scan) => insert_code(&mut codes.scans, scan, grid)?,
        Found::Missed(missed) => push_missed(&mut codes.missed, missed)?,
        Found::Nothing => {}
    }
    Ok(())
}

// Decodes what is in a grid.
fn found_at(
    alloc: Global,
    pixels: &Pixels,
    grid: &Grid,
    is_inverted: bool,
) -> Result<Found, AllocError>
    requires { IsNotClean pixels.now }
    ensures found { IfOk result (IsFoundAs pixels.now is_inverted) }
    ensures grid { IfOk result (HasGrid grid.now) }
    ensures whole { IfOk result (λ found. (w : Whole) → ShowsCode pixels.now w
        → IsGridOf w grid.now → IsCodeFound w found) }
{
    let Some(modules) = sampled_at(alloc, pixels, grid)? else {
        return Ok(Found::Nothing);
    };
    let any = match read_any_parts(alloc, &modules) {
        Ok(any) => any,
        Err(cause) => return Ok(unread_at(grid, cause)?),
    };
    if is_doubtful(grid.count, &any) && !has_all_dark(pixels, bounds_of(grid)) {
        return Ok(Found::Nothing);
    }
    let square = Square {
        count: grid.count,
        zone: 0,
        scale: grid.across.max(grid.fall) / grid.parts,
        modules,
    };
    Ok(Found::Code(scan_of(alloc, square, Some(*grid), is_inverted, any)?))
}

// Whether a symbol with `count` modules a side is a Micro symbol with more wrong codewords than the
// standard allows (ISO/IEC 18004:2006, 6.5.1). With one finder pattern and little error correction,
// such symbols appear in noise.
fn is_doubtful(count: usize, any: &AnyPartsReading) -> bool
    ensures { IsTrue result → count < 21 }
{
    let read = &any.reading;
    match max_allowed_errors(read.version, read.ec_level) {
        Ok(allowed) => count < 21 && allowed < read.wrong.len(),
        Err(_) => false,
    }
}

// Tells of a square that does not decode, if it is probably a code: it has format words.
fn unread_at(grid: &Grid, cause: Unread) -> Result<Found, AllocError>
    ensures memory { IfOk result (λ _. ¬ (cause ≡ OutOfMemory)) }
    ensures missed { IfOk result (λ found. (found ≡ Nothing)
        ⊎ ((found ≡ MissedAt (record { grid = grid.now; cause = cause }))
        × IsProbable cause)) }
{
    match cause {
        Unread::OutOfMemory => Err(AllocError),
        Unread::Damaged(_) | Unread::NotSpelled => Ok(Found::Missed(Missed { grid: *grid, cause })),
        Unread::NoSuchSide | Unread::NoFormat => Ok(Found::Nothing),
    }
}

// Inserts a code before the first one that it precedes.
fn insert_code(scans: &mut Vec<Scan>, scan: Scan, grid: &Grid) -> Result<(), AllocError>
    ensures { OnOk result ((n : ℕ) × (n ≤ length scans.old.items)
        × (scans.new.items ≡ insert scans.old.items n scan)) }
{
    let place = bounds_of(grid);
    let number = scans
        .iter()
        .position(|other| other
            .grid
            .is_some_and(|other| precedes(place, bounds_of(&other))))
        .unwrap_or(scans.len());
    scans.insert(number, scan)?;
    Ok(())
}

// Appends a square that does not decode, unless it overlaps another one.
fn push_missed(all: &mut Vec<Missed>, missed: Missed) -> Result<(), AllocError>
    ensures { OnOk result ((all.new.items ≡ all.old.items)
        ⊎ ((all.new.items ≡ all.old.items ++ missed ∷ [])
        × All (λ one. AreOther one missed) all.old.items)) }
{
    if !is_among(all, &missed.grid) {
        all.push(missed)?;
    }
    Ok(())
}

// Whether one of these squares overlaps the grid.
fn is_among(all: &[Missed], grid: &Grid) -> bool
    ensures { IsFalse result
        → All (λ one. AreApart (bounds_of grid.now) (bounds_of one.grid)) all.now }
{
    all.iter()
        .any(|other| overlap(bounds_of(grid), bounds_of(&other.grid)))
}

impl Codes {
    /// Whether a decoded code overlaps the grid.
    pub fn has_read(&self, grid: &Grid) -> bool
        ensures some { IsTrue result → Any (Overlaps grid.now) self.now.scans.items }
        ensures none { IsFalse result → All (IsApartFrom grid.now) self.now.scans.items }
    {
        for scan in &self.scans {
            if is_over(scan, grid) {
                return true;
            }
        }
        false
    }
}

// Whether a code was found by its finder patterns and overlaps the grid.
fn is_over(scan: &Scan, grid: &Grid) -> bool
    ensures over { IsTrue result → Overlaps grid.now scan.now }
    ensures apart { IsFalse result → IsApartFrom grid.now scan.now }
{
    match &scan.grid {
        Some(other) => overlap(bounds_of(other), bounds_of(grid)),
        None => false,
    }
}

// The pixels that a grid's modules take; of a turned grid, the largest upright square of them.
fn bounds_of(grid: &Grid) -> PixelBounds
    ensures { result ≡ bounds_of grid.now }
{
    let parts = grid.parts.max(1);
    let width = grid.count * inner_side(grid.across, grid.fall);
    let height = grid.count * inner_side(grid.down, grid.lean);
    let steps = grid.count.saturating_sub(1);
    let x = (2 * grid.left + parts + steps * grid.across).saturating_sub(steps * grid.lean);
    let y = 2 * grid.top + parts + steps * grid.down + steps * grid.fall;
    let (left, right) = ends(x, width, parts);
    let (top, bottom) = ends(y, height, parts);
    PixelBounds {
        left,
        top,
        right,
        bottom,
    }
}

// Returns where an extent begins and ends, in pixels; it and its middle are doubled, in fractions.
fn ends(middle: usize, extent: usize, parts: usize) -> (usize, usize)
    requires { (middle < 2 ^ 48) × (extent < 2 ^ 48) × (1 ≤ parts) }
    ensures first { result.0 ≡ (middle - extent) / parts / 2 }
    ensures last { result.1 ≡ (middle + extent) / parts / 2 }
{
    (
        middle.saturating_sub(extent) / parts / 2,
        (middle + extent) / parts / 2,
    )
}

// Returns the side of the largest upright square in a turned one with the same middle. Each side of
// the latter comes `one` in one direction, across or down, and `other` in the other.
fn inner_side(one: usize, other: usize) -> usize
    requires { (one < 2 ^ 18) × (other < 2 ^ 18) }
    ensures value { result ≡ inner_side one other }
    ensures at_most { result < 2 ^ 37 }
{
    (one * one + other * other) / (one + other).max(1)
}

// Whether two squares have pixels in common.
fn overlap(one: PixelBounds, other: PixelBounds) -> bool
    ensures apart { IsFalse result → AreApart one other }
    ensures together { IsTrue result → ¬ AreApart one other }
{
    one.left < other.right
        && other.left < one.right
        && one.top < other.bottom
        && other.top < one.bottom
}

// Whether a square is above another, or next to it on the left.
fn precedes(one: PixelBounds, other: PixelBounds) -> bool {
    one.bottom <= other.top || (one.top < other.bottom && one.left < other.left)
}

//! Finds the area of a symbol that a logo may cover.

ghost use Rattle.std.specs.Prelude.{◌≡◌, ◌⊎◌, ◌↔◌, ◌<◌, IsTrue, IfOk, IfErr, IfSome, IfNone};
ghost use Rattle.qrcode_types.specs.Versions.{has_level, is_valid, level_number};
ghost use Rattle.goqlanis_request.specs.Areas.{wish_for, size_in, HasArea, IsAreaOf, IsRefusedOf, IsLowest, IsRoomier, IsSmallest, NoHigher, NoLarger};
ghost use Rattle.goqlanis_request.specs.declared.areas.LogoError.TheVariants.{OutOfMemory as NoMemory};

use crate::elements::number_of;
use qrcode::types::{EcLevel, Version};
use qrcode_damage::areas::{Area, Rectangle};
use qrcode_damage::excess::Excess;
use qrcode_damage::rectangles::{
    Kept, Wish, centred, in_proportion, largest_rectangle, leaves_patterns,
};
use qrcode_damage::reserve::reserve_in;
use qrcode_types::tables::Blocks;
use qrcode_types::versions::side;
use std::alloc::{AllocError, Global};

/// How large the area of a logo is.
#[derive(Clone, Copy)]
pub enum LogoSize {
    /// As large as possible, while each block can still correct half of the errors that it could
    /// correct without a logo, rounded down.
    Largest,
    /// This many modules along the longer side; one less if the number is even.
    Modules(usize),
    /// This percentage of the symbol's side, at most 100, rounded down to an odd number of modules,
    /// at least 1.
    Percent(u32),
}

/// The requested area, which lies in the middle of the symbol.
#[derive(Clone, Copy)]
pub struct LogoWish {
    pub size: LogoSize,
    /// The width, in proportion to `down`.
    pub across: u32,
    /// The height, in proportion to `across`.
    pub down: u32,
    /// Which patterns the area must not touch.
    pub kept: Kept,
}

/// Why a symbol has no such area.
#[derive(Clone, Copy)]
pub enum LogoError {
    /// The area has no module, or more modules along a side than the symbol.
    Outside,
    /// The area touches a pattern that it must not touch.
    Patterns,
    /// The area covers too much: not every content of it can be corrected.
    Excess(Excess),
    /// No area in the middle leaves half of the error correction.
    NoRoom,
    /// Memory ran out.
    OutOfMemory,
}

/// Returns the area of a logo in symbols of `version` and `ec_level`. Whatever the area shows, the
/// symbol still decodes to its bytes.
///
/// Errors: the `LogoError` that says why there is no such area; or `OutOfMemory`.
pub fn logo_area(
    alloc: Global,
    version: Version,
    ec_level: EcLevel,
    wish: LogoWish,
) -> Result<Rectangle, LogoError>
    requires { IsTrue (has_level version ec_level) }
    ensures area { IfOk result (IsAreaOf version ec_level wish (size_in version wish.size)) }
    ensures causes { IfErr result (λ e. (e ≡ NoMemory)
        ⊎ IsRefusedOf version ec_level wish (size_in version wish.size) e) }
{
    match size_in(version, wish.size) {
        None => largest_area(alloc, version, ec_level, wish),
        Some(size) => sized_area(alloc, version, ec_level, wish, size),
    }
}

// The requested modules along the longer side; `None` for the largest area.
fn size_in(version: Version, size: LogoSize) -> Option<usize>
    requires { IsTrue (is_valid version) }
    ensures { result ≡ size_in version size }
{
    match size {
        LogoSize::Largest => None,
        LogoSize::Modules(modules) => Some(modules),
        LogoSize::Percent(part) => Some(in_proportion(side(version), part.min(100), 100)),
    }
}

// The wish for a rectangle that leaves `reserve` correctable codewords in each block.
fn wish_for(wish: LogoWish, reserve: usize) -> Wish
    ensures { result ≡ wish_for wish reserve }
{
    Wish {
        across: wish.across,
        down: wish.down,
        reserve,
        kept: wish.kept,
    }
}

// The largest area that leaves half of the error correction.
fn largest_area(
    alloc: Global,
    version: Version,
    ec_level: EcLevel,
    wish: LogoWish,
) -> Result<Rectangle, LogoError>
    requires { IsTrue (has_level version ec_level) }
    ensures area { IfOk result (IsAreaOf version ec_level wish None) }
    ensures causes { IfErr result (λ e. (e ≡ NoMemory)
        ⊎ IsRefusedOf version ec_level wish None e) }
{
    let blocks = Blocks::of(version, ec_level).unwrap();
    let wish = wish_for(wish, blocks.ec_length / 4);
    match largest_rectangle(alloc, version, ec_level, wish) {
        Ok(Some(rectangle)) => Ok(rectangle),
        Ok(None) => Err(LogoError::NoRoom),
        Err(_) => Err(LogoError::OutOfMemory),
    }
}

// The area with `size` modules along its longer side, or one less.
fn sized_area(
    alloc: Global,
    version: Version,
    ec_level: EcLevel,
    wish: LogoWish,
    size: usize,
) -> Result<Rectangle, LogoError>
    requires { IsTrue (has_level version ec_level) }
    ensures area { IfOk result (IsAreaOf version ec_level wish (Some size)) }
    ensures causes { IfErr result (λ e. (e ≡ NoMemory)
        ⊎ IsRefusedOf version ec_level wish (Some size) e) }
{
    if size == 0 || size > side(version) {
        return Err(LogoError::Outside);
    }
    let rectangles = [centred(version, wish_for(wish, 0), size)];
    let area = Area::of(&rectangles);
    if !leaves_patterns(wish.kept, version, &area) {
        return Err(LogoError::Patterns);
    }
    match reserve_in(alloc, version, ec_level, &area) {
        Ok(reserve) => match reserve.excess() {
            Some(excess) => Err(LogoError::Excess(excess)),
            None => Ok(rectangles[0]),
        },
        Err(_) => Err(LogoError::OutOfMemory),
    }
}

/// Suggests where the wish can be met: `version` at the lowest higher level, or else the smallest
/// larger Normal version at `ec_level`. `None` if neither exists.
///
/// Errors: only `AllocError`, if memory runs out.
pub fn roomier(
    alloc: Global,
    version: Version,
    ec_level: EcLevel,
    wish: LogoWish,
) -> Result<Option<(Version, EcLevel)>, AllocError>
    ensures some { IfOk result (λ found. IfSome found (IsRoomier version ec_level wish)) }
    ensures none { IfOk result (λ found. IfNone found
        (NoHigher version ec_level wish 4 × NoLarger version ec_level wish 41)) }
{
    for number in ec_level.number() + 1..4 {
        let level = level_of(number);
        if has_area(alloc, version, level, wish)? {
            return Ok(Some((version, level)));
        }
    }
    for number in number_of(version) + 1..41 {
        let larger = Version::Normal(number as i16);
        if has_area(alloc, larger, ec_level, wish)? {
            return Ok(Some((larger, ec_level)));
        }
    }
    Ok(None)
}

// The level with this number: 0 to 3 for L, M, Q, H.
fn level_of(number: usize) -> EcLevel
    requires { number < 4 }
    ensures { level_number result ≡ number }
{
    match number {
        0 => EcLevel::L,
        1 => EcLevel::M,
        2 => EcLevel::Q,
        _ => EcLevel::H,
    }
}

// Whether `version` has the level, and symbols of both have such an area.
fn has_area(
    alloc: Global,
    version: Version,
    ec_level: EcLevel,
    wish: LogoWish,
) -> Result<bool, AllocError>
    ensures { IfOk result (λ has. IsTrue has ↔ HasArea version ec_level wish) }
{
    if !version.has_level(ec_level) {
        return Ok(false);
    }
    match logo_area(alloc, version, ec_level, wish) {
        Ok(_) => Ok(true),
        Err(LogoError::OutOfMemory) => Err(AllocError),
        Err(_) => Ok(false),
    }
}

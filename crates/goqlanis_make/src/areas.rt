//! The area that a logo gets.

use crate::Done;
use goqlanis_files::doubted;
use goqlanis_files::failure::Failure;
use goqlanis_options::asked::Job;
use goqlanis_options::logos::{AskedLogo, Logo, Middle};
use goqlanis_request::VersionName;
use goqlanis_request::areas::{LogoError, LogoSize, LogoWish, logo_area, roomier};
use goqlanis_request::overlays::cross_size;
use qrcode::QrCode;
use qrcode::types::{EcLevel, Version};
use qrcode_damage::areas::{Area, Rectangle};
use qrcode_damage::excess::Excess;
use qrcode_damage::reserve::reserve_of;
use std::alloc::{AllocError, Global};

// Whether a logo gets a fourth of the code's side, or else the largest area that may show anything.
fn has_default(logo: &AskedLogo<'_>) -> bool {
    matches!(
        (logo.middle, logo.size),
        (Middle::Logo(_), LogoSize::Largest)
    )
}

/// Returns the first version, of a code's own and the next three, in which a logo without
/// `--logo-size` gets a fourth of the side, if there is one.
///
/// Errors: only `AllocError`.
pub(crate) fn version_for(
    alloc: Global,
    logo: &AskedLogo<'_>,
    code: &QrCode,
) -> Result<Option<Version>, AllocError> {
    if has_default(logo) {
        version_with(alloc, logo, code, 4, code.width() + 12)
    } else {
        Ok(None)
    }
}

// Returns the smallest version, of no smaller side than a code has and at most `most` modules, in
// which a logo gets the `part`th part of the side by default.
fn version_with(
    alloc: Global,
    logo: &AskedLogo<'_>,
    code: &QrCode,
    part: usize,
    most: usize,
) -> Result<Option<Version>, AllocError> {
    let level = code.error_correction_level();
    for number in 1..41usize {
        let (version, side) = (Version::Normal(number as i16), 4 * number + 17);
        if side < code.width() || most < side {
            continue;
        }
        let least = side / part.max(1);
        if largest_area(alloc, logo, version, level, least)?.is_some() {
            return Ok(Some(version));
        }
    }
    Ok(None)
}

// Returns the largest area around a logo that may show anything, if there is one: its longer side
// has at least `least` modules, and at most a fourth of the code's.
fn largest_area(
    alloc: Global,
    logo: &AskedLogo<'_>,
    version: Version,
    level: EcLevel,
    least: usize,
) -> Result<Option<Rectangle>, AllocError> {
    if !version.is_valid() || !version.has_level(level) {
        return Ok(None);
    }
    let most = version.width() as usize / 4;
    for less in 0..(most + 1).saturating_sub(least) {
        match logo_area(alloc, version, level, wish_around(logo, most - less)) {
            Ok(area) => return Ok(Some(area)),
            Err(LogoError::OutOfMemory) => return Err(AllocError),
            Err(_) => {}
        }
    }
    Ok(None)
}

/// Returns the area in the middle of a code, if the command line asks for one.
///
/// Errors: `Refused` if the code has no such area; `OutOfMemory`.
pub(crate) fn area_in(
    alloc: Global,
    asked: &Job<'_, '_>,
    code: &QrCode,
) -> Done<Option<Rectangle>> {
    let Some(logo) = &asked.logo else {
        return Ok(None);
    };
    let (version, level) = (code.version(), code.error_correction_level());
    let (wish, found) = if has_default(logo) {
        let found = largest_area(alloc, logo, version, level, 1)?;
        (wish_around(logo, 1), found.ok_or(LogoError::NoRoom))
    } else {
        let wish = wish_of(logo, code.width());
        (wish, logo_area(alloc, version, level, wish))
    };
    match found {
        Ok(area) => Ok(Some(area)),
        Err(error) => refuse(alloc, code, wish, error),
    }
}

// Warns of an area that touches more codewords of a block than the standard lets readers correct:
// in small codes it keeps some for misdecode protection.
fn warn_of_readers(
    rt: &HostRuntime,
    asked: &Job<'_, '_>,
    code: &QrCode,
    area: Rectangle,
) -> Done<()> {
    let areas = [area];
    let reserve = reserve_of(rt.alloc(), code, &Area::of(&areas))?;
    let (touched, blocks) = (reserve.most, reserve.touched.len().max(1));
    let allowed = code.max_allowed_errors() / blocks;
    if touched <= allowed {
        return Ok(());
    }
    doubted!(rt, asked.doubts;
        "the area covers {touched} codewords of a block, of which readers need only correct \
        {allowed}; use a higher level, or version 3 or larger"
    )
}

/// Warns of an area that other readers need not correct, and of a logo whose longer side is less
/// than a tenth of the code's.
///
/// Errors: `Refused` if warnings are errors; `OutOfMemory`.
pub(crate) fn warn_of_logo(
    rt: &HostRuntime,
    asked: &Job<'_, '_>,
    code: &QrCode,
    area: Option<Rectangle>,
) -> Done<()> {
    let Some(area) = area else {
        return Ok(());
    };
    warn_of_readers(rt, asked, code, area)?;
    let Some(logo) = asked.logo.as_ref().filter(|logo| logo.file.is_some()) else {
        return Ok(());
    };
    let (width, height) = logo_sides(logo, area);
    if width.max(height) >= code.width() / 10 {
        return Ok(());
    }
    let alloc = rt.alloc();
    let help = match version_with(alloc, logo, code, 10, 177)? {
        None => String::new(alloc),
        Some(version) if version == code.version() => {
            String::from_str(alloc, "; for more, leave out --logo-size")?
        }
        Some(version) => format!(in alloc;
            "; for more, use -v {} without --logo-size",
            VersionName(version)
        )?,
    };
    doubted!(rt, asked.doubts; "the logo gets only {width} by {height} modules{help}")
}

// Returns the sides of a logo in modules, as it fits into an area within its margin.
fn logo_sides(logo: &AskedLogo<'_>, area: Rectangle) -> (usize, usize) {
    let margins = 2 * logo.margin as usize;
    let (width, height) = (
        area.width.saturating_sub(margins),
        area.height.saturating_sub(margins),
    );
    let (across, down) = ratio_of(logo.middle);
    let (across, down) = (across as usize, down as usize);
    (
        width.min(height.saturating_mul(across) / down.max(1)),
        height.min(width.saturating_mul(down) / across.max(1)),
    )
}

// Returns the width and height of what is in the middle, in proportion.
fn ratio_of(middle: Middle<'_>) -> (u32, u32) {
    match middle {
        Middle::Logo(Logo::Pixels(_, across, down)) => (*across as u32, *down as u32),
        Middle::Logo(Logo::Element(across, down, _)) => (*across, *down),
        Middle::Cross | Middle::Light => (1, 1),
    }
}

// Returns the wish for an area of the size that is asked for, in a code with `side` modules a side.
fn wish_of(logo: &AskedLogo<'_>, side: usize) -> LogoWish {
    let (across, down) = ratio_of(logo.middle);
    LogoWish {
        size: match logo.middle {
            Middle::Cross => LogoSize::Modules(cross_size(side)),
            _ => logo.size,
        },
        across,
        down,
        kept: logo.kept,
    }
}

// Returns the wish for an area around a logo whose longer side has this many modules.
fn wish_around(logo: &AskedLogo<'_>, longer: usize) -> LogoWish {
    let (across, down) = ratio_of(logo.middle);
    let side_of = |part: u32| {
        let modules = (longer as u64).saturating_mul(part as u64);
        let modules = modules.div_ceil(across.max(down).max(1) as u64);
        let side = modules.saturating_add(2 * logo.margin as u64) | 1;
        u32::try_from(side).unwrap_or(u32::MAX)
    };
    let (width, height) = (side_of(across), side_of(down));
    LogoWish {
        size: LogoSize::Modules(width.max(height) as usize),
        across: width,
        down: height,
        kept: logo.kept,
    }
}

// Fails: a code has no such area. Says why, and which version and level has room for it.
fn refuse(
    alloc: Global,
    code: &QrCode,
    wish: LogoWish,
    error: LogoError,
) -> Done<Option<Rectangle>> {
    let (version, level) = (code.version(), code.error_correction_level());
    let (name, side) = (VersionName(version), code.width());
    let mut text = match error {
        LogoError::OutOfMemory => return Err(Failure::OutOfMemory),
        LogoError::Outside => format!(in alloc;
            "--logo-size: version {name} has {side} modules a side"
        ),
        LogoError::Patterns => format!(in alloc;
            "--logo-size: in version {name} the area covers patterns by which readers find a code"
        ),
        LogoError::Excess(
            Excess::Block {
                touched,
                allowed,
                ..
            },
        ) => format!(in alloc;
            "--logo-size: in version {name} at level {level:?} the area covers {touched} codewords \
            of a block, of which {allowed} may be lost"
        ),
        _ => format!(in alloc; "version {name} at level {level:?} has no room for a logo"),
    }?;
    if let Some((version, level)) = roomier(alloc, version, level, wish)? {
        let name = VersionName(version);
        write!(text, "; version {name} at level {level:?} has room for it")?;
    }
    Err(Failure::Refused(text))
}

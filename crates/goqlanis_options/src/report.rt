//! The report on a code: `--verbose`, `--json` and `--dry-run`.

use crate::asked::{Job, ReportForm, Target};
use crate::charsets::{CharsetName, Coded};
use crate::json::push_file;
use crate::sizes::pixels_per_inch;
use crate::warnings::{Decimal, millimetres, warn_of_parts, warn_of_sizes};
use goqlanis_files::failure::Failure;
use goqlanis_files::streams::print;
use goqlanis_request::{Extent, Request, VersionName, dots, quiet_zone, scale};
use qrcode::QrCode;
use qrcode_check::masks::place_of;
use qrcode_damage::areas::Rectangle;
use std::alloc::{AllocError, Global};

/// Appends a part of a report: as JSON, or as text for people, with the same values.
#[macro_export]
macro_rules! push_either {
    ($text:expr, $is_json:expr; $json:tt, $plain:tt) => {
        if $is_json {
            write!($text, $json)
        } else {
            write!($text, $plain)
        }
    };
}

/// Reports on a code, with the area in its middle and the character set of `--charset`, if
/// `--verbose`, `--json` or `--dry-run` asks for it; and warns of sizes and colours of parts in any
/// case. Reports go to standard error; with `--dry-run` to standard output, and with `--json` too if
/// the drawing goes to a file.
///
/// Errors: those of `print`, `warn_of_parts` and `warn_of_sizes`; `OutOfMemory`.
pub fn show_report(
    rt: &HostRuntime,
    asked: &Job<'_, '_>,
    code: &QrCode,
    area: Option<Rectangle>,
    coded: Option<Coded>,
) -> Result<(), Failure> {
    let sizes = sizes_of(&asked.request, code);
    warn_of_parts(rt, asked, code.version())?;
    warn_of_sizes(rt, asked, sizes)?;
    if asked.report == ReportForm::Nothing && !asked.is_dry {
        return Ok(());
    }
    let is_json = asked.report == ReportForm::Json;
    let text = String::from_str(rt.alloc(), if is_json { "{" } else { "" })?;
    let mut facts = Facts { text, is_json };
    facts.push_place(asked)?;
    facts.push_code(&asked.request, code)?;
    facts.push_sizes(&asked.request, sizes)?;
    if asked.is_dry {
        facts.push_least(&asked.request, sizes)?;
    }
    facts.push_set(coded)?;
    facts.push_area(area)?;
    let mut text = facts.text;
    text.push_str(if is_json { "}\n" } else { "\n" })?;
    if asked.is_dry || is_json && matches!(asked.target, Target::File(_)) {
        print(rt, text.as_bytes())?;
    } else {
        let _ = eprint!(rt; "{text}");
    }
    Ok(())
}

/// How large a code is drawn.
#[derive(Clone, Copy)]
pub struct Sizes {
    /// The width of its quiet zone, in modules.
    pub zone: u32,
    /// Modules a side, with the quiet zone.
    pub modules: u32,
    /// Pixels a module, at least 1, and a side.
    pub scale: u32,
    pub side: u32,
    /// Pixels per inch, if known.
    pub dots: Option<u32>,
}

/// Returns how large a code is drawn.
pub fn sizes_of(request: &Request<'_>, code: &QrCode) -> Sizes {
    let zone = quiet_zone(request, code);
    let modules = (code.width() as u32).saturating_add(zone.saturating_mul(2));
    let scale = scale(request, code).max(1);
    let dots = dots(request, code);
    Sizes {
        zone,
        modules,
        scale,
        side: modules.saturating_mul(scale),
        dots: dots.or(pixels_per_inch(request.format, request.dpi).map(u32::from)),
    }
}

// The facts of a report, as JSON or as text for people.
#[derive(Drop)]
struct Facts {
    text: String,
    is_json: bool,
}

impl Facts {
    // Appends the line of a report, and in JSON the file.
    fn push_place(&mut self, asked: &Job<'_, '_>) -> Result<(), AllocError> {
        if let Some(place) = asked.doubts.place {
            let line = place.line;
            push_either!(self.text, self.is_json; "\"line\": {line}, ", "line {line}: ")?;
        }
        match asked.target {
            Target::File(file) if self.is_json => push_file(&mut self.text, file),
            _ => Ok(()),
        }
    }

    // Appends version, level, mask and modules.
    fn push_code(&mut self, request: &Request<'_>, code: &QrCode) -> Result<(), AllocError> {
        let (version, level) = (VersionName(code.version()), code.error_correction_level());
        let own = place_of(code.version(), code.mask());
        let mask = request.mask.unwrap_or(own);
        let (modules, zone) = (code.width(), quiet_zone(request, code));
        push_either!(self.text, self.is_json;
            "\"version\": \"{version}\", \"level\": \"{level:?}\", \"mask\": {mask}, \
            \"modules\": {modules}, \"quiet_zone\": {zone}",
            "version {version}, level {level:?}, mask {mask}\nmodules: {modules} by {modules}; "
        )
    }

    // Appends the area in the middle, if there is one.
    fn push_area(&mut self, area: Option<Rectangle>) -> Result<(), AllocError> {
        let Some(area) = area else {
            return Ok(());
        };
        let (width, height, left, top) = (area.width, area.height, area.left, area.top);
        push_either!(self.text, self.is_json;
            ", \"area\": {{\"width\": {width}, \"height\": {height}, \"column\": {left}, \
            \"row\": {top}}}",
            "\narea: {width} by {height} modules, from column {left} and row {top}"
        )
    }

    // Appends the sizes of a report. Of an exact length, pixels mean nothing.
    fn push_sizes(&mut self, request: &Request<'_>, sizes: Sizes) -> Result<(), AllocError> {
        let (zone, scale, side) = (sizes.zone, sizes.scale, sizes.side);
        let length = millimetres(side, sizes.dots.unwrap_or(0));
        let is_length = matches!(request.extent, Extent::Exact(_));
        if !is_length {
            push_either!(self.text, self.is_json;
                ", \"scale\": {scale}, \"pixels\": {side}",
                "pixels of a module: {scale}; quiet zone: {zone}\nsize: {side} by {side} pixels"
            )?;
        } else if !self.is_json {
            write!(
                self.text,
                "quiet zone: {zone}\nsize: {length} by {length} mm"
            )?;
        }
        match sizes.dots {
            Some(_) if self.is_json => write!(self.text, ", \"millimetres\": {length}"),
            Some(dots) if !is_length => write!(self.text, ", {length} mm at {dots} per inch"),
            _ => Ok(()),
        }
    }

    // Appends the smallest size that many readers need, with modules of 0.25 mm: where lengths are
    // not exact, of so many whole pixels.
    fn push_least(&mut self, request: &Request<'_>, sizes: Sizes) -> Result<(), AllocError> {
        if request.format.row().is_exact && request.dpi.is_none() {
            let length = Decimal(u64::from(sizes.modules) * 25);
            return push_either!(self.text, self.is_json;
                ", \"least_millimetres\": {length}",
                "\nsmallest for most readers: {length} mm"
            );
        }
        let Some(dots) = sizes.dots else {
            return Ok(());
        };
        let least = dots.saturating_mul(25).div_ceil(2_540).max(1);
        let length = millimetres(sizes.modules.saturating_mul(least), dots);
        push_either!(self.text, self.is_json;
            ", \"least_scale\": {least}, \"least_millimetres\": {length}",
            "\nsmallest for most readers: {length} mm, {least} pixels per module"
        )
    }

    // Appends the character set of `--charset`, and the version that UTF-8 would have taken.
    fn push_set(&mut self, coded: Option<Coded>) -> Result<(), AllocError> {
        let Some(coded) = coded else {
            return Ok(());
        };
        let set = CharsetName(coded.set);
        push_either!(self.text, self.is_json;
            ", \"charset\": \"{set}\"",
            "\ncharacter set: {set}"
        )?;
        if let Some(number) = coded.set.designator() {
            push_either!(self.text, self.is_json; ", \"eci\": {number}", ", ECI {number}")?;
        }
        match coded.utf8 {
            Some(version) => push_either!(self.text, self.is_json;
                ", \"utf8_version\": \"{version}\"",
                "; in UTF-8 without ECI: version {version}"
            ),
            None => Ok(()),
        }
    }
}

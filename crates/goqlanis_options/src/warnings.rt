//! Warnings on standard error; the code is drawn anyway.

use crate::asked::{Job, Source, Target};
use crate::charsets::charset_named;
use crate::formats::ending_format;
use crate::report::Sizes;
use goqlanis_files::doubted;
use goqlanis_files::failure::{Doubts, Failure};
use goqlanis_files::streams::shown;
use goqlanis_request::{Choice, Extent, Grouped, Request, VersionName};
use qrcode::types::{Color, Version};
use qrcode_contents::fields::errors::Field;
use qrcode_payloads::given::FieldSource;
use qrcode_sheets::CodePart;
use qrcode_sheets::formats::Format;
use qrcode_sheets::sheet::Ink;
use std::{fmt, fs};

/// Warns of colours with too little contrast (of one code with coloured parts, `warn_of_parts` does),
/// of UTF-8 text after the ECI of another character set, of a text that may be meant as a file, of
/// `--micro` with an ECI, of placeholders in a title, and of a file extension of another format.
///
/// Errors: `Refused` with the first warning if warnings are errors; `OutOfMemory`.
pub fn warn(rt: &HostRuntime, asked: &Job<'_, '_>) -> Result<(), Failure> {
    let doubts = asked.doubts;
    if asked.request.parts.is_empty() || asked.is_several() {
        warn_of_colours(rt, asked, None)?;
    }
    if let Some(words) = asked.input.segments {
        warn_of_character_set(rt, doubts, words)?;
    }
    if let Source::Text(text) = asked.input.source {
        warn_of_text(rt, asked, text)?;
    }
    warn_of_micro(rt, asked)?;
    let title = asked.request.frame.title;
    if asked.input.lines.is_some() && title.contains('{') && title.contains('}') {
        doubted!(rt, doubts; "all codes have the same title: in it, {{}} stands for itself")?;
    }
    if let Target::File(path) = asked.target {
        if is_named_otherwise(path, asked.request.format) {
            let path = shown(path);
            return doubted!(rt, doubts;
                "{path} has the file extension of another format than --format"
            );
        }
    }
    Ok(())
}

// Warns of `--micro` with an ECI.
fn warn_of_micro(rt: &HostRuntime, asked: &Job<'_, '_>) -> Result<(), Failure> {
    let option = match asked.input.charset {
        _ if asked.input.is_eci => "--eci",
        Some(name) if charset_named(name).is_some() => "--charset",
        _ => return Ok(()),
    };
    match asked.request.choice {
        Choice::From(least) | Choice::Boosted(least) if least.is_micro() => doubted!(rt,
            asked.doubts; "Micro QR has no ECI: with {option}, the smallest version is 1"
        ),
        _ => Ok(()),
    }
}

// Warns of a text that may be meant as standard input or as the name of a file.
fn warn_of_text(rt: &HostRuntime, asked: &Job<'_, '_>, text: &str) -> Result<(), Failure> {
    let has_place = asked.input.lines.is_some() && text.contains('{') && text.contains('}');
    let is_name = text.contains(['.', '/']) && !text.contains("://");
    if has_place {
        doubted!(rt, asked.doubts; "TEXT is the lines: {{}} stands for itself there")
    } else if text == "-" {
        doubted!(rt, asked.doubts;
            "- is encoded as it stands; to encode standard input, leave it out"
        )
    } else if is_name && fs::exists(rt, text).unwrap_or(false) {
        let text = shown(text);
        doubted!(rt, asked.doubts;
            "{text}: this name is encoded; for the file, write --input {text}, or goqlanis read \
            {text} to decode it"
        )
    } else {
        Ok(())
    }
}

/// Warns of colours of parts that a single code lacks, and of contrast between its other colours.
///
/// Errors: `Refused` with the first warning if warnings are errors; `OutOfMemory`.
pub(crate) fn warn_of_parts(
    rt: &HostRuntime,
    asked: &Job<'_, '_>,
    version: Version,
) -> Result<(), Failure> {
    let parts = asked.request.parts;
    if parts.is_empty() || asked.is_several() {
        return Ok(());
    }
    if !parts.iter().all(|part| has_part(version, part.part)) {
        let name = VersionName(version);
        doubted!(rt, asked.doubts;
            "version {name} lacks a part whose colour is given: alignment patterns are in versions \
            2 to 40, version information in 7 to 40"
        )?;
    }
    warn_of_colours(rt, asked, Some(version))
}

// Whether codes of a version have a part.
fn has_part(version: Version, part: CodePart) -> bool {
    match (part, version) {
        (CodePart::Alignment, Version::Normal(number)) => number >= 2,
        (CodePart::VersionWord, Version::Normal(number)) => number >= 7,
        (CodePart::Alignment | CodePart::VersionWord, Version::Micro(_)) => false,
        _ => true,
    }
}

// Warns of a dark and a light colour that are too close, or else of a colour on the wrong side of
// the threshold that readers use: of those in a code of this version, or of all. With `--invert`,
// dark modules may all be lighter than the light ones.
fn warn_of_colours(
    rt: &HostRuntime,
    asked: &Job<'_, '_>,
    version: Option<Version>,
) -> Result<(), Failure> {
    let (doubts, request) = (asked.doubts, &asked.request);
    let dark = extremes(request, Color::Dark, version);
    let light = extremes(request, Color::Light, version);
    let is_swapped = request.is_inverted && !is_brighter(light.0, dark.1);
    let (below, above, dark, light) = if is_swapped {
        (light, dark, dark.0, light.1)
    } else {
        (dark, light, dark.1, light.0)
    };
    if is_brighter(above.0, below.1) {
        return warn_of_threshold(rt, doubts, below, above);
    }
    let why = if is_brighter(dark, light) {
        "are lighter, which few readers accept; to swap them, use --invert"
    } else {
        "have less than 40 % contrast, which many readers need"
    };
    let (dark, light) = (name_of(dark), name_of(light));
    doubted!(rt, doubts; "dark modules {dark} on light modules {light} {why}")
}

// Warns of a colour on the wrong side of the threshold halfway between the darkest and the brightest
// colour, of those that shall be `below` it and `above` it.
fn warn_of_threshold(
    rt: &HostRuntime,
    doubts: Doubts<'_>,
    below: Extremes<'_>,
    above: Extremes<'_>,
) -> Result<(), Failure> {
    let both = brightness(below.0).saturating_add(brightness(above.1));
    let (ink, better) = if brightness(below.1).saturating_mul(2) >= both {
        (below.1, "darker")
    } else if brightness(above.0).saturating_mul(2) <= both {
        (above.0, "lighter")
    } else {
        return Ok(());
    };
    let name = name_of(ink);
    doubted!(rt, doubts;
        "readers may take {name} for the other kind of module; use a {better} colour"
    )
}

// Warns of the first `--segment byte:` with more than ASCII after an ECI that is not UTF-8, since
// arguments are UTF-8. ECI numbers from 899 on name no character set.
fn warn_of_character_set(
    rt: &HostRuntime,
    doubts: Doubts<'_>,
    words: &[&str],
) -> Result<(), Failure> {
    let mut set = 26;
    for word in words {
        let (name, text) = word.split_once(':').unwrap_or(("", ""));
        if name.eq_ignore_ascii_case("eci") {
            set = text.parse::<u32>().unwrap_or(26);
        } else if set != 26 && set < 899 && name.eq_ignore_ascii_case("byte") && !text.is_ascii() {
            let word = shown(word);
            return doubted!(rt, doubts;
                "--segment {word}: this text is UTF-8, but eci:{set} names another character set, \
                so readers show it wrongly; use eci:26"
            );
        }
    }
    Ok(())
}

/// Warns of a Wi-Fi password that is too short or too long for WPA: it takes 8 to 63 characters, or
/// a key of 64 hexadecimal digits.
///
/// Errors: `Refused` if warnings are errors; `OutOfMemory`.
pub fn warn_of_password<G: FieldSource>(
    rt: &HostRuntime,
    doubts: Doubts<'_>,
    given: &G,
) -> Result<(), Failure> {
    let (password, security) = (given.text(Field::Password), given.text(Field::Security));
    let is_wpa = ["", "WPA", "WPA2"]
        .iter()
        .any(|name| security.eq_ignore_ascii_case(name));
    if !is_wpa || password.is_empty() {
        return Ok(());
    }
    let length = password.chars().count();
    let is_key = length == 64 && password.bytes().all(|byte| byte.is_ascii_hexdigit());
    if length < 8 {
        doubted!(rt, doubts; "--password has fewer than 8 characters, which WPA and WPA2 need")
    } else if length > 63 && !is_key {
        doubted!(rt, doubts;
            "--password has more than 63 characters, which WPA and WPA2 do not allow"
        )
    } else {
        Ok(())
    }
}

// The longest side of a page in PDF, in inches (PDF 1.4, Appendix C).
const MOST_INCHES: u32 = 200;

// The largest size of a graphic in ZPL, in bytes: ^GF takes five digits.
const MOST_FIELD: u32 = 99_999;

/// Warns of sizes that may be unexpected or unreadable: a side at least 0.1 mm below `--size`,
/// modules under 0.25 mm, and a PDF page or ZPL graphic that is too large.
///
/// Errors: `Refused` with the first warning if warnings are errors; `OutOfMemory`.
pub(crate) fn warn_of_sizes(
    rt: &HostRuntime,
    asked: &Job<'_, '_>,
    sizes: Sizes,
) -> Result<(), Failure> {
    let (doubts, side) = (asked.doubts, sizes.side);
    if let Some(dots) = sizes.dots {
        let made = millimetres(side, dots);
        match asked.request.extent {
            Extent::Side(_, Some(wanted)) if made.0.saturating_add(10) <= wanted => {
                let (wanted, modules, scale) = (Decimal(wanted), sizes.modules, sizes.scale);
                doubted!(rt, doubts;
                    "a side of {wanted} mm comes out at {made} mm: {modules} modules of {scale} \
                    whole pixels"
                )?;
            }
            _ => {}
        }
        let module = millimetres(sizes.scale, dots);
        if module.0 < 25 {
            doubted!(rt, doubts;
                "modules of {module} mm are under the 0.25 mm that many readers need"
            )?;
        }
        if asked.request.format == Format::Pdf && side > dots.saturating_mul(MOST_INCHES) {
            doubted!(rt, doubts;
                "a page in PDF has at most 14,400 points (5,080 mm) a side, and this one has more; \
                use a smaller --size, --module or --scale"
            )?;
        }
    }
    let bytes = side.div_ceil(8).saturating_mul(side);
    if asked.request.format == Format::Zpl && bytes > MOST_FIELD {
        let most = Grouped(MOST_FIELD as usize);
        return doubted!(rt, doubts;
            "ZPL takes at most {most} bytes of a picture, and this one has more; use a smaller \
            --scale, --size, --module or --dpi"
        );
    }
    Ok(())
}

/// Converts `pixels` to millimetres, at `dots` pixels per inch.
pub(crate) fn millimetres(pixels: u32, dots: u32) -> Decimal {
    if dots == 0 {
        return Decimal(0);
    }
    Decimal(pixels as u64 * 2540 / dots as u64)
}

/// A number of hundredths, displayed with two decimals.
#[derive(Clone, Copy)]
pub struct Decimal(pub u64);

impl fmt::Display for Decimal {
    fn fmt<W: fmt::Write>(&self, f: &mut fmt::Formatter<W>) -> fmt::Result {
        let (whole, part) = (self.0 / 100, self.0 % 100);
        write!(f, "{whole}.{part:02}")
    }
}

// The name of a colour in warnings.
fn name_of(ink: Ink<'_>) -> &str {
    if ink.opacity == 0 {
        "transparent"
    } else {
        ink.name
    }
}

// The minimum difference in brightness, out of 255: 40 %, below which ISO/IEC 15415 grades symbol
// contrast D or F.
const CONTRAST: u32 = 102;

// The darkest and the brightest colour of dark (or of light) modules.
type Extremes<'a> = (Ink<'a>, Ink<'a>);

fn extremes<'a>(request: &Request<'a>, tone: Color, version: Option<Version>) -> Extremes<'a> {
    let ink = match tone {
        Color::Dark => request.dark,
        Color::Light => request.light,
    };
    let (mut darkest, mut brightest) = (ink, ink);
    let parts = request.parts.iter();
    let parts = parts.filter(|part| version.is_none_or(|it| has_part(it, part.part)));
    for part in parts.filter(|part| (part.tone == tone) != request.is_inverted) {
        if brightness(part.ink) <= brightness(darkest) {
            darkest = part.ink;
        }
        if brightness(part.ink) > brightness(brightest) {
            brightest = part.ink;
        }
    }
    (darkest, brightest)
}

// Whether a colour is sufficiently brighter than another.
fn is_brighter(ink: Ink<'_>, other: Ink<'_>) -> bool {
    brightness(ink) >= brightness(other).saturating_add(CONTRAST)
}

// The brightness of a colour on white, 0 to 255, weighted as in ITU-R BT.601.
fn brightness(ink: Ink<'_>) -> u32 {
    let (red, green, blue) = (ink.red as u32, ink.green as u32, ink.blue as u32);
    let grey = (299 * red + 587 * green + 114 * blue) / 1000;
    let opacity = ink.opacity as u32;
    let white = 255 * (255 - opacity);
    white.saturating_add(grey.saturating_mul(opacity)) / 255
}

// Whether a path has the file extension of another format. A .txt file may be of any text format.
fn is_named_otherwise(path: &str, format: Format) -> bool {
    match ending_format(path) {
        Some(Format::HalfBlocks) => !format.row().is_text,
        Some(named) => named != format,
        None => false,
    }
}

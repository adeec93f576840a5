//! Tests of the canvas: patterns, codewords and masks, compared as letters.

ghost use Rattle.std.specs.Prelude.{◌≡◌, IsTrue};
ghost use Rattle.qrcode_types.specs.Versions.{is_valid, has_level};

use crate::common::check_row;
use qrcode_png::sums::crc;
use qrcode_symbol::canvas::{Canvas, MaskPattern, Module, is_functional};
use qrcode_types::types::Version::{self, Micro, Normal};
use qrcode_types::types::{Color, EcLevel, QrResult};
use std::alloc::Global;
use std::process::Abort;

// Returns the letter of a module: `?` if it is empty, `#` or `.` for a masked dark or light one,
// `*` or `-` for an unmasked one.
fn letter(place: Module) -> char {
    match place {
        Module::Empty => '?',
        Module::Masked(Color::Dark) => '#',
        Module::Masked(Color::Light) => '.',
        Module::Unmasked(Color::Dark) => '*',
        Module::Unmasked(Color::Light) => '-',
    }
}

// Returns the letters of a canvas, a line for each row.
fn letters(alloc: Global, canvas: &Canvas, version: Version) -> QrResult<String>
    requires valid { IsTrue (is_valid version) }
    requires version { canvas.now.version ≡ version }
{
    let width = version.width();
    let mut text = String::new(alloc);
    for y in 0..width {
        if y > 0 {
            text.push('\n')?;
        }
        for x in 0..width {
            if 0 <= x && x < width && 0 <= y && y < width {
                text.push(letter(canvas.get(x, y)))?;
            }
        }
    }
    Ok(text)
}

// Draws a light module at a place, or nothing outside the square.
fn lighten(canvas: &mut Canvas, version: Version, x: i16, y: i16)
    requires valid { IsTrue (is_valid version) }
    requires version { canvas.old.version ≡ version }
    ensures version { canvas.new.version ≡ version }
    ensures level { canvas.new.level ≡ canvas.old.level }
{
    let width = version.width();
    if -width <= x && x < width && -width <= y && y < width {
        canvas.put(x, y, Color::Light);
    }
}

// Draws every module light.
fn lighten_all(canvas: &mut Canvas, version: Version)
    requires valid { IsTrue (is_valid version) }
    requires version { canvas.old.version ≡ version }
    ensures version { canvas.new.version ≡ version }
    ensures level { canvas.new.level ≡ canvas.old.level }
{
    for y in 0..version.width() {
        for x in 0..version.width() {
            lighten(canvas, version, x, y);
        }
    }
}

// What is drawn first.
#[derive(Copy, Clone)]
enum Start {
    // The functional patterns.
    Patterns,
    // A light module at a place, then the functional patterns.
    Over(i16, i16),
    // Every module light.
    Light,
    // Nothing.
    Nothing,
}

// Draws what `start` says.
fn begin(canvas: &mut Canvas, version: Version, start: Start)
    requires valid { IsTrue (is_valid version) }
    requires version { canvas.old.version ≡ version }
    ensures version { canvas.new.version ≡ version }
    ensures level { canvas.new.level ≡ canvas.old.level }
{
    let width = version.width();
    match start {
        Start::Patterns => canvas.draw_all_functional_patterns(),
        Start::Over(x, y) if 0 <= x && x < width && 0 <= y && y < width => {
            canvas.put(x, y, Color::Light);
            canvas.draw_all_functional_patterns();
        }
        Start::Light => lighten_all(canvas, version),
        _ => {}
    }
}

// Applies `mask`, if there is one and the version has it.
fn mask(canvas: &mut Canvas, version: Version, ec_level: EcLevel, mask: Option<MaskPattern>)
    requires has_level { IsTrue (has_level version ec_level) }
    requires version { canvas.old.version ≡ version }
    requires level { canvas.old.level ≡ ec_level }
    ensures version { canvas.new.version ≡ version }
    ensures level { canvas.new.level ≡ ec_level }
{
    match mask {
        Some(mask) if mask.exists_in(version) => canvas.apply_mask(mask),
        _ => {}
    }
}

// The data and error correction codewords.
type Codewords = (&'static [u8], &'static [u8]);

// A canvas to draw: its version and level, what is drawn first, its codewords, and the masks that
// are applied in turn.
#[derive(Copy, Clone)]
struct Drawing(Version, EcLevel, Start, Codewords, [Option<MaskPattern>; 2]);

// Draws a canvas.
fn draw(rt: &impl Abort, alloc: Global, drawing: Drawing) -> Canvas
    ensures has_level { IsTrue (has_level drawing.0 drawing.1) }
    ensures version { result.version ≡ drawing.0 }
    ensures level { result.level ≡ drawing.1 }
{
    let Drawing(version, ec_level, start, (data, ec), [first, second]) = drawing;
    assert!(rt; version.is_valid() && version.has_level(ec_level));
    let mut canvas = Canvas::new(alloc, version, ec_level).expect(rt, "a canvas");
    begin(&mut canvas, version, start);
    canvas.draw_data(data, ec);
    mask(&mut canvas, version, ec_level, first);
    mask(&mut canvas, version, ec_level, second);
    canvas
}

const EMPTY: Codewords = (&[], &[]);

const LINES: Option<MaskPattern> = Some(MaskPattern::VerticalLines);

const CHECKERBOARD: Option<MaskPattern> = Some(MaskPattern::Checkerboard);

// A canvas, and the CRC-32 of its letters. The squares were drawn by hand; those of Micro 3 and
// with masks by the places and masks of evidence/judge. `evidence/answers` has segno's.
struct Drawn(Drawing, u32);

#[rattlefmt::skip]
static DRAWN: [Drawn; 4] = [
    // The bits of missing codewords stay empty.
    Drawn(
        Drawing(Normal(2), EcLevel::L, Start::Over(18, 18), EMPTY, [None, None]), 0x4c0d_4abd,
    ),
    // 84 bits of data and 48 of error correction are drawn, and no module stays empty.
    Drawn(
        Drawing(
            Micro(3), EcLevel::L, Start::Patterns,
            (b"\x6e\x5d\xe2\x6e\x5d\xe2\x6e\x5d\xe2\x6e\x5d", b"\xe2\x6e\x5d\xe2\x6e\x5d"),
            [None, None],
        ),
        0x10ed_a893,
    ),
    // Patterns under one mask, and then under another, which only changes the format word.
    Drawn(
        Drawing(Normal(1), EcLevel::M, Start::Patterns, EMPTY, [LINES, None]), 0x3e87_d7ce,
    ),
    Drawn(
        Drawing(Normal(1), EcLevel::M, Start::Patterns, EMPTY, [LINES, CHECKERBOARD]), 0xf4c0_5c89,
    ),
];

// Whether the letters of the canvas have this CRC-32, and its colours and modules agree with them.
fn shows(alloc: Global, drawn: (&Canvas, &[Color], &[bool]), version: Version, sum: u32) -> bool
    requires valid { IsTrue (is_valid version) }
    requires version { drawn.0.now.version ≡ version }
{
    let (canvas, colors, modules) = drawn;
    let Ok(text) = letters(alloc, canvas, version) else {
        return false;
    };
    let mut i = 0usize;
    for letter in text.as_str().bytes() {
        if letter != b'\n' {
            let is_dark = letter == b'#' || letter == b'*';
            let is_color = matches!(colors.get(i), Some(Color::Dark)) == is_dark;
            if !is_color || matches!(modules.get(i), Some(true)) != is_dark {
                return false;
            }
            i = i.wrapping_add(1);
        }
    }
    let are_all = colors.len() == i && modules.len() == i;
    are_all && crc(text.as_bytes()) == sum
}

// Canvases, and their letters under the best mask.
#[rattlefmt::skip]
static BEST: [Drawn; 2] = [
    // All modules are light and stay so under each mask: all penalties are 170, so the first mask
    // wins, with the format word 0x4445.
    Drawn(Drawing(Micro(1), EcLevel::L, Start::Light, EMPTY, [None, None]), 0x956d_d1f3),
    // On an empty canvas the masks have the penalties 80, 85, 68 and 85: the third wins, with the
    // format word 0x4e2b.
    Drawn(Drawing(Micro(1), EcLevel::L, Start::Nothing, EMPTY, [None, None]), 0xcb02_1188),
];

// Whether a clone of the canvas, or the canvas under its best mask, has the expected letters, and
// the canvas the same modules.
fn draws(rt: &impl Abort, alloc: Global, drawn: &Drawn, is_best: bool) -> bool {
    let canvas = draw(rt, alloc, drawn.0);
    let copy = match is_best {
        true => canvas.apply_best_mask(alloc).expect(rt, "a canvas"),
        false => canvas.clone().expect(rt, "a copy"),
    };
    let modules = copy.to_bools(alloc).expect(rt, "modules");
    let colors = match is_best {
        true => canvas.into_best_colors(alloc),
        false => canvas.into_colors(alloc),
    };
    let colors = colors.expect(rt, "colours");
    shows(alloc, (&copy, &colors, &modules), drawn.0.0, drawn.1)
}

#[test]
fn canvases_are_drawn(rt: HostRuntime) {
    for (i, drawn) in DRAWN.iter().enumerate() {
        check_row(&rt, i, draws(&rt, rt.alloc(), drawn, false));
    }
    for (i, drawn) in BEST.iter().enumerate() {
        check_row(&rt, i, draws(&rt, rt.alloc(), drawn, true));
    }
}

#[test]
fn coordinates_wrap(rt: HostRuntime) {
    let canvas = Canvas::new(rt.alloc(), Normal(1), EcLevel::L);
    let mut canvas = canvas.expect(&rt, "a canvas");
    canvas.put(2, -3, Color::Dark);
    let dark = Module::Masked(Color::Dark);
    assert!(rt; canvas.get(2, 18) == dark && canvas.get(-19, 18) == dark);
    *canvas.get_mut(-1, 4) = Module::Unmasked(Color::Light);
    assert!(rt; canvas.get(20, -17) == Module::Unmasked(Color::Light));
}

// A module, its colour, and its colours under a mask that keeps it and under one that inverts it.
#[rattlefmt::skip]
static MASKED: [(Module, Color, Color, Color); 4] = [
    (Module::Empty, Color::Light, Color::Light, Color::Dark),
    (Module::Masked(Color::Dark), Color::Dark, Color::Dark, Color::Dark),
    (Module::Unmasked(Color::Dark), Color::Dark, Color::Dark, Color::Light),
    (Module::Unmasked(Color::Light), Color::Light, Color::Light, Color::Dark),
];

#[test]
fn modules_are_masked(rt: HostRuntime) {
    for (i, (place, color, kept, turned)) in MASKED.iter().enumerate() {
        let is_color = place.is_dark() == (*color == Color::Dark) && Color::from(*place) == *color;
        let is_kept = place.mask(false) == Module::Masked(*kept);
        let is_turned = place.mask(true) == Module::Masked(*turned);
        check_row(&rt, i, is_color && is_kept && is_turned);
    }
}

// Places in Normal 7 and whether they belong to a pattern; negative coordinates count from the lower
// right corner. `bindings/c/facts` asks for all places from 0 on.
#[rattlefmt::skip]
static PLACES: [(i16, i16, bool); 7] = [
    (-7, -7, true), (-9, -9, true), (-10, -7, false), (8, -8, true), (6, -16, true),
    (5, -12, false), (-45, -45, true),
];

#[test]
fn functional_places(rt: HostRuntime) {
    for (i, (x, y, expected)) in PLACES.iter().enumerate() {
        let is_inside = -45 <= *x && *x < 45 && -45 <= *y && *y < 45;
        let is_same = is_inside && is_functional(Normal(7), 45, *x, *y) == *expected;
        check_row(&rt, i, is_same);
    }
    assert!(rt; is_functional(Micro(2), 13, 0, -1));
}

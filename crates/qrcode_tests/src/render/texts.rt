//! Tests of pictures that are texts or files, and of the traits of their pixels.

use crate::render::drawings::{DARK, DIAGONAL, DIGITS_NORMAL, Drawing, NONE, NORMAL_1};
use crate::render::pictures::Colors::{Both, Usual};
use crate::render::pictures::Size::{AtLeast, Default, Of};
use crate::render::pictures::Text::{Is, Sum};
use crate::render::pictures::Zone::{Off, OffAfter, On};
use crate::render::pictures::{Row, Text, writes};
use qrcode_render::string::{Element, Str};
use qrcode_render::unicode::Dense1x2;
use qrcode_render::{Renderer, pic, svg};
use qrcode_sheets::svg_path::{Path, PathElement};
use qrcode_sheets::{pbm, pgm};
use qrcode_types::types::Color;

#[rattlefmt::skip]
static CHARACTERS: [Row<char, Text>; 7] = [
    Row(DIAGONAL, On(1), Usual, Default, Is("    \n █  \n  █ \n    ")),
    Row(NONE, On(0), Usual, Default, Is("")),
    Row(NONE, On(1), Usual, Default, Is("  \n  ")),
    Row(NORMAL_1, Off(4), Both('#', '.'), Of(1, 1), Is(DIGITS_NORMAL)),
    // The order of setters matters: first the quiet zone is on when the size is set, then off.
    Row(DARK, OffAfter(1), Usual, AtLeast(10, 10), Is("████\n████\n████\n████")),
    Row(DARK, Off(1), Usual, AtLeast(10, 10), Is(
        "██████████\n██████████\n██████████\n██████████\n██████████\n\
        ██████████\n██████████\n██████████\n██████████\n██████████"
    )),
    // The printed symbol, each module as two blocks or two spaces.
    Row(NORMAL_1, Off(4), Usual, Of(2, 1), Sum(0x84fe_a9d7)),
];

#[rattlefmt::skip]
static TEXTS: [Row<Str<'static>, Text>; 1] = [
    Row(DIAGONAL, On(1), Both(Str("!B!"), Str("A")), Of(2, 2), Is(
        "AAAAAAAA\nAAAAAAAA\nAA!B!!B!AAAA\nAA!B!!B!AAAA\n\
        AAAA!B!!B!AA\nAAAA!B!!B!AA\nAAAAAAAA\nAAAAAAAA"
    )),
];

static HALF_BLOCKS: [Row<Dense1x2, Text>; 2] = [
    Row(NONE, On(0), Usual, Default, Is("")),
    Row(DIAGONAL, On(1), Usual, Default, Is(" ▄  \n  ▀ ")),
];

#[rattlefmt::skip]
static SVG: [Row<svg::Color<'static>, Text>; 1] = [
    Row(DARK, On(0), Usual, Default, Is(concat!(
        "<?xml version=\"1.0\" standalone=\"yes\"?><svg xmlns=\"http://www.w3.org/2000/svg\" ",
        "version=\"1.1\" width=\"8\" height=\"8\" viewBox=\"0 0 8 8\" ",
        "shape-rendering=\"crispEdges\"><rect x=\"0\" y=\"0\" width=\"8\" height=\"8\" ",
        "fill=\"#fff\"/><path fill=\"#000\" d=\"M0 0h8v8H0V0\"/></svg>"
    ))),
];

#[rattlefmt::skip]
static PIC: [Row<pic::Color, Text>; 1] = [
    Row(DARK, On(0), Usual, Default, Is(concat!(
        "maxpswid=8;maxpsht=8;movewid=0;moveht=1;boxwid=1;boxht=1\n",
        "define p { box wid $3 ht $4 fill 1 with .nw at $1,-$2 }\n",
        "box wid maxpswid ht maxpsht with .nw at 0,0\np(0,0,8,8)\n"
    ))),
];

#[rattlefmt::skip]
static PATHS: [Row<Path<'static>, Text>; 1] = [
    Row(
        Drawing(2, "##\n.#"), On(1), Both(Path("a\"b<c&d>"), Path("t&n")), Of(3, 2),
        Is(concat!(
            "<?xml version=\"1.0\" standalone=\"yes\"?><svg xmlns=\"http://www.w3.org/2000/svg\" ",
            "version=\"1.1\" width=\"12\" height=\"8\" viewBox=\"0 0 4 4\" ",
            "preserveAspectRatio=\"none\" shape-rendering=\"crispEdges\">",
            "<rect width=\"4\" height=\"4\" fill=\"t&amp;n\"/>",
            "<path fill=\"a&quot;b&lt;c&amp;d&gt;\" stroke=\"none\" ",
            "d=\"m1 1h2v1h-2m1 0h1v1h-1\"/></svg>"
        )),
    ),
];

#[rattlefmt::skip]
static ELEMENTS: [Row<PathElement<'static>, Text>; 1] = [
    Row(DARK, On(1), Both(PathElement("navy"), PathElement("#fff")), Default, Is(concat!(
        "<svg xmlns=\"http://www.w3.org/2000/svg\" version=\"1.1\" width=\"24\" height=\"24\" ",
        "viewBox=\"0 0 3 3\" preserveAspectRatio=\"none\" shape-rendering=\"crispEdges\">",
        "<rect width=\"3\" height=\"3\" fill=\"#fff\"/><path fill=\"navy\" ",
        "stroke=\"none\" d=\"m1 1h1v1h-1\"/></svg>"
    ))),
];

#[test]
fn texts_are_written(rt: HostRuntime) {
    writes(&rt, rt.alloc(), &CHARACTERS);
    writes(&rt, rt.alloc(), &TEXTS);
    writes(&rt, rt.alloc(), &HALF_BLOCKS);
    writes(&rt, rt.alloc(), &SVG);
    writes(&rt, rt.alloc(), &PIC);
    writes(&rt, rt.alloc(), &PATHS);
    writes(&rt, rt.alloc(), &ELEMENTS);
}

static SQUARE: [Color; 4] = [Color::Dark, Color::Light, Color::Light, Color::Dark];

// A negative, and greys whose quiet zone is changed.
#[test]
fn files_are_in_colours(rt: HostRuntime) {
    let mut renderer = Renderer::<pbm::Bit>::new(&SQUARE, 2, 0);
    renderer
        .dark_color(pbm::Bit::White)
        .light_color(pbm::Bit::Black)
        .module_dimensions(5, 2);
    let file = renderer.build(rt.alloc()).expect(&rt, "a file");
    let pixels = b"\x07\xc0\x07\xc0\xf8\0\xf8\0".as_slice();
    assert!(rt; file.strip_prefix(b"P4\n10 4\n") == Some(pixels));
    let mut renderer = Renderer::<pgm::Grey>::new(&SQUARE, 2, 4);
    renderer
        .quiet_zone_modules(1)
        .quiet_zone(false)
        .quiet_zone(true)
        .module_size(1);
    renderer
        .dark_color(pgm::Grey(40))
        .light_color(pgm::Grey(200));
    let file = renderer.build(rt.alloc()).expect(&rt, "a file");
    let pixels = b"\xc8\xc8\xc8\xc8\xc8\x28\xc8\xc8\xc8\xc8\x28\xc8\xc8\xc8\xc8\xc8".as_slice();
    assert!(rt; file.strip_prefix(b"P5\n4 4\n255\n") == Some(pixels));
}

#[test]
fn pixels_have_traits(rt: HostRuntime) {
    assert!(rt; '█'.strlen() == 3 && Str("!B!").strlen() == 3);
    assert!(rt; svg::Color::default().0 == "" && svg::Color("#000") < svg::Color("#fff"));
    assert!(rt; pic::Color::default() == pic::Color);
}

//! Runs each example of `qrcode_facts` once.

use qrcode::EcLevel::{self, H, L, M, Q};
use qrcode::QrCode;
use qrcode::Version::{self, Micro, Normal};
use qrcode::types::QrResult;
use qrcode_contents::errors::{Cause, ContentError, Field};
use qrcode_contents::payment::{Payment, PaymentVersion};
use qrcode_facts::drawings::{as_chars, as_grey_map, as_half_blocks, as_pairs, as_pic, as_svg};
use qrcode_facts::label::label_bars;
use qrcode_facts::payments::payment;
use qrcode_facts::several::leaflets;
use qrcode_facts::ticket::ticket_blocks;
use qrcode_facts::{plain, texts};
use qrcode_reader::read_parts;
use std::alloc::Global;

// Whether the text contains `part`.
fn has(text: QrResult<String>, part: &str) -> bool {
    matches!(&text, Ok(text) if text.as_str().contains(part))
}

// The symbol that the standard prints.
#[test]
fn symbols_are_drawn(rt: HostRuntime) {
    let alloc = rt.alloc();
    let code = QrCode::new(alloc, b"01234567").expect(&rt, "a symbol");
    assert!(rt; has(as_chars(alloc, &code), "\n    ███████  █ ██ ███████    \n"));
    let pairs = "\n        ##############    ##  ####  ##############        \n";
    assert!(rt; has(as_pairs(alloc, &code), pairs));
    let halves = "\n    █▀▀▀▀▀█  █▄██ █▀▀▀▀▀█    \n";
    assert!(rt; has(as_half_blocks(alloc, &code), halves));
    assert!(rt; has(as_svg(alloc, &code), "viewBox=\"0 0 232 232\""));
    assert!(rt; has(as_pic(alloc, &code), "maxpswid=29;maxpsht=29;"));
    let file = as_grey_map(alloc, &code).expect(&rt, "a file");
    assert!(rt; file.starts_with(b"P5\n232 232\n255\n") && file.len() == 53_839);
}

#[test]
fn plain_calls_are_drawn(rt: HostRuntime) {
    let alloc = rt.alloc();
    assert!(rt; has(plain::within(alloc), "viewBox=\"0 0 290 290\""));
    let image = plain::colors(alloc).expect(&rt, "an image");
    assert!(rt; image.dimensions() == (203, 203));
}

const TICKET: &str = "\
█████████████████
██ ▄▄▄▄▄ █▄▀▄█▄██
██ █   █ █   █ ██
██ █▄▄▄█ █▄▄██▀██
██▄▄▄▄▄▄▄█▄▄▄▀ ██
██▄ ▀ ▀ ▀▄▄  ████
██▄▄▀▄█ ▀▀▀ ▀▄▄██
██▄▄▄█▄▄█▄██▄█▄██
▀▀▀▀▀▀▀▀▀▀▀▀▀▀▀▀▀";

#[test]
fn tickets_are_drawn(rt: HostRuntime) {
    let ticket = ticket_blocks(rt.alloc(), 12_345_678).expect(&rt, "a text");
    assert!(rt; ticket.as_str() == TICKET);
    assert!(rt; has(ticket_blocks(rt.alloc(), u32::MAX), "\n▀▀▀▀▀▀▀▀▀▀▀▀▀▀▀▀▀"));
}

// Left, top, width and height of the first bars: the first two rows of the printed symbol are
// `#######..#.##.#######` and `#.....#..####.#.....#`.
#[rattlefmt::skip]
static FIRST_BARS: [(u32, u32, u32, u32); 9] = [
    (16, 16, 28, 4), (52, 16, 4, 4), (60, 16, 8, 4), (72, 16, 28, 4),
    (16, 20, 4, 4), (40, 20, 4, 4), (52, 20, 16, 4), (72, 20, 4, 4), (96, 20, 4, 4),
];

#[test]
fn a_label_is_drawn(rt: HostRuntime) {
    let bars = label_bars(rt.alloc(), b"01234567").expect(&rt, "bars");
    for (bar, sides) in bars.iter().zip(FIRST_BARS.iter()) {
        assert!(rt; (bar.left, bar.top, bar.width, bar.height) == *sides);
    }
    assert!(rt; bars.len() == 112);
}

const CITY: &str = "Z\u{fc}rich";

const GREETING: &str = "\u{3053}\u{3093}\u{306b}\u{3061}\u{306f}\u{4e16}\u{754c}";

// The city and the greeting.
const BOTH: &str = "Z\u{fc}rich\u{3053}\u{3093}\u{306b}\u{3061}\u{306f}\u{4e16}\u{754c}";

const GREEK: &[u8] = b"\xca\xfe\xe4\xe9\xea\xe1\xf2 QR";

// Whether a symbol of this version and level decodes to these bytes.
fn says(alloc: Global, code: QrResult<QrCode>, kind: (Version, EcLevel), bytes: &[u8]) -> bool {
    let Ok(code) = code else {
        return false;
    };
    match read_parts(alloc, code.colors()) {
        Ok(read) => (read.version, read.ec_level) == kind && read.parts.bytes.as_slice() == bytes,
        Err(_) => false,
    }
}

#[test]
fn symbols_are_made(rt: HostRuntime) {
    let alloc = rt.alloc();
    let (city, greeting) = (CITY.as_bytes(), GREETING.as_bytes());
    let sign = texts::sign(alloc, GREETING);
    assert!(rt; says(alloc, sign, (Normal(2), M), greeting));
    assert!(rt; says(alloc, texts::marked_sign(alloc, CITY), (Normal(1), M), city));
    assert!(rt; says(alloc, texts::small_label(alloc, CITY), (Normal(2), M), city));
    assert!(rt; says(alloc, texts::smallest(alloc, CITY), (Micro(3), L), city));
    let safest = texts::smallest_and_safest(alloc, CITY);
    assert!(rt; says(alloc, safest, (Micro(3), M), city));
    let bytes = texts::bytes_in_normal_5(alloc, b"\xca\xfe");
    assert!(rt; says(alloc, bytes, (Normal(5), H), b"\xca\xfe"));
    let parts = texts::in_two_parts(alloc, CITY, GREETING);
    assert!(rt; says(alloc, parts, (Normal(4), Q), BOTH.as_bytes()));
    assert!(rt; says(alloc, plain::greek(alloc), (Normal(1), L), GREEK));
}

// The text has 640 bytes. Normal 10 (216 data codewords) holds 211 after a header, so three parts of
// 213 do not fit; four have 160, which fit Normal 9 (182, holds 178) but not Normal 8 (154, holds
// 150).
#[test]
fn leaflets_are_few(rt: HostRuntime) {
    let text = "pijamal\u{131} hasta ya\u{11f}\u{131}z \u{15f}of\u{f6}re".repeat(rt.alloc(), 20);
    let text = text.expect(&rt, "a text");
    let codes = leaflets(rt.alloc(), text.as_str()).expect(&rt, "symbols");
    assert!(rt; matches!(codes.as_slice(), [it, _, _, _] if it.version() == Normal(9)));
}

// The example of the guidelines EPC069-12.
const PAYMENT: Payment<'static> = Payment {
    version: PaymentVersion::One,
    bic: "BPOTBEB1",
    name: "Red Cross of Belgium",
    iban: "BE72000000001616",
    cents: 100,
    purpose: "CHAR",
    reference: "",
    message: "Urgency fund",
    information: "Sample EPC QR code",
};

static WITHOUT_BANK: Payment<'static> = Payment { bic: "", ..PAYMENT };

// The symbol has as many modules as segno's. A payment of version 001 needs the identifier of a bank
// (C writes one without as version 002).
#[test]
fn payments_have_symbols(rt: HostRuntime) {
    let code = payment(rt.alloc(), &PAYMENT);
    assert!(rt; matches!(&code, Ok(code) if code.width() == 41));
    let refused = ContentError::Refused(Field::Bic, Cause::Empty);
    assert!(rt; WITHOUT_BANK.text(rt.alloc()).err() == Some(refused));
}

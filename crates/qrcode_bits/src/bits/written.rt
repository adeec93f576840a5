//! Writes segments: mode indicator, length field and data bits.

ghost use Rattle.std.specs.Prelude.{◌≡◌, ◌+◌, ◌-◌, ◌*◌, ◌/◌, ◌<◌, ◌≤◌, ◌^◌, ◌++◌, ◌&&◌, not, false, length, IsTrue};
ghost use Rattle.std.specs.List.{list_all};
ghost use Rattle.qrcode_types.specs.Bits.{number_bits, bits_of};
ghost use Rattle.qrcode_types.specs.Versions.{is_valid};
ghost use Rattle.qrcode_types.specs.Modes as modes;
ghost use Rattle.qrcode_types.specs.Characters as characters;
ghost use Rattle.qrcode_bits.specs.Segments as segments;
ghost use Rattle.qrcode_bits.specs.Refusals.{is_checked};
ghost use Rattle.qrcode_bits.specs.Written.{written_piece, numeric_bits, alphanumeric_bits, kanji_bits};

use super::stream::Stream;
use crate::digits::are_digits;
use qrcode_types::characters::{
    alphanumeric_number, can_write, character_count, digit_number, kanji_number,
};
use qrcode_types::modes::indicator;
use qrcode_types::types::{Mode, Version};

// Returns whether the bytes can be pushed in the mode; Alphanumeric takes any.
pub(super) fn may_write(mode: Mode, bytes: &[u8]) -> bool
    ensures { result ≡ not (is_checked mode && not (characters.can_write mode bytes.now)) }
{
    match mode {
        Mode::Numeric => are_digits(bytes),
        Mode::Alphanumeric | Mode::Byte => true,
        Mode::Kanji => can_write(mode, bytes),
    }
}

// Appends `bytes` in `mode`, with mode indicator and length field.
pub(super) fn push_written(stream: &mut Stream, version: Version, mode: Mode, bytes: &[u8])
    requires valid { IsTrue (is_valid version) }
    requires mode_exists { IsTrue (modes.has_mode version mode) }
    requires counted { characters.character_count mode (length bytes.now)
        < 2 ^ modes.length_bits_count mode version }
    requires writable { is_checked mode && not (characters.can_write mode bytes.now) ≡ false }
    requires room { let count = characters.character_count mode (length bytes.now) in
        segments.cost_of version mode count ≤ stream.old.room }
    ensures { stream.new.bits
        ≡ stream.old.bits ++ written_piece version (record { mode = mode; chunk = bytes.now }) }
{
    push_header(stream, version, mode, character_count(mode, bytes.len()));
    match mode {
        Mode::Numeric => push_digits(stream, bytes),
        Mode::Alphanumeric => push_characters(stream, bytes),
        Mode::Byte => push_bytes(stream, bytes),
        Mode::Kanji => push_pairs(stream, bytes),
    }
}

// Appends the mode indicator and the length field.
#[tactic(auto, using(crate::proofs::Headers::header_fits))]
fn push_header(stream: &mut Stream, version: Version, mode: Mode, count: usize)
    requires valid { IsTrue (is_valid version) }
    requires mode_exists { IsTrue (modes.has_mode version mode) }
    requires counted { count < 2 ^ modes.length_bits_count mode version }
    requires room { modes.mode_bits_count version + modes.length_bits_count mode version
        ≤ stream.old.room }
    ensures bits { stream.new.bits
        ≡ stream.old.bits
        ++ (number_bits (modes.mode_bits_count version) (modes.indicator version mode)
        ++ number_bits (modes.length_bits_count mode version) count) }
    ensures room { stream.old.room
        ≤ stream.new.room + (modes.mode_bits_count version + modes.length_bits_count mode version) }
{
    stream.push_number(version.mode_bits_count() as u32, indicator(version, mode));
    stream.push_number(mode.length_bits_count(version) as u32, count as u32);
}

// Appends digits, three in ten bits, a last two in seven, a last one in four.
fn push_digits(stream: &mut Stream, digits: &[u8])
    requires digits { IsTrue (list_all characters.is_digit digits.now) }
    requires room { (10 * length digits.now + 2) / 3 ≤ stream.old.room }
    ensures { stream.new.bits ≡ stream.old.bits ++ numeric_bits digits.now }
{
    let mut rest = digits;
    while let [first, second, third, more @ ..] = rest {
        let (first, second) = (digit_number(*first), digit_number(*second));
        stream.push_number(10, 100 * first + 10 * second + digit_number(*third));
        rest = more;
    }
    match rest {
        [first, second] => {
            stream.push_number(7, 10 * digit_number(*first) + digit_number(*second));
        }
        [last] => stream.push_number(4, digit_number(*last)),
        _ => {}
    }
}

// Appends alphanumeric characters, two in eleven bits, a last one in six.
fn push_characters(stream: &mut Stream, text: &[u8])
    requires room { (11 * length text.now + 1) / 2 ≤ stream.old.room }
    ensures { stream.new.bits ≡ stream.old.bits ++ alphanumeric_bits text.now }
{
    let mut rest = text;
    while let [first, second, more @ ..] = rest {
        stream.push_number(
            11,
            45 * alphanumeric_number(*first) + alphanumeric_number(*second),
        );
        rest = more;
    }
    if let [last] = rest {
        stream.push_number(6, alphanumeric_number(*last));
    }
}

fn push_bytes(stream: &mut Stream, bytes: &[u8])
    requires room { 8 * length bytes.now ≤ stream.old.room }
    ensures { stream.new.bits ≡ stream.old.bits ++ bits_of bytes.now }
{
    for byte in bytes {
        stream.push_number(8, u32::from(*byte));
    }
}

// Appends Kanji pairs, each in thirteen bits.
fn push_pairs(stream: &mut Stream, pairs: &[u8])
    requires pairs { IsTrue (characters.are_kanji pairs.now) }
    requires room { 13 * (length pairs.now / 2) ≤ stream.old.room }
    ensures { stream.new.bits ≡ stream.old.bits ++ kanji_bits pairs.now }
{
    let mut rest = pairs;
    while let [first, second, more @ ..] = rest {
        stream.push_number(13, kanji_number(*first, *second));
        rest = more;
    }
}

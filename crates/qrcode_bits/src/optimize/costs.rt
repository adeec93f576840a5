//! Counts the fewest bits for the data from a place on, by the segment that is open there.

ghost use Rattle.std.specs.Prelude.{◌≡◌, ◌+◌, IsTrue};
ghost use Rattle.qrcode_types.specs.Versions.{is_valid};
ghost use Rattle.qrcode_bits.specs.LeastBits.{headers_of, header_in, AreSmall, IsSmall, better, begun, best_start, costs_before, step, at_end};

use super::headers::header;
use super::{Kind, Modes};
use qrcode_types::types::{Mode, Version};

// The bits of mode indicator and length field in each mode: more than any data takes if the version
// or the set lacks the mode.
#[derive(Copy, Clone)]
pub(super) struct HeaderBits {
    numeric: u32,
    alphanumeric: u32,
    byte: u32,
    kanji: u32,
}

impl HeaderBits {
    pub(super) fn of(version: Version, modes: Modes) -> HeaderBits
        requires { IsTrue (is_valid version) }
        ensures value { result ≡ headers_of modes version }
        ensures at_most { AreSmall result }
    {
        HeaderBits {
            numeric: header(version, modes, Mode::Numeric),
            alphanumeric: header(version, modes, Mode::Alphanumeric),
            byte: header(version, modes, Mode::Byte),
            kanji: header(version, modes, Mode::Kanji),
        }
    }

    pub(super) fn in_mode(self, mode: Mode) -> u32
        ensures { result ≡ header_in self mode }
    {
        match mode {
            Mode::Numeric => self.numeric,
            Mode::Alphanumeric => self.alphanumeric,
            Mode::Byte => self.byte,
            Mode::Kanji => self.kanji,
        }
    }
}

// The bits of a segment of one character in each mode, added up beforehand.
#[derive(Copy, Clone)]
pub(super) struct SingleCosts {
    headers: HeaderBits,
    digit: u32,
    letter: u32,
    byte: u32,
    pair: u32,
    ghost of_digit: { digit ≡ headers.numeric + 4 },
    ghost of_letter: { letter ≡ headers.alphanumeric + 6 },
    ghost of_byte: { byte ≡ headers.byte + 8 },
    ghost of_pair: { pair ≡ headers.kanji + 13 },
}

impl SingleCosts {
    pub(super) fn of(headers: HeaderBits) -> SingleCosts
        requires { AreSmall headers }
        ensures { result.headers ≡ headers }
    {
        SingleCosts {
            headers,
            digit: headers.numeric + 4,
            letter: headers.alphanumeric + 6,
            byte: headers.byte + 8,
            pair: headers.kanji + 13,
        }
    }
}

// The mode of a segment that begins at a place, and the fewest bits for the data from there on.
#[derive(Copy, Clone)]
pub(super) struct BestStart {
    pub(super) bits: u32,
    pub(super) mode: Mode,
}

impl BestStart {
    // Returns this start, or one in `mode` if that takes fewer bits.
    fn better_of(self, mode: Mode, bits: u32) -> BestStart
        ensures { result ≡ better self mode bits }
    {
        if bits < self.bits {
            BestStart { bits, mode }
        } else {
            self
        }
    }
}

// The fewest bits for the data from a place on: if a segment begins there (`start`), or if a
// segment of some mode is open. For digits it matters how many follow the last group of three, for
// letters whether one follows the last pair. `half_pair` is `pairs` one byte further on.
#[derive(Copy, Clone)]
pub(super) struct Costs {
    pub(super) start: BestStart,
    digits: u32,
    one_digit: u32,
    two_digits: u32,
    letters: u32,
    odd_letter: u32,
    bytes: u32,
    pairs: u32,
    half_pair: u32,
}

impl Costs {
    // The costs at the end of the data.
    pub(super) fn at_end() -> Costs
        ensures { result ≡ at_end }
    {
        Costs {
            start: BestStart {
                bits: 0,
                mode: Mode::Byte,
            },
            digits: 0,
            one_digit: 0,
            two_digits: 0,
            letters: 0,
            odd_letter: 0,
            bytes: 0,
            pairs: 0,
            half_pair: 0,
        }
    }

    // Returns the costs one byte earlier, for a byte of this kind.
    pub(super) fn with_byte_before(self, single: SingleCosts, kind: Kind) -> Costs
        requires headers { AreSmall single.headers }
        requires rest { IsSmall self }
        ensures { result ≡ step single.headers kind self }
    {
        match kind {
            Kind::Digit => {
                let start = self
                    .letter_start(single)
                    .better_of(Mode::Numeric, single.digit + self.one_digit);
                let mut rest = self.with_letter(start);
                rest.digits = start.bits.min(4 + self.one_digit);
                rest.one_digit = start.bits.min(3 + self.two_digits);
                rest.two_digits = start.bits.min(3 + self.digits);
                rest
            }
            Kind::Letter => self.with_letter(self.letter_start(single)),
            Kind::LoneLead | Kind::Other => {
                let mut rest = self.only_bytes(self.byte_start(single));

                // Going on takes no header, so it is shorter than a new segment.
                rest.bytes = 8 + self.bytes;
                rest
            }
            Kind::Pair => {
                let start = self
                    .byte_start(single)
                    .better_of(Mode::Kanji, single.pair + self.half_pair);
                let mut rest = self.only_bytes(start);
                rest.pairs = start.bits.min(13 + self.half_pair);
                rest
            }
        }
    }

    fn byte_start(self, single: SingleCosts) -> BestStart
        requires headers { AreSmall single.headers }
        requires rest { IsSmall self }
        ensures { result ≡ record { bits = begun single.headers Mode.Byte self; mode = Mode.Byte } }
    {
        BestStart {
            bits: single.byte + self.bytes,
            mode: Mode::Byte,
        }
    }

    fn letter_start(self, single: SingleCosts) -> BestStart
        requires headers { AreSmall single.headers }
        requires rest { IsSmall self }
        ensures { result ≡ best_start single.headers Kind.Letter self }
    {
        self.byte_start(single)
            .better_of(Mode::Alphanumeric, single.letter + self.odd_letter)
    }

    // Returns the costs before a byte that only an open Byte segment can take.
    fn only_bytes(self, start: BestStart) -> Costs
        requires { IsSmall self }
        ensures { result ≡ costs_before Kind.Other start self }
    {
        Costs {
            start,
            digits: start.bits,
            one_digit: start.bits,
            two_digits: start.bits,
            letters: start.bits,
            odd_letter: start.bits,
            bytes: start.bits.min(8 + self.bytes),
            pairs: start.bits,
            half_pair: self.pairs,
        }
    }

    // Returns the costs before an alphanumeric character.
    fn with_letter(self, start: BestStart) -> Costs
        requires { IsSmall self }
        ensures { result ≡ costs_before Kind.Letter start self }
    {
        let mut rest = self.only_bytes(start);
        rest.letters = start.bits.min(6 + self.odd_letter);
        rest.odd_letter = start.bits.min(5 + self.letters);
        rest
    }
}

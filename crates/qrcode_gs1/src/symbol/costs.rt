//! Counts the fewest bits that the rest of the data takes, by the segment that is open before it.

ghost use Rattle.std.specs.Prelude.{◌≡◌, ◌+◌, ◌≤◌, IsTrue};
ghost use Rattle.qrcode_types.specs.Versions.{is_valid, is_micro};
ghost use Rattle.qrcode_types.specs.declared.types.Mode.TheVariants.{Alphanumeric};
ghost use Rattle.qrcode_gs1.specs.symbol.Characters.{must_end};
ghost use Rattle.qrcode_gs1.specs.symbol.Fewest.{headers_of, after_byte, AreSmall, AreFew, AreAllFew, with_header, better, goes_or, at_end, ends, even_on, odd_on, best_start, step};

use qrcode::types::{Mode, Version};
use qrcode_types::characters::{is_alphanumeric, is_digit};

// The bits of mode indicator and length field in each mode.
#[derive(Copy, Clone)]
pub(crate) struct Headers {
    numeric: usize,
    alphanumeric: usize,
    byte: usize,
}

impl Headers {
    pub(crate) fn of(version: Version) -> Headers
        requires { IsTrue (is_valid version) }
        ensures { result ≡ headers_of version }
    {
        let indicator = version.mode_bits_count();
        Headers {
            numeric: indicator + Mode::Numeric.length_bits_count(version),
            alphanumeric: indicator + Mode::Alphanumeric.length_bits_count(version),
            byte: indicator + Mode::Byte.length_bits_count(version),
        }
    }
}

// How the rest goes on after an open segment: `bits` of all that is left, of which the segment
// takes the next `taken` bytes.
#[derive(Copy, Clone)]
pub(crate) struct Way {
    bits: usize,
    taken: usize,
}

impl Way {
    // Returns this way with a byte of this many bits before it.
    fn behind(self, bits: usize) -> Way
        requires rest { AreFew self }
        requires at_most { bits ≤ 11 }
        ensures { result ≡ after_byte bits self }
    {
        Way {
            bits: self.bits + bits,
            taken: self.taken + 1,
        }
    }

    // Returns `other` if it is possible (`can`) and takes fewer bits, else this way.
    fn or_if(self, can: bool, other: Way) -> Way
        ensures { result ≡ goes_or self can other }
    {
        if can && other.bits < self.bits {
            other
        } else {
            self
        }
    }
}

// The first segment of the rest, so that the rest takes the fewest bits: all its `bits`, and the
// segment's mode and number of bytes.
#[derive(Copy, Clone)]
pub(crate) struct Start {
    pub(crate) bits: usize,
    pub(crate) mode: Mode,
    pub(crate) taken: usize,
}

impl Start {
    // Begins a segment in `mode` with a header, which goes on in this way from its first byte.
    fn new(mode: Mode, header: usize, way: Way) -> Start
        requires { header + way.bits ≤ 18446744073709551615 }
        ensures { result ≡ with_header mode header way }
    {
        Start {
            bits: header + way.bits,
            mode,
            taken: way.taken,
        }
    }

    // Returns `other` if it is possible (`can`) and takes fewer bits, else this start.
    fn or_if(self, can: bool, other: Start) -> Start
        ensures { result ≡ better self can other }
    {
        if can && other.bits < self.bits {
            other
        } else {
            self
        }
    }

    // Returns the way of an open segment that ends here, before this start.
    fn ends(self) -> Way
        ensures { result ≡ ends self }
    {
        Way {
            bits: self.bits,
            taken: 0,
        }
    }
}

// The fewest bits that the rest takes, by what comes before it: nothing open, so that a segment
// starts here, or an open segment, which may take more bytes. An open Numeric segment is told by
// how many digits follow its last group of three, an Alphanumeric one by whether its number of
// letters is odd.
#[derive(Copy, Clone)]
pub(crate) struct RestCosts {
    pub(crate) start: Start,
    digits: Way,
    one_digit: Way,
    two_digits: Way,
    letters: Way,
    odd_letter: Way,
    bytes: Way,
}

impl RestCosts {
    // Returns the costs at the end of the data.
    pub(crate) fn at_end() -> RestCosts
        ensures { result ≡ at_end }
    {
        let start = Start {
            bits: 0,
            mode: Mode::Byte,
            taken: 0,
        };
        let end = start.ends();
        RestCosts {
            start,
            digits: end,
            one_digit: end,
            two_digits: end,
            letters: end,
            odd_letter: end,
            bytes: end,
        }
    }

    // Returns the costs of the rest from one byte earlier on: `byte`, then `follows`, or 0 at the
    // end.
    pub(crate) fn with_byte_before(self, headers: Headers, byte: u8, follows: u8) -> RestCosts
        requires headers { AreSmall headers }
        requires rest { AreAllFew self }
        ensures { result ≡ step headers byte follows self }
    {
        let digit = is_digit(byte);
        let letter = byte == 29 || is_alphanumeric(byte);
        let even = self.even_on(byte, follows);
        let one = self.one_digit.behind(4);
        let more = self.bytes.behind(8);
        let start = Start::new(Mode::Byte, headers.byte, more)
            .or_if(
                letter,
                Start::new(Mode::Alphanumeric, headers.alphanumeric, even),
            )
            .or_if(digit, Start::new(Mode::Numeric, headers.numeric, one));
        let end = start.ends();
        RestCosts {
            start,
            digits: end.or_if(digit, one),
            one_digit: end.or_if(digit, self.two_digits.behind(3)),
            two_digits: end.or_if(digit, self.digits.behind(3)),
            letters: end.or_if(letter, even),
            odd_letter: end.or_if(letter, self.odd_on(byte, follows)),
            bytes: end.or_if(true, more),
        }
    }

    // Returns how an open Alphanumeric segment of whole pairs goes on with `byte`.
    fn even_on(self, byte: u8, follows: u8) -> Way
        requires { AreAllFew self }
        ensures { result ≡ even_on byte follows self }
    {
        if must_end(byte, follows) {
            self.start.ends().behind(6)
        } else if byte == b'%' {
            self.letters.behind(11)
        } else {
            self.odd_letter.behind(6)
        }
    }

    // Returns how an open Alphanumeric segment with one letter after the pairs goes on with `byte`.
    fn odd_on(self, byte: u8, follows: u8) -> Way
        requires { AreAllFew self }
        ensures { result ≡ odd_on byte follows self }
    {
        if must_end(byte, follows) {
            self.start.ends().behind(5)
        } else if byte == b'%' {
            self.odd_letter.behind(11)
        } else {
            self.letters.behind(5)
        }
    }
}

// Returns whether an Alphanumeric segment must end after `byte`, if `follows` is next.
fn must_end(byte: u8, follows: u8) -> bool
    ensures { result ≡ must_end Alphanumeric byte follows }
{
    byte == 29 && (follows == 29 || follows == b'%')
}

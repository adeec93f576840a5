//! The codewords of a symbol as a stream of bits.

ghost use Rattle.std.specs.Prelude.{◌≡◌, ◌+◌, ◌*◌, ◌/◌, ◌%◌, ◌<◌, ◌++◌, drop, slice_get, IsTrue};
ghost use Rattle.qrcode_types.specs.Versions.{is_valid};
ghost use Rattle.qrcode_symbol.specs.Canvas.{drawn_bits};

use qrcode_types::tables::has_half_codeword;
use qrcode_types::types::{EcLevel, Version};
use std::marker::Model;

// The codewords that are not drawn yet, as a stream of bits: the lowest `bits_left` bits of
// `begun`, then `bytes`, the data, then `ec`, the error correction. With `has_half`, only the high
// half of the last data byte counts.
#[derive(Drop)]
pub(super) struct Codewords<'a> {
    begun: u32,
    bits_left: u32,
    bytes: &'a [u8],
    has_half: bool,
    ec: &'a [u8],
}

impl<'a> Model for Codewords<'a> {
    ghost use Rattle.std.specs.Prelude.{◌-◌, ◌*◌, ◌<◌, ◌++◌, Bool, List, length, take, if◌then◌else◌};
    ghost use Rattle.qrcode_types.specs.Bits.{number_bits, bits_of};

    ghost Value = { List Bool };

    ghost view = { λ c. number_bits c.bits_left c.begun
        ++ (take (8 * length c.bytes.now - (if c.has_half then 4 else 0)) (bits_of c.bytes.now)
        ++ bits_of c.ec.now) };

    ghost invariant = { λ c. c.bits_left < 8 };
}

impl<'a> Codewords<'a> {
    // Starts with all codewords of a symbol.
    pub(super) fn new(version: Version, ec_level: EcLevel, bytes: &'a [u8], ec: &'a [u8]) -> Self
        requires { IsTrue (is_valid version) }
        ensures { result ≡ drawn_bits version ec_level bytes.now ec.now }
    {
        Codewords {
            begun: 0,
            bits_left: 0,
            bytes,
            has_half: has_half_codeword(version, ec_level),
            ec,
        }
    }

    // Returns the next bit, if there is one.
    pub(super) fn next(&mut self) -> Option<bool>
        ensures value { result ≡ slice_get self.old 0 }
        ensures rest { self.new ≡ drop 1 self.old }
    {
        if self.bits_left == 0 {
            if !self.bytes.is_empty() {
                self.begun = self.bytes[0] as u32;
                self.bits_left = 8;
                self.bytes = &self.bytes[1..];
                if self.has_half && self.bytes.is_empty() {
                    self.begun >>= 4;
                    self.bits_left = 4;
                }
            } else if !self.ec.is_empty() {
                self.begun = self.ec[0] as u32;
                self.bits_left = 8;
                self.ec = &self.ec[1..];
            } else {
                return None;
            }
        }
        self.bits_left -= 1;
        Some((self.begun >> self.bits_left) % 2 == 1)
    }
}

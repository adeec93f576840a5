//! Finds the errors of a block: where and by what it is wrong.

ghost use Rattle.std.specs.Prelude.{◌≡◌, ℕ, ◌+◌, ◌<◌, ◌≤◌, List, length, slice_index, take};
ghost use Rattle.qrcode_types.specs.Bits.{AreBytes};
ghost use Rattle.qrcode_ec.specs.Codes.{Corrects, distance};
ghost use Rattle.qrcode_reader.specs.correct.Polynomials.{EndsAt, IsDivision};
ghost use Rattle.qrcode_reader.specs.correct.Errors.{error_at, IsLocator};

use crate::correct::recurrences::{Search, combine};
use qrcode_ec::{ROOM, power, product, quotient};

/// The bytes of the longest block: one for each power of 2 in the field.
pub(crate) const LONGEST: usize = 255;

// Divides a polynomial by x - `point`; returns the quotient and the rest, its value at `point`.
fn divide(coefficients: &[u8; ROOM], degree: usize, point: u8) -> ([u8; ROOM], u8)
    requires at_most { degree < 72 }
    requires ends { EndsAt coefficients.now (degree + 1) }
    ensures value { IsDivision coefficients.now point result.0 result.1 }
    ensures ends { EndsAt result.0 degree }
{
    let mut quotient = [0; ROOM];
    let mut rest = 0;
    for i in 0..degree + 1 {
        let j = degree - i;
        quotient[j] = rest;
        rest = coefficients[j] ^ product(point, rest);
    }
    (quotient, rest)
}

// Returns the error of the byte at `place`, counted from the last byte, if the block can be
// corrected: what to add to it. Zero if it is right.
fn error_at(locator: &Search, syndromes: &[u8; ROOM], place: usize) -> u8
    requires at_most { locator.now.degree ≤ 69 }
    requires ends { EndsAt locator.now.current (locator.now.degree + 1) }
    ensures value { (n : ℕ) (block corrected : List ℕ)
        → IsLocator block (slice_index syndromes.now) n locator.now.degree locator.now.current
        → place < length block
        → Corrects block n corrected → result ≡ error_at block corrected place }
{
    let point = power(place);
    let (other_places, value) = divide(&locator.current, locator.degree, point);
    if value != 0 {
        return 0;
    }
    let (_, slope) = divide(&other_places, locator.degree, point);
    if slope == 0 {
        return 0;
    }
    let height = combine(&other_places, locator.degree, syndromes, 0);
    quotient(height, slope)
}

/// Returns `block` without its errors, if it can be corrected.
pub(crate) fn corrected(block: &[u8], locator: &Search, syndromes: &[u8; ROOM]) -> [u8; LONGEST]
    requires length { length block.now ≤ 255 }
    requires at_most { locator.now.degree ≤ 69 }
    requires ends { EndsAt locator.now.current (locator.now.degree + 1) }
    ensures bytes { AreBytes result }
    ensures value { (n : ℕ) (corrected : List ℕ)
        → IsLocator block.now (slice_index syndromes.now) n locator.now.degree locator.now.current
        → Corrects block.now n corrected → take (length block.now) result ≡ corrected }
{
    let mut bytes = [0; LONGEST];
    for (i, byte) in block.iter().enumerate() {
        bytes[i] = *byte ^ error_at(locator, syndromes, block.len() - 1 - i);
    }
    bytes
}

/// Counts the places in which two lists of bytes of one length differ.
pub(crate) fn distance(first: &[u8], second: &[u8]) -> usize
    requires { length first.now ≡ length second.now }
    ensures { result ≡ distance first.now second.now }
{
    let mut count = 0;
    for (i, byte) in first.iter().enumerate() {
        if *byte != second[i] {
            count += 1;
        }
    }
    count
}

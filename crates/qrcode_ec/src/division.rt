//! Division by generator polynomials. The remainders are the error correction bytes.

ghost use Rattle.std.specs.Prelude.{◌≡◌, ◌⊎◌, ℕ, suc, ◌*◌, ◌<◌, ◌≤◌, ◌++◌, ◌∷◌, length, take, replicate, slice_index, bit_xor};
ghost use Rattle.qrcode_types.specs.Bits.{AreBytes};
ghost use Rattle.qrcode_ec.specs.Field.{product};
ghost use Rattle.qrcode_ec.specs.Codes.{Vanishes};
ghost use Rattle.qrcode_ec.specs.Dividing.{AreMultiples, AreOfGenerator, IsGenerator};

use crate::field::{power, product};
use std::simd::u8x32;

/// Number of coefficients that a generator or a remainder has room for, highest power first. Unused
/// places at the end are zero.
pub const ROOM: usize = 72;

// Number of coefficients that a vector holds. No block of a symbol has more error correction bytes.
const LANES: usize = 32;

// Each lane takes the next one; the last takes the first of a second vector.
const NEXT_LANES: [usize; LANES] = [
    1, 2, 3, 4, 5, 6, 7, 8, 9, 10, 11, 12, 13, 14, 15, 16, 17, 18, 19, 20, 21, 22, 23, 24, 25, 26,
    27, 28, 29, 30, 31, 32,
];

// Multiplies a polynomial by x - root, in place. `coefficients` are those after its leading 1, and
// `length` is how many there are afterwards.
fn multiply(coefficients: &mut [u8; ROOM], length: usize, root: u8)
    requires { length ≤ 72 }
    ensures below { (j : ℕ) → j < length → slice_index coefficients.new j
        ≡ bit_xor (slice_index coefficients.old j)
        (product root (slice_index (1 ∷ coefficients.old) j)) }
    ensures behind { (j : ℕ) → length ≤ j
        → slice_index coefficients.new j ≡ slice_index coefficients.old j }
{
    let mut previous = 1;
    for i in 0..length {
        let current = coefficients[i];
        coefficients[i] = current ^ product(root, previous);
        previous = current;
    }
}

// Returns the generator of this degree, without its leading 1: the product of x - 2^i for all i
// below `degree`.
fn generator(degree: usize) -> [u8; ROOM]
    requires { degree ≤ 69 }
    ensures vanishes { Vanishes (1 ∷ result) degree }
    ensures ends { (j : ℕ) → degree ≤ j → slice_index result j ≡ 0 }
{
    let mut coefficients = [0; ROOM];
    for i in 0..degree {
        multiply(&mut coefficients, i + 1, power(i));
    }
    coefficients
}

// Returns `factor` times the first `LANES` coefficients of `generator`.
fn multiple(generator: &[u8; ROOM], degree: usize, factor: u8) -> [u8; LANES]
    requires { (j : ℕ) → degree ≤ j → slice_index generator.now j ≡ 0 }
    ensures { (j : ℕ) → j < 32
        → slice_index result j ≡ product factor (slice_index generator.now j) }
{
    let mut row = [0; LANES];
    for j in 0..degree.min(LANES) {
        row[j] = product(factor, generator[j]);
    }
    row
}

// Does a step of long division: shifts a remainder by one byte, and subtracts `factor` times the
// generator.
fn advance(register: &mut [u8; ROOM], generator: &[u8; ROOM], degree: usize, factor: u8)
    requires { degree ≤ 69 }
    ensures below { (j : ℕ) → j < degree → slice_index register.new j
        ≡ bit_xor (slice_index register.old (suc j))
        (product factor (slice_index generator.now j)) }
    ensures behind { (j : ℕ) → degree ≤ j
        → slice_index register.new j ≡ slice_index register.old j }
{
    for i in 0..degree {
        register[i] = register[i + 1] ^ product(factor, generator[i]);
    }
}

// Does the same step as `advance` on a vector of the first `LANES` coefficients.
#[inline(always)]
fn advanced(register: u8x32, multiple: u8x32) -> u8x32
    requires register { length register ≡ 32 }
    requires multiple { length multiple ≡ 32 }
    ensures length { length result ≡ 32 }
    ensures value { (j : ℕ) → j < 32 → slice_index result j
        ≡ bit_xor (slice_index register (suc j)) (slice_index multiple j) }
{
    register.shuffle(u8x32::splat(0), NEXT_LANES) ^ multiple
}

// Returns the sum of two rows.
#[inline(always)]
fn sum(first: &[u8; LANES], second: &[u8; LANES]) -> u8x32
    ensures length { length result ≡ 32 }
    ensures value { (j : ℕ) → j < 32
        → slice_index result j ≡ bit_xor (slice_index first.now j) (slice_index second.now j) }
{
    u8x32::from_slice(first) ^ u8x32::from_slice(second)
}

// Returns `k * unit` times the generator's first `LANES` coefficients. `rows` already has the
// multiples by fewer units; most are the sum of two of these, which is faster than multiplying.
fn next_multiple(
    rows: &[[u8; LANES]; 16],
    generator: &[u8; ROOM],
    degree: usize,
    unit: usize,
    k: usize,
) -> [u8; LANES]
    requires unit { (unit ≡ 1) ⊎ (unit ≡ 16) }
    requires at_most { k < 16 }
    requires rows { AreMultiples generator.now unit k rows.now }
    requires ends { (j : ℕ) → degree ≤ j → slice_index generator.now j ≡ 0 }
    ensures { (j : ℕ) → j < 32
        → slice_index result j ≡ product (k * unit) (slice_index generator.now j) }
{
    let rest = k % 4;
    if rest == 0 || rest == k {
        return multiple(generator, degree, (k * unit) as u8);
    }
    sum(&rows[k - rest], &rows[rest]).to_array()
}

// Copies the lanes of a vector, and fills up with zeros.
#[inline(always)]
fn in_room(lanes: u8x32) -> [u8; ROOM]
    requires { length lanes ≡ 32 }
    ensures { result ≡ lanes ++ replicate 40 0 }
{
    let mut row = [0; ROOM];
    lanes.copy_to_slice(&mut row);
    row
}

// Returns the remainder for a generator of any degree, computed without the tables of multiples.
// Appended to `bytes`, it makes the whole vanish where the generator does.
fn divided(generator: &[u8; ROOM], degree: usize, bytes: &[u8]) -> [u8; ROOM]
    requires at_most { degree ≤ 69 }
    requires generator { IsGenerator degree generator.now }
    ensures vanishes { Vanishes (bytes.now ++ take degree result) degree }
    ensures bytes { AreBytes result }
{
    let mut register = [0; ROOM];
    for byte in bytes {
        let factor = *byte ^ register[0];
        advance(&mut register, generator, degree, factor);
    }
    register
}

/// Computes error correction bytes with the generator of one degree.
///
/// Holds the generator without its leading 1, and multiples of as many of its coefficients as a
/// vector has room for: `low` by the bytes below 16, `high` by the multiples of 16. Any byte is the
/// sum of one of each.
#[derive(Drop)]
pub struct Divider {
    /// The degree of the generator, which is the number of error correction bytes.
    pub degree: usize,
    generator: [u8; ROOM],
    low: [[u8; LANES]; 16],
    high: [[u8; LANES]; 16],
    pub ghost at_most: { degree ≤ 69 },
    pub ghost multiples: { AreOfGenerator degree generator low high },
}

impl Divider {
    /// Prepares division by the generator of this degree, at most 69.
    pub fn new(degree: usize) -> Divider
        requires { degree ≤ 69 }
        ensures { result.degree ≡ degree }
    {
        let generator = generator(degree);
        let mut low = [[0; LANES]; 16];
        let mut high = [[0; LANES]; 16];
        for k in 0..16 {
            low[k] = next_multiple(&low, &generator, degree, 1, k);
            high[k] = next_multiple(&high, &generator, degree, 16, k);
        }
        Divider {
            degree,
            generator,
            low,
            high,
        }
    }

    /// Returns the error correction bytes for `bytes`: the first `degree` bytes of the result.
    /// Appended to `bytes`, they make a Reed-Solomon codeword: the whole vanishes at `degree`
    /// powers of 2.
    pub fn remainder(&self, bytes: &[u8]) -> [u8; ROOM]
        ensures vanishes { Vanishes (bytes.now ++ take self.now.degree result) self.now.degree }
        ensures bytes { AreBytes result }
    {
        if self.degree <= LANES {
            self.short_remainder(bytes)
        } else {
            divided(&self.generator, self.degree, bytes)
        }
    }

    // Computes `remainder` for a degree up to `LANES`, as all symbols have, in one vector.
    fn short_remainder(&self, bytes: &[u8]) -> [u8; ROOM]
        requires { self.now.degree ≤ 32 }
        ensures vanishes { Vanishes (bytes.now ++ take self.now.degree result) self.now.degree }
        ensures bytes { AreBytes result }
    {
        let mut register = u8x32::splat(0);
        for byte in bytes {
            let factor = usize::from(*byte ^ register.to_array()[0]);
            register = advanced(
                register,
                sum(&self.low[factor % 16], &self.high[factor / 16]),
            );
        }
        in_room(register)
    }
}

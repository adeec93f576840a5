//! Syndromes of a block, and a short list of bytes that has the same.

ghost use Rattle.std.specs.Prelude.{◌≡◌, ◌↔◌, ℕ, ◌+◌, ◌<◌, ◌≤◌, IsTrue, length, slice_index, take, bit_xor};
ghost use Rattle.qrcode_types.specs.Bits.{AreBytes};
ghost use Rattle.qrcode_ec.specs.Codes.{syndrome};
ghost use Rattle.qrcode_reader.specs.correct.Errors.{AreSyndromes};

use qrcode_ec::{Divider, ROOM, power, product};

// Adds `bytes` to `row` from `place` on.
fn add_from(row: &mut [u8; ROOM], place: usize, bytes: &[u8])
    requires inside { place + length bytes.now ≤ 72 }
    ensures before { (k : ℕ) → k < place → slice_index row.new k ≡ slice_index row.old k }
    ensures value { (k : ℕ) → k < length bytes.now → slice_index row.new (place + k)
        ≡ bit_xor (slice_index row.old (place + k)) (slice_index bytes.now k) }
{
    for (j, byte) in bytes.iter().enumerate() {
        row[place + j] ^= *byte;
    }
}

/// Returns as many bytes as the generator's degree, with the same syndromes as `block`: its last
/// bytes, that many, plus the remainder of those before.
pub(crate) fn residue(divider: &Divider, block: &[u8]) -> [u8; ROOM]
    ensures of_bytes { AreBytes block.now }
    ensures bytes { AreBytes (take divider.now.degree result) }
    ensures value { (i : ℕ) → i < divider.now.degree
        → syndrome i (take divider.now.degree result) ≡ syndrome i block.now }
{
    let (front, end) = block.split_at(block.len().saturating_sub(divider.degree));
    let mut residue = divider.remainder(front);
    add_from(&mut residue, divider.degree - end.len(), end);
    residue
}

/// Returns whether all bytes are zero.
pub(crate) fn is_zero(bytes: &[u8]) -> bool
    ensures { IsTrue result
        ↔ ((j : ℕ) → j < length bytes.now → slice_index bytes.now j ≡ 0) }
{
    bytes.iter().all(|byte| *byte == 0)
}

// Returns the value of `block`, as a polynomial, at the `i`-th power of 2.
fn syndrome(block: &[u8], i: usize) -> u8
    ensures { result ≡ syndrome i block.now }
{
    let point = power(i);
    let mut sum = 0;
    for byte in block {
        sum = product(point, sum) ^ *byte;
    }
    sum
}

/// Returns the first `count` syndromes of `block`.
pub(crate) fn syndromes(block: &[u8], count: usize) -> [u8; ROOM]
    requires { count ≤ 72 }
    ensures { AreSyndromes (slice_index result) count block.now }
{
    let mut values = [0; ROOM];
    for i in 0..count {
        values[i] = syndrome(block, i);
    }
    values
}

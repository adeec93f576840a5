//! Corrects blocks of Reed-Solomon codes, as QR codes use them (ISO/IEC 18004:2006, Annex B).

mod errors;
mod recurrences;
mod residues;

ghost use Rattle.std.specs.Prelude.{◌≡◌, ◌↔◌, ℕ, ◌<◌, ◌≤◌, List, Some, codes, IfOk, OnErr, IsTrue, is_ok, length, take};
ghost use Rattle.qrcode_types.specs.Bits.{AreBytes};
ghost use Rattle.qrcode_ec.specs.Codes.{Corrects, Vanishes, distance, syndrome};

use errors::{LONGEST, corrected, distance};
use qrcode_ec::Divider;
use recurrences::Search;
use residues::{is_zero, residue, syndromes};
use std::error::Error;
use std::fmt;

/// The error of a block that cannot be corrected: each valid block differs from it in more bytes
/// than half the number of its error correction bytes.
#[derive(Debug, PartialEq, Eq, Copy, Clone)]
pub struct Damaged;

impl fmt::Display for Damaged {
    ghost output = { λ _. Some (codes "too many errors in a block") };

    // Width, fill and precision change nothing.
    ghost styled_output = { λ _ _. Some (codes "too many errors in a block") };

    fn fmt<W: fmt::Write>(&self, f: &mut fmt::Formatter<W>) -> fmt::Result {
        f.write_str("too many errors in a block")
    }
}

impl Error for Damaged {}

/// Corrects blocks with a given number of error correction bytes. What depends on that number is
/// computed once; a block without errors is then read in a single pass.
#[derive(Drop)]
pub struct Corrector {
    /// Divides by the generator, whose degree is the number of error correction bytes.
    pub divider: Divider,
}

impl Corrector {
    /// Returns a corrector for blocks with `ec_length` error correction bytes, at most 69.
    pub fn new(ec_length: usize) -> Corrector
        requires { ec_length ≤ 69 }
        ensures value { result.divider.degree ≡ ec_length }
    {
        Corrector {
            divider: Divider::new(ec_length),
        }
    }

    /// Returns whether `block` has no errors: whether all its syndromes are zero.
    pub fn vanishes(&self, block: &[u8]) -> bool
        ensures value { IsTrue result ↔ Vanishes block.now self.now.divider.degree }
    {
        is_zero(&residue(&self.divider, block)[..self.divider.degree])
    }

    // Returns `block` without its errors, if it can be corrected. `residue` has the same syndromes
    // as `block`, but is short.
    fn candidate(&self, block: &[u8], residue: &[u8]) -> [u8; LONGEST]
        requires length { length block.now ≤ 255 }
        requires residue { (i : ℕ) → i < self.now.divider.degree
            → syndrome i residue.now ≡ syndrome i block.now }
        ensures bytes { AreBytes result }
        ensures value { (corrected : List ℕ)
            → Corrects block.now self.now.divider.degree corrected
            → take (length block.now) result ≡ corrected }
    {
        let syndromes = syndromes(residue, self.divider.degree);
        let locator = Search::shortest(&syndromes, self.divider.degree);
        corrected(block, &locator, &syndromes)
    }

    /// Corrects `block`, of at most 255 bytes, and returns how many were wrong: at most half the
    /// number of error correction bytes, anywhere in the block. On an error `block` is unchanged.
    ///
    /// Errors: `Damaged` if no list of bytes corrects `block`.
    pub fn correct(&self, block: &mut [u8]) -> Result<usize, Damaged>
        requires { length block.old ≤ 255 }
        ensures value { IfOk result (λ _. Corrects block.old self.now.divider.degree block.new) }
        ensures count { IfOk result (λ wrong. wrong ≡ distance block.old block.new) }
        ensures accepts { (corrected : List ℕ)
            → Corrects block.old self.now.divider.degree corrected → IsTrue (is_ok result) }
        ensures only { (corrected : List ℕ)
            → Corrects block.old self.now.divider.degree corrected → corrected ≡ block.new }
        ensures unchanged { OnErr result (block.new ≡ block.old) }
    {
        let n = self.divider.degree;
        let residue = residue(&self.divider, block);
        let residue = &residue[..n];
        if is_zero(residue) {
            return Ok(0);
        }
        let bytes = self.candidate(block, residue);
        let bytes = &bytes[..block.len()];
        let wrong = distance(block, bytes);
        if wrong > n / 2 || !self.vanishes(bytes) {
            return Err(Damaged);
        }
        block.copy_from_slice(bytes);
        Ok(wrong)
    }
}

/// Corrects a single block of at most 255 bytes, the last `ec_length` of which, at most 69, are for
/// error correction: [`Corrector::correct`] for one block.
///
/// Errors: `Damaged` if no list of bytes corrects `block`.
pub fn correct(block: &mut [u8], ec_length: usize) -> Result<usize, Damaged>
    requires at_most { ec_length ≤ 69 }
    requires length { length block.old ≤ 255 }
    ensures value { IfOk result (λ _. Corrects block.old ec_length block.new) }
    ensures count { IfOk result (λ wrong. wrong ≡ distance block.old block.new) }
    ensures accepts { (corrected : List ℕ)
        → Corrects block.old ec_length corrected → IsTrue (is_ok result) }
    ensures only { (corrected : List ℕ)
        → Corrects block.old ec_length corrected → corrected ≡ block.new }
    ensures unchanged { OnErr result (block.new ≡ block.old) }
{
    Corrector::new(ec_length).correct(block)
}

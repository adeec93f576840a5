//! Joins the parts that were read from several symbols.

ghost use Rattle.std.specs.Prelude.{◌≡◌, ℕ, ◌+◌, List, IfOk, IfErr, IsOkUnless};
ghost use Rattle.qrcode_append.specs.Joining.{belongs, first_stranger, IsPartAt, IsNoPartAt, joined_to, IsOnceBelow, IsJoined, IsJoinRefused, IsPlaceRefused, AreShares, last_named, parity_named};
ghost use Rattle.qrcode_append.specs.declared.errors.JoinError.TheVariants.{OutOfMemory};

use crate::division::parity_of;
use crate::errors::JoinError;
use std::alloc::Global;

/// What was read from one of several symbols: the fields of its header, and its bytes.
#[derive(Copy, Clone, Debug)]
pub struct Part<'a> {
    /// The place of the symbol, from 0.
    pub place: u8,
    /// The place of the last symbol.
    pub last: u8,
    /// The XOR of all bytes of the whole data.
    pub parity: u8,
    /// The bytes of the part.
    pub bytes: &'a [u8],
}

/// Joins parts, which may come in any order, to the data that was split over their symbols.
///
/// Errors, the first that applies: `Stranger` with the index of the first part that belongs to
/// other data than `parts[0]`; `Missing` or `Twice` with the first place that has no part, or more
/// than one; `Parity` if the XOR of all bytes is not the one that the headers name. `OutOfMemory`
/// if memory runs out; it may hide all of these except `Stranger`.
#[tactic(auto, using(crate::proofs::Shares::shares_joined, crate::proofs::Shares::shares_taken))]
pub fn join(alloc: Global, parts: &[Part<'_>]) -> Result<Vec<u8>, JoinError>
    ensures joined { IfOk result (λ bytes. IsJoined parts.now bytes.items) }
    ensures causes { IfErr result (IsJoinRefused parts.now) }
    ensures order { (bytes : List ℕ) (count : ℕ) (part : ℕ → List ℕ)
        → AreShares bytes count part parts.now → IfOk result (λ joined. joined.items ≡ bytes) }
    ensures accepts { (bytes : List ℕ) (count : ℕ) (part : ℕ → List ℕ)
        → AreShares bytes count part parts.now → IsOkUnless result OutOfMemory }
{
    let (last, parity) = named(parts);
    if let Some(index) = stranger(parts, last, parity) {
        return Err(JoinError::Stranger(index));
    }
    let bytes = joined(alloc, parts, last)?;
    if parity_of(&bytes) == parity {
        Ok(bytes)
    } else {
        Err(JoinError::Parity)
    }
}

// Returns the last place and the parity that the first part names, or zeros if there are no parts.
fn named(parts: &[Part<'_>]) -> (u8, u8)
    ensures last { result.0 ≡ last_named parts.now }
    ensures parity { result.1 ≡ parity_named parts.now }
{
    match parts {
        [first, ..] => (first.last, first.parity),
        [] => (0, 0),
    }
}

// Returns the index of the first part that does not belong to data with this last place and parity.
fn stranger(parts: &[Part<'_>], last: u8, parity: u8) -> Option<usize>
    ensures { result ≡ first_stranger last parity 0 parts.now }
{
    for (index, part) in parts.iter().enumerate() {
        if !belongs(last, parity, *part) {
            return Some(index);
        }
    }
    None
}

// Returns whether a part names this last place and parity, and a place up to the last.
fn belongs(last: u8, parity: u8, part: Part<'_>) -> bool
    ensures { result ≡ belongs last parity part.entry }
{
    (part.last == last) & (part.parity == parity) & (part.place <= last)
}

// Joins the parts of the places from 0 to `last`.
fn joined(alloc: Global, parts: &[Part<'_>], last: u8) -> Result<Vec<u8>, JoinError>
    ensures value { IfOk result (λ bytes. bytes.items ≡ joined_to parts.now last) }
    ensures once { IfOk result (λ _. IsOnceBelow parts.now (last + 1)) }
    ensures causes { IfErr result (IsPlaceRefused parts.now last) }
{
    let mut bytes = Vec::new(alloc);
    for place in 0..last as usize + 1 {
        bytes.extend_from_slice(part_at(parts, place)?)?;
    }
    Ok(bytes)
}

// Returns the bytes of the only part with this place.
fn part_at<'a>(parts: &[Part<'a>], place: usize) -> Result<&'a [u8], JoinError>
    ensures value { IfOk result (λ bytes. IsPartAt parts.now place bytes.now) }
    ensures causes { IfErr result (IsNoPartAt parts.now place) }
{
    let mut found: Option<&'a [u8]> = None;
    for part in parts {
        if part.place as usize == place {
            if found.is_some() {
                return Err(JoinError::Twice(place));
            }
            found = Some(part.bytes);
        }
    }
    found.ok_or(JoinError::Missing(place))
}

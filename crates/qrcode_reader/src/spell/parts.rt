//! Decodes data bits to headers and segments.

ghost use Rattle.std.specs.Prelude.{◌≡◌, ◌≤◌, ◌⊎◌, ℕ, List, drop, length, IsTrue, IfOk, IfErr, IsOkUnless};
ghost use Rattle.std.specs.List.{AllByRecursion};
ghost use Rattle.qrcode_types.specs.Versions.{is_valid};
ghost use Rattle.qrcode_bits.specs.Spelling.{Spells};
ghost use Rattle.qrcode_reader.specs.spell.Parts.{byte_count, AreParts, IsBehindParts, HaveNoParts, IsSegment, AppendsPart};
ghost use Rattle.qrcode_reader.specs.declared.spell.parts.Part.{Part};
ghost use Rattle.qrcode_reader.specs.declared.spell.refusals.Unspelled.TheVariants.{NotSpelled, OutOfMemory};

use crate::spell::headers::{Header, take_header};
use crate::spell::refusals::Unspelled;
use crate::spell::segments::{is_end, push_piece};
use qrcode_types::types::{Mode, Version};
use std::alloc::Global;

/// A header or a segment.
#[derive(Debug, PartialEq, Eq, Copy, Clone)]
pub enum Part {
    /// A header, which says something about the segments after it.
    Front(Header),
    /// A segment: its mode and how many bytes it has.
    Bytes(Mode, usize),
}

impl Part {
    /// Returns how many bytes it has: none if it is a header.
    pub fn byte_count(self) -> usize
        ensures { result ≡ byte_count self }
    {
        match self {
            Part::Front(_) => 0,
            Part::Bytes(_, count) => count,
        }
    }
}

/// The headers and segments of a symbol.
#[derive(Debug, Drop)]
pub struct Parts {
    /// The bytes of all segments, one after the other.
    pub bytes: Vec<u8>,
    /// The headers and segments in order.
    pub parts: Vec<Part>,
    /// How many bits they take; the terminator, if there is one, begins there.
    pub end: usize,
}

// Appends the bytes of the header or segment at the start of `bits`; returns it and the rest.
fn push_part<'a>(
    bytes: &mut Vec<u8>,
    bits: &'a [bool],
    version: Version,
) -> Result<(Part, &'a [bool]), Unspelled>
    requires { IsTrue (is_valid version) }
    ensures { AppendsPart version bits.now bytes.old.items bytes.new.items result }
{
    if let Some((header, rest)) = take_header(bits, version) {
        return Ok((Part::Front(header), rest));
    }
    let begin = bytes.len();
    let (mode, rest) = push_piece(bytes, bits, version)?;
    Ok((Part::Bytes(mode, bytes.len() - begin), rest))
}

/// Decodes the data bits of a symbol to headers and segments (ISO/IEC 18004:2006, 6.4 and 8), up to
/// the terminator, or to the end of `bits` if that cuts the terminator off. This is `spell` with
/// headers allowed; which header may come where is not checked.
///
/// Errors: `NotSpelled` if `bits` are not headers, segments and a terminator; `OutOfMemory` if
/// memory runs out.
pub fn pieces(alloc: Global, bits: &[bool], version: Version) -> Result<Parts, Unspelled>
    requires { IsTrue (is_valid version) }
    ensures value { IfOk result (λ found.
        AreParts version bits.now found.bytes.items found.parts.items) }
    ensures only { IfOk result (λ found. (bytes : List ℕ) (parts : List Part)
        → AreParts version bits.now bytes parts
        → (bytes ≡ found.bytes.items) × (parts ≡ found.parts.items)) }
    ensures accepts { (bytes : List ℕ) (parts : List Part)
        → AreParts version bits.now bytes parts → IsOkUnless result OutOfMemory }
    ensures causes { IfErr result (λ e. (e ≡ OutOfMemory)
        ⊎ ((e ≡ NotSpelled) × HaveNoParts version bits.now)) }

    // After these bits the terminator begins, or the bits end.
    ensures end { IfOk result (λ found.
        IsBehindParts version bits.now found.parts.items (drop found.end bits.now)) }
    ensures inside { IfOk result (λ found. found.end ≤ length bits.now) }

    // Bits that decode to bytes (`spell`) hold only segments, with these bytes.
    ensures segments { (bytes : List ℕ) → Spells version bits.now bytes → IfOk result (λ found.
        (found.bytes.items ≡ bytes) × AllByRecursion IsSegment found.parts.items) }
{
    let mut bytes = Vec::new(alloc);
    let mut parts = Vec::new(alloc);
    let mut rest = bits;
    while !is_end(rest, version) {
        let (part, behind) = push_part(&mut bytes, rest, version)?;
        parts.push(part)?;
        rest = behind;
    }
    Ok(Parts {
        bytes,
        parts,
        end: bits.len() - rest.len(),
    })
}

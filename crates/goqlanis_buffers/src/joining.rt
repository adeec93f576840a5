//! Joins the data of several symbols (structured append), given as squares of modules.

ghost use Rattle.std.specs.Prelude.{◌≡◌, map, IfOk, IfErr, IfSome};
ghost use Rattle.goqlanis_buffers.specs.Shades.{colors_of};
ghost use Rattle.goqlanis_buffers.specs.Joining.{share_of, found_part, join_fault, ArePartsOf, HasNoPart, IsNoPart, IsPartOf, WritesJoined};

use crate::answers::{Fault, Refusal};
use crate::symbols::{colors_of, put};
use qrcode_append::errors::JoinError;
use qrcode_append::{Part, join};
use qrcode_reader::spell::{Header, Part as Piece};
use qrcode_reader::{Unread, read_parts, version_of};
use std::alloc::{AllocError, Global};

/// A square of modules: bytes, row by row, dark if not zero.
#[repr(C)]
#[derive(Clone, Copy)]
pub struct SquareBytes<'a> {
    pub modules: &'a [u8],
}

/// The part of the data that a square decodes to.
#[derive(Drop)]
pub struct DecodedPart {
    pub place: u8,
    pub last: u8,
    pub parity: u8,
    pub bytes: Vec<u8>,
}

/// Joins the data of several symbols, whose squares may come in any order. Writes it to the start
/// of `out`, and returns its length.
///
/// Errors, the first that applies: at the first square that is not a part `NoSuchSide`, `NoFormat`,
/// `Damaged`, `NotSpelled` or `NotSeveral`; at a part `Stranger`, `Missing` or `Twice`; `Parity`,
/// `SmallBuffer`; or `OutOfMemory`. After an error `out` is unchanged.
pub fn join_into(alloc: Global, squares: &[SquareBytes<'_>], out: &mut [u8]) -> Result<usize, Fault>
    ensures { WritesJoined squares.now out.old out.new result }
{
    let found = decode_squares(alloc, squares)?;
    let Ok(parts) = borrowed_parts(alloc, &found) else {
        return Err(Fault::Other(Refusal::OutOfMemory));
    };
    let bytes = match join(alloc, &parts) {
        Ok(bytes) => bytes,
        Err(error) => return Err(join_fault(error)),
    };
    Ok(put(out, &bytes)?)
}

// Converts the error of parts that are not all the parts of the same data.
fn join_fault(error: JoinError) -> Fault
    ensures { result ≡ join_fault error }
{
    match error {
        JoinError::Stranger(part) => Fault::At(part, Refusal::Stranger),
        JoinError::Missing(part) => Fault::At(part, Refusal::Missing),
        JoinError::Twice(part) => Fault::At(part, Refusal::Twice),
        JoinError::Parity => Fault::Other(Refusal::Parity),
        JoinError::OutOfMemory => Fault::Other(Refusal::OutOfMemory),
    }
}

// Decodes each square. Errors: at the first that is not a part; or `OutOfMemory`.
fn decode_squares(alloc: Global, squares: &[SquareBytes<'_>]) -> Result<Vec<DecodedPart>, Fault>
    ensures read { IfOk result (λ found. ArePartsOf squares.now (map found_part found.items)) }
    ensures causes { IfErr result (HasNoPart squares.now) }
{
    let mut all = Vec::new(alloc);
    for place in 0..squares.len() {
        let found = match decode_square(alloc, squares[place].modules) {
            Ok(found) => found,
            Err(None) => return Err(Fault::Other(Refusal::OutOfMemory)),
            Err(Some(refusal)) => return Err(Fault::At(place, refusal)),
        };
        if all.push(found).is_err() {
            return Err(Fault::Other(Refusal::OutOfMemory));
        }
    }
    Ok(all)
}

// Decodes a square. Errors: why it is not a part, or `None` if memory runs out.
#[tactic(auto, using(crate::proofs::Known::no_side))]
fn decode_square(alloc: Global, modules: &[u8]) -> Result<DecodedPart, Option<Refusal>>
    ensures read { IfOk result (λ found. IsPartOf (colors_of modules.now) (found_part found)) }
    ensures causes { IfErr result (λ refusal.
        IfSome refusal (IsNoPart (colors_of modules.now))) }
{
    if version_of(modules.len()).is_none() {
        return Err(Some(Refusal::NoSuchSide));
    }
    let Ok(colors) = colors_of(alloc, modules) else {
        return Err(None);
    };
    let parts = match read_parts(alloc, &colors) {
        Ok(read) => read.parts,
        Err(Unread::NoSuchSide) => return Err(Some(Refusal::NoSuchSide)),
        Err(Unread::NoFormat) => return Err(Some(Refusal::NoFormat)),
        Err(Unread::Damaged(_)) => return Err(Some(Refusal::Damaged)),
        Err(Unread::NotSpelled) => return Err(Some(Refusal::NotSpelled)),
        Err(Unread::OutOfMemory) => return Err(None),
    };
    match parts.parts.first() {
        Some(
            Piece::Front(
                Header::StructuredAppend {
                    place,
                    last,
                    parity,
                },
            ),
        ) => Ok(DecodedPart {
            place: *place,
            last: *last,
            parity: *parity,
            bytes: parts.bytes,
        }),
        _ => Err(Some(Refusal::NotSeveral)),
    }
}

// The same parts, with borrowed bytes.
fn borrowed_parts<'a>(alloc: Global, found: &'a [DecodedPart]) -> Result<Vec<Part<'a>>, AllocError>
    ensures same { IfOk result (λ parts. map share_of parts.items ≡ map found_part found.now) }
{
    let mut parts = Vec::new(alloc);
    for i in 0..found.len() {
        parts.push(Part {
            place: found[i].place,
            last: found[i].last,
            parity: found[i].parity,
            bytes: &found[i].bytes,
        })?;
    }
    Ok(parts)
}

//! Checks the codes of a picture against the standard.

ghost use Rattle.std.specs.Prelude.{◌≡◌, ◌≤◌, ◌∷◌, [], All, AllPairs, length, IfErr, IfOk};
ghost use Rattle.std.specs.List.{AllZip};
ghost use Rattle.qrcode_scan.specs.Checked.{AreChecksOf, HasSquare, IsCheckOfScan, IsSquareCheckOf, IsUncheckedPicture};
ghost use Rattle.qrcode_scan.specs.Codes.{AreTwo, FindsWholesOf, IsMissedOf};
ghost use Rattle.qrcode_scan.specs.Scans.{has_faults};

use crate::codes::{Codes, read_codes};
use crate::scanning::{Scan, ScanError, seen_in};
use crate::squares::square_of;
use qrcode_check::{Check, check_seen, check_square};
use std::alloc::{AllocError, Global};

/// The checks of a picture's codes.
#[derive(Drop)]
pub struct Checks {
    /// A check for each decoded code, in the same order; or only that of the square that does not
    /// decode.
    pub checks: Vec<Check>,
    /// The decoded codes, and those that were found but do not decode. Both are empty if the
    /// picture is a square in a plain margin whose bits are no headers and segments.
    pub codes: Codes,
}

/// Checks the decoded codes of a picture. If none decodes, since the bits of the square in a plain
/// margin are no headers and segments, checks that square.
///
/// Errors: those of `read_codes`, except that bits which are no headers and segments are no error.
pub fn check_codes(alloc: Global, bytes: &[u8]) -> Result<Checks, ScanError>
    ensures each { IfOk result (λ found.
        AreChecksOf bytes.now found.codes.scans.items found.checks.items) }
    ensures some { IfOk result (λ found. 1 ≤ length found.checks.items) }
    ensures once { IfOk result (λ found. AllPairs AreTwo found.codes.scans.items) }
    ensures whole { IfOk result (λ found. FindsWholesOf bytes.now found.codes.scans.items) }
    ensures missed { IfOk result (λ found. All (IsMissedOf bytes.now) found.codes.missed.items) }
    ensures more { IfOk result (λ found. found.codes.has_faults ≡ has_faults bytes.now) }
    ensures causes { IfErr result (IsUncheckedPicture bytes.now) }
{
    match read_codes(alloc, bytes) {
        Ok(codes) => Ok(checked(alloc, codes)?),
        Err(ScanError::NoSymbol(_, qrcode_reader::Unread::NotSpelled)) => {
            let (check, has_faults) = unspelled(alloc, bytes)?;
            Ok(only(alloc, check, has_faults)?)
        }
        Err(cause) => Err(cause),
    }
}

// The check of a square that does not decode.
fn only(alloc: Global, check: Check, has_faults: bool) -> Result<Checks, AllocError>
    ensures checks { IfOk result (λ found. found.checks.items ≡ check ∷ []) }
    ensures scans { IfOk result (λ found. found.codes.scans.items ≡ []) }
    ensures missed { IfOk result (λ found. found.codes.missed.items ≡ []) }
    ensures more { IfOk result (λ found. found.codes.has_faults ≡ has_faults) }
{
    Ok(Checks {
        checks: vec![in alloc; check]?,
        codes: Codes {
            scans: Vec::new(alloc),
            missed: Vec::new(alloc),
            has_faults,
        },
    })
}

// Checks each decoded code.
fn checked(alloc: Global, codes: Codes) -> Result<Checks, AllocError>
    requires { All HasSquare codes.scans.items }
    ensures checks { IfOk result (λ found.
        AllZip IsCheckOfScan codes.scans.items found.checks.items) }
    ensures codes { IfOk result (λ found. found.codes ≡ codes) }
{
    let mut checks = Vec::new(alloc);
    for scan in &codes.scans {
        checks.push(check_scan(alloc, scan)?)?;
    }
    Ok(Checks { checks, codes })
}

// Checks a decoded code. Its bits can be read, so only memory can fail.
fn check_scan(alloc: Global, scan: &Scan) -> Result<Check, AllocError>
    requires { HasSquare scan.now }
    ensures { IfOk result (IsCheckOfScan scan.now) }
{
    let any = &scan.any;
    match check_seen(alloc, any.position, any.is_inverted, &scan.square.modules) {
        Ok(check) => Ok(check),
        Err(_) => Err(AllocError),
    }
}

// Checks the square in a plain margin. Its bits can be read, although they are no headers and
// segments, so only memory can fail. Also says whether a PNG file has faults.
fn unspelled(alloc: Global, bytes: &[u8]) -> Result<(Check, bool), AllocError>
    ensures check { IfOk result (λ found. IsSquareCheckOf bytes.now found.0) }
    ensures more { IfOk result (λ found. found.1 ≡ has_faults bytes.now) }
{
    let Ok(seen) = seen_in(alloc, bytes) else {
        return Err(AllocError);
    };
    let Some(square) = square_of(alloc, &seen.pixels)? else {
        return Err(AllocError);
    };
    match check_square(alloc, &square.modules) {
        Ok(check) => Ok((check, seen.has_faults)),
        Err(_) => Err(AllocError),
    }
}

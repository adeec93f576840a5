//! Tests of `join`, of separators, and of the text of errors.

use crate::common::check_row;
use qrcode::types::QrError;
use qrcode_append::errors::JoinError::{self, Missing, Parity, Stranger, Twice};
use qrcode_append::{Part, join};
use qrcode_contents::errors::{Cause, ContentError, Field};
use qrcode_gs1::errors::{Cause as ElementCause, Gs1Error};
use qrcode_gs1::symbol::errors::SymbolError;
use qrcode_reader::correct::Damaged;
use std::alloc::Global;
use std::fmt::Display;

const DIGITS: &[u8] = b"31415926535897932";

// The XOR of these digits.
const PARITY: u8 = 0x32;

// The three parts of the digits; then parts that no symbol of the library has: one on its own, three
// with another last place, parity or place, and one with another digit. The tests of the C library
// join others.
#[rattlefmt::skip]
const PARTS: [Part<'static>; 8] = [
    Part { place: 0, last: 2, parity: PARITY, bytes: b"3141592" },
    Part { place: 1, last: 2, parity: PARITY, bytes: b"65358" },
    Part { place: 2, last: 2, parity: PARITY, bytes: b"97932" },
    Part { place: 0, last: 0, parity: 0x39, bytes: b"3141592" },
    Part { place: 1, last: 3, parity: PARITY, bytes: b"65358" },
    Part { place: 2, last: 2, parity: 0, bytes: b"97932" },
    Part { place: 3, last: 2, parity: PARITY, bytes: b"97932" },
    Part { place: 2, last: 2, parity: PARITY, bytes: b"97933" },
];

// Whether joining the parts gives these bytes or this error.
fn joins(alloc: Global, parts: &[Part<'_>], expected: Result<&[u8], JoinError>) -> bool {
    match (join(alloc, parts), expected) {
        (Ok(joined), Ok(bytes)) => joined.as_slice() == bytes,
        (Err(error), Err(expected)) => error == expected,
        _ => false,
    }
}

#[test]
fn parts_are_joined(rt: HostRuntime) {
    let alloc = rt.alloc();
    let [
        first,
        second,
        third,
        alone,
        of_four,
        unlike,
        beyond,
        altered,
    ] = PARTS;
    assert!(rt; joins(alloc, &[third, first, second], Ok(DIGITS)));
    assert!(rt; joins(alloc, &[alone], Ok(b"3141592")));
    assert!(rt; joins(alloc, &[first, of_four, third], Err(Stranger(1))));
    assert!(rt; joins(alloc, &[first, second, unlike], Err(Stranger(2))));
    assert!(rt; joins(alloc, &[beyond, first, second], Err(Stranger(0))));
    assert!(rt; joins(alloc, &[first, second, altered], Err(Parity)));
    assert!(rt; joins(alloc, &[], Err(Missing(0))));
}

// Whether `error` is displayed as `text`.
fn reads_as<E: Display>(alloc: Global, error: &E, text: &str) -> bool {
    matches!(&format!(in alloc; "{error}"), Ok(shown) if shown.as_str() == text)
}

// The errors of `join`, and their text.
#[rattlefmt::skip]
static OF_PARTS: [(JoinError, &str); 5] = [
    (Stranger(1), "part 1 is not of the same data as the first"),
    (Missing(0), "the part at place 0 is missing"),
    (Twice(15), "more than one part has place 15"),
    (Parity, "the parity is that of other data"),
    (JoinError::OutOfMemory, "out of memory"),
];

#[test]
fn errors_say_why(rt: HostRuntime) {
    let alloc = rt.alloc();
    for (i, (error, text)) in OF_PARTS.iter().enumerate() {
        check_row(&rt, i, reads_as(alloc, error, *text));
    }
    let town = ContentError::Refused(Field::DebtorCity, Cause::CheckDigits);
    assert!(rt; reads_as(alloc, &town, "DebtorCity: CheckDigits"));
    assert!(rt; reads_as(alloc, &ContentError::OutOfMemory, "out of memory"));
    let wrong = Gs1Error::Refused(2, ElementCause::CheckDigit);
    assert!(rt; reads_as(alloc, &wrong, "element 2: CheckDigit"));
    assert!(rt; reads_as(alloc, &Gs1Error::OutOfMemory, "out of memory"));
    let of_elements = SymbolError::Elements(wrong);
    assert!(rt; reads_as(alloc, &of_elements, "element 2: CheckDigit"));
    let of_symbol = SymbolError::Symbol(QrError::DataTooLong);
    assert!(rt; reads_as(alloc, &of_symbol, "data too long"));
    assert!(rt; reads_as(alloc, &Damaged, "too many errors in a block"));
}

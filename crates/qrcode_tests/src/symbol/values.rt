//! Tests of table entries, of products in the field, of how many errors are allowed, and of the
//! correction of blocks. `evidence/memory/cases` asks for error correction codewords; `evidence/judge`
//! has printed blocks with up to five wrong bytes, from each place on.

ghost use Rattle.std.specs.Prelude.{◌≤◌};

use crate::common::check_row;
use qrcode_ec::{max_allowed_errors, power, product};
use qrcode_reader::correct::{Corrector, Damaged, correct};
use qrcode_types::tables::capacity;
use qrcode_types::types::Version::{self, Micro, Normal};
use qrcode_types::types::{EcLevel, QrError};

#[test]
fn entries_are_fetched(rt: HostRuntime) {
    let mut table = [[0_u16; 4]; 44];
    table[6][2] = 86;
    table[41][1] = 2;
    assert!(rt; Normal(7).fetch(EcLevel::Q, &table) == Ok(86));
    assert!(rt; Micro(2).fetch(EcLevel::M, &table) == Ok(2));
    assert!(rt; Normal(1).fetch(EcLevel::L, &table) == Err(QrError::InvalidVersion));
    assert!(rt; Micro(2).fetch(EcLevel::L, &table) == Err(QrError::InvalidVersion));
    assert!(rt; Normal(42).fetch(EcLevel::M, &table) == Err(QrError::InvalidVersion));
}

#[test]
fn capacities_are_found(rt: HostRuntime) {
    assert!(rt; capacity(Normal(40), EcLevel::L) == Some(23_648));
    assert!(rt; capacity(Normal(9), EcLevel::M) == Some(1456));
    assert!(rt; capacity(Micro(3), EcLevel::L) == Some(84));
    assert!(rt; capacity(Micro(1), EcLevel::L) == Some(20));
    assert!(rt; Micro(1).has_level(EcLevel::L) && !Micro(1).has_level(EcLevel::M));
    assert!(rt; capacity(Micro(1), EcLevel::M) == None && capacity(Normal(41), EcLevel::L) == None);
}

// Two factors, and their product.
static PRODUCTS: [(u8, u8, u8); 4] = [
    (0x80, 0x80, 0x13),
    (0x8e, 0x8e, 0x47),
    (0x8e, 0x02, 0x01),
    (0x00, 0x8e, 0x00),
];

// Multiplies polynomials one power of the second factor at a time.
fn by_shifts(a: u8, b: u8) -> u8 {
    let mut total = 0;
    let mut multiple = a;
    for power in 0..8u32 {
        if b >> power & 1 == 1 {
            total ^= multiple;
        }
        let divisor = if multiple >= 0x80 { 0x1d } else { 0 };
        multiple = multiple.wrapping_mul(2) ^ divisor;
    }
    total
}

#[test]
fn products_and_powers_are_those_of_the_field(rt: HostRuntime) {
    for (i, (a, b, expected)) in PRODUCTS.iter().enumerate() {
        check_row(&rt, i, product(*a, *b) == *expected);
    }
    assert!(rt; power(8) == 0x1d && power(255) == 1);
}

#[test]
fn all_products_are_those_by_shifts(rt: HostRuntime) {
    for a in 0..=u8::MAX {
        for b in 0..=u8::MAX {
            check_row(&rt, usize::from(a), product(a, b) == by_shifts(a, b));
        }
    }
}

// A version, a level, and how many errors they allow, or `None` if the version lacks the level.
struct Allowed(Version, EcLevel, Option<usize>);

static ALLOWED: [Allowed; 8] = [
    Allowed(Micro(1), EcLevel::L, Some(0)),
    Allowed(Micro(1), EcLevel::M, None),
    Allowed(Micro(4), EcLevel::Q, Some(7)),
    Allowed(Normal(1), EcLevel::L, Some(2)),
    Allowed(Normal(40), EcLevel::L, Some(375)),
    Allowed(Normal(40), EcLevel::Q, Some(1020)),
    Allowed(Normal(40), EcLevel::H, Some(1215)),
    Allowed(Normal(41), EcLevel::L, None),
];

impl Allowed {
    fn holds(&self) -> bool {
        max_allowed_errors(self.0, self.1) == self.2.ok_or(QrError::InvalidVersion)
    }
}

#[test]
fn errors_are_allowed(rt: HostRuntime) {
    for (i, row) in ALLOWED.iter().enumerate() {
        check_row(&rt, i, row.holds());
    }
}

// The block of "Reed-Solomon codes for coders" (Wikiversity).
static OF_CODERS: [u8; 26] = [
    0x40, 0xd2, 0x75, 0x47, 0x76, 0x17, 0x32, 0x06, 0x27, 0x26, 0x96, 0xc6, 0xc6, 0x96, 0x70, 0xec,
    0xbc, 0x2a, 0x90, 0x13, 0x6b, 0xaf, 0xef, 0xfd, 0x4b, 0xe0,
];

#[test]
fn six_wrong_bytes_are_refused_and_stay(rt: HostRuntime) {
    let corrector = Corrector::new(10);
    let mut six = OF_CODERS;
    for place in [0usize, 5, 10, 15, 20, 25] {
        six[place] ^= 0x5a;
    }
    assert!(rt; corrector.vanishes(&OF_CODERS) && !corrector.vanishes(&six));
    let mut bytes = six;
    assert!(rt; corrector.correct(&mut bytes) == Err(Damaged));
    assert!(rt; bytes == six);
}

#[test]
fn blocks_without_much_are_corrected(rt: HostRuntime) {
    let mut none = [];
    assert!(rt; correct(&mut none, 0) == Ok(0));
    assert!(rt; correct(&mut none, 69) == Ok(0));
    let mut zeros = [0, 7, 0];
    assert!(rt; correct(&mut zeros, 1) == Err(Damaged));
    assert!(rt; correct(&mut zeros, 5) == Ok(1));
    assert!(rt; zeros == [0, 0, 0]);
}

// Whether 255 zeros, with as many bytes changed as can be corrected, are corrected to zeros. (A
// block of zeros is valid for any number of error correction bytes.)
fn are_zeros_again(count: usize) -> bool
    requires { count ≤ 69 }
{
    let mut bytes = [0; 255];
    for k in 0..count / 2 {
        bytes[k.wrapping_mul(7) % 255] = 0xa5;
    }
    correct(&mut bytes, count) == Ok(count / 2) && bytes == [0; 255]
}

#[test]
fn zeros_are_corrected_by_any_number_of_bytes(rt: HostRuntime) {
    for count in 0..70 {
        check_row(&rt, count, are_zeros_again(count));
    }
}

//! Divides data between symbols.

ghost use Rattle.std.specs.Prelude.{◌≡◌, ◌<◌, ◌≤◌, length};
ghost use Rattle.qrcode_bits.specs.Refusals.{data_limit};
ghost use Rattle.qrcode_bits.specs.StructuredAppend.{parity};
ghost use Rattle.qrcode_append.specs.Division.{is_border, floor_border, part_begin, part};

use qrcode_bits::bits::Manner;

// Returns the XOR of all bytes.
pub(crate) fn parity_of(bytes: &[u8]) -> u8
    ensures { result ≡ parity bytes.now }
{
    let mut all = 0;
    for i in (0..bytes.len()).rev() {
        all = bytes[i] ^ all;
    }
    all
}

// Returns whether no UTF-8 character extends across `place`.
fn is_border(bytes: &[u8], place: usize) -> bool
    ensures { result ≡ is_border bytes.now place }
{
    if place >= bytes.len() {
        return true;
    }
    let byte = bytes[place];
    byte < 128 || byte >= 192
}

// Returns the last border between characters at or before `place`.
fn floor_border(bytes: &[u8], place: usize) -> usize
    ensures { result ≡ floor_border bytes.now place }
{
    for before in (0..place).rev() {
        if is_border(bytes, before + 1) {
            return before + 1;
        }
    }
    0
}

// Returns where part `place` of `count` begins, and the one before it ends.
fn part_begin(bytes: &[u8], manner: Manner, count: usize, place: usize) -> usize
    requires at_least { 0 < count }
    requires length_at_most { length bytes.now ≤ data_limit }
    requires inside { place ≤ count }
    requires at_most { count ≤ 16 }
    ensures { result ≡ part_begin manner bytes.now count place }
{
    let even = bytes.len() * place / count;
    match manner {
        Manner::Bytes => even,
        Manner::Text | Manner::MarkedText => floor_border(bytes, even),
    }
}

// Returns part `place` of `count`.
pub(crate) fn part(bytes: &[u8], manner: Manner, count: usize, place: usize) -> &[u8]
    requires length_at_most { length bytes.now ≤ data_limit }
    requires inside { place < count }
    requires at_most { count ≤ 16 }
    ensures value { result.now ≡ part manner bytes.now count place }
    ensures length_at_most { length result.now ≤ data_limit }
{
    let begin = part_begin(bytes, manner, count, place);
    let end = part_begin(bytes, manner, count, place + 1);
    &bytes[begin..end]
}

//! Shift JIS, in which a character takes one byte or two.

ghost use Rattle.std.specs.Prelude.{◌≡◌, ◌≢◌, ℕ, ◌+◌, ◌<◌, ◌≤◌, [], ◌∷◌, List, Some, chars, drop, length, slice_index, string_bytes, IfOk, IsTrue, MatchOption};
ghost use Rattle.qrcode_types.specs.Characters.{is_lead};
ghost use Rattle.qrcode_charsets.specs.Charsets.{IsWritten, Has};
ghost use Rattle.qrcode_charsets.specs.Codes.{code_bytes};
ghost use Rattle.qrcode_charsets.specs.ShiftJis.{shift_jis_characters, stand_in};
ghost use Rattle.qrcode_charsets.specs.ShiftJis as pairs;
ghost use Rattle.qrcode_charsets.specs.declared.sets.Charset.TheVariants.{ShiftJis};

use crate::pairs_high::HIGH_PAIRS;
use crate::pairs_low::LOW_PAIRS;
use crate::texts::CharBytes;
use qrcode_types::characters::is_lead;
use std::alloc::{AllocError, Global};

// Returns the bytes of `character`, or `None` if the set lacks it.
pub(crate) fn code(character: char) -> Option<CharBytes>
    ensures { MatchOption result (¬ Has ShiftJis (character ∷ []))
        (λ code. IsWritten ShiftJis (character ∷ []) (code_bytes code)) }
{
    if character == '\\' || character == '~' {
        return None;
    }
    if character < '\u{80}' {
        return Some(CharBytes::One(character as u8));
    }
    match character {
        '\u{ff61}'..='\u{ff9f}' => Some(CharBytes::One((u32::from(character) - 0xfec0) as u8)),
        _ => pair_of(character),
    }
}

// Returns the two bytes of `character`, which is not U+0000, if they are its code.
fn pair_of(character: char) -> Option<CharBytes>
    requires { character ≢ 0 }
    ensures { MatchOption result
        ((b c : ℕ) → IsTrue (is_lead b) → pairs.pair_character b c ≢ Some character)
        (λ code. shift_jis_characters (code_bytes code) ≡ Some character ∷ []) }
{
    for lead in 0x81..0xeb_u8 {
        if let Some(trail) = trail_of(lead, character) {
            return Some(CharBytes::Two(u16::from_be_bytes([lead, trail])));
        }
    }
    None
}

// Returns the second byte of `character`, which is not U+0000, after the byte `lead`.
fn trail_of(lead: u8, character: char) -> Option<u8>
    requires at_least { 0x81 ≤ lead }
    requires at_most { lead ≤ 0xEA }
    requires some { character ≢ 0 }
    ensures { MatchOption result
        ((c : ℕ) → IsTrue (is_lead lead) → pairs.pair_character lead c ≢ Some character)
        (λ c. IsTrue (is_lead lead) × (pairs.pair_character lead c ≡ Some character)) }
{
    if !is_lead(lead) {
        return None;
    }
    for place in 0..189 {
        if cell(lead, place) == character {
            return Some(0x40 + place as u8);
        }
    }
    None
}

// Returns the cell at `place` of the row of `lead`.
fn cell(lead: u8, place: usize) -> char
    requires lead { IsTrue (is_lead lead) }
    requires at_most { lead ≤ 0xEA }
    requires inside { place < 189 }
    ensures { result ≡ slice_index (pairs.pair_row lead) place }
{
    let number = usize::from(lead);
    if lead < 0xe0 {
        LOW_PAIRS[number - 0x81][place]
    } else {
        HIGH_PAIRS[number - 0xe0][place]
    }
}

// Returns the text that `bytes` are, or `None` if they are none.
pub(crate) fn decode(alloc: Global, bytes: &[u8]) -> Result<Option<String>, AllocError>
    ensures { IfOk result (λ found. MatchOption found
        ((text : List ℕ) → ¬ IsWritten ShiftJis text bytes.now)
        (λ text. IsWritten ShiftJis (chars (string_bytes text)) bytes.now)) }
{
    let mut text = String::new(alloc);
    let mut place = 0;
    while place < bytes.len() {
        let (found, next) = character_at(bytes, place);
        match found {
            Some(character) => text.push(character)?,
            None => return Ok(None),
        }
        place = next;
    }
    Ok(Some(text))
}

// Returns the character that begins at `place`, if one does, and the place behind it.
fn character_at(bytes: &[u8], place: usize) -> (Option<char>, usize)
    requires { place < length bytes.now }
    ensures after { place < result.1 }
    ensures at_most { result.1 ≤ length bytes.now }
    ensures first { shift_jis_characters (drop place bytes.now)
        ≡ result.0 ∷ shift_jis_characters (drop result.1 bytes.now) }
{
    let first = bytes[place];
    if is_lead(first) && bytes.len() - place > 1 {
        (pair_character(first, bytes[place + 1]), place + 2)
    } else {
        (single_character(first), place + 1)
    }
}

// Returns the character of a byte that is a code of its own.
fn single_character(byte: u8) -> Option<char>
    ensures { result ≡ pairs.single_character byte }
{
    match byte {
        0x5c | 0x7e => None,
        0..=0x7f => Some(char::from(byte)),
        0xa1..=0xdf => char::from_u32(0xfec0 + u32::from(byte)),
        _ => None,
    }
}

// Returns the character of two bytes that are one code.
fn pair_character(lead: u8, trail: u8) -> Option<char>
    requires { IsTrue (is_lead lead) }
    ensures { result ≡ pairs.pair_character lead trail }
{
    if lead > 0xea || trail < 0x40 || trail > 0xfc {
        return None;
    }
    let place = usize::from(trail);
    let character = cell(lead, place - 0x40);
    if character == '\0' {
        return None;
    }
    Some(character)
}

// Returns bytes in which segments are found in place of `bytes`: 0x81 0xfc for each code of two
// bytes. 0xfc is no digit or letter and begins no such code, so the fewest bits divide none.
pub(crate) fn stand_in(alloc: Global, bytes: &[u8]) -> Result<Vec<u8>, AllocError>
    ensures { IfOk result (λ made. made.items ≡ stand_in bytes.now) }
{
    let mut made = Vec::new(alloc);
    let mut place = 0;
    while place < bytes.len() {
        if is_lead(bytes[place]) && bytes.len() - place > 1 {
            made.push(0x81)?;
            made.push(0xfc)?;
            place += 2;
        } else {
            made.push(bytes[place])?;
            place += 1;
        }
    }
    Ok(made)
}

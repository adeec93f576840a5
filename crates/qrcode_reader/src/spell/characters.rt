//! Decodes the characters of a segment, mode by mode.

ghost use Rattle.std.specs.Prelude.{◌≡◌, ◌<◌, ◌≤◌, length, IsTrue};
ghost use Rattle.qrcode_types.specs.Characters.{is_alphanumeric, alphanumeric_number};
ghost use Rattle.qrcode_types.specs.declared.types.Mode.TheVariants.{Numeric, Alphanumeric, Byte, Kanji};
ghost use Rattle.qrcode_reader.specs.spell.Steps.{group_bits, AppendsCharacters};

use crate::spell::fields::number_of;
use crate::spell::refusals::Unspelled;
use qrcode_types::characters::is_kanji;
use qrcode_types::types::Mode;

// The characters of mode Alphanumeric, by their numbers (ISO/IEC 18004:2006, table 5).
const ALPHABET: [u8; 45] = *b"0123456789ABCDEFGHIJKLMNOPQRSTUVWXYZ $%*+-./:";

// Appends one to three digits that are written together.
fn push_digits(bytes: &mut Vec<u8>, group: &[bool]) -> Result<(), Unspelled>
    requires at_least { 0 < length group.now }
    requires at_most { length group.now ≤ 10 }
    ensures { AppendsCharacters Numeric group.now bytes.old.items bytes.new.items result }
{
    let number = number_of(group);
    let digits = [
        b'0' + (number / 100 % 10) as u8,
        b'0' + (number / 10 % 10) as u8,
        b'0' + (number % 10) as u8,
    ];
    match group.len() {
        10 if number < 1000 => bytes.extend_from_slice(&digits)?,
        7 if number < 100 => bytes.extend_from_slice(&digits[1..])?,
        4 if number < 10 => bytes.extend_from_slice(&digits[2..])?,
        _ => return Err(Unspelled::NotSpelled),
    }
    Ok(())
}

// Returns the alphanumeric character with this number.
fn letter(number: u32) -> u8
    requires { number < 45 }
    ensures exists { IsTrue (is_alphanumeric result) }
    ensures value { alphanumeric_number result ≡ number }
{
    ALPHABET[number as usize]
}

// Appends one or two alphanumeric characters that are written together.
fn push_letters(bytes: &mut Vec<u8>, group: &[bool]) -> Result<(), Unspelled>
    requires at_least { 0 < length group.now }
    requires at_most { length group.now ≤ 11 }
    ensures { AppendsCharacters Alphanumeric group.now bytes.old.items bytes.new.items result }
{
    let number = number_of(group);
    match group.len() {
        11 if number < 45 * 45 => {
            bytes.extend_from_slice(&[letter(number / 45), letter(number % 45)])?;
        }
        6 if number < 45 => bytes.push(letter(number))?,
        _ => return Err(Unspelled::NotSpelled),
    }
    Ok(())
}

// Appends a byte.
#[inline(always)]
fn push_byte(bytes: &mut Vec<u8>, group: &[bool]) -> Result<(), Unspelled>
    requires at_least { 0 < length group.now }
    requires at_most { length group.now ≤ 8 }
    ensures { AppendsCharacters Byte group.now bytes.old.items bytes.new.items result }
{
    if group.len() != 8 {
        return Err(Unspelled::NotSpelled);
    }
    bytes.push(number_of(group) as u8)?;
    Ok(())
}

// Appends a pair of bytes (Kanji). Numbers are in rows of 192, one for each first byte: 31 rows for
// 0x81 to 0x9f, then those from 0xe0 on.
fn push_pair(bytes: &mut Vec<u8>, group: &[bool]) -> Result<(), Unspelled>
    requires at_least { 0 < length group.now }
    requires at_most { length group.now ≤ 13 }
    ensures { AppendsCharacters Kanji group.now bytes.old.items bytes.new.items result }
{
    if group.len() != 13 {
        return Err(Unspelled::NotSpelled);
    }
    let number = number_of(group);
    let row = number / 192;
    let first = if row < 31 { row + 0x81 } else { row + 0xc1 };
    let pair = [first as u8, (number % 192 + 0x40) as u8];
    if !is_kanji(pair[0], pair[1]) {
        return Err(Unspelled::NotSpelled);
    }
    bytes.extend_from_slice(&pair)?;
    Ok(())
}

// Returns the most bits that are written together: three digits, two alphanumeric characters, a
// byte or a pair.
#[inline(always)]
fn group_bits(mode: Mode) -> usize
    ensures { result ≡ group_bits mode }
{
    match mode {
        Mode::Numeric => 10,
        Mode::Alphanumeric => 11,
        Mode::Byte => 8,
        Mode::Kanji => 13,
    }
}

// Appends the characters of one group, those that are written together.
#[inline(always)]
fn push_group(bytes: &mut Vec<u8>, mode: Mode, group: &[bool]) -> Result<(), Unspelled>
    requires at_least { 0 < length group.now }
    requires at_most { length group.now ≤ group_bits mode }
    ensures { AppendsCharacters mode group.now bytes.old.items bytes.new.items result }
{
    match mode {
        Mode::Numeric => push_digits(bytes, group),
        Mode::Alphanumeric => push_letters(bytes, group),
        Mode::Byte => push_byte(bytes, group),
        Mode::Kanji => push_pair(bytes, group),
    }
}

// Appends the characters that `mode` writes as `bits`, group by group. Inlined, so that a call with
// a constant mode is compiled separately.
#[inline(always)]
fn push_groups(bytes: &mut Vec<u8>, mode: Mode, bits: &[bool]) -> Result<(), Unspelled>
    ensures { AppendsCharacters mode bits.now bytes.old.items bytes.new.items result }
{
    let mut rest = bits;
    while !rest.is_empty() {
        let (group, behind) = rest.split_at(rest.len().min(group_bits(mode)));
        push_group(bytes, mode, group)?;
        rest = behind;
    }
    Ok(())
}

// Appends the characters that `mode` writes as `bits`. Bytes, the most frequent, get a loop of
// their own.
pub(crate) fn push_characters(
    bytes: &mut Vec<u8>,
    mode: Mode,
    bits: &[bool],
) -> Result<(), Unspelled>
    ensures { AppendsCharacters mode bits.now bytes.old.items bytes.new.items result }
{
    match mode {
        Mode::Byte => push_groups(bytes, Mode::Byte, bits),
        other => push_groups(bytes, other, bits),
    }
}

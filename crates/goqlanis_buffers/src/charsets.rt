//! Texts in character sets that C numbers.

ghost use Rattle.std.specs.Prelude.{◌≡◌, ◌≢◌, ◌<◌, chars, length, map, IfErr, IfNone, IfOk, IfSome, OnErr};
ghost use Rattle.qrcode_charsets.specs.Shortest.{NoneHas};
ghost use Rattle.qrcode_charsets.specs.declared.sets.Charset.{Charset};
ghost use Rattle.goqlanis_request.specs.Charsets.{IsShortestOf};
ghost use Rattle.goqlanis_buffers.specs.Charsets.{charset_number, numbers_tried, HasUnknown, IsLacked, IsUncodedIn, WritesCoded};

use crate::answers::{Fault, Refusal};
use crate::options::{CodeSettings, Options, asked_by};
use crate::symbols::{Symbol, write_masked};
use goqlanis_request::symbol_among;
use qrcode::QrCode;
use qrcode::types::QrError;
use qrcode_charsets::sets::{CHARSETS, Charset};
use qrcode_charsets::shortest::any_has;
use std::alloc::Global;

/// Encodes a text as `options` ask, in that of the sets with these `numbers` in which it takes the
/// fewest bits; without numbers in that of `CHARSETS`. Writes the modules to the start of
/// `modules` and the number of the set to `designator`, and returns version, level and width. The
/// options' manner is ignored.
///
/// Errors, the first that applies: `NoSuchStruct`, `NoSuchLevel`, `NoSuchVersion`, `NoSuchManner`,
/// `NoSuchSet` at the number, `NotText`, `NotInSet` at the first character that the first set
/// lacks, `LevelNotInVersion`, `NoMode`, `NoRoom`, `NoSuchMask`, `SmallBuffer`; or `OutOfMemory`.
/// After an error `modules` and `designator` are unchanged.
pub fn encode_charset(
    alloc: Global,
    text: &[u8],
    numbers: &[u32],
    options: &Options,
    modules: &mut [u8],
    designator: &mut u32,
) -> Result<Symbol, Fault>
    ensures writes { WritesCoded options.now numbers.now text.now designator.new
        modules.old modules.new result }
    ensures designator_unchanged { OnErr result (designator.new ≡ designator.old) }
{
    let asked = asked_by(options)?;
    let sets = sets_of(alloc, numbers)?;
    let Ok(text) = str::from_utf8(text) else {
        return Err(Fault::Other(Refusal::NotText));
    };
    let (code, set) = code_among(alloc, &asked, &sets, text)?;
    let symbol = write_masked(alloc, &code, asked.mask, modules)?;
    *designator = set.designator().unwrap_or(0);
    Ok(symbol)
}

// Encodes a text in that of `sets` in which it takes the fewest bits.
fn code_among(
    alloc: Global,
    asked: &CodeSettings,
    sets: &[Charset],
    text: &str,
) -> Result<(QrCode, Charset), Fault>
    requires { 0 < length sets.now }
    ensures made { IfOk result (λ made. IsShortestOf
        asked.now.choice sets.now asked.now.level (chars text.now) made.1 made.0) }
    ensures causes { IfErr result (IsUncodedIn asked.now sets.now text.now) }
{
    match symbol_among(alloc, asked.choice, sets, asked.level, text) {
        Ok(made) => Ok(made),
        Err(QrError::UnsupportedCharacterSet) => match place_lacked(sets, text) {
            Some(place) => Err(Fault::At(place, Refusal::NotInSet)),
            None => Err(Fault::Other(Refusal::NoMode)),
        },
        Err(error) => Err(Fault::Other(Refusal::from(error))),
    }
}

// Returns the place of the first character that the first of `sets` lacks, if each lacks one.
fn place_lacked(sets: &[Charset], text: &str) -> Option<usize>
    requires { 0 < length sets.now }
    ensures some { IfSome result (IsLacked sets.now (chars text.now)) }
    ensures none { IfNone result (¬ NoneHas sets.now (chars text.now)) }
{
    if any_has(sets, text) {
        return None;
    }
    sets[0].lacks(text)
}

// Returns the sets with these numbers, or without numbers those of `CHARSETS`. Errors: `NoSuchSet`
// at the first number that no set has; or `OutOfMemory`.
fn sets_of(alloc: Global, numbers: &[u32]) -> Result<Vec<Charset>, Fault>
    ensures value { IfOk result (λ sets.
        map charset_number sets.items ≡ numbers_tried numbers.now) }
    ensures some { IfOk result (λ sets. 0 < length sets.items) }
    ensures unknown { IfErr result (HasUnknown numbers.now) }
{
    if !numbers.is_empty() {
        return sets_numbered(alloc, numbers);
    }
    match CHARSETS.to_vec(alloc) {
        Ok(sets) => Ok(sets),
        Err(_) => Err(Fault::Other(Refusal::OutOfMemory)),
    }
}

// Returns the sets with these numbers. Errors: as for `sets_of`.
fn sets_numbered(alloc: Global, numbers: &[u32]) -> Result<Vec<Charset>, Fault>
    ensures value { IfOk result (λ sets. map charset_number sets.items ≡ numbers.now) }
    ensures unknown { IfErr result (HasUnknown numbers.now) }
{
    let mut sets = Vec::new(alloc);
    for place in 0..numbers.len() {
        let Some(set) = set_numbered(numbers[place]) else {
            return Err(Fault::At(place, Refusal::NoSuchSet));
        };
        if sets.push(set).is_err() {
            return Err(Fault::Other(Refusal::OutOfMemory));
        }
    }
    Ok(sets)
}

// Returns the set with this number.
fn set_numbered(number: u32) -> Option<Charset>
    ensures some { IfSome result (λ set. charset_number set ≡ number) }
    ensures none { IfNone result ((set : Charset) → charset_number set ≢ number) }
{
    if number == 0 {
        return Some(Charset::Unmarked);
    }
    Charset::numbered(number)
}

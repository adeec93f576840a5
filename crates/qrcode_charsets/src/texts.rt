//! Texts as bytes in a character set, and back.

ghost use Rattle.std.specs.Prelude.{◌≡◌, ◌++◌, ℕ, ◌+◌, ◌<◌, [], ◌∷◌, List, chars, string_bytes, take, length, IfOk, IfSome, MatchOption, OnOk};
ghost use Rattle.qrcode_charsets.specs.Charsets.{IsWritten, Has};
ghost use Rattle.qrcode_charsets.specs.Codes.{code_bytes};
ghost use Rattle.qrcode_charsets.specs.declared.sets.Charset.TheVariants.{OneByte};

use crate::sets::{Charset, CodePage};
use crate::shift_jis;
use std::alloc::{AllocError, Global};

// The bytes of a character: those of UTF-8, one byte, or two.
#[derive(Copy, Clone)]
pub(crate) enum CharBytes {
    Utf8(char),
    One(u8),
    Two(u16),
}

impl CharBytes {
    // Appends the bytes to `bytes`.
    fn push_to(self, bytes: &mut Vec<u8>) -> Result<(), AllocError>
        ensures { OnOk result (bytes.new.items ≡ bytes.old.items ++ code_bytes self) }
    {
        match self {
            CharBytes::Utf8(character) => {
                let mut buffer = [0; 4];
                bytes.extend_from_slice(character.encode_utf8(&mut buffer).as_bytes())
            }
            CharBytes::One(byte) => Ok(bytes.push(byte)?),
            CharBytes::Two(unit) => bytes.extend_from_slice(&unit.to_be_bytes()),
        }
    }
}

impl Charset {
    /// Returns the place of the first character of `text` that this set lacks, counted in
    /// characters, or `None` if it has them all.
    pub fn lacks(self, text: &str) -> Option<usize>
        ensures has { MatchOption result (Has self (chars text.now))
            (λ _. ¬ Has self (chars text.now)) }
        ensures first { IfSome result (λ place. (place < length (chars text.now))
            × Has self (take place (chars text.now))
            × ¬ Has self (take (place + 1) (chars text.now))) }
    {
        let mut place = 0;
        for character in text.chars() {
            match self.code(character) {
                Some(_) => place += 1,
                None => return Some(place),
            }
        }
        None
    }

    /// Returns the bytes of `text` in this set, or `None` if the set lacks one of its characters.
    ///
    /// Errors: only if memory runs out.
    pub fn encode(self, alloc: Global, text: &str) -> Result<Option<Vec<u8>>, AllocError>
        ensures { IfOk result (λ found. MatchOption found
            (¬ Has self (chars text.now))
            (λ bytes. IsWritten self (chars text.now) bytes.items)) }
    {
        let mut bytes = Vec::new(alloc);
        for character in text.chars() {
            match self.code(character) {
                Some(code) => code.push_to(&mut bytes)?,
                None => return Ok(None),
            }
        }
        Ok(Some(bytes))
    }

    /// Returns the text that `bytes` are in this set, or `None` if they are none.
    ///
    /// Errors: only if memory runs out.
    pub fn decode(self, alloc: Global, bytes: &[u8]) -> Result<Option<String>, AllocError>
        ensures { IfOk result (λ found. MatchOption found
            ((text : List ℕ) → ¬ IsWritten self text bytes.now)
            (λ text. IsWritten self (chars (string_bytes text)) bytes.now)) }
    {
        match self {
            Charset::Unmarked | Charset::Utf8 => match str::from_utf8(bytes) {
                Ok(text) => Ok(Some(String::from_str(alloc, text)?)),
                Err(_) => Ok(None),
            },
            Charset::OneByte(page) => page.decode(alloc, bytes),
            Charset::ShiftJis => shift_jis::decode(alloc, bytes),
        }
    }

    // Returns the bytes of `character` in this set, or `None` if the set lacks it.
    fn code(self, character: char) -> Option<CharBytes>
        ensures { MatchOption result (¬ Has self (character ∷ []))
            (λ code. IsWritten self (character ∷ []) (code_bytes code)) }
    {
        match self {
            Charset::Unmarked | Charset::Utf8 => Some(CharBytes::Utf8(character)),
            Charset::OneByte(page) => match page.byte(character) {
                Some(byte) => Some(CharBytes::One(byte)),
                None => None,
            },
            Charset::ShiftJis => shift_jis::code(character),
        }
    }
}

impl CodePage {
    // Returns the text that `bytes` are in this set, or `None` if one of them has no character.
    fn decode(self, alloc: Global, bytes: &[u8]) -> Result<Option<String>, AllocError>
        ensures { IfOk result (λ found. MatchOption found
            ((text : List ℕ) → ¬ IsWritten (OneByte self) text bytes.now)
            (λ text. IsWritten (OneByte self) (chars (string_bytes text)) bytes.now)) }
    {
        let mut text = String::new(alloc);
        for byte in bytes {
            match self.character(*byte) {
                Some(character) => text.push(character)?,
                None => return Ok(None),
            }
        }
        Ok(Some(text))
    }
}

//! Reads the arguments of the command line.

use qrcode::types::{EcLevel, QrResult, Version};
use std::alloc::Global;

/// One data argument: its bytes, and the kind before its `=`.
#[derive(Drop)]
pub struct Argument<'a> {
    pub kind: &'a str,
    pub bytes: Vec<u8>,
}

/// The arguments of a call: a kind, the names of a version and a level, and data.
#[derive(Clone, Copy)]
pub struct Call<'a> {
    pub kind: &'a str,
    pub version: &'a str,
    pub level: &'a str,
    pub given: &'a [Argument<'a>],
}

impl Argument<'_> {
    /// Reads an argument `KIND=TEXT` or `TEXT`. Each character is a byte, its code modulo 256;
    /// `TEXT*N` repeats TEXT N times.
    pub fn read<'a>(alloc: Global, word: &'a str) -> QrResult<Argument<'a>> {
        let (kind, text) = word.split_once('=').unwrap_or(("", word));
        let (unit, count) = repeated(text);
        let mut bytes = Vec::with_capacity(alloc, unit.len().saturating_mul(count))?;
        for _ in 0..count {
            for character in unit.chars() {
                bytes.push((u32::from(character) % 256) as u8)?;
            }
        }
        Ok(Argument { kind, bytes })
    }

    /// Returns the data as text, or an empty text if it is not UTF-8.
    pub fn text(&self) -> &str {
        str::from_utf8(&self.bytes).unwrap_or("")
    }

    /// Returns the data as a number, or 0 if it is none.
    pub fn number(&self) -> u32 {
        number(self.text())
    }
}

// Splits `TEXT*N` into the text and the number of times to repeat it.
fn repeated(text: &str) -> (&str, usize) {
    if let Some((unit, count)) = text.rsplit_once('*')
        && let Ok(count) = count.parse::<usize>()
    {
        return (unit, count);
    }
    (text, 1)
}

/// Returns `word` as a number, or 0 if it is none.
pub fn number(word: &str) -> u32 {
    word.parse::<u32>().unwrap_or(0)
}

impl<'a> Call<'a> {
    /// Returns the version of a name such as `40` or `M4`, or an invalid version for other names.
    pub fn version(&self) -> Version {
        match self.version.strip_prefix('M') {
            Some(number) => Version::Micro(number.parse::<i16>().unwrap_or(0)),
            None => Version::Normal(self.version.parse::<i16>().unwrap_or(0)),
        }
    }

    /// Returns the level of the name; L for other names.
    pub fn level(&self) -> EcLevel {
        match self.level {
            "M" => EcLevel::M,
            "Q" => EcLevel::Q,
            "H" => EcLevel::H,
            _ => EcLevel::L,
        }
    }

    /// Returns the bytes of the first data argument.
    pub fn data(&self) -> &'a [u8] {
        self.data_at(0)
    }

    /// Returns the bytes of the data argument at index `place`, or none.
    pub fn data_at(&self, place: usize) -> &'a [u8] {
        match self.given.get(place) {
            Some(given) => &given.bytes,
            None => &[],
        }
    }

    /// Returns the first data argument as text, or an empty text if it is not UTF-8.
    pub fn text(&self) -> &'a str {
        str::from_utf8(self.data()).unwrap_or("")
    }

    /// Returns the data argument at index `place` as a number, or 0.
    pub fn number(&self, place: usize) -> u32 {
        number(str::from_utf8(self.data_at(place)).unwrap_or(""))
    }
}

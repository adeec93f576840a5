//! Short texts, written from the end to the start, as the digits of numbers are found.

ghost use Rattle.std.specs.Prelude.{◌≡◌, ◌+◌, ◌<◌, ◌≤◌, [], ◌∷◌, ◌++◌, length, string_bytes, OnOk, IsOkUnless, decimal};
ghost use Rattle.qrcode_types.specs.declared.types.QrError.TheVariants.{OutOfMemory};

use qrcode_types::types::QrResult;
use std::marker::Model;
use std::str::from_utf8_unchecked;

/// A text of at most 128 bytes, written from its end to its start.
#[derive(Drop)]
pub struct Backwards {
    bytes: [u8; 128],
    start: usize,
}

impl Model for Backwards {
    ghost use Rattle.std.specs.Prelude.{ℕ, ◌≤◌, List, drop};
    ghost use Rattle.std.specs.Str.{IsUtf8};

    ghost Value = { List ℕ };

    ghost view = { λ b. drop b.start b.bytes };

    ghost invariant = { λ b. (b.start ≤ 128) × ∥ IsUtf8 (drop b.start b.bytes) ∥₁ };
}

impl Backwards {
    /// Creates an empty text.
    pub fn new() -> Backwards
        ensures { result ≡ [] }
    {
        Backwards {
            bytes: [0; 128],
            start: 128,
        }
    }

    // Writes an ASCII byte before the text.
    fn byte(&mut self, byte: u8)
        requires room { length self.old < 128 }
        requires ascii { byte < 128 }
        ensures { self.new ≡ byte ∷ self.old }
    {
        self.start -= 1;
        self.bytes[self.start] = byte;
    }

    // Writes the digits of `n` before the text.
    fn digits(&mut self, n: u64)
        requires { length (decimal n) + length self.old ≤ 128 }
        ensures { self.new ≡ decimal n ++ self.old }
    {
        self.byte(b'0' + (n % 10) as u8);
        if n > 9 {
            self.digits(n / 10);
        }
    }

    /// Writes `n` in decimal digits before the text, which must have room for 20.
    pub fn number(&mut self, n: u64)
        requires { length self.old + 20 ≤ 128 }
        ensures value { self.new ≡ decimal n ++ self.old }
        ensures length { length self.new ≤ length self.old + 20 }
    {
        self.digits(n);
    }

    /// Writes `word` before the text, which must have room for it.
    #[inline(always)]
    pub fn word(&mut self, word: &str)
        requires { length word.now + length self.old ≤ 128 }
        ensures value { self.new ≡ word.now ++ self.old }
        ensures length { length self.new ≡ length word.now + length self.old }
    {
        let end = self.start;
        self.start -= word.len();
        self.bytes[self.start..end].copy_from_slice(word.as_bytes());
    }

    /// Appends the text to `whole`.
    ///
    /// Errors: only `OutOfMemory`.
    pub fn append_to(&self, whole: &mut String) -> QrResult<()>
        ensures appends { OnOk result
            (string_bytes whole.new ≡ string_bytes whole.old ++ self.now) }
        ensures memory { IsOkUnless result OutOfMemory }
    {
        // It is put together of UTF-8 texts.
        let text = unsafe { from_utf8_unchecked(&self.bytes[self.start..]) };
        whole.push_str(text)?;
        Ok(())
    }
}

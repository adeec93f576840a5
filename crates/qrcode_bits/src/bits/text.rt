//! Appends text to a list of bits.

ghost use Rattle.std.specs.Prelude.{◌≡◌, ◌+◌, ◌≤◌, length, IfOk, IsOkUnless, IsUtf8, IsTrue};
ghost use Rattle.qrcode_types.specs.declared.types.QrError.TheVariants.{OutOfMemory};
ghost use Rattle.qrcode_bits.specs.Manners.{front, has_front, is_text};
ghost use Rattle.qrcode_bits.specs.Pushes.{with_bits};
ghost use Rattle.qrcode_bits.specs.Refusals.{bit_limit};
ghost use Rattle.qrcode_bits.specs.TextPushes.{PushesText};
ghost use Rattle.qrcode_bits.specs.declared.bits.manner.Manner.TheVariants.{Text, MarkedText};

use super::choice::measure;
use super::{BIT_LIMIT, Bits, DATA_LIMIT, Manner};
use qrcode_types::types::{QrError, QrResult};

impl Bits {
    /// Appends `text` in the fewest bits without Kanji, as `QrCode::of_text` does, so that readers
    /// that decode bytes as UTF-8 show it. On an error the list is unchanged.
    ///
    /// Errors, the first that applies: `DataTooLong` if the text has more than 1,048,576 bytes;
    /// `UnsupportedCharacterSet` if the version lacks a mode that the text needs; `DataTooLong` if
    /// a segment has more characters than its length field counts, or the list would exceed
    /// 16,777,216 bits. `OutOfMemory` if memory runs out; it may hide the last.
    pub fn push_text(&mut self, text: &str) -> QrResult<()>
        ensures { PushesText Text text.now self.old self.new result }
    {
        self.push_as(text.as_bytes(), Manner::Text)
    }

    /// Appends `text` as `push_text` does, after the ECI designator 26 for UTF-8, which takes 12
    /// bits.
    ///
    /// Errors: as for `push_text`; `UnsupportedCharacterSet` for every Micro version, since these
    /// have no ECI.
    pub fn push_marked_text(&mut self, text: &str) -> QrResult<()>
        ensures { PushesText MarkedText text.now self.old self.new result }
    {
        self.push_as(text.as_bytes(), Manner::MarkedText)
    }

    // Appends a text to a copy of the list, and replaces the list with it on success.
    fn push_as(&mut self, text: &[u8], manner: Manner) -> QrResult<()>
        requires text { IsTrue (is_text manner) }
        requires utf8 { IsUtf8 text.now }
        ensures { PushesText manner text.now self.old self.new result }
    {
        if text.len() > DATA_LIMIT {
            return Err(QrError::DataTooLong);
        }
        if !manner.has_front(self.version) {
            return Err(QrError::UnsupportedCharacterSet);
        }
        let chosen = measure(self.stream.allocator(), text, manner, self.version)?;
        if self.len() + manner.front_length() > BIT_LIMIT {
            return Err(QrError::DataTooLong);
        }
        let mut longer = self.with_front(manner)?;
        longer.push_all(text, chosen.segments)?;
        *self = longer;
        Ok(())
    }

    // Copies the list, and appends the ECI designator that the manner needs.
    fn with_front(&self, manner: Manner) -> QrResult<Bits>
        requires exists { IsTrue (has_front self.now.version manner) }
        requires room { length self.now.bits + length (front manner) ≤ bit_limit }
        ensures value { IfOk result (λ longer. longer ≡ with_bits self.now (front manner)) }
        ensures memory { IsOkUnless result OutOfMemory }
    {
        let mut longer = Bits {
            version: self.version,
            stream: self.stream.copied()?,
        };
        longer.push_front(manner)?;
        Ok(longer)
    }
}

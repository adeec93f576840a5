//! Writes the header of a symbol that is one of several.

ghost use Rattle.std.specs.Prelude.{◌≤◌, length, Some, None, if◌then◌else◌};
ghost use Rattle.qrcode_types.specs.Versions.{is_micro};
ghost use Rattle.qrcode_bits.specs.Pushes.{Appends};
ghost use Rattle.qrcode_bits.specs.Refusals.{append_refusal};
ghost use Rattle.qrcode_bits.specs.StructuredAppend.{append_header};

use super::Bits;
use qrcode_types::types::{QrError, QrResult};

impl Bits {
    /// Appends the header of a symbol that is one of several (structured append, ISO/IEC
    /// 18004:2006, 8): the mode indicator, the places of this symbol and of the last one, both from
    /// 0, and in `parity` the XOR of all bytes of the whole data. Call this before any other push.
    ///
    /// Errors, the first that applies: `UnsupportedCharacterSet` in Micro versions; `DataTooLong`
    /// if the list would exceed 16,777,216 bits; `OutOfMemory` if memory runs out.
    pub fn push_structured_append(&mut self, place: u8, last: u8, parity: u8) -> QrResult<()>
        requires inside { place ≤ last }
        requires at_most { last ≤ 15 }
        ensures { Appends (append_refusal (length self.old.bits)
            (if is_micro self.old.version then None else Some (append_header place last parity)))
            (append_header place last parity) self.old self.new result }
    {
        if self.version.is_micro() {
            return Err(QrError::UnsupportedCharacterSet);
        }
        let places = 16 * u32::from(place) + u32::from(last);
        self.push_number(20, (0b0011 << 16) + 256 * places + u32::from(parity))
    }
}

//! Appends data that is already divided into segments.

ghost use Rattle.std.specs.Prelude.{◌≡◌, ℕ, ◌+◌, ◌≤◌, [], ◌∷◌, ◌++◌, length, take, IfErr, OnOk, IsOkUnless, IsTrue};
ghost use Rattle.qrcode_types.specs.Versions.{has_level, capacity};
ghost use Rattle.qrcode_types.specs.declared.types.QrError.TheVariants.{OutOfMemory};
ghost use Rattle.qrcode_bits.specs.Cuts.{IsCut};
ghost use Rattle.qrcode_bits.specs.Pushes.{PushesAll};
ghost use Rattle.qrcode_bits.specs.Refusals.{StopsAt};
ghost use Rattle.qrcode_bits.specs.Segments.{AreInside, total_cost};
ghost use Rattle.qrcode_bits.specs.Written.{pieces_of, written, terminated};

use super::Bits;
use crate::optimize::Segment;
use qrcode_types::types::{EcLevel, QrResult};

impl Bits {
    /// Appends `bytes` in the given segments, which must cover them and fit the symbol, and then
    /// the terminator and padding: `push_segments` and `push_terminator` in one.
    ///
    /// Errors: only `OutOfMemory`; the segments appended before it stay in the list.
    pub fn end_with(
        &mut self,
        bytes: &[u8],
        segments: Vec<Segment>,
        ec_level: EcLevel,
    ) -> QrResult<()>
        requires exists { IsTrue (has_level self.old.version ec_level) }
        requires cut { IsCut self.old.version bytes.now segments.items }
        requires room { length self.old.bits + total_cost self.old.version segments.items
            ≤ capacity self.old.version ec_level }
        ensures ends { OnOk result (self.new ≡ record self.old {
          bits = terminated self.old.version ec_level
              (self.old.bits ++ written self.old.version (pieces_of bytes.now segments.items));
        }) }
        ensures stopped { IfErr result (λ _. (n : ℕ) × (self.new ≡ record self.old {
          bits = self.old.bits
              ++ written self.old.version (take n (pieces_of bytes.now segments.items));
        })) }
        ensures full { OnOk result (length self.new.bits ≡ capacity self.old.version ec_level) }
        ensures memory { IsOkUnless result OutOfMemory }
    {
        self.push_all(bytes, segments)?;
        self.push_terminator(ec_level)
    }

    // Appends the ranges of all segments in their modes.
    pub(super) fn push_all(&mut self, bytes: &[u8], segments: Vec<Segment>) -> QrResult<()>
        requires { AreInside (length bytes.now) segments.items }
        ensures pushed { OnOk result
            (PushesAll self.old.version self.old.bits bytes.now segments.items self.new.bits) }
        ensures stopped { IfErr result (λ e. StopsAt self.old.version self.old.bits
            (pieces_of bytes.now segments.items) e self.new.bits) }
        ensures version { self.new.version ≡ self.old.version }
    {
        self.push_segments(bytes, segments.into_iter())
    }
}

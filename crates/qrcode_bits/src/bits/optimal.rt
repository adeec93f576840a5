//! Appends data in the fewest bits.

ghost use Rattle.std.specs.Prelude.{◌≡◌, ◌+◌, ◌<◌, ◌≤◌, ◌⊎◌, ◌↔◌, List, length, Err, IfErr, OnOk, IsOkUnless};
ghost use Rattle.qrcode_types.specs.Versions.{capacity};
ghost use Rattle.qrcode_types.specs.declared.types.EcLevel.{EcLevel};
ghost use Rattle.qrcode_types.specs.declared.types.QrError.TheVariants.{DataTooLong, UnsupportedCharacterSet, OutOfMemory};
ghost use Rattle.qrcode_bits.specs.Cuts.{IsCut, FitsIn};
ghost use Rattle.qrcode_bits.specs.Spelling.{IsSpelled};
ghost use Rattle.qrcode_bits.specs.Refusals.{data_limit, bit_limit};
ghost use Rattle.qrcode_bits.specs.Optimal.{PushesLeast, StopsInLeast};
ghost use Rattle.qrcode_bits.specs.declared.optimize.Segment.{Segment};

use super::Bits;
use crate::optimize::least_segments;
use qrcode_types::types::{QrError, QrResult};

/// The largest number of bytes of data that calls accept.
pub const DATA_LIMIT: usize = 1_048_576;

impl Bits {
    /// Appends `bytes` in the segments with the fewest bits, which `least_segments` finds.
    ///
    /// Errors, the first that applies: `DataTooLong` if there are more than 1,048,576 bytes;
    /// `UnsupportedCharacterSet` if the modes of the version cannot write them; `OutOfMemory` if
    /// memory runs out in the search. These leave the list unchanged. After them, the error of the
    /// first segment that cannot be appended; the segments before it stay in the list.
    pub fn push_optimal_data(&mut self, bytes: &[u8]) -> QrResult<()>
        ensures too_long { data_limit < length bytes.now
            → (result ≡ Err QrError.DataTooLong) × (self.new ≡ self.old) }
        ensures no_cut { length bytes.now ≤ data_limit
            → ((segments : List Segment) → ¬ IsCut self.old.version bytes.now segments)
            → (result ≡ Err QrError.UnsupportedCharacterSet) × (self.new ≡ self.old) }
        ensures pushed { OnOk result
            (PushesLeast self.old.version self.old.bits bytes.now self.new.bits) }
        ensures stopped { (cut : List Segment) → length bytes.now ≤ data_limit
            → IsCut self.old.version bytes.now cut
            → IfErr result (λ e. ((e ≡ OutOfMemory) × (self.new ≡ self.old))
            ⊎ StopsInLeast self.old.version self.old.bits bytes.now e self.new.bits) }

        // Data that the modes can write fails only because it is too long or memory runs out.
        ensures causes { (cut : List Segment) → IsCut self.old.version bytes.now cut
            → IfErr result (λ e. (e ≡ DataTooLong) ⊎ (e ≡ OutOfMemory)) }

        // Data that fits a symbol is accepted.
        ensures accepts { (level : EcLevel)
            → length self.old.bits + capacity self.old.version level ≤ bit_limit
            → FitsIn self.old.version bytes.now (capacity self.old.version level)
            → IsOkUnless result OutOfMemory }

        // A division of the data fits a symbol exactly if some bits that fill it decode to the
        // data.
        ensures spelled { (level : EcLevel)
            → FitsIn self.old.version bytes.now (capacity self.old.version level)
            ↔ IsSpelled self.old.version level bytes.now }
        ensures version { self.new.version ≡ self.old.version }
    {
        let version = self.version();
        if bytes.len() > DATA_LIMIT {
            return Err(QrError::DataTooLong);
        }
        let segments = least_segments(self.stream.allocator(), bytes, version)?;
        self.push_all(bytes, segments)
    }
}

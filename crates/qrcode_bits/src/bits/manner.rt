//! How bytes are written: as bytes or as text.

ghost use Rattle.std.specs.Prelude.{◌≡◌, ◌≤◌, length};
ghost use Rattle.qrcode_bits.specs.Manners as manners;

use crate::optimize::Modes;
use qrcode_types::types::Version;

// The ECI designator of UTF-8.
pub(super) const UTF8_NUMBER: u32 = 26;

/// How bytes are written: in which modes, and whether an ECI designator comes first.
#[derive(PartialEq, Eq, Debug, Copy, Clone)]
pub enum Manner {
    /// As bytes of any kind, in all modes.
    Bytes,
    /// As UTF-8 text, in modes that readers show as its characters: all except Kanji. The bytes are
    /// not checked; if they are not UTF-8, nothing is promised about what readers show.
    Text,
    /// As UTF-8 text after the ECI designator 26, which takes 12 bits: for readers that otherwise
    /// guess the character set. Micro QR has no ECI.
    MarkedText,
}

impl Manner {
    /// Returns the modes that segments may have.
    pub fn modes(self) -> Modes
        ensures { result ≡ manners.modes_of self }
    {
        match self {
            Manner::Bytes => Modes::ALL,
            Manner::Text | Manner::MarkedText => Modes::TEXT,
        }
    }

    /// Returns how many bits come before the segments: 12 for the ECI designator, else 0.
    #[tactic(auto, unfolding(crate::specs::Written::eci_bits, qrcode_types::specs::Bits::number_bits))]
    pub fn front_length(self) -> usize
        ensures value { result ≡ length (manners.front self) }
        ensures at_most { result ≤ 12 }
    {
        match self {
            Manner::Bytes | Manner::Text => 0,
            Manner::MarkedText => 12,
        }
    }

    /// Returns whether `version` allows the bits before the segments: Micro versions have no ECI.
    pub fn has_front(self, version: Version) -> bool
        ensures { result ≡ manners.has_front version self }
    {
        match self {
            Manner::Bytes | Manner::Text => true,
            Manner::MarkedText => !version.is_micro(),
        }
    }
}

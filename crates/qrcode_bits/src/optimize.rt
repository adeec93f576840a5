//! Divides data into segments, each in one mode.

ghost use Rattle.std.specs.Prelude.{◌≡◌, ◌-◌, ◌≤◌, ◌<◌, ◌^◌, ◌↔◌, IsTrue};
ghost use Rattle.std.specs.List.{AllByRecursion};
ghost use Rattle.qrcode_types.specs.Versions.{is_valid};
ghost use Rattle.qrcode_bits.specs.Segments.{cost, total_cost};
ghost use Rattle.qrcode_bits.specs.Groups.{range_limit};
ghost use Rattle.qrcode_bits.specs.declared.optimize.Segment.{Segment};

pub use self::groups::Optimizer;
pub use self::least::{least_segments, least_segments_in};
pub use self::mode_sets::Modes;
pub use self::runs::Parser;
use qrcode_types::characters::character_count;
use qrcode_types::types::{Mode, Version};

mod costs;
mod groups;
mod headers;
mod least;
mod mode_sets;
mod runs;
mod single;
mod tokens;

/// A range of the data, `begin..end`, in one mode.
#[derive(PartialEq, Eq, Debug, Copy, Clone)]
pub struct Segment {
    /// The mode in which the range is written.
    pub mode: Mode,
    /// The index of the first byte.
    pub begin: usize,
    /// The index after the last byte.
    pub end: usize,
}

impl Segment {
    /// Returns how many bits the segment takes, with mode indicator and length field. In Kanji, a
    /// last byte without a second one takes none.
    #[tactic(auto, using(crate::proofs::VersionModes::header_short))]
    pub fn encoded_len(&self, version: Version) -> usize
        requires valid { IsTrue (is_valid version) }
        requires ordered { self.now.begin ≤ self.now.end }
        requires at_most { self.now.end - self.now.begin ≤ range_limit }
        ensures value { result ≡ cost version self.now }
        ensures at_most { result < 2 ^ 31 }
    {
        let characters = character_count(self.mode, self.end - self.begin);
        version.mode_bits_count()
            + self.mode.length_bits_count(version)
            + self.mode.data_bits_count(characters)
    }
}

/// Returns how many bits all segments take: the sum of their `encoded_len`.
pub fn total_encoded_len(segments: &[Segment], version: Version) -> usize
    requires valid { IsTrue (is_valid version) }
    requires ranges { AllByRecursion
        (λ s. (s.begin ≤ s.end) × (s.end - s.begin ≤ range_limit)) segments.now }
    requires fits { total_cost version segments.now < 2 ^ 64 }
    ensures { result ≡ total_cost version segments.now }
{
    let mut total = 0;
    for segment in segments {
        total += segment.encoded_len(version);
    }
    total
}

// The kind of a token: a pair of bytes that Kanji can write, or a single byte: one that could begin
// such a pair, a digit, another alphanumeric character, or anything else.
#[derive(PartialEq, Eq, Copy, Clone)]
enum Kind {
    Pair,
    LoneLead,
    Digit,
    Letter,
    Other,
}

//! Sets of modes.

ghost use Rattle.std.specs.Prelude.{◌≡◌};
ghost use Rattle.qrcode_bits.specs.ModeSets.{is_among};

use qrcode_types::types::Mode;

/// A set of modes.
#[derive(PartialEq, Eq, Debug, Copy, Clone)]
pub struct Modes {
    /// Whether Numeric is in the set.
    pub numeric: bool,
    /// Whether Alphanumeric is in the set.
    pub alphanumeric: bool,
    /// Whether Byte is in the set.
    pub byte: bool,
    /// Whether Kanji is in the set.
    pub kanji: bool,
}

impl Modes {
    /// All four modes.
    pub const ALL: Modes = Modes {
        numeric: true,
        alphanumeric: true,
        byte: true,
        kanji: true,
    };

    /// The modes for text: all except Kanji, whose bytes readers decode as Shift JIS.
    pub const TEXT: Modes = Modes {
        numeric: true,
        alphanumeric: true,
        byte: true,
        kanji: false,
    };

    /// Returns whether the set contains `mode`.
    pub fn has(self, mode: Mode) -> bool
        ensures { result ≡ is_among self mode }
    {
        match mode {
            Mode::Numeric => self.numeric,
            Mode::Alphanumeric => self.alphanumeric,
            Mode::Byte => self.byte,
            Mode::Kanji => self.kanji,
        }
    }
}

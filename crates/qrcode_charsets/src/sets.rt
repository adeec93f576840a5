//! Character sets.

ghost use Rattle.std.specs.Prelude.{◌≡◌, ◌+◌, ◌-◌, ◌<◌, ◌≤◌, ◌≢◌, ℕ, Some, IfSome, MatchOption, slice_index};
ghost use Rattle.qrcode_charsets.specs.Charsets as charsets;
ghost use Rattle.qrcode_charsets.specs.declared.sets.Charset.{Charset};

use crate::table::CHARACTERS;

/// A character set of one byte for each character, with its ECI designator. The first 128
/// characters are those of ASCII.
#[derive(PartialEq, Eq, Debug, Copy, Clone)]
pub enum CodePage {
    /// ISO/IEC 8859-1: Latin alphabet No. 1, for Western Europe.
    Latin1 = 3,
    /// ISO/IEC 8859-2: Latin alphabet No. 2, for Central Europe.
    Latin2 = 4,
    /// ISO/IEC 8859-3: Latin alphabet No. 3, for Southern Europe.
    Latin3 = 5,
    /// ISO/IEC 8859-4: Latin alphabet No. 4, for Northern Europe.
    Latin4 = 6,
    /// ISO/IEC 8859-5: the Latin and Cyrillic alphabets.
    Cyrillic = 7,
    /// ISO/IEC 8859-6: the Latin and Arabic alphabets.
    Arabic = 8,
    /// ISO/IEC 8859-7: the Latin and Greek alphabets.
    Greek = 9,
    /// ISO/IEC 8859-8: the Latin and Hebrew alphabets.
    Hebrew = 10,
    /// ISO/IEC 8859-9: Latin alphabet No. 5, for Turkish.
    Latin5 = 11,
    /// ISO/IEC 8859-10: Latin alphabet No. 6, for Northern Europe.
    Latin6 = 12,
    /// ISO/IEC 8859-11: the Latin and Thai alphabets.
    Thai = 13,
    /// ISO/IEC 8859-13: Latin alphabet No. 7, for the Baltic.
    Latin7 = 15,
    /// ISO/IEC 8859-14: Latin alphabet No. 8, for Celtic languages.
    Latin8 = 16,
    /// ISO/IEC 8859-15: Latin alphabet No. 9, ISO/IEC 8859-1 with the euro sign.
    Latin9 = 17,
    /// ISO/IEC 8859-16: Latin alphabet No. 10, for South-Eastern Europe.
    Latin10 = 18,
    /// Windows-1250: for Central Europe.
    Windows1250 = 21,
    /// Windows-1251: the Latin and Cyrillic alphabets.
    Windows1251 = 22,
    /// Windows-1252: for Western Europe.
    Windows1252 = 23,
    /// Windows-1256: the Latin and Arabic alphabets.
    Windows1256 = 24,
}

/// How a text is encoded, and whether an ECI designator tells a reader so.
#[derive(PartialEq, Eq, Debug, Copy, Clone)]
pub enum Charset {
    /// UTF-8 with no designator before it, for readers that assume UTF-8.
    Unmarked,
    /// UTF-8 after its designator.
    Utf8,
    /// A set of one byte for each character, after its designator.
    OneByte(CodePage),
    /// Shift JIS after its designator: ASCII, half-width katakana and the characters of JIS X 0208,
    /// except eight that readers show differently.
    ShiftJis,
}

/// UTF-8 without a designator, then, in the order of their designators, the sets that zxing and
/// zbar show: ISO/IEC 8859, Shift JIS and UTF-8.
#[rattlefmt::skip]
pub static CHARSETS: [Charset; 18] = [
    Charset::Unmarked, Charset::OneByte(CodePage::Latin1), Charset::OneByte(CodePage::Latin2),
    Charset::OneByte(CodePage::Latin3), Charset::OneByte(CodePage::Latin4),
    Charset::OneByte(CodePage::Cyrillic), Charset::OneByte(CodePage::Arabic),
    Charset::OneByte(CodePage::Greek), Charset::OneByte(CodePage::Hebrew), Charset::OneByte(CodePage::Latin5),
    Charset::OneByte(CodePage::Latin6), Charset::OneByte(CodePage::Thai), Charset::OneByte(CodePage::Latin7),
    Charset::OneByte(CodePage::Latin8), Charset::OneByte(CodePage::Latin9),
    Charset::OneByte(CodePage::Latin10), Charset::ShiftJis, Charset::Utf8,
];

impl Charset {
    /// Returns the ECI designator that comes before the segments, if any.
    pub fn designator(self) -> Option<u32>
        ensures value { result ≡ charsets.designator self }
        ensures at_most { IfSome result (λ number. number ≤ 127) }
    {
        match self {
            Charset::Unmarked => None,
            Charset::Utf8 => Some(26),
            Charset::OneByte(page) => Some(page.designator()),
            Charset::ShiftJis => Some(20),
        }
    }

    /// Returns the set whose ECI designator is `number`, or `None` if there is none.
    pub fn numbered(number: u32) -> Option<Charset>
        ensures { MatchOption result
            ((set : Charset) → charsets.designator set ≢ Some number)
            (λ set. charsets.designator set ≡ Some number) }
    {
        let page = match number {
            3 => CodePage::Latin1,
            4 => CodePage::Latin2,
            5 => CodePage::Latin3,
            6 => CodePage::Latin4,
            7 => CodePage::Cyrillic,
            8 => CodePage::Arabic,
            9 => CodePage::Greek,
            10 => CodePage::Hebrew,
            11 => CodePage::Latin5,
            12 => CodePage::Latin6,
            13 => CodePage::Thai,
            15 => CodePage::Latin7,
            16 => CodePage::Latin8,
            17 => CodePage::Latin9,
            18 => CodePage::Latin10,
            20 => return Some(Charset::ShiftJis),
            21 => CodePage::Windows1250,
            22 => CodePage::Windows1251,
            23 => CodePage::Windows1252,
            24 => CodePage::Windows1256,
            26 => return Some(Charset::Utf8),
            _ => return None,
        };
        Some(Charset::OneByte(page))
    }
}

impl CodePage {
    /// Returns the ECI designator of the set.
    pub fn designator(self) -> u32
        ensures value { result ≡ charsets.page_designator self }
        ensures at_least { 3 ≤ result }
        ensures at_most { result ≤ 24 }
    {
        self as u32
    }

    /// Returns the character of `byte`, or `None` if it has none.
    pub fn character(self, byte: u8) -> Option<char>
        ensures { result ≡ charsets.character self byte }
    {
        if byte < 128 {
            return Some(char::from(byte));
        }
        let column = usize::from(byte);
        let character = self.cell(column - 128);
        if character == '\0' {
            return None;
        }
        Some(character)
    }

    /// Returns the byte of `character`, or `None` if the set lacks the character.
    pub fn byte(self, character: char) -> Option<u8>
        ensures { MatchOption result
            ((byte : ℕ) → charsets.character self byte ≢ Some character)
            (λ byte. charsets.character self byte ≡ Some character) }
    {
        if character < '\u{80}' {
            return Some(character as u8);
        }
        for place in 0..128 {
            if self.cell(place) == character {
                return Some(128 + place as u8);
            }
        }
        None
    }

    // Returns the character of the byte 128 + `place`, or U+0000 if it has none.
    fn cell(self, place: usize) -> char
        requires { place < 128 }
        ensures { result ≡ slice_index (charsets.page_characters self) place }
    {
        CHARACTERS[self.designator() as usize - 3][place]
    }
}

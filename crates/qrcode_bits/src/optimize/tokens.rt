//! Splits data into tokens: Kanji pairs and single bytes.

ghost use Rattle.std.specs.Prelude.{◌≡◌, ◌+◌, ◌<◌, [], ◌∷◌, length, drop, slice_index, MatchOption, if◌then◌else◌};
ghost use Rattle.qrcode_types.specs.Characters as characters;
ghost use Rattle.qrcode_bits.specs.Runs.{mode_of, single_kind, go_together, width, kinds};
ghost use Rattle.qrcode_bits.specs.declared.optimize.Kind.TheVariants.{Digit, Letter, Other};
ghost use Rattle.qrcode_bits.specs.Tokens.{kind_at, first_byte};

use super::Kind;
use qrcode_types::characters::{is_alphanumeric, is_digit, is_kanji, is_lead};
use qrcode_types::types::Mode;

impl Kind {
    // Returns the narrowest mode that can write such tokens.
    pub(super) fn mode(self) -> Mode
        ensures { result ≡ mode_of self }
    {
        match self {
            Kind::Pair => Mode::Kanji,
            Kind::LoneLead | Kind::Other => Mode::Byte,
            Kind::Digit => Mode::Numeric,
            Kind::Letter => Mode::Alphanumeric,
        }
    }

    // Returns whether a token of kind `next` belongs to the same run.
    pub(super) fn goes_with(self, next: Kind) -> bool
        ensures { result ≡ go_together self next }
    {
        self == next && self != Kind::LoneLead
    }

    // Returns the kind of the token that begins at `place`.
    pub(super) fn at(bytes: &[u8], place: usize) -> Kind
        requires { place < length bytes.now }
        ensures { result ≡ kind_at (slice_index bytes.now place)
            (first_byte (drop (place + 1) bytes.now)) }
    {
        let byte = bytes[place];
        if byte < 0x81 {
            Kind::of_low(byte)
        } else if place + 1 < bytes.len() && is_kanji(byte, bytes[place + 1]) {
            Kind::Pair
        } else {
            Kind::of_single(byte)
        }
    }

    // Returns the kind of a byte below those that can begin a pair. One comparison recognises
    // lower-case letters, since they are above all alphanumeric characters.
    #[tactic(auto, using(crate::proofs::TokenKinds::above_letters))]
    fn of_low(byte: u8) -> Kind
        ensures { result ≡ (if characters.is_digit byte then Digit
            else (if characters.is_alphanumeric byte then Letter else Other)) }
    {
        if is_digit(byte) {
            Kind::Digit
        } else if byte <= b'Z' && is_alphanumeric(byte) {
            Kind::Letter
        } else {
            Kind::Other
        }
    }

    // Returns the kind of a byte that begins no pair.
    pub(super) fn of_single(byte: u8) -> Kind
        ensures { result ≡ single_kind byte }
    {
        if is_lead(byte) {
            Kind::LoneLead
        } else if is_digit(byte) {
            Kind::Digit
        } else if is_alphanumeric(byte) {
            Kind::Letter
        } else {
            Kind::Other
        }
    }
}

// Returns the kind of the first token, and the bytes after it.
pub(super) fn split_token(bytes: &[u8]) -> Option<(Kind, &[u8])>
    ensures { MatchOption result (bytes.now ≡ []) (λ p. (kinds bytes.now ≡ p.0 ∷ kinds p.1.now)
        × (length bytes.now ≡ width p.0 + length p.1.now)) }
{
    match bytes {
        [] => None,
        [lead, second, rest @ ..] if is_kanji(*lead, *second) => Some((Kind::Pair, rest)),
        [byte, rest @ ..] => Some((Kind::of_single(*byte), rest)),
    }
}

//! Tests of the characters in a field.

ghost use Rattle.std.specs.Prelude.{◌≡◌, ◌<◌, ◌==◌, length};
ghost use Rattle.std.specs.List.{after_first, before_first, list_all, list_any};
ghost use Rattle.std.specs.Str.{chars};
ghost use Rattle.qrcode_types.specs.Characters.{is_digit};
ghost use Rattle.qrcode_contents.specs.fields.Characters.{are_addresses, has_one_at, is_address, is_base32, is_beside_address, is_capital, is_capital_or_digit, is_control, is_dialled, is_other_control, is_unicode_break, is_placed, matches_form};

/// Returns whether all bytes are letters A to Z.
pub fn are_capitals(bytes: &[u8]) -> bool
    ensures { result ≡ list_all is_capital bytes.now }
{
    bytes.iter().all(|byte| byte.is_ascii_uppercase())
}

/// Returns whether all bytes are digits.
pub fn are_digits(bytes: &[u8]) -> bool
    ensures { result ≡ list_all is_digit bytes.now }
{
    bytes.iter().all(|byte| byte.is_ascii_digit())
}

/// Returns whether all bytes are digits or letters A to Z.
pub fn are_capitals_or_digits(text: &str) -> bool
    ensures { result ≡ list_all is_capital_or_digit text.now }
{
    let bytes = text.as_bytes();
    bytes
        .iter()
        .all(|byte| matches!(*byte, b'0'..=b'9' | b'A'..=b'Z'))
}

/// Returns whether all bytes may be in a telephone number: digits, `+`, `-`, `.`, `(` and `)`.
pub fn are_dialled(text: &str) -> bool
    ensures { result ≡ list_all is_dialled text.now }
{
    let bytes = text.as_bytes();
    bytes.iter().all(|byte| matches!(*byte, b'0'..=b'9' | b'+' | b'-' | b'.' | b'(' | b')'))
}

/// Returns whether all bytes are characters of base 32: A to Z and 2 to 7.
pub fn is_in_base32(text: &str) -> bool
    ensures { result ≡ list_all is_base32 text.now }
{
    let bytes = text.as_bytes();
    bytes
        .iter()
        .all(|byte| matches!(*byte, b'A'..=b'Z' | b'2'..=b'7'))
}

/// Returns whether `text` has exactly one `@`.
pub fn has_one_at(text: &str) -> bool
    ensures { result ≡ has_one_at text.now }
{
    let bytes = text.as_bytes();
    bytes.iter().filter(|byte| **byte == b'@').count() == 1
}

/// Returns whether `text` has exactly one `@`, and neither a space nor an angle bracket, which stand
/// between a name and an address.
pub fn is_address(text: &str) -> bool
    ensures { result ≡ is_address text.now }
{
    has_one_at(text) && !has_name(text)
}

// Returns whether `text` has what stands between a name and an address.
fn has_name(text: &str) -> bool
    ensures { result ≡ list_any is_beside_address text.now }
{
    let bytes = text.as_bytes();
    bytes.iter().any(|byte| matches!(*byte, b' ' | b'<' | b'>'))
}

/// Returns whether `text` is addresses that commas separate, each as `is_address` says.
pub fn are_addresses(text: &str) -> bool
    ensures { result ≡ are_addresses text.now }
{
    text.split(',').all(|address| is_address(address))
}

/// Returns whether `text` has an ASCII control character, such as a line break.
pub fn has_control(text: &str) -> bool
    ensures { result ≡ list_any is_control text.now }
{
    let bytes = text.as_bytes();
    bytes.iter().any(|byte| *byte < 32 || *byte == 127)
}

/// Returns whether `text` has an ASCII control character other than tab and line feed.
pub fn has_other_control(text: &str) -> bool
    ensures { result ≡ list_any is_other_control text.now }
{
    let bytes = text.as_bytes();
    bytes.iter().any(|byte| (*byte < 32 || *byte == 127) && *byte != b'\t' && *byte != b'\n')
}

// Whether a character is a line break outside ASCII: NEL, LS or PS.
fn is_unicode_break(character: char) -> bool
    ensures { result ≡ is_unicode_break character }
{
    matches!(character, '\u{85}' | '\u{2028}' | '\u{2029}')
}

/// Returns whether `text` has a line break outside ASCII: U+0085, U+2028 or U+2029.
pub fn has_unicode_break(text: &str) -> bool
    ensures { result ≡ list_any is_unicode_break (chars text.now) }
{
    text.chars().any(|character| is_unicode_break(character))
}

/// Splits `text` at the first `mark`, an ASCII character, into what is before and after it. Without
/// a `mark`, returns all of `text` and an empty text.
pub fn parts(text: &str, mark: char) -> (&str, &str)
    requires ascii { mark < 128 }
    ensures before { result.0.now ≡ before_first (λ b. b == mark) text.now }
    ensures behind { result.1.now ≡ after_first (λ b. b == mark) text.now }
{
    text.split_once(mark).unwrap_or((text, ""))
}

/// Returns the number of characters in `text`.
pub fn character_count(text: &str) -> usize
    ensures { result ≡ length (chars text.now) }
{
    text.chars().count()
}

// Whether a byte matches one of a form: a digit matches `d`, a hexadecimal digit in lower case `h`,
// `+` or `-` matches `s`, any other only itself.
fn is_placed(place: u8, byte: u8) -> bool
    ensures { result ≡ is_placed place byte }
{
    match place {
        b'd' => byte.is_ascii_digit(),
        b'h' => matches!(byte, b'0'..=b'9' | b'a'..=b'f'),
        b's' => matches!(byte, b'+' | b'-'),
        _ => byte == place,
    }
}

/// Returns whether `bytes` match `form`: a digit for each `d`, a hexadecimal digit in lower case for
/// each `h`, `+` or `-` for each `s`, and otherwise the same bytes.
pub fn matches_form(form: &[u8], bytes: &[u8]) -> bool
    ensures { result ≡ matches_form form.now bytes.now }
{
    let mut places = form;
    let mut rest = bytes;
    while let [place, later @ ..] = places {
        let [byte, more @ ..] = rest else {
            return false;
        };
        if !is_placed(*place, *byte) {
            return false;
        }
        places = later;
        rest = more;
    }
    rest.is_empty()
}

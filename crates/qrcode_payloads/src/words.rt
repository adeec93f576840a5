//! Words for values, in upper or lower case.

ghost use Rattle.std.specs.Prelude.{◌≡◌, map};
ghost use Rattle.qrcode_payloads.specs.Values.{word_in};
ghost use Rattle.qrcode_payloads.specs.Words.{is_word, named};

use qrcode_contents::fields::errors::{Cause, ContentError, ContentResult, Field};

// Whether a text is this word; ASCII case is ignored.
fn is_word(text: &str, word: &str) -> bool
    ensures { result ≡ is_word text.now word.now }
{
    text.eq_ignore_ascii_case(word)
}

// The value of the first of these words that the text is; `None` if it is none of them.
fn named<T: Copy>(text: &str, words: &[(&str, T)]) -> Option<T>
    ensures value { result ≡ named (map (λ word. (word.0.now, word.1)) words.now) text.now }
{
    let mut rest = words;
    while let [(word, value), more @ ..] = rest {
        if is_word(text, word) {
            return Some(*value);
        }
        rest = more;
    }
    None
}

/// Returns the value of a field that must be one of `words`, in upper or lower case; `other` if
/// `text` is empty.
///
/// Errors: `Refused` with `field` and `Word` if `text` is none of them.
pub(crate) fn word<T: Copy>(
    text: &str,
    words: &[(&str, T)],
    other: T,
    field: Field,
) -> ContentResult<T>
    ensures value { result
        ≡ word_in (map (λ word. (word.0.now, word.1)) words.now) other text.now field }
{
    if text.is_empty() {
        return Ok(other);
    }
    named(text, words).ok_or(ContentError::Refused(field, Cause::Word))
}

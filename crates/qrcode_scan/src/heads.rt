//! Reads numbers in file headers, after white space and comments.

ghost use Rattle.std.specs.Prelude.{◌≡◌, ◌≤◌, ◌<◌, false, IfSome, IfNone};
ghost use Rattle.qrcode_scan.specs.Heads.{is_white, after_space, digits_from};

use crate::pixels::GREATEST_SIDE;

/// Whether a byte is white space.
pub(crate) fn is_white(byte: u8) -> bool
    ensures { result ≡ is_white byte }
{
    matches!(byte, b' ' | b'\t'..=b'\r')
}

/// Skips white space and comments.
#[tactic(auto, unfolding(crate::specs::Heads::after_space))]
pub(crate) fn after_space(bytes: &[u8]) -> &[u8]
    ensures { result.now ≡ after_space false bytes.now }
{
    let mut rest = bytes;
    let mut is_comment = false;
    while let [first, more @ ..] = rest {
        if is_comment {
            is_comment = *first != b'\n';
        } else if *first == b'#' {
            is_comment = true;
        } else if !is_white(*first) {
            return rest;
        }
        rest = more;
    }
    rest
}

/// Reads a number after white space and comments, 0 if there is none; returns what follows too.
/// `None` if it is above 65,535.
#[tactic(auto, using(crate::proofs::Digits::grows), unfolding(crate::specs::Heads::digits_from))]
pub(crate) fn number(bytes: &[u8]) -> Option<(usize, &[u8])>
    ensures value { IfSome result (λ found.
        (found.0, found.1.now) ≡ digits_from 0 (after_space false bytes.now)) }
    ensures at_most { IfSome result (λ found. found.0 ≤ 65535) }
    ensures none { IfNone result (65535 < (digits_from 0 (after_space false bytes.now)).0) }
{
    let mut rest = after_space(bytes);
    let mut number = 0;
    while let [first, more @ ..] = rest {
        if !first.is_ascii_digit() {
            return Some((number, rest));
        }
        number = 10 * number + (*first - b'0') as usize;
        if number > GREATEST_SIDE {
            return None;
        }
        rest = more;
    }
    Some((number, rest))
}

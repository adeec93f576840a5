//! Why a square does not decode, or shows no text.

ghost use Rattle.std.specs.Prelude.{◌≡◌, Some};
ghost use Rattle.qrcode_reader.specs.Refusals.{refusal_text, text_refusal, unread_of, unread_text_of};
ghost use Rattle.qrcode_reader.specs.declared.refusals.Unread.TheVariants.{OutOfMemory};
ghost use Rattle.qrcode_reader.specs.declared.refusals.UnreadText.TheVariants.{NoBits};

use crate::spell::{Unshown, Unspelled};
use std::alloc::AllocError;
use std::error::Error;
use std::fmt;

/// Why a square does not decode.
#[derive(Debug, PartialEq, Eq, Copy, Clone)]
pub enum Unread {
    /// No version has that many modules.
    NoSuchSide,
    /// No level and mask have a format word within three bits of each copy.
    NoFormat,
    /// This block, counted from zero, is the first that cannot be corrected.
    Damaged(usize),
    /// The data bits are not just segments and a terminator: there is a header, for example, or a
    /// segment has a number that stands for no character.
    NotSpelled,
    /// Memory ran out.
    OutOfMemory,
}

impl fmt::Display for Unread {
    ghost output = { λ e. Some (refusal_text e) };

    fn fmt<W: fmt::Write>(&self, f: &mut fmt::Formatter<W>) -> fmt::Result {
        match self {
            Unread::NoSuchSide => f.write_str("no version has so many modules"),
            Unread::NoFormat => f.write_str("no format word is near both of its copies"),
            Unread::Damaged(block) => write!(f, "too many errors in block {block}"),
            Unread::NotSpelled => f.write_str("the bits spell no bytes"),
            Unread::OutOfMemory => f.write_str("out of memory"),
        }
    }
}

impl Error for Unread {}

impl From<AllocError> for Unread {
    ghost from_gives = { λ _ e. e ≡ OutOfMemory };

    fn from(_error: AllocError) -> Unread {
        Unread::OutOfMemory
    }
}

impl From<Unspelled> for Unread {
    ghost from_gives = { λ e refusal. refusal ≡ unread_of e };

    fn from(error: Unspelled) -> Unread {
        match error {
            Unspelled::NotSpelled => Unread::NotSpelled,
            Unspelled::OutOfMemory => Unread::OutOfMemory,
        }
    }
}

/// Why a square shows no text.
#[derive(Debug, PartialEq, Eq, Copy, Clone)]
pub enum UnreadText {
    /// The square has no data bits, for this reason; or memory ran out, then or later.
    NoBits(Unread),
    /// The data bits are not a text: a segment is Kanji or not UTF-8, there is a header other than
    /// ECI 26 (UTF-8), or they are not just segments and a terminator.
    NotShown,
}

impl fmt::Display for UnreadText {
    ghost output = { λ e. Some (text_refusal e) };

    fn fmt<W: fmt::Write>(&self, f: &mut fmt::Formatter<W>) -> fmt::Result {
        match self {
            UnreadText::NoBits(error) => write!(f, "{error}"),
            UnreadText::NotShown => f.write_str("the bits are no text in UTF-8"),
        }
    }
}

impl Error for UnreadText {}

impl From<Unread> for UnreadText {
    ghost from_gives = { λ error e. e ≡ NoBits error };

    fn from(error: Unread) -> UnreadText {
        UnreadText::NoBits(error)
    }
}

impl From<Unshown> for UnreadText {
    ghost from_gives = { λ error e. e ≡ unread_text_of error };

    fn from(error: Unshown) -> UnreadText {
        match error {
            Unshown::NotShown => UnreadText::NotShown,
            Unshown::OutOfMemory => UnreadText::NoBits(Unread::OutOfMemory),
        }
    }
}

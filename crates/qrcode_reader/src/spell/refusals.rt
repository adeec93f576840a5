//! Why data bits do not decode.

ghost use Rattle.std.specs.Prelude.{◌≡◌, Some};
ghost use Rattle.qrcode_reader.specs.spell.Refusals.{refusal_text, unshown_text, unshown_of};
ghost use Rattle.qrcode_reader.specs.declared.spell.refusals.Unspelled.TheVariants.{OutOfMemory};
ghost use Rattle.qrcode_reader.specs.declared.spell.refusals.Unshown.TheVariants as unshown;

use std::alloc::{AllocError, AllocFailed};
use std::error::Error;
use std::fmt;

/// Why bits do not decode to bytes.
#[derive(Debug, PartialEq, Eq, Copy, Clone)]
pub enum Unspelled {
    /// The bits are not just segments and a terminator: there is a header, for example, or a
    /// segment has a number that stands for no character.
    NotSpelled,
    /// Memory ran out.
    OutOfMemory,
}

impl fmt::Display for Unspelled {
    ghost output = { λ e. Some (refusal_text e) };

    // Width, fill and precision change nothing.
    ghost styled_output = { λ e _. Some (refusal_text e) };

    fn fmt<W: fmt::Write>(&self, f: &mut fmt::Formatter<W>) -> fmt::Result {
        match self {
            Unspelled::NotSpelled => f.write_str("the bits spell no bytes"),
            Unspelled::OutOfMemory => f.write_str("out of memory"),
        }
    }
}

impl Error for Unspelled {}

impl From<AllocError> for Unspelled {
    ghost from_gives = { λ _ e. e ≡ OutOfMemory };

    fn from(_error: AllocError) -> Unspelled {
        Unspelled::OutOfMemory
    }
}

impl<T: Drop> From<AllocFailed<T>> for Unspelled {
    ghost from_gives = { λ _ e. e ≡ OutOfMemory };

    fn from(_error: AllocFailed<T>) -> Unspelled {
        Unspelled::OutOfMemory
    }
}

/// Why bits show no text.
#[derive(Debug, PartialEq, Eq, Copy, Clone)]
pub enum Unshown {
    /// A segment is Kanji or not UTF-8, there is a header other than ECI 26 (UTF-8), or the bits
    /// are not just segments and a terminator.
    NotShown,
    /// Memory ran out.
    OutOfMemory,
}

impl fmt::Display for Unshown {
    ghost output = { λ e. Some (unshown_text e) };

    // Width, fill and precision change nothing.
    ghost styled_output = { λ e _. Some (unshown_text e) };

    fn fmt<W: fmt::Write>(&self, f: &mut fmt::Formatter<W>) -> fmt::Result {
        match self {
            Unshown::NotShown => f.write_str("the bits are no text in UTF-8"),
            Unshown::OutOfMemory => f.write_str("out of memory"),
        }
    }
}

impl Error for Unshown {}

impl From<AllocError> for Unshown {
    ghost from_gives = { λ _ e. e ≡ unshown.OutOfMemory };

    fn from(_error: AllocError) -> Unshown {
        Unshown::OutOfMemory
    }
}

impl From<Unspelled> for Unshown {
    ghost from_gives = { λ error e. e ≡ unshown_of error };

    fn from(error: Unspelled) -> Unshown {
        match error {
            Unspelled::NotSpelled => Unshown::NotShown,
            Unspelled::OutOfMemory => Unshown::OutOfMemory,
        }
    }
}

//! Errors of `join`.

ghost use Rattle.std.specs.Prelude.{◌≡◌};
ghost use Rattle.qrcode_append.specs.declared.errors.JoinError.TheVariants.{OutOfMemory};

use std::alloc::{AllocError, AllocFailed};
use std::error::Error;
use std::fmt;

/// Why `join` fails. Places are counted from 0.
#[derive(Debug, PartialEq, Eq, Copy, Clone)]
pub enum JoinError {
    /// The part at this index belongs to other data than the first: it names another last place or
    /// parity, or its place is after the last.
    Stranger(usize),
    /// No part has this place.
    Missing(usize),
    /// More than one part has this place.
    Twice(usize),
    /// The XOR of all bytes is not the parity that the parts name.
    Parity,
    /// Memory ran out.
    OutOfMemory,
}

impl fmt::Display for JoinError {
    fn fmt<W: fmt::Write>(&self, f: &mut fmt::Formatter<W>) -> fmt::Result {
        match self {
            JoinError::Stranger(index) => {
                let index = *index;
                write!(f, "part {index} is not of the same data as the first")
            }
            JoinError::Missing(place) => {
                let place = *place;
                write!(f, "the part at place {place} is missing")
            }
            JoinError::Twice(place) => {
                let place = *place;
                write!(f, "more than one part has place {place}")
            }
            JoinError::Parity => f.write_str("the parity is that of other data"),
            JoinError::OutOfMemory => f.write_str("out of memory"),
        }
    }
}

impl Error for JoinError {}

impl From<AllocError> for JoinError {
    ghost from_gives = { λ _ e. e ≡ OutOfMemory };

    fn from(_error: AllocError) -> JoinError {
        JoinError::OutOfMemory
    }
}

impl<T: Drop> From<AllocFailed<T>> for JoinError {
    ghost from_gives = { λ _ e. e ≡ OutOfMemory };

    fn from(_error: AllocFailed<T>) -> JoinError {
        JoinError::OutOfMemory
    }
}

//! Why elements have no element string.

ghost use Rattle.std.specs.Prelude.{◌≡◌};
ghost use Rattle.qrcode_gs1.specs.declared.errors.Gs1Error.TheVariants.{OutOfMemory};

use std::alloc::{AllocError, AllocFailed};
use std::error::Error;
use std::fmt;

/// What is wrong with an element.
#[derive(Debug, PartialEq, Eq, Copy, Clone)]
pub enum Cause {
    /// The application identifier is not in the table.
    UnknownIdentifier,
    /// The value has too few or too many characters.
    Length,
    /// The value has a character that is not allowed at its place.
    Character,
    /// The check digit of the value is wrong.
    CheckDigit,
    /// The value should be a date, but the calendar does not have it.
    Range,
}

/// Why elements have no element string.
#[derive(Debug, PartialEq, Eq, Copy, Clone)]
pub enum Gs1Error {
    /// The element at this index, from 0, is the first wrong one, for this cause.
    Refused(usize, Cause),
    /// Memory ran out.
    OutOfMemory,
}

/// The result of a call that may reject an element.
pub type Gs1Result<T> = Result<T, Gs1Error>;

impl fmt::Display for Gs1Error {
    fn fmt<W: fmt::Write>(&self, f: &mut fmt::Formatter<W>) -> fmt::Result {
        match self {
            Gs1Error::Refused(index, cause) => {
                let index = *index;
                let cause = *cause;
                write!(f, "element {index}: {cause:?}")
            }
            Gs1Error::OutOfMemory => f.write_str("out of memory"),
        }
    }
}

impl Error for Gs1Error {}

impl From<AllocError> for Gs1Error {
    ghost from_gives = { λ _ e. e ≡ OutOfMemory };

    fn from(_error: AllocError) -> Gs1Error {
        Gs1Error::OutOfMemory
    }
}

impl<T: Drop> From<AllocFailed<T>> for Gs1Error {
    ghost from_gives = { λ _ e. e ≡ OutOfMemory };

    fn from(_error: AllocFailed<T>) -> Gs1Error {
        Gs1Error::OutOfMemory
    }
}

//! Why elements have no symbol.

ghost use Rattle.std.specs.Prelude.{◌≡◌};
ghost use Rattle.qrcode_gs1.specs.declared.symbol.errors.SymbolError.TheVariants.{Elements, Symbol};

use crate::errors::Gs1Error;
use qrcode::types::QrError;
use std::error::Error;
use std::fmt;

/// Why elements have no symbol.
#[derive(Debug, PartialEq, Eq, Copy, Clone)]
pub enum SymbolError {
    /// They have no element string.
    Elements(Gs1Error),
    /// Their element string has no symbol.
    Symbol(QrError),
}

/// The result of a call that may reject elements or their symbol.
pub type SymbolResult<T> = Result<T, SymbolError>;

impl fmt::Display for SymbolError {
    fn fmt<W: fmt::Write>(&self, f: &mut fmt::Formatter<W>) -> fmt::Result {
        match self {
            SymbolError::Elements(error) => write!(f, "{error}"),
            SymbolError::Symbol(error) => write!(f, "{error}"),
        }
    }
}

impl Error for SymbolError {}

impl From<Gs1Error> for SymbolError {
    ghost from_gives = { λ error e. e ≡ Elements error };

    fn from(error: Gs1Error) -> SymbolError {
        SymbolError::Elements(error)
    }
}

impl From<QrError> for SymbolError {
    ghost from_gives = { λ error e. e ≡ Symbol error };

    fn from(error: QrError) -> SymbolError {
        SymbolError::Symbol(error)
    }
}

//! Errors: why an area may not be covered.

ghost use Rattle.std.specs.Prelude.{◌≡◌};
ghost use Rattle.qrcode_damage.specs.declared.excess.Excess.TheVariants.{OutOfMemory};

use std::alloc::AllocError;
use std::error::Error;
use std::fmt;

/// The bound that an area exceeds, or `OutOfMemory`.
#[derive(Debug, PartialEq, Eq, Copy, Clone)]
pub enum Excess {
    /// The area touches `touched` codewords of this block, counted from 0, of which only `allowed`
    /// may be lost. It touches no more in any other block, and fewer in each before it.
    Block {
        block: usize,
        touched: usize,
        allowed: usize,
    },
    /// The area covers this many modules of the format information around the upper left finder
    /// pattern: more than 3.
    FirstFormat(usize),
    /// The area covers this many modules of the second format information, next to the other two
    /// finder patterns: more than 3.
    LastFormat(usize),
    /// Memory ran out.
    OutOfMemory,
}

impl fmt::Display for Excess {
    fn fmt<W: fmt::Write>(&self, f: &mut fmt::Formatter<W>) -> fmt::Result {
        match self {
            Excess::Block {
                block,
                touched,
                allowed,
            } => write!(
                f,
                "the area touches {touched} codewords of block {block}, of which {allowed} may be \
                 lost; take a higher level or a smaller area"
            ),
            Excess::FirstFormat(places) => write!(
                f,
                "the area has {places} modules of the format word at the upper left, of which 3 \
                 may be lost; move it"
            ),
            Excess::LastFormat(places) => write!(
                f,
                "the area has {places} modules of the second format word, of which 3 may be lost; \
                 move it"
            ),
            Excess::OutOfMemory => f.write_str("out of memory"),
        }
    }
}

impl Error for Excess {}

impl From<AllocError> for Excess {
    ghost from_gives = { λ _ e. e ≡ OutOfMemory };

    fn from(_error: AllocError) -> Excess {
        Excess::OutOfMemory
    }
}

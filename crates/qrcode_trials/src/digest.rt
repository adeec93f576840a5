//! Sums up what a call made: its length and a checksum.

ghost use Rattle.std.specs.Prelude.{◌<◌};

use qrcode::types::{Color, QrError, QrResult};

/// The largest prime below 2^32.
const PRIME: u64 = 4_294_967_291;

/// A length and a checksum.
#[derive(Clone, Copy)]
pub struct Digest {
    pub length: usize,
    pub sum: u64,
    ghost small: { sum < 4294967291 },
}

/// Returns what a call made, or an error: `OutOfMemory` for `memory`, else `InvalidCharacter`.
pub fn or_error<T, E: PartialEq + Copy>(answer: Result<T, E>, memory: E) -> QrResult<T> {
    match answer {
        Ok(made) => Ok(made),
        Err(error) if error == memory => Err(QrError::OutOfMemory),
        Err(_) => Err(QrError::InvalidCharacter),
    }
}

/// An item that a digest can count.
pub trait Item: Copy {
    /// Returns the number that the digest counts for the item.
    fn number(self) -> u32;
}

impl Item for u8 {
    fn number(self) -> u32 {
        u32::from(self)
    }
}

impl Item for u32 {
    fn number(self) -> u32 {
        self
    }
}

impl Item for bool {
    fn number(self) -> u32 {
        u32::from(self)
    }
}

impl Item for Color {
    fn number(self) -> u32 {
        self.select(1, 0)
    }
}

impl Digest {
    /// Returns the digest of `items`.
    pub fn of<T: Item>(items: &[T]) -> Digest {
        let mut sum = 0;
        for item in items {
            sum = (sum * 257 + u64::from(item.number()) + 1) % PRIME;
        }
        Digest {
            length: items.len(),
            sum,
        }
    }

    /// Returns a digest of a length and a checksum that was computed elsewhere.
    pub fn of_sum(length: usize, sum: u32) -> Digest {
        Digest {
            length,
            sum: u64::from(sum) % PRIME,
        }
    }

    /// Combines two digests, in this order.
    pub fn and(self, other: Digest) -> Digest {
        Digest {
            length: self.length.saturating_add(other.length),
            sum: (self.sum * 257 + other.sum) % PRIME,
        }
    }
}

//! Two rows of modules next to each other in vectors of two words, one for each row.

ghost use Rattle.std.proofs.Common.{lit≤};
ghost use Rattle.std.specs.Prelude.{◌≡◌, ℕ, ◌+◌, ◌-◌, ◌*◌, ◌/◌, ◌%◌, ◌<◌, ◌≤◌, ◌^◌, ◌==◌, ◌&&◌, ◌∷◌, [], bit_and, bit_or, bit_xor, count_ones};

use std::simd::u64x2;

/// Two rows of modules, an upper and a lower one, packed into words. Each operation applies to
/// both.
pub trait RowPair: Copy {
    // Number of bits that each row has room for.
    ghost room: { ℕ };

    // The upper row as a number.
    ghost upper: { Self → ℕ };

    // The lower row as a number.
    ghost lower: { Self → ℕ };

    /// Returns the bits that are set in both.
    fn and(self, other: Self) -> Self
        ensures upper { upper result ≡ bit_and (upper self) (upper other) }
        ensures lower { lower result ≡ bit_and (lower self) (lower other) };

    /// Returns the bits that are set in either.
    fn or(self, other: Self) -> Self
        ensures upper { upper result ≡ bit_or (upper self) (upper other) }
        ensures lower { lower result ≡ bit_or (lower self) (lower other) };

    /// Returns the bits that are set in only one of the two.
    fn xor(self, other: Self) -> Self
        ensures upper { upper result ≡ bit_xor (upper self) (upper other) }
        ensures lower { lower result ≡ bit_xor (lower self) (lower other) };

    /// Returns the bits of `self` that are not set in `other`.
    #[inline(always)]
    fn without(self, other: Self) -> Self
        ensures upper { upper result
            ≡ bit_xor (upper self) (bit_and (upper self) (upper other)) }
        ensures lower { lower result
            ≡ bit_xor (lower self) (bit_and (lower self) (lower other)) }
    {
        self.xor(self.and(other))
    }

    /// Moves each bit down by `count`, 1 to 63. Bits that would go below bit 0 are dropped.
    fn down(self, count: u32) -> Self
        requires at_least { 0 < count }
        requires at_most { count < 64 }
        ensures upper { upper result ≡ upper self / 2 ^ count }
        ensures lower { lower result ≡ lower self / 2 ^ count };

    /// Moves each bit up by `count`, 1 to 63, and fills the lowest bits with the highest `count`
    /// bits of the words in `below`. No bit may leave the room.
    fn up_over(self, below: WordPair, count: u32) -> Self
        requires at_least { 0 < count }
        requires at_most { count < 64 }
        requires upper_fits { upper self * 2 ^ count < 2 ^ room }
        requires lower_fits { lower self * 2 ^ count < 2 ^ room }
        ensures upper { upper result
            ≡ upper self * 2 ^ count + below.upper / 2 ^ (64 - count) }
        ensures lower { lower result
            ≡ lower self * 2 ^ count + below.lower / 2 ^ (64 - count) };

    /// Moves each bit up by `count`, 1 to 63. No bit may leave the room.
    #[inline(always)]
    fn up(self, count: u32) -> Self
        requires at_least { 0 < count }
        requires at_most { count < 64 }
        requires upper_fits { upper self * 2 ^ count < 2 ^ room }
        requires lower_fits { lower self * 2 ^ count < 2 ^ room }
        ensures upper { upper result ≡ upper self * 2 ^ count }
        ensures lower { lower result ≡ lower self * 2 ^ count }
    {
        self.up_over(WordPair { upper: 0, lower: 0 }, count)
    }

    /// Returns how many bits are set in the two rows together.
    fn count_ones(self) -> u32
        ensures value { result ≡ count_ones (upper self) + count_ones (lower self) }
        ensures at_most { result ≤ 2 * room };

    /// Returns whether both rows are zero.
    fn is_zero(self) -> bool
        ensures { result ≡ (upper self == 0 && lower self == 0) };

    /// Returns the first 64 bits of each row.
    fn first_words(self) -> WordPair
        ensures upper { result.upper ≡ upper self % 2 ^ 64 }
        ensures lower { result.lower ≡ lower self % 2 ^ 64 };
}

/// Two rows short enough to be extended by `Longer`.
pub trait ShortPair: RowPair {
    // At most two words each.
    ghost short: { Self.RowPair.room ≤ 128 };
}

/// Two rows of up to 64 bits.
#[derive(Copy, Clone)]
pub struct WordPair {
    pub(crate) upper: u64,
    pub(crate) lower: u64,
}

// Returns the two words as a vector.
#[inline(always)]
fn lanes(pair: WordPair) -> u64x2
    ensures { result ≡ pair.upper ∷ pair.lower ∷ [] }
{
    u64x2::from_array([pair.upper, pair.lower])
}

// Moves each word up by `count`. Bits that would leave the word are dropped.
#[inline(always)]
fn words_up(pair: WordPair, count: u32) -> WordPair
    requires { count < 64 }
    ensures upper { result.upper ≡ pair.upper * 2 ^ count % 2 ^ 64 }
    ensures lower { result.lower ≡ pair.lower * 2 ^ count % 2 ^ 64 }
{
    let words = (lanes(pair) << u64x2::splat(u64::from(count))).to_array();
    WordPair {
        upper: words[0],
        lower: words[1],
    }
}

impl RowPair for WordPair {
    ghost room = { 64 };

    ghost upper = { λ pair. pair.upper };

    ghost lower = { λ pair. pair.lower };

    #[inline(always)]
    fn and(self, other: WordPair) -> WordPair {
        let words = (lanes(self) & lanes(other)).to_array();
        WordPair {
            upper: words[0],
            lower: words[1],
        }
    }

    #[inline(always)]
    fn or(self, other: WordPair) -> WordPair {
        let words = (lanes(self) | lanes(other)).to_array();
        WordPair {
            upper: words[0],
            lower: words[1],
        }
    }

    #[inline(always)]
    fn xor(self, other: WordPair) -> WordPair {
        let words = (lanes(self) ^ lanes(other)).to_array();
        WordPair {
            upper: words[0],
            lower: words[1],
        }
    }

    #[inline(always)]
    fn down(self, count: u32) -> WordPair {
        let words = (lanes(self) >> u64x2::splat(u64::from(count))).to_array();
        WordPair {
            upper: words[0],
            lower: words[1],
        }
    }

    #[inline(always)]
    fn up_over(self, below: WordPair, count: u32) -> WordPair {
        words_up(self, count).or(below.down(64 - count))
    }

    #[inline(always)]
    fn count_ones(self) -> u32 {
        self.upper.count_ones() + self.lower.count_ones()
    }

    #[inline(always)]
    fn is_zero(self) -> bool {
        self.upper == 0 && self.lower == 0
    }

    #[inline(always)]
    fn first_words(self) -> WordPair {
        self
    }
}

/// Two rows with 64 more bits, which come before those of `P`.
#[derive(Copy, Clone)]
pub struct Longer<P: ShortPair> {
    pub(crate) low: WordPair,
    pub(crate) high: P,
}

impl<P: ShortPair> RowPair for Longer<P> {
    ghost room = { P.room + 64 };

    ghost upper = { λ pair. P.upper pair.high * 2 ^ 64 + pair.low.upper };

    ghost lower = { λ pair. P.lower pair.high * 2 ^ 64 + pair.low.lower };

    #[inline(always)]
    fn and(self, other: Longer<P>) -> Longer<P> {
        Longer {
            low: self.low.and(other.low),
            high: self.high.and(other.high),
        }
    }

    #[inline(always)]
    fn or(self, other: Longer<P>) -> Longer<P> {
        Longer {
            low: self.low.or(other.low),
            high: self.high.or(other.high),
        }
    }

    #[inline(always)]
    fn xor(self, other: Longer<P>) -> Longer<P> {
        Longer {
            low: self.low.xor(other.low),
            high: self.high.xor(other.high),
        }
    }

    #[inline(always)]
    fn down(self, count: u32) -> Longer<P> {
        let over = words_up(self.high.first_words(), 64 - count);
        Longer {
            low: over.or(self.low.down(count)),
            high: self.high.down(count),
        }
    }

    #[inline(always)]
    fn up_over(self, below: WordPair, count: u32) -> Longer<P> {
        Longer {
            low: words_up(self.low, count).or(below.down(64 - count)),
            high: self.high.up_over(self.low, count),
        }
    }

    #[inline(always)]
    fn count_ones(self) -> u32 {
        self.high.count_ones() + self.low.count_ones()
    }

    #[inline(always)]
    fn is_zero(self) -> bool {
        self.low.is_zero() && self.high.is_zero()
    }

    #[inline(always)]
    fn first_words(self) -> WordPair {
        self.low
    }
}

impl ShortPair for WordPair {
    ghost short = { lit≤ tt };
}

impl ShortPair for Longer<WordPair> {
    ghost short = { lit≤ tt };
}

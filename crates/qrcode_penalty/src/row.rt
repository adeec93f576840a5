//! Rows of modules, packed into words.

ghost use Rattle.std.specs.Prelude.{◌≡◌, ℕ, ◌+◌, ◌-◌, ◌*◌, ◌/◌, ◌%◌, ◌<◌, ◌≤◌, ◌^◌, ◌==◌, bit_and, bit_or, bit_xor, count_ones, refl};
ghost use Rattle.std.proofs.Common.{lit≤, arith, ap};

use crate::pair::{Longer, RowPair, ShortPair, WordPair};

/// A row of modules packed into words, with a bit for each column. A set bit can mean a dark
/// module, or any other property.
pub trait PackedRow: Copy {
    // Number of bits.
    ghost room: { ℕ };

    // The row as a number.
    ghost bits: { Self → ℕ };

    /// Two such rows next to each other.
    type Pair: RowPair;

    /// Combines this row, as the upper one, and `lower` into a pair.
    fn beside(self, lower: Self) -> Self::Pair
        ensures upper { Self.Pair.upper result ≡ bits self }
        ensures lower { Self.Pair.lower result ≡ bits lower };

    /// Returns a row whose first `count` bits are set.
    fn first(count: u32) -> Self
        requires { count < room }
        ensures { bits result ≡ 2 ^ count - 1 };

    /// Returns the bits that are set in both rows.
    fn and(self, other: Self) -> Self
        ensures { bits result ≡ bit_and (bits self) (bits other) };

    /// Returns the bits that are set in either row.
    fn or(self, other: Self) -> Self
        ensures { bits result ≡ bit_or (bits self) (bits other) };

    /// Returns the bits that are set in only one of the two rows.
    fn xor(self, other: Self) -> Self
        ensures { bits result ≡ bit_xor (bits self) (bits other) };

    /// Returns the bits of this row that are not set in `other`.
    #[inline(always)]
    fn without(self, other: Self) -> Self
        ensures { bits result ≡ bit_xor (bits self) (bit_and (bits self) (bits other)) }
    {
        self.xor(self.and(other))
    }

    /// Moves each bit down by `count`, 1 to 63. Bits that would go below bit 0 are dropped.
    fn down(self, count: u32) -> Self
        requires at_least { 0 < count }
        requires at_most { count < 64 }
        ensures { bits result ≡ bits self / 2 ^ count };

    /// Moves each bit up by `count`, 1 to 63, and fills the lowest bits with the highest `count`
    /// bits of `below`. No bit may leave the room.
    fn up_over(self, below: u64, count: u32) -> Self
        requires at_least { 0 < count }
        requires at_most { count < 64 }
        requires fits { bits self * 2 ^ count < 2 ^ room }
        ensures { bits result ≡ bits self * 2 ^ count + below / 2 ^ (64 - count) };

    /// Moves each bit up by `count`, 1 to 63. No bit may leave the room.
    #[inline(always)]
    fn up(self, count: u32) -> Self
        requires at_least { 0 < count }
        requires at_most { count < 64 }
        requires fits { bits self * 2 ^ count < 2 ^ room }
        ensures { bits result ≡ bits self * 2 ^ count }
    {
        self.up_over(0, count)
    }

    /// Returns how many bits are set.
    fn count_ones(self) -> u32
        ensures value { result ≡ count_ones (bits self) }
        ensures at_most { result ≤ room };

    /// Returns whether no bit is set.
    fn is_zero(self) -> bool
        ensures { result ≡ (bits self == 0) };

    /// Makes a row of three words, `low` having the first 64 bits. Bits past the room are dropped.
    fn of_words(low: u64, middle: u64, high: u64) -> Self
        ensures { bits result ≡ ((high * 2 ^ 64 + middle) * 2 ^ 64 + low) % 2 ^ room };

    /// Returns the first 64 bits.
    fn first_word(self) -> u64
        ensures { result ≡ bits self % 2 ^ 64 };

    // Each type has room for a bit, and none for more than 192.
    ghost room_at_least: { 1 ≤ room };

    ghost room_at_most: { room ≤ 192 };

    // A pair has the same room for each of its rows.
    ghost pair_room: { Self.Pair.room ≡ room };
}

impl PackedRow for u64 {
    ghost room = { 64 };

    ghost bits = { λ row. row };

    ghost room_at_least = { lit≤ tt };

    ghost room_at_most = { lit≤ tt };

    type Pair = WordPair;

    ghost pair_room = { refl };

    #[inline(always)]
    fn beside(self, lower: u64) -> WordPair {
        WordPair { upper: self, lower }
    }

    #[inline(always)]
    fn first(count: u32) -> u64 {
        (1 << count) - 1
    }

    #[inline(always)]
    fn and(self, other: u64) -> u64 {
        self & other
    }

    #[inline(always)]
    fn or(self, other: u64) -> u64 {
        self | other
    }

    #[inline(always)]
    fn xor(self, other: u64) -> u64 {
        self ^ other
    }

    #[inline(always)]
    fn down(self, count: u32) -> u64 {
        self >> count
    }

    #[inline(always)]
    fn up_over(self, below: u64, count: u32) -> u64 {
        (self << count) | (below >> (64 - count))
    }

    #[inline(always)]
    fn count_ones(self) -> u32 {
        u64::count_ones(self)
    }

    #[inline(always)]
    fn is_zero(self) -> bool {
        self == 0
    }

    #[inline(always)]
    fn of_words(low: u64, _middle: u64, _high: u64) -> u64 {
        low
    }

    #[inline(always)]
    fn first_word(self) -> u64 {
        self
    }
}

/// A row with 64 more bits, which come before those of `R`.
#[derive(Copy, Clone)]
pub struct LongerRow<R: PackedRow> {
    low: u64,
    high: R,
}

impl<R: PackedRow> PackedRow for LongerRow<R>
where
    R::Pair: ShortPair,
{
    ghost room = { R.room + 64 };

    ghost bits = { λ row. R.bits row.high * 2 ^ 64 + row.low };

    ghost room_at_least = { omega arith };

    ghost room_at_most = { omega (arith, R.pair_room, R.Pair.short) };

    type Pair = Longer<R::Pair>;

    ghost pair_room = { ap (λ n. n + 64) R.pair_room };

    #[inline(always)]
    fn beside(self, lower: LongerRow<R>) -> Longer<R::Pair> {
        Longer {
            low: self.low.beside(lower.low),
            high: self.high.beside(lower.high),
        }
    }

    #[inline(always)]
    fn first(count: u32) -> LongerRow<R> {
        if count < 64 {
            return LongerRow {
                low: (1 << count) - 1,
                high: R::first(0),
            };
        }
        LongerRow {
            low: u64::MAX,
            high: R::first(count - 64),
        }
    }

    #[inline(always)]
    fn and(self, other: LongerRow<R>) -> LongerRow<R> {
        LongerRow {
            low: self.low & other.low,
            high: self.high.and(other.high),
        }
    }

    #[inline(always)]
    fn or(self, other: LongerRow<R>) -> LongerRow<R> {
        LongerRow {
            low: self.low | other.low,
            high: self.high.or(other.high),
        }
    }

    #[inline(always)]
    fn xor(self, other: LongerRow<R>) -> LongerRow<R> {
        LongerRow {
            low: self.low ^ other.low,
            high: self.high.xor(other.high),
        }
    }

    #[inline(always)]
    fn down(self, count: u32) -> LongerRow<R> {
        LongerRow {
            low: (self.high.first_word() << (64 - count)) | (self.low >> count),
            high: self.high.down(count),
        }
    }

    #[inline(always)]
    fn up_over(self, below: u64, count: u32) -> LongerRow<R> {
        LongerRow {
            low: (self.low << count) | (below >> (64 - count)),
            high: self.high.up_over(self.low, count),
        }
    }

    #[inline(always)]
    fn count_ones(self) -> u32 {
        self.high.count_ones() + self.low.count_ones()
    }

    #[inline(always)]
    fn is_zero(self) -> bool {
        self.low == 0 && self.high.is_zero()
    }

    #[inline(always)]
    fn of_words(low: u64, middle: u64, high: u64) -> LongerRow<R> {
        LongerRow {
            low,
            high: R::of_words(middle, high, 0),
        }
    }

    #[inline(always)]
    fn first_word(self) -> u64 {
        self.low
    }
}

/// A row of up to 128 bits.
pub type Row128 = LongerRow<u64>;

/// A row of up to 192 bits.
pub type Row192 = LongerRow<Row128>;

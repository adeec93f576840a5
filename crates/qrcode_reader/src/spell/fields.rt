//! Numbers in a list of bits.

ghost use Rattle.std.specs.Prelude.{◌≡◌, ℕ, ◌<◌, ◌≤◌, ◌^◌, ◌++◌, length, IfSome, IfNone};
ghost use Rattle.qrcode_types.specs.Bits.{number_bits};
ghost use Rattle.qrcode_reader.specs.spell.Steps.{BeginsWithNumber};

// Returns the number with these bits, highest first. Inlined, so that a constant number of bits
// needs no loop.
#[inline(always)]
pub(crate) fn number_of(bits: &[bool]) -> u32
    requires { length bits.now ≤ 32 }
    ensures value { number_bits (length bits.now) result ≡ bits.now }
    ensures at_most { result < 2 ^ length bits.now }
{
    let mut number = 0;
    for bit in bits {
        number = 2 * number + u32::from(*bit);
    }
    number
}

// Splits off the first `count` bits; `None` if there are fewer.
pub(crate) fn front(bits: &[bool], count: usize) -> Option<(&[bool], &[bool])>
    ensures parts { IfSome result (λ parts. (length parts.0.now ≡ count)
        × (bits.now ≡ parts.0.now ++ parts.1.now)) }
    ensures too_short { IfNone result (length bits.now < count) }
{
    bits.split_at_checked(count)
}

// Splits off the first `count` bits, as a number; `None` if there are fewer.
pub(crate) fn number_field(bits: &[bool], count: usize) -> Option<(u32, &[bool])>
    requires { count ≤ 32 }
    ensures value { IfSome result (λ field. BeginsWithNumber count bits.now field.0 field.1.now) }
    ensures too_short { IfNone result (length bits.now < count) }
{
    let (field, rest) = front(bits, count)?;
    Some((number_of(field), rest))
}

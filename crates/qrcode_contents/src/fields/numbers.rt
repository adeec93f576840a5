//! Check digits: the remainder modulo 97 of an IBAN or an ISO 11649 reference, and the carry of a
//! QR reference.

ghost use Rattle.std.specs.Prelude.{◌≡◌, ℕ, ◌-◌, ◌%◌, ◌<◌, ◌==◌, nat_lt, fold, take, drop, if◌then◌else◌};
ghost use Rattle.qrcode_contents.specs.fields.Numbers.{with_character, checked_number, carry_of};

// The value of a character in the number that is checked: of a digit 0 to 9, of a letter A = 10 to
// Z = 35.
fn value_of(byte: u8) -> u32
    ensures value { result ≡ (if nat_lt byte 58 then byte - 48 else byte - 55) }
    ensures at_most { result < 201 }
{
    if byte < 58 {
        u32::from(byte).saturating_sub(48)
    } else {
        u32::from(byte) - 55
    }
}

// The remainder modulo 97 of a number with this `remainder`, after `bytes` are appended to it.
fn remainder_with(remainder: u32, bytes: &[u8]) -> u32
    requires { remainder < 97 }
    ensures value { (n : ℕ) → n % 97 ≡ remainder
        → result ≡ fold with_character n bytes.now % 97 }
    ensures at_most { result < 97 }
{
    let mut remainder = remainder;
    for byte in bytes {
        let digits = if *byte < 58 { 10 } else { 100 };
        remainder = (remainder * digits + value_of(*byte)) % 97;
    }
    remainder
}

// The first four bytes and the rest; if there are fewer, all of them and nothing.
fn split_four(bytes: &[u8]) -> (&[u8], &[u8])
    ensures first { result.0.now ≡ take 4 bytes.now }
    ensures later { result.1.now ≡ drop 4 bytes.now }
{
    if bytes.len() < 4 {
        return (bytes, &[]);
    }
    bytes.split_at(4)
}

/// Returns whether the characters, with the first four moved to the end, are a number whose
/// remainder modulo 97 is 1 (ISO 7064, MOD 97-10).
pub fn has_check_digits(bytes: &[u8]) -> bool
    ensures { result ≡ (checked_number bytes.now % 97 == 1) }
{
    let (first, later) = split_four(bytes);
    remainder_with(remainder_with(0, later), first) == 1
}

// The next carry, by the last digit of the sum of carry and digit.
static CARRIES: [usize; 10] = [0, 9, 4, 6, 8, 2, 7, 1, 3, 5];

/// Returns the carry after all digits (modulo 10, recursive): 0 if the last is the right check
/// digit.
#[tactic(auto, using(crate::proofs::Carries::carry_below))]
pub fn carry_of(digits: &[u8]) -> usize
    ensures { result ≡ carry_of digits.now }
{
    let mut carry: usize = 0;
    for digit in digits {
        let sum = carry + usize::from(digit.saturating_sub(b'0'));
        carry = CARRIES[sum % 10];
    }
    carry
}

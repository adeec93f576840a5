//! Indicators of applications.

ghost use Rattle.std.specs.Prelude.{◌≡◌};
ghost use Rattle.qrcode_gs1.specs.symbol.Indicators.{indicator_of};

/// Returns the number of an application's indicator: for two digits the number that they write, for
/// a letter its ASCII code plus 100; `None` for other bytes.
pub fn indicator_of(bytes: &[u8]) -> Option<u8>
    ensures { result ≡ indicator_of bytes.now }
{
    match bytes {
        [letter] if letter.is_ascii_alphabetic() => Some(*letter + 100),
        [tens, ones] if tens.is_ascii_digit() && ones.is_ascii_digit() => {
            Some(10 * (*tens - b'0') + (*ones - b'0'))
        }
        _ => None,
    }
}

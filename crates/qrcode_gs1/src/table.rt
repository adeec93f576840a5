//! The table of application identifiers, and the lengths of their values.

ghost use Rattle.std.specs.Prelude.{◌≡◌, ◌≤◌, length, take};
ghost use Rattle.std.specs.List.{list_all};
ghost use Rattle.qrcode_types.specs.Characters.{is_digit};
ghost use Rattle.qrcode_gs1.specs.Elements.{digit_count, fixed_length, decimal_value, prefix_of};
ghost use Rattle.qrcode_gs1.specs.Refusals.{numbered_rule, rule_of};

/// The rule for a range of identifiers: the first and the last of them; the shortest and the
/// longest length of a value; how many of its first characters must be digits; and how many of
/// these end in a check digit, 0 for none.
pub type Rule = ((usize, usize), (usize, usize), usize, usize);

/// The rules of all identifiers. From 3100 to 3699 the last digit of an identifier is the number of
/// decimals, at most 5.
pub static RULES: [Rule; 106] = [
    ((0, 0), (18, 18), 18, 18),
    ((1, 3), (14, 14), 14, 14),
    ((10, 10), (1, 20), 0, 0),
    ((11, 13), (6, 6), 6, 0),
    ((15, 17), (6, 6), 6, 0),
    ((20, 20), (2, 2), 2, 0),
    ((21, 22), (1, 20), 0, 0),
    ((235, 235), (1, 28), 0, 0),
    ((240, 241), (1, 30), 0, 0),
    ((242, 242), (1, 6), 6, 0),
    ((243, 243), (1, 20), 0, 0),
    ((250, 251), (1, 30), 0, 0),
    ((253, 253), (13, 30), 13, 13),
    ((254, 254), (1, 20), 0, 0),
    ((255, 255), (13, 25), 25, 13),
    ((30, 30), (1, 8), 8, 0),
    ((37, 37), (1, 8), 8, 0),
    ((3100, 3169), (6, 6), 6, 0),
    ((3200, 3379), (6, 6), 6, 0),
    ((3400, 3579), (6, 6), 6, 0),
    ((3600, 3699), (6, 6), 6, 0),
    ((3900, 3909), (1, 15), 15, 0),
    ((3910, 3919), (4, 18), 18, 0),
    ((3920, 3929), (1, 15), 15, 0),
    ((3930, 3939), (4, 18), 18, 0),
    ((3940, 3943), (4, 4), 4, 0),
    ((3950, 3955), (6, 6), 6, 0),
    ((400, 401), (1, 30), 0, 0),
    ((402, 402), (17, 17), 17, 17),
    ((403, 403), (1, 30), 0, 0),
    ((410, 417), (13, 13), 13, 13),
    ((420, 420), (1, 20), 0, 0),
    ((421, 421), (4, 12), 3, 0),
    ((422, 422), (3, 3), 3, 0),
    ((423, 423), (3, 15), 15, 0),
    ((424, 424), (3, 3), 3, 0),
    ((425, 425), (3, 15), 15, 0),
    ((426, 426), (3, 3), 3, 0),
    ((427, 427), (1, 3), 0, 0),
    ((4300, 4301), (1, 35), 0, 0),
    ((4302, 4306), (1, 70), 0, 0),
    ((4307, 4307), (2, 2), 0, 0),
    ((4308, 4308), (1, 30), 0, 0),
    ((4309, 4309), (20, 20), 20, 0),
    ((4310, 4311), (1, 35), 0, 0),
    ((4312, 4316), (1, 70), 0, 0),
    ((4317, 4317), (2, 2), 0, 0),
    ((4318, 4318), (1, 20), 0, 0),
    ((4319, 4319), (1, 30), 0, 0),
    ((4320, 4320), (1, 35), 0, 0),
    ((4321, 4323), (1, 1), 1, 0),
    ((4324, 4325), (10, 10), 10, 0),
    ((4326, 4326), (6, 6), 6, 0),
    ((4330, 4333), (6, 7), 6, 0),
    ((7001, 7001), (13, 13), 13, 0),
    ((7002, 7002), (1, 30), 0, 0),
    ((7003, 7003), (10, 10), 10, 0),
    ((7004, 7004), (1, 4), 4, 0),
    ((7005, 7005), (1, 12), 0, 0),
    ((7006, 7006), (6, 6), 6, 0),
    ((7007, 7007), (6, 12), 12, 0),
    ((7008, 7008), (1, 3), 0, 0),
    ((7009, 7009), (1, 10), 0, 0),
    ((7010, 7010), (1, 2), 0, 0),
    ((7011, 7011), (6, 10), 10, 0),
    ((7020, 7022), (1, 20), 0, 0),
    ((7023, 7023), (1, 30), 0, 0),
    ((7030, 7039), (4, 30), 3, 0),
    ((7040, 7040), (4, 4), 1, 0),
    ((7041, 7041), (1, 4), 0, 0),
    ((710, 716), (1, 20), 0, 0),
    ((7230, 7239), (3, 30), 0, 0),
    ((7240, 7240), (1, 20), 0, 0),
    ((7241, 7241), (2, 2), 2, 0),
    ((7242, 7242), (1, 25), 0, 0),
    ((7250, 7250), (8, 8), 8, 0),
    ((7251, 7251), (12, 12), 12, 0),
    ((7252, 7252), (1, 1), 1, 0),
    ((7253, 7254), (1, 40), 0, 0),
    ((7255, 7255), (1, 10), 0, 0),
    ((7256, 7256), (1, 90), 0, 0),
    ((7257, 7257), (1, 70), 0, 0),
    ((7258, 7258), (3, 3), 1, 0),
    ((7259, 7259), (1, 40), 0, 0),
    ((8001, 8001), (14, 14), 14, 0),
    ((8002, 8002), (1, 20), 0, 0),
    ((8003, 8003), (14, 30), 14, 14),
    ((8004, 8004), (1, 30), 0, 0),
    ((8005, 8005), (6, 6), 6, 0),
    ((8006, 8006), (18, 18), 18, 14),
    ((8007, 8007), (1, 34), 0, 0),
    ((8008, 8008), (8, 12), 12, 0),
    ((8009, 8009), (1, 50), 0, 0),
    ((8011, 8011), (1, 12), 12, 0),
    ((8012, 8012), (1, 20), 0, 0),
    ((8013, 8014), (1, 25), 0, 0),
    ((8017, 8018), (18, 18), 18, 18),
    ((8019, 8019), (1, 10), 10, 0),
    ((8020, 8020), (1, 25), 0, 0),
    ((8026, 8026), (18, 18), 18, 14),
    ((8110, 8110), (1, 70), 0, 0),
    ((8111, 8111), (4, 4), 4, 0),
    ((8112, 8112), (1, 70), 0, 0),
    ((8200, 8200), (1, 70), 0, 0),
    ((90, 90), (1, 30), 0, 0),
    ((91, 99), (1, 90), 0, 0),
];

/// Returns the first `count` bytes, or all if there are fewer.
pub fn start(bytes: &[u8], count: usize) -> &[u8]
    ensures { result.now ≡ take count bytes.now }
{
    if bytes.len() < count {
        return bytes;
    }
    bytes.split_at(count).0
}

/// Returns the number that at most four digits write.
pub fn number_of(digits: &[u8]) -> usize
    requires { length digits.now ≤ 4 }
    ensures { result ≡ decimal_value digits.now }
{
    let mut number: usize = 0;
    for digit in digits {
        number = number * 10 + usize::from(digit.saturating_sub(b'0'));
    }
    number
}

/// Returns the number that the first two digits write.
pub fn prefix_of(bytes: &[u8]) -> usize
    ensures { result ≡ prefix_of bytes.now }
{
    number_of(start(bytes, 2))
}

/// Returns how many digits an identifier has, by its first two.
#[tactic(auto, unfolding(crate::specs::Elements::digit_count))]
pub fn digit_count(prefix: usize) -> usize
    ensures value { result ≡ digit_count prefix }
    ensures at_most { result ≤ 4 }
{
    match prefix {
        23..=25 | 40..=42 | 71 => 3,
        31..=36 | 39 | 43 | 70 | 72 | 80..=82 => 4,
        _ => 2,
    }
}

/// Returns how many characters an identifier and its value have together, by its first two digits;
/// 0 if that is not predefined.
#[tactic(auto, unfolding(crate::specs::Elements::fixed_length))]
pub fn fixed_length(prefix: usize) -> usize
    ensures { result ≡ fixed_length prefix }
{
    match prefix {
        0 => 20,
        1..=3 => 16,
        4 => 18,
        11..=19 => 8,
        20 => 4,
        31..=36 => 10,
        41 => 16,
        _ => 0,
    }
}

/// Returns whether all bytes are digits.
pub fn are_digits(bytes: &[u8]) -> bool
    ensures { result ≡ list_all is_digit bytes.now }
{
    bytes.iter().all(|byte| matches!(*byte, b'0'..=b'9'))
}

// Returns the rule for identifier `number`, if there is one.
#[tactic(auto, unfolding(crate::specs::Refusals::numbered_rule))]
fn numbered_rule(rules: &[Rule], number: usize) -> Option<Rule>
    ensures { result ≡ numbered_rule rules.now number }
{
    if 3100 <= number && number < 3700 && number % 10 > 5 {
        return None;
    }
    for rule in rules {
        if rule.0.0 <= number && number <= rule.0.1 {
            return Some(*rule);
        }
    }
    None
}

/// Returns the rule for an identifier, if there is one.
pub fn rule_of(identifier: &[u8]) -> Option<Rule>
    ensures { result ≡ rule_of identifier.now }
{
    if identifier.len() != digit_count(prefix_of(identifier)) || !are_digits(identifier) {
        return None;
    }
    numbered_rule(&RULES, number_of(identifier))
}

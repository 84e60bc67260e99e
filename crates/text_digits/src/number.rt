//! Digits to a base: whether a text is made of them, and the number that they write.

ghost use Rattle.std.specs.Prelude.{◌≡◌, ◌≤◌};
ghost use Rattle.std.specs.Char.{digit_value, is_digit};
ghost use Rattle.std.specs.List.{list_all};
ghost use Rattle.text_digits.specs.Digits.{all_digits, is_decimal, value_within};

/// The value of a digit or a letter: 0 to 35, and 36 for any other byte.
fn digit_of(byte: u8) -> u8
    ensures value { result ≡ digit_value byte }
    ensures small { result ≤ 36 }
{
    match byte {
        b'0'..=b'9' => byte - 48,
        b'A'..=b'Z' => byte - 55,
        b'a'..=b'z' => byte - 87,
        _ => 36,
    }
}

/// True if each byte is a digit to that base.
fn all_pass(text: &[u8], radix: u8) -> bool
    ensures { result ≡ list_all (λ c. is_digit c radix) text.now }
{
    text.iter().all(|byte| digit_of(*byte) < radix)
}

/// True if it is one digit or more to that base, and nothing else. The base is 36 at most; letters
/// may have either case.
pub fn are_digits(text: &[u8], radix: u8) -> bool
    ensures { result ≡ all_digits radix text.now }
{
    if text.is_empty() {
        false
    } else {
        all_pass(text, radix)
    }
}

/// True if it is one decimal digit or more, without a leading zero, and nothing else.
pub fn is_decimal(text: &[u8]) -> bool
    ensures { result ≡ is_decimal text.now }
{
    are_digits(text, 10) && (text.len() == 1 || text[0] != b'0')
}

/// The number that digits write, or `None` if it is above `most`.
#[tactic(auto, using(crate::proofs::Values::digits_value_after_ge))]
pub fn value_within(text: &[u8], radix: u8, most: u64) -> Option<u64>
    requires low { 1 ≤ radix }
    requires high { radix ≤ 16 }
    ensures { result ≡ value_within most radix text.now }
{
    let mut value: u64 = 0;
    for byte in text {
        // In 128 bits, since `value * radix + digit` may pass 64 before it is compared.
        let next = u128::from(value) * u128::from(radix) + u128::from(digit_of(*byte));
        if next > u128::from(most) {
            return None;
        }
        value = next as u64;
    }
    Some(value)
}

//! Numbers as words spell them.
ghost use Rattle.std.specs.Prelude.{◌≡◌};
ghost use Rattle.file_words.specs.Words.{number_in, id_in};

use text_digits::{is_decimal, value_within};

/// The number that a word spells: one or more decimal digits, without a leading zero. A number
/// above 2^64 - 1 counts as that. `None` if the word is no number.
pub fn number_in(word: &str) -> Option<u64>
    ensures { result ≡ number_in word.now }
{
    let digits = word.as_bytes();
    if is_decimal(digits) {
        // The digits are checked, so no value means only that it is above 2^64 - 1.
        Some(value_within(digits, 10, u64::MAX).unwrap_or(u64::MAX))
    } else {
        None
    }
}

/// A client's or a request's number, 1 to 2^32 - 1; `None` if the word is none.
pub fn id_in(word: &str) -> Option<u32>
    ensures { result ≡ id_in word.now }
{
    let number = number_in(word)?;
    if 1 <= number && number < 1 << 32 {
        Some(number as u32)
    } else {
        None
    }
}

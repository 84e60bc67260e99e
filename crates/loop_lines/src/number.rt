//! Numbers of 64 bits, spelled as the language's other numbers.

ghost use Rattle.std.specs.Prelude.{◌≡◌};
ghost use Rattle.loop_lines.specs.Reading.{unsigned_64, signed_64, pair_of};

use asm_lines::{AsmFault, after_word, first_word, integer};

/// A number without a sign.
pub(crate) fn unsigned(word: &[u8]) -> Result<u64, AsmFault>
    ensures { result ≡ unsigned_64 word.now }
{
    asm_lines::unsigned(word, u64::MAX)
}

/// A number with a sign: `-` stands before a negative one alone.
#[tactic(auto, unfolding(crate::specs::Reading::signed_64), using(asm_lines::proofs::NumberLemmas::plain_fits))]
fn signed(word: &[u8]) -> Result<i64, AsmFault>
    ensures { result ≡ signed_64 word.now }
{
    match integer(word, 1 << 63, i64::MAX as u64) {
        Ok(number) => Ok(number.to_i64()),
        Err(fault) => Err(fault),
    }
}

/// Two numbers without a sign, with which the text begins.
pub(crate) fn unsigned_pair(text: &[u8]) -> Result<(u64, u64), AsmFault>
    ensures { result ≡ pair_of unsigned_64 text.now }
{
    let a = unsigned(first_word(text))?;
    let b = unsigned(first_word(after_word(text)))?;
    Ok((a, b))
}

/// Two numbers with a sign, with which the text begins.
pub(crate) fn signed_pair(text: &[u8]) -> Result<(i64, i64), AsmFault>
    ensures { result ≡ pair_of signed_64 text.now }
{
    let a = signed(first_word(text))?;
    let b = signed(first_word(after_word(text)))?;
    Ok((a, b))
}

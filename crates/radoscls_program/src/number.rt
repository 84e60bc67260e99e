//! Numbers as words spell them: decimal digits without a sign or a leading zero, as in files of
//! events and of calls.
ghost use Rattle.std.specs.Prelude.{◌≡◌, IfSome, IsNone, ℕ};
ghost use Rattle.file_words.specs.Words.{id_in};
ghost use Rattle.radoscls_program.specs.Arguments.{budget_in};
ghost use Rattle.radoscls_program.specs.Raw.{IsShort};

use file_words::{id_in, number_in};
use loop_heads::BUDGET_LIMIT;
use pg_log::ClientId;

/// The client of the number that a text spells, 1 to 4294967295.
pub(crate) fn caller_in(text: &str) -> Option<ClientId>
    ensures { result ≡ id_in text.now }
{
    ClientId::new(id_in(text)?)
}

/// The budget that a text spells, 1 to 1048576.
pub(crate) fn budget_in(text: &str) -> Option<u32>
    ensures { result ≡ budget_in text.now }
{
    let number = number_in(text)?;
    if 1 <= number && number <= u64::from(BUDGET_LIMIT) {
        Some(number as u32)
    } else {
        None
    }
}

/// The number below 65536 that a text spells.
pub(crate) fn short_in(text: &str) -> Option<u16>
    ensures some { IfSome result (IsShort text.now) }
    ensures none { IsNone result → (n : ℕ) → IsShort text.now n → ⊥ }
{
    let number = number_in(text)?;
    if number < 1 << 16 {
        Some(number as u16)
    } else {
        None
    }
}

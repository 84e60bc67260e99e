//! What stands after `.budget` and after `.head`.

ghost use Rattle.std.specs.Prelude.{◌≡◌, ◌==◌, IfOk, IsTrue, map};
ghost use Rattle.std.specs.List.{slice_split};
ghost use Rattle.loop_heads.specs.Loops.{are_places};
ghost use Rattle.loop_lines.specs.Reading.{Gives, budget_of, places_from, places_of};

use crate::number::unsigned;
use crate::place::place_of;
use asm_lines::{AsmFault, after_word, first_word, trim_start};
use loop_heads::{BUDGET_LIMIT, HeadPlace};
use std::alloc::{AllocError, Global};

/// The budget that stands after `.budget`, 1 to `BUDGET_LIMIT`.
///
/// Faults, the first from left to right: `Operand` where no number or more than one word stands
/// there, `Range` for a number that is out of its range.
#[tactic(auto, unfolding(crate::specs::Reading::budget_of))]
pub fn budget_of(rest: &[u8]) -> Result<u32, AsmFault>
    ensures { result ≡ budget_of rest.now }
{
    let budget = unsigned(first_word(rest))?;
    if budget < 1 || budget > BUDGET_LIMIT as u64 {
        return Err(AsmFault::Range);
    }
    if !after_word(rest).is_empty() {
        return Err(AsmFault::Operand);
    }
    Ok(budget as u32)
}

/// What stands between the commas.
fn pieces(alloc: Global, text: &[u8]) -> Result<Vec<&[u8]>, AllocError>
    ensures { IfOk result (λ v. map (λ t. t.now) v.items ≡ slice_split (λ c. c == 44) text.now) }
{
    text.split(|byte| *byte == b',').collect(alloc)
}

/// The places that these texts say.
fn places_from(alloc: Global, texts: &[&[u8]]) -> Result<Vec<HeadPlace>, AsmFault>
    ensures exact { Gives (λ v. v.items) result (places_from 0 (map (λ t. t.now) texts.now)) }
    ensures right { IfOk result (λ v. IsTrue (are_places 0 v.items)) }
{
    let mut places = Vec::new(alloc);
    let mut least: u8 = 0;
    for text in texts {
        let place = place_of(least, trim_start(text))?;
        if places.push(place).is_err() {
            return Err(AsmFault::NoMemory);
        }
        least = place.number + 1;
    }
    Ok(places)
}

/// The places that stand after `.head`, if any do, by rising numbers.
///
/// Faults, the first from left to right: `Operand` for a name that is no place's or isn't above the
/// one before it, a kind that is none, a word too many or too few, or nothing between two commas;
/// `Range` for a number that 64 bits don't hold, or bounds that aren't in order. `NoMemory` may come
/// in place of any answer.
#[tactic(auto, unfolding(crate::specs::Reading::places_of))]
pub fn places_of(alloc: Global, rest: &[u8]) -> Result<Vec<HeadPlace>, AsmFault>
    ensures exact { Gives (λ v. v.items) result (places_of rest.now) }
    // They may be declared of a head.
    ensures right { IfOk result (λ v. IsTrue (are_places 0 v.items)) }
{
    if rest.is_empty() {
        return Ok(Vec::new(alloc));
    }
    match pieces(alloc, rest) {
        Ok(pieces) => places_from(alloc, &pieces),
        Err(_) => Err(AsmFault::NoMemory),
    }
}

//! The search for heads: passes till nothing grows, and then two that narrow.

ghost use Rattle.std.specs.Prelude.{◌≡◌, ◌<◌, ◌≤◌, ◌^◌, length, IfOk, IfSome, MatchOption};
ghost use Rattle.bpf_decode.specs.Instruction.{slots};
ghost use Rattle.bpf_decode.specs.declared.rule_set.RuleSet.TheVariants.{Three};
ghost use Rattle.loop_heads.specs.declared.limits.TheConstants.{BUDGET_LIMIT};
ghost use Rattle.loop_finder.specs.Found.{HasNoBackJump, AreFound, head_slots};

use crate::find_error::FindError;
use crate::growth::{Growth, Step};
use crate::guess::Guess;
use crate::guesses::{Grown, Guesses};
use crate::targets::back_targets;
use bpf_decode::{Insn, Method, RuleSet, SLOT_LIMIT};
use bpf_machine::Caps;
use loop_heads::{BUDGET_LIMIT, Head, Loops};
use loop_verdict::LoopCode;
use std::alloc::{AllocError, Global};
use verifier::slots_of;

/// The greatest number of passes in which guesses grow, and that of tries to narrow them.
const PASS_LIMIT: usize = 40;

const NARROWINGS: usize = 2;

/// Finds heads for a method's loops, with that budget: one at the target of each jump that goes back, where
/// the places are declared whose kinds there aren't those that flow from lower slots. None if no jump goes
/// back. The verdict on loops may still refuse them. It costs at most some 50 passes over the code.
pub fn find_heads(
    alloc: Global,
    rules: RuleSet,
    method: &Method,
    budget: u32,
) -> Result<Option<Loops>, FindError>
    // A budget out of its range is refused, whatever the code is.
    ensures budget { IfOk result (λ _. (1 ≤ budget) × (budget ≤ BUDGET_LIMIT)) }
    ensures found { IfOk result (λ found. MatchOption found (HasNoBackJump (slots method.now.instructions))
        (AreFound budget (slots method.now.instructions))) }
    ensures rules { IfOk result (λ found. IfSome found (λ _. rules ≡ Three)) }
{
    if budget < 1 || budget > BUDGET_LIMIT {
        return Err(FindError::Limit);
    }
    let code = slots_of(alloc, method.instructions())?;
    if code.len() > SLOT_LIMIT {
        return Err(FindError::Limit);
    }
    let targets = back_targets(alloc, &code)?;
    if targets.is_empty() {
        return Ok(None);
    }
    match rules {
        RuleSet::One | RuleSet::Two => Err(FindError::RuleSet),
        RuleSet::Three => {
            let heads = search(alloc, &Caps::of(method), &code, &targets)?;
            match Loops::new(budget, heads) {
                Ok(loops) => Ok(Some(loops)),
                // Never: what is found is in order.
                Err(_) => Err(FindError::Limit),
            }
        }
    }
}

/// The heads at the targets.
fn search(
    alloc: Global,
    caps: &Caps,
    code: &[Option<Insn>],
    targets: &[u16],
) -> Result<Vec<Head>, FindError>
    requires { length code.now < 2 ^ 32 }
    ensures { IfOk result (λ heads. head_slots heads.items ≡ targets.now) }
{
    let growth = Growth::of(alloc, caps, code)?;
    // The passes ask no more of heads than where they are.
    let heads = heads_of(alloc, targets, &[])?;
    let method = LoopCode {
        caps,
        heads: &heads,
        code,
    };
    let mut guesses = Guesses::new(alloc, targets)?;
    settle(alloc, &method, &growth, &mut guesses)?;
    Ok(heads_of(alloc, targets, guesses.each())?)
}

/// Passes over the method till what jumps back to each head is below the frame there, and then those that
/// narrow what is declared.
fn settle(
    alloc: Global,
    method: &LoopCode,
    growth: &Growth,
    guesses: &mut Guesses,
) -> Result<(), FindError>
    requires { length method.now.code.now < 2 ^ 32 }
{
    let mut grown = None;
    for number in 0..PASS_LIMIT {
        guesses.run(alloc, method)?;
        grown = guesses.grow(alloc, growth, Step::of_pass(number))?;
        if let None = grown {
            break;
        }
    }
    refuse_growing(grown)?;
    refuse_cut_off(guesses.each())?;
    narrow(alloc, method, guesses)?;
    Ok(())
}

fn refuse_growing(grown: Option<Grown>) -> Result<(), FindError> {
    match grown {
        None => Ok(()),
        Some(Grown { jump, place }) => Err(FindError::NoHead {
            slot: jump,
            place: Some(place),
        }),
    }
}

/// Refuses a head to which something jumps back, and nothing flows from lower slots.
fn refuse_cut_off(guesses: &[Guess]) -> Result<(), FindError> {
    for guess in guesses {
        if guess.is_cut_off() {
            return Err(FindError::NoHead {
                slot: guess.jump(),
                place: None,
            });
        }
    }
    Ok(())
}

/// Narrows what is declared to what flows, while that keeps what jumps back below it.
fn narrow(alloc: Global, method: &LoopCode, guesses: &mut Guesses) -> Result<(), AllocError>
    requires { length method.now.code.now < 2 ^ 32 }
{
    for _ in 0..NARROWINGS {
        guesses.narrow(alloc)?;
        guesses.run(alloc, method)?;
        if !guesses.is_kept(alloc)? {
            guesses.widen();
            return Ok(());
        }
    }
    Ok(())
}

/// The heads at the targets, with what is guessed of them.
fn heads_of(alloc: Global, targets: &[u16], guesses: &[Guess]) -> Result<Vec<Head>, AllocError>
    ensures { IfOk result (λ heads. head_slots heads.items ≡ targets.now) }
{
    let mut heads = Vec::with_capacity(alloc, targets.len())?;
    for (number, target) in targets.iter().enumerate() {
        let places = match guesses.get(number) {
            Some(guess) => Vec::from_slice(alloc, guess.places())?,
            None => Vec::new(alloc),
        };
        heads.push(Head::new(*target, places))?;
    }
    Ok(heads)
}

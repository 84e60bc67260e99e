//! What a rule set knows: halves of numbers, slots of the stack, links, and helpers.
ghost use Rattle.std.specs.Prelude.{◌≡◌, ◌≤◌, length, IfSome};
ghost use Rattle.helpers.specs.View.{given_signature};
ghost use Rattle.verifier.specs.Frame.{precision_of, known_slots, known_links};
ghost use Rattle.verifier.specs.Rules.{last_helper, takes_of};

use abstract_num::Precision;
use bpf_decode::RuleSet;
use bpf_machine::STACK_SIZE;
use helpers::{Signature, signature};

/// The stack's slots of eight bytes.
const STACK_SLOTS: usize = STACK_SIZE / 8;

const REGISTERS: usize = 11;

/// What numbers say in a rule set: they have a half in rule set 3 alone.
#[inline(always)]
pub fn precision(rules: RuleSet) -> Precision
    ensures { result ≡ precision_of rules }
{
    match rules {
        RuleSet::One | RuleSet::Two => Precision::Whole,
        RuleSet::Three => Precision::Halves,
    }
}

/// The number of stack slots that frames know.
pub fn frame_slots(rules: RuleSet) -> usize
    ensures { result ≡ known_slots rules }
{
    match rules {
        // Of frames, knowing no slots is all that sets rule set 1 apart, so that one definition of
        // them serves all.
        RuleSet::One => 0,
        RuleSet::Two | RuleSet::Three => STACK_SLOTS,
    }
}

/// The number of places that frames may link: the registers and the stack's slots.
pub fn linked_places(rules: RuleSet) -> usize
    ensures { result ≡ known_links rules }
{
    match rules {
        // If no place can be linked, no link is ever made.
        RuleSet::One | RuleSet::Two => 0,
        RuleSet::Three => REGISTERS + STACK_SLOTS,
    }
}

/// The greatest id of a helper of the rule set.
fn last_helper(rules: RuleSet) -> u32
    ensures { result ≡ last_helper rules }
{
    // What a rule set has stays: `LAST_HELPER` grows with a helper, and the newest set alone may too.
    match rules {
        RuleSet::One | RuleSet::Two => 15,
        RuleSet::Three => 18,
    }
}

/// The signature of the helper of that id; none for an id that is no helper's in the rule set. It
/// takes no memory.
pub(crate) fn known_signature(rules: RuleSet, helper: u32) -> Option<Signature>
    ensures known { given_signature result ≡ takes_of rules helper }
    ensures short { IfSome result (λ s. length s.arguments.now ≤ 5) }
{
    if helper <= last_helper(rules) {
        signature(helper)
    } else {
        None
    }
}

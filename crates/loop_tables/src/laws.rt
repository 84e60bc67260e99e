//! The law of methods with heads. The function does nothing.

ghost use Rattle.loop_tables.specs.Safety.{AcceptedIsNeverStuck};

use abstract_num::keeping_laws;
use abstract_regs::{holding_laws, links_stay, slots_known, slots_stay};
use helpers::{answers_are_in_range, effects_keep_the_form};
use loop_frames::loop_laws;

/// A law, proved when the crate is checked; a call does nothing. A method with heads that no rule
/// refuses is never stuck in the typed machine's runs by its budget.
pub fn accepted_loops()
    ensures { AcceptedIsNeverStuck }
{
    // For the proof: entry frames and joins hold the typed machine's values, its stack is slots,
    // helpers keep objects well formed and answer in their ranges, the tables of numbers keep what
    // is held, and so do heads, greater frames and pairs of pointers.
    bpf_machine::slots();
    holding_laws();
    slots_stay();
    links_stay();
    slots_known();
    effects_keep_the_form();
    answers_are_in_range();
    keeping_laws();
    loop_laws();
}

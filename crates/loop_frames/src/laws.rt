//! Laws of frames of methods with loops, for the proofs of the crates above. The function does nothing.

ghost use Rattle.loop_frames.specs.Laws.{HeadsKeep, GreaterKeeps, PairsStep};

use abstract_num::keeping_laws;
use abstract_regs::holding_laws;

/// A law, proved when the crate is checked; a call does nothing. The frame at a head is true of what the one
/// that flows there is true of; a greater frame is true of what a smaller one is true of; an instruction with
/// a pair of pointers makes a step, after which a frame along one of its edges is true of the state.
pub fn loop_laws()
    ensures heads { HeadsKeep }
    ensures greater { GreaterKeeps }
    ensures pairs { PairsStep }
{
    // For the proof: the tables of numbers keep what is held, and so does a join.
    keeping_laws();
    holding_laws();
}

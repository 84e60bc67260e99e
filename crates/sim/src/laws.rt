//! A law of the worlds that a file's lines lead to. The function does nothing.

ghost use Rattle.sim.specs.Simulating.{AllWorldsKnown};

use pg_log::replies_run;
use sim_world::worlds_agree;

/// Of any lines, each played world on the way is an agreed one by the events that happened up to
/// it; a line's own come after those before, what they brought are requests of `req` lines, and no
/// committed list is cut between two lines. Of verified classes, each reply that was sent is its
/// method's run in every layout. The call does nothing.
pub fn worlds_are_known()
    ensures { AllWorldsKnown }
{
    worlds_agree();
    replies_run();
}

//! A law of played worlds, for the proofs of the crate above. The function does nothing.

ghost use Rattle.sim_world.specs.Agreed.{WorldsAgree};

use group_world::{agreement, nothing_is_cut};

/// Each played world that lines lead to from the beginning is an agreed one, by the events that
/// happened; and of each line: its own events come after those before, they bring the request of a
/// `req` line that the node took and no other, and no committed list is cut. The call does nothing.
pub fn worlds_agree()
    ensures { WorldsAgree }
{
    agreement();
    nothing_is_cut();
}

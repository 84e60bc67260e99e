//! The theorem, its consequences for one node, and the laws of messages and refusals. The functions
//! do nothing.
ghost use Rattle.group_world.specs.World.{AllAgree, NoneIsCut, StepsCutNothing};
ghost use Rattle.group_world.specs.Told.{RepliesAreCommitted, RefusalsAreDeserved};
ghost use Rattle.group_world.specs.Monitor.{KeptStaysActivated};

use pg_log::{legal_lists, pairs, refusals, replies};

/// From the opening world every list of events leads to an agreed world, and a further event leaves
/// each node's committed list a beginning of what it is then.
///
/// `specs/World.antt` defines worlds, events and agreed worlds, and `specs/Rules.antt` the rules of
/// a node.
pub fn agreement()
    ensures agreed { AllAgree }
    ensures kept { NoneIsCut }
{
    // For the proof: the log's laws of legal lists, replies, pairs and refusals, on which this
    // rests.
    legal_lists();
    replies();
    pairs();
    refusals();
}

/// An event keeps a node's committed length within its log, and what it had committed.
pub fn nothing_is_cut()
    ensures { StepsCutNothing }
{}

/// Each Reply that a node sends at an event names a place of its committed list after the event.
/// The request at that place has the Reply's client and number, and the Reply carries its answer.
pub fn replies_are_committed()
    ensures { RepliesAreCommitted }
{
    // For the proof: the same laws of the log.
    legal_lists();
    replies();
    pairs();
    refusals();
}

/// A node refuses a request by `NoClass`, `NoMethod` or `InputTooLong` only if
/// `pg_log::class_refusal` gives that refusal by the loaded classes.
pub fn refusals_are_deserved()
    ensures { RefusalsAreDeserved }
{}

/// An activated interval that the monitor's next map keeps stays activated: activating it again
/// changes nothing.
pub fn kept_stays_activated()
    ensures { KeptStaysActivated }
{}

//! The laws that a group's objects are within the limits, and that a reply is the one of its
//! method's run.
ghost use Rattle.pg_log.specs.Within.{FoldsAreWithinLimits};
ghost use Rattle.pg_log.specs.Runs.{RepliesRun};

use bpf_machine::{limits_are_kept, outcomes};

/// The objects of a legal list of requests for classes are within the limits: each is absent, or
/// within all limits. The function does nothing.
pub fn objects_within_limits()
    ensures { FoldsAreWithinLimits }
{
    // For the proof: a run leaves an object within the limits.
    limits_are_kept();
}

/// Each request of a legal list of safe methods ran: wherever its memory lies, its method's bytes
/// end on the object that the requests before it left, in no more steps than the method has
/// instructions; code and output are the reply at the place, and the object is the one that is
/// left. The function does nothing.
pub fn replies_run()
    ensures { RepliesRun }
{
    // For the proof: each run is on an object within the limits, and has one outcome.
    limits_are_kept();
    outcomes();
}

//! The worked runs of `specs/Runs.antt`: the definitions give what each says.
ghost use Rattle.group_world.specs.Runs.{OneNode, RepeatedRequest, LostAcknowledgements, RepeatedInstall, AllStopped};
ghost use Rattle.group_world.specs.Runs.{DivergentEnd, OneSilent, KeptInterval};

/// Runs of the rules, worked out by hand, message by message. The function does nothing.
pub fn worked_runs()
    ensures one_node { OneNode }
    ensures repeated_request { RepeatedRequest }
    ensures lost_acknowledgements { LostAcknowledgements }
    ensures repeated_install { RepeatedInstall }
    ensures all_stopped { AllStopped }
    ensures divergent_end { DivergentEnd }
    ensures one_silent { OneSilent }
    ensures kept_interval { KeptInterval }
{}

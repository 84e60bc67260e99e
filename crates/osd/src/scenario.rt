ghost use Rattle.std.specs.Prelude.{◌≡◌, IfOk};

use crate::cluster_parts::ClusterParts;
use crate::name::ClusterName;
use crate::running::Running;
use commit_board::NoMemory;
use pg_log::ClassTable;
use std::alloc::Global;
use std::marker::Brand;
use std::sync::Wait;
use std::thread::Threads;

/// A scenario that is played on a cluster, whatever the cluster's names are.
pub trait Scenario {
    /// The result of it.
    type Output;

    ghost use Rattle.pg_log.specs.Log.{Classes};

    ghost gives: { Classes → Self → Self.Output → Type 0 };

    /// Plays on the cluster. It brings the threads.
    fn play<N: ClusterName + Send + Sync, R: Threads + Wait + Sync>(
        &self,
        running: &Running<N, R>,
    ) -> Self::Output
        ensures { gives N.classes self.now result };
}

/// Names a cluster, with the classes that are loaded, and plays a scenario on it. It is not played
/// if memory for the nodes is refused.
pub fn play<S: Scenario, R: Threads + Wait + Sync + Drop>(
    alloc: Global,
    rt: R,
    parts: ClusterParts,
    table: ClassTable,
    scenario: &S,
) -> Result<S::Output, NoMemory>
    ensures { IfOk result (λ o. S.gives table scenario.now o) }
{
    play_named::<Brand, S, R>(alloc, rt, parts, table, scenario)
}

fn play_named<N: ClusterName + Send + Sync, S: Scenario, R: Threads + Wait + Sync + Drop>(
    alloc: Global,
    rt: R,
    parts: ClusterParts,
    table: ClassTable,
    scenario: &S,
) -> Result<S::Output, NoMemory>
    requires board { parts.board ≡ N.board }
    requires queues { parts.queues ≡ N.queues }
    requires config { parts.config ≡ N.config }
    requires table { table ≡ N.classes }
    ensures { IfOk result (λ o. S.gives table scenario.now o) }
{
    let running = Running::<N, R>::named(alloc, rt, parts, table)?;
    Ok(scenario.play::<N, R>(&running))
}

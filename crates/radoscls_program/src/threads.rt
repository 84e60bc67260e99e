//! A file of calls and maps, played on a cluster in threads.
ghost use Rattle.radoscls_program.specs.Clustered.{ClusterEnds};
ghost use Rattle.radoscls_program.specs.Streams.{stream};

use crate::status::ExitStatus;
use crate::task::ClusterTask;
use crate::telling::refuse;
use crate::unplayed::{Unplayed, tell_unplayed};
use cluster_tool::{ClusteringEnd, Meter, cluster};
use program_files::{Failure, Files, Output};
use std::io;
use std::sync::Wait;
use std::thread::Threads;
use std::time::Clock;

/// Plays a file of calls and maps, and prints why if that comes to nothing or ends for want of
/// memory. If calls were refused, the task says whether that is a success.
pub(crate) fn play_cluster<
    R: AllocGlobal + Threads + Wait + Clock + Sync,
    F: Files,
    O: Output,
    E: io::Write,
>(rt: &R, files: &F, task: &ClusterTask<'_>, meter: &mut Meter<'_, E>, out: &mut O) -> ExitStatus
    ensures { ClusterEnds (F.disk files.now) (stream O.printed O.failed out.old)
        (stream O.printed O.failed out.new) task.now result }
{
    match cluster(rt, files, &task.clustering, meter, out) {
        Ok(ClusteringEnd::Done) => ExitStatus::Done,
        Ok(ClusteringEnd::SomeRefused) => {
            if task.is_strict {
                ExitStatus::Refused
            } else {
                ExitStatus::Done
            }
        }
        Ok(ClusteringEnd::Bad) => ExitStatus::Refused,
        Ok(ClusteringEnd::Refused) => ExitStatus::Refused,
        Ok(ClusteringEnd::Unprinted) => ExitStatus::Refused,
        Ok(ClusteringEnd::NoMemory) => refuse(Failure::NoMemory, out),
        Err(failure) => {
            let clustering = &task.clustering;
            let asked = Unplayed {
                classes: &clustering.tenants,
                is_explained: clustering.is_explained,
            };
            tell_unplayed(rt.alloc(), files, asked, failure, out)
        }
    }
}

//! A run: a cluster, its workers, its callers and its unrest, each in a thread of its own.
ghost use Rattle.std.specs.Prelude.{◌≡◌};

use crate::caller::Caller;
use crate::crossing::{caller_crosses, trouble_crosses, unrest_crosses};
use crate::history::push_logs;
use crate::lines::messages_line;
use crate::plan::{Plan, PlannedClient};
use crate::trouble::Trouble;
use crate::unrest::Unrest;
use osd::{ClusterName, ClusterParts, Running, running_crosses};
use pg_log::ClassTable;
use rados_client::Cluster;
use std::alloc::Global;
use std::marker::Brand;
use std::sync::Wait;
use std::thread::{Threads, for_each_mut, join};
use std::time::Clock;

/// The workers and the callers of a run, at most.
const WORKERS: usize = 16;

const CALLERS: usize = 63;

/// What is left of a run: the lines of its history, and the fault that a thread saw.
#[derive(Drop)]
pub struct Played {
    pub texts: Vec<String>,
    pub fault: Option<&'static str>,
}

/// Plays a run, or says why not.
pub fn run<R: AllocGlobal + Threads + Wait + Clock + Sync>(
    rt: &R,
    plan: Plan,
) -> Result<Played, &'static str> {
    let alloc = rt.alloc();
    let callers = plan.clients.len().min(CALLERS) as u32;
    if plan.clients.len() > CALLERS || plan.numbers.config.workers > WORKERS {
        return Err("too many clients or workers");
    }
    let Ok(mut cluster) = Cluster::new(alloc, plan.numbers.config) else {
        return Err("no cluster");
    };
    let Some((parts, table)) = cluster.start() else {
        return Err("no parts");
    };
    let trouble = Trouble::new(plan.numbers, callers);
    match play(rt, parts, table, &trouble, plan) {
        Some(played) => Ok(played),
        None => Err("memory is refused"),
    }
}

fn play<R: AllocGlobal + Threads + Wait + Clock + Sync + Drop>(
    rt: R,
    parts: ClusterParts,
    table: ClassTable,
    trouble: &Trouble,
    plan: Plan,
) -> Option<Played> {
    play_named::<Brand, R>(rt, parts, table, trouble, plan)
}

/// Names the cluster, and plays on it.
fn play_named<N: ClusterName + Send + Sync, R: AllocGlobal + Threads + Wait + Clock + Sync + Drop>(
    rt: R,
    parts: ClusterParts,
    table: ClassTable,
    trouble: &Trouble,
    plan: Plan,
) -> Option<Played>
    requires board { parts.board ≡ N.board }
    requires queues { parts.queues ≡ N.queues }
    requires config { parts.config ≡ N.config }
    requires table { table ≡ N.classes }
{
    let alloc = rt.alloc();
    let running = Running::<N, R>::named(alloc, rt, parts, table).ok()?;
    play_served(alloc, &running, trouble, plan)
}

/// Plays while all workers serve.
fn play_served<N: ClusterName + Send + Sync, R: Threads + Wait + Clock + Sync>(
    alloc: Global,
    running: &Running<N, R>,
    trouble: &Trouble,
    plan: Plan,
) -> Option<Played> {
    let Plan {
        numbers: _,
        clients,
        events,
        calm,
        is_calm: _,
    } = plan;
    let mut unrest = Unrest::new(alloc, events, calm);
    let mut callers = callers(alloc, clients)?;
    play_all(alloc, running, trouble, &mut callers, &mut unrest);
    let fault = fault_of(&callers, &unrest);
    let mut texts = Vec::new(alloc);
    texts.push(unrest.into_text()).ok()?;
    for caller in callers {
        texts.push(caller.into_text()).ok()?;
    }
    texts.push(messages_line(alloc, trouble).ok()?).ok()?;
    push_logs(alloc, running, &mut texts)?;
    Some(Played { texts, fault })
}

/// The callers of a run.
fn callers(alloc: Global, clients: Vec<PlannedClient>) -> Option<Vec<Caller>> {
    let mut callers = Vec::new(alloc);
    for client in clients {
        callers.push(Caller::new(alloc, client)).ok()?;
    }
    Some(callers)
}

/// The fault that a thread saw, if one did.
fn fault_of(callers: &[Caller], unrest: &Unrest) -> Option<&'static str> {
    for caller in callers {
        if caller.fault.is_some() {
            return caller.fault;
        }
    }
    unrest.fault
}

/// Serves by all workers until all callers are done.
fn play_all<N: ClusterName + Send + Sync, R: Threads + Wait + Clock + Sync>(
    alloc: Global,
    running: &Running<N, R>,
    trouble: &Trouble,
    callers: &mut Vec<Caller>,
    unrest: &mut Unrest,
) {
    running_crosses::<N, R>();
    trouble_crosses();
    caller_crosses();
    unrest_crosses();
    let _ = join(
        running.runtime(),
        || serve_all(running, trouble),
        || call_and_finish(alloc, running, trouble, callers, unrest),
    );
}

/// Serves by all workers until the cluster is told to finish.
fn serve_all<N: ClusterName + Send + Sync, R: Threads + Wait + Sync>(
    running: &Running<N, R>,
    trouble: &Trouble,
) {
    running_crosses::<N, R>();
    trouble_crosses();
    let mut numbers = [0, 1, 2, 3, 4, 5, 6, 7, 8, 9, 10, 11, 12, 13, 14, 15];
    let workers = running.config().workers.min(WORKERS);
    let numbers = &mut numbers[..workers];
    for_each_mut(
        running.runtime(),
        numbers,
        WORKERS,
        &|_, worker: &mut usize| {
            running.serve_with(*worker, trouble, trouble);
        },
    );
}

/// Has the callers call amid the unrest, and then the workers end.
fn call_and_finish<N: ClusterName + Send + Sync, R: Threads + Wait + Clock + Sync>(
    alloc: Global,
    running: &Running<N, R>,
    trouble: &Trouble,
    callers: &mut Vec<Caller>,
    unrest: &mut Unrest,
) {
    running_crosses::<N, R>();
    trouble_crosses();
    caller_crosses();
    unrest_crosses();
    let _ = join(
        running.runtime(),
        || unrest.play(running, trouble),
        || call_all(alloc, running, trouble, callers),
    );
    running.finish();
}

/// Has each caller call, in a thread of its own.
fn call_all<N: ClusterName + Send + Sync, R: Threads + Wait + Clock + Sync>(
    alloc: Global,
    running: &Running<N, R>,
    trouble: &Trouble,
    callers: &mut Vec<Caller>,
) {
    running_crosses::<N, R>();
    trouble_crosses();
    caller_crosses();
    for_each_mut(
        running.runtime(),
        callers.as_mut_slice(),
        CALLERS,
        &|_, caller: &mut Caller| {
            caller.play(alloc, running, trouble);
        },
    );
}

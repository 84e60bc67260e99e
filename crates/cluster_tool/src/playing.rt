//! A plan played on a cluster.
ghost use Rattle.std.specs.Prelude.{◌≡◌, false, IfOk, IfNone, IfSome, All, map};
ghost use Rattle.cluster_tool.specs.Callers.{AllCalled, AreNew};
ghost use Rattle.cluster_tool.specs.Played.{AreMapsMade, IsMapRefused, Plays};

use crate::caller::Caller;
use crate::crossing::{caller_crosses, figures_cross};
use crate::figures::{Figures, first_operations};
use crate::meter::Meter;
use crate::played::Played;
use cluster_file::{Plan, PlannedStep};
use map_book::MapError;
use osd::{ClusterName, ClusterParts, NoMemory, Running, running_crosses};
use pg_log::ClassTable;
use rados_client::{ExecError, ExecReply, Session};
use std::alloc::{AllocError, Global};
use std::io;
use std::sync::Wait;
use std::thread::{Threads, for_each_mut, scope, scope_env};
use std::time::Clock;

/// The most workers of a cluster, as its limits have it.
const WORKER_LIMIT: usize = 16;

/// Plays a plan on a cluster of these parts, with these classes: each client and each worker in a
/// thread of its own. It is not played if memory for the nodes is refused. The caller picks the
/// names, which are those of the parts and classes.
pub(crate) fn play<
    N: ClusterName + Send + Sync,
    R: AllocGlobal + Threads + Wait + Clock + Sync + Drop,
    E: io::Write,
>(
    rt: R,
    parts: ClusterParts,
    table: ClassTable,
    plan: &Plan,
    meter: &mut Meter<'_, E>,
) -> Result<Played, NoMemory>
    requires board { parts.board ≡ N.board }
    requires queues { parts.queues ≡ N.queues }
    requires config { parts.config ≡ N.config }
    requires table { table ≡ N.classes }
    ensures { IfOk result (Plays table parts.config plan.now.steps) }
{
    let alloc = rt.alloc();
    let running = Running::<N, R>::named(alloc, rt, parts, table)?;
    Ok(play_while_served(alloc, &running, plan, meter))
}

/// Plays a plan while all workers serve. If the thread that they start from can't be had, nothing
/// is played: no call would be answered.
fn play_while_served<N: ClusterName + Send + Sync, R: Threads + Wait + Clock + Sync, E: io::Write>(
    alloc: Global,
    running: &Running<N, R>,
    plan: &Plan,
    meter: &mut Meter<'_, E>,
) -> Played
    ensures { Plays N.classes N.config plan.now.steps result }
{
    let figures = meter.figures();
    scope(
        scope_env(),
        running.runtime(),
        |threads| -> Played
            ensures { Plays N.classes N.config plan.entry.now.steps result }
        {
            running_crosses::<N, R>();
            figures_cross();
            match threads.spawn(|| serve_all(running, figures)) {
                Ok(_) => play_and_finish(alloc, running, plan, meter),
                Err(_) => Played::NoMemory,
            }
        },
    )
}

/// Serves by all workers until the cluster is told to finish.
fn serve_all<N: ClusterName + Send + Sync, R: Threads + Wait + Sync>(
    running: &Running<N, R>,
    figures: &Figures,
) {
    running_crosses::<N, R>();
    figures_cross();
    // A number for each worker: a thread is started for each element.
    let mut numbers = [0, 1, 2, 3, 4, 5, 6, 7, 8, 9, 10, 11, 12, 13, 14, 15];
    let workers = running.config().workers.min(WORKER_LIMIT);
    let numbers = &mut numbers[..workers];
    for_each_mut(
        running.runtime(),
        numbers,
        WORKER_LIMIT,
        &|_, worker: &mut usize| {
            running.serve_with(*worker, figures, figures);
        },
    );
}

/// Plays a plan, and tells the workers to finish.
fn play_and_finish<N: ClusterName + Send + Sync, R: Threads + Wait + Clock + Sync, E: io::Write>(
    alloc: Global,
    running: &Running<N, R>,
    plan: &Plan,
    meter: &mut Meter<'_, E>,
) -> Played
    ensures { Plays N.classes N.config plan.now.steps result }
{
    let played = play_plan(alloc, running, plan, meter);
    meter.figures().note_whole(running.runtime());
    meter.end();
    running.finish();
    played
}

/// Plays a plan.
fn play_plan<N: ClusterName + Send + Sync, R: Threads + Wait + Clock + Sync, E: io::Write>(
    alloc: Global,
    running: &Running<N, R>,
    plan: &Plan,
    meter: &mut Meter<'_, E>,
) -> Played
    ensures { Plays N.classes N.config plan.now.steps result }
{
    let Ok(mut callers) = callers(alloc, running, plan.clients()) else {
        return Played::NoMemory;
    };
    match play_steps(alloc, running, meter, plan.steps(), &mut callers) {
        Some((line, why)) => Played::MapRefused(line, why),
        None => {
            note_nudges(&callers, meter.figures());
            match all_ends(alloc, callers) {
                Ok(ends) => Played::Done(ends),
                Err(_) => Played::NoMemory,
            }
        }
    }
}

/// The clients, each with its session, the first one first.
fn callers<'a, N: ClusterName, R: Wait>(
    alloc: Global,
    running: &'a Running<N, R>,
    clients: u32,
) -> Result<Vec<Caller<'a, N, R>>, AllocError>
    ensures { IfOk result (λ v. AreNew clients v.items) }
{
    let mut callers = Vec::new(alloc);
    for client in 0..clients {
        let Ok(session) = Session::open(running) else {
            return Err(AllocError);
        };
        // The lines name clients by these numbers; `open` gives them in this order, which no clause
        // of it says.
        if session.client().get() != client + 1 {
            return Err(AllocError);
        }
        callers.push(Caller::new(alloc, session))?;
    }
    Ok(callers)
}

/// The number of these steps that are calls.
fn count_calls(steps: &[PlannedStep]) -> u64 {
    let mut calls: u64 = 0;
    for step in steps {
        if let PlannedStep::Call(_) = step {
            calls = calls.wrapping_add(1);
        }
    }
    calls
}

/// Makes the calls of these steps, each client in a thread of its own.
fn call_each<'a, N: ClusterName + Send + Sync, R: Threads + Wait + Clock + Sync>(
    alloc: Global,
    running: &'a Running<N, R>,
    figures: &Figures,
    steps: &[PlannedStep],
    callers: &mut Vec<Caller<'a, N, R>>,
)
    ensures { AllCalled N.classes steps.now callers.old.items callers.new.items }
{
    caller_crosses::<N, R>();
    figures_cross();
    let threads = callers.len().max(1);
    let clock = running.runtime();
    if count_calls(steps) > 0 {
        figures.begin(clock, first_operations(running.config()));
    }
    for_each_mut(
        running.runtime(),
        callers.as_mut_slice(),
        threads,
        &|_, caller| {
            caller.call_all(alloc, clock, figures, steps);
        },
    );
}

/// Makes the calls of these steps, each client in a thread of its own, and tells of them.
fn call_all<'a, N: ClusterName + Send + Sync, R: Threads + Wait + Clock + Sync, E: io::Write>(
    alloc: Global,
    running: &'a Running<N, R>,
    meter: &mut Meter<'_, E>,
    steps: &[PlannedStep],
    callers: &mut Vec<Caller<'a, N, R>>,
)
    ensures { AllCalled N.classes steps.now callers.old.items callers.new.items }
{
    call_each(alloc, running, meter.figures(), steps, callers);
    meter.tell_calls(alloc, steps, callers);
}

/// Makes the calls of a plan, and each of its maps once all calls above have ended, up to the first
/// map that is refused. Between parts of the calls the meter looks at the clock.
fn play_steps<'a, N: ClusterName + Send + Sync, R: Threads + Wait + Clock + Sync, E: io::Write>(
    alloc: Global,
    running: &'a Running<N, R>,
    meter: &mut Meter<'_, E>,
    steps: &[PlannedStep],
    callers: &mut Vec<Caller<'a, N, R>>,
) -> Option<(usize, MapError)>
    ensures none { IfNone result (AllCalled N.classes steps.now callers.old.items callers.new.items) }
    ensures made { IfNone result (AreMapsMade N.config steps.now) }
    ensures some { IfSome result (λ r. IsMapRefused N.config steps.now r.0 r.1) }
{
    let end = steps.len();
    let mut from = 0;
    meter.begin(running.runtime(), count_calls(steps));
    for at in 0..end {
        match &steps[at] {
            PlannedStep::Map(line, nodes) => {
                call_all(alloc, running, meter, &steps[from..at], callers);
                meter.figures().note_map(running.runtime());
                if let Err(why) = running.new_map(nodes.items()) {
                    return Some((*line, why));
                }
                from = at;
            }
            PlannedStep::Call(_) => {
                if meter.is_due(at - from) {
                    call_all(alloc, running, meter, &steps[from..at], callers);
                    meter.look(running.runtime());
                    from = at;
                }
            }
        }
    }
    call_all(alloc, running, meter, &steps[from..end], callers);
    None
}

/// Notes how often these clients nudged.
fn note_nudges<N: ClusterName, R: Wait>(callers: &[Caller<'_, N, R>], figures: &Figures) {
    for caller in callers {
        figures.note_nudges(caller.nudges());
    }
}

/// The ends of each client's calls. It fails if memory was refused to keep one of them.
fn all_ends<N: ClusterName, R>(
    alloc: Global,
    callers: Vec<Caller<'_, N, R>>,
) -> Result<Vec<Vec<Result<ExecReply, ExecError>>>, AllocError>
    ensures ends { IfOk result (λ v. map (λ e. e.items) v.items ≡ map (λ c. c.ends) callers.entry.items) }
    ensures kept { IfOk result (λ _. All (λ c. c.lost ≡ false) callers.entry.items) }
{
    let mut all = Vec::new(alloc);
    for caller in callers {
        all.push(caller.into_ends()?)?;
    }
    Ok(all)
}

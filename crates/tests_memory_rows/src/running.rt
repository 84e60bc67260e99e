//! Rows of a running cluster that no other thread serves: `new_map`, 4 NoMemory; `exec` and `retry`
//! before their first submit, 8 NoMemory; `logged`, 2 NoMemory; and a worker, who loses a message
//! or an event, until the client submits again.

use crate::clusters::config;
use map_book::MapError;
use object_store::ObjectName;
use osd::{Gate, LoggedEntry, LoggedError, Sends};
use pg_log::Request;
use placement::NodeId;
use rados_client::{
    ClassId, Cluster, ClusterName, ExecError, ExecReply, Running, Scenario, Session,
};
use std::alloc::Global;
use std::cell::Cell;
use std::sync::Wait;
use std::thread::Threads;
use tests_memory_table::{Ending, nodes_of, request_of};

/// A call of a running cluster.
#[derive(Clone, Copy)]
pub enum Call {
    NewMap,
    Exec,
    Retry,
    Logged,
    Serve,
}

/// After a refusal the next map has the epoch that the refused one would have had.
fn map_end<N: ClusterName, R: Wait>(running: &Running<N, R>, up: &[NodeId]) -> Ending {
    match running.new_map(up) {
        Ok(epoch) => Ending::of(epoch == 2),
        Err(error) => Ending::refused(error == MapError::NoMemory),
    }
}

fn mapped<N: ClusterName, R: Wait>(alloc: Global, running: &Running<N, R>) -> Option<Ending> {
    let up = nodes_of(alloc, &[1])?;
    Some(match map_end(running, &up) {
        Ending::Refused => Ending::Refused.then(Some(map_end(running, &up))),
        ending => ending,
    })
}

/// Ends the worker at the first request of a client, and keeps its number.
#[derive(Drop)]
struct Ends<'a, N: ClusterName, R> {
    running: &'a Running<N, R>,
    number: Cell<u64>,
}

impl<N: ClusterName, R: Wait> Gate for Ends<'_, N, R> {
    fn before(&self, number: u64) {
        if number != 0 {
            self.number.set(number);
            self.running.finish();
        }
    }
}

/// The end of a call without a worker: nobody answers.
fn unanswered(answer: Result<ExecReply, ExecError>) -> Ending {
    match answer {
        Ok(_) => Ending::Differs,
        Err(ExecError::Unanswered) => Ending::Answered,
        Err(error) => Ending::refused(error == ExecError::NoMemory && error.number() == 8),
    }
}

/// Calls, once more if memory is refused.
fn exec<N: ClusterName, R: Wait>(
    alloc: Global,
    session: &mut Session<N, R>,
    object: &ObjectName,
) -> Ending {
    match unanswered(session.exec(alloc, object, ClassId::new(0), "lock", &[])) {
        Ending::Refused => {
            let second = session.exec(alloc, object, ClassId::new(0), "lock", &[]);
            Ending::Refused.then(Some(unanswered(second)))
        }
        ending => ending,
    }
}

/// Sends the request again, once more if memory is refused.
fn retry<N: ClusterName, R: Wait>(session: &mut Session<N, R>) -> Ending {
    match unanswered(session.retry()) {
        Ending::Refused => Ending::Refused.then(Some(unanswered(session.retry()))),
        ending => ending,
    }
}

/// The end of `exec`, or of `retry` after it.
fn called<N: ClusterName, R: Wait>(
    alloc: Global,
    running: &Running<N, R>,
    has_retry: bool,
) -> Option<Ending> {
    let object = ObjectName::new(alloc, "a").ok()?;
    let mut session = Session::open(running).ok()?;
    let ending = exec(alloc, &mut session, &object);
    if !has_retry || ending == Ending::Differs {
        return Some(ending);
    }
    Some(retry(&mut session))
}

/// That end, if the request that gets to the worker has the number 1, refused or not, of client 1:
/// it comes after the client's number times 2^32.
fn is_first<N: ClusterName, R: Wait>(running: &Running<N, R>, ending: Ending) -> Ending {
    let gate = Ends {
        running,
        number: Cell::new(0),
    };
    running.serve(0, &gate);
    if gate.number.get() == (1 << 32) + 1 {
        ending
    } else {
        Ending::Differs
    }
}

/// Submits a request before each operation, and has the node learn the newest map, until the
/// request is logged. It counts the operations.
#[derive(Drop)]
struct Asks<'a, N: ClusterName, R> {
    running: &'a Running<N, R>,
    request: Request,
    sends: Cell<Option<Sends<N>>>,
    count: Cell<u64>,
}

impl<N: ClusterName, R: Wait> Asks<'_, N, R> {
    /// Submits the map and the request.
    fn submit(&self) {
        let Some(mut sends) = self.sends.replace(None) else {
            return;
        };
        self.running.nudge(&mut sends, 0);
        let _ = self.running.ask(&mut sends, &self.request);
        drop(self.sends.replace(Some(sends)));
    }
}

impl<N: ClusterName, R: Wait> Gate for Asks<'_, N, R> {
    fn before(&self, _number: u64) {
        self.count.set(self.count.get().wrapping_add(1));
        let is_logged = match self.running.logged(NodeId::new(0), 0) {
            Ok(entries) => !entries.is_empty(),
            Err(_) => false,
        };
        if is_logged {
            self.running.finish();
        } else {
            self.submit();
        }
    }
}

/// Serves until a client's request of the lock is logged. The number of operations that it takes.
fn serve<N: ClusterName, R: Wait>(alloc: Global, running: &Running<N, R>) -> Option<u64> {
    let opened = running.open()?;
    let gate = Asks {
        running,
        request: request_of(alloc, &(opened.client.get(), 1, "a", "lock", b""))?,
        sends: Cell::new(Some(opened.sends)),
        count: Cell::new(0),
    };
    // Twice, since one of what is submitted may be refused memory.
    gate.submit();
    gate.submit();
    running.serve(0, &gate);
    Some(gate.count.get())
}

/// The log of the one node has the request once, answered 0.
fn logged_end<N: ClusterName, R: Wait>(running: &Running<N, R>) -> Ending {
    match running.logged(NodeId::new(0), 0) {
        Ok(entries) => Ending::of(
            entries.as_slice()
                == [LoggedEntry {
                    client: 1,
                    number: 1,
                    code: 0,
                }]
                .as_slice(),
        ),
        Err(error) => Ending::refused(error == LoggedError::NoMemory),
    }
}

/// The end of a call on a running cluster, and how many operations its worker took.
#[derive(Clone, Copy)]
struct Played {
    ending: Ending,
    count: u64,
}

/// The end of `logged` after a worker's operations.
fn logged<N: ClusterName, R: Wait>(alloc: Global, running: &Running<N, R>) -> Option<Played> {
    let count = serve(alloc, running)?;
    let ending = match logged_end(running) {
        Ending::Refused => Ending::Refused.then(Some(logged_end(running))),
        ending => ending,
    };
    Some(Played { ending, count })
}

/// A call on a running cluster.
#[derive(Drop)]
struct Row {
    alloc: Global,
    call: Call,
}

impl Scenario for Row {
    type Output = Option<Played>;

    ghost gives = { λ _ _ _. Unit {0} };

    fn play<N: ClusterName + Send + Sync, R: Threads + Wait + Sync>(
        &self,
        running: &Running<N, R>,
    ) -> Option<Played> {
        let ending = match self.call {
            Call::NewMap => mapped(self.alloc, running)?,
            Call::Exec => is_first(running, called(self.alloc, running, false)?),
            Call::Retry => is_first(running, called(self.alloc, running, true)?),
            Call::Logged | Call::Serve => return logged(self.alloc, running),
        };
        Some(Played { ending, count: 0 })
    }
}

/// A call on a new cluster. None if memory for the cluster is refused, or for what the call takes.
fn play<R: Threads + Wait + Sync + Copy + Drop>(
    rt: R,
    alloc: Global,
    call: Call,
) -> Option<Played> {
    let config = match call {
        Call::NewMap => config(2, 2),
        Call::Exec | Call::Retry | Call::Logged | Call::Serve => config(1, 1),
    };
    let mut cluster = Cluster::new(alloc, config).ok()?;
    cluster.run(rt, &Row { alloc, call }).ok()?
}

/// The end of a call on a running cluster.
///
/// A worker who is refused memory loses a message or an event, as one that never came: the log is
/// the same in the end, after more operations than those of a worker who is refused nothing.
pub fn on_running<R: Threads + Wait + Sync + Copy + Drop>(
    rt: R,
    alloc: Global,
    call: Call,
) -> Option<Ending> {
    let played = play(rt, alloc, call)?;
    match call {
        Call::NewMap | Call::Exec | Call::Retry | Call::Logged => Some(played.ending),
        Call::Serve => {
            let other = play(rt, alloc, call)?;
            Some(match (played.ending, other.ending) {
                (Ending::Differs, _) | (_, Ending::Differs) => Ending::Differs,
                _ if played.count == other.count => Ending::Answered,
                _ => Ending::Refused,
            })
        }
    }
}

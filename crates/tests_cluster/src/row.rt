//! A test as a row: a cluster, who serves it, and the steps that are done on it.

use crate::fate::{Rule, TestFate};
use crate::gate::TestGate;
use crate::play::{ONE, Play, is_played};
use crate::steps::Step;
use crate::table::Table;
use osd::{ClusterName, Running};
use rados_client::Config;
use std::alloc::Global;
use std::process::Abort;
use std::sync::Wait;
use std::sync::atomic::{AtomicU64, Ordering};
use std::thread::Threads;

/// A test.
#[derive(Clone, Copy)]
pub struct Row {
    /// What it shows.
    pub name: &'static str,
    pub config: Config,
    pub rule: Rule,
    /// The workers that serve, by their numbers.
    pub workers: &'static [usize],
    /// The steps before they serve, while they do, and once they have ended.
    pub before: &'static [Step],
    pub served: &'static [Step],
    pub after: &'static [Step],
}

/// A row of one worker under no losses, with no steps.
pub const ROW: Row = Row {
    name: "",
    config: ONE,
    rule: Rule::Pass,
    workers: &[0],
    before: &[],
    served: &[],
    after: &[],
};

/// The gate and the fate that a test's workers serve with, and the number of those that have ended.
#[derive(Drop)]
pub struct Server {
    pub gate: TestGate,
    pub fate: TestFate,
    pub ended: AtomicU64,
}

/// A row as it is played: a thread for each worker, and one that does the steps.
#[derive(Drop)]
struct Played<'a> {
    alloc: Global,
    row: &'a Row,
    server: Server,
}

impl Played<'_> {
    /// Does steps. False at the first one that fails.
    fn does<N: ClusterName, R: Wait>(&self, running: &Running<N, R>, steps: &[Step]) -> bool {
        let mut table = Table::new(self.alloc, running, &self.server);
        for step in steps {
            if !table.does(*step) {
                return false;
            }
        }
        true
    }
}

impl Play for Played<'_> {
    fn parts(&self) -> usize {
        self.row.workers.len().saturating_add(1)
    }

    fn begins<N: ClusterName, R: Wait>(&self, running: &Running<N, R>) -> bool {
        self.does(running, self.row.before)
    }

    fn part<N: ClusterName, R: Wait>(&self, running: &Running<N, R>, number: usize) -> bool {
        let Server { gate, fate, ended } = &self.server;
        if let Some(worker) = self.row.workers.get(number) {
            running.serve_with(*worker, gate, fate);
            ended.fetch_add(1, Ordering::SeqCst);
            return true;
        }
        let is_so = self.does(running, self.row.served);
        // A step that fails may have left a worker held.
        let _ = gate.free();
        running.finish();
        is_so
    }

    fn ends<N: ClusterName, R: Wait>(&self, running: &Running<N, R>) -> bool {
        self.does(running, self.row.after)
    }
}

/// True if all steps of the row succeed.
fn is_so<R: Threads + Wait + Sync + Drop>(rt: R, alloc: Global, row: &Row) -> bool {
    let worker = match row.workers.first() {
        Some(worker) => *worker,
        None => 0,
    };
    let played = Played {
        alloc,
        row,
        server: Server {
            gate: TestGate::new(),
            fate: TestFate::new(row.rule, worker),
            ended: AtomicU64::new(0),
        },
    };
    is_played(rt, alloc, row.config, &played)
}

/// Fails at the first row of which a step fails.
pub fn are_so<R: Threads + Wait + Sync + Abort + Copy + Drop>(rt: R, alloc: Global, rows: &[Row]) {
    for row in rows {
        let name = row.name;
        assert!(&rt; is_so(rt, alloc, row), "{name}");
    }
}

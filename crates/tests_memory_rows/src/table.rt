//! The table of a cluster's calls that can be refused memory.

use crate::cells::turned;
use crate::clusters::{load, new};
use crate::running::{Call, on_running};
use std::alloc::Global;
use std::sync::Wait;
use std::thread::Threads;
use tests_memory_table::Ending;

/// A call that can be refused memory.
#[derive(Clone, Copy)]
pub enum ClusterRow {
    New,
    LoadClass,
    Turn,
    Running(Call),
}

/// Each row with its name.
#[rattlefmt::skip]
pub const CLUSTER_ROWS: [(&str, ClusterRow); 8] = [
    ("cluster_new", ClusterRow::New),
    ("load_class", ClusterRow::LoadClass),
    ("turn", ClusterRow::Turn),
    ("cluster_new_map", ClusterRow::Running(Call::NewMap)),
    ("exec", ClusterRow::Running(Call::Exec)),
    ("retry", ClusterRow::Running(Call::Retry)),
    ("logged", ClusterRow::Running(Call::Logged)),
    ("serve", ClusterRow::Running(Call::Serve)),
];

impl ClusterRow {
    /// The row of a name.
    pub fn of(name: &str) -> Option<ClusterRow> {
        for (its_name, row) in &CLUSTER_ROWS {
            if *its_name == name {
                return Some(*row);
            }
        }
        None
    }

    /// Makes the call, and once more if memory is refused.
    pub fn run<R: Threads + Wait + Sync + Copy + Drop>(self, rt: R, alloc: Global) -> Ending {
        match self.end(rt, alloc) {
            Some(Ending::Answered) => Ending::Answered,
            Some(Ending::Refused) => Ending::Refused.then(self.end(rt, alloc)),
            Some(Ending::Differs) => Ending::Differs,
            None => Ending::Answered.then(self.end(rt, alloc)),
        }
    }

    /// Makes the call. None if memory is refused to what it is made of.
    #[rattlefmt::skip]
    fn end<R: Threads + Wait + Sync + Copy + Drop>(self, rt: R, alloc: Global) -> Option<Ending> {
        match self {
            ClusterRow::New => new(alloc),
            ClusterRow::LoadClass => load(alloc),
            ClusterRow::Turn => turned(alloc),
            ClusterRow::Running(call) => on_running(rt, alloc, call),
        }
    }
}

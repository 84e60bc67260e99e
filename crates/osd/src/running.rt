ghost use Rattle.std.specs.Prelude.{◌≡◌, ◌<◌, ◌≤◌, [], IfSome, MatchOption};
ghost use Rattle.commit_board.specs.Tokens.{knows};
ghost use Rattle.placement.specs.Placement.{group_of};
ghost use Rattle.osd.specs.Places.{IsThere, IsMissing};

mod asking;
mod delivering;
mod mapping;
mod naming;
mod nudging;
mod reading;
mod serving;

use crate::config::Config;
use crate::desk::{Desk, OpenedSession};
use crate::mailbox::Mailbox;
use crate::monitors::Monitors;
use crate::name::ClusterName;
use crate::newest::Newest;
use crate::node::Node;
use crate::nudges::Nudges;
use crate::primaries::Primaries;
use crate::queued::Queued;
use crate::worker::WorkerPlace;
use commit_board::Board;
use group_cell::{GroupCell, Post};
use object_store::ObjectName;
use op_shards::{Bell, OpShards, Schedule, Sleepers};
use pg_log::{ClassTable, ClientId};
use placement::{NodeId, group_of};
use std::alloc::Global;
use std::marker::Model;
use std::sync::atomic::AtomicU64;
use std::sync::{Mutex, MutexGuard, Wait};

/// A cluster that any number of threads play on, by shared references to it. Contracts see what it
/// is made of.
///
/// A thread holds at most one lock at a time. Only `new_map` takes others, one at a time, while it
/// holds the monitors': the newest maps' and that of the workers who wait.
pub struct Running<N: ClusterName, R> {
    alloc: Global,
    rt: R,
    config: Config,
    board: Board,
    table: ClassTable,
    shards: OpShards<Queued>,
    nodes: Vec<Node<N>>,
    mail: Vec<Mailbox<N>>,
    desk: Mutex<Desk<N>>,
    monitors: Mutex<Monitors<N>>,
    newest: Mutex<Newest<N>>,
    workers: Vec<WorkerPlace<N>>,
    schedule: Schedule<AtomicU64>,
    bell: Bell<AtomicU64, Sleepers>,
    nudges: Nudges,
    primaries: Primaries,
}

impl<N: ClusterName, R: Drop> Drop for Running<N, R> {
    fn drop(self) {
        let Running {
            alloc: _,
            rt,
            config: _,
            board,
            table,
            shards,
            nodes,
            mail,
            desk,
            monitors,
            newest,
            workers,
            schedule,
            bell,
            nudges,
            primaries,
        } = self;
        drop(rt);
        drop(board);
        drop(table);
        drop(shards);
        drop(nodes);
        drop(mail);
        drop(desk);
        drop(monitors);
        drop(newest);
        drop(workers);
        drop(schedule);
        drop(bell);
        drop(nudges);
        drop(primaries);
    }
}

impl<N: ClusterName, R> Model for Running<N, R> {
    ghost use Rattle.std.specs.Prelude.{◌≡◌, IsTrue, vec_len};
    ghost use Rattle.osd.specs.declared.config.Config.{Config};
    ghost use Rattle.osd.specs.Limits.{is_within_limits};

    ghost Value = { Config };

    ghost view = { λ r. r.config };

    ghost invariant = { λ r. (r.config ≡ N.config) × IsTrue (is_within_limits r.config) × (r.board ≡ N.board)
        × (r.table ≡ N.classes) × (r.shards.queues ≡ N.queues) × (vec_len r.nodes ≡ r.config.nodes) };
}

impl<N: ClusterName, R: Wait> Running<N, R> {
    /// The runtime that its calls wait by.
    pub fn runtime(&self) -> &R {
        &self.rt
    }

    /// The numbers that it is made of.
    pub fn config(&self) -> &Config
        ensures value { result.now ≡ self.now }
        ensures name { result.now ≡ N.config }
    {
        &self.config
    }

    /// Its board.
    pub fn board(&self) -> &Board
        ensures { result.now ≡ N.board }
    {
        &self.board
    }

    /// Its classes.
    pub fn table(&self) -> &ClassTable
        ensures { result.now ≡ N.classes }
    {
        &self.table
    }

    /// The group of an object.
    pub fn group_of(&self, object: &ObjectName) -> usize
        ensures value { result ≡ group_of object.now N.config.groups }
        ensures within { result < N.config.groups }
    {
        group_of(object.text().as_bytes(), self.config.groups) as usize
    }

    /// Opens a session: the first is client 1, the next 2, and so on. None after 64. No clause says
    /// the order, nor when there is none.
    pub fn open(&self) -> Option<OpenedSession<N>>
        ensures { IfSome result (λ o. (o.client ≤ 64) × (o.seen ≡ knows N.board [])) }
    {
        let opened = self.desk.lock(&self.rt).open(&self.board)?;
        // An answer that came before the session is lost.
        drop(self.mail(opened.client));
        Some(opened)
    }

    /// Takes out of the client's mailbox the answer that was put in last.
    pub fn mail(&self, client: ClientId) -> Option<Post<N>> {
        let place = (client.get() - 1) as usize;
        self.mail.get(place)?.take(&self.rt)
    }

    /// A node's part in a group, locked, if there is one and the node isn't stopped. What a node
    /// takes and sends goes through here, so what reaches a stopped node is lost, and it sends
    /// nothing again.
    fn awake(&self, node: NodeId, group: usize) -> Option<MutexGuard<'_, GroupCell<N>>> {
        let node = self.nodes.get(node.get() as usize)?;
        let cell = node.cell(group)?.lock(&self.rt);
        // Under the lock, since the node may be stopped while a worker waits for it.
        if node.is_stopped() {
            return None;
        }
        Some(cell)
    }

    /// A node's part in a group, if there is one.
    fn cell(&self, node: NodeId, group: usize) -> Option<&Mutex<GroupCell<N>>>
        ensures { MatchOption result (IsMissing N.config node group) (λ _. IsThere N.config node group) }
    {
        self.nodes.get(node.get() as usize)?.cell(group)
    }
}

//! From the parts of a cluster to a running one.

ghost use Rattle.std.specs.Prelude.{◌≡◌, ◌*◌, ◌+◌, ◌<◌, ◌≤◌, IfOk, OnOk, All, vec_len};
ghost use Rattle.osd.specs.Unnamed.{IsUnused};

use crate::cluster_parts::{AllQueues, ClusterParts, Maps, Rows};
use crate::config::Config;
use crate::desk::Desk;
use crate::limits::SESSION_LIMIT;
use crate::mailbox::Mailbox;
use crate::monitors::Monitors;
use crate::name::ClusterName;
use crate::newest::Newest;
use crate::node::Node;
use crate::nudges::Nudges;
use crate::primaries::Primaries;
use crate::queued::Queued;
use crate::running::Running;
use crate::sends::Sends;
use crate::worker::{Worker, WorkerPlace};
use commit_board::{NoMemory, Writer};
use group_cell::GroupCell;
use op_shards::{Bell, Schedule, SendPass, Sleepers, TakePass};
use peering::GroupNode;
use pg_log::ClassTable;
use placement::NodeId;
use std::alloc::{AllocError, Global};
use std::sync::atomic::AtomicU64;
use std::sync::{Mutex, Wait};

impl<N: ClusterName, R: Wait + Drop> Running<N, R> {
    /// A cluster by its parts, with the classes that are loaded. Each acting node of each group is
    /// handed its map. `play` names most clusters; this is for who brings threads that start
    /// threads, which a `Scenario` can't.
    ///
    /// The names are those of the parts and of the table.
    #[rattlefmt::skip]
    pub fn named(
        alloc: Global,
        rt: R,
        parts: ClusterParts,
        table: ClassTable,
    ) -> Result<Running<N, R>, NoMemory>
        requires board { parts.board ≡ N.board }
        requires queues { parts.queues ≡ N.queues }
        requires config { parts.config ≡ N.config }
        requires table { table ≡ N.classes }
        ensures { IfOk result (λ r. r ≡ parts.config) }
    {
        // The call names the cluster, not a constructor of its parts: a call picks the names of
        // values that are there already. So classes are loaded before the cluster has a name, and
        // none after.
        let (config, rows, queues, maps) = parts.into_pieces();
        let Rows { board, mut writers, seen } = rows;
        let AllQueues { shards, sends, takes } = queues;
        let made = made_of::<N>(alloc, &config, &mut writers, sends, takes)?;
        let Made { nodes, mail, of_monitors, of_sessions, workers, nudges, primaries } = made;
        let Maps { book, newest } = maps;
        let running = Running {
            alloc,
            rt,
            config,
            board,
            table,
            shards,
            nodes,
            mail,
            desk: Mutex::new(Desk::new(seen, of_sessions)),
            monitors: Mutex::new(Monitors::new(book, of_monitors)),
            newest: Mutex::new(Newest::new(newest)),
            workers,
            schedule: Schedule::of(AtomicU64::new(0), AtomicU64::new(0)),
            bell: Bell::of(AtomicU64::new(0), AtomicU64::new(0), Sleepers::new()),
            nudges,
            primaries,
        };
        running.tell_first();
        Ok(running)
    }

    /// Hands each group's first map to its acting nodes.
    fn tell_first(&self) {
        let mut monitors = self.monitors.lock(&self.rt);
        self.tell_all(&mut monitors.sends);
    }
}

/// The values of a cluster that are made when it gets its name.
// All calls that memory may be refused to stand in `made_of`: each of them is a way out that drops
// all that is owned there, and the caller owns much more.
struct Made<N: ClusterName> {
    nodes: Vec<Node<N>>,
    mail: Vec<Mailbox<N>>,
    /// The monitors' sender.
    of_monitors: Sends<N>,
    /// A sender for each session.
    of_sessions: Vec<Sends<N>>,
    workers: Vec<WorkerPlace<N>>,
    nudges: Nudges,
    primaries: Primaries,
}

/// Those values, by the tokens and the passes of the parts.
fn made_of<N: ClusterName>(
    alloc: Global,
    config: &Config,
    writers: &mut Vec<Writer>,
    sends: Vec<SendPass<Queued>>,
    takes: Vec<TakePass<Queued>>,
) -> Result<Made<N>, AllocError>
    requires config { config.now ≡ N.config }
    requires writers { vec_len writers.old ≡ config.now.nodes * config.now.groups }
    requires unused { All (IsUnused N.board) writers.old.items }
    requires sends { (vec_len sends ≡ 65 + config.now.workers) × All (λ s. s.queues ≡ N.queues) sends.items }
    requires takes { (vec_len takes ≡ config.now.workers) × All (λ t. t.queues ≡ N.queues) takes.items }
    ensures nodes { IfOk result (λ m. vec_len m.nodes ≡ config.now.nodes) }
    ensures sessions { IfOk result (λ m. vec_len m.of_sessions ≡ 64) }
{
    let mut senders = senders_of::<N>(alloc, sends)?;
    let of_monitors = senders.pop().unwrap();
    let workers = workers_of::<N>(alloc, &mut senders, takes)?;
    let nodes = nodes_of::<N>(alloc, config, writers)?;
    let mail = mailboxes::<N>(alloc)?;
    let nudges = Nudges::new(alloc, config.groups as usize)?;
    let primaries = Primaries::new(alloc, config.groups as usize)?;
    Ok(Made {
        nodes,
        mail,
        of_monitors,
        of_sessions: senders,
        workers,
        nudges,
        primaries,
    })
}

/// The nodes, each with a cell for each group, which takes one of the writers.
fn nodes_of<N: ClusterName>(
    alloc: Global,
    config: &Config,
    writers: &mut Vec<Writer>,
) -> Result<Vec<Node<N>>, AllocError>
    requires config { config.now ≡ N.config }
    requires writers { vec_len writers.old ≡ config.now.nodes * config.now.groups }
    requires unused { All (IsUnused N.board) writers.old.items }
    ensures { IfOk result (λ v. vec_len v ≡ config.now.nodes) }
{
    let mut nodes = Vec::new(alloc);
    for number in 0..config.nodes {
        let node = NodeId::new(number);
        let cells = cells_of::<N>(alloc, node, config.groups as usize, writers)?;
        nodes.push(Node::new(cells))?;
    }
    Ok(nodes)
}

/// A node's cells.
fn cells_of<N: ClusterName>(
    alloc: Global,
    node: NodeId,
    groups: usize,
    writers: &mut Vec<Writer>,
) -> Result<Vec<Mutex<GroupCell<N>>>, AllocError>
    requires writers { groups ≤ vec_len writers.old }
    requires unused { All (IsUnused N.board) writers.old.items }
    ensures cells { IfOk result (λ v. vec_len v ≡ groups) }
    ensures writers { OnOk result (vec_len writers.new + groups ≡ vec_len writers.old) }
    ensures unused { All (IsUnused N.board) writers.new.items }
{
    let mut cells = Vec::new(alloc);
    for group in 0..groups {
        let writer = next_writer::<N>(writers);
        let cell = GroupCell::new(GroupNode::new(alloc, node), writer);
        cells.push(Mutex::new(cell))?;
    }
    Ok(cells)
}

/// The next of the writers.
fn next_writer<N: ClusterName>(writers: &mut Vec<Writer>) -> Writer
    requires some { 0 < vec_len writers.old }
    requires unused { All (IsUnused N.board) writers.old.items }
    ensures writer { IsUnused N.board result }
    ensures unused { All (IsUnused N.board) writers.new.items }
    ensures rest { vec_len writers.new + 1 ≡ vec_len writers.old }
{
    writers.pop().unwrap()
}

/// An empty mailbox for each session.
fn mailboxes<N: ClusterName>(alloc: Global) -> Result<Vec<Mailbox<N>>, AllocError> {
    let mut mail = Vec::new(alloc);
    for _ in 0..SESSION_LIMIT {
        mail.push(Mailbox::new())?;
    }
    Ok(mail)
}

/// The senders by their passes.
fn senders_of<N: ClusterName>(
    alloc: Global,
    mut passes: Vec<SendPass<Queued>>,
) -> Result<Vec<Sends<N>>, AllocError>
    requires { All (λ p. p.queues ≡ N.queues) passes.items }
    ensures { IfOk result (λ v. vec_len v ≡ vec_len passes) }
{
    let mut senders = Vec::new(alloc);
    let count = passes.len();
    for sender in 0..count {
        senders.push(Sends::new(passes.pop().unwrap()))?;
    }
    Ok(senders)
}

/// The workers by their passes. Each takes one of the senders.
fn workers_of<N: ClusterName>(
    alloc: Global,
    senders: &mut Vec<Sends<N>>,
    mut passes: Vec<TakePass<Queued>>,
) -> Result<Vec<WorkerPlace<N>>, AllocError>
    requires passes { All (λ p. p.queues ≡ N.queues) passes.items }
    requires senders { vec_len passes ≤ vec_len senders.old }
    ensures senders { OnOk result (vec_len senders.new + vec_len passes ≡ vec_len senders.old) }
{
    let mut workers = Vec::new(alloc);
    let count = passes.len();
    for number in 0..count {
        let takes = next_taker::<N>(&mut passes);
        let sends = senders.pop().unwrap();
        let worker = Worker::new(number, takes, sends);
        workers.push(WorkerPlace::new(worker))?;
    }
    Ok(workers)
}

/// The next of the takers' passes.
fn next_taker<N: ClusterName>(passes: &mut Vec<TakePass<Queued>>) -> TakePass<Queued>
    requires some { 0 < vec_len passes.old }
    requires passes { All (λ p. p.queues ≡ N.queues) passes.old.items }
    ensures taker { result.queues ≡ N.queues }
    ensures passes { All (λ p. p.queues ≡ N.queues) passes.new.items }
    ensures rest { vec_len passes.new + 1 ≡ vec_len passes.old }
{
    passes.pop().unwrap()
}

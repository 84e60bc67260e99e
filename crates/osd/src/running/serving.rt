//! What a worker does: it takes operations of shards, and sends what comes of each.

ghost use Rattle.std.specs.Prelude.{◌≡◌, ◌<◌, length, IfOk};
ghost use Rattle.osd.specs.Gates.{gate_number};
ghost use Rattle.osd.specs.Sent.{OnlySent, IsAny};
ghost use Rattle.osd.specs.Turned.{WasTurn, IsLostOrTurn};

use crate::cause::Cause;
use crate::delivery::{Delivery, Origin};
use crate::fate::{Fate, PassAll};
use crate::gate::Gate;
use crate::name::ClusterName;
use crate::running::Running;
use crate::worker::{Due, Worker};
use carried::{Carried, Operation};
use group_cell::Outgoing;
use placement::NodeId;
use std::hint::spin_loop;
use std::sync::Wait;

/// The number of shards that a worker which found nothing looks at again before it waits. That
/// takes about as long as to wait and to be woken, and the next operation of a client that calls
/// again and again comes meanwhile.
const SPINS: usize = 128;

/// The most operations of a shard that a worker serves in a row. A call on three replicas is five,
/// of one shard.
const ROW: usize = 64;

/// A worker's operations of a shard, one after another.
#[derive(Clone, Copy)]
struct Row {
    /// It has served one.
    has_begun: bool,
    /// The queue was empty at the end.
    is_empty: bool,
}

/// The number by which a gate knows an operation: for a client's request the client's number times
/// 2^32 and the request's number, else 0.
fn gate_number(carried: &Carried) -> u64
    ensures { result ≡ gate_number carried.now }
{
    match carried {
        Carried::Request(request) => {
            (u64::from(request.client().get()) << 32) + u64::from(request.number().get())
        }
        Carried::Map(_) | Carried::Message(_) => 0,
    }
}

/// The shard after this one, in rotation.
fn next_shard(shard: usize, shards: usize) -> usize
    requires { shard < shards }
    ensures { result < shards }
{
    if shard + 1 == shards { 0 } else { shard + 1 }
}

impl<N: ClusterName, R: Wait> Running<N, R> {
    /// Serves as a worker until `finish`. It returns at once if the number is no worker's, or
    /// was served already.
    pub fn serve<G: Gate>(&self, worker: usize, gate: &G) {
        self.serve_with(worker, gate, &PassAll);
    }

    /// Serves as a worker until `finish`, under a fate. It returns at once if the number is no
    /// worker's, or was served already.
    pub fn serve_with<G: Gate, F: Fate>(&self, worker: usize, gate: &G, fate: &F) {
        let Some(mut worker) = self.worker(worker) else {
            return;
        };
        for _ in self.rt.forever() {
            // The count comes first: `finish` sets its flag before it raises the count, so one of
            // the two shows it.
            let count = self.bell.count();
            if self.bell.is_finished() {
                break;
            }
            if !self.round(&mut worker, gate, fate) && !self.finds_work(&mut worker) {
                self.bell.wait(&self.rt, count);
            }
        }
    }

    /// Has all workers end.
    pub fn finish(&self) {
        self.bell.finish(&self.rt);
    }

    /// The worker of that number, once.
    fn worker(&self, number: usize) -> Option<Worker<N>> {
        self.workers.get(number)?.take(&self.rt)
    }

    /// Serves each shard for a while, beginning at the worker's own number modulo the number of
    /// shards. Answers whether there was an operation.
    fn round<G: Gate, F: Fate>(&self, worker: &mut Worker<N>, gate: &G, fate: &F) -> bool
        ensures { OnlySent worker.old worker.new IsAny }
    {
        let shards = self.shards.count();
        let mut shard = worker.number % shards;
        let mut found = false;
        for _ in 0..shards {
            let taken = self.take_turn(worker, gate, fate, shard);
            found = found || taken;
            shard = next_shard(shard, shards);
        }
        found
    }

    /// Looks at the shards again for a while. Answers whether one that nobody serves may have an
    /// operation, or the workers are to end.
    fn finds_work(&self, worker: &mut Worker<N>) -> bool {
        let shards = self.shards.count();
        for look in 0..SPINS {
            let shard = look % shards;
            let is_claimed = self.schedule.is_claimed(shard);
            if !is_claimed && !self.shards.is_empty(&mut worker.takes, shard) {
                return true;
            }
            spin_loop();
        }
        self.bell.is_finished()
    }

    /// Serves a shard for a while. Answers whether there was an operation. A shard is served by one
    /// worker at a time, so that what nodes send arrives in its order; one that another worker
    /// serves is skipped.
    fn take_turn<G: Gate, F: Fate>(
        &self,
        worker: &mut Worker<N>,
        gate: &G,
        fate: &F,
        shard: usize,
    ) -> bool
        requires { shard < length N.queues.names }
        ensures { OnlySent worker.old worker.new IsAny }
    {
        if self.shards.is_empty(&mut worker.takes, shard) {
            return false;
        }
        // Two workers at one shard could bring a member the second of two Reps first. It ignores
        // that one, and only a nudge mends that.
        if !self.schedule.claim(shard) {
            return false;
        }
        worker.sends.set_claimed(Some(shard));
        let row = self.serve_row(worker, gate, fate, shard);
        worker.sends.set_claimed(None);
        self.release(shard, !row.is_empty);
        row.has_begun
    }

    /// Releases a shard. It rings if another worker skipped the shard, or if operations may be left
    /// there for which nobody rang.
    fn release(&self, shard: usize, may_have_left: bool) {
        if self.schedule.release(shard) || may_have_left {
            self.bell.ring(&self.rt);
        }
    }

    /// Takes an operation of a shard and serves it. If no other waits there then, it goes on with
    /// what comes, until the queue is empty, but `ROW` in a row at most. So what its turns put into
    /// the queue is served in the same row, and nobody rings for it. Else the others wait until the
    /// other shards had their turn.
    fn serve_row<G: Gate, F: Fate>(
        &self,
        worker: &mut Worker<N>,
        gate: &G,
        fate: &F,
        shard: usize,
    ) -> Row
        requires { shard < length N.queues.names }
        ensures { OnlySent worker.old worker.new IsAny }
    {
        let mut row = Row {
            has_begun: false,
            is_empty: false,
        };
        for _ in 0..ROW {
            if !self.serve_one(worker, gate, fate, shard, &mut row) {
                return row;
            }
        }
        row
    }

    /// Takes an operation of a shard and serves it, if there is one. Answers whether the row goes
    /// on.
    fn serve_one<G: Gate, F: Fate>(
        &self,
        worker: &mut Worker<N>,
        gate: &G,
        fate: &F,
        shard: usize,
        row: &mut Row,
    ) -> bool
        requires { shard < length N.queues.names }
        ensures { OnlySent worker.old worker.new IsAny }
    {
        let Some(queued) = self.shards.take(&self.rt, &mut worker.takes, shard) else {
            row.is_empty = true;
            return false;
        };
        let goes_on = self.may_go_on(worker, row.has_begun, shard);
        let cause = queued.cause();
        let operation = queued.into_operation();
        let group = operation.group;
        // Earlier turns of the row may have put in operations that wait now.
        self.ask_gate(gate, shard, row.has_begun, gate_number(&operation.carried));
        self.turn(worker, fate, cause, operation);
        self.nudges.remove(group, cause);
        row.has_begun = true;
        goes_on
    }

    /// True if a row goes on after the operation that was taken: it has begun, or no other waits.
    fn may_go_on(&self, worker: &mut Worker<N>, has_begun: bool, shard: usize) -> bool
        requires { shard < length N.queues.names }
        ensures { worker.new ≡ worker.old }
    {
        // An early return, since a proof loses what two branches know of the worker.
        if has_begun {
            return true;
        }
        self.shards.is_empty(&mut worker.takes, shard)
    }

    /// Asks the gate. The other workers have the shard while it keeps a client's request.
    fn ask_gate<G: Gate>(&self, gate: &G, shard: usize, may_have_left: bool, number: u64) {
        if number == 0 || !gate.may_keep() {
            gate.before(number);
            return;
        }
        self.release(shard, may_have_left);
        gate.before(number);
        self.schedule.reclaim(&self.rt, shard);
    }

    /// Serves one operation.
    fn turn<F: Fate>(&self, worker: &mut Worker<N>, fate: &F, cause: Cause, operation: Operation)
        ensures { OnlySent worker.old worker.new IsAny }
    {
        let Operation {
            group,
            node,
            carried,
        } = operation;
        let origin = Origin {
            cause,
            group,
            sender: node,
        };
        for outgoing in self.handle(group, node, carried) {
            self.send(worker, fate, &origin, outgoing);
        }
    }

    /// The messages that go out by a turn of a node's cell with what reaches it; none if that is
    /// lost. It is lost if the node is stopped, or if memory is refused.
    fn handle(&self, group: usize, node: NodeId, carried: Carried) -> Vec<Option<Outgoing<N>>>
        ensures { IsLostOrTurn N.classes carried result.items }
    {
        let nothing = Vec::new(self.alloc);
        let Some(mut cell) = self.awake(node, group) else {
            return nothing;
        };
        match cell.turn(self.alloc, &self.board, &self.table, carried) {
            Ok(out) => out,
            Err(_) => nothing,
        }
    }

    /// Sends what a node sends, as the fate has it. There is nothing if memory for it was refused.
    fn send<F: Fate>(
        &self,
        worker: &mut Worker<N>,
        fate: &F,
        origin: &Origin,
        outgoing: Option<Outgoing<N>>,
    )
        ensures { OnlySent worker.old worker.new IsAny }
    {
        let Some(outgoing) = outgoing else {
            return;
        };
        let Due { now, again, late } = worker.due(self.alloc, fate, origin, outgoing);
        self.deliver(&mut worker.sends, origin, now);
        self.deliver(&mut worker.sends, origin, again);
        if let Some(Delivery { origin, outgoing }) = late {
            self.deliver(&mut worker.sends, &origin, Some(outgoing));
        }
    }
}

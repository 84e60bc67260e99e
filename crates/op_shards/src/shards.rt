//! The queues of all shards, as senders and takers use them.

ghost use Rattle.std.specs.Prelude.{◌≡◌, ◌<◌, ◌≤◌, ◌-◌, ◌%◌, length, map, All, IfOk, OnOk, IsTrue, MatchOption};
ghost use Rattle.std.specs.Prelude.{MatchResult};
ghost use Rattle.crossbeam_queue.specs.Passes.{ruled_capacity};
ghost use Rattle.std.specs.List.{range_with_len};
ghost use Rattle.op_shards.specs.declared.rule.Ranked.{Ranked};
ghost use Rattle.op_shards.specs.Order.{queue_position, of, IsPartOf, AreFirstOf, IsHere, IsNextAfter};
ghost use Rattle.op_shards.specs.Passes.{name, names, queues_of, spots, spot_of, shard_of, at_shard, free_end_state};
ghost use Rattle.op_shards.specs.Passes.{new_sender, new_taker, after_submit, after_take, after_gather, Grew, WasSent};
ghost use Rattle.op_shards.specs.Passes.{SenderWasKept, SenderWasKeptAt, TakerWasKept, TakerWasKeptAt};

use crate::group_op::GroupOp;
use crate::pass::{Members, SendPass, TakePass, new_send_passes, new_take_passes};
use crate::queue_end::FreeEnd;
use crate::rule::{Placed, Queue};
use crossbeam_queue::RuledArrayQueue;
use std::alloc::{AllocError, Global};
use std::marker::{Brand, Model};
use std::sync::Wait;
use txn::NoMemory;

// It keeps no runtime: each call is handed the one by which it locks and waits.

/// A bounded queue for each shard. An operation's shard is the number of its group modulo the
/// number of shards. To a contract it is the queues by shard, how many senders and takers have
/// passes of them, and how many operations each holds at most.
pub struct OpShards<T: GroupOp> {
    places: usize,
    senders: usize,
    takers: usize,
    queues: Vec<Queue<T>>,
}

// Written out, here and at the passes, so that a crate that drops one calls this and needn't prove
// again how queues and their ends are dropped.
impl<T: GroupOp> Drop for OpShards<T> {
    fn drop(self) {
        let OpShards {
            places: _,
            senders: _,
            takers: _,
            queues,
        } = self;
        drop(queues);
    }
}

impl<T: GroupOp> Model for OpShards<T> {
    ghost use Rattle.std.specs.Prelude.{◌≡◌, ◌<◌, length, All};
    ghost use Rattle.crossbeam_queue.specs.Passes.{ruled_capacity};
    ghost use Rattle.op_shards.specs.Passes.{names, queues_of, Shards};

    ghost Value = { Shards };

    ghost view = { λ s. record { queues = queues_of (names s.queues.items) s.senders s.takers; places = s.places } };

    ghost invariant = { λ s. (0 < length s.queues.items) × All (λ q. ruled_capacity q ≡ s.places) s.queues.items };
}

impl<T: GroupOp> OpShards<T> {
    /// Empty queues of `places` places each, and a pass of all of them for each sender and each
    /// taker.
    pub fn new(
        alloc: Global,
        shards: usize,
        places: usize,
        senders: usize,
        takers: usize,
    ) -> Result<(OpShards<T>, Vec<SendPass<T>>, Vec<TakePass<T>>), NoMemory>
        requires shards { 0 < shards }
        requires places { 0 < places }
        ensures shards { IfOk result (λ r. (length r.0.queues.names ≡ shards) × (r.0.queues.senders ≡ senders) ×
            (r.0.queues.takers ≡ takers) × (r.0.places ≡ places)) }
        ensures senders { IfOk result (λ r. r.1.items ≡ map (new_sender r.0.queues) (range_with_len 0 senders)) }
        ensures takers { IfOk result (λ r. r.2.items ≡ map (λ _. new_taker r.0.queues) (range_with_len 0 takers)) }
    {
        let members = Members { senders, takers };
        let (queues, mut free_ends) = open_all(alloc, shards, places, members)?;
        let send_passes = new_send_passes(alloc, &queues, &mut free_ends, members)?;
        let take_passes = new_take_passes(alloc, &queues, &mut free_ends, members)?;
        let shards = OpShards {
            places,
            senders,
            takers,
            queues,
        };
        Ok((shards, send_passes, take_passes))
    }

    /// The number of shards, which is above 0.
    pub fn count(&self) -> usize
        ensures count { result ≡ length self.now.queues.names }
        ensures some { 0 < result }
    {
        self.queues.len()
    }

    /// Puts the operation at the end of the queue of its group's shard. Full: it comes back, and
    /// only if that queue was full at one moment: of the call, which the contract can't say. The
    /// pass has all that it had, and with an accepted operation one more: `sending_goes_on` says
    /// how this adds up over many calls.
    pub fn submit<R: Wait>(&self, rt: &R, pass: &mut SendPass<T>, op: T) -> Result<(), T>
        requires { pass.old.queues ≡ self.now.queues }
        ensures queues { pass.new.queues ≡ pass.old.queues }
        ensures answer { let shard = T.group op % length self.now.queues.names in
            MatchResult result
            (λ _. (pass.new ≡ after_submit pass.old shard op) × SenderWasKept T.group pass.new shard)
            (λ x. (x ≡ op) × (pass.new ≡ pass.old) × SenderWasKeptAt T.group self.now.places pass.old shard) }
        ensures grew { Grew pass.old pass.new }
        ensures sent { OnOk result (WasSent pass.old pass.new (λ x. x ≡ op)) }
    {
        let shard = op.group() % self.queues.len();
        let queue = &self.queues[shard];
        pass.push(rt, queue, shard, op)
    }

    /// Takes an operation from the front of the shard's queue, and adds it to the pass. It is of
    /// one of the senders and of that shard, and after all operations of its sender that the pass
    /// has there. None, and the pass as it was, only if that queue was empty at one moment: of the
    /// call, which the contract can't say.
    pub fn take<R: Wait>(&self, rt: &R, pass: &mut TakePass<T>, shard: usize) -> Option<T>
        requires pass { pass.old.queues ≡ self.now.queues }
        requires shard { shard < length self.now.queues.names }
        ensures queues { pass.new.queues ≡ pass.old.queues }
        ensures takers { pass.new.takers ≡ pass.old.takers }
        ensures answer { MatchOption result
            ((pass.new ≡ pass.old) × TakerWasKeptAt T.group 0 pass.old shard)
            (λ op. (x : Ranked T) × (x.op ≡ op) × (pass.new ≡ after_take pass.old shard x)
            × IsHere T.group (shard_of self.now.queues shard) x × IsNextAfter (at_shard pass.old.taken shard) x
            × TakerWasKept T.group pass.new shard) }
    {
        let queue = &self.queues[shard];
        match pass.pop(rt, queue, shard) {
            Some(ranked) => Some(ranked.op),
            None => None,
        }
    }

    /// True only if the shard's queue was empty at one moment, of the call, which the contract
    /// can't say. Of false nothing is said, since another taker may have taken the last operation
    /// meanwhile. Nothing changes, and nobody is waited for.
    pub fn is_empty(&self, pass: &mut TakePass<T>, shard: usize) -> bool
        requires pass { pass.old.queues ≡ self.now.queues }
        requires shard { shard < length self.now.queues.names }
        ensures same { pass.new ≡ pass.old }
        ensures held { IsTrue result → TakerWasKeptAt T.group 0 pass.old shard }
    {
        let queue = &self.queues[shard];
        pass.is_empty(queue, shard)
    }

    /// The number of places of the shard's queue that are free at one moment, of the call, which
    /// the contract can't say. Nothing changes.
    pub fn free_places<R: Wait>(&self, rt: &R, pass: &mut SendPass<T>, shard: usize) -> usize
        requires pass { pass.old.queues ≡ self.now.queues }
        requires shard { shard < length self.now.queues.names }
        ensures same { pass.new ≡ pass.old }
        ensures most { result ≤ self.now.places }
        ensures held { SenderWasKeptAt T.group (self.now.places - result) pass.old shard }
    {
        let queue = &self.queues[shard];
        self.places - pass.len(rt, queue, shard)
    }

    /// Puts the other taker's pass together with this one: what it took, to be compared whole.
    pub fn gather(&self, takes: &mut TakePass<T>, other: TakePass<T>)
        requires takes { takes.old.queues ≡ self.now.queues }
        requires other { other.queues ≡ self.now.queues }
        ensures { takes.new ≡ after_gather takes.old other }
    {
        takes.gather(&self.queues, other);
    }

    /// Each operation that was taken of a sender in a shard was accepted there at least as often.
    /// Those that all takers together took are the first that were accepted, each once. Nothing
    /// changes.
    pub fn compare(&self, sends: &mut SendPass<T>, takes: &mut TakePass<T>, shard: usize)
        requires sends { sends.old.queues ≡ self.now.queues }
        requires takes { takes.old.queues ≡ self.now.queues }
        requires shard { shard < length self.now.queues.names }
        ensures same { (sends.new ≡ sends.old) × (takes.new ≡ takes.old) }
        ensures accepted { IsPartOf (of sends.old.sender (at_shard takes.old.taken shard))
            (at_shard sends.old.accepted shard) }
        ensures first { takes.old.takers ≡ self.now.queues.takers →
            AreFirstOf (of sends.old.sender (at_shard takes.old.taken shard)) (at_shard sends.old.accepted shard) }
    {
        let queue = &self.queues[shard];
        sends.compare(queue, takes, shard);
    }
}

// A queue for each shard, and the end of each that has all its senders and takers.
fn open_all<T: GroupOp>(
    alloc: Global,
    shards: usize,
    places: usize,
    members: Members,
) -> Result<(Vec<Queue<T>>, Vec<FreeEnd<T>>), AllocError>
    requires shards { 0 < shards }
    requires places { 0 < places }
    ensures queues { IfOk result (λ r. (length r.0.items ≡ shards) × All (λ q. ruled_capacity q ≡ places) r.0.items) }
    ensures free_ends { IfOk result (λ r. r.1.items ≡
        map (free_end_state 0 members.takers) (spots (queues_of (names r.0.items) members.senders members.takers))) }
{
    let mut queues = Vec::new(alloc);
    let mut free_ends = Vec::new(alloc);
    for shard in 0..shards {
        let (queue, free_end) = open::<T, Brand>(alloc, shard, shards, places, members)?;
        free_ends.push(free_end)?;
        queues.push(queue)?;
    }
    Ok((queues, free_ends))
}

// The queue of a shard. Its caller picks where the queue stands.
fn open<T: GroupOp, J: Placed>(
    alloc: Global,
    shard: usize,
    shards: usize,
    places: usize,
    members: Members,
) -> Result<(Queue<T>, FreeEnd<T>), AllocError>
    requires shards { shard < shards }
    requires places { 0 < places }
    requires place { J.place ≡ queue_position shard shards members.senders members.takers }
    ensures queue { IfOk result (λ r. ruled_capacity r.0 ≡ places) }
    ensures free_end { IfOk result (λ r. r.1 ≡ free_end_state 0 members.takers
        (spot_of (name r.0) (queue_position shard shards members.senders members.takers))) }
{
    let (queue, pass) = RuledArrayQueue::ruled(alloc, places)?;
    let free_end = FreeEnd::open::<J>(&queue, pass);
    Ok((queue, free_end))
}

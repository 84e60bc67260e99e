//! The pass of one sender or one taker: an end of each queue.

ghost use Rattle.std.specs.Prelude.{◌≡◌, ◌<◌, ◌≤◌, ◌+◌, ◌-◌, ◌%◌, length, map, slice_get, Some, IsTrue, MatchOption};
ghost use Rattle.std.specs.Prelude.{MatchResult, IfOk, OnOk};
ghost use Rattle.std.specs.List.{range_with_len};
ghost use Rattle.crossbeam_queue.specs.Passes.{ruled_capacity};
ghost use Rattle.op_shards.specs.Order.{of, IsPartOf, AreFirstOf, IsHere, IsNextAfter};
ghost use Rattle.op_shards.specs.Passes.{at_shard, name, names, queues_of, spots, shard_of, free_end_state, new_sender};
ghost use Rattle.op_shards.specs.Passes.{new_taker, after_submit, after_take, after_gather, join_ends, SenderWasKept};
ghost use Rattle.op_shards.specs.Passes.{SenderWasKeptAt, TakerWasKept, TakerWasKeptAt};

use crate::group_op::GroupOp;
use crate::queue_end::{FreeEnd, SendEnd, TakeEnd};
use crate::rule::{Queue, Ranked};
use std::alloc::{AllocError, Global};
use std::marker::Model;
use std::sync::Wait;

/// A sender's right to send, and the record of what it sent. To a contract it is the queues that it
/// came with, the sender's number, and what each accepted of it.
pub struct SendPass<T> {
    sender: u64,
    senders: usize,
    takers: usize,
    ends: Vec<SendEnd<T>>,
}

impl<T: Drop> Drop for SendPass<T> {
    fn drop(self) {
        let SendPass {
            sender: _,
            senders: _,
            takers: _,
            ends,
        } = self;
        drop(ends);
    }
}

impl<T> Model for SendPass<T> {
    ghost use Rattle.std.specs.Prelude.{◌≡◌, map, All};
    ghost use Rattle.op_shards.specs.Passes.{Sender, queues_of, spots};

    ghost Value = { Sender T };

    ghost view = { λ s. record {
      queues = queues_of (map (λ l. l.spot.queue) s.ends.items) s.senders s.takers;
      sender = s.sender;
      accepted = map (λ l. l.accepted) s.ends.items;
    } };

    ghost invariant = { λ s. (map (λ l. l.spot) s.ends.items ≡
        spots (queues_of (map (λ l. l.spot.queue) s.ends.items) s.senders s.takers)) ×
        All (λ l. l.sender ≡ s.sender) s.ends.items };
}

/// A taker's right to take, or that of several whose passes were put together, and the record of
/// what was taken. To a contract it is the queues that it came with, how many takers it is, and
/// what they took of each.
pub struct TakePass<T> {
    senders: usize,
    takers: usize,
    ends: Vec<TakeEnd<T>>,
}

impl<T: Drop> Drop for TakePass<T> {
    fn drop(self) {
        let TakePass {
            senders: _,
            takers: _,
            ends,
        } = self;
        drop(ends);
    }
}

impl<T> Model for TakePass<T> {
    ghost use Rattle.std.specs.Prelude.{◌≡◌, ◌<◌, map, All};
    ghost use Rattle.op_shards.specs.Passes.{Taker, queues_of, spots, parts_of};

    ghost Value = { Taker T };

    ghost view = { λ s. record {
      queues = queues_of (map (λ l. l.spot.queue) s.ends.items) s.senders s.takers;
      takers = parts_of s.ends.items;
      taken = map (λ l. l.taken) s.ends.items;
    } };

    ghost invariant = { λ s. (map (λ l. l.spot) s.ends.items ≡
        spots (queues_of (map (λ l. l.spot.queue) s.ends.items) s.senders s.takers)) × (0 < parts_of s.ends.items) ×
        All (λ l. l.parts ≡ parts_of s.ends.items) s.ends.items };
}

impl<T: GroupOp> SendPass<T> {
    /// Puts the operation into the queue of this shard. The pass has a list for each shard.
    pub(crate) fn push<R: Wait>(
        &mut self,
        rt: &R,
        queue: &Queue<T>,
        shard: usize,
        op: T,
    ) -> Result<(), T>
        requires queue { slice_get self.old.queues.names shard ≡ Some (name queue.now) }
        requires here { T.group op % length self.old.queues.names ≡ shard }
        ensures lists { length self.old.accepted ≡ length self.old.queues.names }
        ensures answer { MatchResult result
            (λ _. (self.new ≡ after_submit self.old shard op) × SenderWasKept T.group self.new shard)
            (λ x. (x ≡ op) × (self.new ≡ self.old)
            × SenderWasKeptAt T.group (ruled_capacity queue.now) self.old shard) }
    {
        let sender = self.sender;
        let queue_end = &mut self.ends[shard];
        queue_end.push(rt, queue, sender, op)
    }

    /// The number of operations that the queue of this shard holds at one moment.
    pub(crate) fn len<R: Wait>(&mut self, rt: &R, queue: &Queue<T>, shard: usize) -> usize
        requires { slice_get self.old.queues.names shard ≡ Some (name queue.now) }
        ensures same { self.new ≡ self.old }
        ensures most { result ≤ ruled_capacity queue.now }
        ensures held { SenderWasKeptAt T.group result self.old shard }
    {
        let queue_end = &mut self.ends[shard];
        queue_end.len(rt, queue)
    }

    /// Each operation that the taker took of this sender was accepted at least as often. Those that
    /// all takers together took are the first that were accepted.
    pub(crate) fn compare(&mut self, queue: &Queue<T>, other: &mut TakePass<T>, shard: usize)
        requires queue { slice_get self.old.queues.names shard ≡ Some (name queue.now) }
        requires same { other.old.queues ≡ self.old.queues }
        ensures same { (self.new ≡ self.old) × (other.new ≡ other.old) }
        ensures accepted { IsPartOf (of self.old.sender (at_shard other.old.taken shard))
            (at_shard self.old.accepted shard) }
        ensures first { other.old.takers ≡ other.old.queues.takers →
            AreFirstOf (of self.old.sender (at_shard other.old.taken shard)) (at_shard self.old.accepted shard) }
    {
        let mine = &mut self.ends[shard];
        let theirs = &mut other.ends[shard];
        mine.compare(queue, theirs);
    }
}

impl<T: GroupOp> TakePass<T> {
    /// Takes the oldest operation of this shard.
    pub(crate) fn pop<R: Wait>(
        &mut self,
        rt: &R,
        queue: &Queue<T>,
        shard: usize,
    ) -> Option<Ranked<T>>
        requires { slice_get self.old.queues.names shard ≡ Some (name queue.now) }
        ensures { MatchOption result
            ((self.new ≡ self.old) × TakerWasKeptAt T.group 0 self.old shard)
            (λ x. (self.new ≡ after_take self.old shard x) × IsHere T.group (shard_of self.old.queues shard) x
            × IsNextAfter (at_shard self.old.taken shard) x × TakerWasKept T.group self.new shard) }
    {
        let queue_end = &mut self.ends[shard];
        queue_end.pop(rt, queue)
    }

    /// True only if the queue of this shard was empty at one moment.
    pub(crate) fn is_empty(&mut self, queue: &Queue<T>, shard: usize) -> bool
        requires { slice_get self.old.queues.names shard ≡ Some (name queue.now) }
        ensures same { self.new ≡ self.old }
        ensures held { IsTrue result → TakerWasKeptAt T.group 0 self.old shard }
    {
        let queue_end = &mut self.ends[shard];
        queue_end.is_empty(queue)
    }

    /// Takes over what the other took of each shard, and its takers.
    pub(crate) fn gather(&mut self, queues: &Vec<Queue<T>>, other: TakePass<T>)
        requires queues { self.old.queues.names ≡ names queues.now.items }
        requires other { other.queues ≡ self.old.queues }
        ensures { self.new ≡ after_gather self.old other }
    {
        let TakePass {
            senders: _,
            takers: _,
            ends,
        } = other;
        gather_ends(queues, &mut self.ends, ends);
    }
}

// Puts two takers' ends of each queue together.
fn gather_ends<T: GroupOp>(
    queues: &Vec<Queue<T>>,
    ends: &mut Vec<TakeEnd<T>>,
    mut others: Vec<TakeEnd<T>>,
)
    requires ends { map (λ l. l.spot.queue) ends.old.items ≡ names queues.now.items }
    requires others { map (λ l. l.spot) others.items ≡ map (λ l. l.spot) ends.old.items }
    ensures { ends.new.items ≡ join_ends ends.old.items others.items }
{
    for i in 0..queues.len() {
        let queue = &queues[i];
        let queue_end = &mut ends[i];
        let other = &mut others[i];
        queue_end.gather(queue, other);
    }
}

/// The numbers of senders and of takers that have passes of the queues.
#[derive(Clone, Copy)]
pub(crate) struct Members {
    pub senders: usize,
    pub takers: usize,
}

// The next sender's pass.
fn next_send_pass<T: GroupOp>(
    alloc: Global,
    queues: &Vec<Queue<T>>,
    free_ends: &mut Vec<FreeEnd<T>>,
    members: Members,
    sender: u64,
) -> Result<SendPass<T>, AllocError>
    requires room { sender < members.senders }
    requires free_ends { free_ends.old.items ≡ map (free_end_state sender members.takers)
        (spots (queues_of (names queues.now.items) members.senders members.takers)) }
    ensures free_ends { OnOk result (free_ends.new.items ≡ map (free_end_state (sender + 1) members.takers)
        (spots (queues_of (names queues.now.items) members.senders members.takers))) }
    ensures pass { IfOk result
        (λ p. p ≡ new_sender (queues_of (names queues.now.items) members.senders members.takers) sender) }
{
    let mut ends = Vec::new(alloc);
    for i in 0..queues.len() {
        let queue = &queues[i];
        let free_end = &mut free_ends[i];
        ends.push(free_end.next_sender(queue))?;
    }
    Ok(SendPass {
        sender,
        senders: members.senders,
        takers: members.takers,
        ends,
    })
}

// One more taker's pass, of the `left` that have none yet.
fn next_take_pass<T: GroupOp>(
    alloc: Global,
    queues: &Vec<Queue<T>>,
    free_ends: &mut Vec<FreeEnd<T>>,
    members: Members,
    left: usize,
) -> Result<TakePass<T>, AllocError>
    requires some { 0 < length queues.now.items }
    requires room { 0 < left }
    requires free_ends { free_ends.old.items ≡ map (free_end_state members.senders left)
        (spots (queues_of (names queues.now.items) members.senders members.takers)) }
    ensures free_ends { OnOk result (free_ends.new.items ≡ map (free_end_state members.senders (left - 1))
        (spots (queues_of (names queues.now.items) members.senders members.takers))) }
    ensures pass { IfOk result
        (λ p. p ≡ new_taker (queues_of (names queues.now.items) members.senders members.takers)) }
{
    let mut ends = Vec::new(alloc);
    for i in 0..queues.len() {
        let queue = &queues[i];
        let free_end = &mut free_ends[i];
        ends.push(free_end.next_taker(queue))?;
    }
    Ok(TakePass {
        senders: members.senders,
        takers: members.takers,
        ends,
    })
}

/// The passes of all senders.
pub(crate) fn new_send_passes<T: GroupOp>(
    alloc: Global,
    queues: &Vec<Queue<T>>,
    free_ends: &mut Vec<FreeEnd<T>>,
    members: Members,
) -> Result<Vec<SendPass<T>>, AllocError>
    requires free_ends { free_ends.old.items ≡ map (free_end_state 0 members.takers)
        (spots (queues_of (names queues.now.items) members.senders members.takers)) }
    ensures free_ends { OnOk result (free_ends.new.items ≡ map (free_end_state members.senders members.takers)
        (spots (queues_of (names queues.now.items) members.senders members.takers))) }
    ensures passes { IfOk result (λ v. v.items ≡
        map (new_sender (queues_of (names queues.now.items) members.senders members.takers))
        (range_with_len 0 members.senders)) }
{
    let mut passes = Vec::new(alloc);
    for sender in 0..members.senders {
        let pass = next_send_pass(alloc, queues, free_ends, members, sender as u64)?;
        passes.push(pass)?;
    }
    Ok(passes)
}

/// The passes of all takers.
pub(crate) fn new_take_passes<T: GroupOp>(
    alloc: Global,
    queues: &Vec<Queue<T>>,
    free_ends: &mut Vec<FreeEnd<T>>,
    members: Members,
) -> Result<Vec<TakePass<T>>, AllocError>
    requires some { 0 < length queues.now.items }
    requires free_ends { free_ends.old.items ≡ map (free_end_state members.senders members.takers)
        (spots (queues_of (names queues.now.items) members.senders members.takers)) }
    ensures passes { IfOk result (λ v. v.items ≡ map
        (λ _. new_taker (queues_of (names queues.now.items) members.senders members.takers))
        (range_with_len 0 members.takers)) }
{
    let mut passes = Vec::new(alloc);
    for taker in 0..members.takers {
        let pass = next_take_pass(alloc, queues, free_ends, members, members.takers - taker)?;
        passes.push(pass)?;
    }
    Ok(passes)
}

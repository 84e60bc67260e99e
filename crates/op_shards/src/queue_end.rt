//! The ends of one queue: of senders, of takers, and the end that both come from.

ghost use Rattle.std.specs.Prelude.{◌≡◌, ◌<◌, ◌≤◌, ◌+◌, ◌-◌, ◌%◌, [], ◌∷◌, ◌++◌, length, IsTrue, MatchOption};
ghost use Rattle.std.specs.Prelude.{MatchResult};
ghost use Rattle.crossbeam_queue.specs.Fifo.{Held};
ghost use Rattle.crossbeam_queue.specs.Passes.{view, IsPassOf, ruled_capacity};
ghost use Rattle.op_shards.specs.Order.{sender, taker, free_end, unopened, of, IsPartOf, AreFirstOf, IsHere};
ghost use Rattle.op_shards.specs.Order.{IsNextAfter, KeptWith, WasKept};
ghost use Rattle.op_shards.specs.Passes.{name, ranked, spot_of};

use crate::group_op::GroupOp;
use crate::rule::{
    Meet, NextSender, NextTaker, Opened, Part, PassState, Placed, Put, Queue, Ranked, Take,
};
use crossbeam_queue::Pass;
use std::marker::Model;
use std::sync::Wait;

/// The end that has the senders and takers that have no pass yet.
#[derive(Drop)]
pub struct FreeEnd<T> {
    pass: Pass<Ranked<T>, PassState<T>>,
}

impl<T> Model for FreeEnd<T> {
    ghost use Rattle.std.specs.Prelude.{◌≡◌, ◌<◌, []};
    ghost use Rattle.op_shards.specs.Order.{free_end};
    ghost use Rattle.op_shards.specs.Passes.{FreeEndState, spot_of};

    ghost Value = { FreeEndState };

    ghost view = { λ s. record {
      spot = spot_of s.pass.table_id s.pass.me.0.client.place;
      next = s.pass.me.0.client.first;
      parts = s.pass.me.0.client.parts;
    } };

    ghost invariant = { λ s. (s.pass.me.0.client ≡
        free_end s.pass.me.0.client.place s.pass.me.0.client.first s.pass.me.0.client.parts) ×
        (0 < s.pass.me.0.client.place.shards) × (s.pass.me.1 ≡ []) };
}

/// A sender's end.
#[derive(Drop)]
pub struct SendEnd<T> {
    rank: u64,
    pass: Pass<Ranked<T>, PassState<T>>,
}

impl<T> Model for SendEnd<T> {
    ghost use Rattle.std.specs.Prelude.{◌≡◌, ◌<◌, [], length};
    ghost use Rattle.op_shards.specs.Order.{sender};
    ghost use Rattle.op_shards.specs.Passes.{Sent, spot_of};

    ghost Value = { Sent T };

    ghost view = { λ s. record {
      spot = spot_of s.pass.table_id s.pass.me.0.client.place;
      sender = s.pass.me.0.client.first;
      accepted = s.pass.me.0.client.put;
    } };

    ghost invariant = { λ s. (s.pass.me.0.client ≡
        sender s.pass.me.0.client.place s.pass.me.0.client.first s.pass.me.0.client.put) ×
        (0 < s.pass.me.0.client.place.shards) × (s.rank ≡ length s.pass.me.0.client.put) × (s.pass.me.1 ≡ []) };
}

/// A taker's end.
#[derive(Drop)]
pub struct TakeEnd<T> {
    pass: Pass<Ranked<T>, PassState<T>>,
}

impl<T> Model for TakeEnd<T> {
    ghost use Rattle.std.specs.Prelude.{◌≡◌, ◌<◌, []};
    ghost use Rattle.op_shards.specs.Order.{taker};
    ghost use Rattle.op_shards.specs.Passes.{Got, spot_of};

    ghost Value = { Got T };

    ghost view = { λ s. record {
      spot = spot_of s.pass.table_id s.pass.me.0.client.place;
      parts = s.pass.me.0.client.parts;
      taken = s.pass.me.0.client.got;
    } };

    ghost invariant = { λ s. (s.pass.me.0.client ≡
        taker s.pass.me.0.client.place s.pass.me.0.client.parts s.pass.me.0.client.got) ×
        (0 < s.pass.me.0.client.place.shards) × (s.pass.me.1 ≡ []) };
}

impl<T: GroupOp> FreeEnd<T> {
    /// All senders and takers of a new queue, at the place that the caller picks.
    pub fn open<J: Placed>(queue: &Queue<T>, pass: Pass<Ranked<T>, PassState<T>>) -> FreeEnd<T>
        requires pass { IsPassOf queue.now pass }
        requires first { view pass ≡ unopened }
        requires some { 0 < J.place.shards }
        ensures { result ≡ record { spot = spot_of (name queue.now) J.place; next = 0; parts = J.place.takers } }
    {
        let mut pass = pass;
        queue.another::<Opened<J>>(&mut pass);
        FreeEnd { pass }
    }

    /// The next sender's end.
    pub fn next_sender(&mut self, queue: &Queue<T>) -> SendEnd<T>
        requires queue { self.old.spot.queue ≡ name queue.now }
        requires room { self.old.next < self.old.spot.place.senders }
        ensures next { self.new ≡ record { spot = self.old.spot; next = self.old.next + 1; parts = self.old.parts } }
        ensures queue_end { result ≡ record { spot = self.old.spot; sender = self.old.next; accepted = [] } }
    {
        SendEnd {
            rank: 0,
            pass: queue.another::<NextSender>(&mut self.pass),
        }
    }

    /// One more taker's end.
    pub fn next_taker(&mut self, queue: &Queue<T>) -> TakeEnd<T>
        requires queue { self.old.spot.queue ≡ name queue.now }
        requires room { 0 < self.old.parts }
        ensures next { self.new ≡ record { spot = self.old.spot; next = self.old.next; parts = self.old.parts - 1 } }
        ensures queue_end { result ≡ record { spot = self.old.spot; parts = 1; taken = [] } }
    {
        TakeEnd {
            pass: queue.another::<NextTaker>(&mut self.pass),
        }
    }
}

impl<T: GroupOp> SendEnd<T> {
    /// Puts the operation in. It comes back only if the queue was full at one moment.
    pub fn push<R: Wait>(&mut self, rt: &R, queue: &Queue<T>, number: u64, op: T) -> Result<(), T>
        requires queue { self.old.spot.queue ≡ name queue.now }
        requires number { self.old.sender ≡ number }
        requires here { T.group op % self.old.spot.place.shards ≡ self.old.spot.place.shard }
        ensures queue_end { (self.new.spot ≡ self.old.spot) × (self.new.sender ≡ self.old.sender) }
        ensures answer { MatchResult result
            (λ _. (self.new.accepted ≡ self.old.accepted ++ ranked self.old.sender (length self.old.accepted) op ∷ [])
            × WasKept T.group (sender self.old.spot.place self.old.sender self.new.accepted))
            (λ x. (x ≡ op) × (self.new ≡ self.old)
            × Held (ruled_capacity queue.now)
            (KeptWith T.group (sender self.old.spot.place self.old.sender self.old.accepted))) }
    {
        if self.rank == u64::MAX {
            // After 2^62 pushes the queue itself waits for ever.
            for _ in rt.forever() {}
            unreachable!()
        }
        let ranked = Ranked {
            sender: number,
            rank: self.rank,
            op,
        };
        match queue.push_as::<Put, R>(rt, &mut self.pass, ranked) {
            Ok(()) => {
                self.rank += 1;
                Ok(())
            }
            Err(back) => Err(back.op),
        }
    }

    /// The number of operations that the queue holds at one moment.
    pub fn len<R: Wait>(&mut self, rt: &R, queue: &Queue<T>) -> usize
        requires { self.old.spot.queue ≡ name queue.now }
        ensures same { self.new ≡ self.old }
        ensures most { result ≤ ruled_capacity queue.now }
        ensures held { Held result (KeptWith T.group (sender self.old.spot.place self.old.sender self.old.accepted)) }
    {
        queue.len_as::<Put, R>(rt, &mut self.pass)
    }

    /// Each operation that the taker took of this sender was accepted at least as often. If the
    /// taker has all parts, those are the first that were accepted.
    pub fn compare(&mut self, queue: &Queue<T>, other: &mut TakeEnd<T>)
        requires queue { self.old.spot.queue ≡ name queue.now }
        requires other { other.old.spot ≡ self.old.spot }
        ensures same { (self.new ≡ self.old) × (other.new ≡ other.old) }
        ensures accepted { IsPartOf (of self.old.sender other.old.taken) self.old.accepted }
        ensures first { other.old.parts ≡ self.old.spot.place.takers →
            AreFirstOf (of self.old.sender other.old.taken) self.old.accepted }
    {
        let took = queue.another::<Part>(&mut other.pass);
        queue.absorb::<Meet>(&mut self.pass, took);
        queue.learn_as::<Meet>(&mut self.pass);
        other.pass = queue.another::<Part>(&mut self.pass);
    }
}

impl<T: GroupOp> TakeEnd<T> {
    /// Takes the oldest operation. None only if the queue was empty at one moment.
    pub fn pop<R: Wait>(&mut self, rt: &R, queue: &Queue<T>) -> Option<Ranked<T>>
        requires queue { self.old.spot.queue ≡ name queue.now }
        requires part { 0 < self.old.parts }
        ensures queue_end { (self.new.spot ≡ self.old.spot) × (self.new.parts ≡ self.old.parts) }
        ensures answer { MatchOption result
            ((self.new ≡ self.old)
            × Held 0 (KeptWith T.group (taker self.old.spot.place self.old.parts self.old.taken)))
            (λ x. (self.new.taken ≡ self.old.taken ++ x ∷ []) × IsHere T.group self.old.spot.place x
            × IsNextAfter self.old.taken x
            × WasKept T.group (taker self.old.spot.place self.old.parts self.new.taken)) }
    {
        queue.pop_as::<Take, R>(rt, &mut self.pass)
    }

    /// True only if the queue was empty at one moment.
    pub fn is_empty(&mut self, queue: &Queue<T>) -> bool
        requires { self.old.spot.queue ≡ name queue.now }
        ensures same { self.new ≡ self.old }
        ensures held { IsTrue result →
            Held 0 (KeptWith T.group (taker self.old.spot.place self.old.parts self.old.taken)) }
    {
        queue.is_empty_as::<Take>(&mut self.pass)
    }

    /// Takes over what the other took, and its parts.
    pub fn gather(&mut self, queue: &Queue<T>, other: &mut TakeEnd<T>)
        requires queue { self.old.spot.queue ≡ name queue.now }
        requires other { other.old.spot ≡ self.old.spot }
        ensures mine { self.new ≡ record {
          spot = self.old.spot;
          parts = self.old.parts + other.old.parts;
          taken = self.old.taken ++ other.old.taken;
        } }
        ensures other { other.new ≡ record { spot = other.old.spot; parts = 0; taken = [] } }
    {
        let took = queue.another::<Part>(&mut other.pass);
        queue.absorb::<Meet>(&mut self.pass, took);
    }
}

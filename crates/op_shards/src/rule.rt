//! The rule of one queue: the operations that it holds, and the knowledge of each pass of it.

use crate::group_op::GroupOp;
use crossbeam_queue::RuledArrayQueue;
use crossbeam_queue::protocol::{Join, Lesson, Outcome, Protocol, Split};
use std::collections::LinkedList;
use std::marker::{Brand, PhantomData};

/// An operation with its sender, and its rank among those that its shard's queue accepted of this
/// sender.
#[derive(Drop)]
pub struct Ranked<T> {
    pub sender: u64,
    pub rank: u64,
    pub op: T,
}

/// Where a queue stands: its shard, and how many shards, senders and takers there are. No value of
/// it is made.
pub struct QueuePosition {
    pub shard: u64,
    pub shards: u64,
    pub senders: u64,
    pub takers: u64,
}

/// The knowledge of a pass of one queue. The senders from `first` up to `end` are its own, and each
/// has put in the list `put`. It has the parts of `parts` takers, and has taken the list `got`. No
/// value of it is made.
pub struct PassState<T> {
    pub place: QueuePosition,
    pub first: u64,
    pub end: u64,
    pub parts: u64,
    pub put: LinkedList<Ranked<T>>,
    pub got: LinkedList<Ranked<T>>,
}

pub type Queue<T> = RuledArrayQueue<Ranked<T>, PassState<T>, InOrder<T>>;

pub struct InOrder<T> {
    of: PhantomData<T>,
}

impl<T: GroupOp> Protocol<Ranked<T>, PassState<T>> for InOrder<T> {
    ghost use Rattle.op_shards.specs.Order.{Rule, unopened};

    ghost holds = { Rule T.group };

    ghost first = { unopened };
}

/// Where a new queue stands. Each call that opens one picks it.
pub trait Placed {
    ghost use Rattle.op_shards.specs.declared.rule.QueuePosition.{QueuePosition};

    ghost place: { QueuePosition };
}

impl Placed for Brand {
    ghost use Rattle.op_shards.specs.Order.{queue_position};

    ghost place = { queue_position 0 0 0 0 };
}

/// The queue's place is known from now on.
pub struct Opened<J> {
    of: PhantomData<J>,
}

impl<T, J: Placed> Split<PassState<T>> for Opened<J> {
    ghost use Rattle.std.specs.Prelude.{[]};
    ghost use Rattle.op_shards.specs.Order.{free_end, taker};

    ghost left = { λ v. free_end J.place 0 J.place.takers };

    ghost right = { λ v. taker J.place 0 [] };
}

/// One sender more.
pub struct NextSender;

impl<T> Split<PassState<T>> for NextSender {
    ghost use Rattle.op_shards.specs.Order.{other_senders, one_sender};

    ghost left = { other_senders };

    ghost right = { one_sender };
}

/// One taker more.
pub struct NextTaker;

impl<T> Split<PassState<T>> for NextTaker {
    ghost use Rattle.std.specs.Prelude.{◌-◌, []};
    ghost use Rattle.op_shards.specs.Order.{pass_state, taker};

    ghost left = { λ v. pass_state v.place v.first v.end (v.parts - 1) v.put v.got };

    ghost right = { λ v. taker v.place 1 [] };
}

/// A push.
pub struct Put;

impl<T: GroupOp> Outcome<Ranked<T>, PassState<T>> for Put {
    ghost use Rattle.op_shards.specs.Order.{Puts};

    ghost then = { Puts T.group };
}

impl<T: GroupOp> Lesson<Ranked<T>, PassState<T>> for Put {
    ghost use Rattle.op_shards.specs.Order.{KeptWith};

    ghost fact = { KeptWith T.group };
}

/// A pop.
pub struct Take;

impl<T: GroupOp> Outcome<Ranked<T>, PassState<T>> for Take {
    ghost use Rattle.op_shards.specs.Order.{Takes};

    ghost then = { Takes T.group };
}

impl<T: GroupOp> Lesson<Ranked<T>, PassState<T>> for Take {
    ghost use Rattle.op_shards.specs.Order.{KeptWith};

    ghost fact = { KeptWith T.group };
}

/// Splits what was taken from what was put in.
pub struct Part;

impl<T> Split<PassState<T>> for Part {
    ghost use Rattle.op_shards.specs.Order.{put_alone, got_alone};

    ghost left = { put_alone };

    ghost right = { got_alone };
}

/// Joins to it what another took.
pub struct Meet;

impl<T> Join<PassState<T>> for Meet {
    ghost use Rattle.op_shards.specs.Order.{together, spent};

    ghost both = { together };

    ghost spent = { spent };
}

impl<T> Lesson<Ranked<T>, PassState<T>> for Meet {
    ghost use Rattle.op_shards.specs.Order.{Accounts};

    ghost fact = { Accounts };
}

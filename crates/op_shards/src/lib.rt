//! Operations in bounded queues, one a shard, for any number of senders and takers in threads of
//! their own. An operation's shard is its group's number modulo the number of shards. In any
//! schedule an accepted `submit` adds to the sender's pass, a taken operation is in the taker's
//! pass, and each accepted operation is taken at most once, in its sender's order: what all takers
//! took of a sender in a shard are the first operations that the queue accepted of it, each once
//! (`OpShards::compare`). What a pass has exists in the proofs alone.
//!
//! Takers share the shards by a `Schedule` and wait on a `Bell`. Both are generic over the words
//! that they keep, so that a test runs them step by step; nothing is proved of them.
#![tactic(auto)]

mod bell;
mod crossing;
mod group_op;
mod laws;
mod pass;
mod queue_end;
mod rule;
mod schedule;
mod shards;
mod sleep;
mod word;

pub use bell::Bell;
pub use crossing::queues_cross;
pub use group_op::GroupOp;
pub use laws::{Property, sending_goes_on};
pub use pass::{SendPass, TakePass};
pub use rule::{QueuePosition, Ranked};
pub use schedule::Schedule;
pub use shards::OpShards;
pub use sleep::{Sleep, Sleepers};
pub use txn::NoMemory;
pub use word::Word;

//! Facts for the proofs of the crates above: queues and passes may cross threads. The functions do
//! nothing.
ghost use denote.Param.Send.{IsSend, IsSync};
ghost use Rattle.op_shards.specs.contracts.pass.SendPass as send_pass;
ghost use Rattle.op_shards.specs.contracts.pass.TakePass as take_pass;
ghost use Rattle.op_shards.specs.contracts.shards.OpShards as shards;

use crate::group_op::GroupOp;
use crate::pass::{SendPass, TakePass};
use crate::shards::OpShards;

/// If operations may go from one thread to another, threads may share their queues, and the queues
/// and the passes may go to another thread.
pub fn queues_cross<T: GroupOp + Send>()
    ensures shared { IsSync (shards.the_row T.row T.GroupOp) }
    ensures shards { IsSend (shards.the_row T.row T.GroupOp) }
    ensures sends { IsSend (send_pass.the_row T.row) }
    ensures takes { IsSend (take_pass.the_row T.row) }
{
    can_share::<OpShards<T>>();
    can_send::<OpShards<T>>();
    can_send::<SendPass<T>>();
    can_send::<TakePass<T>>();
}

// Values of the type may go to another thread.
fn can_send<T: Send>()
    ensures { IsSend T.row }
{}

// Threads may share values of the type.
fn can_share<T: Sync>()
    ensures { IsSync T.row }
{}

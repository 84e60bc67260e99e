ghost use Rattle.std.specs.Prelude.{◌≡◌, OnOk, OnErr};
ghost use Rattle.op_shards.specs.Passes.{WasSent};
ghost use Rattle.osd.specs.Sent.{OnlySent, IsThat};

use crate::name::ClusterName;
use crate::queued::Queued;
use op_shards::{OpShards, SendPass};
use std::marker::{Model, PhantomData};
use std::sync::Wait;

/// A sender: a pass of the cluster's queues. Contracts see the pass.
pub struct Sends<N: ClusterName> {
    pub(crate) pass: SendPass<Queued>,
    /// The shard that the worker has claimed who sends by it.
    claimed: Option<usize>,
    of: PhantomData<N>,
}

impl<N: ClusterName> Drop for Sends<N> {
    fn drop(self) {
        let Sends {
            pass,
            claimed: _,
            of: _,
        } = self;
        drop(pass);
    }
}

impl<N: ClusterName> Model for Sends<N> {
    ghost use Rattle.std.specs.Prelude.{◌≡◌};
    ghost use Rattle.op_shards.specs.Passes.{Sender};
    ghost use Rattle.carried.specs.declared.operation.Operation.{Operation};

    ghost Value = { Sender Operation };

    ghost view = { λ s. s.pass };

    ghost invariant = { λ s. s.pass.queues ≡ N.queues };
}

impl<N: ClusterName> Sends<N> {
    /// A sender by its pass.
    pub(crate) fn new(pass: SendPass<Queued>) -> Sends<N>
        requires { pass.queues ≡ N.queues }
        ensures { result ≡ pass }
    {
        Sends {
            pass,
            claimed: None,
            of: PhantomData,
        }
    }

    /// Notes which shard the worker has claimed who sends by it.
    pub(crate) fn set_claimed(&mut self, shard: Option<usize>)
        ensures { self.new ≡ self.old }
    {
        self.claimed = shard;
    }

    /// True if the worker who sends by it has claimed that shard: what it puts there it takes
    /// itself, or rings for when it releases the shard.
    pub(crate) fn has_claimed(&self, shard: usize) -> bool {
        self.claimed == Some(shard)
    }

    /// Puts the operation at the end of its group's queue. If that is full it gives the operation
    /// back, and the pass is as it was.
    pub(crate) fn submit<R: Wait>(
        &mut self,
        rt: &R,
        shards: &OpShards<Queued>,
        queued: Queued,
    ) -> Result<(), Queued>
        requires { shards.now.queues ≡ N.queues }
        ensures only { OnlySent self.old self.new (IsThat queued) }
        ensures sent { OnOk result (WasSent self.old self.new (λ op. op ≡ queued)) }
        ensures kept { OnErr result (self.new ≡ self.old) }
    {
        shards.submit(rt, &mut self.pass, queued)
    }
}

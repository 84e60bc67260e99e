//! How a client's request, and any other operation, comes into the queues of a running cluster.

ghost use Rattle.std.specs.Prelude.{◌≡◌, OnOk, OnErr};
ghost use Rattle.op_shards.specs.Passes.{Grew, WasSent};
ghost use Rattle.carried.specs.declared.operation.Carried.TheVariants.{Request as ARequest};
ghost use Rattle.placement.specs.Placement.{group_of};
ghost use Rattle.osd.specs.Sent.{OnlySent, IsThat};

use crate::ask_error::AskError;
use crate::cause::Cause;
use crate::limits::KEPT_PLACES;
use crate::name::ClusterName;
use crate::queued::Queued;
use crate::running::Running;
use crate::sends::Sends;
use carried::{Carried, Operation};
use pg_log::Request;
use std::sync::Wait;

impl<N: ClusterName, R: Wait> Running<N, R> {
    /// Submits a copy of the request to the newest map's primary of its object's group. Refused,
    /// and nothing was submitted: `NoRoom` if fewer than 256 places of the queue were free,
    /// `NoMemory` if memory was refused.
    pub fn ask(&self, sends: &mut Sends<N>, request: &Request) -> Result<(), AskError>
        ensures grew { Grew sends.old sends.new }
        ensures sent { OnOk result (WasSent sends.old sends.new (λ op. op.carried ≡ ARequest request.now)) }
        ensures placed { OnOk result (WasSent sends.old sends.new
            (λ op. (op.group ≡ group_of request.now.object N.config.groups) × (op.carried ≡ ARequest request.now))) }
        ensures kept { OnErr result (sends.new ≡ sends.old) }
    {
        let group = self.group_of(request.object());
        if !self.has_room(sends, group) {
            return Err(AskError::NoRoom);
        }
        let Ok(copy) = request.copy() else {
            return Err(AskError::NoMemory);
        };
        let node = self.primaries.of(group);
        self.submit(
            sends,
            Cause::Event,
            Operation {
                group,
                node,
                carried: Carried::Request(copy),
            },
        )
    }

    /// True if the queue of the group has as many places free as clients and nudges leave to the
    /// nodes.
    pub(crate) fn has_room(&self, sends: &mut Sends<N>, group: usize) -> bool
        ensures { sends.new ≡ sends.old }
    {
        self.room(sends, group) > 0
    }

    /// The number of operations that clients and nudges may put into the queue of the group.
    pub(crate) fn room(&self, sends: &mut Sends<N>, group: usize) -> usize
        ensures { sends.new ≡ sends.old }
    {
        let shard = group % self.shards.count();
        let free = self.shards.free_places(&self.rt, &mut sends.pass, shard);
        // With `KEPT_PLACES` free one may go in.
        free.saturating_sub(KEPT_PLACES - 1)
    }

    /// Submits an operation, and wakes the workers if its queue took it and the sender hasn't
    /// claimed the shard. One that isn't taken is dropped.
    pub(crate) fn submit(
        &self,
        sends: &mut Sends<N>,
        cause: Cause,
        operation: Operation,
    ) -> Result<(), AskError>
        ensures only { OnlySent sends.old sends.new (IsThat operation) }
        ensures sent { OnOk result (WasSent sends.old sends.new (λ op. op ≡ operation)) }
        ensures kept { OnErr result (sends.new ≡ sends.old) }
    {
        let group = operation.group;
        let Ok(boxed) = Box::new(self.alloc, operation) else {
            return Err(AskError::NoMemory);
        };
        self.nudges.add(group, cause);
        match sends.submit(&self.rt, &self.shards, Queued::new(boxed, cause)) {
            Ok(()) => {
                if !sends.has_claimed(group % self.shards.count()) {
                    self.bell.ring(&self.rt);
                }
                Ok(())
            }
            Err(queued) => {
                drop(queued);
                self.nudges.remove(group, cause);
                Err(AskError::NoRoom)
            }
        }
    }
}

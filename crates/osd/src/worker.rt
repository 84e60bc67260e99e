ghost use Rattle.std.specs.Prelude.{◌≡◌};

use crate::delivery::{Delivery, Origin, is_refusal, once_more};
use crate::fate::{DeliveryMode, Fate};
use crate::name::ClusterName;
use crate::queued::Queued;
use crate::sends::Sends;
use group_cell::Outgoing;
use op_shards::TakePass;
use std::alloc::Global;
use std::marker::Model;
use std::sync::{Mutex, Wait};

/// A worker's own values, by which it serves. Contracts see its sender.
#[derive(Drop)]
pub(crate) struct Worker<N: ClusterName> {
    pub number: usize,
    /// Its taker: a pass of the cluster's queues.
    pub takes: TakePass<Queued>,
    pub sends: Sends<N>,
    /// The number of messages that it has sent or lost.
    pub messages: u64,
    /// The message that is sent after the next one.
    pub late: Option<Delivery<N>>,
}

impl<N: ClusterName> Model for Worker<N> {
    ghost use Rattle.std.specs.Prelude.{◌≡◌};
    ghost use Rattle.op_shards.specs.Passes.{Sender};
    ghost use Rattle.carried.specs.declared.operation.Operation.{Operation};

    ghost Value = { Sender Operation };

    ghost view = { λ w. w.sends };

    ghost invariant = { λ w. w.takes.queues ≡ N.queues };
}

impl<N: ClusterName> Worker<N> {
    /// The worker of that number, which has sent nothing.
    pub fn new(number: usize, takes: TakePass<Queued>, sends: Sends<N>) -> Worker<N>
        requires { takes.queues ≡ N.queues }
    {
        Worker {
            number,
            takes,
            sends,
            messages: 0,
            late: None,
        }
    }

    /// What is delivered when the worker sends this: it, as the fate has it, and then the message
    /// that was late. A refusal is delivered, and the fate isn't asked.
    pub fn due<F: Fate>(
        &mut self,
        alloc: Global,
        fate: &F,
        origin: &Origin,
        outgoing: Outgoing<N>,
    ) -> Due<N>
        ensures { self.new ≡ self.old }
    {
        if is_refusal(&outgoing) {
            return Due {
                now: Some(outgoing),
                again: None,
                late: None,
            };
        }
        let mode = fate.of(self.number, self.messages);
        self.messages = self.messages.wrapping_add(1);
        let late = self.late.take();
        let (now, again) = match mode {
            DeliveryMode::Pass => (Some(outgoing), None),
            DeliveryMode::Drop => {
                drop(outgoing);
                (None, None)
            }
            DeliveryMode::Twice => {
                let again = once_more(alloc, &outgoing);
                (Some(outgoing), again)
            }
            DeliveryMode::Late => {
                self.late = Some(Delivery {
                    origin: *origin,
                    outgoing,
                });
                (None, None)
            }
        };
        Due { now, again, late }
    }
}

/// What is delivered when a worker sends a message, in this order: the message, the same again, and
/// the one that was late.
#[derive(Drop)]
pub(crate) struct Due<N: ClusterName> {
    pub now: Option<Outgoing<N>>,
    pub again: Option<Outgoing<N>>,
    pub late: Option<Delivery<N>>,
}

/// The place of a worker, which is empty once it serves.
pub(crate) struct WorkerPlace<N: ClusterName> {
    worker: Mutex<Option<Worker<N>>>,
}

impl<N: ClusterName> Drop for WorkerPlace<N> {
    fn drop(self) {
        let WorkerPlace { worker } = self;
        drop(worker);
    }
}

impl<N: ClusterName> WorkerPlace<N> {
    /// The place of a worker that doesn't serve yet.
    pub fn new(worker: Worker<N>) -> WorkerPlace<N> {
        WorkerPlace {
            worker: Mutex::new(Some(worker)),
        }
    }

    /// Takes the worker out.
    pub fn take<R: Wait>(&self, rt: &R) -> Option<Worker<N>> {
        self.worker.lock(rt).take()
    }
}

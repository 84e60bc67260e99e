ghost use Rattle.std.specs.Prelude.{◌≡◌};

use crate::cause::Cause;
use carried::Operation;
use op_shards::GroupOp;
use std::marker::Model;

/// An operation in a queue. A place of a queue holds its box, so that queues are small. Contracts
/// see the operation; the cause is for the count of nudges alone.
pub struct Queued {
    operation: Box<Operation>,
    cause: Cause,
}

impl Drop for Queued {
    fn drop(self) {
        let Queued {
            operation,
            cause: _,
        } = self;
        drop(operation);
    }
}

impl Model for Queued {
    ghost use Rattle.carried.specs.declared.operation.Operation.{Operation};

    ghost Value = { Operation };

    ghost view = { λ q. q.operation.value };
}

impl GroupOp for Queued {
    ghost group = { λ o. o.group };

    fn group(&self) -> usize {
        self.operation.group
    }
}

impl Queued {
    /// An operation in its box.
    pub fn new(operation: Box<Operation>, cause: Cause) -> Queued
        ensures { result ≡ operation.value }
    {
        Queued { operation, cause }
    }

    /// Its first cause.
    pub fn cause(&self) -> Cause {
        self.cause
    }

    /// The operation, out of its box.
    pub fn into_operation(self) -> Operation
        ensures { result ≡ self }
    {
        let Queued {
            operation,
            cause: _,
        } = self;
        Box::into_inner(operation)
    }
}

/// A gate, which a worker asks before each operation. It may keep the worker there; no lock is held
/// meanwhile. While it keeps a client's request, other workers go on with the operations of its
/// shard; while it keeps another operation, they don't.
pub trait Gate {
    /// Comes before an operation is handled: for a client's request its client's number times 2^32
    /// and its own number, else 0.
    fn before(&self, number: u64);

    /// False if it never keeps a worker: then other workers needn't be given the shard while it is
    /// asked.
    fn may_keep(&self) -> bool {
        true
    }
}

/// A gate at which nobody is kept.
#[derive(Clone, Copy)]
pub struct Open;

impl Gate for Open {
    fn before(&self, _number: u64) {}

    fn may_keep(&self) -> bool {
        false
    }
}

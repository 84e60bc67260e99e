/// The way in which a message is sent or lost.
#[derive(Clone, Copy, Debug, PartialEq, Eq)]
pub enum DeliveryMode {
    /// It is sent.
    Pass,
    /// It is lost.
    Drop,
    /// It is sent twice. A Reply is sent once.
    Twice,
    /// It is sent after the worker's next message, and lost if there is none.
    Late,
}

/// Decides on each message that nodes send, and on each Reply. Refusals, the monitors'
/// messages, and what `nudge` and `new_map` submit pass.
pub trait Fate {
    /// Comes for each message of a worker, which are numbered from 0 on, modulo 2^64.
    fn of(&self, worker: usize, n: u64) -> DeliveryMode;
}

/// The fate under which all messages pass.
#[derive(Clone, Copy)]
pub struct PassAll;

impl Fate for PassAll {
    fn of(&self, _worker: usize, _n: u64) -> DeliveryMode {
        DeliveryMode::Pass
    }
}

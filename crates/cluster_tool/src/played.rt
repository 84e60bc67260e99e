use map_book::MapError;
use rados_client::{ExecError, ExecReply};

/// The end of a plan.
#[derive(Drop)]
pub enum Played {
    /// Each call was made: how each client's calls ended, the first client's first.
    Done(Vec<Vec<Result<ExecReply, ExecError>>>),
    /// The map of that line, from 1, was refused; nothing after it was done.
    MapRefused(usize, MapError),
    /// Memory was refused, or a thread for the workers.
    NoMemory,
}

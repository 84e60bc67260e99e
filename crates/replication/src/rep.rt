use pg_log::Request;
use placement::Epoch;

/// A request at its place in the primary's log, for the other acting members.
#[derive(Drop)]
pub struct Rep {
    /// The sender's epoch.
    pub epoch: Epoch,
    /// The place in the log, from 0.
    pub place: usize,
    /// The request.
    pub request: Request,
}

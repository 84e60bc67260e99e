/// The first cause of an operation. A message that a node sends has the cause of the operation that
/// the node handled.
#[derive(Clone, Copy, Debug, PartialEq, Eq)]
pub(crate) enum Cause {
    /// A client's request, or a new map.
    Event,
    /// A nudge, which hands on a map or has a node send again.
    Nudge,
}

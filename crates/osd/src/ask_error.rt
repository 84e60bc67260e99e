/// Why a request isn't in a queue.
#[derive(Clone, Copy, Debug, PartialEq, Eq)]
pub enum AskError {
    /// Fewer than 256 places of its queue were free, and nothing was submitted. Requests leave the
    /// last places to what nodes send to one another.
    NoRoom,
    /// Memory was refused, and nothing was submitted.
    NoMemory,
}

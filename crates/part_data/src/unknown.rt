/// Blocks of which a read needs one or more: from the first unknown block that it meets to the
/// last one. Those between may be known.
#[derive(Clone, Copy, Debug, PartialEq, Eq)]
pub struct Unknown {
    /// The number of the first block: its bytes begin at 4,096 times that.
    pub block: u64,
    /// How many blocks these are, at least 1.
    pub count: u64,
}

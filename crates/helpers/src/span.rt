/// A range of a method's memory: a place and a length in bytes. A range of length 0 touches
/// nothing, wherever it lies.
#[derive(Clone, Copy, PartialEq, Eq)]
pub struct Span {
    pub at: u64,
    pub len: u64,
}

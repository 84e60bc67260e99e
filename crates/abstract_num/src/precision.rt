/// How much of a number is followed.
#[derive(Clone, Copy, PartialEq, Eq)]
pub enum Precision {
    /// The unsigned range, the signed range and the known bits: rule sets 1 and 2.
    Whole,
    /// Also the half, the range of the low 32 bits as a signed number: rule set 3.
    Halves,
}

use crate::case::Case;
use crate::test_said::TestSaid;

/// The part of an object that a line names.
#[derive(Clone, Copy)]
pub(crate) enum TestPart {
    Xattrs,
    Keys,
}

/// What a line comes to.
#[derive(Drop)]
pub(crate) enum Step {
    /// The case goes on so.
    Next(Case),
    /// What the line says is so; the case goes on so.
    Holds(Case),
    /// The line says the first, and there is the second.
    Differs(TestSaid, TestSaid),
    /// The line is malformed.
    Bad,
}

/// An argument of a helper, in one register, or in two for a range: a pointer and a length in
/// bytes.
#[derive(Clone, Copy, PartialEq, Eq)]
pub enum Argument {
    /// A number.
    Number,
    /// A number that is at most out_cap.
    OutputLength,
    /// A range that is read.
    Readable,
    /// A range that may be written.
    Writable,
}

/// The arguments of a helper from register 1 on, and a flag that it may change the object.
#[derive(Clone, Copy)]
pub struct Signature {
    pub arguments: &'static [Argument],
    pub writes: bool,
}

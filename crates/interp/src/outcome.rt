use txn::Change;

/// The outcome of a call.
#[derive(Drop)]
pub struct Outcome {
    /// The method's code; a negative one is an error, which changed nothing.
    pub code: i64,
    /// The output, at most out_cap bytes.
    pub output: Vec<u8>,
    /// The object before and after.
    pub change: Change,
    /// The instructions executed, `exit` included.
    pub steps: usize,
}

/// The outcome of a call, and the list of the edits that its helpers left.
#[derive(Drop)]
pub struct Listed {
    pub outcome: Outcome,
    /// The edits in order, one after the other; none where the code is negative. Each is its number
    /// and its fields, little-endian: 1 creates the object, 2 removes it, 3 sets an xattr, 4
    /// removes one, 5 sets a key of the omap, 6 removes one (a name or a key, and then a value,
    /// each after its length as a u16), 7 makes the data a length (a u64) by a cut or zeros, and 8
    /// writes bytes (the place as a u64, their count as a u32, the bytes).
    pub edits: Vec<u8>,
}

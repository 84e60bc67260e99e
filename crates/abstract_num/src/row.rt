/// A row of the transfer table: the operation that each part of a number computes, once the number
/// as a whole has decided which row applies. A row holds a constant shift count, which wraps modulo
/// 64.
#[derive(Clone, Copy)]
pub enum Row {
    Add,
    Sub,
    Mul,
    Div,
    Mod,
    And,
    Or,
    Xor,
    /// LSH by a constant count.
    LshBy(u32),
    /// RSH by a constant count.
    RshBy(u32),
    /// RSH by a count that isn't constant.
    Rsh,
    /// ARSH by a constant count.
    ArshBy(u32),
    /// ARSH by a count that isn't constant.
    Arsh,
    /// LSH by a constant count, whose signed range counts.
    SignedLshBy(u32),
    /// ARSH by a constant count, whose signed range counts.
    SignedArshBy(u32),
    /// The low 32 bits of the first number.
    Cut,
}

/// The answer of the transfer table to an operation on two numbers.
#[derive(Clone, Copy)]
pub enum RowAnswer {
    /// Its operands are constants, and it gives this number.
    Exact(u64),
    /// Each part is answered by this row.
    By(Row),
    /// LSH by 32, whose signed range comes from the first number's half.
    Raised,
    /// Any number.
    All,
}

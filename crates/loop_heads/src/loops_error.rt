/// Why no loops are made of a budget and heads.
#[derive(Clone, Copy, Debug, PartialEq, Eq)]
pub enum LoopsError {
    /// The number of heads isn't 1 to `HEAD_LIMIT`, or the budget isn't 1 to `BUDGET_LIMIT`.
    Limit,
    /// The places of the head at that slot aren't right, or its slot isn't above the one before it.
    Head(u16),
}

//! The limits of what is declared.

/// A method has at most 64 heads.
pub const HEAD_LIMIT: usize = 64;

/// A budget is 1 to 1,048,576.
pub const BUDGET_LIMIT: u32 = 1_048_576;

/// The greatest number of a place: 0 to 9 are registers, 11 to 74 the stack's slots of eight bytes, from
/// its first byte on. 10 is none.
pub const PLACE_LIMIT: u8 = 74;

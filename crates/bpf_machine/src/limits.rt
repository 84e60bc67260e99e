//! The size of the stack that each method gets.

/// A method's stack in bytes.
pub const STACK_SIZE: usize = 512;

//! How many classes may be loaded.

/// The most classes that a table has.
pub const CLASS_LIMIT: usize = 64;

//! How much a part may hold.

/// The bytes of a block of an object's data; the last block has the rest.
pub const BLOCK: u64 = 4096;

/// The most blocks of a part.
pub const BLOCK_LIMIT: u32 = 1024;

/// The most intervals of a part's xattrs, and of its keys.
pub const INTERVAL_LIMIT: u16 = 1025;

/// The most bytes of an interval's ends, and of a name in a need: one more than a name has.
pub const PLACE_LIMIT: usize = 65;

/// The most bytes of a need's spelling.
pub const NEED_LIMIT: usize = 68;

//! The numbers of the errors that methods answer, as Linux has them. An answer is the negative of
//! one.

/// The object is absent.
pub const ENOENT: u64 = 2;

/// Stored data can't be read.
pub const EIO: u64 = 5;

/// Memory was refused.
pub const ENOMEM: u64 = 12;

/// Another holds it.
pub const EBUSY: u64 = 16;

/// The object is there already.
pub const EEXIST: u64 = 17;

/// A name, a key or an argument is invalid.
pub const EINVAL: u64 = 22;

/// The data would pass its limit.
pub const EFBIG: u64 = 27;

/// The object has the most xattrs or keys already.
pub const ENOSPC: u64 = 28;

/// The buffer is too short.
pub const ERANGE: u64 = 34;

/// There is no such xattr or key.
pub const ENODATA: u64 = 61;

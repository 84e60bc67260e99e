//! How much an object may hold, and how long names and values may be.
ghost use Rattle.std.specs.Prelude.{◌≡◌};
ghost use Rattle.object_store.specs.Limits.{profile};

/// The most bytes of data of an object.
pub const DATA_LIMIT: usize = 65_536;

/// The most xattrs of an object.
pub const XATTR_LIMIT: usize = 32;

/// The most omap keys of an object.
pub const KEY_LIMIT: usize = 1024;

/// The most bytes of an xattr's name, or of a key.
pub const NAME_LIMIT: usize = 64;

/// The most bytes of a value.
pub const VALUE_LIMIT: usize = 4096;

/// The most bytes of an object's name.
pub const OBJECT_NAME_LIMIT: usize = 255;

/// How many xattrs, or keys of the omap, an object may have, and how long their names may be.
#[derive(Clone, Copy, PartialEq, Eq)]
pub struct NameLimits {
    /// The most names; none if their number has no limit.
    pub count: Option<u32>,
    /// The most bytes of a name, 1 to 64.
    pub length: u8,
}

/// What a host says of the objects that a call may leave: a value's 4,096 bytes are no limit of a
/// host, and stand for all.
#[derive(Clone, Copy, PartialEq, Eq)]
pub struct Limits {
    /// The most bytes of data, below 2^63.
    pub bytes: u64,
    pub xattrs: NameLimits,
    pub keys: NameLimits,
}

impl Limits {
    /// The limits of an `Object`: 65,536 bytes of data, 32 xattrs and 1,024 keys, names of 64 bytes.
    pub fn profile() -> Limits
        ensures { result ≡ profile }
    {
        Limits {
            bytes: DATA_LIMIT as u64,
            xattrs: NameLimits {
                count: Some(XATTR_LIMIT as u32),
                length: NAME_LIMIT as u8,
            },
            keys: NameLimits {
                count: Some(KEY_LIMIT as u32),
                length: NAME_LIMIT as u8,
            },
        }
    }
}

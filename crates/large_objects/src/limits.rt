//! The limits of an OSD.

ghost use Rattle.std.specs.Prelude.{◌≡◌};
ghost use Rattle.large_objects.specs.Large.{large_limits};

use object_store::{Limits, NAME_LIMIT, NameLimits};

/// The most bytes of an object's data, as an OSD is shipped.
pub const LARGE_LIMIT: u64 = 134_217_728;

/// Any number of names, each of at most 64 bytes.
fn any_names() -> NameLimits
    ensures count { result.count ≡ None }
    ensures length { result.length ≡ 64 }
{
    NameLimits {
        count: None,
        length: NAME_LIMIT as u8,
    }
}

/// An OSD's limits.
pub fn large_limits() -> Limits
    ensures { result ≡ large_limits }
{
    Limits {
        bytes: LARGE_LIMIT,
        xattrs: any_names(),
        keys: any_names(),
    }
}

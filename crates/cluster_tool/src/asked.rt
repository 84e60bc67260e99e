//! What the command `cluster` is asked for.

ghost use Rattle.std.specs.Prelude.{◌≤◌, length};
ghost use Rattle.tenant_classes.specs.declared.tenant_class.TheConstants.{TENANT_LIMIT};

use tenant_classes::{TENANT_LIMIT, TenantClass};

/// The run that is asked for: of a file of calls and maps, with the built-in classes and the
/// tenants'.
#[derive(Drop)]
pub struct Clustering<'a> {
    /// The file.
    pub file: &'a str,
    /// The tenants' classes, by their ids from 2.
    pub tenants: Vec<TenantClass<'a>>,
    /// True if the line of each call shows what it asked: the group of its object, and its request.
    pub is_shown: bool,
    /// True if a refused line and a failure are explained.
    pub is_explained: bool,
    ghost room: { length tenants.items ≤ TENANT_LIMIT },
}

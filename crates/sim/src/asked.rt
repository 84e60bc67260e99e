//! What the command `sim` is asked for.

ghost use Rattle.std.specs.Prelude.{◌≤◌, length};
ghost use Rattle.tenant_classes.specs.declared.tenant_class.TheConstants.{TENANT_LIMIT};

use tenant_classes::TenantClass;

/// The run that is asked for: of a file of events, with the built-in classes and the tenants'.
#[derive(Drop)]
pub struct Simulation<'a> {
    /// The file of events.
    pub file: &'a str,
    /// The tenants' classes, by their ids from 2.
    pub tenants: Vec<TenantClass<'a>>,
    /// True if the run is drawn, in place of what its lines print.
    pub is_drawn: bool,
    /// True if below each node that is shown stands what its objects hold; not of a drawing.
    pub has_objects: bool,
    /// True if a bad line and a failure are explained.
    pub is_explained: bool,
    ghost room: { length tenants.items ≤ TENANT_LIMIT },
}

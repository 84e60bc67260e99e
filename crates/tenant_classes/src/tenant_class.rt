/// The most classes of tenants: those of a table, but for the built-in ones.
pub const TENANT_LIMIT: usize = 62;

/// A class of a tenant's.
#[derive(Clone, Copy)]
pub struct TenantClass<'a> {
    /// The word that asks it.
    pub name: &'a str,
    /// The file of its image or its text.
    pub image: &'a str,
}

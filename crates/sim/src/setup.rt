use pg_log::ClassTable;
use std::alloc::Global;

/// The memory for a run, its classes, the names by which requests ask them, the one of id 0 first,
/// whether the objects of a node that is shown follow, and whether a bad line is explained.
#[derive(Clone, Copy)]
pub(crate) struct Setup<'a> {
    pub(crate) alloc: Global,
    pub(crate) table: &'a ClassTable,
    pub(crate) names: &'a [&'a str],
    pub(crate) has_objects: bool,
    pub(crate) is_explained: bool,
}

use crate::entry::Entry;
use crate::places::Places;
use interp::Room;
use object_store::Objects;
use std::alloc::Global;

/// A log's entries, with the objects and the index that they make, and a room for its runs.
// No `Model`: contracts see the capacities of its lists, too.
#[derive(Drop)]
pub(crate) struct Log {
    pub(crate) alloc: Global,
    pub(crate) entries: Vec<Entry>,
    pub(crate) objects: Objects,
    pub(crate) places: Places,
    /// The memory of the runs, one after the other.
    pub(crate) room: Room,
}

use group_world::GroupMap;

/// A group's new map.
pub struct NewMap {
    /// The map, the newest of its group.
    pub map: GroupMap,
    /// True if its interval isn't that of the group's map before it. Only such a group is told of
    /// its map.
    pub is_new_interval: bool,
}

impl Drop for NewMap {
    fn drop(self) {
        let NewMap {
            map,
            is_new_interval: _,
        } = self;
        drop(map);
    }
}

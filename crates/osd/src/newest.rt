ghost use Rattle.std.specs.Prelude.{◌≡◌, ◌<◌, length, All};
ghost use Rattle.osd.specs.Maps.{HasPrimary};

use crate::name::ClusterName;
use group_world::{Epoch, GroupMap};
use map_book::NewMap;
use placement::NodeId;
use std::alloc::{AllocError, Global};
use std::marker::{Model, PhantomData};

/// The newest map of each group, by the group's number. Contracts see the maps.
#[derive(Drop)]
pub(crate) struct Newest<N: ClusterName> {
    maps: Vec<NewMap>,
    of: PhantomData<N>,
}

impl<N: ClusterName> Model for Newest<N> {
    ghost use Rattle.std.specs.Prelude.{◌≡◌, List, length, All};
    ghost use Rattle.map_book.specs.declared.new_map.NewMap.{NewMap};
    ghost use Rattle.osd.specs.Maps.{HasPrimary};

    ghost Value = { List NewMap };

    ghost view = { λ n. n.maps.items };

    ghost invariant = { λ n. (length n.maps.items ≡ N.config.groups) × All HasPrimary n.maps.items };
}

impl<N: ClusterName> Newest<N> {
    /// Those maps, one for each group.
    pub fn new(maps: Vec<NewMap>) -> Newest<N>
        requires groups { length maps.items ≡ N.config.groups }
        requires primaries { All HasPrimary maps.items }
        ensures { result ≡ maps.items }
    {
        Newest {
            maps,
            of: PhantomData,
        }
    }

    /// The node that acts at that place of a group's acting list, the primary at 0.
    pub fn acting(&self, group: usize, place: usize) -> Option<NodeId>
        requires { group < N.config.groups }
    {
        self.maps[group].map.acting().get(place).copied()
    }

    /// A group's primary.
    pub fn primary(&self, group: usize) -> NodeId
        requires { group < N.config.groups }
    {
        self.maps[group].map.acting()[0]
    }

    /// The interval of a group's map.
    pub fn interval(&self, group: usize) -> Epoch
        requires { group < N.config.groups }
    {
        self.maps[group].map.interval()
    }

    /// True if it is new.
    pub fn is_new_interval(&self, group: usize) -> bool
        requires { group < N.config.groups }
    {
        self.maps[group].is_new_interval
    }

    /// A copy of a group's map.
    pub fn map(&self, alloc: Global, group: usize) -> Result<GroupMap, AllocError>
        requires { group < N.config.groups }
    {
        self.maps[group].map.copy(alloc)
    }
}

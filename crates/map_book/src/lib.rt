//! The maps of a cluster, one monitor a group, all moved together. No function here waits, and none
//! starts a thread; a cluster keeps its book under one lock. `MapBook::new_map` moves every group's
//! monitor by one map, whose acting list is the placement's of the given up nodes, or refuses, and
//! then no monitor has moved. It gives the maps, and tells of which groups the interval is new.
//! `MapBook::activate` is the activation of one group's monitor.
#![tactic(auto)]

mod book;
mod crossing;
mod map_error;
mod new_map;

pub use book::MapBook;
pub use crossing::book_crosses;
pub use map_error::MapError;
pub use new_map::NewMap;

//! The maps of all groups of a cluster, which are made together.

ghost use Rattle.std.specs.Prelude.{◌≡◌, ◌⊎◌, ℕ, ◌<◌, ◌≤◌, ◌-◌, ◌^◌, true, IsTrue, IfOk, IfErr, OnOk, OnErr};
ghost use Rattle.std.specs.Prelude.{MatchResult, Some, None, length, slice_get, slice_set, All};
ghost use Rattle.placement.specs.Placement.{is_group_count, is_acting, acting_of};
ghost use Rattle.placement.specs.Placement as placement;
ghost use Rattle.group_world.specs.Monitor.{MonitorState, with_map, next_map, activation_refusal, with_activated};
ghost use Rattle.map_book.specs.Book.{Book, IsBook, are_below, book_refusal, new_monitors, newest_maps, moved};
ghost use Rattle.map_book.specs.Book.{moved_from, maps_from, new_maps, new_after};
ghost use Rattle.map_book.specs.declared.map_error.MapError.TheVariants.{NoMemory};

use crate::map_error::MapError;
use crate::new_map::NewMap;
use group_world::{Epoch, GroupMap, MonitorError};
use peering::Monitor;
use placement::{ClusterMap, NodeId, acting, acting_sets, are_nodes};
use std::alloc::Global;
use std::marker::Model;

/// The monitors of a cluster's groups, which make their maps together: the newest maps have one
/// epoch. Contracts see how many nodes the cluster has, how many act for a group, that epoch, and
/// each group's monitor.
pub struct MapBook {
    alloc: Global,
    nodes: u64,
    replicas: usize,
    epoch: Epoch,
    monitors: Vec<Monitor>,
}

// Written out, so that a crate that drops a book calls this and needn't prove again how monitors
// are dropped.
impl Drop for MapBook {
    fn drop(self) {
        let MapBook {
            alloc: _,
            nodes: _,
            replicas: _,
            epoch: _,
            monitors,
        } = self;
        drop(monitors);
    }
}

impl Model for MapBook {
    ghost use Rattle.map_book.specs.Book.{Book, IsBook};

    ghost Value = { Book };

    ghost view = { λ b. record {
      nodes = b.nodes;
      replicas = b.replicas;
      epoch = b.epoch;
      monitors = b.monitors.items;
    } };

    ghost invariant = { λ b. IsBook b.nodes b.replicas b.epoch b.monitors.items };
}

/// Each node's number is below the bound.
fn are_below(bound: u64, nodes: &[NodeId]) -> bool
    ensures { result ≡ are_below bound nodes.now }
{
    for node in nodes {
        if node.get() >= bound {
            return false;
        }
    }
    true
}

/// A monitor after a map more, whose acting list is the placement's, and that map. It costs copies
/// of three maps.
fn moved(
    alloc: Global,
    monitor: &Monitor,
    cluster: &ClusterMap,
    group: u64,
) -> Result<(Monitor, NewMap), MapError>
    requires placed { placement.refusal_of cluster.now group ≡ None }
    requires epochs { monitor.now.newest.epoch < 2 ^ 32 - 1 }
    ensures monitor { IfOk result (λ r. r.0 ≡ with_map monitor.now (acting_of cluster.now group)) }
    ensures map { IfOk result
        (λ r. r.1 ≡ new_after monitor.now.newest (next_map monitor.now (acting_of cluster.now group))) }
    ensures err { IfErr result (λ e. e ≡ NoMemory) }
{
    acting_sets();
    let nodes = acting(alloc, cluster, group)?;
    let mut next = monitor.copy(alloc)?;
    let map = next.new_map(&nodes)?;
    let is_new_interval = map.interval() != monitor.newest().interval();
    Ok((
        next,
        NewMap {
            map,
            is_new_interval,
        },
    ))
}

/// The monitors after a map more of each, and those maps.
fn all_moved(
    alloc: Global,
    monitors: &[Monitor],
    cluster: &ClusterMap,
) -> Result<(Vec<Monitor>, Vec<NewMap>), MapError>
    requires placed { (group : ℕ) → group < length monitors.now → placement.refusal_of cluster.now group ≡ None }
    requires epochs { (group : ℕ) (m : MonitorState) → slice_get monitors.now group ≡ Some m →
        m.newest.epoch < 2 ^ 32 - 1 }
    ensures monitors { IfOk result (λ r. r.0.items ≡
        moved_from 0 cluster.now.replicas cluster.now.up.items monitors.now) }
    ensures maps { IfOk result (λ r. r.1.items ≡ maps_from 0 cluster.now.replicas cluster.now.up.items monitors.now) }
    ensures acting { (group : ℕ) → group < length monitors.now → is_acting (acting_of cluster.now group) ≡ true }
    ensures err { IfErr result (λ e. e ≡ NoMemory) }
{
    acting_sets();
    let mut next = Vec::new(alloc);
    let mut maps = Vec::new(alloc);
    next.reserve(monitors.len())?;
    maps.reserve(monitors.len())?;
    for group in 0..monitors.len() {
        let (monitor, map) = moved(alloc, &monitors[group], cluster, group as u64)?;
        next.push_reserved(monitor);
        maps.push_reserved(map);
    }
    Ok((next, maps))
}

impl MapBook {
    /// The book of a cluster with this number of nodes and groups, and with `replicas` nodes that
    /// act for a group. No map is made yet. Only memory may be refused.
    pub fn new(alloc: Global, nodes: u64, replicas: usize, groups: u64) -> Result<MapBook, MapError>
        requires nodes { nodes ≤ 16 }
        requires replicas { (1 ≤ replicas) × (replicas ≤ 3) }
        requires groups { IsTrue (is_group_count groups) }
        ensures ok { IfOk result (λ b. b ≡ record {
          nodes = nodes;
          replicas = replicas;
          epoch = 0;
          monitors = new_monitors groups;
        }) }
        ensures err { IfErr result (λ e. e ≡ NoMemory) }
    {
        let mut monitors = Vec::new(alloc);
        monitors.reserve(groups as usize)?;
        for _ in 0..groups {
            monitors.push_reserved(Monitor::new(alloc));
        }
        Ok(MapBook {
            alloc,
            nodes,
            replicas,
            epoch: Epoch::new(0),
            monitors,
        })
    }

    /// The epoch of the newest maps, 0 before the first.
    pub fn epoch(&self) -> Epoch
        ensures { result ≡ self.now.epoch }
    {
        self.epoch
    }

    /// The number of groups.
    pub fn groups(&self) -> usize
        ensures { result ≡ length self.now.monitors }
    {
        self.monitors.len()
    }

    /// A group's newest map, the empty one before the first.
    pub fn newest(&self, group: usize) -> &GroupMap
        requires { group < length self.now.monitors }
        ensures { slice_get (newest_maps self.now.monitors) group ≡ Some result.now }
    {
        self.monitors[group].newest()
    }

    /// Makes a map more of each group, and gives them in the order of the groups. Each acting list
    /// is the placement's of these up nodes: the first by falling score, as many as there are
    /// replicas. If a group's acting list stays, its interval does, and it needn't be told.
    ///
    /// Refused: `NoneUp` if no node is up; `Limit` if a number isn't that of a node of the
    /// cluster, or stands twice; `EpochsUsedUp` after epoch 2^32 - 1; of these the first. Memory
    /// may be refused in place of an answer. After a refusal no group's monitor has moved: all that
    /// grows does so before the first moves.
    pub fn new_map(&mut self, up: &[NodeId]) -> Result<Vec<NewMap>, MapError>
        ensures maps { IfOk result (λ v. v.items ≡ new_maps self.old up.now) }
        ensures acting { IfOk result (λ v. All (λ n. is_acting n.map.acting ≡ true) v.items) }
        ensures unrefused { OnOk result (book_refusal self.old up.now ≡ None) }
        ensures moved { OnOk result (self.new ≡ moved self.old up.now) }
        ensures refused { OnErr result (self.new ≡ self.old) }
        ensures why { IfErr result (λ e. (book_refusal self.old up.now ≡ Some e) ⊎
            ((e ≡ NoMemory) × (book_refusal self.old up.now ≡ None))) }
    {
        if up.is_empty() {
            return Err(MapError::NoneUp);
        }
        if !are_below(self.nodes, up) || !are_nodes(up) {
            return Err(MapError::Limit);
        }
        if self.epoch.get() == u32::MAX {
            return Err(MapError::EpochsUsedUp);
        }
        let epoch = Epoch::new(self.epoch.get() + 1);
        let cluster = ClusterMap {
            epoch: u64::from(epoch.get()),
            up: Vec::from_slice(self.alloc, up)?,
            replicas: self.replicas,
            groups: self.monitors.len() as u64,
        };
        let (monitors, maps) = all_moved(self.alloc, &self.monitors, &cluster)?;
        self.epoch = epoch;
        self.monitors = monitors;
        Ok(maps)
    }

    /// Activates an interval of a group, as its `Monitor::activate` does; the other groups stay as
    /// they are. It refuses by `NotNewest` if the interval isn't that of the group's newest map,
    /// and changes nothing then. It takes no memory.
    pub fn activate(&mut self, group: usize, interval: Epoch) -> Result<(), MonitorError>
        requires { group < length self.old.monitors }
        ensures answer { (m : MonitorState) → slice_get self.old.monitors group ≡ Some m →
            MatchResult result (λ _. activation_refusal m interval ≡ None)
            (λ e. activation_refusal m interval ≡ Some e) }
        ensures ok { (m : MonitorState) → slice_get self.old.monitors group ≡ Some m →
            OnOk result
            (self.new ≡ record (self.old) { monitors = slice_set self.old.monitors group (with_activated m) }) }
        ensures refused { OnErr result (self.new ≡ self.old) }
    {
        self.monitors[group].activate(interval)
    }
}

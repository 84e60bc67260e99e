ghost use Rattle.std.specs.Prelude.{◌≡◌, ◌⊎◌, ◌<◌, ◌-◌, ◌^◌, IfOk, IfErr, OnOk, OnErr, MatchResult, Some, None};
ghost use Rattle.group_world.specs.Maps.{no_map, interval_of};
ghost use Rattle.group_world.specs.Monitor.{no_maps, map_refusal, next_map, with_map, activation_refusal};
ghost use Rattle.group_world.specs.Monitor.{with_activated};
ghost use Rattle.peering.specs.Mapping.{IsNextMap};

use group_world::{Epoch, GroupMap, MonitorError};
use peering_messages::are_same;
use placement::{NodeId, is_acting};
use std::alloc::{AllocError, Global};
use std::marker::Model;
use std::mem;

/// The monitor of a group: it makes maps and activates intervals. It keeps two maps, however many
/// it made. Contracts see the newest map, and the interval that was activated last with its acting
/// nodes.
#[derive(Drop)]
pub struct Monitor {
    alloc: Global,
    newest: GroupMap,
    /// The newest map was the newest at the last activation.
    is_activated: bool,
    /// If it wasn't, the one that was.
    activated: GroupMap,
}

impl Model for Monitor {
    ghost use Rattle.std.specs.Prelude.{if◌then◌else◌};
    ghost use Rattle.group_world.specs.Maps.{interval_of};
    ghost use Rattle.group_world.specs.Monitor.{MonitorState};

    ghost Value = { MonitorState };

    ghost view = { λ m. record {
      newest = m.newest;
      activated = if m.is_activated then interval_of m.newest else interval_of m.activated;
    } };
}

/// No map.
fn no_map(alloc: Global) -> GroupMap
    ensures { result ≡ no_map }
{
    let none = Epoch::new(0);
    GroupMap::new(none, none, Vec::new(alloc), none, Vec::new(alloc))
}

/// An interval and its acting nodes.
#[derive(Clone, Copy)]
struct IntervalRef<'a> {
    interval: Epoch,
    acting: &'a [NodeId],
}

/// The map of that epoch, of an interval and the one before, with lists of its own.
fn map_of(
    alloc: Global,
    epoch: Epoch,
    current: &IntervalRef<'_>,
    prev: &IntervalRef<'_>,
) -> Result<GroupMap, AllocError>
    ensures { IfOk result (λ m. m ≡ record {
      epoch = epoch;
      interval = current.now.interval;
      acting = current.now.acting.now;
      prev = prev.now.interval;
      prev_acting = prev.now.acting.now;
    }) }
{
    let acting = Vec::from_slice(alloc, current.acting)?;
    let prev_acting = Vec::from_slice(alloc, prev.acting)?;
    let (interval, before) = (current.interval, prev.interval);
    Ok(GroupMap::new(epoch, interval, acting, before, prev_acting))
}

impl Monitor {
    /// The monitor before its first map. It takes no memory.
    pub fn new(alloc: Global) -> Monitor
        ensures { result ≡ no_maps }
    {
        Monitor {
            alloc,
            newest: no_map(alloc),
            is_activated: false,
            activated: no_map(alloc),
        }
    }
}

impl Monitor {
    /// Makes the next map, and gives it. If the acting list is that of the newest map, in the same
    /// order, the map keeps its interval and its `prev`; else an interval begins, and `prev` is the
    /// last activated one. It refuses by, the first that applies: `BadActing` if the list hasn't
    /// one to three nodes, or has one twice or a number above 15; `EpochsUsedUp` after epoch 2^32 -
    /// 1; `NoMemory`. A refusal leaves the monitor as it was.
    pub fn new_map(&mut self, acting: &[NodeId]) -> Result<GroupMap, MonitorError>
        ensures ok { IfOk result (λ m. (m ≡ next_map self.old acting.now) × (map_refusal self.old acting.now ≡ None)) }
        ensures made { OnOk result (self.new ≡ with_map self.old acting.now) }
        ensures refused { OnErr result (self.new ≡ self.old) }
        ensures err { IfErr result (λ e. (map_refusal self.old acting.now ≡ Some e) ⊎
            ((e ≡ MonitorError.NoMemory) × (map_refusal self.old acting.now ≡ None))) }
    {
        let next = self.next_map(self.alloc, acting)?;
        let kept = next.copy(self.alloc)?;
        self.keep(kept);
        Ok(next)
    }

    /// The map that it would make next. It is the first half of `new_map`, which takes the memory.
    /// It changes nothing, and refuses as `new_map` does. The map's lists are of the given
    /// allocator.
    pub fn next_map(&self, alloc: Global, acting: &[NodeId]) -> Result<GroupMap, MonitorError>
        ensures ok { IfOk result (λ m. (m ≡ next_map self.now acting.now) × (map_refusal self.now acting.now ≡ None)) }
        ensures next { IfOk result (λ m. IsNextMap self.now m) }
        ensures err { IfErr result (λ e. (map_refusal self.now acting.now ≡ Some e) ⊎
            ((e ≡ MonitorError.NoMemory) × (map_refusal self.now acting.now ≡ None))) }
    {
        if !is_acting(acting) {
            return Err(MonitorError::BadActing);
        }
        if self.newest.epoch().get() == u32::MAX {
            return Err(MonitorError::EpochsUsedUp);
        }
        let map = self.map_after(alloc, acting)?;
        Ok(map)
    }

    /// Keeps its next map as the newest, which is `new_map`'s second half. It takes no memory, and
    /// can't be refused.
    pub fn keep(&mut self, map: GroupMap)
        requires { IsNextMap self.old map }
        ensures { self.new ≡ with_map self.old map.acting }
    {
        let before = mem::replace(&mut self.newest, map);
        // The replaced map was the newest at the last activation, so it is kept.
        if self.is_activated {
            self.activated = before;
            self.is_activated = false;
        }
    }

    /// The next map of an acting list.
    fn map_after(&self, alloc: Global, acting: &[NodeId]) -> Result<GroupMap, AllocError>
        requires { self.now.newest.epoch < 2 ^ 32 - 1 }
        ensures { IfOk result (λ m. m ≡ next_map self.now acting.now) }
    {
        let epoch = Epoch::new(self.newest.epoch().get() + 1);
        if are_same(self.newest.acting(), acting) {
            let interval = self.newest.interval();
            let before = IntervalRef {
                interval: self.newest.prev(),
                acting: self.newest.prev_acting(),
            };
            return map_of(alloc, epoch, &IntervalRef { interval, acting }, &before);
        }
        let last = self.last_activated();
        let begun = IntervalRef {
            interval: epoch,
            acting,
        };
        let before = IntervalRef {
            interval: last.interval(),
            acting: last.acting(),
        };
        map_of(alloc, epoch, &begun, &before)
    }

    /// The newest map, `no_map` before the first.
    pub fn newest(&self) -> &GroupMap
        ensures { result.now ≡ self.now.newest }
    {
        &self.newest
    }

    /// The map that was the newest at the last activation.
    fn last_activated(&self) -> &GroupMap
        ensures { interval_of result.now ≡ self.now.activated }
    {
        if self.is_activated {
            &self.newest
        } else {
            &self.activated
        }
    }

    /// Activates an interval. It refuses by `NotNewest` if it isn't the newest map's, and is then
    /// as it was. A second time changes nothing, also after a map that kept the interval. It takes
    /// no memory.
    pub fn activate(&mut self, interval: Epoch) -> Result<(), MonitorError>
        ensures answer { MatchResult result (λ _. activation_refusal self.old interval ≡ None)
            (λ e. activation_refusal self.old interval ≡ Some e) }
        ensures ok { OnOk result (self.new ≡ with_activated self.old) }
        ensures refused { OnErr result (self.new ≡ self.old) }
    {
        // Interval 0 is that of `no_map`: before the first map there is nothing to activate.
        if interval.get() == 0 || interval != self.newest.interval() {
            return Err(MonitorError::NotNewest);
        }
        self.is_activated = true;
        Ok(())
    }

    /// An equal monitor. It refuses by `NoMemory` alone.
    pub fn copy(&self, alloc: Global) -> Result<Monitor, MonitorError>
        ensures ok { IfOk result (λ m. m ≡ self.now) }
        ensures err { IfErr result (λ e. e ≡ MonitorError.NoMemory) }
    {
        Ok(Monitor {
            alloc,
            newest: self.newest.copy(alloc)?,
            is_activated: self.is_activated,
            activated: self.activated.copy(alloc)?,
        })
    }
}

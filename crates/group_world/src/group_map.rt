ghost use Rattle.std.specs.Prelude.{◌≡◌, IfOk};

use placement::{Epoch, NodeId};
use std::alloc::{AllocError, Global};
use std::marker::Model;

/// A map of the group, made by the monitor. Contracts see its parts.
pub struct GroupMap {
    epoch: Epoch,
    interval: Epoch,
    acting: Vec<NodeId>,
    prev: Epoch,
    prev_acting: Vec<NodeId>,
}

impl Drop for GroupMap {
    fn drop(self) {
        let GroupMap {
            epoch: _,
            interval: _,
            acting,
            prev: _,
            prev_acting,
        } = self;
        drop(acting);
        drop(prev_acting);
    }
}

impl Model for GroupMap {
    ghost use Rattle.group_world.specs.Maps.{GroupMap};

    ghost Value = { GroupMap };

    ghost view = { λ m. record {
      epoch = m.epoch;
      interval = m.interval;
      acting = m.acting.items;
      prev = m.prev;
      prev_acting = m.prev_acting.items;
    } };
}

impl GroupMap {
    /// The map of those parts.
    pub fn new(
        epoch: Epoch,
        interval: Epoch,
        acting: Vec<NodeId>,
        prev: Epoch,
        prev_acting: Vec<NodeId>,
    ) -> GroupMap
        ensures { result ≡ record {
          epoch = epoch;
          interval = interval;
          acting = acting.items;
          prev = prev;
          prev_acting = prev_acting.items;
        } }
    {
        GroupMap {
            epoch,
            interval,
            acting,
            prev,
            prev_acting,
        }
    }

    /// The map's number.
    pub fn epoch(&self) -> Epoch
        ensures { result ≡ self.now.epoch }
    {
        self.epoch
    }

    /// The epoch since which the acting list is the same.
    pub fn interval(&self) -> Epoch
        ensures { result ≡ self.now.interval }
    {
        self.interval
    }

    /// The nodes that act, the primary first.
    pub fn acting(&self) -> &[NodeId]
        ensures { result.now ≡ self.now.acting }
    {
        &self.acting
    }

    /// The interval that was activated last when this one began, 0 if none was.
    pub fn prev(&self) -> Epoch
        ensures { result ≡ self.now.prev }
    {
        self.prev
    }

    /// The nodes that acted in that interval, its primary first.
    pub fn prev_acting(&self) -> &[NodeId]
        ensures { result.now ≡ self.now.prev_acting }
    {
        &self.prev_acting
    }

    /// An equal map.
    pub fn copy(&self, alloc: Global) -> Result<GroupMap, AllocError>
        ensures { IfOk result (λ m. m ≡ self.now) }
    {
        Ok(GroupMap {
            epoch: self.epoch,
            interval: self.interval,
            acting: Vec::from_slice(alloc, &self.acting)?,
            prev: self.prev,
            prev_acting: Vec::from_slice(alloc, &self.prev_acting)?,
        })
    }
}

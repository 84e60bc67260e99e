ghost use Rattle.std.specs.Prelude.{◌≡◌};

use crate::numbers::Numbers;
use group_world::{Epoch, HandleError, MonitorError, Status};
use placement::NodeId;

/// A map that the monitor made.
#[derive(Clone, Copy, Drop)]
pub struct MapMade {
    /// Its number.
    pub epoch: Epoch,
    /// The epoch since which its acting list is the same.
    pub interval: Epoch,
    /// The interval that was activated last before that one, 0 if none was.
    pub prev: Epoch,
}

/// A node's state.
#[derive(Clone, Copy, Drop)]
pub struct NodeShown {
    /// Its number.
    pub node: NodeId,
    /// The interval that it is in, 0 before the first.
    pub interval: Epoch,
    /// Its status in that interval.
    pub status: Status,
    /// The number of entries of its log.
    pub length: usize,
    /// The number of them that are committed.
    pub committed: usize,
}

/// The result of a line.
#[derive(Drop)]
pub enum Taken {
    /// The line is bad, and nothing happened.
    Bad,
    /// The line says nothing.
    Skipped,
    /// Its node is stopped, and nothing happened.
    Stopped,
    /// It happened, and sent this number of messages, which have the highest numbers.
    Sent(usize),
    /// The node refused it.
    Refused(HandleError),
    /// The monitor refused it.
    MonitorRefused(MonitorError),
    /// The monitor made a map.
    Made(MapMade),
    /// A node was asked for.
    Shown(NodeShown),
    /// A node sends these messages again.
    Again(Numbers),
}

impl Taken {
    ghost use Rattle.sim_world.specs.Texts.{is_bad};

    /// True if the line is bad.
    pub fn is_bad(&self) -> bool
        ensures { result ≡ is_bad self.now }
    {
        match self {
            Taken::Bad => true,
            Taken::Skipped => false,
            Taken::Stopped => false,
            Taken::Sent(_) => false,
            Taken::Refused(_) => false,
            Taken::MonitorRefused(_) => false,
            Taken::Made(_) => false,
            Taken::Shown(_) => false,
            Taken::Again(_) => false,
        }
    }
}

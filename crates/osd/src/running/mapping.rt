//! New maps of a running cluster, and how nodes are told of them.

ghost use Rattle.std.specs.Prelude.{◌<◌, IfOk, IfErr};
ghost use Rattle.osd.specs.Sent.{OnlySent, IsInternalTo, IsAny};
ghost use Rattle.osd.specs.Maps.{WasMade, WasRefused};

use crate::cause::Cause;
use crate::name::ClusterName;
use crate::newest::Newest;
use crate::running::Running;
use crate::sends::Sends;
use map_book::MapError;
use placement::{NodeId, REPLICA_LIMIT};
use std::sync::Wait;

impl<N: ClusterName, R: Wait> Running<N, R> {
    /// Makes a map of these up nodes for each group, and gives its epoch. Each acting node of a
    /// group whose interval is new is handed the map; what a full queue or memory refuses then is
    /// lost, and a nudge hands it on later. It refuses by the first that applies: `NoneUp`, `Limit`
    /// (a number that isn't a node's, or a node twice), `EpochsUsedUp`; or by `NoMemory`. The maps
    /// are then as before.
    pub fn new_map(&self, up: &[NodeId]) -> Result<u32, MapError>
        ensures made { IfOk result (WasMade N.config up.now) }
        ensures refused { IfErr result (WasRefused N.config up.now) }
    {
        let mut monitors = self.monitors.lock(&self.rt);
        let (maps, epoch) = monitors.new_map(up)?;
        *self.newest.lock(&self.rt) = Newest::new(maps);
        self.tell_all(&mut monitors.sends);
        Ok(epoch)
    }

    /// Hands each group's newest map to its acting nodes, if its interval is new.
    pub(crate) fn tell_all(&self, sends: &mut Sends<N>)
        ensures { OnlySent sends.old sends.new IsAny }
    {
        for group in 0..self.config.groups as usize {
            self.tell_group(sends, group);
        }
    }

    /// Hands a group's newest map to its acting nodes, and has its primary asked from now on, if its
    /// interval is new.
    fn tell_group(&self, sends: &mut Sends<N>, group: usize)
        requires { group < N.config.groups }
        ensures { OnlySent sends.old sends.new (IsInternalTo group) }
    {
        if !self.newest.lock(&self.rt).is_new_interval(group) {
            return;
        }
        let primary = self.newest.lock(&self.rt).primary(group);
        self.primaries.set(group, primary);
        for place in 0..REPLICA_LIMIT {
            self.tell_at(sends, group, place);
        }
    }

    /// Hands a group's newest map to the node that acts at that place.
    fn tell_at(&self, sends: &mut Sends<N>, group: usize, place: usize)
        requires { group < N.config.groups }
        ensures { OnlySent sends.old sends.new (IsInternalTo group) }
    {
        let Some(node) = self.acting(group, place) else {
            return;
        };
        self.tell_map(sends, Cause::Event, group, node);
    }
}

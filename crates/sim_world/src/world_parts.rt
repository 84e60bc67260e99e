//! The parts of a played world, and what a line does to them.
ghost use Rattle.std.specs.Prelude.{◌≡◌, ◌&&◌, not, length, IfOk, IsTrue, IsFalse, option_copied, slice_get};
ghost use Rattle.std.specs.Prelude.{string_bytes};
ghost use Rattle.group_world.specs.Monitor.{map_refusal};
ghost use Rattle.group_world.specs.Rules.{local_step};
ghost use Rattle.sim_world.specs.Lines.{numbered};
ghost use Rattle.sim_world.specs.Texts.{made_of, shown_of};
ghost use Rattle.sim_world.specs.inner.Parts.{Turn, first_parts, fresh_nodes, turn, has_node, has_stopped, seen, shown};
ghost use Rattle.sim_world.specs.inner.Parts.{arrives, map_made, stop_set, sent_again, resent, unless_held, handled};
ghost use Rattle.sim_world.specs.inner.Parts.{kept_taken, IsTaken};

use crate::counted::numbered;
use crate::keeping::keep_sent;
use crate::kept::KeptMessage;
use crate::line::Line;
use crate::same::numbers_of;
use crate::sent::Sent;
use crate::taken::{MapMade, NodeShown, Taken};
use crate::text::taken_text;
use group_world::{Event, GroupMap, HandleError, Messages, MonitorError};
use peering::{GroupNode, Monitor};
use pg_log::{ClassTable, Classes};
use placement::NodeId;
use std::alloc::{AllocError, Global};
use std::marker::Model;

/// The number of nodes; theirs are from 0 on.
const NODE_COUNT: usize = 16;

/// The parts of a played world: every map, the monitor, the nodes, which of them are stopped, and
/// every message as it is kept. Contracts see them.
#[derive(Drop)]
pub(crate) struct Parts<C: Classes> {
    pub(crate) alloc: Global,
    pub(crate) maps: Vec<GroupMap>,
    pub(crate) monitor: Monitor,
    pub(crate) nodes: Vec<GroupNode<C>>,
    pub(crate) stopped: Vec<bool>,
    pub(crate) sent: Sent,
}

impl<C: Classes> Model for Parts<C> {
    ghost use Rattle.sim_world.specs.inner.Parts.{Parts};

    ghost Value = { Parts };

    ghost view = { λ w. record {
      maps = w.maps.items;
      monitor = w.monitor;
      nodes = w.nodes.items;
      stopped = w.stopped.items;
      sent = w.sent;
    } };
}

/// Nodes that have learned nothing.
fn fresh_nodes<C: Classes>(alloc: Global) -> Result<Vec<GroupNode<C>>, AllocError>
    ensures { IfOk result (λ v. v.items ≡ fresh_nodes NODE_COUNT) }
{
    let mut nodes = Vec::new(alloc);
    for number in 0..NODE_COUNT {
        nodes.push(GroupNode::new(alloc, NodeId::new(number as u64)))?;
    }
    Ok(nodes)
}

impl<C: Classes> Parts<C> {
    /// Nodes that have learned nothing, no map and no message. It fails for want of memory alone.
    pub(crate) fn new(alloc: Global) -> Result<Parts<C>, AllocError>
        ensures { IfOk result (λ w. w ≡ first_parts) }
    {
        let stopped = vec![in alloc; false; NODE_COUNT]?;
        let sent = Sent::new(alloc)?;
        let nodes = fresh_nodes(alloc)?;
        Ok(Parts {
            alloc,
            maps: Vec::new(alloc),
            monitor: Monitor::new(alloc),
            nodes,
            stopped,
            sent,
        })
    }

    /// The messages that were sent, as they are kept.
    pub(crate) fn messages(&self) -> &[KeptMessage]
        ensures { result.now ≡ self.now.sent }
    {
        self.sent.items()
    }

    /// The number of maps that were made.
    pub(crate) fn map_count(&self) -> usize
        ensures { result ≡ length self.now.maps }
    {
        self.maps.len()
    }

    /// The node of a number, if it is there.
    pub(crate) fn node(&self, number: NodeId) -> Option<&GroupNode<C>>
        ensures { option_copied result ≡ slice_get self.now.nodes number }
    {
        self.nodes.get(number.get() as usize)
    }

    /// The text that is printed of a line, by what came of it.
    pub(crate) fn text(&self, taken: &Taken) -> Result<String, AllocError>
        ensures { IfOk result (λ t. string_bytes t ≡ kept_taken self.now.sent taken.now) }
    {
        taken_text(self.alloc, self.sent.items(), taken)
    }

    /// True if there is such a node.
    fn is_node(&self, node: NodeId) -> bool
        ensures { result ≡ has_node self.now node }
    {
        (node.get() as usize) < self.nodes.len()
    }

    /// True if it is stopped.
    fn is_stopped(&self, node: NodeId) -> bool
        ensures { result ≡ has_stopped self.now node }
    {
        match self.stopped.get(node.get() as usize) {
            Some(stopped) => *stopped,
            None => false,
        }
    }

    /// True if it is there and isn't stopped.
    fn runs(&self, node: NodeId) -> bool
        ensures { result ≡ (has_node self.now node && not (has_stopped self.now node)) }
    {
        self.is_node(node) && !self.is_stopped(node)
    }

    /// The result at a node that is stopped or isn't there: nothing happens, whatever comes to it.
    fn stands(&self, node: NodeId) -> Taken
        requires { IsFalse (has_node self.now node && not (has_stopped self.now node)) }
        ensures { (t : Turn) → record { parts = self.now; taken = result } ≡ unless_held self.now node t }
    {
        if self.is_node(node) {
            Taken::Stopped
        } else {
            Taken::Bad
        }
    }
}

/// A node takes an event, or refuses it for another reason than memory.
fn take_event<C: Classes>(
    table: &ClassTable,
    node: &mut GroupNode<C>,
    event: Event,
) -> Result<Result<Messages, HandleError>, AllocError>
    requires { table.now ≡ C.classes }
    ensures { IfOk result
        (λ taken. IsTaken node.old node.new taken (local_step table.now node.old.number node.old.state event)) }
{
    // Its log is legal; the call does nothing.
    let _ = node.group().entries();
    match node.handle(table, event) {
        Ok(sent) => Ok(Ok(sent)),
        Err(HandleError::NoMemory) => Err(AllocError),
        Err(error) => Ok(Err(error)),
    }
}

/// A map as it is said.
fn made_of(map: &GroupMap) -> MapMade
    ensures { result ≡ made_of map.now }
{
    MapMade {
        epoch: map.epoch(),
        interval: map.interval(),
        prev: map.prev(),
    }
}

/// A node as it is shown.
fn shown_of<C: Classes>(number: NodeId, node: &GroupNode<C>) -> NodeShown
    ensures { result ≡ shown_of number node.now.state }
{
    NodeShown {
        node: number,
        interval: node.epoch(),
        status: node.status(),
        length: node.len(),
        committed: node.committed(),
    }
}

impl<C: Classes> Parts<C> {
    /// An event at a node that is there and runs.
    fn handle(
        &mut self,
        table: &ClassTable,
        node: NodeId,
        event: Event,
    ) -> Result<Taken, AllocError>
        requires table { table.now ≡ C.classes }
        requires known { IsTrue (has_node self.old node) }
        ensures { IfOk result (λ t. record { parts = self.new; taken = t } ≡ handled table.now self.old node event) }
    {
        match take_event(table, &mut self.nodes[node.get() as usize], event)? {
            Ok(sent) => keep_sent(&self.nodes, sent, &mut self.sent).map(Taken::Sent),
            Err(error) => Ok(Taken::Refused(error)),
        }
    }

    /// An event comes to a node, or was lost.
    pub(crate) fn at_node(
        &mut self,
        table: &ClassTable,
        node: NodeId,
        event: Option<Event>,
    ) -> Result<Taken, AllocError>
        requires { table.now ≡ C.classes }
        ensures { IfOk result (λ t. record { parts = self.new; taken = t } ≡ arrives table.now self.old node event) }
    {
        if !self.runs(node) {
            return Ok(self.stands(node));
        }
        match event {
            Some(event) => self.handle(table, node, event),
            None => Ok(Taken::Sent(0)),
        }
    }

    /// The monitor makes a map.
    fn make_map(&mut self, acting: &[NodeId]) -> Result<Taken, AllocError>
        ensures { IfOk result (λ t. record { parts = self.new; taken = t } ≡
            map_made self.old acting.now (map_refusal self.old.monitor acting.now)) }
    {
        match self.monitor.new_map(acting) {
            Ok(map) => {
                let made = made_of(&map);
                self.maps.push(map)?;
                Ok(Taken::Made(made))
            }
            Err(MonitorError::NoMemory) => Err(AllocError),
            Err(error) => Ok(Taken::MonitorRefused(error)),
        }
    }

    /// A node learns a map.
    fn see(&mut self, table: &ClassTable, node: NodeId, epoch: u64) -> Result<Taken, AllocError>
        requires { table.now ≡ C.classes }
        ensures { IfOk result (λ t. record { parts = self.new; taken = t } ≡
            seen table.now self.old node (numbered self.old.maps epoch)) }
    {
        match numbered(&self.maps, epoch) {
            Some(map) => {
                let map = map.copy(self.alloc)?;
                self.at_node(table, node, Some(Event::Map(map)))
            }
            None => Ok(Taken::Bad),
        }
    }

    /// Shows a node's state.
    fn show(&self, node: NodeId) -> Taken
        ensures { record { parts = self.now; taken = result } ≡ shown self.now node }
    {
        match self.nodes.get(node.get() as usize) {
            Some(standing) => Taken::Shown(shown_of(node, standing)),
            None => Taken::Bad,
        }
    }

    /// A node stops, or goes on.
    fn set_stopped(&mut self, node: NodeId, stopped: bool) -> Taken
        ensures { record { parts = self.new; taken = result } ≡ stop_set self.old node stopped }
    {
        if !self.is_node(node) {
            return Taken::Bad;
        }
        if let Some(place) = self.stopped.get_mut(node.get() as usize) {
            *place = stopped;
        }
        Taken::Sent(0)
    }

    /// The messages that a node that is there would send again.
    fn again(&self, node: NodeId) -> Result<Taken, AllocError>
        requires { IsTrue (has_node self.now node) }
        ensures { IfOk result (λ t. record { parts = self.now; taken = t } ≡ sent_again self.now node) }
    {
        let Ok(again) = self.nodes[node.get() as usize].resend() else {
            return Err(AllocError);
        };
        numbers_of(self.alloc, &self.sent, again.into_items()).map(Taken::Again)
    }

    /// A node says what it would send again.
    fn resend(&self, node: NodeId) -> Result<Taken, AllocError>
        ensures { IfOk result (λ t. record { parts = self.now; taken = t } ≡ resent self.now node) }
    {
        if self.runs(node) {
            return self.again(node);
        }
        Ok(self.stands(node))
    }

    /// Does a line. If memory is refused, the parts are of no further use.
    pub(crate) fn take(&mut self, table: &ClassTable, line: Line) -> Result<Taken, AllocError>
        requires { table.now ≡ C.classes }
        ensures { IfOk result (λ t. record { parts = self.new; taken = t } ≡ turn table.now self.old line) }
    {
        match line {
            Line::Empty => Ok(Taken::Skipped),
            Line::Map(acting) => self.make_map(acting.items()),
            Line::See(node, epoch) => self.see(table, node, epoch),
            Line::Ask(node, request) => self.at_node(table, node, Some(Event::Request(request))),
            Line::Deliver(number) => self.deliver(table, number),
            Line::Show(node) => Ok(self.show(node)),
            Line::Stop(node) => Ok(self.set_stopped(node, true)),
            Line::Go(node) => Ok(self.set_stopped(node, false)),
            Line::Resend(node) => self.resend(node),
            Line::Bad => Ok(Taken::Bad),
        }
    }
}

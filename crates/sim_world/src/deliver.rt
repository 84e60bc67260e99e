//! Messages come to their receivers.
ghost use Rattle.std.specs.Prelude.{◌≡◌, IfOk};
ghost use Rattle.carried.specs.Carried.{message_of};
ghost use Rattle.group_world.specs.Monitor.{activation_refusal};
ghost use Rattle.group_world.specs.World.{activated_for};
ghost use Rattle.sim_world.specs.Lines.{numbered};
ghost use Rattle.sim_world.specs.inner.Parts.{activated, asked_of, at_monitor, delivered, delivered_at, delivery_of};
ghost use Rattle.sim_world.specs.inner.Parts.{nth_node};

use crate::counted::numbered;
use crate::keeping::keep;
use crate::kept::KeptMessage;
use crate::taken::Taken;
use crate::world_parts::Parts;
use carried::{CarriedKind, CarriedMessage, message_of};
use group_world::{Epoch, Event, Message, MessageKind, Packet, Party};
use peering::GroupNode;
use pg_log::{ClassTable, Classes};
use placement::NodeId;
use std::alloc::{AllocError, Global};

/// A delivery.
#[derive(Drop)]
pub(crate) enum Delivery {
    /// To that node, that message; none if a list was lost.
    ToNode(NodeId, Option<Message>),
    /// To the monitor, from that sender, which asks it to activate that interval, if any.
    ToMonitor(Party, Option<Epoch>),
    /// To a client.
    ToClient,
}

/// The monitor's answer.
fn activated_for(asker: Party, interval: Epoch) -> Packet
    ensures { result ≡ activated_for asker interval }
{
    Packet {
        receiver: asker,
        message: Message {
            sender: Party::Monitor,
            kind: MessageKind::Activated(interval),
        },
    }
}

/// The interval that the monitor is asked to activate, if that is said.
#[rattlefmt::skip]
fn asked_of(kind: &CarriedKind) -> Option<Epoch>
    ensures { result ≡ asked_of kind.now }
{
    match kind {
        CarriedKind::AskActivate(interval) => Some(*interval),
        CarriedKind::Query(_, _)           => None,
        CarriedKind::Log(_, _)             => None,
        CarriedKind::Install(_, _)         => None,
        CarriedKind::Installed(_)          => None,
        CarriedKind::Activated(_)          => None,
        CarriedKind::Rep(_, _, _)          => None,
        CarriedKind::Ack(_, _)             => None,
        CarriedKind::Reply(_, _, _, _)     => None,
    }
}

/// The message that comes to a node: a list with the beginning that the node has.
fn coming_to<C: Classes>(
    alloc: Global,
    nodes: &[GroupNode<C>],
    node: NodeId,
    message: &CarriedMessage,
) -> Result<Option<Message>, AllocError>
    ensures { IfOk result (λ m. m ≡ message_of (nth_node nodes.now node).state.log message.now) }
{
    let Ok(message) = message.copy(alloc) else {
        return Err(AllocError);
    };
    let entries = match nodes.get(node.get() as usize) {
        Some(node) => node.group().entries(),
        None => &[],
    };
    match message_of(alloc, entries, message) {
        Ok(message) => Ok(message),
        Err(_) => Err(AllocError),
    }
}

/// The delivery of a message.
fn delivery_of<C: Classes>(
    alloc: Global,
    nodes: &[GroupNode<C>],
    kept: &KeptMessage,
) -> Result<Delivery, AllocError>
    ensures { IfOk result (λ d. d ≡ delivery_of nodes.now kept.now) }
{
    match kept.receiver {
        Party::Node(node) => {
            let coming = coming_to(alloc, nodes, node, &kept.message)?;
            Ok(Delivery::ToNode(node, coming))
        }
        Party::Monitor => Ok(Delivery::ToMonitor(
            kept.message.sender,
            asked_of(&kept.message.kind),
        )),
        Party::Client(_) => Ok(Delivery::ToClient),
    }
}

impl<C: Classes> Parts<C> {
    /// The monitor is asked to activate an interval, and says so if it does.
    fn activate(&mut self, asker: Party, interval: Epoch) -> Result<Taken, AllocError>
        ensures { IfOk result (λ t. record { parts = self.new; taken = t } ≡
            activated self.old asker interval (activation_refusal self.old.monitor interval)) }
    {
        match self.monitor.activate(interval) {
            Ok(()) => {
                let packet = activated_for(asker, interval);
                let kept = keep(&self.nodes, packet);
                self.sent.push(kept)?;
                Ok(Taken::Sent(1))
            }
            Err(error) => Ok(Taken::MonitorRefused(error)),
        }
    }

    /// The monitor takes a message.
    fn at_monitor(&mut self, asker: Party, interval: Option<Epoch>) -> Result<Taken, AllocError>
        ensures { IfOk result (λ t. record { parts = self.new; taken = t } ≡ at_monitor self.old asker interval) }
    {
        match interval {
            Some(interval) => self.activate(asker, interval),
            None => Ok(Taken::Sent(0)),
        }
    }

    /// A message comes to its receiver.
    fn arrive(&mut self, table: &ClassTable, delivery: Delivery) -> Result<Taken, AllocError>
        requires { table.now ≡ C.classes }
        ensures { IfOk result (λ t. record { parts = self.new; taken = t } ≡ delivered table.now self.old delivery) }
    {
        match delivery {
            Delivery::ToNode(node, coming) => self.at_node(table, node, coming.map(Event::Message)),
            Delivery::ToMonitor(asker, interval) => self.at_monitor(asker, interval),
            Delivery::ToClient => Ok(Taken::Sent(0)),
        }
    }

    /// The message of a number is delivered.
    pub(crate) fn deliver(&mut self, table: &ClassTable, number: u64) -> Result<Taken, AllocError>
        requires { table.now ≡ C.classes }
        ensures { IfOk result (λ t. record { parts = self.new; taken = t } ≡
            delivered_at table.now self.old (numbered self.old.sent number)) }
    {
        match numbered(self.sent.items(), number) {
            Some(kept) => {
                let delivery = delivery_of(self.alloc, &self.nodes, kept)?;
                self.arrive(table, delivery)
            }
            None => Ok(Taken::Bad),
        }
    }
}

ghost use Rattle.std.specs.Prelude.{◌≡◌};

use anyhow::{Context, Result};
use group_world::{Epoch, Event, GroupMap, Message, MessageKind, Packet, Party};
use peering::GroupNode;
use pg_log::{ClassTable, Classes};
use placement::NodeId;
use std::alloc::{AllocError, Global};

/// The nodes of a group.
const NODES: usize = 3;

/// More messages than a map of a new group leads to, and more than a request does.
const MOST: usize = 16;

/// The epoch of the map.
const ONE: u32 = 1;

/// An event on its way to the node at that place.
#[derive(Drop)]
pub struct Delivery {
    place: usize,
    event: Event,
}

impl Delivery {
    /// An event on its way to the primary.
    pub fn to_primary(event: Event) -> Delivery {
        Delivery { place: 0, event }
    }

    /// A packet on its way. One for the monitor asks it to activate the one interval, which it
    /// does; one for a client isn't delivered.
    pub fn of(packet: Packet) -> Option<Delivery> {
        let Packet { receiver, message } = packet;
        match receiver {
            Party::Node(node) => Some(Delivery {
                place: node.get() as usize,
                event: Event::Message(message),
            }),
            Party::Monitor => {
                drop(message);
                Some(Delivery::to_primary(activated()))
            }
            Party::Client(_) => {
                drop(message);
                None
            }
        }
    }
}

/// The monitor has activated the interval.
fn activated() -> Event {
    Event::Message(Message {
        sender: Party::Monitor,
        kind: MessageKind::Activated(Epoch::new(ONE)),
    })
}

/// The map for which all nodes act.
fn map(alloc: Global) -> Result<GroupMap, AllocError> {
    let mut acting = Vec::new(alloc);
    for number in 0..NODES {
        acting.push(NodeId::new(number as u64))?;
    }
    let (one, none) = (Epoch::new(ONE), Epoch::new(0));
    Ok(GroupMap::new(one, one, acting, none, Vec::new(alloc)))
}

/// The nodes of a group that is active, the primary first.
pub fn active<C: Classes>(alloc: Global, table: &ClassTable) -> Result<Vec<GroupNode<C>>>
    requires { table.now ≡ C.classes }
{
    let mut nodes = Vec::new(alloc);
    for number in 0..NODES {
        nodes.push(GroupNode::<C>::new(alloc, NodeId::new(number as u64)))?;
    }
    settle(alloc, table, &mut nodes, Event::Map(map(alloc)?))?;
    Ok(nodes)
}

/// Brings an event to the primary, and the messages that it leads to.
pub fn settle<C: Classes>(
    alloc: Global,
    table: &ClassTable,
    nodes: &mut Vec<GroupNode<C>>,
    event: Event,
) -> Result<()>
    requires { table.now ≡ C.classes }
{
    let mut waiting = Vec::new(alloc);
    waiting.push(Delivery::to_primary(event))?;
    for _ in 0..MOST {
        let Some(delivery) = waiting.pop() else {
            break;
        };
        for packet in bring(table, nodes, delivery)? {
            if let Some(delivery) = Delivery::of(packet) {
                waiting.push(delivery)?;
            }
        }
    }
    Ok(())
}

/// Brings an event to its node. The packets that it sends.
fn bring<C: Classes>(
    table: &ClassTable,
    nodes: &mut Vec<GroupNode<C>>,
    delivery: Delivery,
) -> Result<Vec<Packet>>
    requires { table.now ≡ C.classes }
{
    let Delivery { place, event } = delivery;
    let node = nodes.get_mut(place).context("a node")?;
    // For the proof: reading the log says that its list is legal.
    let _ = node.group().entries();
    Ok(node.handle(table, event)?.into_items())
}

/// Brings each of these to its node, in turn. The packets that they send.
pub fn bring_all<C: Classes>(
    table: &ClassTable,
    nodes: &mut Vec<GroupNode<C>>,
    deliveries: Vec<Delivery>,
    mut sent: Vec<Packet>,
) -> Result<Vec<Packet>>
    requires { table.now ≡ C.classes }
{
    for delivery in deliveries {
        for packet in bring(table, nodes, delivery)? {
            sent.push(packet)?;
        }
    }
    Ok(sent)
}

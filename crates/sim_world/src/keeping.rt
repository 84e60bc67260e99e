//! Messages are kept as they are sent, without what their receivers have of a list.
ghost use Rattle.std.specs.Prelude.{◌≡◌, ◌++◌, IfOk, OnOk, length, map};
ghost use Rattle.sim_world.specs.inner.Parts.{committed_of, kept};

use crate::kept::KeptMessage;
use crate::sent::Sent;
use group_world::{Messages, Packet, Party};
use peering::GroupNode;
use pg_log::Classes;
use std::alloc::AllocError;

/// The number of requests that a party has committed; one that is no node here has none.
fn committed_of<C: Classes>(nodes: &[GroupNode<C>], party: Party) -> usize
    ensures { result ≡ committed_of nodes.now party }
{
    match party {
        Party::Node(node) => match nodes.get(node.get() as usize) {
            Some(node) => node.committed(),
            None => 0,
        },
        Party::Monitor => 0,
        Party::Client(_) => 0,
    }
}

/// The number of requests that the sender of a message has committed.
fn sender_has<C: Classes>(nodes: &[GroupNode<C>], packet: &Packet) -> usize
    ensures { result ≡ committed_of nodes.now packet.now.message.sender }
{
    committed_of(nodes, packet.message.sender)
}

/// The number that its receiver has.
fn receiver_has<C: Classes>(nodes: &[GroupNode<C>], packet: &Packet) -> usize
    ensures { result ≡ committed_of nodes.now packet.now.receiver }
{
    committed_of(nodes, packet.receiver)
}

/// A message as it is kept.
pub(crate) fn keep<C: Classes>(nodes: &[GroupNode<C>], packet: Packet) -> KeptMessage
    ensures { result ≡ kept nodes.now packet }
{
    let committed = sender_has(nodes, &packet);
    let reported = receiver_has(nodes, &packet);
    KeptMessage::new(committed, reported, packet)
}

/// Keeps messages after those that were sent before.
fn keep_all<C: Classes>(
    nodes: &[GroupNode<C>],
    packets: Vec<Packet>,
    sent: &mut Sent,
) -> Result<(), AllocError>
    ensures { OnOk result (sent.new ≡ sent.old ++ map (kept nodes.now) packets.items) }
{
    let mut rest = packets.into_iter();
    while let Some(packet) = rest.next() {
        sent.push(keep(nodes, packet))?;
    }
    Ok(())
}

/// Keeps what a node sent after what was sent before, and says how many messages that is.
pub(crate) fn keep_sent<C: Classes>(
    nodes: &[GroupNode<C>],
    packets: Messages,
    sent: &mut Sent,
) -> Result<usize, AllocError>
    ensures kept { OnOk result (sent.new ≡ sent.old ++ map (kept nodes.now) packets) }
    ensures count { IfOk result (λ n. n ≡ length packets) }
{
    let count = packets.items().len();
    keep_all(nodes, packets.into_items(), sent)?;
    Ok(count)
}

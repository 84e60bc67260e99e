//! From what a node sends to what is carried: lists go without what the receiver has.

ghost use Rattle.std.specs.Prelude.{◌≡◌};
ghost use Rattle.carried.specs.Carried.{kind_as, packed_as};

use crate::message::{CarriedKind, CarriedMessage};
use group_world::{Message, MessageKind as Kind, Packet, Party};
use replication::pack_list;

/// A message's content, as it is carried.
#[rattlefmt::skip]
fn carry(committed: usize, reported: usize, kind: Kind) -> CarriedKind
    ensures { result ≡ kind_as committed reported kind }
{
    match kind {
        Kind::Query(map)                           => CarriedKind::Query(map, committed),
        Kind::Log(interval, list)                  => CarriedKind::Log(interval, pack_list(list, reported)),
        Kind::Install(map, list)                   => CarriedKind::Install(map, list),
        Kind::Installed(interval)                  => CarriedKind::Installed(interval),
        Kind::AskActivate(interval)                => CarriedKind::AskActivate(interval),
        Kind::Activated(interval)                  => CarriedKind::Activated(interval),
        Kind::Rep(interval, place, request)        => CarriedKind::Rep(interval, place, request),
        Kind::Ack(interval, length)                => CarriedKind::Ack(interval, length),
        Kind::Reply(client, number, place, answer) => CarriedKind::Reply(client, number, place, answer),
    }
}

/// A message of a node as it is carried, and its receiver. A question for a list says how much the
/// sender has committed; a list goes without its first `reported` requests, which its receiver has;
/// the others are shared. It takes no memory.
pub fn pack(committed: usize, reported: usize, packet: Packet) -> (Party, CarriedMessage)
    ensures { result ≡ packed_as committed reported packet }
{
    let Packet { receiver, message } = packet;
    let Message { sender, kind } = message;
    let kind = carry(committed, reported, kind);
    (receiver, CarriedMessage { sender, kind })
}

//! The steps of the run of `handle` and `resend`, and what is sent at each.

use group_world::{MessageKind, Packet, Party};

/// The numbers of the monitor and of client 1, among those of nodes.
pub const MONITOR: u64 = 100;

const CLIENT: u64 = 201;

/// What happens to a node, or to the monitor.
#[derive(Clone, Copy, PartialEq, Eq)]
pub enum Cause {
    /// The monitor makes a map of this node, 2 and 3, which reaches the node.
    Map,
    /// The client's request reaches it, always the same.
    Asked,
    /// The oldest message that is on its way reaches it.
    Arrives,
    /// It sends again what isn't answered.
    Again,
    /// The oldest message to it is lost.
    Lost,
}

/// A cause, and whom it concerns. Each sends messages of one kind: to these, with an interval, of a
/// Reply the request's number, and a place, or the length of a log or a list.
pub type Step = (Cause, u64, &'static str, &'static [u64], u32, usize);

#[rattlefmt::skip]
pub static STEPS: [Step; 42] = [
    // node 1 leads 1, 2 and 3
    (Cause::Map, 1, "Install", &[2, 3], 1, 0),
    (Cause::Again, 1, "Install", &[2, 3], 1, 0),
    (Cause::Lost, 2, "", &[], 0, 0),
    (Cause::Lost, 3, "", &[], 0, 0),
    (Cause::Arrives, 2, "Installed", &[1], 1, 0),
    (Cause::Arrives, 3, "Installed", &[1], 1, 0),
    (Cause::Arrives, 1, "", &[], 0, 0),
    (Cause::Arrives, 1, "AskActivate", &[MONITOR], 1, 0),
    (Cause::Arrives, MONITOR, "Activated", &[1], 1, 0),
    (Cause::Arrives, 1, "", &[], 0, 0),
    // a request; node 3's acknowledgement is lost, until node 1 sends it the request again
    (Cause::Asked, 1, "Rep", &[2, 3], 1, 0),
    (Cause::Again, 1, "Rep", &[2, 3], 1, 0),
    (Cause::Lost, 2, "", &[], 0, 0),
    (Cause::Lost, 3, "", &[], 0, 0),
    (Cause::Arrives, 2, "Ack", &[1], 1, 1),
    (Cause::Arrives, 3, "Ack", &[1], 1, 1),
    (Cause::Arrives, 1, "", &[], 0, 0),
    (Cause::Lost, 1, "", &[], 0, 0),
    (Cause::Again, 1, "Rep", &[3], 1, 0),
    (Cause::Arrives, 3, "Ack", &[1], 1, 1),
    (Cause::Arrives, 1, "Reply", &[CLIENT], 7, 0),
    // its reply is lost: the request again
    (Cause::Lost, CLIENT, "", &[], 0, 0),
    (Cause::Asked, 1, "Reply", &[CLIENT], 7, 0),
    (Cause::Lost, CLIENT, "", &[], 0, 0),
    // node 4 leads 4, 2 and 3: it adopts the log of node 1, and the others install it
    (Cause::Map, 4, "Query", &[1, 2, 3], 2, 0),
    (Cause::Again, 4, "Query", &[1, 2, 3], 2, 0),
    (Cause::Lost, 1, "", &[], 0, 0),
    (Cause::Lost, 2, "", &[], 0, 0),
    (Cause::Lost, 3, "", &[], 0, 0),
    (Cause::Arrives, 1, "Log", &[4], 2, 1),
    (Cause::Arrives, 2, "Log", &[4], 2, 1),
    (Cause::Arrives, 3, "Log", &[4], 2, 1),
    (Cause::Arrives, 4, "Install", &[2, 3], 2, 1),
    (Cause::Arrives, 4, "", &[], 0, 0),
    (Cause::Arrives, 4, "", &[], 0, 0),
    (Cause::Arrives, 2, "Installed", &[4], 2, 0),
    (Cause::Arrives, 3, "Installed", &[4], 2, 0),
    (Cause::Arrives, 4, "", &[], 0, 0),
    (Cause::Arrives, 4, "AskActivate", &[MONITOR], 2, 0),
    (Cause::Arrives, MONITOR, "Activated", &[4], 2, 0),
    (Cause::Arrives, 4, "", &[], 0, 0),
    // and the request once more
    (Cause::Asked, 4, "Reply", &[CLIENT], 7, 0),
];

/// The number of a node, the monitor or a client.
pub fn number_of(party: Party) -> u64 {
    match party {
        Party::Node(node) => node.get(),
        Party::Monitor => MONITOR,
        Party::Client(client) => u64::from(client.get()).saturating_add(200),
    }
}

/// The words of a message, as in a step.
#[rattlefmt::skip]
fn told(kind: &MessageKind) -> (&'static str, u32, usize) {
    match kind {
        MessageKind::Query(map) => ("Query", map.interval().get(), 0),
        MessageKind::Log(interval, list) => ("Log", interval.get(), list.items().len()),
        MessageKind::Install(map, list) => ("Install", map.interval().get(), list.items().len()),
        MessageKind::Installed(interval) => ("Installed", interval.get(), 0),
        MessageKind::AskActivate(interval) => ("AskActivate", interval.get(), 0),
        MessageKind::Activated(interval) => ("Activated", interval.get(), 0),
        MessageKind::Rep(interval, place, _) => ("Rep", interval.get(), *place),
        MessageKind::Ack(interval, length) => ("Ack", interval.get(), *length),
        MessageKind::Reply(_, number, place, _) => ("Reply", number.get(), *place),
    }
}

/// True if the messages from that place on are those that the step sends.
pub fn are_sent(sent: &[Packet], from: usize, step: &Step) -> bool {
    let (_, sender, name, receivers, interval, count) = *step;
    for (packet, receiver) in sent.iter().skip(from).zip(receivers) {
        let (its_name, its_interval, its_count) = told(&packet.message.kind);
        let is_so = number_of(packet.message.sender) == sender
            && number_of(packet.receiver) == *receiver
            && its_name == name
            && its_interval == interval
            && its_count == count;
        if !is_so {
            return false;
        }
    }
    sent.len() == from.saturating_add(receivers.len())
}

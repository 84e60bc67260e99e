//! An Install whose list can't be run, and a Rep whose request can't follow the log, are ignored
//! whole, whatever the node would do at them; else they are answered each time.
ghost use Rattle.std.specs.Prelude.{◌≡◌};

use crate::account::{Call, PUT, request, table};
use crate::words::{halves, nodes, number_of, see};
use group_world::{Epoch, Event, GroupMap, Message, MessageKind, Packet, Party, Requests};
use peering::GroupNode;
use pg_log::{ClassTable, Classes, Group, GroupWork, Request, with_group};
use placement::NodeId;
use std::alloc::Global;
use std::process::Abort;

/// A node, and the Installs of interval 1, in which nodes 1 and 2 act, that come to it: of an empty
/// list, or of one request of a class that isn't loaded. After a bar, its interval after the last
/// one, and the number of messages that it sends at that. One that doesn't act moves silently.
const INSTALLS: &str = "2 empty empty | 1 1
2 empty unusable | 1 0
2 empty | 1 1
2 unusable | 0 0
5 empty | 1 0
5 unusable | 0 0";

/// The Reps that an installed node with an empty log receives, in this order: the place, and the
/// number, class, method and input of a request of client 1. After a bar, the length that it
/// acknowledges, if it does.
///
/// They are: no such class, no such method, an input that is too long, a place past the end; a
/// request that can be run; at the end one that is logged, and a lower number; an earlier place,
/// with any request in it; and the end.
const REPS: &str = "0 2 1 put x |
0 2 0 give x |
0 2 0 put xx |
1 2 0 put x |
0 2 0 put x | 1
1 2 0 put x |
1 1 0 put x |
0 2 0 put x | 1
0 2 1 put x | 1
1 3 0 put x | 2
1 3 0 put x | 2";

/// A message from node 1.
fn from_first(kind: MessageKind) -> Event {
    Event::Message(Message {
        sender: Party::Node(NodeId::new(1)),
        kind,
    })
}

/// The Install of a word.
fn install<R: Abort>(rt: &R, alloc: Global, word: &str) -> Event {
    let mut list = Vec::new(alloc);
    if word == "unusable" {
        let unusable = Call { class: 64, ..PUT };
        list.push(request(rt, alloc, 1, 1, unusable))
            .expect(rt, "memory");
    }
    let list = Requests::new(alloc, list).expect(rt, "memory");
    let (none, first) = (Epoch::new(0), Epoch::new(1));
    let map = GroupMap::new(first, first, nodes(rt, alloc, "1 2"), none, Vec::new(alloc));
    from_first(MessageKind::Install(map, list))
}

/// The request of a text: number, class, method and input.
fn request_of<R: Abort>(rt: &R, alloc: Global, text: &str) -> Request {
    let (number, text) = halves(text, ' ');
    let (class, text) = halves(text, ' ');
    let (method, input) = halves(text, ' ');
    let call = Call {
        class: number_of(rt, class) as usize,
        method,
        input: input.as_bytes(),
    };
    let number = u32::try_from(number_of(rt, number)).unwrap_or(0);
    request(rt, alloc, 1, number, call)
}

/// The Rep of a text.
fn rep<R: Abort>(rt: &R, alloc: Global, text: &str) -> Event {
    let (place, text) = halves(text, ' ');
    let place = number_of(rt, place) as usize;
    from_first(MessageKind::Rep(Epoch::new(1), place, request_of(rt, alloc, text)))
}

/// The messages that a node sends at an event.
fn sent<C: Classes, R: Abort>(
    rt: &R,
    table: &ClassTable,
    node: &mut GroupNode<C>,
    event: Event,
) -> Vec<Packet>
    requires { table.now ≡ C.classes }
{
    // For the proof: a group's entries are legal, which `handle` requires of the node's log.
    let _ = node.group().entries();
    node.handle(table, event).expect(rt, "memory").into_items()
}

/// True if a node does at the Installs of a line as the line says.
fn are_taken<C: Classes, R: Abort>(rt: &R, alloc: Global, table: &ClassTable, line: &str) -> bool
    requires { table.now ≡ C.classes }
{
    let (said, wanted) = halves(line, '|');
    let (node, words) = halves(said, ' ');
    let (interval, messages) = halves(wanted, ' ');
    let mut node: GroupNode<C> = GroupNode::new(alloc, NodeId::new(number_of(rt, node)));
    let mut last = 0;
    for word in words.split_whitespace() {
        last = sent(rt, table, &mut node, install(rt, alloc, word)).len();
    }
    u64::from(node.epoch().get()) == number_of(rt, interval)
        && last as u64 == number_of(rt, messages)
}

/// The length that a message acknowledges to node 1.
fn length_in(packet: &Packet) -> Option<usize> {
    if let MessageKind::Ack(interval, length) = &packet.message.kind {
        if interval.get() == 1 && packet.receiver == Party::Node(NodeId::new(1)) {
            return Some(*length);
        }
    }
    None
}

/// The length that is acknowledged, if a message is sent.
fn length_of(sent: &[Packet]) -> Option<usize> {
    match sent {
        [packet] => length_in(packet),
        _ => None,
    }
}

/// True if a node answers the Rep of a line as the line says, and its log has the length that was
/// acknowledged last.
fn is_acknowledged<C: Classes, R: Abort>(
    rt: &R,
    alloc: Global,
    table: &ClassTable,
    node: &mut GroupNode<C>,
    line: &str,
) -> bool
    requires { table.now ≡ C.classes }
{
    let (said, wanted) = halves(line, '|');
    let before = node.len();
    let sent = sent(rt, table, node, rep(rt, alloc, said));
    let length = length_of(&sent);
    let wanted = wanted.parse::<usize>().ok();
    length == wanted && node.len() == length.unwrap_or(before) && sent.len() <= 1
}

#[derive(Drop)]
struct Rows<'a, R> {
    rt: &'a R,
    alloc: Global,
}

impl<R: Abort> GroupWork for Rows<'_, R> {
    type Output = ();

    ghost gives = { λ _ _ _ _. Unit {0} };

    fn work<C: Classes>(self, table: &ClassTable, _group: Group<C>) {
        let (rt, alloc) = (self.rt, self.alloc);
        for line in INSTALLS.lines() {
            see(rt, are_taken::<C, R>(rt, alloc, table, line), line);
        }
        let mut node: GroupNode<C> = GroupNode::new(alloc, NodeId::new(2));
        let installed = sent(rt, table, &mut node, install(rt, alloc, "empty"));
        see(rt, installed.len() == 1, "installed");
        for line in REPS.lines() {
            let is_right = is_acknowledged(rt, alloc, table, &mut node, line);
            see(rt, is_right, line);
        }
    }
}

#[test]
fn what_cant_be_run_or_follow_is_ignored(rt: HostRuntime) {
    let alloc = rt.alloc();
    let table = table(&rt, alloc);
    with_group(alloc, &table, Rows { rt: &rt, alloc });
}

//! Three nodes and a log that gets full: each event that takes memory for all of its entries at
//! once is taken.
ghost use Rattle.std.specs.Prelude.{◌≡◌};

use crate::account::{PUT, request, table};
use group_world::{
    Event, GroupMap, HandleError, Message, MessageKind, Messages, Packet, Party, Status,
};
use peering::{GroupNode, Monitor};
use pg_log::{ClassTable, Classes, Group, GroupWork, with_group};
use placement::NodeId;
use std::alloc::Global;
use std::process::Abort;

/// The limit on a log's entries.
const FULL: u32 = 65_536;

/// A number of a request in the middle.
const SOME: u32 = 30_000;

/// A list that each message shares is sent on so often in less than a second. A message that copies
/// it would take minutes, and a test has one.
const OFTEN: u32 = 200_000;

/// Nodes 1, 2 and 3. Node 1 leads node 2, then node 3 leads node 2.
#[derive(Drop)]
struct Trio<C: Classes> {
    alloc: Global,
    monitor: Monitor,
    first: GroupNode<C>,
    second: GroupNode<C>,
    third: GroupNode<C>,
}

/// Client 1's request of that number, which puts 1 to an account: the answer is the number.
fn put<R: Abort>(rt: &R, alloc: Global, number: u32) -> Event {
    Event::Request(request(rt, alloc, 1, number, PUT))
}

/// The answer of a node to an event.
fn handled<C: Classes>(
    table: &ClassTable,
    node: &mut GroupNode<C>,
    event: Event,
) -> Result<Messages, HandleError>
    requires { table.now ≡ C.classes }
{
    // For the proof: a group's entries are legal, which `handle` requires of the node's log.
    let _ = node.group().entries();
    node.handle(table, event)
}

/// The messages that a node sends at an event.
fn sent<C: Classes, R: Abort>(
    rt: &R,
    table: &ClassTable,
    node: &mut GroupNode<C>,
    event: Event,
) -> Vec<Packet>
    requires { table.now ≡ C.classes }
{
    handled(table, node, event)
        .expect(rt, "memory")
        .into_items()
}

/// The message that a node sends at the last of these messages, received one after another. It
/// sends one at each.
fn answer<C: Classes, R: Abort>(
    rt: &R,
    table: &ClassTable,
    node: &mut GroupNode<C>,
    packets: Vec<Packet>,
) -> Packet
    requires { table.now ≡ C.classes }
{
    let mut last = None;
    for packet in packets {
        let mut sent = sent(rt, table, node, Event::Message(packet.message));
        assert!(rt; sent.len() == 1);
        last = sent.pop();
    }
    last.expect(rt, "an answer")
}

/// A list of one message.
fn one<R: Abort>(rt: &R, alloc: Global, packet: Packet) -> Vec<Packet> {
    let mut packets = Vec::new(alloc);
    packets.push(packet).expect(rt, "memory");
    packets
}

/// The monitor makes a map of two nodes.
fn mapped<R: Abort>(rt: &R, alloc: Global, monitor: &mut Monitor, primary: u64) -> GroupMap {
    let mut acting = Vec::new(alloc);
    acting.push(NodeId::new(primary)).expect(rt, "memory");
    acting.push(NodeId::new(2)).expect(rt, "memory");
    monitor.new_map(&acting).expect(rt, "a map")
}

/// The monitor is asked to activate an interval, and says that it has.
fn activated<R: Abort>(rt: &R, monitor: &mut Monitor, packet: &Packet) -> Event {
    let mut asked = None;
    if let MessageKind::AskActivate(interval) = &packet.message.kind {
        asked = Some(*interval);
    }
    let interval = asked.expect(rt, "a question");
    monitor.activate(interval).expect(rt, "the newest");
    Event::Message(Message {
        sender: Party::Monitor,
        kind: MessageKind::Activated(interval),
    })
}

/// True if a message is the Rep of this place, to node 2.
fn is_rep(packet: &Packet, place: usize) -> bool {
    if let MessageKind::Rep(interval, at, request) = &packet.message.kind {
        return packet.receiver == Party::Node(NodeId::new(2))
            && interval.get() == 1
            && *at == place
            && request.number().get() as usize == place.wrapping_add(1);
    }
    false
}

/// True if these are the Reps of all places, in order.
fn are_reps(packets: &[Packet]) -> bool {
    packets
        .iter()
        .enumerate()
        .all(|(place, packet)| is_rep(packet, place))
        && packets.len() == FULL as usize
}

/// True if a message is the Reply of this place.
fn is_reply(packet: &Packet, place: usize) -> bool {
    if let MessageKind::Reply(_, number, at, answer) = &packet.message.kind {
        return number.get() as usize == place.wrapping_add(1)
            && *at == place
            && answer.code() == i64::from(number.get());
    }
    false
}

/// True if these are the Replies of all places, in order.
fn are_replies(packets: &[Packet]) -> bool {
    packets
        .iter()
        .enumerate()
        .all(|(place, packet)| is_reply(packet, place))
        && packets.len() == FULL as usize
}

/// True if a message carries a full list, as Log or as Install.
fn has_full_list(packet: &Packet) -> bool {
    if let MessageKind::Log(_, list) = &packet.message.kind {
        return list.len() == FULL as usize;
    }
    if let MessageKind::Install(_, list) = &packet.message.kind {
        return list.len() == FULL as usize;
    }
    false
}

/// True if a node is active, and all of a full log is committed.
fn is_done<C: Classes>(node: &GroupNode<C>) -> bool {
    node.status() == Status::Active && node.committed() == FULL as usize
}

impl<C: Classes> Trio<C> {
    fn new(alloc: Global) -> Trio<C> {
        Trio {
            alloc,
            monitor: Monitor::new(alloc),
            first: GroupNode::new(alloc, NodeId::new(1)),
            second: GroupNode::new(alloc, NodeId::new(2)),
            third: GroupNode::new(alloc, NodeId::new(3)),
        }
    }

    /// Node 1 leads node 2.
    fn open<R: Abort>(&mut self, rt: &R, table: &ClassTable)
        requires { table.now ≡ C.classes }
    {
        let map = mapped(rt, self.alloc, &mut self.monitor, 1);
        let installs = sent(rt, table, &mut self.first, Event::Map(map));
        let installed = answer(rt, table, &mut self.second, installs);
        let installed = one(rt, self.alloc, installed);
        let asked = answer(rt, table, &mut self.first, installed);
        let activated = activated(rt, &mut self.monitor, &asked);
        assert!(rt; sent(rt, table, &mut self.first, activated).is_empty());
    }

    /// Node 1 logs a full log's requests, and its messages for each are lost. It takes no further
    /// one, and is silent at one that it has.
    fn fill<R: Abort>(&mut self, rt: &R, table: &ClassTable)
        requires { table.now ≡ C.classes }
    {
        for number in 1..=FULL {
            let reps = sent(rt, table, &mut self.first, put(rt, self.alloc, number));
            assert!(rt; reps.len() == 1);
        }
        let more = put(rt, self.alloc, FULL + 1);
        assert!(rt; handled(table, &mut self.first, more).err() == Some(HandleError::LogFull));
        let again = put(rt, self.alloc, SOME);
        assert!(rt; sent(rt, table, &mut self.first, again).is_empty());
    }

    /// Node 1 sends some again, and all, node 2 takes all, and of its answers the last comes: all are
    /// replied to.
    fn replicate<R: Abort>(&mut self, rt: &R, table: &ClassTable)
        requires { table.now ≡ C.classes }
    {
        for most in [0, 1, 256] {
            let some = self.first.resend_first(most).expect(rt, "memory");
            assert!(rt; some.items().len() == most);
        }
        let reps = self.first.resend().expect(rt, "memory").into_items();
        assert!(rt; are_reps(&reps));
        let ack = answer(rt, table, &mut self.second, reps);
        let replies = sent(rt, table, &mut self.first, Event::Message(ack.message));
        assert!(rt; are_replies(&replies));
        assert!(rt; self.first.resend().expect(rt, "memory").items().is_empty());
        assert!(rt; is_done(&self.first) && self.second.len() == FULL as usize);
    }

    /// Node 3 leads node 2: it takes the list of node 1, and sends it on, and again.
    fn lead<R: Abort>(&mut self, rt: &R, table: &ClassTable)
        requires { table.now ≡ C.classes }
    {
        let map = mapped(rt, self.alloc, &mut self.monitor, 3);
        let mut queries = sent(rt, table, &mut self.third, Event::Map(map));
        assert!(rt; queries.len() == 2);
        drop(queries.pop());
        let log = answer(rt, table, &mut self.first, queries);
        assert!(rt; has_full_list(&log));
        let log = one(rt, self.alloc, log);
        let install = answer(rt, table, &mut self.third, log);
        assert!(rt; has_full_list(&install));
        for _time in 0..OFTEN {
            assert!(rt; self.third.resend().expect(rt, "memory").items().len() == 1);
        }
        let installs = self.third.resend().expect(rt, "memory").into_items();
        assert!(rt; installs.iter().all(|packet| has_full_list(packet)));
        let installed = answer(rt, table, &mut self.second, installs);
        let installed = one(rt, self.alloc, installed);
        let asked = answer(rt, table, &mut self.third, installed);
        let activated = activated(rt, &mut self.monitor, &asked);
        assert!(rt; sent(rt, table, &mut self.third, activated).is_empty());
        assert!(rt; is_done(&self.third));
    }

    /// Node 3 replies to a logged request, and takes no further one.
    fn reply<R: Abort>(&mut self, rt: &R, table: &ClassTable)
        requires { table.now ≡ C.classes }
    {
        let again = put(rt, self.alloc, SOME);
        let replies = sent(rt, table, &mut self.third, again);
        let is_answered = replies
            .iter()
            .all(|packet| is_reply(packet, SOME as usize - 1));
        assert!(rt; replies.len() == 1 && is_answered);
        let more = put(rt, self.alloc, FULL + 1);
        assert!(rt; handled(table, &mut self.third, more).err() == Some(HandleError::LogFull));
    }
}

/// The whole of it.
#[derive(Drop)]
struct Filled<'a, R> {
    rt: &'a R,
    alloc: Global,
}

impl<R: Abort> GroupWork for Filled<'_, R> {
    type Output = ();

    ghost gives = { λ _ _ _ _. Unit {0} };

    fn work<C: Classes>(self, table: &ClassTable, _group: Group<C>) {
        let mut trio = Trio::<C>::new(self.alloc);
        trio.open(self.rt, table);
        trio.fill(self.rt, table);
        trio.replicate(self.rt, table);
        trio.lead(self.rt, table);
        trio.reply(self.rt, table);
    }
}

#[test]
fn a_full_log_goes_to_new_members(rt: HostRuntime) {
    let alloc = rt.alloc();
    let table = table(&rt, alloc);
    with_group(alloc, &table, Filled { rt: &rt, alloc });
}

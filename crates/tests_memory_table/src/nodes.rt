//! Rows of `handle` and `resend`, 8 NoMemory, and of `Monitor::new_map`, 4 NoMemory.
ghost use Rattle.std.specs.Prelude.{◌≡◌};

mod steps;

use crate::ending::Ending;
use crate::logs::same_logs;
use crate::made::{Asked, names_of, nodes_of, request_of, table_of};
use crate::nodes::steps::{Cause, MONITOR, STEPS, Step, are_sent, number_of};
use builtin_classes::LOCK;
use group_world::{
    CallReply, Event, GroupMap, HandleError, Message, MessageKind, Messages, MonitorError, Packet,
    Party,
};
use object_store::ObjectName;
use peering::{GroupNode, Monitor};
use pg_log::{ClassTable, Classes, Group, GroupWork, with_group};
use placement::NodeId;
use std::alloc::Global;

/// True if the map is of that epoch and those nodes; in the interval before three others acted.
fn is_map(map: &GroupMap, acting: &[NodeId]) -> bool {
    map.epoch().get() == 2
        && map.interval().get() == 2
        && map.acting() == acting
        && map.prev().get() == 1
        && map.prev_acting().len() == 3
}

fn map_end(monitor: &mut Monitor, acting: &[NodeId]) -> Ending {
    match monitor.new_map(acting) {
        Ok(map) => Ending::of(is_map(&map, acting) && is_map(monitor.newest(), acting)),
        Err(error) => {
            let is_named = error == MonitorError::NoMemory && error.number() == 4;
            Ending::refused(is_named && monitor.newest().epoch().get() == 1)
        }
    }
}

/// The first interval, of three nodes, is activated.
fn begin(alloc: Global, monitor: &mut Monitor) -> Option<()> {
    let acting = nodes_of(alloc, &[1, 2, 3])?;
    let map = monitor.new_map(&acting).ok()?;
    monitor.activate(map.interval()).ok()
}

/// `Monitor::new_map`.
pub fn mapped(alloc: Global) -> Option<Ending> {
    let acting = nodes_of(alloc, &[4, 2, 3])?;
    let mut monitor = Monitor::new(alloc);
    begin(alloc, &mut monitor)?;
    Some(match map_end(&mut monitor, &acting) {
        Ending::Refused => Ending::Refused.then(Some(map_end(&mut monitor, &acting))),
        ending => ending,
    })
}

/// A call of a node.
#[derive(Clone, Copy, PartialEq, Eq)]
pub enum NodeCall {
    /// `handle` at each event of a run: a map; a request, whose acknowledgement is lost once, until
    /// the primary sends the request again; its reply, which is lost, and the same request; a new
    /// primary that adopts the log and sends it to two others; and the same request there.
    Handle,
    /// `resend` of the messages of each map and of the request.
    Resend,
}

/// The messages of a call, which was made again if it was refused, and whether it was. None if it
/// changed its node then, or is refused otherwise.
type Made = (Option<Messages>, bool);

/// The client's request.
const REQUEST: Asked = (1, 7, "a", "lock", b"");

/// The run of the row, of four nodes. Its calls answer None if memory was refused to something else
/// than `handle` and `resend`, or if one of them does otherwise than it should.
#[derive(Drop)]
struct Run<C: Classes> {
    alloc: Global,
    names: Vec<ObjectName>,
    nodes: Vec<GroupNode<C>>,
    monitor: Monitor,
    sent: Vec<Packet>,
    /// The number of messages that have arrived, or are lost.
    arrived: usize,
    /// The call that was refused last.
    refused: Option<NodeCall>,
}

/// What a run comes to, that was whole or not, in which that call was refused last, if one was.
fn ending(is_whole: bool, refused: Option<NodeCall>, call: NodeCall) -> Option<Ending> {
    match (is_whole, refused) {
        (true, None) => Some(Ending::Answered),
        (false, None) => None,
        (false, Some(_)) => Some(Ending::Differs),
        (true, Some(refused)) => Some(if refused == call {
            Ending::Refused
        } else {
            Ending::Answered
        }),
    }
}

impl<C: Classes> Run<C> {
    fn new(alloc: Global) -> Option<Run<C>> {
        let mut nodes = Vec::new(alloc);
        for number in 1..=4u64 {
            nodes.push(GroupNode::new(alloc, NodeId::new(number))).ok()?;
        }
        Some(Run {
            alloc,
            names: names_of(alloc, &["a"])?,
            nodes,
            monitor: Monitor::new(alloc),
            sent: Vec::new(alloc),
            arrived: 0,
            refused: None,
        })
    }

    /// The end of the row of that call. A refusal counts to the row whose call met it. Without one,
    /// memory may have been refused to something else: the run is then made anew.
    fn end(&mut self, table: &ClassTable, call: NodeCall) -> Option<Ending>
        requires { table.now ≡ C.classes }
    {
        let is_whole = self.play(table).is_some();
        let refused = self.refused;
        ending(is_whole, refused, call)
    }

    fn play(&mut self, table: &ClassTable) -> Option<()>
        requires { table.now ≡ C.classes }
    {
        for step in &STEPS {
            let from = self.sent.len();
            self.step(table, step)?;
            if !are_sent(&self.sent, from, step) {
                return None;
            }
        }
        Some(())
    }

    fn step(&mut self, table: &ClassTable, step: &Step) -> Option<()>
        requires { table.now ≡ C.classes }
    {
        let number = step.1;
        match step.0 {
            Cause::Map => {
                let acting = nodes_of(self.alloc, &[number, 2, 3])?;
                let map = self.monitor.new_map(&acting).ok()?;
                self.bring(table, number, Event::Map(map))
            }
            Cause::Asked => {
                let request = request_of(self.alloc, &REQUEST)?;
                self.bring(table, number, Event::Request(request))
            }
            Cause::Arrives => {
                let message = self.arriving(number)?;
                if number == MONITOR {
                    return self.activate(&message);
                }
                self.bring(table, number, Event::Message(message))
            }
            Cause::Again => self.resend(number),
            Cause::Lost => {
                drop(self.arriving(number)?);
                Some(())
            }
        }
    }

    /// The oldest message that is on its way, if it is for that party.
    fn arriving(&mut self, number: u64) -> Option<Message> {
        let packet = self.sent.get(self.arrived)?;
        if number_of(packet.receiver) != number {
            return None;
        }
        self.arrived = self.arrived.checked_add(1)?;
        copy_message(self.alloc, &packet.message)
    }

    /// The monitor activates an interval, and says so.
    fn activate(&mut self, asked: &Message) -> Option<()> {
        let MessageKind::AskActivate(interval) = &asked.kind else {
            return None;
        };
        self.monitor.activate(*interval).ok()?;
        let message = Message {
            sender: Party::Monitor,
            kind: MessageKind::Activated(*interval),
        };
        let receiver = asked.sender;
        self.sent.push(Packet { receiver, message }).ok()
    }

    /// An event gets to a node, which may be refused memory, and then the same event once more.
    fn bring(&mut self, table: &ClassTable, number: u64, event: Event) -> Option<()>
        requires { table.now ≡ C.classes }
    {
        let again = copy_event(self.alloc, &event)?;
        let node = node_of(&mut self.nodes, number)?;
        let before = node.copy(self.alloc).ok()?;
        let made = handled(table, node, &before, &self.names, (event, again));
        self.send(made, NodeCall::Handle)
    }

    /// A node sends again what isn't answered.
    fn resend(&mut self, number: u64) -> Option<()> {
        let node = node_of(&mut self.nodes, number)?;
        let before = node.copy(self.alloc).ok()?;
        let made = resent(node, &before, &self.names);
        self.send(made, NodeCall::Resend)
    }

    /// Sends the messages of a call.
    fn send(&mut self, made: Made, call: NodeCall) -> Option<()> {
        let (sent, is_refused) = made;
        if is_refused {
            self.refused = Some(call);
        }
        for packet in sent?.into_items() {
            self.sent.push(packet).ok()?;
        }
        Some(())
    }
}

/// The node of a number from 1 on.
fn node_of<C: Classes>(nodes: &mut Vec<GroupNode<C>>, number: u64) -> Option<&mut GroupNode<C>> {
    let place = usize::try_from(number.checked_sub(1)?).ok()?;
    nodes.get_mut(place)
}

/// True if a refusal is for want of memory, and two nodes are equal, as far as it can be read.
fn is_kept<C: Classes>(
    error: HandleError,
    one: &GroupNode<C>,
    other: &GroupNode<C>,
    names: &[ObjectName],
) -> bool {
    error == HandleError::NoMemory
        && error.number() == 8
        && one.epoch() == other.epoch()
        && one.status() == other.status()
        && one.committed() == other.committed()
        && same_logs(one.group(), other.group(), names)
}

/// An event at a node, and the same again if memory was refused.
fn handled<C: Classes>(
    table: &ClassTable,
    node: &mut GroupNode<C>,
    before: &GroupNode<C>,
    names: &[ObjectName],
    events: (Event, Event),
) -> Made
    requires { table.now ≡ C.classes }
{
    let (event, again) = events;
    // For the proof, here and below: reading the log says that its list is legal.
    let _ = node.group().entries();
    match node.handle(table, event) {
        Ok(sent) => (Some(sent), false),
        Err(error) if is_kept(error, node, before, names) => {
            let _ = node.group().entries();
            (node.handle(table, again).ok(), true)
        }
        Err(_) => (None, true),
    }
}

/// A node's messages again, asked once more if memory was refused.
fn resent<C: Classes>(node: &GroupNode<C>, before: &GroupNode<C>, names: &[ObjectName]) -> Made {
    match node.resend() {
        Ok(sent) => (Some(sent), false),
        Err(error) if is_kept(error, node, before, names) => (node.resend().ok(), true),
        Err(_) => (None, true),
    }
}

/// An equal message.
#[rattlefmt::skip]
fn copy_message(alloc: Global, message: &Message) -> Option<Message> {
    use MessageKind::*;
    let kind = match &message.kind {
        Query(map)                           => Query(map.copy(alloc).ok()?),
        Log(interval, list)                  => Log(*interval, list.copy().ok()?),
        Install(map, list)                   => Install(map.copy(alloc).ok()?, list.copy().ok()?),
        Installed(interval)                  => Installed(*interval),
        AskActivate(interval)                => AskActivate(*interval),
        Activated(interval)                  => Activated(*interval),
        Rep(interval, place, request)        => Rep(*interval, *place, request.copy().ok()?),
        Ack(interval, length)                => Ack(*interval, *length),
        Reply(client, number, place, answer) => {
            let output = Vec::from_slice(alloc, answer.output()).ok()?;
            Reply(*client, *number, *place, CallReply::new(answer.code(), output))
        }
    };
    let sender = message.sender;
    Some(Message { sender, kind })
}

/// An equal event.
fn copy_event(alloc: Global, event: &Event) -> Option<Event> {
    Some(match event {
        Event::Request(request) => Event::Request(request.copy().ok()?),
        Event::Map(map) => Event::Map(map.copy(alloc).ok()?),
        Event::Message(message) => Event::Message(copy_message(alloc, message)?),
    })
}

#[derive(Drop)]
struct Row {
    alloc: Global,
    call: NodeCall,
}

impl GroupWork for Row {
    type Output = Option<Ending>;

    ghost gives = { λ _ _ _ _. Unit {0} };

    fn work<C: Classes>(self, table: &ClassTable, group: Group<C>) -> Option<Ending> {
        drop(group);
        let mut run = Run::<C>::new(self.alloc)?;
        run.end(table, self.call)
    }
}

/// A call of a node, in a run of four.
pub fn played(alloc: Global, call: NodeCall) -> Option<Ending> {
    let table = table_of(alloc, LOCK)?;
    with_group(alloc, &table, Row { alloc, call })
}

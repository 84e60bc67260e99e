//! A node of a group: what it has, and how it takes each event.

ghost use Rattle.std.specs.Prelude.{◌≡◌, ◌≤◌, length, IfOk, IfErr, OnErr};
ghost use mathlib.Core.List.{IsPrefix};
ghost use Rattle.pg_log.specs.Log.{Legal};
ghost use Rattle.group_world.specs.Node.{fresh};
ghost use Rattle.group_world.specs.Rules.{acknowledge, local_step, receive};
ghost use Rattle.peering_messages.specs.Sending.{IsLegalBy};
ghost use Rattle.peering.specs.Numbered.{IsDone, IsRefusal};

mod arrival;
mod lead;
mod moves;
mod resend;
mod serve;

use group_world::{
    Epoch, Event, GroupMap, HandleError, MessageKind, Messages, Packet, Party, Status,
};
use pg_log::{ClassTable, Classes, Group, Requests, legal_lists, refusals};
use placement::NodeId;
use replication::{Ack, Rep};
use std::alloc::Global;
use std::marker::Model;

/// A node of a group, for the classes that `C` names. Contracts see its number and its state.
pub struct GroupNode<C: Classes> {
    alloc: Global,
    number: NodeId,
    interval: Epoch,
    members: GroupMap,
    status: Status,
    group: Group<C>,
    /// The log as the list that messages share, if one was made and the log is still that list;
    /// else none.
    listed: Requests,
    committed: usize,
    joined: Vec<NodeId>,
    acked: Vec<usize>,
}

impl<C: Classes> Drop for GroupNode<C> {
    fn drop(self) {
        let GroupNode {
            alloc: _,
            number: _,
            interval: _,
            members,
            status: _,
            group,
            listed,
            committed: _,
            joined,
            acked,
        } = self;
        drop(members);
        drop(group);
        drop(listed);
        drop(joined);
        drop(acked);
    }
}

impl<C: Classes> Model for GroupNode<C> {
    ghost use Rattle.std.specs.Prelude.{◌≡◌, ◌<◌, ◌≤◌, length};
    ghost use Rattle.peering.specs.Numbered.{NumberedNode};

    ghost Value = { NumberedNode };

    ghost view = { λ g. record {
      number = g.number;
      state = record {
        interval = g.interval;
        members = g.members;
        status = g.status;
        log = g.group;
        committed = g.committed;
        joined = g.joined.items;
        acked = g.acked.items;
      };
    } };

    ghost invariant = { λ g. (g.committed ≤ length g.group) × (0 < length g.listed → g.listed ≡ g.group) };
}

impl<C: Classes> GroupNode<C> {
    /// A node that has learned no map, with an empty log. It takes no memory.
    pub fn new(alloc: Global, number: NodeId) -> GroupNode<C>
        ensures { result ≡ record { number = number; state = fresh } }
    {
        let none = Epoch::new(0);
        GroupNode {
            alloc,
            number,
            interval: none,
            members: GroupMap::new(none, none, Vec::new(alloc), none, Vec::new(alloc)),
            status: Status::Out,
            group: Group::new(alloc),
            listed: Requests::none(),
            committed: 0,
            joined: Vec::new(alloc),
            acked: Vec::new(alloc),
        }
    }

    /// The interval that it is in, 0 before the first.
    pub fn epoch(&self) -> Epoch
        ensures { result ≡ self.now.state.interval }
    {
        self.interval
    }

    /// Its state in that interval.
    pub fn status(&self) -> Status
        ensures { result ≡ self.now.state.status }
    {
        self.status
    }

    /// The number of entries of its log.
    pub fn len(&self) -> usize
        ensures { result ≡ length self.now.state.log }
    {
        self.group.len()
    }

    /// The number of its entries that are committed, from the first on.
    pub fn committed(&self) -> usize
        ensures value { result ≡ self.now.state.committed }
        ensures within { self.now.state.committed ≤ length self.now.state.log }
    {
        self.committed
    }

    /// Its log, with the objects and replies that it makes.
    pub fn group(&self) -> &Group<C>
        ensures { result.now ≡ self.now.state.log }
    {
        &self.group
    }

    /// An equal node. It refuses by `NoMemory` alone.
    pub fn copy(&self, alloc: Global) -> Result<GroupNode<C>, HandleError>
        ensures ok { IfOk result (λ n. n ≡ self.now) }
        ensures err { IfErr result (λ e. e ≡ HandleError.NoMemory) }
    {
        let joined = Vec::from_slice(alloc, &self.joined)?;
        let acked = Vec::from_slice(alloc, &self.acked)?;
        let members = self.members.copy(alloc)?;
        let Ok(group) = self.group.copy(alloc) else {
            return Err(HandleError::NoMemory);
        };
        Ok(GroupNode {
            alloc,
            number: self.number,
            interval: self.interval,
            members,
            status: self.status,
            group,
            // An empty list satisfies the invariant: the copy makes its list when a message needs
            // one.
            listed: Requests::none(),
            committed: self.committed,
            joined,
            acked,
        })
    }
}

impl<C: Classes> GroupNode<C> {
    /// Takes an event: a request, a map or a message. It gives the messages that it sends, in their
    /// order, or refuses: a request by the first that applies of 1 to 8, another event by
    /// `NoMemory` alone. A refusal leaves the node as if the event never came.
    ///
    /// The table is that of the earlier calls, or that one with classes added.
    ///
    /// The cost of each event, apart from its messages: of a request at the primary its call, a
    /// logarithm and a copy of the request for each other member; of a Rep its call; of an Ack a
    /// constant and a Reply for each newly committed entry; of a Query a copy of the whole log. The
    /// list of a Log at an asking primary is tested before anything is copied or run, which costs a
    /// comparison with the committed list and a logarithm for each request. A usable one costs a
    /// copy for each other member, a comparison with the log, and undoing and running the ends. The
    /// list of an Install costs that comparison and the ends if the node waits, else the test
    /// alone.
    pub fn handle(&mut self, table: &ClassTable, event: Event) -> Result<Messages, HandleError>
        requires table { IsPrefix table.now C.classes }
        requires legal { Legal table.now self.old.state.log }
        // The state and exactly the messages of the world's step.
        ensures done { IfOk result
            (λ sent. IsDone self.old self.new sent (local_step table.now self.old.number self.old.state event)) }
        ensures refused { OnErr result (self.new ≡ self.old) }
        ensures why { IfErr result (λ e. IsRefusal (local_step table.now self.old.number self.old.state event) e) }
        ensures legal { Legal table.now self.new.state.log }
    {
        // For the proof: a list is legal exactly if nothing refuses its requests, and its
        // beginnings are then legal too.
        legal_lists();
        refusals();
        let sent = self.take(table, event)?;
        Ok(Messages::new(sent))
    }

    /// Takes an event.
    fn take(&mut self, table: &ClassTable, event: Event) -> Result<Vec<Packet>, HandleError>
        requires { IsLegalBy table.now C.classes self.old.state.log }
        ensures done { IfOk result
            (λ sent. IsDone self.old self.new sent.items (local_step table.now self.old.number self.old.state event)) }
        ensures refused { OnErr result (self.new ≡ self.old) }
        ensures why { IfErr result (λ e. IsRefusal (local_step table.now self.old.number self.old.state event) e) }
    {
        // For the proof: the same laws of legal lists.
        legal_lists();
        refusals();
        match event {
            Event::Request(request) => self.request(table, request),
            Event::Map(map) => self.learn_map(map),
            Event::Message(message) => self.receive(table, message.sender, message.kind),
        }
    }

    /// Takes a message.
    #[rattlefmt::skip]
    fn receive(
        &mut self,
        table: &ClassTable,
        sender: Party,
        kind: MessageKind,
    ) -> Result<Vec<Packet>, HandleError>
        requires { IsLegalBy table.now C.classes self.old.state.log }
        ensures done { IfOk result (λ sent. IsDone self.old self.new sent.items
            (receive table.now self.old.number self.old.state sender kind)) }
        ensures refused { OnErr result (self.new ≡ self.old) }
        ensures why { IfErr result (λ e. e ≡ HandleError.NoMemory) }
    {
        match kind {
            MessageKind::Query(map)                    => self.answer_query(sender, map),
            MessageKind::Log(interval, list)           => self.adopt_log(table, interval, list),
            MessageKind::Install(map, list)            => self.install(table, sender, map, list),
            MessageKind::Installed(interval)           => self.note_installed(sender, interval),
            MessageKind::Activated(interval)           => self.activate(interval),
            MessageKind::Rep(epoch, place, request)    => self.replicate(table, sender, Rep { epoch, place, request }),
            MessageKind::Ack(interval, length)         => self.take_ack(table, sender, interval, length),
            // These two are for the monitor and for clients.
            MessageKind::AskActivate(_)                => Ok(Vec::new(self.alloc)),
            MessageKind::Reply(_, _, _, answer)        => { drop(answer); Ok(Vec::new(self.alloc)) }
        }
    }

    /// Takes an Ack. Only one that a node sent counts.
    fn take_ack(
        &mut self,
        table: &ClassTable,
        sender: Party,
        interval: Epoch,
        length: usize,
    ) -> Result<Vec<Packet>, HandleError>
        requires { IsLegalBy table.now C.classes self.old.state.log }
        ensures done { IfOk result (λ sent. IsDone self.old self.new sent.items
            (acknowledge table.now self.old.number self.old.state sender interval length)) }
        ensures refused { OnErr result (self.new ≡ self.old) }
        ensures why { IfErr result (λ e. e ≡ HandleError.NoMemory) }
    {
        match sender {
            Party::Node(sender) => self.acknowledge(
                table,
                Ack {
                    epoch: interval,
                    sender,
                    length,
                },
            ),
            Party::Monitor | Party::Client(_) => Ok(Vec::new(self.alloc)),
        }
    }
}

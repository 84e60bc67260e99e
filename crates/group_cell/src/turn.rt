//! A worker's turn with an operation, while it holds the lock.
ghost use Rattle.std.specs.Prelude.{◌≡◌, ℕ, Some, take, IfOk, OnErr};
ghost use Rattle.std.specs.List.{Contains};
ghost use Rattle.group_world.specs.World.{IsTrueOf};
ghost use Rattle.group_world.specs.Unanswered.{unanswered};
ghost use Rattle.group_world.specs.declared.message.Packet.{Packet};
ghost use Rattle.carried.specs.Carried.{unpacked_as, reported_of};
ghost use Rattle.group_cell.specs.Cell.{CellState};
ghost use Rattle.group_cell.specs.Turns.{GoOutAs, MayGoOutAs, IsTurn, IsCutShort, IsQuiet};

use crate::board_name::BoardName;
use crate::cell::GroupCell;
use crate::outgoing::Outgoing;
use crate::post::Post;
use crate::refused::Refused;
use carried::{Carried, event_of, pack};
use commit_board::Board;
use group_world::{Event, Message, MessageKind, Messages, Packet, Party, refusals_are_deserved};
use pg_log::{ClassTable, ClientId, NoMemory, Request};
use placement::NodeId;
use std::alloc::Global;

/// The board of a cluster and its loaded classes, which all cells share.
#[derive(Clone, Copy)]
struct Shared<'a> {
    board: &'a Board,
    table: &'a ClassTable,
}

impl<N: BoardName> GroupCell<N> {
    /// Does what an operation carries to this node. The node takes the event that comes, as
    /// `handle` says, or refuses it. Each message of its step goes out, in their order: packed to a
    /// node, as a question to the monitor, as a `Reply` to a client. A refused request goes out as
    /// a `Refused`. A list whose beginning the node doesn't have is lost, and then nothing happens.
    ///
    /// `None` stands for a message that memory was refused to, which is a reply. If there was no
    /// memory for the event itself it never came; if there was none for the list of what goes
    /// out, all of it is lost.
    ///
    /// The board and the table are the named ones.
    pub fn turn(
        &mut self,
        alloc: Global,
        board: &Board,
        table: &ClassTable,
        carried: Carried,
    ) -> Result<Vec<Option<Outgoing<N>>>, NoMemory>
        requires board { board.now ≡ N.board }
        requires table { table.now ≡ N.classes }
        ensures turn { IfOk result (λ v. IsTurn N.classes self.old self.new (reported_of carried)
            (unpacked_as self.old.node.state.log carried) v.items) }
        ensures lost { OnErr result (IsCutShort N.classes self.old self.new
            (unpacked_as self.old.node.state.log carried)) }
    {
        // An item for each message, also for one that memory was refused to: then a proof refuses a
        // worker that drops another, and no test has to.
        let reported = carried.reported();
        let shared = Shared { board, table };
        match event_of(alloc, self.node().group().entries(), carried)? {
            None => Ok(Vec::new(alloc)),
            Some(Event::Request(request)) => self.ask(alloc, shared, reported, request),
            Some(Event::Map(map)) => self.take(alloc, shared, reported, Event::Map(map)),
            Some(Event::Message(message)) => {
                self.take(alloc, shared, reported, Event::Message(message))
            }
        }
    }

    /// The first `most` of the messages that the node sends again, packed.
    pub fn resend(
        &mut self,
        alloc: Global,
        board: &Board,
        most: usize,
    ) -> Result<Vec<Option<Outgoing<N>>>, NoMemory>
        requires { board.now ≡ N.board }
        ensures same { self.new ≡ self.old }
        ensures out { IfOk result
            (λ v. GoOutAs self.old 0 (take most (unanswered self.old.node.number self.old.node.state)) v.items) }
    {
        let Ok(sent) = self.node().resend_first(most) else {
            return Err(NoMemory);
        };
        self.all_out(alloc, board, 0, sent)
    }

    /// Takes a request.
    fn ask(
        &mut self,
        alloc: Global,
        shared: Shared<'_>,
        reported: usize,
        request: Request,
    ) -> Result<Vec<Option<Outgoing<N>>>, NoMemory>
        requires board { shared.board.now ≡ N.board }
        requires table { shared.table.now ≡ N.classes }
        ensures turn { IfOk result
            (λ v. IsTurn N.classes self.old self.new reported (Some (Event.Request request)) v.items) }
        ensures lost { OnErr result (IsCutShort N.classes self.old self.new (Some (Event.Request request))) }
    {
        refusals_are_deserved();
        // A refusal bears the request, which `handle` takes.
        let Ok(copy) = request.copy() else {
            return Err(NoMemory);
        };
        let mut out = Vec::new(alloc);
        out.reserve(1)?;
        match self.handle(shared.board, shared.table, Event::Request(request)) {
            Ok(sent) => self.all_out(alloc, shared.board, reported, sent),
            Err(why) => {
                let client = copy.client();
                let post = Post::Refused(Refused::new(copy, why));
                out.push_reserved(Some(Outgoing::ToClient(client, post)));
                Ok(out)
            }
        }
    }

    /// Takes a map or a message.
    fn take(
        &mut self,
        alloc: Global,
        shared: Shared<'_>,
        reported: usize,
        event: Event,
    ) -> Result<Vec<Option<Outgoing<N>>>, NoMemory>
        requires board { shared.board.now ≡ N.board }
        requires table { shared.table.now ≡ N.classes }
        requires quiet { IsQuiet event }
        ensures turn { IfOk result (λ v. IsTurn N.classes self.old self.new reported (Some event) v.items) }
        ensures lost { OnErr result (IsCutShort N.classes self.old self.new (Some event)) }
    {
        match self.handle(shared.board, shared.table, event) {
            Ok(sent) => self.all_out(alloc, shared.board, reported, sent),
            Err(_) => Ok(Vec::new(alloc)),
        }
    }

    /// The messages as they go out, an item for each.
    fn all_out(
        &mut self,
        alloc: Global,
        board: &Board,
        reported: usize,
        sent: Messages,
    ) -> Result<Vec<Option<Outgoing<N>>>, NoMemory>
        requires board { board.now ≡ N.board }
        requires replies { (p : Packet) → Contains sent p → IsTrueOf N.classes self.old.written p.message.kind }
        ensures same { self.new ≡ self.old }
        ensures out { IfOk result (λ v. GoOutAs self.old reported sent v.items) }
    {
        let packets = sent.into_items();
        let mut out = Vec::new(alloc);
        out.reserve(packets.len())?;
        for packet in packets {
            out.push_reserved(self.one_out(board, reported, packet));
        }
        Ok(out)
    }

    /// A message as it goes out.
    fn one_out(&mut self, board: &Board, reported: usize, packet: Packet) -> Option<Outgoing<N>>
        requires board { board.now ≡ N.board }
        requires reply { IsTrueOf N.classes self.old.written packet.message.kind }
        ensures same { self.new ≡ self.old }
        ensures out { MayGoOutAs self.old reported packet result }
    {
        let receiver = packet.receiver;
        match receiver {
            Party::Node(node) => Some(self.to_node(reported, node, packet)),
            Party::Monitor => to_monitor(packet),
            Party::Client(client) => self.to_client(board, client, packet),
        }
    }
}

impl<N: BoardName> GroupCell<N> {
    /// A message to a node of the group.
    fn to_node(&self, reported: usize, node: NodeId, packet: Packet) -> Outgoing<N>
        requires { packet.receiver ≡ Party.Node node }
        ensures { MayGoOutAs self.now reported packet (Some result) }
    {
        let (_, message) = pack(self.node().committed(), reported, packet);
        Outgoing::ToNode(node, message)
    }

    /// A message to a client.
    fn to_client(&mut self, board: &Board, client: ClientId, packet: Packet) -> Option<Outgoing<N>>
        requires board { board.now ≡ N.board }
        requires receiver { packet.receiver ≡ Party.Client client }
        requires reply { IsTrueOf N.classes self.old.written packet.message.kind }
        ensures same { self.new ≡ self.old }
        ensures out { (reported : ℕ) → MayGoOutAs self.old reported packet result }
    {
        let Packet {
            receiver: _,
            message,
        } = packet;
        let Message { sender: _, kind } = message;
        let MessageKind::Reply(_, _, place, answer) = kind else {
            return None;
        };
        match self.reply_with(board, place, answer) {
            Ok(reply) => Some(Outgoing::ToClient(client, Post::Reply(reply))),
            Err(_) => None,
        }
    }
}

/// A message to the monitor.
fn to_monitor<N: BoardName>(packet: Packet) -> Option<Outgoing<N>>
    requires { packet.receiver ≡ Party.Monitor }
    ensures { (cell : CellState) (reported : ℕ) → MayGoOutAs cell reported packet result }
{
    let Packet {
        receiver: _,
        message,
    } = packet;
    let Message { sender: _, kind } = message;
    let MessageKind::AskActivate(interval) = kind else {
        return None;
    };
    Some(Outgoing::ToMonitor(interval))
}

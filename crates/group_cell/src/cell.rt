//! A node of a group with its row on the board: what stands under one lock.

ghost use Rattle.std.specs.Prelude.{◌≡◌, ◌≢◌, ℕ, ◌<◌, ◌≤◌, [], length, take, slice_get, Some, IfOk, IfErr, OnErr};
ghost use Rattle.std.specs.Prelude.{MatchOption};
ghost use Rattle.std.specs.List.{AllByRecursion, Contains};
ghost use mathlib.Core.List.{IsPrefix};
ghost use Rattle.object_store.specs.Object.{AreBytes};
ghost use Rattle.pg_log.specs.declared.group.TheConstants.{LOG_LIMIT};
ghost use Rattle.pg_log.specs.Entries.{requests_of};
ghost use Rattle.pg_log.specs.Log.{reply_at};
ghost use Rattle.pg_log.specs.Within.{IsRequest};
ghost use Rattle.group_world.specs.Node.{committed_list, fresh};
ghost use Rattle.group_world.specs.Rules.{local_step};
ghost use Rattle.group_world.specs.World.{IsTrueOf};
ghost use Rattle.group_world.specs.declared.message.Packet.{Packet};
ghost use Rattle.peering.specs.Numbered.{IsDone, IsRefusal};
ghost use Rattle.commit_board.specs.Lists.{list_at};
ghost use Rattle.commit_board.specs.Tokens.{writer_of};
ghost use Rattle.group_cell.specs.Posts.{IsReplyOf};

use crate::board_name::BoardName;
use crate::reply::Reply;
use commit_board::{Board, Note, Writer};
use group_world::{CallReply, Event, HandleError, Messages, Place, replies_are_committed};
use peering::{GroupNode, nothing_is_cut};
use pg_log::{ClassTable, Entry, NoMemory, Request, legal_lists, pairs, replies};
use std::alloc::Global;
use std::marker::{Model, PhantomData};

/// A node of a group, and the writer of its row on the board. The row's list is the list that the
/// node has committed, and each of its requests is within its type's ranges. Contracts see the
/// node, the row and its list.
pub struct GroupCell<N: BoardName> {
    node: GroupNode<N>,
    writer: Writer,
    of: PhantomData<N>,
}

// Written out, here and at `Reply` and `Refused`, so that a crate that drops one calls this and
// needn't prove again how its parts are dropped.
impl<N: BoardName> Drop for GroupCell<N> {
    fn drop(self) {
        let GroupCell {
            node,
            writer,
            of: _,
        } = self;
        drop(node);
        drop(writer);
    }
}

impl<N: BoardName> Model for GroupCell<N> {
    ghost use Rattle.std.specs.Prelude.{◌≡◌};
    ghost use Rattle.std.specs.List.{AllByRecursion};
    ghost use Rattle.pg_log.specs.Within.{IsRequest};
    ghost use Rattle.group_world.specs.Node.{committed_list};
    ghost use Rattle.group_cell.specs.Cell.{CellState};

    ghost Value = { CellState };

    ghost view = { λ c. record {
      node = c.node;
      row = c.writer.row;
      written = c.writer.list;
    } };

    ghost invariant = { λ c. (c.writer.board ≡ N.board) × (c.writer.list ≡ committed_list c.node.state)
        × AllByRecursion IsRequest c.writer.list };
}

impl<N: BoardName> GroupCell<N> {
    /// The cell of a node that has nothing, with the writer of an empty row of the named board. It
    /// takes no memory.
    pub fn new(node: GroupNode<N>, writer: Writer) -> GroupCell<N>
        requires node { node.state ≡ fresh }
        requires writer { (writer.board ≡ N.board) × (writer.list ≡ []) }
        ensures { result ≡ record {
          node = node;
          row = writer.row;
          written = [];
        } }
    {
        GroupCell {
            node,
            writer,
            of: PhantomData,
        }
    }

    /// The node, to be read.
    pub fn node(&self) -> &GroupNode<N>
        ensures node { result.now ≡ self.now.node }
        ensures written { self.now.written ≡ committed_list self.now.node.state }
    {
        &self.node
    }

    /// Takes an event as `GroupNode::handle` does: the same state, exactly its messages, its
    /// refusal. It adds to the row's list exactly the requests that became committed, in their
    /// order, each by one `commit`. A refusal leaves the cell as if the event never came.
    ///
    /// The board and the table are the named ones.
    pub fn handle(
        &mut self,
        board: &Board,
        table: &ClassTable,
        event: Event,
    ) -> Result<Messages, HandleError>
        requires board { board.now ≡ N.board }
        requires table { table.now ≡ N.classes }
        ensures done { IfOk result (λ sent. IsDone self.old.node self.new.node sent
            (local_step N.classes self.old.node.number self.old.node.state event)) }
        ensures why { IfErr result
            (λ e. IsRefusal (local_step N.classes self.old.node.number self.old.node.state event) e) }
        ensures refused { OnErr result (self.new ≡ self.old) }
        ensures replies { IfOk result (λ sent. (p : Packet) → Contains sent p →
            IsTrueOf N.classes self.new.written p.message.kind) }
        ensures written { self.new.written ≡ committed_list self.new.node.state }
        ensures grew { IsPrefix self.old.written self.new.written }
        ensures row { self.new.row ≡ self.old.row }
    {
        nothing_is_cut();
        replies_are_committed();
        let before = self.node.committed();
        let _ = self.node.group().entries();
        let sent = self.node.handle(table, event)?;
        let after = self.node.committed();
        let _ = self.node.group().len();
        commit_all(
            board,
            &mut self.writer,
            self.node.group().entries(),
            before,
            after,
        );
        Ok(sent)
    }

    /// The answer to the request at a committed place, with a note of the row's list; none exactly
    /// if the place isn't committed. It costs a copy of the answer. Only memory may be refused.
    ///
    /// The board is the named one.
    pub fn reply(
        &mut self,
        alloc: Global,
        board: &Board,
        place: Place,
    ) -> Result<Option<Reply<N>>, NoMemory>
        requires { board.now ≡ N.board }
        ensures same { self.new ≡ self.old }
        ensures reply { IfOk result (λ o. MatchOption o (length self.old.written ≤ place) (IsReplyOf self.old place)) }
    {
        replies();
        if place >= self.node.committed() {
            return Ok(None);
        }
        let Some((code, output)) = self.node.group().reply_at(place) else {
            return Ok(None);
        };
        let answer = CallReply::new(code, Vec::from_slice(alloc, output)?);
        self.reply_with(board, place, answer).map(Some)
    }

    /// The reply of a committed place, of which the answer is known. It shares the request.
    pub(crate) fn reply_with(
        &mut self,
        board: &Board,
        place: Place,
        answer: CallReply,
    ) -> Result<Reply<N>, NoMemory>
        requires board { board.now ≡ N.board }
        requires committed { place < length self.old.written }
        requires answer { reply_at N.classes self.old.written place ≡ Some answer }
        ensures same { self.new ≡ self.old }
        ensures reply { IfOk result (IsReplyOf self.old place) }
        ensures answer { IfOk result (λ r. r.answer ≡ answer) }
        ensures request { IfOk result (λ r. slice_get self.old.written place ≡ Some r.request) }
    {
        legal_lists();
        pairs();
        let _ = self.node.committed();
        let Ok(request) = self.node.group().entries()[place].request.copy() else {
            return Err(NoMemory);
        };
        Ok(Reply {
            request,
            row: self.writer.row(),
            place,
            answer,
            note: board.share(&mut self.writer),
            of: PhantomData,
        })
    }

    /// A note of the row's list, which is what the node has committed. It takes no memory, and
    /// reads nothing of the board.
    ///
    /// The board is the named one.
    pub fn note(&mut self, board: &Board) -> Note
        requires { board.now ≡ N.board }
        ensures board { result.board ≡ N.board }
        ensures row { list_at result.lists self.old.row ≡ committed_list self.old.node.state }
        ensures others { (i : ℕ) → i ≢ self.old.row → list_at result.lists i ≡ [] }
        ensures same { self.new ≡ self.old }
    {
        board.share(&mut self.writer)
    }
}

/// Commits the requests of the entries from one place up to another, each by one `commit`.
fn commit_all(board: &Board, writer: &mut Writer, entries: &[Entry], from: usize, to: usize)
    requires board { writer.old.board ≡ board.now }
    requires places { (from ≤ to) × (to ≤ length entries.now) × (length entries.now ≤ LOG_LIMIT) }
    requires begun { writer.old.list ≡ take from (requests_of entries.now) }
    requires requests { AllByRecursion IsRequest writer.old.list }
    ensures written { writer.new ≡ writer_of writer.old.board writer.old.row (take to (requests_of entries.now)) }
    ensures requests { AllByRecursion IsRequest writer.new.list }
{
    for place in from..to {
        let request = &entries[place].request;
        is_request(request);
        board.commit(writer, request);
    }
}

/// A request is within its type's ranges. It does nothing.
fn is_request(request: &Request)
    ensures { IsRequest request.now }
{
    // For the proof: a client's number has 32 bits.
    let _client = request.client().get();
    are_bytes(request.input());
}

/// Bytes are below 256. It does nothing.
fn are_bytes(bytes: &[u8])
    ensures { AreBytes bytes.now }
{
    // For the proof: each item of a slice of `u8` is below 256.
    let _len = bytes.len();
}

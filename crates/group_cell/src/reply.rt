ghost use Rattle.std.specs.Prelude.{◌≡◌};
ghost use Rattle.std.specs.Int.{w64, cast_unsigned};
ghost use Rattle.commit_board.specs.Lists.{list_at};
ghost use Rattle.group_cell.specs.Posts.{Stands};

use crate::board_name::BoardName;
use commit_board::Note;
use group_world::{CallReply, Place};
use pg_log::Request;
use std::marker::{Model, PhantomData};

// No clause says that the row is one of the request's group: a cell lies under a lock, where its
// type says all that is known, and that type names no group.

/// The answer to a committed request, with a note of its own. In the list that the note knows of
/// the row, which is legal, the whole request stands at the place and at no other, and is answered
/// so there.
pub struct Reply<N: BoardName> {
    pub(crate) request: Request,
    pub(crate) row: usize,
    pub(crate) place: Place,
    pub(crate) answer: CallReply,
    pub(crate) note: Note,
    pub(crate) of: PhantomData<N>,
}

impl<N: BoardName> Drop for Reply<N> {
    fn drop(self) {
        let Reply {
            request,
            row: _,
            place: _,
            answer,
            note,
            of: _,
        } = self;
        drop(request);
        drop(answer);
        drop(note);
    }
}

impl<N: BoardName> Model for Reply<N> {
    ghost use Rattle.std.specs.Prelude.{◌≡◌};
    ghost use Rattle.commit_board.specs.Lists.{list_at};
    ghost use Rattle.group_cell.specs.Posts.{PostedReply, Stands};

    ghost Value = { PostedReply };

    ghost view = { λ r. record {
      request = r.request;
      row = r.row;
      place = r.place;
      answer = r.answer;
      lists = r.note.lists;
    } };

    ghost invariant = { λ r. (r.note.board ≡ N.board) ×
        Stands N.classes (list_at r.note.lists r.row) r.place r.request r.answer };
}

impl<N: BoardName> Reply<N> {
    /// The request that it answers.
    pub fn request(&self) -> &Request
        ensures { result.now ≡ self.now.request }
    {
        &self.request
    }

    /// Where the request stands in the group's log, from 0 on.
    pub fn place(&self) -> Place
        ensures { result ≡ self.now.place }
    {
        self.place
    }

    /// The code that the method gave; a negative one is an error.
    pub fn code(&self) -> i64
        ensures { cast_unsigned w64 result ≡ self.now.answer.code }
    {
        self.answer.code()
    }

    /// The output that the method gave.
    pub fn output(&self) -> &[u8]
        ensures { result.now ≡ self.now.answer.output }
    {
        self.answer.output()
    }

    /// Takes the reply apart: the place, the answer, and the note, which is of the named board.
    pub fn into_parts(self) -> (Place, CallReply, Note)
        ensures place { result.0 ≡ self.place }
        ensures answer { result.1 ≡ self.answer }
        ensures note { (result.2.board ≡ N.board) × (result.2.lists ≡ self.lists) }
        ensures stands { Stands N.classes (list_at self.lists self.row) self.place self.request self.answer }
    {
        let Reply {
            request,
            row: _,
            place,
            answer,
            note,
            of: _,
        } = self;
        drop(request);
        (place, answer, note)
    }
}

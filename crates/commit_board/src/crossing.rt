//! Facts for the proofs of the crates above: a board and its tokens may cross threads. The
//! functions do nothing.
ghost use denote.Param.Send.{IsSend, IsSync};
ghost use Rattle.commit_board.specs.contracts.board.Board as board;
ghost use Rattle.commit_board.specs.contracts.tokens.Note as note;
ghost use Rattle.commit_board.specs.contracts.tokens.Seen as seen;
ghost use Rattle.commit_board.specs.contracts.tokens.Writer as writer;

use crate::board::Board;
use crate::tokens::{Note, Seen, Writer};

/// Threads may share a board, and a board and each of its tokens may go from one thread to another.
pub fn board_crosses()
    ensures shared { IsSync board.the_row }
    ensures board { IsSend board.the_row }
    ensures writer { IsSend writer.the_row }
    ensures seen { IsSend seen.the_row }
    ensures note { IsSend note.the_row }
{
    can_share::<Board>();
    can_send::<Board>();
    can_send::<Writer>();
    can_send::<Seen>();
    can_send::<Note>();
}

// Values of the type may go to another thread.
fn can_send<T: Send>()
    ensures { IsSend T.row }
{}

// Threads may share values of the type.
fn can_share<T: Sync>()
    ensures { IsSync T.row }
{}

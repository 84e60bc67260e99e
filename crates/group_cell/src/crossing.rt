//! Which of the values here may go to another thread, for the proofs of the crates above. The
//! functions do nothing.
ghost use denote.Param.Send.{IsSend};
ghost use Rattle.group_cell.specs.contracts.cell.GroupCell as cell;
ghost use Rattle.group_cell.specs.contracts.post.Post as post;
ghost use Rattle.group_cell.specs.contracts.refused.Refused as refused;
ghost use Rattle.group_cell.specs.contracts.reply.Reply as reply;

use crate::board_name::BoardName;
use crate::cell::GroupCell;
use crate::post::Post;
use crate::refused::Refused;
use crate::reply::Reply;
use commit_board::board_crosses;
use peering::node_crosses;
use pg_log::request_crosses;

/// A cell may go to another thread if its name may. So threads may share a lock on it.
pub fn cell_crosses<N: BoardName + Send>()
    ensures { IsSend (cell.the_row N.row (record { board = N.board }) (record { classes = N.classes })) }
{
    node_crosses::<N>();
    board_crosses();
    can_send::<GroupCell<N>>()
}

/// A post and its parts may go to another thread if their name may. So threads may share a lock on
/// a mailbox.
pub fn post_crosses<N: BoardName + Send>()
    ensures reply { IsSend (reply.the_row N.row (record { board = N.board }) (record { classes = N.classes })) }
    ensures refused { IsSend (refused.the_row N.row (record { board = N.board }) (record { classes = N.classes })) }
    ensures post { IsSend (post.the_row N.row (record { board = N.board }) (record { classes = N.classes })) }
{
    request_crosses();
    board_crosses();
    can_send::<Reply<N>>();
    can_send::<Refused<N>>();
    can_send::<Post<N>>()
}

/// Values of the type may go to another thread.
fn can_send<T: Send>()
    ensures { IsSend T.row }
{}

//! Which of the values here may go to another thread, for the proofs of the crates above. The
//! functions do nothing.
ghost use denote.Param.Send.{IsSend};
ghost use Rattle.carried.specs.contracts.message.CarriedMessage as message;
ghost use Rattle.carried.specs.contracts.operation.Carried as carried;
ghost use Rattle.carried.specs.contracts.operation.Operation as operation;

use crate::message::CarriedMessage;
use crate::operation::{Carried, Operation};
use group_world::map_crosses;
use pg_log::request_crosses;

/// An operation and what it carries may go to another thread, and so may a message.
pub fn operation_crosses()
    ensures message { IsSend message.the_row }
    ensures carried { IsSend carried.the_row }
    ensures operation { IsSend operation.the_row }
{
    request_crosses();
    map_crosses();
    can_send::<CarriedMessage>();
    can_send::<Carried>();
    can_send::<Operation>()
}

/// Values of the type may go to another thread.
fn can_send<T: Send>()
    ensures { IsSend T.row }
{}

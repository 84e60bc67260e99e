//! The log's values that may go to another thread, and those that threads may share, for the proofs
//! of the crates above: the prover's search for all parts of a group at once is too long. Each
//! function does nothing.
ghost use denote.Param.Send.{IsSend, IsSync};
ghost use Rattle.interp.specs.contracts.class_table.ClassTable as table;
ghost use Rattle.object_store.specs.contracts.object.Object as object;
ghost use Rattle.object_store.specs.contracts.objects.Objects as objects;
ghost use Rattle.pg_log.specs.contracts.entry.Entry as entry;
ghost use Rattle.pg_log.specs.contracts.group.Group as group;
ghost use Rattle.pg_log.specs.contracts.request.Request as request;
ghost use Rattle.shared_map.specs.contracts.shared_map.SharedMap as map;
ghost use Rattle.txn.specs.contracts.change.Change as change;

use crate::classes::Classes;
use crate::request::Request;
use interp::ClassTable;
use object_store::{Object, Objects};
use shared_map::SharedMap;
use txn::Change;

/// Values of the type may go to another thread.
fn sends<T: Send>()
    ensures { IsSend T.row }
{}

/// Threads may share values of the type.
fn shares<T: Sync>()
    ensures { IsSync T.row }
{}

fn object_crosses()
    ensures sent { IsSend object.the_row }
    ensures shared { IsSync object.the_row }
{
    sends::<Object>();
    shares::<Object>()
}

fn shared_map_crosses<V: Send + Sync>()
    ensures { IsSend (map.the_row V.row) }
{
    sends::<SharedMap<V>>()
}

fn objects_cross()
    ensures { IsSend objects.the_row }
{
    object_crosses();
    shared_map_crosses::<Object>();
    sends::<Objects>()
}

/// A request may go to another thread, and threads may share it.
pub fn request_crosses()
    ensures sent { IsSend request.the_row }
    ensures shared { IsSync request.the_row }
{
    sends::<Request>();
    shares::<Request>()
}

fn change_crosses()
    ensures { IsSend change.the_row }
{
    object_crosses();
    sends::<Change>()
}

/// An entry may go to another thread.
pub fn entry_crosses()
    ensures { IsSend entry.the_row }
{
    request_crosses();
    change_crosses()
}

/// A table of classes may go to another thread, and threads may share it.
pub fn table_crosses()
    ensures sent { IsSend table.the_row }
    ensures shared { IsSync table.the_row }
{
    sends::<ClassTable>();
    shares::<ClassTable>()
}

/// A group may go to another thread if the name of its classes may. So threads may share a lock on
/// it.
pub fn group_crosses<C: Classes + Send>()
    ensures { IsSend (group.the_row C.row (record { classes = C.classes })) }
{
    entry_crosses();
    objects_cross()
}

//! The values here that may go to another thread, for the proofs of the crates above. Each function
//! does nothing.
ghost use denote.Param.Send.{IsSend};
ghost use Rattle.pg_log.specs.contracts.requests.Requests as requests;
ghost use Rattle.peering.specs.contracts.monitor.Monitor as monitor;
ghost use Rattle.peering.specs.contracts.node.GroupNode as node;

use crate::monitor::Monitor;
use group_world::map_crosses;
use pg_log::{Classes, Requests, group_crosses, request_crosses};

/// Values of the type may go to another thread.
fn sends<T: Send>()
    ensures { IsSend T.row }
{}

/// A monitor may go to another thread. So threads may share a lock on it.
pub fn monitor_crosses()
    ensures { IsSend monitor.the_row }
{
    map_crosses();
    sends::<Monitor>()
}

/// A list of requests may go to another thread.
fn lists_cross()
    ensures { IsSend requests.the_row }
{
    request_crosses();
    sends::<Requests>()
}

/// A node may go to another thread if the name of its classes may. So threads may share a lock on
/// it.
pub fn node_crosses<C: Classes + Send>()
    ensures { IsSend (node.the_row C.row (record { classes = C.classes })) }
{
    group_crosses::<C>();
    map_crosses();
    lists_cross()
}

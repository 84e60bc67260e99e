//! Facts for the proofs of who plays on a cluster: its values may cross threads. The functions do
//! nothing.
ghost use denote.Param.Send.{IsSend, IsSync};
ghost use Rattle.osd.specs.contracts.desk.Desk as desk;
ghost use Rattle.osd.specs.contracts.desk.OpenedSession as opened;
ghost use Rattle.osd.specs.contracts.mailbox.Mailbox as mailbox;
ghost use Rattle.osd.specs.contracts.monitors.Monitors as monitors;
ghost use Rattle.osd.specs.contracts.newest.Newest as newest;
ghost use Rattle.osd.specs.contracts.node.Node as node;
ghost use Rattle.osd.specs.contracts.queued.Queued as queued;
ghost use Rattle.osd.specs.contracts.running.Running as running;
ghost use Rattle.osd.specs.contracts.sends.Sends as sends;
ghost use Rattle.osd.specs.contracts.worker.Worker as worker;
ghost use Rattle.osd.specs.contracts.worker.WorkerPlace as place;

use crate::desk::{Desk, OpenedSession};
use crate::mailbox::Mailbox;
use crate::monitors::Monitors;
use crate::name::ClusterName;
use crate::newest::Newest;
use crate::node::Node;
use crate::queued::Queued;
use crate::sends::Sends;
use crate::worker::{Worker, WorkerPlace};
use carried::operation_crosses;
use commit_board::board_crosses;
use group_cell::{cell_crosses, post_crosses};
use map_book::book_crosses;
use op_shards::queues_cross;
use pg_log::table_crosses;

/// Threads may share a running cluster whose names and runtime they may share, and what a session
/// holds may go from one thread to another.
pub fn running_crosses<N: ClusterName + Send + Sync, R: Sync>()
    ensures shared { IsSync (running.the_row N.row R.row (record { queues = N.queues; config = N.config })
        (record { board = N.board }) (record { classes = N.classes })) }
    ensures opened { IsSend (opened.the_row N.row (record { queues = N.queues; config = N.config })
        (record { board = N.board }) (record { classes = N.classes })) }
    ensures sends { IsSend (sends.the_row N.row (record { queues = N.queues; config = N.config })
        (record { board = N.board }) (record { classes = N.classes })) }
{
    queued_crosses();
    queues_cross::<Queued>();
    board_crosses();
    table_crosses();
    sends_cross::<N>();
    can_send::<OpenedSession<N>>();
    locked_crosses::<N>();
    places_cross::<N>();
}

fn queued_crosses()
    ensures { IsSend queued.the_row }
{
    operation_crosses();
    can_send::<Queued>();
}

fn sends_cross<N: ClusterName + Send>()
    ensures { IsSend (sends.the_row N.row (record { queues = N.queues; config = N.config })
        (record { board = N.board }) (record { classes = N.classes })) }
{
    queued_crosses();
    queues_cross::<Queued>();
    can_send::<Sends<N>>();
}

/// The values under the locks may cross threads; those of a worker's lock stand below.
fn locked_crosses<N: ClusterName + Send + Sync>()
    ensures node { IsSync (node.the_row N.row (record { queues = N.queues; config = N.config })
        (record { board = N.board }) (record { classes = N.classes })) }
    ensures desk { IsSend (desk.the_row N.row (record { queues = N.queues; config = N.config })
        (record { board = N.board }) (record { classes = N.classes })) }
    ensures monitors { IsSend (monitors.the_row N.row (record { queues = N.queues; config = N.config })
        (record { board = N.board }) (record { classes = N.classes })) }
    ensures newest { IsSend (newest.the_row N.row (record { queues = N.queues; config = N.config })
        (record { board = N.board }) (record { classes = N.classes })) }
{
    board_crosses();
    book_crosses();
    cell_crosses::<N>();
    sends_cross::<N>();
    can_share::<Node<N>>();
    can_send::<Desk<N>>();
    can_send::<Monitors<N>>();
    can_send::<Newest<N>>();
}

fn worker_crosses<N: ClusterName + Send>()
    ensures { IsSend (worker.the_row N.row (record { queues = N.queues; config = N.config })
        (record { board = N.board }) (record { classes = N.classes })) }
{
    operation_crosses();
    queued_crosses();
    queues_cross::<Queued>();
    post_crosses::<N>();
    sends_cross::<N>();
    can_send::<Worker<N>>();
}

/// Threads may share mailboxes and workers' places, each of which is one lock.
fn places_cross<N: ClusterName + Send>()
    ensures mailbox { IsSync (mailbox.the_row N.row (record { board = N.board }) (record { classes = N.classes })) }
    ensures worker { IsSync (place.the_row N.row (record { queues = N.queues; config = N.config })
        (record { board = N.board }) (record { classes = N.classes })) }
{
    post_crosses::<N>();
    worker_crosses::<N>();
    can_share::<Mailbox<N>>();
    can_share::<WorkerPlace<N>>();
}

/// Values of the type may go to another thread.
fn can_send<T: Send>()
    ensures { IsSend T.row }
{}

/// Threads may share values of the type.
fn can_share<T: Sync>()
    ensures { IsSync T.row }
{}

//! Facts on what may go to another thread, for the proofs of `playing`. The functions do nothing.
ghost use denote.Param.Send.{IsSend, IsSync};
ghost use denote.Ref.{NamedLft};
ghost use Rattle.cluster_tool.specs.contracts.caller.Caller as caller;
ghost use Rattle.cluster_tool.specs.contracts.figures.Figures as figures;
ghost use Rattle.rados_client.specs.contracts.exec_reply.ExecReply as reply;

use crate::figures::Figures;
use osd::ClusterName;
use rados_client::{ExecError, ExecReply, session_crosses};

/// A client may go from one thread to another, if threads may share the cluster's names and its
/// runtime.
pub(crate) fn caller_crosses<N: ClusterName + Send + Sync, R: Sync>()
    ensures { (life : NamedLft) →
        IsSend (caller.the_row life N.row R.row (record { queues = N.queues; config = N.config })
        (record { board = N.board }) (record { classes = N.classes })) }
{
    session_crosses::<N, R>();
    reply_crosses();
    can_send::<Vec<Result<ExecReply, ExecError>>>();
}

/// A reply may go to another thread.
fn reply_crosses()
    ensures { IsSend reply.the_row }
{
    can_send::<ExecReply>();
}

/// Threads may share figures.
pub(crate) fn figures_cross()
    ensures { IsSync figures.the_row }
{
    can_share::<Figures>();
}

/// Values of the type may go to another thread.
fn can_send<T: Send>()
    ensures { IsSend T.row }
{}

/// Threads may share values of the type.
fn can_share<T: Sync>()
    ensures { IsSync T.row }
{}

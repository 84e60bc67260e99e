//! A fact for the proofs of who plays on a cluster: a session may cross threads. The function does
//! nothing.
ghost use denote.Param.Send.{IsSend};
ghost use denote.Ref.{NamedLft};
ghost use Rattle.rados_client.specs.contracts.session.Session as session;

use commit_board::board_crosses;
use osd::{ClusterName, running_crosses};
use pg_log::request_crosses;

/// A session may go from one thread to another, if threads may share the cluster's names and its
/// runtime.
pub fn session_crosses<N: ClusterName + Send + Sync, R: Sync>()
    ensures { (life : NamedLft) →
        IsSend (session.the_row life N.row R.row (record { queues = N.queues; config = N.config })
        (record { board = N.board }) (record { classes = N.classes })) }
{
    board_crosses();
    request_crosses();
    running_crosses::<N, R>();
}

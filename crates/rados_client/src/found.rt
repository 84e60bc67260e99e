use crate::exec_error::ExecError;
use crate::exec_reply::ExecReply;
use group_cell::Refused;
use osd::ClusterName;

/// The result of a look into the mailbox.
#[derive(Drop)]
pub(crate) enum Found {
    /// No answer to the request.
    Nothing,
    /// The node isn't the primary, or not active yet: the request is to be submitted again.
    Later,
    /// The request is refused.
    Refused(ExecError),
    /// The request is answered.
    Reply(ExecReply),
}

impl Found {
    ghost use Rattle.std.specs.Prelude.{List};
    ghost use Rattle.pg_log.specs.Requests.{ClientRequest};
    ghost use Rattle.rados_client.specs.Found.{IsFound};

    /// A node's refusal of a request.
    pub fn of_refusal<N: ClusterName>(refused: Refused<N>) -> Found
        ensures { (lists : List (List ClientRequest)) → IsFound N.classes lists refused.request result }
    {
        match ExecError::of_node(refused.why()) {
            Some(error) => Found::Refused(error),
            None => Found::Later,
        }
    }
}

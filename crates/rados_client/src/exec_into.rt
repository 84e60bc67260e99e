//! A call whose output goes into the caller's buffer, and whose answer is one number.

ghost use Rattle.std.specs.Prelude.{◌≡◌};
ghost use Rattle.rados_client.specs.Session.{next_request};
ghost use Rattle.rados_client.specs.Into.{IsInto, filled, into_code};

use crate::class_id::ClassId;
use crate::exec_error::ExecError;
use crate::exec_reply::ExecReply;
use crate::session::Session;
use object_store::ObjectName;
use osd::ClusterName;
use std::alloc::Global;
use std::sync::Wait;

/// The answer of a call whose output is longer than the buffer: ERANGE of Linux.
const TOO_LONG: i64 = -34;

impl<N: ClusterName, R: Wait> Session<'_, N, R> {
    /// Calls a method as `exec` does, and puts its output at the beginning of the buffer. The
    /// answer is the code if it is negative; else -34 if the output is longer than the buffer;
    /// else the output's length if it isn't 0; else the code. If the answer is -34 the call stands
    /// in the history all the same. The buffer is changed only if the output fits and the code
    /// isn't negative.
    pub fn exec_into(
        &mut self,
        alloc: Global,
        object: &ObjectName,
        class: ClassId,
        method: &str,
        input: &[u8],
        buffer: &mut [u8],
    ) -> Result<i64, ExecError>
        ensures { IsInto N.classes self.old self.new
            (next_request self.old object.now class method.now input.now) buffer.old buffer.new result }
    {
        let reply = self.exec(alloc, object, class, method, input)?;
        Ok(fill(&reply, buffer))
    }
}

/// Puts a reply's output into the buffer.
fn fill(reply: &ExecReply, buffer: &mut [u8]) -> i64
    ensures code { result ≡ into_code reply.now.answer buffer.old }
    ensures buffer { buffer.new ≡ filled reply.now.answer buffer.old }
{
    let code = reply.code();
    let output = reply.output();
    if code < 0 {
        return code;
    }
    if output.len() > buffer.len() {
        return TOO_LONG;
    }
    if output.is_empty() {
        return code;
    }
    buffer[..output.len()].copy_from_slice(output);
    output.len() as i64
}

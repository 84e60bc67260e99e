//! Whether calls were refused.
ghost use Rattle.std.specs.Prelude.{◌≡◌, map};
ghost use Rattle.std.specs.List.{list_any};
ghost use Rattle.cluster_tool.specs.Answers.{any_refused, is_refused};

use rados_client::{ExecError, ExecReply};

/// True if a call was refused.
fn is_refused(end: &Result<ExecReply, ExecError>) -> bool
    ensures { result ≡ is_refused end.now }
{
    match end {
        Ok(_) => false,
        Err(_) => true,
    }
}

/// True if a call of a client was refused.
fn has_refused(ends: &[Result<ExecReply, ExecError>]) -> bool
    ensures { result ≡ list_any is_refused ends.now }
{
    for end in ends {
        if is_refused(end) {
            return true;
        }
    }
    false
}

/// True if a call of some client was refused.
pub(crate) fn any_refused(ends: &[Vec<Result<ExecReply, ExecError>>]) -> bool
    ensures { result ≡ any_refused (map (λ v. v.items) ends.now) }
{
    for calls in ends {
        if has_refused(calls) {
            return true;
        }
    }
    false
}

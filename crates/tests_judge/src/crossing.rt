//! Facts on what may go to another thread, for the proofs of `run`. The functions do nothing.
ghost use denote.Param.Send.{IsSend, IsSync};
ghost use Rattle.tests_judge.specs.contracts.caller.Caller as caller;
ghost use Rattle.tests_judge.specs.contracts.trouble.Trouble as trouble;
ghost use Rattle.tests_judge.specs.contracts.unrest.Unrest as unrest;

use crate::caller::Caller;
use crate::trouble::Trouble;
use crate::unrest::Unrest;

/// A caller may go from one thread to another.
pub fn caller_crosses()
    ensures { IsSend caller.the_row }
{
    can_send::<Caller>();
}

/// Threads may share a run's trouble.
pub fn trouble_crosses()
    ensures { IsSync trouble.the_row }
{
    can_share::<Trouble>();
}

/// An unrest may go from one thread to another.
pub fn unrest_crosses()
    ensures { IsSend unrest.the_row }
{
    can_send::<Unrest>();
}

/// Values of the type may go to another thread.
fn can_send<T: Send>()
    ensures { IsSend T.row }
{}

/// Threads may share values of the type.
fn can_share<T: Sync>()
    ensures { IsSync T.row }
{}

//! The consequences of a promise, for the crates above. The functions do nothing.
ghost use Rattle.std.specs.Prelude.{◌≡◌, ◌-◌, ◌^◌, List, Result, Err};
ghost use Rattle.pg_log.specs.Requests.{ClientRequest};
ghost use Rattle.pg_log.specs.Log.{Classes};
ghost use Rattle.rados_client.specs.Session.{PlacedReply, SessionState};
ghost use Rattle.rados_client.specs.Promise.{AnswersHaveRun, IsAnswered, IsAnswerIn, IsCall};
ghost use Rattle.rados_client.specs.declared.exec_error.ExecError.{ExecError};
ghost use Rattle.rados_client.specs.declared.exec_error.ExecError.TheVariants.{NumbersUsedUp};

use pg_log::replies_run;

/// A reply that a session may believe is true, whoever knows it: it is true in some legal list of
/// these classes.
pub fn replies_are_true()
    ensures { (classes : Classes) (lists : List (List ClientRequest)) (r : ClientRequest) (reply : PlacedReply) →
        IsAnswered classes lists r reply → IsAnswerIn classes r reply }
{}

/// An answer that `exec` or `retry` gives is its method's run, if the classes are verified, as those
/// of a table are: wherever its memory lies, the bytes of the request's method end so on the object that the requests
/// before it left, in at most as many steps
/// as the method has instructions, with the reply's code and output.
pub fn answers_have_run()
    ensures { AnswersHaveRun }
{
    replies_run();
}

/// No number comes after the last, 2^32 - 1: a session that has used it up refuses each further
/// call, and stays as it is, so `retry` asks again for the request with the last number.
pub fn no_number_comes_after_the_last()
    ensures { (classes : Classes) (old new : SessionState) (r : ClientRequest) (result : Result PlacedReply ExecError) →
        IsCall classes old new r result → old.used ≡ 2 ^ 32 - 1 → (result ≡ Err NumbersUsedUp) × (new ≡ old) }
{}

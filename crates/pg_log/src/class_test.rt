//! The test that the loaded classes can run a request.
ghost use Rattle.std.specs.Prelude.{◌≡◌, ◌≤◌, IfOk, IfErr, None, Some, length, slice_get};
ghost use Rattle.pg_log.specs.Log.{method_of};
ghost use Rattle.pg_log.specs.Refusals.{refusal_of_class};

use crate::log_error::LogError;
use crate::request::Request;
use interp::{ClassTable, VerifiedMethod};

/// The refusal of a request by the table's classes, if they can't run it: `NoClass`, `NoMethod` or
/// `InputTooLong`, the first that applies. `append` refuses by the same test, once the log has room
/// and the client's number is new. It takes time linear in the number of the class's methods.
pub fn class_refusal(table: &ClassTable, request: &Request) -> Option<LogError>
    ensures { result ≡ refusal_of_class (slice_get table.now request.now.class) request.now }
{
    match method_of(table, request) {
        Ok(_) => None,
        Err(why) => Some(why),
    }
}

/// The method of a request that the table's classes can run, else the refusal.
pub(crate) fn method_of<'a>(
    table: &'a ClassTable,
    request: &Request,
) -> Result<&'a VerifiedMethod, LogError>
    ensures found { IfOk result (λ method. method_of table.now request.now ≡ Some method.now) }
    ensures short { IfOk result (λ method. length request.now.input ≤ method.now.in_cap) }
    ensures unrefused { IfOk result (λ _. refusal_of_class (slice_get table.now request.now.class) request.now ≡ None) }
    ensures err { IfErr result (λ e. refusal_of_class (slice_get table.now request.now.class) request.now ≡ Some e) }
{
    let Some(class) = table.get(request.class()) else {
        return Err(LogError::NoClass);
    };
    let Some(method) = class.method(request.method()) else {
        return Err(LogError::NoMethod);
    };
    if request.input().len() > usize::from(method.caps().in_cap) {
        return Err(LogError::InputTooLong);
    }
    Ok(method)
}

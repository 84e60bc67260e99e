//! A call as the first request of a group's log, and what the log then has of it.

ghost use Rattle.std.specs.Prelude.{◌≡◌, ◌∷◌, ◌⊎◌, [], IfOk, IfErr, Some, Err};
ghost use Rattle.std.specs.Int.{w64, cast_unsigned};
ghost use Rattle.pg_log.specs.Log.{reply_at};
ghost use Rattle.pg_log.specs.Refusals.{append_answer};
ghost use Rattle.class_tool.specs.Log.{IsCallRefusal, IsLogged, LogFails, first_request, refusal_of};

use interp::{CallError, ClassTable, TableError};
use object_store::ObjectName;
use pg_log::{Classes, ClientId, Group, LogError, Request, RequestNumber, RequestParts};
use program_files::Failure;
use std::alloc::{AllocError, Global};
use std::marker::Brand;
use verifier::VerifiedClass;

/// An answered request, as a log has it.
#[derive(Drop)]
pub struct Logged {
    /// The code that it was answered.
    pub code: i64,
    /// The output that it was answered.
    pub output: Vec<u8>,
}

/// The caller's first request: that method of the first class, on the object `o`.
fn first_request(
    alloc: Global,
    caller: ClientId,
    method: &str,
    input: Vec<u8>,
) -> Result<Request, AllocError>
    ensures { IfOk result (λ r. r ≡ first_request caller method.now input.items) }
{
    let object = match ObjectName::new(alloc, "o") {
        Ok(object) => object,
        // A name of one byte is refused for want of memory alone.
        Err(_) => return Err(AllocError),
    };
    let number = RequestNumber::new(1).unwrap();
    let method = String::from_str(alloc, method)?;
    let parts = RequestParts {
        client: caller,
        number,
        object,
        class: 0,
        method,
        input,
    };
    match Request::new(alloc, parts) {
        Ok(request) => Ok(request),
        Err(_) => Err(AllocError),
    }
}

/// Appends a request to an empty group of those classes, and gives what its log then has of it.
fn append_first<C: Classes>(
    alloc: Global,
    table: &ClassTable,
    request: Request,
) -> Result<Logged, LogError>
    requires { table.now ≡ C.classes }
    ensures ok { IfOk result (λ l. reply_at table.now (request ∷ []) 0 ≡
        Some (record { code = cast_unsigned w64 l.code; output = l.output.items })) }
    ensures err { IfErr result (λ e. (append_answer table.now [] request ≡ Err e) ⊎ (e ≡ LogError.NoMemory)) }
{
    let mut group: Group<C> = Group::new(alloc);
    let place = group.append(table, request)?;
    match group.reply_at(place) {
        Some((code, output)) => Ok(Logged {
            code,
            output: Vec::from_slice(alloc, output)?,
        }),
        None => unreachable!(),
    }
}

/// The refusal of a call that has the name of the log's.
fn call_error(error: LogError) -> CallError
    requires { IsCallRefusal error }
    ensures { refusal_of result ≡ error }
{
    match error {
        LogError::NoMethod => CallError::NoMethod,
        LogError::InputTooLong => CallError::InputTooLong,
        LogError::NoMemory => CallError::NoMemory,
        LogError::LogFull | LogError::StaleNumber | LogError::NoClass => unreachable!(),
    }
}

/// Appends a call to an empty group of that class alone, as the caller's first request, on the
/// object `o`; and gives what the log then has of it. A refusal is that of a call of the same name.
pub fn append(
    alloc: Global,
    class: VerifiedClass,
    caller: ClientId,
    method: &str,
    input: Vec<u8>,
) -> Result<Logged, Failure>
    ensures ok { IfOk result (IsLogged class (first_request caller method.now input.items)) }
    ensures err { IfErr result (LogFails class method.now input.items) }
{
    let mut table = ClassTable::new(alloc);
    match table.add(class) {
        Ok(_) => {}
        Err(TableError::NoMemory) => return Err(Failure::NoMemory),
        Err(TableError::TooMany) => unreachable!(),
    }
    let request = first_request(alloc, caller, method, input)?;
    // The call picks the classes: they are the table's.
    match append_first::<Brand>(alloc, &table, request) {
        Ok(logged) => Ok(logged),
        Err(error) => Err(Failure::Call(call_error(error))),
    }
}

//! From what is carried to what comes to a node: lists get back what was left out.

ghost use Rattle.std.specs.Prelude.{◌≡◌, ◌≤◌, length, take, IfOk};
ghost use Rattle.pg_log.specs.Entries.{requests_of};
ghost use Rattle.replication.specs.Packed.{spread};
ghost use Rattle.carried.specs.Carried.{kind_of, message_of, unpacked_as, whole_list};

use crate::message::{CarriedKind, CarriedMessage};
use crate::operation::Carried;
use group_world::{Epoch, Event, Message, MessageKind as Kind, Requests};
use pg_log::{Entry, NoMemory, Request, copy_log};
use replication::PackedLog;
use std::alloc::Global;

/// The first requests of a log.
fn beginning(alloc: Global, local: &[Entry], count: usize) -> Result<Vec<Request>, NoMemory>
    requires { count ≤ length local.now }
    ensures { IfOk result (λ v. v.items ≡ take count (requests_of local.now)) }
{
    match copy_log(alloc, &local[..count]) {
        Ok(list) => Ok(list),
        Err(_) => Err(NoMemory),
    }
}

/// The list that was packed, by the local log. It costs a count and a pointer for each request.
fn spread(alloc: Global, local: &[Entry], log: &PackedLog) -> Result<Vec<Request>, NoMemory>
    requires { log.now.common ≤ length local.now }
    ensures { IfOk result (λ v. v.items ≡ spread (requests_of local.now) log.now) }
{
    log.after(alloc, beginning(alloc, local, log.common())?)
}

/// A list, whole; nothing if the local log is too short.
fn whole_list(
    alloc: Global,
    local: &[Entry],
    interval: Epoch,
    log: &PackedLog,
) -> Result<Option<Kind>, NoMemory>
    ensures { IfOk result (λ k. k ≡ whole_list (requests_of local.now) interval log.now) }
{
    if local.len() < log.common() {
        return Ok(None);
    }
    let list = Requests::new(alloc, spread(alloc, local, log)?)?;
    Ok(Some(Kind::Log(interval, list)))
}

/// The content of the message that comes.
#[rattlefmt::skip]
fn kind_of(alloc: Global, local: &[Entry], kind: CarriedKind) -> Result<Option<Kind>, NoMemory>
    ensures { IfOk result (λ k. k ≡ kind_of (requests_of local.now) kind) }
{
    match kind {
        CarriedKind::Query(map, _)                        => Ok(Some(Kind::Query(map))),
        CarriedKind::Log(interval, log)                   => whole_list(alloc, local, interval, &log),
        CarriedKind::Install(map, list)                   => Ok(Some(Kind::Install(map, list))),
        CarriedKind::Installed(interval)                  => Ok(Some(Kind::Installed(interval))),
        CarriedKind::AskActivate(interval)                => Ok(Some(Kind::AskActivate(interval))),
        CarriedKind::Activated(interval)                  => Ok(Some(Kind::Activated(interval))),
        CarriedKind::Rep(interval, place, request)        => Ok(Some(Kind::Rep(interval, place, request))),
        CarriedKind::Ack(interval, length)                => Ok(Some(Kind::Ack(interval, length))),
        CarriedKind::Reply(client, number, place, answer) => Ok(Some(Kind::Reply(client, number, place, answer))),
    }
}

/// The message that comes to a node whose log is `local`. A list gets its beginning from there; if
/// that is too short it is lost, and nothing comes. It fails for want of memory alone, and that for
/// a list alone.
pub fn message_of(
    alloc: Global,
    local: &[Entry],
    message: CarriedMessage,
) -> Result<Option<Message>, NoMemory>
    ensures { IfOk result (λ m. m ≡ message_of (requests_of local.now) message) }
{
    let CarriedMessage { sender, kind } = message;
    match kind_of(alloc, local, kind)? {
        Some(kind) => Ok(Some(Message { sender, kind })),
        None => Ok(None),
    }
}

/// The event that comes to a node whose log is `local`: a message as `message_of` gives it. It
/// fails as that does.
pub fn event_of(alloc: Global, local: &[Entry], carried: Carried) -> Result<Option<Event>, NoMemory>
    ensures { IfOk result (λ e. e ≡ unpacked_as (requests_of local.now) carried) }
{
    match carried {
        Carried::Request(request) => Ok(Some(Event::Request(request))),
        Carried::Map(map) => Ok(Some(Event::Map(map))),
        Carried::Message(message) => {
            let message = message_of(alloc, local, message)?;
            Ok(message.map(Event::Message))
        }
    }
}

//! Copies of messages on their way.
ghost use Rattle.std.specs.Prelude.{◌≡◌, IfOk};

use crate::message::CarriedKind as Kind;
use group_world::{CallReply, Epoch, GroupMap, Place, Requests};
use pg_log::{ClientId, NoMemory, Request, RequestNumber};
use replication::PackedLog;
use std::alloc::Global;

/// An equal Query.
fn copy_query(alloc: Global, map: &GroupMap, reported: usize) -> Result<Kind, NoMemory>
    ensures { IfOk result (λ k. k ≡ Kind.Query map.now reported) }
{
    Ok(Kind::Query(map.copy(alloc)?, reported))
}

/// An equal Log.
fn copy_log(interval: Epoch, log: &PackedLog) -> Result<Kind, NoMemory>
    ensures { IfOk result (λ k. k ≡ Kind.Log interval log.now) }
{
    Ok(Kind::Log(interval, log.copy()?))
}

/// An equal Install.
fn copy_install(alloc: Global, map: &GroupMap, list: &Requests) -> Result<Kind, NoMemory>
    ensures { IfOk result (λ k. k ≡ Kind.Install map.now list.now) }
{
    let map = map.copy(alloc)?;
    Ok(Kind::Install(map, list.copy()?))
}

/// An equal Rep.
fn copy_rep(interval: Epoch, place: Place, request: &Request) -> Result<Kind, NoMemory>
    ensures { IfOk result (λ k. k ≡ Kind.Rep interval place request.now) }
{
    let Ok(request) = request.copy() else {
        return Err(NoMemory);
    };
    Ok(Kind::Rep(interval, place, request))
}

/// An equal Reply.
fn copy_reply(
    alloc: Global,
    client: ClientId,
    number: RequestNumber,
    place: Place,
    answer: &CallReply,
) -> Result<Kind, NoMemory>
    ensures { IfOk result (λ k. k ≡ Kind.Reply client number place answer.now) }
{
    let output = Vec::from_slice(alloc, answer.output())?;
    Ok(Kind::Reply(client, number, place, CallReply::new(answer.code(), output)))
}

/// An equal content of a message.
#[rattlefmt::skip]
pub(crate) fn copy_kind(alloc: Global, kind: &Kind) -> Result<Kind, NoMemory>
    ensures { IfOk result (λ k. k ≡ kind.now) }
{
    match kind {
        Kind::Query(map, reported)                => copy_query(alloc, map, *reported),
        Kind::Log(interval, log)                  => copy_log(*interval, log),
        Kind::Install(map, list)                  => copy_install(alloc, map, list),
        Kind::Installed(interval)                 => Ok(Kind::Installed(*interval)),
        Kind::AskActivate(interval)               => Ok(Kind::AskActivate(*interval)),
        Kind::Activated(interval)                 => Ok(Kind::Activated(*interval)),
        Kind::Rep(interval, place, request)       => copy_rep(*interval, *place, request),
        Kind::Ack(interval, length)               => Ok(Kind::Ack(*interval, *length)),
        Kind::Reply(client, number, place, reply) => copy_reply(alloc, *client, *number, *place, reply),
    }
}

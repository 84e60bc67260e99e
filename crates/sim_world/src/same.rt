//! Compares messages, of the kinds that are sent again.
ghost use Rattle.std.specs.Prelude.{◌≡◌, map, IfOk};
ghost use Rattle.sim_world.specs.Same.{is_same_map, are_same_requests, is_same_party};
ghost use Rattle.sim_world.specs.inner.Buckets.{again_number, is_query, is_install, is_ask, is_rep, is_same_carried};
ghost use Rattle.sim_world.specs.inner.Buckets.{is_same_kept};

use crate::kept::KeptMessage;
use crate::numbers::Numbers;
use crate::sent::Sent;
use carried::CarriedKind;
use group_world::{Epoch, GroupMap, Packet, Party, Place, Requests};
use peering_messages::{are_same, is_same_request};
use pg_log::{Request, are_same_requests};
use std::alloc::{AllocError, Global};

fn is_same_map(map: &GroupMap, other: &GroupMap) -> bool
    ensures { result ≡ is_same_map map.now other.now }
{
    map.epoch() == other.epoch()
        && map.interval() == other.interval()
        && are_same(map.acting(), other.acting())
        && map.prev() == other.prev()
        && are_same(map.prev_acting(), other.prev_acting())
}

/// True if the lists are equal.
fn are_equal(list: &[Request], other: &[Request]) -> bool
    ensures { result ≡ are_same_requests list.now other.now }
{
    are_same_requests(list, other)
}

/// True if it is a Query of that map.
fn is_query(kind: &CarriedKind, map: &GroupMap) -> bool
    ensures { result ≡ is_query kind.now map.now }
{
    if let CarriedKind::Query(other, _) = kind {
        return is_same_map(map, other);
    }
    false
}

/// True if it is an Install of that map and list.
fn is_install(kind: &CarriedKind, map: &GroupMap, list: &Requests) -> bool
    ensures { result ≡ is_install kind.now map.now list.now }
{
    if let CarriedKind::Install(other, same) = kind {
        return is_same_map(map, other) && are_equal(list.items(), same.items());
    }
    false
}

/// True if it asks for that interval.
fn is_ask(kind: &CarriedKind, interval: Epoch) -> bool
    ensures { result ≡ is_ask kind.now interval }
{
    if let CarriedKind::AskActivate(other) = kind {
        return interval == *other;
    }
    false
}

/// True if it is a Rep of that interval, place and request.
fn is_rep(kind: &CarriedKind, interval: Epoch, place: Place, request: &Request) -> bool
    ensures { result ≡ is_rep kind.now interval place request.now }
{
    if let CarriedKind::Rep(other, at, same) = kind {
        return interval == *other && place == *at && is_same_request(request, same);
    }
    false
}

/// True if a message says the same. Only four kinds are sent again.
#[rattlefmt::skip]
fn is_same_carried(kind: &CarriedKind, other: &CarriedKind) -> bool
    ensures { result ≡ is_same_carried kind.now other.now }
{
    match kind {
        CarriedKind::Query(map, _)                 => is_query(other, map),
        CarriedKind::Install(map, list)            => is_install(other, map, list),
        CarriedKind::AskActivate(interval)         => is_ask(other, *interval),
        CarriedKind::Rep(interval, place, request) => is_rep(other, *interval, *place, request),
        CarriedKind::Log(_, _)                     => false,
        CarriedKind::Installed(_)                  => false,
        CarriedKind::Activated(_)                  => false,
        CarriedKind::Ack(_, _)                     => false,
        CarriedKind::Reply(_, _, _, _)             => false,
    }
}

/// True if the parties are equal.
fn is_same_party(party: Party, other: Party) -> bool
    ensures { result ≡ is_same_party party other }
{
    party == other
}

/// True if the messages are equal, of those that are sent again.
pub(crate) fn is_same_kept(kept: &KeptMessage, other: &KeptMessage) -> bool
    ensures { result ≡ is_same_kept kept.now other.now }
{
    is_same_party(kept.receiver, other.receiver)
        && is_same_party(kept.message.sender, other.message.sender)
        && is_same_carried(&kept.message.kind, &other.message.kind)
}

/// The lowest number of a message equal to that one.
fn again_number(sent: &Sent, packet: Packet) -> Result<usize, AllocError>
    ensures { IfOk result (λ n. n ≡ again_number sent.now packet) }
{
    // The two counts make no difference: they change no message that is sent again, but for the
    // number in a Query, which isn't compared.
    sent.number_of(&KeptMessage::new(0, 0, packet))
}

/// The lowest numbers of messages equal to these.
pub(crate) fn numbers_of(
    alloc: Global,
    sent: &Sent,
    packets: Vec<Packet>,
) -> Result<Numbers, AllocError>
    ensures { IfOk result (λ v. v ≡ map (again_number sent.now) packets.items) }
{
    let mut numbers = Numbers::new(alloc);
    let mut rest = packets.into_iter();
    while let Some(packet) = rest.next() {
        let number = again_number(sent, packet)?;
        numbers.push(number)?;
    }
    Ok(numbers)
}

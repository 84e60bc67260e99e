ghost use Rattle.std.specs.Prelude.{◌≡◌};

use super::asked::{Asked, FIRST};
use super::group::{Delivery, active, bring_all, settle};
use crate::timing::{nanos_since, now};
use anyhow::Result;
use builtin_classes::{load_lock, load_obj};
use group_world::{Event, Packet};
use peering::GroupNode;
use pg_log::{ClassTable, Classes, Group, GroupWork, with_group};
use std::alloc::Global;
use std::fmt;
use std::time::Clock;

/// The requests of a run.
const REQUESTS: u32 = 1_000;

/// The runs; the least times count.
const RUNS: usize = 20;

/// The nanoseconds of a run's parts: all its requests at the primary, all Reps at their replicas,
/// and all Acks at the primary.
#[derive(Clone, Copy)]
struct Nanos {
    request: u128,
    rep: u128,
    ack: u128,
}

impl Nanos {
    /// Of each part the lesser.
    fn or_less(self, other: Nanos) -> Nanos {
        Nanos {
            request: self.request.min(other.request),
            rep: self.rep.min(other.rep),
            ack: self.ack.min(other.ack),
        }
    }
}

/// The messages of a request and, if there is a clock, the times of a run's parts.
#[derive(Clone, Copy)]
pub struct Parts {
    messages: usize,
    nanos: Option<Nanos>,
}

impl fmt::Display for Parts {
    fn fmt<W: fmt::Write>(&self, f: &mut fmt::Formatter<W>) -> fmt::Result {
        let messages = self.messages;
        match self.nanos {
            None => write!(f, "{messages:>8}"),
            Some(Nanos { request, rep, ack }) => {
                let requests = u128::from(REQUESTS);
                let (one, two, three) = (request / requests, rep / requests, ack / requests);
                let all = one.saturating_add(two).saturating_add(three);
                let (two, three) = (two / 2, three / 2);
                write!(f, "{messages:>8} {one:>8} {two:>6} {three:>6} {all:>6}")
            }
        }
    }
}

/// The messages and the times of such a request.
pub fn measured<T: Clock>(alloc: Global, clock: Option<&T>, asked: Asked) -> Result<Parts> {
    let mut table = ClassTable::new(alloc);
    table.add(load_lock(alloc)?)?;
    table.add(load_obj(alloc)?)?;
    let work = Measures {
        clock,
        alloc,
        asked,
    };
    with_group(alloc, &table, work)
}

/// Has a new group take the requests, again and again.
#[derive(Drop)]
struct Measures<'a, T> {
    clock: Option<&'a T>,
    alloc: Global,
    asked: Asked,
}

impl<T: Clock> GroupWork for Measures<'_, T> {
    type Output = Result<Parts>;

    ghost gives = { λ _ _ _ _. Unit {0} };

    fn work<C: Classes>(self, table: &ClassTable, group: Group<C>) -> Result<Parts> {
        let _ = group;
        let mut parts = run::<C, T>(&self, table)?;
        let runs = if self.clock.is_some() { RUNS } else { 0 };
        for _ in 0..runs {
            parts = parts.or_less(run::<C, T>(&self, table)?);
        }
        Ok(parts)
    }
}

impl Parts {
    /// Of each part the lesser.
    fn or_less(self, other: Parts) -> Parts {
        Parts {
            messages: self.messages,
            nanos: match (self.nanos, other.nanos) {
                (Some(one), Some(other)) => Some(one.or_less(other)),
                (None, nanos) | (nanos, None) => nanos,
            },
        }
    }
}

/// A run on a new group, which has an object.
fn run<C: Classes, T: Clock>(with: &Measures<'_, T>, table: &ClassTable) -> Result<Parts>
    requires { table.now ≡ C.classes }
{
    let alloc = with.alloc;
    let mut nodes = active::<C>(alloc, table)?;
    settle(
        alloc,
        table,
        &mut nodes,
        Event::Request(Asked::Write.request(alloc, FIRST)?),
    )?;
    let mut deliveries = Vec::new(alloc);
    for request in with.asked.requests(alloc, REQUESTS)? {
        deliveries.push(Delivery::to_primary(Event::Request(request)))?;
    }
    rounds(with, table, &mut nodes, deliveries)
}

/// The messages that one round of them led to, and its nanoseconds.
#[derive(Drop)]
struct Round {
    sent: Vec<Packet>,
    nanos: u128,
}

/// The requests, then the messages that they lead to, then those that these lead to.
fn rounds<C: Classes, T: Clock>(
    with: &Measures<'_, T>,
    table: &ClassTable,
    nodes: &mut Vec<GroupNode<C>>,
    requests: Vec<Delivery>,
) -> Result<Parts>
    requires { table.now ≡ C.classes }
{
    let first = brought(with, table, nodes, requests)?;
    let (request, reps) = (first.nanos, first.sent.len());
    let second = brought(with, table, nodes, deliveries(with.alloc, first.sent)?)?;
    let (rep, acks) = (second.nanos, second.sent.len());
    let third = brought(with, table, nodes, deliveries(with.alloc, second.sent)?)?;
    let (ack, replies) = (third.nanos, third.sent.len());
    let messages = reps.saturating_add(acks).saturating_add(replies) / REQUESTS as usize;
    let nanos = Nanos { request, rep, ack };
    let nanos = if with.clock.is_some() {
        Some(nanos)
    } else {
        None
    };
    Ok(Parts { messages, nanos })
}

/// Brings each to its node.
fn brought<C: Classes, T: Clock>(
    with: &Measures<'_, T>,
    table: &ClassTable,
    nodes: &mut Vec<GroupNode<C>>,
    deliveries: Vec<Delivery>,
) -> Result<Round>
    requires { table.now ≡ C.classes }
{
    // Room for the packets that they send.
    let room = Vec::with_capacity(with.alloc, deliveries.len().saturating_mul(2))?;
    let start = now(with.clock)?;
    let sent = bring_all(table, nodes, deliveries, room)?;
    let nanos = nanos_since(with.clock, start)?;
    Ok(Round { sent, nanos })
}

/// The packets that nodes sent, on their way to the receivers.
fn deliveries(alloc: Global, sent: Vec<Packet>) -> Result<Vec<Delivery>> {
    let mut deliveries = Vec::with_capacity(alloc, sent.len())?;
    for packet in sent {
        if let Some(delivery) = Delivery::of(packet) {
            deliveries.push(delivery)?;
        }
    }
    Ok(deliveries)
}

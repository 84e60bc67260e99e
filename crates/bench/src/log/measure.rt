ghost use mathlib.Core.List.{IsPrefix};

use crate::requests::lock_request;
use crate::timing::{Least, Time, nanos_since, now};
use anyhow::Result;
use builtin_classes::load_lock;
use pg_log::{ClassTable, Classes, Group, GroupWork, Request, with_group};
use std::alloc::Global;
use std::time::{Clock, Instant};

/// The requests of a full log.
const REQUESTS: u32 = 65_536;

/// The times that are taken of each; the least counts.
const RUNS: usize = 20;

/// The least times of a replay and of an adoption, if there is a clock, of a full log whose client
/// takes a lock and gives it back by turns; else both are made once.
pub fn times<C: Clock>(alloc: Global, clock: Option<&C>) -> Result<(Time, Time)> {
    let mut table = ClassTable::new(alloc);
    table.add(load_lock(alloc)?)?;
    times_of(alloc, clock, &table)
}

/// The same, with the table of the class.
fn times_of<C: Clock>(
    alloc: Global,
    clock: Option<&C>,
    table: &ClassTable,
) -> Result<(Time, Time)> {
    let one = list(alloc, 1)?;
    let two = list(alloc, 2)?;
    let work = Measures {
        clock,
        alloc,
        first: &one,
        second: &two,
    };
    with_group(alloc, table, work)
}

/// A full list of requests of client 1, the last one of another's.
fn list(alloc: Global, last: u32) -> Result<Vec<Request>> {
    let mut list = Vec::new(alloc);
    for before in 0..REQUESTS {
        let number = before + 1;
        let client = if number < REQUESTS { 1 } else { last };
        list.push(lock_request(alloc, client, number, "object")?)?;
    }
    Ok(list)
}

/// The nanoseconds of one replay of a list, and of one adoption of the other.
fn once<C: Classes, T: Clock>(
    clock: Option<&T>,
    alloc: Global,
    table: &ClassTable,
    lists: (&[Request], &[Request]),
) -> Result<(u128, u128)>
    requires { IsPrefix table.now C.classes }
{
    let start = now(clock)?;
    let mut group = Group::<C>::replay(alloc, table, lists.0)?;
    then_adopt(clock, table, &mut group, start, lists.1)
}

/// The same, of a replay that began at `start` and has just ended.
fn then_adopt<C: Classes, T: Clock>(
    clock: Option<&T>,
    table: &ClassTable,
    group: &mut Group<C>,
    start: Option<Instant>,
    list: &[Request],
) -> Result<(u128, u128)>
    requires { IsPrefix table.now C.classes }
{
    let replay = nanos_since(clock, start)?;
    let start = now(clock)?;
    let _ = group.adopt(table, list)?;
    let adopt = nanos_since(clock, start)?;
    Ok((replay, adopt))
}

/// The least of some runs, of one if there is no clock.
fn least<C: Classes, T: Clock>(
    clock: Option<&T>,
    alloc: Global,
    table: &ClassTable,
    lists: (&[Request], &[Request]),
) -> Result<(Time, Time)>
    requires { IsPrefix table.now C.classes }
{
    let (mut replay, mut adopt) = (Least::new(), Least::new());
    let runs = if clock.is_some() { RUNS } else { 1 };
    for _ in 0..runs {
        let (replayed, adopted) = once::<C, T>(clock, alloc, table, lists)?;
        replay.note(replayed, 1);
        adopt.note(adopted, 1);
    }
    Ok((time(clock, replay), time(clock, adopt)))
}

/// The time, if there is a clock.
fn time<C>(clock: Option<&C>, least: Least) -> Time {
    Time::Micros(if clock.is_some() {
        Some(least.picos)
    } else {
        None
    })
}

/// Replays one list, and adopts the other, again and again.
#[derive(Drop)]
struct Measures<'a, T> {
    clock: Option<&'a T>,
    alloc: Global,
    first: &'a [Request],
    second: &'a [Request],
}

impl<T: Clock> GroupWork for Measures<'_, T> {
    type Output = Result<(Time, Time)>;

    ghost gives = { λ _ _ _ _. Unit {0} };

    fn work<C: Classes>(self, table: &ClassTable, group: Group<C>) -> Result<(Time, Time)> {
        let _ = group;
        least::<C, T>(self.clock, self.alloc, table, (self.first, self.second))
    }
}

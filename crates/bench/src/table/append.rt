ghost use mathlib.Core.List.{IsPrefix};

use crate::timing::Least;
use anyhow::{Context, Result};
use interp::ClassTable;
use object_store::ObjectName;
use pg_log::{
    Classes, ClientId, Group, GroupWork, LogError, Request, RequestNumber, RequestParts, with_group,
};
use std::alloc::Global;
use std::time::{Clock, Instant};
use verifier::VerifiedClass;

/// The requests of a measurement of `append`.
const REQUESTS: u32 = 4_096;

/// The least picoseconds that an `append` to a group took that has that many entries, of that many
/// runs: of requests of one client for the method `f` of a class.
pub fn time_append<C: Clock>(
    alloc: Global,
    clock: &C,
    class: VerifiedClass,
    behind: u32,
    runs: usize,
) -> Result<u64> {
    let mut table = ClassTable::new(alloc);
    let class = table.add(class)?;
    let mut least = Least::new();
    for _ in 0..runs {
        let work = Appends {
            clock,
            behind,
            requests: requests(alloc, class, behind.saturating_add(REQUESTS))?,
        };
        let taken = with_group(alloc, &table, work)?;
        least.note(taken, REQUESTS as usize);
    }
    Ok(least.picos)
}

/// That many requests for the method `f` of a class, numbered from 1 on, the last first.
fn requests(alloc: Global, class: usize, count: u32) -> Result<Vec<Request>> {
    let client = ClientId::new(1).context("a client")?;
    let mut requests = Vec::new(alloc);
    for number in 0..count {
        let parts = RequestParts {
            client,
            number: RequestNumber::new(count - number).context("a number")?,
            object: ObjectName::new(alloc, "o")?,
            class,
            method: String::from_str(alloc, "f")?,
            input: Vec::new(alloc),
        };
        requests.push(Request::new(alloc, parts)?)?;
    }
    Ok(requests)
}

/// Appends requests to a group, and gives the nanoseconds that those took which came after the
/// first ones.
#[derive(Drop)]
struct Appends<'a, C> {
    clock: &'a C,
    behind: u32,
    requests: Vec<Request>,
}

impl<T: Clock> GroupWork for Appends<'_, T> {
    type Output = Result<u128>;

    ghost gives = { λ _ _ _ _. Unit {0} };

    fn work<C: Classes>(mut self, table: &ClassTable, mut group: Group<C>) -> Result<u128> {
        let (clock, behind) = (self.clock, self.behind);
        timed::<C, T>(clock, table, &mut group, &mut self.requests, behind)
    }
}

/// Appends that many requests, and gives the nanoseconds that those after them took.
fn timed<C: Classes, T: Clock>(
    clock: &T,
    table: &ClassTable,
    group: &mut Group<C>,
    requests: &mut Vec<Request>,
    behind: u32,
) -> Result<u128>
    requires { IsPrefix table.now C.classes }
{
    append::<C>(table, group, requests, behind)?;
    let start = Instant::now(clock)?;
    append::<C>(table, group, requests, REQUESTS)?;
    Ok(start.elapsed(clock)?.as_nanos())
}

/// Appends that many requests, from the end of a list.
fn append<C: Classes>(
    table: &ClassTable,
    group: &mut Group<C>,
    requests: &mut Vec<Request>,
    count: u32,
) -> Result<(), LogError>
    requires { IsPrefix table.now C.classes }
{
    for _ in 0..count {
        if let Some(request) = requests.pop() {
            let _ = group.append(table, request)?;
        }
    }
    Ok(())
}

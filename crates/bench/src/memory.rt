//! The memory of a log's entries, with the objects that they make: the most that is resident, less
//! that of an empty program, as the system tells it of this process.
use crate::requests::lock_request;
use anyhow::{Context, Error, Result};
use builtin_classes::load_lock;
use pg_log::{ClassTable, Classes, Group, GroupWork, Request, with_group};
use std::alloc::Global;
use std::{fs, io};

/// The requests of a full log.
const REQUESTS: u32 = 65_536;

/// The objects that are locked and unlocked, one after another.
const OBJECTS: u32 = 1_000;

/// The file of the system that tells what this process holds.
const STATUS: &str = "/proc/self/status";

/// The word before the most that was resident, in KiB.
const MOST: &str = "VmHWM:";

/// Fills a log, and prints how many bytes an entry was resident at most. The process has done
/// nothing else before.
pub fn report<O: io::Write>(rt: &HostRuntime, out: &mut O) -> Result<()> {
    let before = resident(rt)?;
    let mut table = ClassTable::new(rt.alloc());
    table.add(load_lock(rt.alloc())?)?;
    let after = with_group(rt.alloc(), &table, Filling { rt })?;
    let bytes = after.saturating_sub(before).saturating_mul(1024) / u64::from(REQUESTS);
    writeln!(
        out,
        "{bytes} bytes an entry, of {REQUESTS} on {OBJECTS} objects"
    )
    .map_err(Error::from)
}

/// The most that was resident up to now, in KiB.
fn resident(rt: &HostRuntime) -> Result<u64> {
    let status = fs::read_to_string(rt, STATUS)?;
    for line in status.lines() {
        if let Some(rest) = line.strip_prefix(MOST) {
            let word = rest.split_whitespace().next().context("a number")?;
            return word.parse::<u64>().map_err(Error::from);
        }
    }
    Err(Error::msg("no such line"))
}

/// Fills a log.
#[derive(Drop)]
struct Filling<'a> {
    rt: &'a HostRuntime,
}

impl GroupWork for Filling<'_> {
    type Output = Result<u64>;

    ghost gives = { λ _ _ _ _. Unit {0} };

    fn work<C: Classes>(self, table: &ClassTable, group: Group<C>) -> Result<u64> {
        let mut group = group;
        for before in 0..REQUESTS {
            let request = request(self.rt.alloc(), before)?;
            let _ = group.append(table, request)?;
        }
        resident(self.rt)
    }
}

/// The request after that many: every object is locked and unlocked by client 1, and then the next
/// one.
fn request(alloc: Global, before: u32) -> Result<Request> {
    let place = before / 2 % OBJECTS;
    let object = format!(in alloc; "object {place}")?;
    lock_request(alloc, 1, before.saturating_add(1), &object)
}

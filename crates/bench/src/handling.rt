//! The cost of a request at the nodes of a group of three, without network and threads: at its
//! primary, at each of the two that replicate it, and at the primary again at each acknowledgement.

mod asked;
mod group;
mod measure;

use anyhow::Result;
use asked::Asked;
use measure::measured;
use std::alloc::Global;
use std::io;
use std::time::Clock;

/// The requests of clients.
const ASKED: [Asked; 2] = [Asked::Lock, Asked::Read];

/// Prints an empty line, a heading, and a line for each request: how many messages it takes and,
/// if there is a clock, the nanoseconds of each part and of all.
pub fn report<C: Clock, O: io::Write>(alloc: Global, clock: Option<&C>, out: &mut O) -> Result<()> {
    let heading = if clock.is_some() {
        "  request    Rep    Ack    all, ns"
    } else {
        ""
    };
    writeln!(out, "\nhandle    messages{heading}")?;
    for asked in &ASKED {
        let parts = measured(alloc, clock, *asked)?;
        let name = asked.name();
        writeln!(out, "{name:<9} {parts}")?;
    }
    Ok(())
}

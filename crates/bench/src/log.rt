//! The cost of the adoption of another list by a log, and of a replay of that list.

mod measure;

use anyhow::{Error, Result};
use measure::times;
use std::alloc::Global;
use std::io;
use std::time::Clock;

/// Prints an empty line, and a line each for the replay and the adoption, with their times if there
/// is a clock.
pub fn report<C: Clock, O: io::Write>(alloc: Global, clock: Option<&C>, out: &mut O) -> Result<()> {
    let (replay, adopt) = times(alloc, clock)?;
    writeln!(out, "\n{:<29}{replay}", "replay 65536 entries")?;
    writeln!(out, "{:<29}{adopt}", "adopt, the last entry differs").map_err(Error::from)
}

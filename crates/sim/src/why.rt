//! Says why a line of a file is bad. Nothing but that is claimed of the text; stored outputs show it.

mod forms;
mod nearest;
mod reason;
mod told;

use crate::setup::Setup;
use pg_log::Classes;
use reason::{Known, reason_of};
use sim_world::World;
use std::alloc::AllocError;
use told::told;

/// The note on a bad line, by the world before it.
fn note<C: Classes>(
    setup: &Setup<'_>,
    world: &World<C>,
    number: usize,
    line: &str,
) -> Result<String, AllocError> {
    let known = Known {
        maps: world.map_count(),
        messages: world.sent().len(),
    };
    let words = file_words::words(setup.alloc, line)?;
    let reason = reason_of(line, &words, known);
    told(setup.alloc, number, line, &words, reason)
}

/// The note below a bad line, if lines are explained: the line, what is wrong in it, and its form.
/// It is empty if memory for it is refused.
pub(crate) fn why<C: Classes>(
    setup: &Setup<'_>,
    world: &World<C>,
    number: usize,
    line: &str,
) -> String {
    if !setup.is_explained {
        return String::new(setup.alloc);
    }
    match note(setup, world, number, line) {
        Ok(note) => note,
        Err(_) => String::new(setup.alloc),
    }
}

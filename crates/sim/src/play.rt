//! A run of a file's lines, printed or drawn.

ghost use Rattle.std.specs.Prelude.{false, map};
ghost use Rattle.sim_world.specs.Lines.{lines_of};
ghost use Rattle.sim.specs.Run.{run_lines};
ghost use Rattle.sim.specs.Simulating.{IsDrawn, Plays};

use crate::drawing::trace;
use crate::file::{SimulationEnd, run};
use crate::setup::Setup;
use program_files::Output;

/// Draws the run of a text, and prints the drawing once all lines are done or one is bad.
fn draw<O: Output>(setup: &Setup<'_>, text: &str, note: &mut String, out: &mut O) -> SimulationEnd
    ensures { IsDrawn (run_lines false setup.now.table.now (map (λ n. n.now) setup.now.names.now) (lines_of text.now))
        (O.printed out.old) (O.printed out.new) (O.failed out.old) (O.failed out.new) result }
{
    let Ok(traced) = trace(setup, text, note) else {
        return SimulationEnd::NoMemory;
    };
    let bad = traced.bad;
    match out.print(traced.text.as_str()) {
        Ok(()) if bad => SimulationEnd::Bad,
        Ok(()) => SimulationEnd::Done,
        Err(_) => SimulationEnd::Unprinted,
    }
}

/// Does the lines of a text, and prints of each what it comes to, or the drawing of them all. Why a
/// line is bad is noted, if that is to be explained.
pub(crate) fn play<O: Output>(
    setup: &Setup<'_>,
    text: &str,
    is_drawn: bool,
    note: &mut String,
    out: &mut O,
) -> SimulationEnd
    ensures { Plays is_drawn setup.now.has_objects setup.now.table.now (map (λ n. n.now) setup.now.names.now)
        text.now (O.printed out.old) (O.printed out.new) (O.failed out.old) (O.failed out.new) result }
{
    if is_drawn {
        draw(setup, text, note, out)
    } else {
        run(setup, text, note, out)
    }
}

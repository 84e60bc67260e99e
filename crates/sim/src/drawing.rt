//! The same run as a message sequence.
ghost use Rattle.std.specs.Prelude.{◌≡◌, ◌++◌, IfOk, OnOk, Some, false, map, string_bytes};
ghost use Rattle.sim.specs.Run.{Does, HasBad, IsPicture, bad_line, run_lines};
ghost use Rattle.sim.specs.Simulating.{Draws};
ghost use Rattle.sim_world.specs.Lines.{lines_of};
ghost use Rattle.sim_world.specs.Holds.{Holds};
ghost use Rattle.sim_world.specs.Step.{beginning};

use crate::bad_line::bad_line;
use crate::drawn::note::{column, meant, note};
use crate::drawn::{DrawnMessage, DrawnStep, draw};
use crate::setup::Setup;
use crate::why::why;
use pg_log::Classes;
use sim_world::{KeptMessage, World, carried_text, lines, read_line};
use std::alloc::{AllocError, Global};
use std::marker::Brand;

/// A drawing of a file.
#[derive(Drop)]
pub(crate) struct Traced {
    /// The drawing; if a line is bad, of the lines above it, and then the line that says so.
    pub(crate) text: String,
    /// A line is bad.
    pub(crate) bad: bool,
}

/// A message that was sent, as it is drawn.
fn message(alloc: Global, kept: &KeptMessage) -> Result<DrawnMessage, AllocError> {
    Ok(DrawnMessage {
        from: column(kept.message.sender),
        to: column(kept.receiver),
        text: carried_text(alloc, &kept.message.kind)?,
    })
}

/// The messages that were sent.
fn messages(alloc: Global, sent: &[KeptMessage]) -> Result<Vec<DrawnMessage>, AllocError> {
    let mut messages = Vec::new(alloc);
    for kept in sent {
        messages.push(message(alloc, kept)?)?;
    }
    Ok(messages)
}

/// Does a line and notes what happened, and says whether it is bad.
fn take_line<C: Classes>(
    setup: &Setup<'_>,
    world: &mut World<C>,
    text: &str,
    steps: &mut Vec<DrawnStep>,
) -> Result<bool, AllocError>
    requires { setup.now.table.now ≡ C.classes }
    ensures { IfOk result
        (λ bad. Does C.classes (map (λ n. n.now) setup.now.names.now) text.now world.old world.new bad) }
{
    let line = read_line(setup.alloc, setup.names, text)?;
    let meant = meant(&line);
    let taken = world.take(setup.table, line)?;
    if taken.is_bad() {
        return Ok(true);
    }
    note(setup.alloc, meant, text, &taken, steps)?;
    Ok(false)
}

/// Does lines up to the first that is bad, notes what happened, and gives the number of the bad
/// one.
fn take_lines<C: Classes>(
    setup: &Setup<'_>,
    lines: &[&str],
    world: &mut World<C>,
    steps: &mut Vec<DrawnStep>,
    note: &mut String,
) -> Result<Option<usize>, AllocError>
    requires classes { setup.now.table.now ≡ C.classes }
    requires first { Holds C.classes world.old (beginning C.classes) }
    ensures { IfOk result (HasBad
        (run_lines false C.classes (map (λ n. n.now) setup.now.names.now) (map (λ l. l.now) lines.now))) }
{
    let mut number = 0;
    for line in lines {
        number += 1;
        if take_line(setup, world, line, steps)? {
            *note = why(setup, world, number, line);
            return Ok(Some(number));
        }
    }
    Ok(None)
}

/// A picture, and below it the line that says which line is bad.
fn with_bad(alloc: Global, picture: String, number: usize) -> Result<Traced, AllocError>
    ensures { IfOk result (λ t. IsPicture (Some number) (string_bytes t.text) t.bad) }
{
    let mut text = picture;
    push_bad(alloc, &mut text, number)?;
    Ok(Traced { text, bad: true })
}

/// Draws messages and steps, and says which line is bad, if one is.
fn drawn(
    alloc: Global,
    messages: &[DrawnMessage],
    steps: &[DrawnStep],
    bad: Option<usize>,
) -> Result<Traced, AllocError>
    ensures { IfOk result (λ t. IsPicture bad (string_bytes t.text) t.bad) }
{
    let picture = draw(alloc, messages, steps)?;
    match bad {
        Some(number) => with_bad(alloc, picture, number),
        None => Ok(Traced {
            text: picture,
            bad: false,
        }),
    }
}

/// Appends the line to a drawing that says which line is bad.
fn push_bad(alloc: Global, text: &mut String, number: usize) -> Result<(), AllocError>
    ensures { OnOk result (string_bytes text.new ≡ string_bytes text.old ++ bad_line number) }
{
    let line = bad_line(alloc, number)?;
    text.push_str(line.as_str())
}

/// Does lines, and draws what happened.
fn trace_from<C: Classes>(
    setup: &Setup<'_>,
    lines: &[&str],
    world: &mut World<C>,
    note: &mut String,
) -> Result<Traced, AllocError>
    requires classes { setup.now.table.now ≡ C.classes }
    requires first { Holds C.classes world.old (beginning C.classes) }
    ensures { IfOk result
        (λ t. Draws (run_lines false C.classes (map (λ n. n.now) setup.now.names.now) (map (λ l. l.now) lines.now))
        (string_bytes t.text) t.bad) }
{
    let mut steps = Vec::new(setup.alloc);
    let bad = take_lines(setup, lines, world, &mut steps, note)?;
    let messages = messages(setup.alloc, world.sent())?;
    drawn(setup.alloc, &messages, &steps, bad)
}

/// Does lines from the first world on, and draws what happened.
fn trace_lines<C: Classes>(
    setup: &Setup<'_>,
    lines: &[&str],
    note: &mut String,
) -> Result<Traced, AllocError>
    requires { setup.now.table.now ≡ C.classes }
    ensures { IfOk result
        (λ t. Draws (run_lines false setup.now.table.now (map (λ n. n.now) setup.now.names.now)
        (map (λ l. l.now) lines.now))
        (string_bytes t.text) t.bad) }
{
    let mut world = World::<C>::new(setup.alloc)?;
    trace_from(setup, lines, &mut world, note)
}

/// Does the lines of a text as `run` does, and draws what happened, once all are done or one is
/// bad. It fails for want of memory alone.
pub(crate) fn trace(setup: &Setup<'_>, text: &str, note: &mut String) -> Result<Traced, AllocError>
    ensures { IfOk result
        (λ t. Draws (run_lines false setup.now.table.now (map (λ n. n.now) setup.now.names.now) (lines_of text.now))
        (string_bytes t.text) t.bad) }
{
    let lines = lines(setup.alloc, text)?;
    // The call picks the classes: they are the table's.
    trace_lines::<Brand>(setup, &lines, note)
}

//! A run of a file's lines, each printed before the next is done.

ghost use Rattle.std.specs.Prelude.{◌≡◌, IfOk, map, string_bytes};
ghost use Rattle.sim_world.specs.Lines.{lines_of};
ghost use Rattle.sim.specs.Run.{EndsBy, SaysAll, SaysOf, Takes};
ghost use Rattle.sim_world.specs.Holds.{Holds};
ghost use Rattle.sim_world.specs.Step.{beginning};

use crate::bad_line::bad_line;
use crate::objects::objects_below;
use crate::setup::Setup;
use crate::why::why;
use pg_log::Classes;
use program_files::Output;
use sim_world::{Taken, World, lines, read_line};
use std::alloc::{AllocError, Global};
use std::marker::Brand;

/// The end of a run of a file.
#[derive(Clone, Copy, PartialEq, Eq)]
pub enum SimulationEnd {
    /// Each line was done, and what it came to was printed.
    Done,
    /// A line is bad; those above it were done, and the last line that was printed says which.
    Bad,
    /// Memory was refused at a line; those above it were done.
    NoMemory,
    /// A write or a flush failed; a beginning of what was to be printed was.
    Unprinted,
}

/// A line of the printed run.
#[derive(Drop)]
struct PrintedLine {
    /// The text.
    text: String,
    /// The line is bad.
    is_bad: bool,
}

/// The text that is printed of a line, by what came of it.
fn line_text<C: Classes>(
    alloc: Global,
    world: &World<C>,
    number: usize,
    taken: &Taken,
) -> Result<String, AllocError>
    ensures { IfOk result (λ t. SaysOf C.classes world.now number taken.now (string_bytes t)) }
{
    if taken.is_bad() {
        return bad_line(alloc, number);
    }
    world.text(taken)
}

/// What is printed of a line: its text, and below it the objects of the node that it shows, if they
/// are asked for.
fn whole_text<C: Classes>(
    setup: &Setup<'_>,
    world: &World<C>,
    number: usize,
    taken: &Taken,
) -> Result<String, AllocError>
    ensures { IfOk result (λ t. SaysAll setup.now.has_objects C.classes world.now number taken.now (string_bytes t)) }
{
    let mut text = line_text(setup.alloc, world, number, taken)?;
    if setup.has_objects {
        let below = objects_below(setup.alloc, world, taken)?;
        text.push_str(below.as_str())?;
        return Ok(text);
    }
    Ok(text)
}

/// Does a line, and gives what is printed of it, and whether it is bad.
fn take_line<C: Classes>(
    setup: &Setup<'_>,
    world: &mut World<C>,
    number: usize,
    line: &str,
) -> Result<PrintedLine, AllocError>
    requires { setup.now.table.now ≡ C.classes }
    ensures { IfOk result (λ p. Takes setup.now.has_objects C.classes
        (map (λ n. n.now) setup.now.names.now) line.now number world.old world.new (string_bytes p.text) p.is_bad) }
{
    let line = read_line(setup.alloc, setup.names, line)?;
    let taken = world.take(setup.table, line)?;
    let is_bad = taken.is_bad();
    let text = whole_text(setup, world, number, &taken)?;
    Ok(PrintedLine { text, is_bad })
}

/// Does lines, one after the other, from the first world on.
fn run_from<C: Classes, O: Output>(
    setup: &Setup<'_>,
    lines: &[&str],
    world: &mut World<C>,
    note: &mut String,
    out: &mut O,
) -> SimulationEnd
    requires classes { setup.now.table.now ≡ C.classes }
    requires first { Holds C.classes world.old (beginning C.classes) }
    ensures { EndsBy setup.now.has_objects setup.now.table.now (map (λ n. n.now) setup.now.names.now)
        (map (λ l. l.now) lines.now) (O.printed out.old) (O.printed out.new) (O.failed out.old)
        (O.failed out.new) result }
{
    let mut number = 0;
    for line in lines {
        number += 1;
        match take_line(setup, world, number, line) {
            Ok(taken) => {
                if out.print(taken.text.as_str()).is_err() {
                    return SimulationEnd::Unprinted;
                }
                let is_bad = taken.is_bad;
                if is_bad {
                    *note = why(setup, world, number, line);
                    return SimulationEnd::Bad;
                }
            }
            Err(_) => return SimulationEnd::NoMemory,
        }
    }
    SimulationEnd::Done
}

/// Does lines, one after the other.
fn run_lines<C: Classes, O: Output>(
    setup: &Setup<'_>,
    lines: &[&str],
    note: &mut String,
    out: &mut O,
) -> SimulationEnd
    requires { setup.now.table.now ≡ C.classes }
    ensures { EndsBy setup.now.has_objects setup.now.table.now (map (λ n. n.now) setup.now.names.now)
        (map (λ l. l.now) lines.now) (O.printed out.old) (O.printed out.new) (O.failed out.old)
        (O.failed out.new) result }
{
    match World::<C>::new(setup.alloc) {
        Ok(mut world) => run_from(setup, lines, &mut world, note, out),
        Err(_) => SimulationEnd::NoMemory,
    }
}

/// Does the lines of a text, and prints of each what it comes to before the next is done. Requests
/// go to the classes by their names; another word is a class that isn't loaded.
///
/// It ends with `Bad` at the first bad line, whose number is printed, and why it is bad is noted;
/// with `NoMemory` if memory is refused, and then prints nothing of that line; and if a write or a
/// flush fails.
pub(crate) fn run<O: Output>(
    setup: &Setup<'_>,
    text: &str,
    note: &mut String,
    out: &mut O,
) -> SimulationEnd
    ensures { EndsBy setup.now.has_objects setup.now.table.now (map (λ n. n.now) setup.now.names.now)
        (lines_of text.now) (O.printed out.old) (O.printed out.new) (O.failed out.old) (O.failed out.new) result }
{
    match lines(setup.alloc, text) {
        // The call picks the classes: they are the table's.
        Ok(lines) => run_lines::<Brand, O>(setup, &lines, note, out),
        Err(_) => SimulationEnd::NoMemory,
    }
}

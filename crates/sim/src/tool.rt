//! The command `sim`, from a file's name to what is printed.

ghost use Rattle.std.specs.Prelude.{◌≡◌, IfOk, IfErr, OnErr};
ghost use Rattle.sim.specs.Simulating.{Simulates, SimulationFails};

use crate::asked::Simulation;
use crate::file::SimulationEnd;
use crate::laws::worlds_are_known;
use crate::play::play;
use crate::setup::Setup;
use crate::verified::are_verified;
use program_files::{Failure, Output, ReadableFiles, read_text};
use std::alloc::Global;
use tenant_classes::{class_names, classes};

/// Loads the classes, reads the file of events, and does its lines: prints of each what it comes to
/// before the next is done, and what the objects of a node hold that is shown, if that is asked
/// for; or draws them all. Requests go to `lock` (0), `obj` (1) and the
/// tenants' classes, by their names.
///
/// If a line is bad, and it is to be explained, `note` gets the lines that do so; else it stays.
/// Nothing is claimed of them.
///
/// A failure says why no line was done, the first reason in this order: a built-in class can't be
/// had, which memory alone is known to cause; a tenant's class can't be loaded, the first one
/// in their order; the file can't be read or is no text. Nothing was printed then.
pub fn simulate<F: ReadableFiles, O: Output>(
    alloc: Global,
    files: &F,
    simulation: &Simulation<'_>,
    note: &mut String,
    out: &mut O,
) -> Result<SimulationEnd, Failure>
    ensures ends { IfOk result (Simulates (F.disk files.now) simulation.now (O.printed out.old) (O.printed out.new)
        (O.failed out.old) (O.failed out.new)) }
    ensures fails { IfErr result (SimulationFails (F.disk files.now) simulation.now) }
    ensures silent { OnErr result (out.new ≡ out.old) }
{
    worlds_are_known();
    let table = classes(alloc, files, &simulation.tenants)?;
    are_verified(&table);
    let names = class_names(alloc, &simulation.tenants)?;
    let text = read_text(alloc, files, simulation.file)?;
    let setup = Setup {
        alloc,
        table: &table,
        names: &names,
        has_objects: simulation.has_objects,
        is_explained: simulation.is_explained,
    };
    Ok(play(&setup, &text, simulation.is_drawn, note, out))
}

//! The command `cluster`, from a file's name to what is printed.

ghost use Rattle.std.specs.Prelude.{◌≡◌, IfOk, IfErr, IfSome, IsTrue, OnErr, Ok, map, string_bytes};
ghost use Rattle.placement.specs.Placement.{is_group_count};
ghost use Rattle.cluster_file.specs.Plan.{plan_of};
ghost use Rattle.cluster_file.specs.Text.{all_lines, refused_line};
ghost use Rattle.cluster_tool.specs.Answers.{any_refused, shown};
ghost use Rattle.cluster_tool.specs.Clustering.{Clusters, ClusteringFails, IsPrintoutOf, Prints, Says, end_by};

use crate::asked::Clustering;
use crate::config::config_of;
use crate::figures::Figures;
use crate::meter::Meter;
use crate::played::Played;
use crate::playing::play;
use crate::refused::any_refused;
use crate::shown::{groups_if, lines_of};
use cluster_advice::why;
use cluster_file::{Plan, PlannedStep, Reading, bad_line, read_plan, refused_line};
use osd::ClusterParts;
use pg_log::ClassTable;
use program_files::{Failure, Output, ReadableFiles, read_text};
use rados_client::{ConfigError, ExecError, ExecReply};
use std::alloc::{AllocError, Global};
use std::fmt::Display;
use std::io;
use std::marker::Brand;
use std::sync::Wait;
use std::thread::Threads;
use std::time::Clock;
use tenant_classes::{class_names, classes};

/// The end of a file.
#[derive(Clone, Copy, Drop)]
pub enum ClusteringEnd {
    /// Each call was made, none was refused, and all lines were printed.
    Done,
    /// Each call was made, one or more were refused, and all lines were printed.
    SomeRefused,
    /// A line is malformed; its line was printed alone, and nothing was done.
    Bad,
    /// The cluster or a map is refused; a line that says so was printed alone.
    Refused,
    /// Memory was refused, for the thread of the workers too; nothing was printed.
    NoMemory,
    /// A write or a flush failed; a beginning of the lines was printed.
    Unprinted,
}

/// What is asked for, and the text of its file.
#[derive(Clone, Copy)]
struct Script<'a, 'b> {
    asked: &'a Clustering<'b>,
    text: &'a str,
}

/// The text that is printed of a file, and its end.
#[derive(Drop)]
struct Printout {
    text: String,
    ending: ClusteringEnd,
}

/// Loads the classes, reads the file whole, and plays its plan. Requests go to `lock` (0), `obj`
/// (1) and the tenants' classes, by their names. A call refused by its session is printed as the
/// others.
///
/// A failure says why nothing was done, the first reason in this order: a built-in class can't be
/// had, which memory alone is known to cause; a tenant's class can't be loaded, the first one
/// in their order; the file can't be read or is no text. Nothing was printed then. It
/// starts threads and waits for them: nothing is said of when it ends. What the run took is added
/// to the meter's figures.
pub fn cluster<
    F: ReadableFiles,
    O: Output,
    R: AllocGlobal + Threads + Wait + Clock + Sync + Drop,
    E: io::Write,
>(
    rt: R,
    files: &F,
    asked: &Clustering<'_>,
    meter: &mut Meter<'_, E>,
    out: &mut O,
) -> Result<ClusteringEnd, Failure>
    ensures ends { IfOk result (Clusters (F.disk files.now) asked.now (O.printed out.old) (O.printed out.new)
        (O.failed out.old) (O.failed out.new)) }
    ensures fails { IfErr result (ClusteringFails (F.disk files.now) asked.now) }
    ensures silent { OnErr result (out.new ≡ out.old) }
{
    let alloc = rt.alloc();
    let table = classes(alloc, files, &asked.tenants)?;
    let names = class_names(alloc, &asked.tenants)?;
    let text = read_text(alloc, files, asked.file)?;
    let figures = meter.figures();
    let script = Script {
        asked,
        text: text.as_str(),
    };
    match settle(rt, table, &names, &script, meter) {
        Ok(printout) => Ok(print(printout, figures, out)),
        Err(_) => Ok(ClusteringEnd::NoMemory),
    }
}

/// Notes that the calls were made and printed, if they were.
fn note_end(ending: ClusteringEnd, figures: &Figures) {
    match ending {
        ClusteringEnd::Done | ClusteringEnd::SomeRefused => figures.note_made(),
        ClusteringEnd::Bad
        | ClusteringEnd::Refused
        | ClusteringEnd::NoMemory
        | ClusteringEnd::Unprinted => {}
    }
}

/// Prints a file's outcome.
fn print<O: Output>(printout: Printout, figures: &Figures, out: &mut O) -> ClusteringEnd
    ensures { Prints (string_bytes printout.text) printout.ending (O.printed out.old) (O.printed out.new)
        (O.failed out.old) (O.failed out.new) result }
{
    let ending = printout.ending;
    match out.print(printout.text.as_str()) {
        Ok(()) => {
            note_end(ending, figures);
            ending
        }
        Err(_) => ClusteringEnd::Unprinted,
    }
}

/// Plays a text.
fn settle<R: AllocGlobal + Threads + Wait + Clock + Sync + Drop, E: io::Write>(
    rt: R,
    table: ClassTable,
    names: &[&str],
    script: &Script<'_, '_>,
    meter: &mut Meter<'_, E>,
) -> Result<Printout, AllocError>
    ensures { IfOk result (λ o. IsPrintoutOf script.now.asked.now table
        (plan_of (map (λ n. n.now) names.now) script.now.text.now) (string_bytes o.text) o.ending) }
{
    let alloc = rt.alloc();
    match read_plan(alloc, names, script.text)? {
        Reading::Plan(plan) => settle_plan(rt, table, &plan, script, meter),
        Reading::Bad(line) => Ok(Printout {
            text: noted(alloc, script, line, bad_line(alloc, line)?)?,
            ending: ClusteringEnd::Bad,
        }),
    }
}

/// What says that a line is malformed or refused, and the note on it, if it is asked for.
fn noted(
    alloc: Global,
    script: &Script<'_, '_>,
    line: usize,
    said: String,
) -> Result<String, AllocError>
    ensures { IfOk result (λ t. Says script.now.asked.now line (string_bytes said) (string_bytes t)) }
{
    if script.asked.is_explained {
        let note = why(alloc, script.asked.file, script.text, line)?;
        let mut text = said;
        text.push_str(&note)?;
        return Ok(text);
    }
    Ok(said)
}

/// A cluster or a map that is refused, at that line.
fn refused<E: Display + Drop>(
    alloc: Global,
    script: &Script<'_, '_>,
    line: usize,
    why: E,
) -> Result<Printout, AllocError>
    ensures ending { IfOk result (λ o. o.ending ≡ ClusteringEnd.Refused) }
    ensures text { IfOk result (λ o. IfSome (E.output why)
        (λ reason. Says script.now.asked.now line (refused_line line reason) (string_bytes o.text))) }
{
    Ok(Printout {
        text: noted(alloc, script, line, refused_line(alloc, line, why)?)?,
        ending: ClusteringEnd::Refused,
    })
}

/// The lines of calls that ended so.
fn made(
    alloc: Global,
    groups: Option<u64>,
    steps: &[PlannedStep],
    ends: &[Vec<Result<ExecReply, ExecError>>],
) -> Result<Printout, AllocError>
    requires { IfSome groups (λ n. IsTrue (is_group_count n)) }
    ensures text { IfOk result (λ o. string_bytes o.text ≡
        all_lines groups steps.now 1 (map (map shown) (map (λ v. v.items) ends.now))) }
    ensures ending { IfOk result (λ o. o.ending ≡ end_by (any_refused (map (λ v. v.items) ends.now))) }
{
    let text = lines_of(alloc, groups, steps, ends)?;
    let ending = if any_refused(ends) {
        ClusteringEnd::SomeRefused
    } else {
        ClusteringEnd::Done
    };
    Ok(Printout { text, ending })
}

/// Plays a plan.
fn settle_plan<R: AllocGlobal + Threads + Wait + Clock + Sync + Drop, E: io::Write>(
    rt: R,
    table: ClassTable,
    plan: &Plan,
    script: &Script<'_, '_>,
    meter: &mut Meter<'_, E>,
) -> Result<Printout, AllocError>
    ensures { IfOk result (λ o. IsPrintoutOf script.now.asked.now table (Ok plan.now) (string_bytes o.text) o.ending) }
{
    let alloc = rt.alloc();
    let Some(config) = config_of(plan.numbers()) else {
        return refused(alloc, script, 1, ConfigError::Limit);
    };
    let groups = groups_if(script.asked.is_shown, &config);
    meter.show(groups);
    let Ok(parts) = ClusterParts::new(alloc, config) else {
        return refused(alloc, script, 1, ConfigError::NoMemory);
    };
    // The call picks the cluster's names: parts and classes are there already.
    match play::<Brand, R, E>(rt, parts, table, plan, meter) {
        Ok(Played::Done(ends)) => made(alloc, groups, plan.steps(), &ends),
        Ok(Played::MapRefused(line, why)) => refused(alloc, script, line, why),
        Ok(Played::NoMemory) => Err(AllocError),
        Err(_) => refused(alloc, script, 1, ConfigError::NoMemory),
    }
}

//! From words to what they ask for, done and printed, and the status that a run ends with.

ghost use Rattle.std.specs.Prelude.{◌≡◌, ◌≢◌, IfErr, IfOk, true, false, map};
ghost use Rattle.command_line.specs.Parsed.{IsMemory};
ghost use Rattle.radoscls_program.specs.Change.{changed};
ghost use Rattle.radoscls_program.specs.Clustered.{ClusterEnds};
ghost use Rattle.radoscls_program.specs.Playing.{SimEnds};
ghost use Rattle.radoscls_program.specs.Program.{Acts, CallEnds, Ends, LoopCallEnds, Responds, TaskEnds};
ghost use Rattle.class_tool.specs.ActionResult.{Fails, Settles};
ghost use Rattle.program_files.specs.Files.{storage};
ghost use Rattle.radoscls_program.specs.Program.{run_by};
ghost use Rattle.radoscls_program.specs.Shown.{IsToldAs};
ghost use Rattle.radoscls_program.specs.Status.{code_of};
ghost use Rattle.radoscls_program.specs.Streams.{stream, IsPrinted, failure_line};
ghost use Rattle.radoscls_program.specs.declared.status.ExitStatus.{ExitStatus as AStatus};

use crate::asked::asked;
use crate::error_stream::ErrorStream;
use crate::judging::{judge, judge_files};
use crate::looping::{find_heads, judge_loops, pack_heads, run_looped};
use crate::showing::show;
use crate::status::{ActionEnd, ExitStatus};
use crate::task::{ClusterTask, GivenCall, Task, Telling};
use crate::telling::{add, asked_note, refuse, tell_as};
use crate::testing::test;
use crate::threads::play_cluster;
use crate::unplayed::{Unplayed, tell_unplayed};
use crate::values::{call_with, filled};
use class_tool::{Action, ActionResult, find};
use cluster_tool::{Figures, Meter};
use command_line::Unparsed;
use object_texts::MethodCall;
use program_files::{Failed, Failure, Files, Output, ReadableFiles};
use sim::{Simulation, SimulationEnd, simulate};
use std::alloc::Global;
use std::convert::AsStr;
use std::io;
use std::sync::Wait;
use std::thread::Threads;
use std::time::Clock;

/// Prints an answer, or why there is none.
fn respond<F: Files, O: Output>(
    alloc: Global,
    files: &F,
    found: &Result<ActionResult, Failed>,
    telling: Telling,
    out: &mut O,
) -> ExitStatus
    ensures { Responds (stream O.printed O.failed out.old)
        (stream O.printed O.failed out.new) found.now telling result }
{
    match found {
        Ok(answer) => show(alloc, answer, telling.is_json, out),
        Err(failed) => tell_as(alloc, files, failed, telling, out),
    }
}

/// A failure, which tells each wrong line of a text, if it is asked for.
fn told_by(failed: Failed, is_each_line: bool) -> Failed
    ensures { result.failure ≡ failed.failure }
{
    if is_each_line {
        failed.of_each_line()
    } else {
        failed
    }
}

/// Does what is asked of a class, as `find` does.
fn find_told<F: Files>(
    alloc: Global,
    files: &mut F,
    action: &Action<'_>,
    is_each_line: bool,
) -> Result<ActionResult, Failed>
    ensures settles { IfOk result (Settles (storage F.disk F.failed F.in_place files.old)
        (storage F.disk F.failed F.in_place files.new) action.now) }
    ensures fails { IfErr result (λ e. Fails (storage F.disk F.failed F.in_place files.old)
        (storage F.disk F.failed F.in_place files.new) action.now e.failure) }
{
    match find(alloc, files, action) {
        Ok(answer) => Ok(answer),
        Err(failed) => Err(told_by(failed, is_each_line)),
    }
}

/// Says that a call's object was saved, if only the answer was not printed: the same call again
/// would count twice.
fn tell_saved<E: io::Write>(end: ActionEnd, call: &GivenCall<'_>, err: &mut E) {
    if end.is_unprinted {
        if let Some(file) = call.save {
            let _ = writeln!(
                err,
                "radoscls: standard output failed; the object was saved to {file}"
            );
        }
    }
}

/// Does what is asked of a class, and prints it.
fn act<F: Files, O: Output>(
    alloc: Global,
    files: &mut F,
    action: &Action<'_>,
    telling: Telling,
    out: &mut O,
) -> ActionEnd
    ensures { Acts (changed (storage F.disk F.failed F.in_place) files.old files.new
        (stream O.printed O.failed) out.old out.new) action.now telling result.status }
{
    let found = find_told(alloc, files, action, telling.notes.is_each_line);
    let status = respond(alloc, files, &found, telling, out);
    ActionEnd {
        status,
        is_unprinted: found.is_ok() && status == ExitStatus::Refused,
    }
}

/// The action of a call: by an OSD's limits, or not.
fn run_by<'a>(is_large: bool, call: MethodCall<'a>) -> Action<'a>
    ensures { result ≡ run_by is_large call.entry }
{
    if is_large {
        Action::RunLarge(call)
    } else {
        Action::Run(call)
    }
}

/// Prints why a call was not made.
fn unmade<F: Files, O: Output>(
    alloc: Global,
    files: &F,
    failure: Failure,
    telling: Telling,
    out: &mut O,
) -> ActionEnd
    ensures status { result.status ≡ ExitStatus.Refused }
    ensures told { IsToldAs (stream O.printed O.failed out.old)
        (stream O.printed O.failed out.new) failure telling }
{
    ActionEnd {
        status: tell_as(alloc, files, &Failed::from(failure), telling, out),
        is_unprinted: false,
    }
}

/// Makes a call, after its values' files are read, and prints what it comes to.
fn act_call<F: Files, O: Output>(
    alloc: Global,
    files: &mut F,
    call: &GivenCall<'_>,
    telling: Telling,
    out: &mut O,
) -> ActionEnd
    ensures { CallEnds (changed (storage F.disk F.failed F.in_place) files.old files.new
        (stream O.printed O.failed) out.old out.new) call.now telling result.status }
{
    let values = match filled(alloc, files, call) {
        Ok(values) => values,
        Err(failure) => return unmade(alloc, files, failure, telling, out),
    };
    match call_with(alloc, call, &values) {
        Ok(made) => {
            let action = run_by(call.is_large, made);
            act(alloc, files, &action, telling, out)
        }
        Err(_) => unmade(alloc, files, Failure::NoMemory, telling, out),
    }
}

/// Makes a call of a method that may loop, after its values' files are read, and prints what it
/// comes to.
fn act_by_loops<F: Files, O: Output>(
    alloc: Global,
    files: &mut F,
    call: &GivenCall<'_>,
    telling: Telling,
    out: &mut O,
) -> ActionEnd
    ensures { LoopCallEnds (changed (storage F.disk F.failed F.in_place) files.old files.new
        (stream O.printed O.failed) out.old out.new) call.now telling result.status }
{
    let values = match filled(alloc, files, call) {
        Ok(values) => values,
        Err(failure) => return unmade(alloc, files, failure, telling, out),
    };
    match call_with(alloc, call, &values) {
        Ok(made) => run_looped(alloc, files, &made, telling, out),
        Err(_) => unmade(alloc, files, Failure::NoMemory, telling, out),
    }
}

/// Plays a file of events, and prints why if that comes to nothing, ends for want of memory, or if
/// it is asked for, at a bad line.
fn play<F: Files, O: Output>(
    alloc: Global,
    files: &F,
    simulation: &Simulation<'_>,
    out: &mut O,
) -> ExitStatus
    ensures { SimEnds (F.disk files.now) (stream O.printed O.failed out.old)
        (stream O.printed O.failed out.new) simulation.now result }
{
    let is_explained = simulation.is_explained;
    let mut why = String::new(alloc);
    match simulate(alloc, files, simulation, &mut why, out) {
        Ok(SimulationEnd::Done) => ExitStatus::Done,
        Ok(SimulationEnd::Bad) => add(&asked_note(alloc, why, is_explained), out),
        Ok(SimulationEnd::Unprinted) => ExitStatus::Refused,
        Ok(SimulationEnd::NoMemory) => refuse(Failure::NoMemory, out),
        Err(failure) => {
            let classes = &simulation.tenants;
            let asked = Unplayed {
                classes,
                is_explained,
            };
            tell_unplayed(alloc, files, asked, failure, out)
        }
    }
}

/// Plays a file of calls and maps on a cluster. Its figures and its calls' lines are written to
/// `err`, if they are asked for; if neither is, on a terminal, how far the run is.
fn measure<R: AllocGlobal + Threads + Wait + Clock + Sync, F: Files, O: Output, E: io::Write>(
    rt: &R,
    files: &F,
    task: &ClusterTask<'_>,
    out: &mut O,
    err: &mut ErrorStream<'_, E>,
) -> ExitStatus
    ensures { ClusterEnds (F.disk files.now) (stream O.printed O.failed out.old)
        (stream O.printed O.failed out.new) task.now result }
{
    let figures = Figures::new(rt.alloc());
    let is_shown = task.is_measured || task.is_followed || err.is_terminal;
    let to = &mut *err.to;
    let lines = if is_shown { Some(&mut *to) } else { None };
    let mut meter = Meter::new(&figures, lines);
    if !task.is_measured {
        meter.tell_in_place();
    }
    if task.is_followed {
        meter.follow();
    }
    let status = play_cluster(rt, files, task, &mut meter, out);
    // The meter wrote to `err` too.
    drop(meter);
    if task.is_measured && figures.are_made() {
        let _ = write!(to, "{figures}");
    }
    status
}

/// Does what the words ask for, and prints it.
#[rattlefmt::skip]
fn do_task<R: AllocGlobal + Threads + Wait + Clock + Sync, F: Files, O: Output, E: io::Write>(
    rt: &R,
    files: &mut F,
    task: &Task<'_>,
    out: &mut O,
    err: &mut ErrorStream<'_, E>,
) -> ExitStatus
    ensures { TaskEnds (changed (storage F.disk F.failed F.in_place) files.old files.new
        (stream O.printed O.failed) out.old out.new) task.now result }
{
    let alloc = rt.alloc();
    match task {
        Task::Class(action, telling) => act(alloc, files, action, *telling, out).status,
        Task::Files(asked) => judge_files(alloc, files, asked, out),
        Task::Each(image, is_explained) => judge(alloc, files, image, *is_explained, out),
        Task::Loops(asked) => judge_loops(alloc, files, asked, out),
        Task::Heads(asked) => find_heads(alloc, files, asked, out),
        Task::PackHeads(asked) => pack_heads(alloc, files, asked, out),
        Task::Run(call, telling) => {
            let end = act_call(alloc, files, call, *telling, out);
            tell_saved(end, call, &mut *err.to);
            end.status
        }
        Task::RunLoops(call, telling) => {
            let end = act_by_loops(alloc, files, call, *telling, out);
            tell_saved(end, call, &mut *err.to);
            end.status
        }
        Task::Test(asked, is_explained) => test(alloc, files, asked, *is_explained, out),
        Task::Sim(simulation) => play(alloc, files, simulation, out),
        Task::Cluster(cluster) => measure(rt, files, cluster, out, err),
    }
}

/// Prints why the words name no task: a refusal if memory ran out, else usage or help.
fn explain<O: Output, E: io::Write>(error: &Unparsed, out: &mut O, err: &mut E) -> ExitStatus
    ensures done { result ≢ ExitStatus.Done }
    ensures refused { result ≡ ExitStatus.Refused →
        IsPrinted (stream O.printed O.failed out.old) (stream O.printed O.failed out.new)
        (failure_line Failure.NoMemory) }
    ensures usage { result ≡ ExitStatus.Usage →
        (IsMemory error.now → ⊥) × (stream O.printed O.failed out.new ≡ stream O.printed O.failed out.old) }
{
    if error.is_memory() {
        return refuse(Failure::NoMemory, out);
    }
    let _ = write!(err, "{error}");
    ExitStatus::Usage
}

/// Does what the words ask for, and says why if they name no task.
pub(crate) fn perform<
    S: AsStr,
    R: AllocGlobal + Threads + Wait + Clock + Sync,
    F: Files,
    O: Output,
    E: io::Write,
>(rt: &R, words: &[S], files: &mut F, out: &mut O, err: &mut ErrorStream<'_, E>) -> ExitStatus
    ensures { Ends (changed (storage F.disk F.failed F.in_place) files.old files.new
        (stream O.printed O.failed) out.old out.new) (map S.text words.now) result }
{
    match asked(rt.alloc(), words) {
        Ok(task) => {
            let status = do_task(rt, files, &task, out, err);
            drop(task);
            status
        }
        Err(error) => {
            let status = explain(&error, out, &mut *err.to);
            drop(error);
            status
        }
    }
}

/// Does what the words ask for; the first is the program's own name. Answers and refusals are
/// printed on `out`, a line each; usage and help on `err`.
///
/// The answer is what the process ends with: 0 if it was done and printed, 1 if it was
/// refused, or a write or a flush of `out` failed, and then a beginning of it was printed; 2 after
/// usage or help, if the words name no task without a fault. No file is written but the one that
/// `asm`, `pack` or `heads` names for the image, and that one only if the text or the raw code is
/// right, and all heads are found that are asked for, and the one that `run --save` names for the
/// object; if that fails, it is as it was. If only the answer of a call could not be printed, a line
/// on `err` says that its object was saved.
/// `sim` prints of each line of its file what it comes to before the next is done; `cluster` prints
/// its lines once all calls have ended.
///
/// `cluster` starts threads by `rt` and waits for them: nothing is said of when it ends. With
/// `--stats` what the run took is written to `err`, which is taken for no terminal, and with
/// `--follow` the lines of calls.
pub fn program<
    S: AsStr,
    R: AllocGlobal + Threads + Wait + Clock + Sync,
    F: Files,
    O: Output,
    E: io::Write,
>(rt: &R, words: &[S], files: &mut F, out: &mut O, err: &mut E) -> u8
    ensures ends { (status : AStatus) × (result ≡ code_of status) ×
        Ends (changed (storage F.disk F.failed F.in_place) files.old files.new (stream O.printed O.failed)
        out.old out.new) (map S.text words.now) status }
    // If a write or a flush of `out` fails, the ending is 1.
    ensures failed { O.failed out.old ≡ false → O.failed out.new ≡ true → result ≡ 1 }
{
    let mut err = ErrorStream {
        to: err,
        is_terminal: false,
    };
    perform(rt, words, files, out, &mut err).code()
}

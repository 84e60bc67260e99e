//! Finds the task that words ask for.
ghost use Rattle.std.specs.Prelude.{◌≡◌, ◌≢◌, IfErr, IfNone, IfOk, IfSome, codes, false, map, true};
ghost use Rattle.command_line.specs.Parsed.{IsMemory, is_set_in, one_in, parsed_of};
ghost use Rattle.radoscls_program.specs.Arguments.{Asks, Names, TakesFiles, are_files, form_of, json_is_alone};
ghost use Rattle.radoscls_program.specs.Arguments.{TakesLoops, is_ceph, loops_are_alone, loops_are_plain, telling_of};
ghost use Rattle.radoscls_program.specs.Asked.{AreFor, AreForNone};
ghost use Rattle.radoscls_program.specs.declared.task.Task.{Task as ATask};

use crate::actions::{
    call_of, clustering_of, heads_budget, heads_of, packing_of, simulation_of, wanted,
};
use crate::inputs::check_inputs;
use crate::mistake::Mistake;
use crate::task::{ClusterTask, Task, Telling, Testing};
use class_reports::{FilesAsked, Notes, ReportForm};
use class_tool::Action;
use command_line::{ParsedWords, Unparsed, misused, parse};
use loop_tool::{HeadedPacking, HeadsAsked, LoopsAsked};
use std::alloc::{AllocError, Global};
use std::convert::AsStr;

/// How a result is told.
fn telling_of(words: &ParsedWords<'_>) -> Telling
    ensures { result ≡ telling_of (parsed_of words.now) }
{
    Telling {
        notes: Notes {
            is_explained: words.is_set("explain"),
            is_each_line: words.is_set("all"),
        },
        is_json: words.is_set("json"),
    }
}

/// Refuses words that ask for JSON, and for more than that tells.
fn check_json<'a>(words: &ParsedWords<'a>) -> Result<(), Mistake<'a>>
    ensures ok { IfOk result (λ _. json_is_alone (parsed_of words.now) ≡ true) }
    ensures err { IfErr result (λ _. json_is_alone (parsed_of words.now) ≡ false) }
{
    if words.is_set("json") && (words.is_set("all") || words.is_set("explain")) {
        Err(Mistake::JsonOfMore)
    } else {
        Ok(())
    }
}

/// Refuses words that ask for loops, and for more than that tells.
fn check_loops<'a>(words: &ParsedWords<'a>) -> Result<(), Mistake<'a>>
    ensures ok { IfOk result (λ _. loops_are_alone (parsed_of words.now) ≡ true) }
    ensures err { IfErr result (λ _. loops_are_alone (parsed_of words.now) ≡ false) }
{
    if words.is_set("loops") && (words.is_set("all") || words.is_set("json")) {
        Err(Mistake::LoopsOfMore)
    } else {
        Ok(())
    }
}

/// True if `--limits` names those of an OSD.
fn is_ceph(words: &ParsedWords<'_>) -> bool
    ensures { result ≡ is_ceph (one_in (parsed_of words.now) (codes "limits")) }
{
    match words.one("limits") {
        Some(limits) => limits == "ceph",
        None => false,
    }
}

/// Refuses words that ask for calls by loops, and for what these don't have.
fn check_plain<'a>(words: &ParsedWords<'a>) -> Result<(), Mistake<'a>>
    ensures ok { IfOk result (λ _. loops_are_plain (parsed_of words.now) ≡ true) }
    ensures err { IfErr result (λ _. loops_are_plain (parsed_of words.now) ≡ false) }
{
    if words.is_set("loops") && (words.is_set("trace") || is_ceph(words)) {
        Err(Mistake::LoopsNotPlain)
    } else {
        Ok(())
    }
}

/// The files that `verify` is asked of by heads, if it is.
fn loops_of<'a>(
    alloc: Global,
    words: &ParsedWords<'a>,
) -> Result<Option<LoopsAsked<'a>>, AllocError>
    ensures some { IfOk result (λ found. IfSome found (TakesLoops (parsed_of words.now))) }
    ensures none { IfOk result (λ found. IfNone found (is_set_in (parsed_of words.now) (codes "loops") ≡ false)) }
{
    if !words.is_set("loops") {
        return Ok(None);
    }
    let files = words.all(alloc, "IN")?;
    Ok(Some(LoopsAsked {
        files,
        is_explained: words.is_set("explain"),
    }))
}

/// How the verdicts on files are told.
fn form_of(words: &ParsedWords<'_>) -> ReportForm
    ensures { result ≡ form_of (parsed_of words.now) }
{
    if words.is_set("json") {
        ReportForm::Json
    } else if words.is_set("all") {
        ReportForm::Each
    } else {
        ReportForm::Class
    }
}

/// The files that `verify` is asked of, if they are several, or one is told in JSON.
fn files_of<'a>(
    alloc: Global,
    words: &ParsedWords<'a>,
) -> Result<Option<FilesAsked<'a>>, AllocError>
    requires { is_set_in (parsed_of words.now) (codes "loops") ≡ false }
    ensures some { IfOk result (λ found. IfSome found (TakesFiles (parsed_of words.now))) }
    ensures none { IfOk result (λ found. IfNone found (are_files (parsed_of words.now) ≡ false)) }
{
    let files = words.all(alloc, "IN")?;
    if !(words.is_set("json") || files.len() > 1) {
        return Ok(None);
    }
    Ok(Some(FilesAsked {
        files,
        form: form_of(words),
        is_explained: words.is_set("explain"),
    }))
}

/// `verify`.
fn verify_task<'a>(alloc: Global, words: &ParsedWords<'a>) -> Result<Task<'a>, Mistake<'a>>
    requires { (parsed_of words.now).name ≡ codes "verify" }
    ensures named { IfOk result (Names (parsed_of words.now)) }
    ensures unnamed { IfErr result (λ m. m ≢ Mistake.NoMemory → (task : ATask) → Names (parsed_of words.now) task → ⊥) }
{
    let image = wanted(words, "IN")?;
    check_json(words)?;
    check_loops(words)?;
    if let Some(asked) = loops_of(alloc, words)? {
        return Ok(Task::Loops(asked));
    }
    if let Some(files) = files_of(alloc, words)? {
        return Ok(Task::Files(files));
    }
    if words.is_set("all") {
        return Ok(Task::Each(image, words.is_set("explain")));
    }
    Ok(Task::Class(Action::Verify { image }, telling_of(words)))
}

/// `run`.
fn run_task<'a>(alloc: Global, words: &ParsedWords<'a>) -> Result<Task<'a>, Mistake<'a>>
    requires { (parsed_of words.now).name ≡ codes "run" }
    ensures named { IfOk result (Names (parsed_of words.now)) }
    ensures unnamed { IfErr result (λ m. m ≢ Mistake.NoMemory → (task : ATask) → Names (parsed_of words.now) task → ⊥) }
{
    check_json(words)?;
    check_plain(words)?;
    let call = call_of(alloc, words)?;
    if words.is_set("loops") {
        return Ok(Task::RunLoops(call, telling_of(words)));
    }
    Ok(Task::Run(call, telling_of(words)))
}

/// `test`.
fn test_task<'a>(words: &ParsedWords<'a>) -> Result<Task<'a>, Mistake<'a>>
    requires { (parsed_of words.now).name ≡ codes "test" }
    ensures named { IfOk result (Names (parsed_of words.now)) }
    ensures unnamed { IfErr result (λ m. m ≢ Mistake.NoMemory → (task : ATask) → Names (parsed_of words.now) task → ⊥) }
{
    check_plain(words)?;
    let class = wanted(words, "IN")?;
    let file = wanted(words, "FILE")?;
    let asked = Testing {
        class,
        file,
        is_traced: words.is_set("trace"),
        is_looped: words.is_set("loops"),
    };
    Ok(Task::Test(asked, words.is_set("explain")))
}

/// `asm`.
fn asm_task<'a>(words: &ParsedWords<'a>) -> Result<Task<'a>, Mistake<'a>>
    requires { (parsed_of words.now).name ≡ codes "asm" }
    ensures named { IfOk result (Names (parsed_of words.now)) }
    ensures unnamed { IfErr result (λ m. m ≢ Mistake.NoMemory → (task : ATask) → Names (parsed_of words.now) task → ⊥) }
{
    let text = wanted(words, "IN")?;
    let image = wanted(words, "OUT")?;
    if let Some(budget) = heads_budget(words)? {
        let class = text;
        return Ok(Task::Heads(HeadsAsked {
            class,
            image,
            budget,
        }));
    }
    Ok(Task::Class(Action::Assemble { text, image }, telling_of(words)))
}

/// `pack`.
fn pack_task<'a>(alloc: Global, words: &ParsedWords<'a>) -> Result<Task<'a>, Mistake<'a>>
    requires { (parsed_of words.now).name ≡ codes "pack" }
    ensures named { IfOk result (Names (parsed_of words.now)) }
    ensures unnamed { IfErr result (λ m. m ≢ Mistake.NoMemory → (task : ATask) → Names (parsed_of words.now) task → ⊥) }
{
    let packing = packing_of(alloc, words)?;
    if let Some(budget) = heads_budget(words)? {
        return Ok(Task::PackHeads(HeadedPacking { packing, budget }));
    }
    Ok(Task::Class(Action::Pack(packing), telling_of(words)))
}

/// `dis`.
fn dis_task<'a>(words: &ParsedWords<'a>) -> Result<Task<'a>, Mistake<'a>>
    requires { (parsed_of words.now).name ≡ codes "dis" }
    ensures named { IfOk result (Names (parsed_of words.now)) }
    ensures unnamed { IfErr result (λ m. m ≢ Mistake.NoMemory → (task : ATask) → Names (parsed_of words.now) task → ⊥) }
{
    let image = wanted(words, "IN")?;
    let has_slots = words.is_set("slots");
    Ok(Task::Class(Action::Disassemble { image, has_slots }, telling_of(words)))
}

/// `heads`.
fn heads_task<'a>(words: &ParsedWords<'a>) -> Result<Task<'a>, Mistake<'a>>
    requires { (parsed_of words.now).name ≡ codes "heads" }
    ensures named { IfOk result (Names (parsed_of words.now)) }
    ensures unnamed { IfErr result (λ m. m ≢ Mistake.NoMemory → (task : ATask) → Names (parsed_of words.now) task → ⊥) }
{
    Ok(Task::Heads(heads_of(words)?))
}

/// `sim`.
fn sim_task<'a>(alloc: Global, words: &ParsedWords<'a>) -> Result<Task<'a>, Mistake<'a>>
    requires { (parsed_of words.now).name ≡ codes "sim" }
    ensures named { IfOk result (Names (parsed_of words.now)) }
    ensures unnamed { IfErr result (λ m. m ≢ Mistake.NoMemory → (task : ATask) → Names (parsed_of words.now) task → ⊥) }
{
    Ok(Task::Sim(simulation_of(alloc, words)?))
}

/// `cluster`.
fn cluster_task<'a>(alloc: Global, words: &ParsedWords<'a>) -> Result<Task<'a>, Mistake<'a>>
    requires { (parsed_of words.now).name ≡ codes "cluster" }
    ensures named { IfOk result (Names (parsed_of words.now)) }
    ensures unnamed { IfErr result (λ m. m ≢ Mistake.NoMemory → (task : ATask) → Names (parsed_of words.now) task → ⊥) }
{
    let clustering = clustering_of(alloc, words)?;
    Ok(Task::Cluster(ClusterTask {
        clustering,
        is_measured: words.is_set("stats"),
        is_strict: words.is_set("strict"),
        is_followed: words.is_set("follow"),
    }))
}

/// The task that the subcommand and its arguments name.
#[rattlefmt::skip]
fn task_of<'a>(alloc: Global, words: &ParsedWords<'a>) -> Result<Task<'a>, Mistake<'a>>
    ensures named { IfOk result (Names (parsed_of words.now)) }
    ensures unnamed { IfErr result (λ m. m ≢ Mistake.NoMemory → (task : ATask) → Names (parsed_of words.now) task → ⊥) }
{
    match words.name() {
        "verify"  => verify_task(alloc, words),
        "run"     => run_task(alloc, words),
        "test"    => test_task(words),
        "asm"     => asm_task(words),
        "pack"    => pack_task(alloc, words),
        "dis"     => dis_task(words),
        "heads"   => heads_task(words),
        "sim"     => sim_task(alloc, words),
        "cluster" => cluster_task(alloc, words),
        _         => Err(Mistake::Incomplete),
    }
}

/// The task that read words ask for.
fn asked_by<'a>(alloc: Global, words: &ParsedWords<'a>) -> Result<Task<'a>, Mistake<'a>>
    ensures asks { IfOk result (Asks (parsed_of words.now)) }
    ensures asks_not { IfErr result (λ m. m ≢ Mistake.NoMemory → (task : ATask) → Asks (parsed_of words.now) task → ⊥) }
{
    check_inputs(alloc, words)?;
    task_of(alloc, words)
}

/// The message on a mistake, with the usage of the subcommand.
fn told(alloc: Global, words: &ParsedWords<'_>, mistake: Mistake<'_>) -> Unparsed
    ensures { mistake.entry ≡ Mistake.NoMemory → IsMemory result }
{
    if let Mistake::NoMemory = mistake {
        return Unparsed::from(AllocError);
    }
    match mistake.message(alloc) {
        Ok(message) => misused(alloc, words.name(), &message),
        Err(error) => Unparsed::from(error),
    }
}

/// The task that read words ask for, or the message on them.
fn asked_or_told<'a>(alloc: Global, words: &ParsedWords<'a>) -> Result<Task<'a>, Unparsed>
    ensures asks { IfOk result (Asks (parsed_of words.now)) }
    ensures asks_not { IfErr result (λ e. (IsMemory e → ⊥) → (task : ATask) → Asks (parsed_of words.now) task → ⊥) }
{
    match asked_by(alloc, words) {
        Ok(task) => Ok(task),
        Err(mistake) => Err(told(alloc, words, mistake)),
    }
}

/// The task that words ask for; the first is the program's own name. Else a text for the user:
/// usage, help, or what is wrong with the words.
pub(crate) fn asked<'a, S: AsStr>(alloc: Global, words: &'a [S]) -> Result<Task<'a>, Unparsed>
    ensures asked { IfOk result (AreFor (map S.text words.entry.now)) }
    ensures unasked { IfErr result (λ e. (IsMemory e → ⊥) → AreForNone (map S.text words.entry.now)) }
{
    match parse(alloc, words) {
        Ok(parsed) => {
            let task = asked_or_told(alloc, &parsed);
            drop(parsed);
            task
        }
        Err(unparsed) => Err(unparsed),
    }
}

//! Reads the arguments of each subcommand.
ghost use Rattle.std.specs.Prelude.{◌≡◌, ◌≢◌, ◌≤◌, List, IfErr, IfNone, IfOk, IfSome, None, Some, codes, false, length};
ghost use Rattle.std.specs.Prelude.{option_and_then, true, ℕ};
ghost use Rattle.command_line.specs.Parsed.{all_in, one_in, parsed_of};
ghost use Rattle.file_words.specs.Words.{id_in};
ghost use Rattle.tenant_classes.specs.declared.tenant_class.TheConstants.{TENANT_LIMIT};
ghost use Rattle.object_texts.specs.declared.method_call.SpelledEntry.{SpelledEntry as ASpelledEntry};
ghost use Rattle.class_tool.specs.declared.action.Packing.{Packing as APacking};
ghost use Rattle.cluster_tool.specs.declared.asked.Clustering.{Clustering as AClustering};
ghost use Rattle.loop_tool.specs.declared.asked.HeadsAsked.{HeadsAsked as AHeadsAsked};
ghost use Rattle.sim.specs.declared.asked.Simulation.{Simulation as ASimulation};
ghost use Rattle.radoscls_program.specs.declared.actions.Plain.{Plain as APlain};
ghost use Rattle.radoscls_program.specs.declared.task.GivenCall.{GivenCall as AGivenCall};
ghost use Rattle.radoscls_program.specs.declared.task.GivenInput.{GivenInput as AnInput};
ghost use Rattle.radoscls_program.specs.Arguments.{TakesCall, TakesCluster, TakesInput, TakesPacking, TakesPlain};
ghost use Rattle.radoscls_program.specs.Arguments.{TakesHeads, TakesSim, budget_in};
ghost use Rattle.radoscls_program.specs.Arguments.{FindsHeads, FindsNone, given_budget, heads_are_alone};
ghost use Rattle.radoscls_program.specs.Arguments.{IsOfKind, limits_named, loads_alone, rules_named, saves_apart};
ghost use Rattle.radoscls_program.specs.Arguments.{objects_are_undrawn, takes_limits};
ghost use Rattle.class_tests.specs.Spelled.{of_kind};
ghost use Rattle.radoscls_program.specs.Entries.{AreEntries};
ghost use Rattle.radoscls_program.specs.Tenants.{SpellsTenants, are_tenants};

use crate::entry::entries;
use crate::mistake::{Mistake, Wanted};
use crate::number::{budget_in, caller_in};
use crate::raw_method::raw_methods;
use crate::task::{GivenCall, GivenInput};
use crate::tenant_class::tenants_in;
use bpf_decode::RuleSet;
use class_tests::of_kind;
use class_tool::Packing;
use cluster_tool::Clustering;
use command_line::ParsedWords;
use loop_tool::HeadsAsked;
use object_texts::SpelledEntry;
use pg_log::ClientId;
use sim::Simulation;
use std::alloc::{AllocError, Global};
use tenant_classes::TenantClass;

/// The budget of heads that `asm` and `pack` find without `--budget`.
const USUAL_BUDGET: u32 = 131_072;

/// The arguments of `run`, but for the input and the object.
#[derive(Clone, Copy)]
pub(crate) struct Plain<'a> {
    image: &'a str,
    method: &'a str,
    caller: ClientId,
}

/// The text of an argument that has to be there.
pub(crate) fn wanted<'a>(words: &ParsedWords<'a>, id: &str) -> Result<&'a str, Mistake<'a>>
    ensures some { IfOk result (λ text. one_in (parsed_of words.now) id.now ≡ Some text.now) }
    ensures none { IfErr result (λ _. one_in (parsed_of words.now) id.now ≡ None) }
{
    match words.one(id) {
        Some(text) => Ok(text),
        None => Err(Mistake::Incomplete),
    }
}

/// The client of `--caller`.
fn caller_of<'a>(words: &ParsedWords<'a>) -> Result<ClientId, Mistake<'a>>
    ensures some { IfOk result (λ caller. option_and_then id_in (one_in (parsed_of words.now) (codes "caller")) ≡
        Some caller) }
    ensures none { IfErr result (λ _. option_and_then id_in (one_in (parsed_of words.now) (codes "caller")) ≡ None) }
{
    let text = wanted(words, "caller")?;
    match caller_in(text) {
        Some(caller) => Ok(caller),
        None => Err(Mistake::Value(Wanted::Caller, text)),
    }
}

/// Reads the arguments of `run`, but for the input and the object.
fn plain_call<'a>(words: &ParsedWords<'a>) -> Result<Plain<'a>, Mistake<'a>>
    ensures some { IfOk result (TakesPlain (parsed_of words.now)) }
    ensures none { IfErr result (λ _. (plain : APlain) → TakesPlain (parsed_of words.now) plain → ⊥) }
{
    Ok(Plain {
        image: wanted(words, "IN")?,
        method: wanted(words, "METHOD")?,
        caller: caller_of(words)?,
    })
}

/// The input of the bytes that a text spells, of a kind of the inputs of tests.
fn input_of_kind<'a>(
    alloc: Global,
    kind: &str,
    text: &'a str,
    wanted: Wanted,
) -> Result<GivenInput<'a>, Mistake<'a>>
    ensures some { IfOk result (λ input. IsOfKind kind.now text.now input) }
    ensures none { IfErr result (λ m. m ≢ Mistake.NoMemory → of_kind kind.now text.now ≡ None) }
{
    match of_kind(alloc, kind, text)? {
        Some(bytes) => Ok(GivenInput::Bytes(bytes)),
        None => Err(Mistake::Value(wanted, text)),
    }
}

/// The input of `run`; two of them are refused.
fn input_of<'a>(alloc: Global, words: &ParsedWords<'a>) -> Result<GivenInput<'a>, Mistake<'a>>
    ensures some { IfOk result (TakesInput (parsed_of words.now)) }
    ensures none { IfErr result (λ m. m ≢ Mistake.NoMemory → (input : AnInput) →
        TakesInput (parsed_of words.now) input → ⊥) }
{
    match (
        words.one("input"),
        words.one("input-text"),
        words.one("input-u64"),
    ) {
        (None, None, None) => Ok(GivenInput::Value("")),
        (Some(value), None, None) => Ok(GivenInput::Value(value)),
        (None, Some(text), None) => input_of_kind(alloc, "text", text, Wanted::InputText),
        (None, None, Some(numbers)) => input_of_kind(alloc, "u64", numbers, Wanted::InputU64),
        (Some(_), Some(_), None)
        | (Some(_), None, Some(_))
        | (None, Some(_), Some(_))
        | (Some(_), Some(_), Some(_)) => Err(Mistake::TwoInputs),
    }
}

/// The entries of an option that may stand more than once.
fn entries_of<'a>(
    alloc: Global,
    words: &ParsedWords<'a>,
    id: &str,
    wanted: Wanted,
) -> Result<Vec<SpelledEntry<'a>>, Mistake<'a>>
    ensures some { IfOk result (λ es. AreEntries (all_in (parsed_of words.now) id.now) es.items) }
    ensures none { IfErr result (λ m. m ≢ Mistake.NoMemory → (es : List ASpelledEntry) →
        AreEntries (all_in (parsed_of words.now) id.now) es → ⊥) }
{
    let texts = words.all(alloc, id)?;
    entries(alloc, wanted, &texts)
}

/// True if the object is that of a file and of no words.
fn loads_alone(alloc: Global, words: &ParsedWords<'_>) -> Result<bool, AllocError>
    ensures { IfOk result (λ alone. alone ≡ loads_alone (parsed_of words.now)) }
{
    if words.one("load").is_none() {
        return Ok(true);
    }
    let xattrs = words.all(alloc, "xattr")?;
    let keys = words.all(alloc, "key")?;
    Ok(words.one("object").is_none() && xattrs.is_empty() && keys.is_empty())
}

/// Refuses words by which the object is that of a file and of words too.
fn check_object<'a>(alloc: Global, words: &ParsedWords<'a>) -> Result<(), Mistake<'a>>
    ensures ok { IfOk result (λ _. loads_alone (parsed_of words.now) ≡ true) }
    ensures err { IfErr result (λ m. m ≢ Mistake.NoMemory → loads_alone (parsed_of words.now) ≡ false) }
{
    if loads_alone(alloc, words)? {
        Ok(())
    } else {
        Err(Mistake::ObjectTwice)
    }
}

/// Refuses words by which the object is saved over its class, whose file is `image`.
fn check_saved<'a>(words: &ParsedWords<'a>, image: &str) -> Result<(), Mistake<'a>>
    requires { one_in (parsed_of words.now) (codes "IN") ≡ Some image.now }
    ensures ok { IfOk result (λ _. saves_apart (parsed_of words.now) ≡ true) }
    ensures err { IfErr result (λ _. saves_apart (parsed_of words.now) ≡ false) }
{
    let Some(saved) = words.one("save") else {
        return Ok(());
    };
    if saved == image {
        return Err(Mistake::Value(Wanted::SavedApart, saved));
    }
    Ok(())
}

/// True if the limits that a text names are an OSD's.
fn limits_named(text: &str) -> Option<bool>
    ensures { result ≡ limits_named text.now }
{
    if text == "profile" {
        return Some(false);
    }
    if text == "ceph" {
        return Some(true);
    }
    None
}

/// True if the limits that `--limits` names are an OSD's. Such a call has no trace.
fn is_large<'a>(words: &ParsedWords<'a>) -> Result<bool, Mistake<'a>>
    ensures some { IfOk result (λ large. takes_limits (parsed_of words.now) ≡ Some large) }
    ensures none { IfErr result (λ _. takes_limits (parsed_of words.now) ≡ None) }
{
    let text = wanted(words, "limits")?;
    let Some(is_large) = limits_named(text) else {
        return Err(Mistake::Value(Wanted::Limits, text));
    };
    if is_large && words.is_set("trace") {
        return Err(Mistake::LargeTraced);
    }
    Ok(is_large)
}

/// The call that `run` asks for.
pub(crate) fn call_of<'a>(
    alloc: Global,
    words: &ParsedWords<'a>,
) -> Result<GivenCall<'a>, Mistake<'a>>
    ensures some { IfOk result (TakesCall (parsed_of words.now)) }
    ensures none { IfErr result (λ m. m ≢ Mistake.NoMemory → (call : AGivenCall) →
        TakesCall (parsed_of words.now) call → ⊥) }
{
    let plain = match plain_call(words) {
        Ok(plain) => plain,
        Err(mistake) => return Err(mistake),
    };
    check_object(alloc, words)?;
    check_saved(words, plain.image)?;
    let is_large = is_large(words)?;
    let input = input_of(alloc, words)?;
    let xattrs = entries_of(alloc, words, "xattr", Wanted::Xattr)?;
    let keys = entries_of(alloc, words, "key", Wanted::Key)?;
    Ok(GivenCall {
        image: plain.image,
        method: plain.method,
        input,
        caller: plain.caller,
        data: words.one("object"),
        xattrs,
        keys,
        load: words.one("load"),
        save: words.one("save"),
        is_shown: words.is_set("show"),
        is_traced: words.is_set("trace"),
        is_large,
    })
}

/// The rule set that a text names.
fn rules_named(text: &str) -> Option<RuleSet>
    ensures { result ≡ rules_named text.now }
{
    if text == "1" {
        return Some(RuleSet::One);
    }
    if text == "2" {
        return Some(RuleSet::Two);
    }
    if text == "3" {
        return Some(RuleSet::Three);
    }
    None
}

/// The rule set that `--rules` names.
fn rules_of<'a>(words: &ParsedWords<'a>) -> Result<RuleSet, Mistake<'a>>
    ensures some { IfOk result (λ rules. option_and_then rules_named (one_in (parsed_of words.now) (codes "rules")) ≡
        Some rules) }
    ensures none { IfErr result (λ _. option_and_then rules_named (one_in (parsed_of words.now) (codes "rules")) ≡
        None) }
{
    let text = wanted(words, "rules")?;
    match rules_named(text) {
        Some(rules) => Ok(rules),
        None => Err(Mistake::Value(Wanted::Rules, text)),
    }
}

/// The image that `pack` asks for.
pub(crate) fn packing_of<'a>(
    alloc: Global,
    words: &ParsedWords<'a>,
) -> Result<Packing<'a>, Mistake<'a>>
    ensures some { IfOk result (TakesPacking (parsed_of words.now)) }
    ensures none { IfErr result (λ m. m ≢ Mistake.NoMemory → (asked : APacking) →
        TakesPacking (parsed_of words.now) asked → ⊥) }
{
    let image = wanted(words, "OUT")?;
    let rules = rules_of(words)?;
    let texts = words.all(alloc, "METHOD")?;
    let methods = raw_methods(alloc, &texts)?;
    Ok(Packing {
        image,
        rules,
        methods,
    })
}

/// The budget that a text spells.
fn spelled_budget<'a>(text: &'a str) -> Result<u32, Mistake<'a>>
    ensures some { IfOk result (λ budget. budget_in text.now ≡ Some budget) }
    ensures none { IfErr result (λ _. budget_in text.now ≡ None) }
{
    match budget_in(text) {
        Some(budget) => Ok(budget),
        None => Err(Mistake::Value(Wanted::Budget, text)),
    }
}

/// The budget of `--budget`.
fn budget_of<'a>(words: &ParsedWords<'a>) -> Result<u32, Mistake<'a>>
    ensures some { IfOk result (λ budget. option_and_then budget_in (one_in (parsed_of words.now) (codes "budget")) ≡
        Some budget) }
    ensures none { IfErr result (λ _. option_and_then budget_in (one_in (parsed_of words.now) (codes "budget")) ≡
        None) }
{
    let text = wanted(words, "budget")?;
    spelled_budget(text)
}

/// Refuses words that find heads and ask for more than that tells, or that have a budget and find
/// none.
fn check_heads<'a>(words: &ParsedWords<'a>) -> Result<(), Mistake<'a>>
    ensures ok { IfOk result (λ _. heads_are_alone (parsed_of words.now) ≡ true) }
    ensures err { IfErr result (λ _. heads_are_alone (parsed_of words.now) ≡ false) }
{
    if words.is_set("heads") {
        if words.is_set("all") || words.is_set("explain") {
            return Err(Mistake::HeadsOfMore);
        }
        return Ok(());
    }
    if words.one("budget").is_some() {
        return Err(Mistake::BudgetOfNone);
    }
    Ok(())
}

/// The budget of `--budget`, or the usual one.
fn given_budget<'a>(words: &ParsedWords<'a>) -> Result<u32, Mistake<'a>>
    ensures some { IfOk result (λ budget. given_budget (one_in (parsed_of words.now) (codes "budget")) ≡ Some budget) }
    ensures none { IfErr result (λ _. given_budget (one_in (parsed_of words.now) (codes "budget")) ≡ None) }
{
    match words.one("budget") {
        Some(text) => spelled_budget(text),
        None => Ok(USUAL_BUDGET),
    }
}

/// The budget of the heads that `--heads` finds, if it is there.
pub(crate) fn heads_budget<'a>(words: &ParsedWords<'a>) -> Result<Option<u32>, Mistake<'a>>
    ensures some { IfOk result (λ found. IfSome found (FindsHeads (parsed_of words.now))) }
    ensures none { IfOk result (λ found. IfNone found (FindsNone (parsed_of words.now))) }
    ensures unfound { IfErr result (λ _. (budget : ℕ) → FindsHeads (parsed_of words.now) budget → ⊥) }
    ensures not_none { IfErr result (λ _. FindsNone (parsed_of words.now) → ⊥) }
{
    check_heads(words)?;
    if !words.is_set("heads") {
        return Ok(None);
    }
    Ok(Some(given_budget(words)?))
}

/// The image with heads that `heads` asks for.
pub(crate) fn heads_of<'a>(words: &ParsedWords<'a>) -> Result<HeadsAsked<'a>, Mistake<'a>>
    ensures some { IfOk result (TakesHeads (parsed_of words.now)) }
    ensures none { IfErr result (λ _. (asked : AHeadsAsked) → TakesHeads (parsed_of words.now) asked → ⊥) }
{
    Ok(HeadsAsked {
        class: wanted(words, "IN")?,
        image: wanted(words, "OUT")?,
        budget: budget_of(words)?,
    })
}

/// The tenants' classes of `--class`.
fn tenants_of<'a>(
    alloc: Global,
    words: &ParsedWords<'a>,
) -> Result<Vec<TenantClass<'a>>, Mistake<'a>>
    ensures none { IfErr result (λ m. m ≢ Mistake.NoMemory →
        are_tenants (all_in (parsed_of words.now) (codes "class")) ≡ false) }
    ensures some { IfOk result (λ tenants. SpellsTenants (all_in (parsed_of words.now) (codes "class")) tenants.items) }
    ensures room { IfOk result (λ tenants. length tenants.items ≤ TENANT_LIMIT) }
{
    let texts = words.all(alloc, "class")?;
    tenants_in(alloc, &texts)
}

/// Refuses words that ask for a drawing, and for objects, which it doesn't show.
fn check_drawn<'a>(words: &ParsedWords<'a>) -> Result<(), Mistake<'a>>
    ensures ok { IfOk result (λ _. objects_are_undrawn (parsed_of words.now) ≡ true) }
    ensures err { IfErr result (λ _. objects_are_undrawn (parsed_of words.now) ≡ false) }
{
    if words.is_set("objects") && words.is_set("trace") {
        Err(Mistake::ObjectsDrawn)
    } else {
        Ok(())
    }
}

/// The run that `sim` asks for.
pub(crate) fn simulation_of<'a>(
    alloc: Global,
    words: &ParsedWords<'a>,
) -> Result<Simulation<'a>, Mistake<'a>>
    ensures some { IfOk result (TakesSim (parsed_of words.now)) }
    ensures none { IfErr result (λ m. m ≢ Mistake.NoMemory → (asked : ASimulation) →
        TakesSim (parsed_of words.now) asked → ⊥) }
{
    check_drawn(words)?;
    let file = wanted(words, "FILE")?;
    let tenants = tenants_of(alloc, words)?;
    Ok(Simulation {
        file,
        tenants,
        is_drawn: words.is_set("trace"),
        has_objects: words.is_set("objects"),
        is_explained: words.is_set("explain"),
    })
}

/// The run that `cluster` asks for.
pub(crate) fn clustering_of<'a>(
    alloc: Global,
    words: &ParsedWords<'a>,
) -> Result<Clustering<'a>, Mistake<'a>>
    ensures some { IfOk result (TakesCluster (parsed_of words.now)) }
    ensures none { IfErr result (λ m. m ≢ Mistake.NoMemory → (asked : AClustering) →
        TakesCluster (parsed_of words.now) asked → ⊥) }
{
    let file = wanted(words, "FILE")?;
    let tenants = tenants_of(alloc, words)?;
    Ok(Clustering {
        file,
        tenants,
        is_shown: words.is_set("show"),
        is_explained: words.is_set("explain"),
    })
}

//! Methods with loops of rows, and calls of them on parts of objects.

ghost use Rattle.std.specs.Prelude.{◌≡◌, [], Some, IfSome};

use bpf_asm::assemble;
use bpf_decode::{ClassImage, Method, RuleSet};
use loop_calls::{BudgetedMethod, LoopRoom, PartAnswer, StagedPart};
use loop_heads::{Head, HeadPlace, Loops, LoopsError, PlaceKind};
use loop_verdict::{LoopMethod, verify_by_heads};
use object_store::{Limits, NameLimits};
use part_bytes::read_part;
use std::alloc::{AllocError, Global};
use verifier::Refusal;

/// Places with what is declared of them.
pub type Places = &'static [(u8, PlaceKind)];

/// Heads by their slots.
pub type Heads = &'static [(u16, Places)];

/// Limits like those of the flat machine but for the counts of names, which no run here comes to.
pub const LIMITS: Limits = Limits {
    bytes: 65_536,
    xattrs: NameLimits {
        count: None,
        length: 64,
    },
    keys: NameLimits {
        count: None,
        length: 64,
    },
};

/// A class of rule set 3 with one method of in_cap and out_cap 16, of lines with a semicolon
/// between two.
pub fn image(alloc: Global, flags: u8, lines: &str) -> Option<ClassImage> {
    let text = String::from_str(alloc, lines).ok()?;
    let text = text.replace(alloc, ';', "\n").ok()?;
    let code = assemble(alloc, &text).ok()?;
    let name = String::from_str(alloc, "f").ok()?;
    let mut methods = Vec::new(alloc);
    methods.push(Method::new(name, flags, 16, 16, code)).ok()?;
    ClassImage::new(methods, RuleSet::Three).ok()
}

fn head(alloc: Global, slot: u16, declared: &[(u8, PlaceKind)]) -> Result<Head, AllocError> {
    let mut places = Vec::new(alloc);
    for (number, kind) in declared {
        places.push(HeadPlace {
            number: *number,
            kind: *kind,
        })?;
    }
    Ok(Head::new(slot, places))
}

/// Loops of a budget and heads; none if memory was refused.
pub fn loops(
    alloc: Global,
    budget: u32,
    declared: &[(u16, Places)],
) -> Option<Result<Loops, LoopsError>> {
    let mut heads = Vec::new(alloc);
    for (slot, places) in declared {
        heads.push(head(alloc, *slot, *places).ok()?).ok()?;
    }
    Some(Loops::new(budget, heads))
}

/// The verdict on the method of a class by its heads; none if there are no such loops.
pub fn verdict(
    alloc: Global,
    image: &ClassImage,
    budget: u32,
    heads: &[(u16, Places)],
) -> Option<Result<LoopMethod, Refusal>> {
    let loops = loops(alloc, budget, heads)?.ok()?;
    let method = image.methods().first()?;
    Some(verify_by_heads(alloc, 0, method, &loops))
}

/// What a part says of its object, as the bytes spell it.
fn staged(alloc: Global, part: &[u8]) -> Option<StagedPart>
    ensures { IfSome result (λ k. k.list ≡ Some []) }
{
    let part = read_part(alloc, part).ok()?;
    match StagedPart::of(alloc, part.as_ref()) {
        Ok(known) => Some(known),
        Err(_) => None,
    }
}

/// The answer of a call on a part; none if there is none.
pub fn call(
    alloc: Global,
    method: &LoopMethod,
    part: &[u8],
    caller: u32,
    input: &[u8],
) -> Option<PartAnswer> {
    if input.len() > usize::from(method.caps().in_cap) {
        return None;
    }
    let known = staged(alloc, part)?;
    // For the proof: there is an object that it may be.
    known.some_object();
    let budgeted = BudgetedMethod {
        caps: method.caps(),
        budget: method.budget(),
        ops: method.ops(),
    };
    let mut room = LoopRoom::new(alloc);
    room.call_by_budget(&budgeted, LIMITS, known, caller, input)
        .ok()
}

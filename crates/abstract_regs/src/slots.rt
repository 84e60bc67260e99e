//! The kinds of the stack's slots, as a list: joined, overwritten in part, and looked at.

ghost use Rattle.std.specs.Prelude.{◌≡◌, ◌≤◌, Some, IfOk, length, replicate};
ghost use Rattle.abstract_regs.specs.Frame.{join_each};
ghost use Rattle.abstract_regs.specs.Moves.{EachFits};
ghost use Rattle.abstract_regs.specs.Kind as plain;
ghost use Rattle.abstract_regs.specs.Kind.{join_kind};
ghost use Rattle.abstract_num.specs.Plain.{constant};
ghost use Rattle.abstract_regs.specs.Seen.{seen, seen_each};
ghost use Rattle.abstract_regs.specs.Slots.{overwritten, spoiled, meets};

use crate::content::Content;
use crate::kind::Kind;
use crate::stack_span::StackSpan;
use abstract_num::{any, constant, join_laws, keeping_laws};
use std::alloc::{AllocError, Global};

/// `count` slots with the number 0.
pub(crate) fn zeros(alloc: Global, count: usize) -> Result<Vec<Kind>, AllocError>
    ensures { IfOk result (λ v. seen_each v.items ≡ replicate count (plain.Num (constant 0))) }
{
    let mut slots = Vec::with_capacity(alloc, count)?;
    for _ in 0..count {
        slots.push(Kind::Num(constant(0)))?;
    }
    Ok(slots)
}

/// The numbers of kinds are below `2^64`.
pub(crate) fn fit_all(kinds: &[Kind])
    ensures { EachFits (seen_each kinds.now) }
{
    // For the proof: every number of the code fits.
    keeping_laws();
}

/// Joins a kind in place. Most of two flows' kinds are equal: those are compared alone.
#[inline(always)]
fn join_one(kind: &mut Kind, other: &Kind)
    ensures { seen kind.new ≡ join_kind (seen kind.old) (seen other.now) }
{
    // For the proof: the join of a number with itself is that number.
    join_laws();
    if kind.is_same(other) {
        return;
    }
    *kind = kind.join(*other);
}

/// Joins kinds in place.
pub(crate) fn join_all(kinds: &mut [Kind], others: &[Kind])
    requires { length kinds.old ≤ length others.now }
    ensures { seen_each kinds.new ≡ join_each (seen_each kinds.old) (seen_each others.now) }
{
    for i in 0..kinds.len() {
        join_one(&mut kinds[i], &others[i]);
    }
}

/// Joins slots in place.
pub(crate) fn join_slots(slots: &mut Vec<Kind>, others: &[Kind])
    ensures { seen_each slots.new.items ≡ join_each (seen_each slots.old.items) (seen_each others.now) }
{
    // For the proof: frames of a pass have equally many slots, which the contract doesn't ask.
    slots.truncate(others.len());
    join_all(slots, others);
}

/// The kind of a slot that was overwritten in part: any number if it was one, else unset.
#[inline(always)]
fn overwritten(kind: Kind) -> Kind
    ensures { seen result ≡ overwritten (seen kind) }
{
    match kind {
        Kind::Num(_) => Kind::Num(any()),
        Kind::Unset | Kind::Ptr(_, _) => Kind::Unset,
    }
}

/// Overwrites in part each slot that may have one of the bytes.
pub(crate) fn spoil(slots: &mut [Kind], span: Option<StackSpan>)
    ensures { seen_each slots.new ≡ spoiled span 0 (seen_each slots.old) }
{
    match span {
        None => {}
        Some(span) => spoil_span(slots, span),
    }
}

fn spoil_span(slots: &mut [Kind], span: StackSpan)
    ensures { seen_each slots.new ≡ spoiled (Some span) 0 (seen_each slots.old) }
{
    for j in span.first()..span.end(slots.len()) {
        slots[j] = overwritten(slots[j]);
    }
}

/// True if a slot that may have one of the bytes has that content.
#[inline(always)]
pub(crate) fn meets(content: Content, slots: &[Kind], span: Option<StackSpan>) -> bool
    ensures { result ≡ meets content span 0 (seen_each slots.now) }
{
    match span {
        None => false,
        Some(span) => meets_span(content, slots, span),
    }
}

fn meets_span(content: Content, slots: &[Kind], span: StackSpan) -> bool
    ensures { result ≡ meets content (Some span) 0 (seen_each slots.now) }
{
    for j in span.first()..span.end(slots.len()) {
        if content.is_in(slots[j]) {
            return true;
        }
    }
    false
}

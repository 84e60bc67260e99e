ghost use Rattle.std.specs.Prelude.{◌≡◌, ◌↔◌, Some, None, IfOk, MatchResult};
ghost use Rattle.std.specs.Option.{option_copied};
ghost use Rattle.std.specs.Result.{IsOk};
ghost use Rattle.loop_heads.specs.Loops.{IsLoops, loops_refusal, heads_refusal, head_at};

use crate::head::Head;
use crate::limits::{BUDGET_LIMIT, HEAD_LIMIT};
use crate::loops_error::LoopsError;
use crate::place::HeadPlace;
use std::alloc::{AllocError, Global};
use std::marker::Model;

/// What a method declares of its loops: a budget, and its heads. Contracts see `PlainLoops`.
pub struct Loops {
    budget: u32,
    heads: Vec<Head>,
}

impl Drop for Loops {
    fn drop(self) {
        let Loops { budget: _, heads } = self;
        drop(heads);
    }
}

impl Model for Loops {
    ghost use Rattle.loop_heads.specs.Loops.{PlainLoops, IsLoops};

    ghost Value = { PlainLoops };

    ghost view = { λ l. record { budget = l.budget; heads = l.heads.items } };

    ghost invariant = { λ l. IsLoops (record { budget = l.budget; heads = l.heads.items }) };
}

impl Loops {
    /// Loops of a budget and heads. Refused are, in this order: a number of heads or a budget out of its
    /// range, and the first head whose places aren't right or whose slot isn't above the one before it.
    pub fn new(budget: u32, heads: Vec<Head>) -> Result<Loops, LoopsError>
        ensures value { IfOk result (λ l. l ≡ record { budget = budget; heads = heads.items }) }
        ensures refused { MatchResult result
            (λ _. loops_refusal budget heads.items ≡ None)
            (λ e. loops_refusal budget heads.items ≡ Some e) }
        ensures right { IsOk result ↔ IsLoops (record { budget = budget; heads = heads.items }) }
    {
        match refusal(budget, &heads) {
            Some(error) => Err(error),
            None => Ok(Loops { budget, heads }),
        }
    }

    /// The same loops. It is refused for want of memory alone.
    pub fn copy(&self, alloc: Global) -> Result<Loops, AllocError>
        ensures { IfOk result (λ l. l ≡ self.now) }
    {
        let heads = copy_heads(alloc, &self.heads)?;
        Ok(Loops {
            budget: self.budget,
            heads,
        })
    }

    /// What its instructions may take: 1 to `BUDGET_LIMIT`.
    pub fn budget(&self) -> u32
        ensures { result ≡ self.now.budget }
    {
        self.budget
    }

    /// Its heads, 1 to `HEAD_LIMIT`, by rising slots.
    pub fn heads(&self) -> &[Head]
        ensures heads { result.now ≡ self.now.heads }
        ensures loops { IsLoops self.now }
    {
        &self.heads
    }

    /// The places that are declared at a slot, if it is a head.
    pub fn at(&self, slot: usize) -> Option<&[HeadPlace]>
        ensures { option_copied result ≡ head_at self.now.heads slot }
    {
        for head in &self.heads {
            if head.slot() as usize == slot {
                return Some(head.places());
            }
        }
        None
    }
}

/// The same heads.
fn copy_heads(alloc: Global, heads: &[Head]) -> Result<Vec<Head>, AllocError>
    ensures { IfOk result (λ v. v.items ≡ heads.now) }
{
    let mut copies = Vec::new(alloc);
    for head in heads {
        copies.push(head.copy(alloc)?)?;
    }
    Ok(copies)
}

/// Why a budget and heads are refused.
fn refusal(budget: u32, heads: &[Head]) -> Option<LoopsError>
    ensures refused { result ≡ loops_refusal budget heads.now }
    ensures loops { (result ≡ None) ↔ IsLoops (record { budget = budget; heads = heads.now }) }
{
    if heads.is_empty() || heads.len() > HEAD_LIMIT || budget < 1 || budget > BUDGET_LIMIT {
        return Some(LoopsError::Limit);
    }
    heads_refusal(heads)
}

/// The first head in order that is none, or whose slot isn't above the one before.
fn heads_refusal(heads: &[Head]) -> Option<LoopsError>
    ensures { result ≡ heads_refusal 0 heads.now }
{
    let mut least: u32 = 0;
    for head in heads {
        if (head.slot() as u32) < least || !head.is_head() {
            return Some(LoopsError::Head(head.slot()));
        }
        least = head.slot() as u32 + 1;
    }
    None
}

//! Reading loops from bytes.

ghost use Rattle.std.specs.Prelude.{◌≡◌, ◌≤◌, ◌++◌, ℕ, List, Option, Ok, IfOk, length, drop};
ghost use Rattle.loop_heads.specs.declared.limits.TheConstants.{HEAD_LIMIT};
ghost use Rattle.loop_heads.specs.Loops.{PlainLoops};
ghost use Rattle.loop_bytes.specs.HeadBytes.{loops_bytes, AreLoopsOf, BeginsWith};
ghost use Rattle.loop_bytes.specs.Reading.{Gives, places_from, head_from, heads_from, some_from, loops_from};

use crate::fields::{budget_from, count_from, place_from, slot_from, u8_from};
use crate::heads_error::HeadsError;
use loop_heads::{HEAD_LIMIT, Head, HeadPlace, Loops, PLACE_LIMIT};
use std::alloc::Global;

/// No loops have more bytes, and no more are looked at, whatever they are: a place has up to 18, and
/// once the numbers of places are used up the next one is refused by its first two.
pub const LOOPS_LIMIT: usize = 6 + HEAD_LIMIT * (3 + 18 * (PLACE_LIMIT as usize + 1) + 2);

/// Loops that were read, or `None` where a method has none, and how many bytes they took.
pub struct ReadLoops {
    pub loops: Option<Loops>,
    pub length: usize,
}

impl Drop for ReadLoops {
    fn drop(self) {
        let ReadLoops { loops, length: _ } = self;
        drop(loops);
    }
}

impl ReadLoops {
    ghost use Rattle.std.specs.Prelude.{◌≡◌};

    /// The loops alone.
    pub fn into_loops(self) -> Option<Loops>
        ensures { result ≡ self.loops }
    {
        let ReadLoops { loops, length: _ } = self;
        loops
    }
}

/// That many places of the head at that slot.
fn places_from(
    alloc: Global,
    slot: u16,
    count: u8,
    bytes: &[u8],
) -> Result<(Vec<HeadPlace>, &[u8]), HeadsError>
    ensures { Gives (λ x. (x.0.items, x.1.now)) result (places_from slot count bytes.now) }
{
    let mut places = Vec::new(alloc);
    let mut least: u8 = 0;
    let mut rest = bytes;
    for _ in 0..count {
        let (place, behind) = place_from(slot, least, rest)?;
        places.push(place)?;
        least = place.number + 1;
        rest = behind;
    }
    Ok((places, rest))
}

/// A head, whose slot is at least `least`.
#[tactic(auto, unfolding(crate::specs::Reading::head_from))]
fn head_from<'a>(
    alloc: Global,
    starts: &[bool],
    least: u32,
    bytes: &'a [u8],
) -> Result<(Head, &'a [u8]), HeadsError>
    ensures { Gives (λ x. (x.0, x.1.now)) result (head_from starts.now least bytes.now) }
{
    let (slot, rest) = slot_from(starts, least, bytes)?;
    let (count, rest) = u8_from(rest)?;
    let (places, rest) = places_from(alloc, slot, count, rest)?;
    Ok((Head::new(slot, places), rest))
}

/// That many heads.
fn heads_from<'a>(
    alloc: Global,
    starts: &[bool],
    count: u16,
    bytes: &'a [u8],
) -> Result<(Vec<Head>, &'a [u8]), HeadsError>
    ensures { Gives (λ x. (x.0.items, x.1.now)) result (heads_from starts.now count bytes.now) }
{
    let mut heads = Vec::new(alloc);
    let mut least: u32 = 0;
    let mut rest = bytes;
    for _ in 0..count {
        let (head, behind) = head_from(alloc, starts, least, rest)?;
        least = head.slot() as u32 + 1;
        heads.push(head)?;
        rest = behind;
    }
    Ok((heads, rest))
}

/// Loops of that many heads.
#[tactic(auto, unfolding(crate::specs::Reading::some_from))]
fn some_from<'a>(
    alloc: Global,
    starts: &[bool],
    count: u16,
    bytes: &'a [u8],
) -> Result<(Option<Loops>, &'a [u8]), HeadsError>
    requires some { 1 ≤ count }
    requires few { count ≤ HEAD_LIMIT }
    ensures { Gives (λ x. (x.0, x.1.now)) result (some_from starts.now count bytes.now) }
{
    let (budget, rest) = budget_from(bytes)?;
    let (heads, rest) = heads_from(alloc, starts, count, rest)?;
    match Loops::new(budget, heads) {
        Ok(loops) => Ok((Some(loops), rest)),
        // Each field was tested as it was read.
        Err(_) => unreachable!(),
    }
}

/// Loops, or that there are none.
#[tactic(auto, unfolding(crate::specs::Reading::loops_from))]
fn loops_from<'a>(
    alloc: Global,
    starts: &[bool],
    bytes: &'a [u8],
) -> Result<(Option<Loops>, &'a [u8]), HeadsError>
    ensures { Gives (λ x. (x.0, x.1.now)) result (loops_from starts.now bytes.now) }
{
    let (count, rest) = count_from(bytes)?;
    if count == 0 {
        return Ok((None, rest));
    }
    some_from(alloc, starts, count, rest)
}

fn read(alloc: Global, bytes: &[u8], starts: &[bool]) -> Result<ReadLoops, HeadsError>
    ensures exact { Gives (λ r. (r.loops, drop r.length bytes.now)) result (loops_from starts.now bytes.now) }
    ensures found { IfOk result (λ r. BeginsWith starts.now bytes.now r.loops r.length) }
    ensures within { IfOk result (λ r. r.length ≤ length bytes.now) }
{
    let (loops, rest) = loops_from(alloc, starts, bytes)?;
    let length = bytes.len() - rest.len();
    Ok(ReadLoops { loops, length })
}

/// The loops with whose spelling the bytes begin, of a method whose instructions begin at the slots `p`
/// with `starts[p]`. What follows them isn't looked at.
///
/// Refusals, the first in reading order: see `HeadsError`. `Limit` comes as soon as the number of heads
/// or the budget was read; `Head` as soon as the head's slot, a place's number and its kind's, or its
/// second bound was. `NoMemory` may come in place of any answer.
pub fn read_loops(alloc: Global, bytes: &[u8], starts: &[bool]) -> Result<ReadLoops, HeadsError>
    // Which refusal it is.
    ensures exact { Gives (λ r. (r.loops, drop r.length bytes.now)) result (loops_from starts.now bytes.now) }
    // What is read is spelled so.
    ensures found { IfOk result (λ r. BeginsWith starts.now bytes.now r.loops r.length) }
    ensures within { IfOk result (λ r. r.length ≤ length bytes.now) }
    // What is spelled so is read, unless memory runs out.
    ensures only { (loops : Option PlainLoops) (rest : List ℕ) → AreLoopsOf starts.now loops →
        bytes.now ≡ loops_bytes loops ++ rest →
        Gives {Y = Option PlainLoops × ℕ} (λ r. (r.loops, r.length)) result (Ok (loops, length (loops_bytes loops))) }
{
    read(alloc, bytes, starts)
}

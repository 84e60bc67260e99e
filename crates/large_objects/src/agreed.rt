//! Whether an object agrees with a part that is to be handed in.

ghost use Rattle.std.specs.Prelude.{◌≡◌, ◌∷◌, ◌≤◌, IfOk, IfSome, IsTrue, Some, drop, length, map};
ghost use Rattle.std.specs.FinMap as fin;
ghost use Rattle.part_bytes.specs.Part.{AreIntervals, IsPart, PlainPart, Spells};
ghost use Rattle.part_bytes.specs.View.{block_view, content_view, entry_view, interval_view, names_view, part_view};
ghost use Rattle.part_bytes.specs.inner.Reading.{is_begun};
ghost use Rattle.parts.specs.Agreed.{AgreeNames, AgreesContent, AgreesPart, HasBlocks};
ghost use Rattle.large_objects.specs.inner.Walk.{IsAfter, walked};

use crate::large_object::{LargeNames, LargeObject};
use object_store::part;
use part_bytes::{
    BLOCK, Block, Interval, NamedValue, Names, ObjectPart, PartError, is_begun, past, read_part,
};
use std::alloc::{AllocError, Global};

/// True if data has the bytes of these blocks.
fn has_blocks(bytes: &[u8], blocks: &[Block]) -> bool
    ensures { IsTrue result → HasBlocks (map block_view blocks.now) bytes.now }
{
    for block in blocks {
        let Some(at) = block.number.checked_mul(BLOCK) else {
            return false;
        };
        if part(bytes, at, BLOCK) != block.bytes {
            return false;
        }
    }
    true
}

/// True if the first entry is this one.
fn is_first(entries: &[NamedValue], name: &[u8], value: &[u8]) -> bool
    ensures first { IsTrue result →
        map entry_view entries.now ≡ (name.now, value.now) ∷ map entry_view (drop 1 entries.now) }
    ensures some { IsTrue result → 1 ≤ length entries.now }
{
    match entries.first() {
        Some(first) => first.name == name && first.value == value,
        None => false,
    }
}

/// How many of the entries a name and its value take: none, if no interval holds the name; else
/// one, if it is the first.
fn taken(entries: &[NamedValue], intervals: &[Interval], name: &[u8], value: &[u8]) -> Option<usize>
    ensures after { IfSome result (λ n. IsAfter (is_begun name.now (map interval_view intervals.now))
        (name.now, value.now) (map entry_view entries.now) (map entry_view (drop n entries.now))) }
    ensures within { IfSome result (λ n. n ≤ length entries.now) }
{
    if !is_begun(name, intervals) {
        return Some(0);
    }
    if is_first(entries, name, value) {
        return Some(1);
    }
    None
}

/// True if the entries are those names, with their values, that an interval holds. Names, intervals
/// and entries are in order, so each is looked at once.
fn is_walked(names: &LargeNames, intervals: &[Interval], entries: &[NamedValue]) -> bool
    ensures { IsTrue result → IsTrue
        (walked (map interval_view intervals.now) (map entry_view entries.now) (fin.entries names.now)) }
{
    let mut intervals = intervals;
    let mut count = 0;
    for n in 0..names.len() {
        let Some((name, value)) = names.nth(n) else {
            return false;
        };
        intervals = past(name, intervals);
        let Some(more) = taken(&entries[count..], intervals, name, value.bytes()) else {
            return false;
        };
        count += more;
    }
    count == entries.len()
}

/// True if names agree with what is known of them.
fn agree_names(names: &LargeNames, known: &Names) -> bool
    requires { AreIntervals (names_view known.now).intervals }
    ensures { IsTrue result → AgreeNames (names_view known.now) names.now }
{
    is_walked(names, &known.intervals, &known.entries)
}

/// True if an object agrees with a part of one that is there.
fn agrees(object: &LargeObject, known: &ObjectPart) -> bool
    requires { IsPart (part_view (Some known.now)) }
    ensures { IsTrue result → AgreesContent (content_view known.now) object.now }
{
    known.size == object.bytes().len() as u64
        && has_blocks(object.bytes(), &known.blocks)
        && agree_names(object.xattrs(), &known.xattrs)
        && agree_names(object.keys(), &known.keys)
}

/// True if bytes spell a part with which the object agrees.
pub(crate) fn is_part_of(
    alloc: Global,
    bytes: &[u8],
    object: &LargeObject,
) -> Result<bool, AllocError>
    ensures { IfOk result (λ is. IsTrue is → (p : PlainPart) → Spells bytes.now p → AgreesPart p (Some object.now)) }
{
    // For the proof: bytes spell one part.
    part_bytes::one_part();
    match read_part(alloc, bytes) {
        Ok(Some(known)) => Ok(agrees(object, &known)),
        Ok(None) | Err(PartError::NoPart) => Ok(false),
        Err(PartError::NoMemory) => Err(AllocError),
    }
}

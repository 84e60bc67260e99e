//! The beginning of a call: what a part says of an object.

ghost use Rattle.std.specs.Prelude.{◌≡◌, ◌<◌, ◌≤◌, ◌^◌, [], List, ℕ, Some, IsTrue, OnOk, IfOk, length, map};
ghost use Rattle.std.specs.Option.{option_copied};
ghost use Rattle.std.specs.List.{AllByRecursion};
ghost use Rattle.std.specs.FinMap as fin;
ghost use Rattle.object_store.specs.declared.limits.TheConstants.{XATTR_LIMIT, KEY_LIMIT};
ghost use Rattle.object_store.specs.Object.{PlainObject};
ghost use Rattle.part_bytes.specs.Part.{AreInTurn, IsBlock, after_block, AreIntervals, AreEntries, AreNames, IsPart};
ghost use Rattle.part_bytes.specs.View.{block_view, interval_view, entry_view, names_view, part_view};
ghost use Rattle.part_names.specs.Order.{is_held};
ghost use Rattle.parts.specs.Known.{Stands};
ghost use Rattle.parts.specs.Agreed.{AgreesPart, KnowsPart, HasAllNames};
ghost use Rattle.parts.specs.inner.Part.{IsDataOf, IsNamesOf, HasLearned, end_of, interval_of};

use crate::staged_part::StagedPart;
use object_store::{KEY_LIMIT, XATTR_LIMIT};
use part_bytes::{Block, Interval, NamedValue, Names, ObjectPart};
use part_data::PartData;
use part_names::PartNames;
use std::alloc::{AllocError, Global};
use txn::NoMemory;

/// Data of a size of which blocks are known.
fn data_of(alloc: Global, size: u64, blocks: &[Block]) -> Result<PartData, NoMemory>
    requires size { size < 2 ^ 63 }
    requires blocks { AreInTurn (IsBlock size) after_block 0 (map block_view blocks.now) }
    ensures { IfOk result (IsDataOf size (map block_view blocks.now)) }
{
    let mut data = PartData::of_size(alloc, size);
    for block in blocks {
        data.learn(block.number, block.bytes)?;
    }
    Ok(data)
}

/// The end of an interval of a part: an empty one is that of all strings.
fn end_of(high: &[u8]) -> Option<&[u8]>
    ensures { option_copied result ≡ end_of high.now }
{
    match high {
        [] => None,
        _ => Some(high),
    }
}

/// Learns a part's intervals, where none is known.
fn learn_intervals(
    alloc: Global,
    names: &mut PartNames,
    intervals: &[Interval],
) -> Result<(), AllocError>
    requires none { names.old.intervals ≡ [] }
    requires intervals { AreIntervals (map interval_view intervals.now) }
    ensures { OnOk result (names.new ≡
        record names.old { intervals = map interval_of (map interval_view intervals.now) }) }
{
    for interval in intervals {
        names.learn_interval(alloc, interval.low, end_of(interval.high))?;
    }
    Ok(())
}

/// Learns a part's entries, where none is known. Intervals hold their names.
fn learn_entries(
    alloc: Global,
    names: &mut PartNames,
    entries: &[NamedValue],
) -> Result<(), AllocError>
    requires none { names.old.entries ≡ fin.empty }
    requires entries { AreEntries (map entry_view entries.now) }
    requires held { AllByRecursion (λ e. IsTrue (is_held names.old.intervals e.0)) (map entry_view entries.now) }
    requires room { length entries.now ≤ names.old.most }
    ensures { OnOk result (HasLearned (map entry_view entries.now) names.old names.new) }
{
    for entry in entries {
        names.learn_entry(alloc, entry.name, entry.value)?;
    }
    Ok(())
}

/// The names and values of a part, at most that many.
fn names_of(alloc: Global, most: usize, part: &Names) -> Result<PartNames, AllocError>
    requires { AreNames most (names_view part.now) }
    ensures { IfOk result (IsNamesOf most (names_view part.now)) }
{
    let mut names = PartNames::unknown(alloc, most);
    learn_intervals(alloc, &mut names, &part.intervals)?;
    learn_entries(alloc, &mut names, &part.entries)?;
    Ok(names)
}

impl StagedPart {
    /// What a part says of its object, before any edit; no part is that of an object which is absent,
    /// of which all is known. The part's bytes are copied. A call on it keeps at most 32 xattrs and
    /// 1,024 keys.
    pub fn of(alloc: Global, part: Option<&ObjectPart>) -> Result<StagedPart, NoMemory>
        requires { IsPart (part_view (option_copied part)) }
        ensures stands { IfOk result (λ k.
            (o : PlainObject) → AgreesPart (part_view (option_copied part.entry)) o → Stands k o) }
        ensures agrees { IfOk result (λ k.
            (o : PlainObject) → Stands k o → AgreesPart (part_view (option_copied part.entry)) o) }
        ensures known { IfOk result (KnowsPart (part_view (option_copied part.entry))) }
        ensures list { IfOk result (λ k. k.list ≡ Some []) }
        ensures most { IfOk result (λ k. (k.xattrs.most ≡ XATTR_LIMIT) × (k.keys.most ≡ KEY_LIMIT)) }
        ensures whole_xattrs { IfOk result (λ k. HasAllNames (λ p. p.xattrs) (part_view (option_copied part.entry)) →
            (name : List ℕ) → IsTrue (is_held k.xattrs.intervals name)) }
        ensures whole_keys { IfOk result (λ k. HasAllNames (λ p. p.keys) (part_view (option_copied part.entry)) →
            (name : List ℕ) → IsTrue (is_held k.keys.intervals name)) }
    {
        let Some(part) = part else {
            return Ok(StagedPart {
                is_there: false,
                bytes: PartData::empty(alloc),
                xattrs: PartNames::all_known(alloc, XATTR_LIMIT),
                keys: PartNames::all_known(alloc, KEY_LIMIT),
                list: Some(Vec::new(alloc)),
            });
        };
        Ok(StagedPart {
            is_there: true,
            bytes: data_of(alloc, part.size, &part.blocks)?,
            xattrs: names_of(alloc, XATTR_LIMIT, &part.xattrs)?,
            keys: names_of(alloc, KEY_LIMIT, &part.keys)?,
            list: Some(Vec::new(alloc)),
        })
    }
}

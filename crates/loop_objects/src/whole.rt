//! A part that has all of an object.

ghost use Rattle.std.specs.Prelude.{◌≡◌, ◌≤◌, [], IfOk, Some, length, map};
ghost use Rattle.std.specs.Option.{option_copied};
ghost use Rattle.std.specs.FinMap as fin;
ghost use Rattle.shared_map.specs.Entries.{nth, entry_behind};
ghost use Rattle.object_store.specs.declared.limits.TheConstants.{DATA_LIMIT};
ghost use Rattle.part_bytes.specs.View.{block_view, content_view, names_view};
ghost use Rattle.parts.specs.Agreed.{KnowsAll};
ghost use Rattle.parts.specs.Known.{Stands};
ghost use Rattle.loop_objects.specs.inner.Whole.{AreNamesOf, IsAllOf, all_blocks, names};

use object_store::{Object, part};
use part_bytes::{BLOCK, Block, Interval, NamedValue, Names, ObjectPart};
use parts::StagedPart;
use std::alloc::{AllocError, Global};
use txn::NoMemory;

/// The names of an object: xattrs, or keys of the omap.
#[derive(Clone, Copy)]
enum Named {
    Xattrs,
    Keys,
}

/// How many there are.
fn count_of(named: Named, object: &Object) -> usize
    ensures { result ≡ fin.len (names named object.now) }
{
    match named {
        Named::Xattrs => object.xattr_count(),
        Named::Keys => object.key_count(),
    }
}

/// The one at a place in their order, from 0 on, and its value.
fn entry_of<'a>(named: Named, object: &'a Object, n: usize) -> Option<(&'a [u8], &'a [u8])>
    ensures { entry_behind result ≡ nth (names named object.now) n }
{
    match named {
        Named::Xattrs => object.xattr_at(n),
        Named::Keys => object.key_at(n),
    }
}

/// All of them, and that there are no others.
fn names_of<'a>(alloc: Global, named: Named, object: &'a Object) -> Result<Names<'a>, AllocError>
    ensures { IfOk result (λ n. AreNamesOf (names named object.now) (names_view n)) }
{
    let mut entries = Vec::new(alloc);
    for n in 0..count_of(named, object) {
        if let Some((name, value)) = entry_of(named, object, n) {
            entries.push(NamedValue { name, value })?;
        }
    }
    let mut intervals = Vec::new(alloc);
    intervals.push(Interval {
        low: &[],
        high: &[],
    })?;
    Ok(Names { intervals, entries })
}

/// An object's data in one piece.
fn bytes_of(alloc: Global, object: &Object) -> Result<Vec<u8>, AllocError>
    ensures { IfOk result (λ bytes. bytes.items ≡ object.now.bytes) }
{
    let mut bytes = vec![in alloc; 0; object.len()]?;
    object.read(0, &mut bytes);
    Ok(bytes)
}

/// All blocks of data.
fn blocks_of(alloc: Global, bytes: &[u8]) -> Result<Vec<Block>, AllocError>
    requires { length bytes.now ≤ DATA_LIMIT }
    ensures { IfOk result (λ blocks. map block_view blocks.items ≡ all_blocks bytes.now) }
{
    let mut blocks = Vec::new(alloc);
    for number in 0..bytes.len().div_ceil(BLOCK as usize) {
        let number = number as u64;
        blocks.push(Block {
            number,
            bytes: part(bytes, BLOCK * number, BLOCK),
        })?;
    }
    Ok(blocks)
}

/// All of an object that is there, which has these bytes.
fn part_of<'a>(
    alloc: Global,
    object: &'a Object,
    bytes: &'a [u8],
) -> Result<ObjectPart<'a>, AllocError>
    requires { bytes.now ≡ object.now.bytes }
    ensures { IfOk result (λ p. IsAllOf object.now (content_view p)) }
{
    // For the proof: its data is within the limit.
    object.within();
    Ok(ObjectPart {
        size: bytes.len() as u64,
        blocks: blocks_of(alloc, bytes)?,
        xattrs: names_of(alloc, Named::Xattrs, object)?,
        keys: names_of(alloc, Named::Keys, object)?,
    })
}

/// The part that has all of an object that is there.
fn whole_of(alloc: Global, object: &Object) -> Result<StagedPart, NoMemory>
    ensures stands { IfOk result (λ k. Stands k (Some object.now)) }
    ensures known { IfOk result KnowsAll }
    ensures list { IfOk result (λ k. k.list ≡ Some []) }
{
    // For the proof: it is within the limits.
    object.within();
    let bytes = bytes_of(alloc, object)?;
    let part = part_of(alloc, object, &bytes)?;
    StagedPart::of(alloc, Some(&part))
}

/// The part that has all of an object, or of one that is absent.
pub(crate) fn whole_part(alloc: Global, object: Option<&Object>) -> Result<StagedPart, NoMemory>
    ensures stands { IfOk result (λ k. Stands k (option_copied object.entry)) }
    ensures known { IfOk result KnowsAll }
    ensures list { IfOk result (λ k. k.list ≡ Some []) }
{
    match object {
        None => StagedPart::of(alloc, None),
        Some(object) => whole_of(alloc, object),
    }
}

//! A part of an object, from its spelling.

ghost use Rattle.std.specs.Prelude.{◌≡◌, Err, IfOk, IsTrue, map};
ghost use Rattle.part_bytes.specs.Part.{PlainPart, Spells};
ghost use Rattle.part_bytes.specs.View.{content_view, part_view};
ghost use Rattle.part_bytes.specs.inner.Reading.{Reads, Gives, size_at, fields_at, content_of, whole, formed, part_at};

use crate::blocks::{Block, blocks_at};
use crate::fields::number_at_8;
use crate::names::{Names, names_at};
use crate::part_error::PartError;
use object_store::{KEY_LIMIT, XATTR_LIMIT};
use std::alloc::Global;

/// What is known of an object that is there: its size, some blocks of its data, and of its xattrs and keys those in
/// some intervals.
#[derive(Drop)]
pub struct ObjectPart<'a> {
    pub size: u64,
    pub blocks: Vec<Block<'a>>,
    pub xattrs: Names<'a>,
    pub keys: Names<'a>,
}

fn size_at(bytes: &[u8]) -> Option<(u64, &[u8])>
    ensures { Reads (λ x. (x.0, x.1.now)) result (size_at bytes.now) }
{
    let (size, rest) = number_at_8(bytes)?;
    if size >= 1 << 63 {
        return None;
    }
    Some((size, rest))
}

/// What is known of an object that is there: all of the bytes.
fn content_at(alloc: Global, bytes: &[u8]) -> Result<ObjectPart, PartError>
    ensures { Gives content_view result (whole (formed fields_at content_of) bytes.now) }
{
    let (size, rest) = size_at(bytes).ok_or(PartError::NoPart)?;
    let (blocks, rest) = blocks_at(alloc, size, rest)?;
    let (xattrs, rest) = names_at(alloc, XATTR_LIMIT as u16, rest)?;
    let (keys, rest) = names_at(alloc, KEY_LIMIT as u16, rest)?;
    if !rest.is_empty() {
        return Err(PartError::NoPart);
    }
    Ok(ObjectPart {
        size,
        blocks,
        xattrs,
        keys,
    })
}

#[tactic(auto, unfolding(crate::specs::inner::Reading::part_at))]
fn part_at(alloc: Global, bytes: &[u8]) -> Result<Option<ObjectPart>, PartError>
    ensures { Gives part_view result (part_at bytes.now) }
{
    match bytes {
        [0] => Ok(None),
        [1, rest @ ..] => Ok(Some(content_at(alloc, rest)?)),
        _ => Err(PartError::NoPart),
    }
}

/// The part that the bytes spell; `None` is the part that says that the object is absent. The blocks, names and
/// values of the part are slices of the bytes. It takes time in proportion to the bytes.
///
/// Refused: `NoPart` if no part has that spelling. `NoMemory` may come in place of any answer.
pub fn read_part(alloc: Global, bytes: &[u8]) -> Result<Option<ObjectPart>, PartError>
    ensures found { IfOk result (λ p. Spells bytes.now (part_view p)) }
    ensures refused { result ≡ Err PartError.NoPart → (p : PlainPart) → Spells bytes.now p → ⊥ }
{
    part_at(alloc, bytes)
}

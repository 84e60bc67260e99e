//! The blocks of a part.

ghost use Rattle.std.specs.Prelude.{◌≡◌, ◌*◌, ◌<◌, IsTrue, map, IfSome};
ghost use Rattle.part_bytes.specs.Part.{after_block, block_length};
ghost use Rattle.part_bytes.specs.View.{block_view};
ghost use Rattle.part_bytes.specs.inner.Reading.{Reads, Gives, is_number, block_at, blocks_at, in_turn};

use crate::fields::{bytes_at, count_at_4, number_at_8};
use crate::limits::{BLOCK, BLOCK_LIMIT};
use crate::part_error::PartError;
use std::alloc::Global;

/// A block of an object's data: the bytes from `BLOCK * number` on, `BLOCK` of them or up to the object's end.
#[derive(Clone, Copy)]
pub struct Block<'a> {
    pub number: u64,
    pub bytes: &'a [u8],
}

/// True if a block of an object of that size may have the number, which is at least `least`.
fn is_number(size: u64, least: u64, number: u64) -> bool
    ensures { result ≡ is_number size least number }
{
    // A product that doesn't fit is greater than every size.
    least <= number && number.checked_mul(BLOCK).is_some_and(|start| start < size)
}

/// The bytes that a block of an object of that size has.
fn block_length(size: u64, number: u64) -> usize
    requires { BLOCK * number < size }
    ensures { result ≡ block_length size number }
{
    (size - BLOCK * number).min(BLOCK) as usize
}

#[tactic(auto, unfolding(crate::specs::inner::Reading::block_at))]
fn block_at(size: u64, least: u64, bytes: &[u8]) -> Option<(Block, &[u8])>
    ensures read { Reads (λ x. (block_view x.0, x.1.now)) result (block_at size least bytes.now) }
    ensures begins { IfSome result (λ x. BLOCK * x.0.number < size) }
{
    let (number, rest) = number_at_8(bytes)?;
    if !is_number(size, least, number) {
        return None;
    }
    let (bytes, rest) = bytes_at(block_length(size, number), rest)?;
    Some((Block { number, bytes }, rest))
}

/// `count` blocks, whose numbers rise.
fn blocks_in_turn<'a>(
    alloc: Global,
    size: u64,
    count: u32,
    bytes: &'a [u8],
) -> Result<(Vec<Block<'a>>, &'a [u8]), PartError>
    ensures { Gives (λ x. (map block_view x.0.items, x.1.now)) result
        (in_turn (block_at size) after_block 0 count bytes.now) }
{
    let mut blocks = Vec::new(alloc);
    let mut least = 0;
    let mut rest = bytes;
    let mut left = count;
    while left > 0 {
        let Some((block, behind)) = block_at(size, least, rest) else {
            return Err(PartError::NoPart);
        };
        blocks.push(block)?;
        least = block.number + 1;
        rest = behind;
        left -= 1;
    }
    Ok((blocks, rest))
}

/// Blocks after their count.
pub(crate) fn blocks_at(
    alloc: Global,
    size: u64,
    bytes: &[u8],
) -> Result<(Vec<Block>, &[u8]), PartError>
    ensures { Gives (λ x. (map block_view x.0.items, x.1.now)) result (blocks_at size bytes.now) }
{
    let (count, rest) = count_at_4(BLOCK_LIMIT, bytes).ok_or(PartError::NoPart)?;
    blocks_in_turn(alloc, size, count, rest)
}

ghost use Rattle.std.specs.Prelude.{◌≡◌, ℕ, ◌+◌, ◌-◌, ◌*◌, ◌^◌, ◌<◌, ◌≤◌, List, Some, OnOk, OnErr, MatchOption};
ghost use Rattle.std.specs.Prelude.{length, min};
ghost use Rattle.object_store.specs.Object.{part, spliced, resized};
ghost use Rattle.object_store.specs.Edits.{overlaid};
ghost use Rattle.part_data.specs.declared.block.TheConstants.{BLOCK_SIZE};
ghost use Rattle.part_data.specs.Known.{known, Agrees, AreKnown, AreUnknown};
ghost use Rattle.part_data.specs.Changes.{IsSame, IsUnchanged, IsUnread, IsLearned, IsWritten, IsCut, written_size};

use crate::block::{BLOCK_SIZE, LEN};
use crate::blocks::Blocks;
use crate::unknown::Unknown;
use std::alloc::Global;
use std::marker::Model;
use txn::NoMemory;

/// The data of an object of which some blocks are known: its size, below 2^63, and the known
/// bytes. A known block keeps 4,096 bytes, and a call costs a look-up for each block it meets.
/// Contracts see the size and what is known at each position.
#[derive(Drop)]
pub struct PartData {
    size: u64,
    /// The blocks from this number on hold no byte of the object before: bytes there that no write
    /// set are zeros.
    low: u64,
    blocks: Blocks,
}

impl Model for PartData {
    ghost use Rattle.std.specs.Prelude.{◌<◌, ◌^◌};
    ghost use Rattle.part_data.specs.Known.{KnownData, known_by};
    ghost use Rattle.part_data.specs.inner.Kept.{AreSound};

    ghost Value = { KnownData };

    ghost view = { λ d. record { size = d.size; low = d.low; blocks = d.blocks } };

    ghost invariant = { λ d. (d.size < 2 ^ 63) × AreSound d.size (known_by d.low d.blocks) };
}

impl PartData {
    /// Data of a size of which nothing is known. It takes no memory.
    pub fn of_size(alloc: Global, size: u64) -> PartData
        requires { size < 2 ^ 63 }
        ensures size { result.size ≡ size }
        ensures known { IsUnread (known result) size }
    {
        PartData {
            size,
            low: size.div_ceil(BLOCK_SIZE),
            blocks: Blocks::new(alloc),
        }
    }

    /// No bytes, of which all is known. It takes no memory.
    pub fn empty(alloc: Global) -> PartData
        ensures size { result.size ≡ 0 }
        ensures known { (p : ℕ) → known result p ≡ Some 0 }
    {
        PartData {
            size: 0,
            low: 0,
            blocks: Blocks::new(alloc),
        }
    }

    /// The number of bytes, below 2^63.
    pub fn size(&self) -> u64
        ensures value { result ≡ self.now.size }
        ensures within { self.now.size < 2 ^ 63 }
    {
        self.size
    }

    /// Each byte that is known is below 256.
    pub fn within(&self)
        ensures { (p v : ℕ) → known self.now p ≡ Some v → v < 256 }
    {
        // For the proof: a use of a field brings the invariant of the type, which has the clause.
        let _ = &self.low;
    }

    /// Takes in the bytes of a block: 4,096, or those that there are in the last one. What was known
    /// of the block is forgotten. Refused: no memory; nothing has changed then.
    pub fn learn(&mut self, block: u64, bytes: &[u8]) -> Result<(), NoMemory>
        requires begins { block * BLOCK_SIZE < self.old.size }
        requires whole { length bytes.now ≡ min BLOCK_SIZE (self.old.size - block * BLOCK_SIZE) }
        ensures size { self.new.size ≡ self.old.size }
        ensures known { OnOk result (IsLearned (known self.old) (known self.new) block bytes.now) }
        ensures refused { OnErr result (IsUnchanged self.old self.new) }
        ensures agrees { OnOk result ((all : List ℕ) → Agrees self.old all →
            part all (block * BLOCK_SIZE) BLOCK_SIZE ≡ bytes.now → Agrees self.new all) }
    {
        self.blocks.put(block, bytes)?;
        Ok(())
    }

    /// The unknown blocks that a read of n bytes from a place on meets, from the first to the last;
    /// none if all that it gives is known. A range past the end has no positions there. It costs a
    /// look-up for each block before the first and after the last one.
    pub fn unknown(&self, at: u64, n: u64) -> Option<Unknown>
        ensures { MatchOption result (AreKnown self.now at n) (λ u. AreUnknown self.now at n u.block u.count) }
    {
        let to = at.saturating_add(n).min(self.size);
        if at >= to {
            return None;
        }
        let end = to.div_ceil(BLOCK_SIZE).min(self.low);
        let first = self.blocks.first_missing(at / BLOCK_SIZE, end);
        if first >= end {
            return None;
        }
        let last = self.blocks.last_missing(first, end - 1);
        Some(Unknown {
            block: first,
            count: last - first + 1,
        })
    }

    /// Copies the bytes from a place on into a buffer, until the data or the buffer ends, and returns
    /// their number. They have to be known.
    pub fn read(&self, at: u64, out: &mut [u8]) -> usize
        requires { AreKnown self.now at (length out.old) }
        ensures len { result ≡ min (length out.old) (self.now.size - at) }
        ensures count { (all : List ℕ) → Agrees self.now all → result ≡ length (part all at (length out.old)) }
        ensures bytes { (all : List ℕ) → Agrees self.now all →
            out.new ≡ overlaid (part all at (length out.old)) out.old }
    {
        let count = (self.size - at.min(self.size)).min(out.len() as u64) as usize;
        self.blocks.copy(at, &mut out[..count]);
        count
    }

    /// Writes bytes at a place. Zeros fill a gap, and no bytes leave the data as it is. Blocks that
    /// aren't known stay unknown. Refused: no memory; size and what is known are as before then.
    pub fn write(&mut self, at: u64, text: &[u8]) -> Result<(), NoMemory>
        requires { at + length text.now < 2 ^ 63 }
        ensures size { OnOk result (self.new.size ≡ written_size self.old.size at (length text.now)) }
        ensures known { OnOk result (IsWritten (known self.old) (known self.new) at text.now) }
        ensures agrees { OnOk result ((all : List ℕ) → Agrees self.old all →
            Agrees self.new (spliced all at text.now)) }
        ensures refused { OnErr result (IsUnchanged self.old self.new) }
    {
        if text.is_empty() {
            return Ok(());
        }
        let end = at + text.len() as u64;
        let first = self.low.max(at / BLOCK_SIZE);
        self.blocks.fill(self.low, first, end.div_ceil(BLOCK_SIZE))?;
        self.blocks.write(at, text);
        self.size = self.size.max(end);
        Ok(())
    }

    /// Cuts the data, or extends it with zeros, to a length. It takes no memory.
    pub fn set_len(&mut self, len: u64)
        requires { len < 2 ^ 63 }
        ensures size { self.new.size ≡ len }
        ensures cut { len < self.old.size → IsCut (known self.old) (known self.new) len }
        ensures extended { self.old.size ≤ len → IsSame (known self.old) (known self.new) }
        ensures agrees { (all : List ℕ) → Agrees self.old all → Agrees self.new (resized all len) }
    {
        if len >= self.size {
            self.size = len;
            return;
        }
        let end = len.div_ceil(BLOCK_SIZE);
        self.blocks.clear_tail(len);
        self.blocks.truncate(end);
        self.low = self.low.min(end);
        self.size = len;
    }

    /// Makes the data empty, and all of it known, as that of an object that was made again.
    pub fn clear(&mut self)
        ensures size { self.new.size ≡ 0 }
        ensures known { (p : ℕ) → known self.new p ≡ Some 0 }
    {
        self.blocks.clear();
        self.low = 0;
        self.size = 0;
    }
}

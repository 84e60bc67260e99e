ghost use Rattle.std.specs.Prelude.{◌≡◌, ℕ, ◌+◌, ◌*◌, ◌^◌, ◌<◌, ◌≤◌, None, Some, OnOk, OnErr, MatchOption, IsSome};
ghost use Rattle.std.specs.Prelude.{length, is_some};
ghost use Rattle.std.specs.Option.{option_copied};
ghost use Rattle.part_data.specs.declared.block.TheConstants.{BLOCK_SIZE};
ghost use Rattle.part_data.specs.Known.{block_at, kept, known_by};
ghost use Rattle.part_data.specs.Changes.{IsWritten, IsSame};
ghost use Rattle.part_data.specs.inner.Kept.{padded, AreCopied, IsCleared};

use crate::block::{BLOCK_SIZE, Block, LEN};
use std::alloc::{AllocError, Global};
use std::collections::BTreeMap;
use std::marker::Model;

/// Blocks by number. Contracts see the bytes of the block of each number, if it is kept.
#[derive(Drop)]
pub(crate) struct Blocks {
    map: BTreeMap<u64, Block>,
    alloc: Global,
}

impl Model for Blocks {
    ghost use Rattle.part_data.specs.Known.{KeptBlocks};

    ghost Value = { KeptBlocks };

    ghost view = { λ b. b.map.entries };
}

impl Blocks {
    /// None is kept. It takes no memory.
    pub(crate) fn new(alloc: Global) -> Blocks
        ensures { (n : ℕ) → block_at result n ≡ None }
    {
        Blocks {
            map: BTreeMap::new(alloc),
            alloc,
        }
    }

    /// The block of a number.
    fn get(&self, n: u64) -> Option<&Block>
        ensures { option_copied result ≡ block_at self.now n }
    {
        self.map.get(&n)
    }

    /// True if the block of a number is kept.
    fn has(&self, n: u64) -> bool
        ensures { result ≡ is_some (block_at self.now n) }
    {
        self.map.contains_key(&n)
    }

    /// The first number of a range that no block is kept of; its end, if there is none.
    pub(crate) fn first_missing(&self, first: u64, end: u64) -> u64
        ensures kept { (q : ℕ) → first ≤ q → q < result → q < end → IsSome (block_at self.now q) }
        ensures missing { result < end → block_at self.now result ≡ None }
        ensures from { first ≤ result }
    {
        let mut n = first;
        while n < end && self.has(n) {
            n += 1;
        }
        n
    }

    /// The last number up to one that no block is kept of, if none is kept of the first.
    pub(crate) fn last_missing(&self, first: u64, last: u64) -> u64
        requires order { first ≤ last }
        requires missing { block_at self.now first ≡ None }
        ensures kept { (q : ℕ) → result < q → q ≤ last → IsSome (block_at self.now q) }
        ensures missing { block_at self.now result ≡ None }
        ensures within { (first ≤ result) × (result ≤ last) }
    {
        let mut n = last;
        while self.has(n) {
            n -= 1;
        }
        n
    }

    /// The greatest number of those that a block is kept of.
    fn last(&self) -> Option<u64>
        ensures { MatchOption result ((q : ℕ) → block_at self.now q ≡ None) (λ n.
            IsSome (block_at self.now n) × ((q : ℕ) → n < q → block_at self.now q ≡ None)) }
    {
        let (n, _) = self.map.last_key_value()?;
        Some(*n)
    }

    /// Copies the bytes of a block from a place of the block on, zeros if it isn't kept.
    fn copy_block(&self, n: u64, at: usize, out: &mut [u8])
        requires { at + length out.old ≤ BLOCK_SIZE }
        ensures { AreCopied (kept self.now) (n * BLOCK_SIZE + at) out.new }
    {
        match self.get(n) {
            Some(block) => out.copy_from_slice(&block.bytes()[at..at + out.len()]),
            None => out.fill(0),
        }
    }

    /// Copies the bytes from a position on, zeros of blocks that aren't kept.
    pub(crate) fn copy(&self, at: u64, out: &mut [u8])
        requires { at + length out.old < 2 ^ 64 }
        ensures { AreCopied (kept self.now) at out.new }
    {
        let mut done = 0usize;
        while done < out.len() {
            let place = at + done as u64;
            let offset = (place % BLOCK_SIZE) as usize;
            let count = (LEN - offset).min(out.len() - done);
            self.copy_block(place / BLOCK_SIZE, offset, &mut out[done..done + count]);
            done += count;
        }
    }

    /// Keeps a block of these bytes, and of zeros after them, in the place of one of that number.
    pub(crate) fn put(&mut self, n: u64, bytes: &[u8]) -> Result<(), AllocError>
        requires { length bytes.now ≤ BLOCK_SIZE }
        ensures here { OnOk result (block_at self.new n ≡ Some (padded bytes.now)) }
        ensures others { OnOk result ((q : ℕ) → (q ≡ n → ⊥) → block_at self.new q ≡ block_at self.old q) }
        ensures err { OnErr result ((q : ℕ) → block_at self.new q ≡ block_at self.old q) }
    {
        let block = Block::new(self.alloc, bytes)?;
        // A block of that number that was kept is dropped.
        let _ = self.map.insert(n, block)?;
        Ok(())
    }

    /// Keeps blocks of zeros for those numbers of a range that none is kept of. From `low` on
    /// blocks that aren't kept are zeros already.
    pub(crate) fn fill(&mut self, low: u64, first: u64, end: u64) -> Result<(), AllocError>
        requires { low ≤ first }
        ensures known { IsSame (known_by low self.old) (known_by low self.new) }
        ensures all { OnOk result ((n : ℕ) → first ≤ n → n < end → IsSome (block_at self.new n)) }
    {
        for n in first..end {
            if !self.has(n) {
                self.put(n, &[])?;
            }
        }
        Ok(())
    }

    /// Writes text into a block, if it is kept, from a place of the block on.
    fn write_block(&mut self, n: u64, at: usize, text: &[u8])
        requires { at + length text.now ≤ BLOCK_SIZE }
        ensures { IsWritten (kept self.old) (kept self.new) (n * BLOCK_SIZE + at) text.now }
    {
        if let Some(block) = self.map.get_mut(&n) {
            block.write(at, text);
        }
    }

    /// Writes text from a position on into the blocks that are kept.
    pub(crate) fn write(&mut self, at: u64, text: &[u8])
        requires { at + length text.now < 2 ^ 63 }
        ensures { IsWritten (kept self.old) (kept self.new) at text.now }
    {
        let mut done = 0usize;
        while done < text.len() {
            let place = at + done as u64;
            let offset = (place % BLOCK_SIZE) as usize;
            let count = (LEN - offset).min(text.len() - done);
            self.write_block(place / BLOCK_SIZE, offset, &text[done..done + count]);
            done += count;
        }
    }

    /// Makes the bytes from a position on zeros, in its block, if that is kept.
    pub(crate) fn clear_tail(&mut self, at: u64)
        ensures { IsCleared (kept self.old) (kept self.new) at }
    {
        if let Some(block) = self.map.get_mut(&(at / BLOCK_SIZE)) {
            block.clear_from((at % BLOCK_SIZE) as usize);
        }
    }

    /// Keeps no block from a number on.
    pub(crate) fn truncate(&mut self, end: u64)
        ensures below { (q : ℕ) → q < end → block_at self.new q ≡ block_at self.old q }
        ensures from { (q : ℕ) → end ≤ q → block_at self.new q ≡ None }
    {
        while let Some(n) = self.last() {
            if n < end {
                break;
            }
            self.map.remove(&n);
        }
    }

    /// Keeps no block.
    pub(crate) fn clear(&mut self)
        ensures { (n : ℕ) → block_at self.new n ≡ None }
    {
        self.map.clear();
    }
}

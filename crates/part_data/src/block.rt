ghost use Rattle.std.specs.Prelude.{◌≡◌, ◌+◌, ◌-◌, ◌≤◌, ◌++◌, IfOk, length, take, drop, replicate};
ghost use Rattle.part_data.specs.declared.block.TheConstants.{BLOCK_SIZE};

use std::alloc::{AllocError, Global};
use std::marker::Model;

/// The number of bytes of a block.
pub const BLOCK_SIZE: u64 = 4096;

/// The number of bytes of a block, as a length.
pub(crate) const LEN: usize = BLOCK_SIZE as usize;

/// The bytes of a known block, with zeros past the end of the data. Contracts see the bytes.
#[derive(Drop)]
pub(crate) struct Block {
    content: Vec<u8>,
}

impl Model for Block {
    ghost use Rattle.std.specs.Prelude.{◌≡◌, ℕ, List, length};
    ghost use Rattle.part_data.specs.declared.block.TheConstants.{BLOCK_SIZE};

    ghost Value = { List ℕ };

    ghost view = { λ b. b.content.items };

    ghost invariant = { λ b. length b.content.items ≡ BLOCK_SIZE };
}

impl Block {
    /// These bytes, and zeros after them.
    pub(crate) fn new(alloc: Global, bytes: &[u8]) -> Result<Block, AllocError>
        requires { length bytes.now ≤ BLOCK_SIZE }
        ensures { IfOk result (λ b. b ≡ bytes.now ++ replicate (BLOCK_SIZE - length bytes.now) 0) }
    {
        let mut content = Vec::from_slice(alloc, bytes)?;
        content.resize(LEN, 0)?;
        Ok(Block { content })
    }

    /// Its bytes.
    pub(crate) fn bytes(&self) -> &[u8]
        ensures value { result.now ≡ self.now }
        ensures len { length self.now ≡ BLOCK_SIZE }
    {
        &self.content
    }

    /// Writes text over the bytes at a place.
    pub(crate) fn write(&mut self, at: usize, text: &[u8])
        requires { at + length text.now ≤ BLOCK_SIZE }
        ensures len { length self.old ≡ BLOCK_SIZE }
        ensures over { self.new ≡ take at self.old ++ text.now ++ drop (at + length text.now) self.old }
    {
        self.content[at..at + text.len()].copy_from_slice(text);
    }

    /// Makes the bytes from a place on zeros.
    pub(crate) fn clear_from(&mut self, at: usize)
        requires { at ≤ BLOCK_SIZE }
        ensures { self.new ≡ take at self.old ++ replicate (BLOCK_SIZE - at) 0 }
    {
        self.content[at..].fill(0);
    }
}

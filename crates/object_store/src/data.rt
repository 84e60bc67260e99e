ghost use Rattle.std.specs.Prelude.{◌≡◌, ℕ, List, IfOk, IfErr, OnErr, length};
ghost use Rattle.object_store.specs.Object.{part};
ghost use Rattle.object_store.specs.Edits.{written, truncated, overlaid};
ghost use Rattle.object_store.specs.Returned.{GivesData};

use crate::data_error::DataError;
use std::alloc::Global;

/// Data of an object. Contracts see its bytes, however it is kept.
pub trait Data: Drop {
    /// The bytes that it contains.
    ghost bytes: { Self → List ℕ };

    /// The number of bytes.
    fn len(&self) -> usize
        ensures { result ≡ length (bytes self.now) };

    /// Copies the bytes from a place on into a buffer, until the data or the buffer ends, and
    /// returns their number.
    fn read(&self, at: u64, out: &mut [u8]) -> usize
        ensures count { result ≡ length (part (bytes self.now) at (length out.old)) }
        ensures bytes { out.new ≡ overlaid (part (bytes self.now) at (length out.old)) out.old };

    /// Writes bytes at a place. Zeros fill a gap, and no bytes leave the data as it is, wherever
    /// they stand. Refused: 4 TooBig past `DATA_LIMIT`, 7 NoMemory; nothing has changed then.
    fn write(&mut self, alloc: Global, at: u64, text: &[u8]) -> Result<(), DataError>
        ensures answer { GivesData (λ _. bytes self.new) result (written (bytes self.old) at text.now) }
        ensures err { OnErr result (bytes self.new ≡ bytes self.old) };

    /// Cuts the data, or extends it with zeros. Refused: 4 TooBig past `DATA_LIMIT`, 7 NoMemory;
    /// nothing has changed then.
    fn truncate(&mut self, alloc: Global, len: u64) -> Result<(), DataError>
        ensures answer { GivesData (λ _. bytes self.new) result (truncated (bytes self.old) len) }
        ensures err { OnErr result (bytes self.new ≡ bytes self.old) };

    /// Data of the same bytes. Refused: 7 NoMemory.
    fn copy(&self, alloc: Global) -> Result<Self, DataError>
        ensures value { IfOk result (λ copy. bytes copy ≡ bytes self.now) }
        ensures refused { IfErr result (λ e. e ≡ DataError.NoMemory) };
}

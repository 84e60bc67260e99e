ghost use Rattle.std.specs.Prelude.{◌≡◌, ◌+◌, ◌*◌, ◌<◌, ◌≤◌, ◌↔◌, [], IsTrue, IfOk, OnOk, OnErr, min, length};
ghost use Rattle.object_store.specs.declared.limits.TheConstants.{DATA_LIMIT};
ghost use Rattle.object_store.specs.Object.{part, spliced, resized};
ghost use Rattle.object_store.specs.Extents.{flat, ArePacked};

use crate::data::Data;
use crate::data_error::DataError;
use crate::extent::Extent;
use crate::extents::{are_same, copy_out, with_len, with_text};
use crate::slices::place_of;
use std::alloc::{AllocError, Global};
use std::marker::Model;
use std::sync::Arc;

/// Data in extents of 1 to 4,096 bytes, as few as it needs, which never change once they are made:
/// a copy costs one pointer, a write copies the extents that it touches and shares the others, and
/// all full extents of a gap are one extent of zeros, shared. Contracts see the bytes.
#[derive(Drop)]
pub struct ExtentData {
    parts: Option<Arc<Vec<Extent>>>,
    len: usize,
}

impl Model for ExtentData {
    ghost use Rattle.std.specs.Prelude.{◌≡◌, ◌≤◌, ℕ, List, length};
    ghost use Rattle.object_store.specs.declared.limits.TheConstants.{DATA_LIMIT};
    ghost use Rattle.object_store.specs.Extents.{flat, shared, ArePacked};

    ghost Value = { List ℕ };

    ghost view = { λ d. flat (shared d.parts) };

    ghost invariant = { λ d. (d.len ≡ length (flat (shared d.parts))) × (d.len ≤ DATA_LIMIT) ×
        ArePacked (shared d.parts) };
}

impl ExtentData {
    /// No bytes. It takes no memory.
    pub fn new() -> ExtentData
        ensures { result ≡ [] }
    {
        ExtentData {
            parts: None,
            len: 0,
        }
    }

    /// The extents in order.
    fn parts(&self) -> &[Extent]
        ensures bytes { flat result.now ≡ self.now }
        ensures packed { ArePacked result.now }
    {
        match &self.parts {
            Some(parts) => parts.as_slice(),
            None => &[],
        }
    }

    /// The same bytes, in the same extents.
    pub(crate) fn share(&self) -> Result<ExtentData, AllocError>
        ensures { IfOk result (λ d. d ≡ self.now) }
    {
        let parts = match &self.parts {
            Some(parts) => Some(Arc::try_clone(parts)?),
            None => None,
        };
        Ok(ExtentData {
            parts,
            len: self.len,
        })
    }

    /// True if the bytes are the same. It takes no memory.
    pub(crate) fn is_same(&self, other: &ExtentData) -> bool
        ensures { IsTrue result ↔ (self.now ≡ other.now) }
    {
        // All extents but the last are full, so equal bytes lie in equal extents.
        are_same(self.parts(), other.parts())
    }

    /// Writes text over the bytes at a place.
    pub(crate) fn splice(&mut self, alloc: Global, at: usize, text: &[u8]) -> Result<(), AllocError>
        requires { at + length text.now ≤ DATA_LIMIT }
        ensures ok { OnOk result (self.new ≡ spliced self.old at text.now) }
        ensures err { OnErr result (self.new ≡ self.old) }
    {
        if text.is_empty() {
            return Ok(());
        }
        let parts = with_text(alloc, self.parts(), self.len, at, text)?;
        let len = self.len.max(at + text.len());
        self.remake(alloc, parts, len)
    }

    /// Cuts the bytes, or extends them with zeros, to a length.
    pub(crate) fn resize(&mut self, alloc: Global, len: usize) -> Result<(), AllocError>
        requires { len ≤ DATA_LIMIT }
        ensures ok { OnOk result (self.new ≡ resized self.old len) }
        ensures err { OnErr result (self.new ≡ self.old) }
    {
        let parts = with_len(alloc, self.parts(), self.len, len)?;
        self.remake(alloc, parts, len)
    }

    /// Makes the data that of these extents, which have `len` bytes.
    fn remake(&mut self, alloc: Global, parts: Vec<Extent>, len: usize) -> Result<(), AllocError>
        requires len { (len ≡ length (flat parts.items)) × (len ≤ DATA_LIMIT) }
        requires packed { ArePacked parts.items }
        ensures ok { OnOk result (self.new ≡ flat parts.items) }
        ensures err { OnErr result (self.new ≡ self.old) }
    {
        self.parts = Some(Arc::new(alloc, parts)?);
        self.len = len;
        Ok(())
    }
}

impl Data for ExtentData {
    ghost bytes = { λ d. d };

    fn len(&self) -> usize {
        self.len
    }

    fn read(&self, at: u64, out: &mut [u8]) -> usize {
        // A place past the end reads no bytes; the minimum fits in a usize though a place need not.
        let from = at.min(self.len as u64) as usize;
        let to = from + out.len().min(self.len - from);
        copy_out(self.parts(), from, to, out)
    }

    fn write(&mut self, alloc: Global, at: u64, text: &[u8]) -> Result<(), DataError> {
        if text.is_empty() {
            return Ok(());
        }
        let Some(at) = place_of(at, text.len()) else {
            return Err(DataError::TooBig);
        };
        Ok(self.splice(alloc, at, text)?)
    }

    fn truncate(&mut self, alloc: Global, len: u64) -> Result<(), DataError> {
        let Some(len) = place_of(len, 0) else {
            return Err(DataError::TooBig);
        };
        Ok(self.resize(alloc, len)?)
    }

    fn copy(&self, alloc: Global) -> Result<ExtentData, DataError> {
        // A copy shares the extents and allocates nothing: the parameter is only there for the
        // trait.
        let _ = alloc;
        Ok(self.share()?)
    }
}

/// The extents of the bytes: for tests and measurements.
impl ExtentData {
    /// The number of extents: the length over 4,096, rounded up.
    pub fn extent_count(&self) -> usize
        ensures enough { length self.now ≤ result * 4096 }
        ensures few { result * 4096 < length self.now + 4096 }
    {
        self.parts().len()
    }

    /// The length of its longest extent: 4,096, or all bytes if they are fewer.
    pub fn longest_extent(&self) -> usize
        ensures { result ≡ min (length self.now) 4096 }
    {
        let parts = self.parts();
        let mut most = 0usize;
        for part in parts {
            let bytes: &[u8] = part.bytes();
            most = most.max(bytes.len());
        }
        most
    }

    /// The number of its extents that stand in another place too: in other data or, of zeros, in
    /// the same.
    pub fn shared_count(&self) -> usize {
        let mut count = 0usize;
        for part in self.parts() {
            if part.is_shared() {
                count = count.saturating_add(1);
            }
        }
        count
    }
}

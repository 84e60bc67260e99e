ghost use Rattle.std.specs.Prelude.{◌≡◌, ◌+◌, ◌-◌, ◌<◌, ◌≤◌, [], OnOk, OnErr, length};
ghost use Rattle.object_store.specs.Object.{part, spliced};

use crate::data::Data;
use crate::data_error::DataError;
use crate::slices::{lengthen, overlay, part, place_of};
use std::alloc::{AllocError, Global};
use std::marker::Model;

/// Data in one vector. Contracts see the bytes.
#[derive(Drop)]
pub struct FlatData {
    content: Vec<u8>,
}

impl Model for FlatData {
    ghost use Rattle.std.specs.Prelude.{ℕ, List, ◌≤◌, length};
    ghost use Rattle.object_store.specs.declared.limits.TheConstants.{DATA_LIMIT};

    ghost Value = { List ℕ };

    ghost view = { λ d. d.content.items };

    ghost invariant = { λ d. length d.content.items ≤ DATA_LIMIT };
}

impl FlatData {
    /// No bytes. It takes no memory.
    pub fn new(alloc: Global) -> FlatData
        ensures { result ≡ [] }
    {
        FlatData {
            content: Vec::new(alloc),
        }
    }
}

impl Data for FlatData {
    ghost bytes = { λ d. d };

    fn len(&self) -> usize {
        self.content.len()
    }

    fn read(&self, at: u64, out: &mut [u8]) -> usize {
        let found = part(&self.content, at, out.len() as u64);
        overlay(out, 0, found);
        found.len()
    }

    fn write(&mut self, alloc: Global, at: u64, text: &[u8]) -> Result<(), DataError> {
        // The vector has its own allocator: the parameter is only there for the trait.
        let _ = alloc;
        if text.is_empty() {
            return Ok(());
        }
        let Some(at) = place_of(at, text.len()) else {
            return Err(DataError::TooBig);
        };
        splice(&mut self.content, at, text)?;
        Ok(())
    }

    fn truncate(&mut self, alloc: Global, len: u64) -> Result<(), DataError> {
        // The vector has its own allocator: the parameter is only there for the trait.
        let _ = alloc;
        let Some(len) = place_of(len, 0) else {
            return Err(DataError::TooBig);
        };
        self.content.resize(len, 0)?;
        Ok(())
    }

    fn copy(&self, alloc: Global) -> Result<FlatData, DataError> {
        Ok(FlatData {
            content: Vec::from_slice(alloc, &self.content)?,
        })
    }
}

/// Writes text over bytes at a place, with zeros in a gap.
fn splice(content: &mut Vec<u8>, at: usize, text: &[u8]) -> Result<(), AllocError>
    requires text { 0 < length text.now }
    requires end { at + length text.now ≤ 65536 }
    ensures ok { OnOk result (content.new.items ≡ spliced content.old.items at text.now) }
    ensures err { OnErr result (content.new.items ≡ content.old.items) }
{
    lengthen(content, at + text.len())?;
    overlay(content, at, text);
    Ok(())
}

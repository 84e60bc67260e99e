use super::subject::Reading;
use crate::timing::Work;
use anyhow::Result;
use object_store::Object;
use std::alloc::Global;

/// The times that are taken; the least counts.
pub const RUNS: usize = 50;

/// The calls of a time.
pub const CALLS: usize = 1_000;

/// A call on an object, made again and again.
#[derive(Clone, Copy)]
pub struct Reads<'a> {
    pub reading: Reading,
    pub object: Option<&'a Object>,
}

impl Work for Reads<'_> {
    fn run(&self, _alloc: Global, count: usize) -> Result<()> {
        for _ in 0..count {
            let _ = self.reading.call(self.object)?;
        }
        Ok(())
    }
}

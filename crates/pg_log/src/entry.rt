ghost use Rattle.std.specs.Prelude.{◌≡◌, IfOk, IfErr};
ghost use Rattle.pg_log.specs.Same.{IsSameEntry};

use crate::log_error::LogError;
use crate::request::Request;
use std::alloc::Global;
use txn::Change;

/// A logged request with its reply and the change of its object.
#[derive(Drop)]
pub struct Entry {
    /// The request.
    pub request: Request,
    /// The code that it was answered; a negative one is an error, which changed nothing.
    pub code: i64,
    /// The output that it was answered.
    pub output: Vec<u8>,
    /// Its object before and after.
    pub change: Change,
}

impl Entry {
    /// An equal entry. It refuses by `NoMemory` alone.
    pub fn copy(&self, alloc: Global) -> Result<Entry, LogError>
        ensures ok { IfOk result (λ e. IsSameEntry e self.now) }
        ensures err { IfErr result (λ e. e ≡ LogError.NoMemory) }
    {
        let output = Vec::from_slice(alloc, &self.output)?;
        let request = self.request.copy()?;
        let change = self.change.copy()?;
        Ok(Entry {
            request,
            code: self.code,
            output,
            change,
        })
    }
}

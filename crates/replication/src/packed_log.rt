ghost use Rattle.std.specs.Prelude.{◌≡◌, ◌≤◌, ◌<◌, ◌↔◌, ◌⊎◌, ◌++◌, Err, IfOk, IfErr, length};
ghost use Rattle.replication.specs.Packed.{packed, spread};
ghost use Rattle.replication.specs.declared.unpack_error.UnpackError.TheVariants.{TooShort, NoMemory as NoRoom};

use crate::unpack_error::UnpackError;
use pg_log::{NoMemory, Request, Requests, copy_requests};
use std::alloc::Global;
use std::marker::Model;

/// A list without a beginning that the receiver has: the number of requests left out, and the rest.
/// Contracts see both.
pub struct PackedLog {
    common: usize,
    rest: Requests,
}

// Written out, so that a crate that drops one calls this.
impl Drop for PackedLog {
    fn drop(self) {
        let PackedLog { common: _, rest } = self;
        drop(rest);
    }
}

impl Model for PackedLog {
    ghost use Rattle.replication.specs.Packed.{Packed};

    ghost Value = { Packed };

    ghost view = { λ p. record {
      common = p.common;
      rest = p.rest;
    } };
}

impl PackedLog {
    /// The number of requests that are left out, since the receiver has them.
    pub fn common(&self) -> usize
        ensures { result ≡ self.now.common }
    {
        self.common
    }

    /// The requests that follow them.
    pub fn rest(&self) -> &[Request]
        ensures { result.now ≡ self.now.rest }
    {
        self.rest.items()
    }

    /// An equal one. It shares the rest by reference count.
    pub fn copy(&self) -> Result<PackedLog, NoMemory>
        ensures { IfOk result (λ p. p ≡ self.now) }
    {
        Ok(PackedLog {
            common: self.common,
            rest: self.rest.copy()?,
        })
    }

    /// The list that was packed. The receiver hands over the beginning that was left out. It costs
    /// a reference and a pointer for each request of the rest.
    pub fn after(&self, alloc: Global, beginning: Vec<Request>) -> Result<Vec<Request>, NoMemory>
        ensures { IfOk result (λ list. list.items ≡ beginning.items ++ self.now.rest) }
    {
        let mut list = beginning;
        let Ok(mut rest) = copy_requests(alloc, self.rest()) else {
            return Err(NoMemory);
        };
        match list.append(&mut rest) {
            Ok(()) => Ok(list),
            Err(_) => Err(NoMemory),
        }
    }
}

/// Leaves the first `reported` requests out of a list, which it takes: the receiver reported that
/// it has them. If the list is shorter, all are left out. The rest is shared. It takes no memory.
pub fn pack_list(list: Requests, reported: usize) -> PackedLog
    ensures { result ≡ packed list reported }
{
    let common = reported.min(list.len());
    PackedLog {
        common,
        rest: list.rest(common),
    }
}

/// The same of a list that isn't shared. It costs a reference and a pointer for each request of the
/// rest.
pub fn pack_log(alloc: Global, list: &[Request], reported: usize) -> Result<PackedLog, NoMemory>
    ensures { IfOk result (λ p. p ≡ packed list.now reported) }
{
    let common = reported.min(list.len());
    let Ok(rest) = copy_requests(alloc, &list[common..]) else {
        return Err(NoMemory);
    };
    Ok(PackedLog {
        common,
        rest: Requests::new(alloc, rest)?,
    })
}

/// The list that was packed: the left-out beginning, from the local list, and the rest.
fn unpacked(alloc: Global, local: &[Request], log: &PackedLog) -> Result<Vec<Request>, NoMemory>
    requires { log.now.common ≤ length local.now }
    ensures { IfOk result (λ list. list.items ≡ spread local.now log.now) }
{
    match copy_requests(alloc, &local[..log.common]) {
        Ok(beginning) => log.after(alloc, beginning),
        Err(_) => Err(NoMemory),
    }
}

/// The list that was packed, if the local list begins with the left-out beginning. It costs a
/// reference and a pointer for each request. It refuses by `TooShort` exactly if the local list is
/// shorter than the left-out beginning, and else by `NoMemory`.
pub fn unpack_log(
    alloc: Global,
    local: &[Request],
    log: &PackedLog,
) -> Result<Vec<Request>, UnpackError>
    ensures ok { IfOk result (λ list. list.items ≡ spread local.now log.now) }
    ensures too_short { (result ≡ Err TooShort) ↔ (length local.now < log.now.common) }
    ensures err { IfErr result (λ e. (e ≡ TooShort) ⊎ (e ≡ NoRoom)) }
{
    if local.len() < log.common {
        return Err(UnpackError::TooShort);
    }
    match unpacked(alloc, local, log) {
        Ok(list) => Ok(list),
        Err(_) => Err(UnpackError::NoMemory),
    }
}

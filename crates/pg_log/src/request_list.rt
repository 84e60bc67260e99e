//! Lists of requests.
ghost use Rattle.std.specs.Prelude.{◌≡◌, ◌∷◌, ◌++◌, [], ◌↔◌, IfOk, IfErr, OnOk, IsTrue};
ghost use Rattle.pg_log.specs.Entries.{requests_of};

use crate::entry::Entry;
use crate::log_error::LogError;
use crate::request::Request;
use std::alloc::Global;

/// Adds the same request.
fn add_copy(request: &Request, copies: &mut Vec<Request>) -> Result<(), LogError>
    ensures ok { OnOk result (copies.new.items ≡ copies.old.items ++ request.now ∷ []) }
    ensures err { IfErr result (λ e. e ≡ LogError.NoMemory) }
{
    let copy = request.copy()?;
    copies.push(copy)?;
    Ok(())
}

/// The same requests, shared. It refuses by `NoMemory` alone, and costs a reference and a pointer
/// each.
pub fn copy_requests(alloc: Global, list: &[Request]) -> Result<Vec<Request>, LogError>
    ensures ok { IfOk result (λ v. v.items ≡ list.now) }
    ensures err { IfErr result (λ e. e ≡ LogError.NoMemory) }
{
    let mut copies = Vec::with_capacity(alloc, list.len())?;
    for request in list {
        add_copy(request, &mut copies)?;
    }
    Ok(copies)
}

/// The requests of these entries, shared. It refuses by `NoMemory` alone, and costs a reference and
/// a pointer each.
pub fn copy_log(alloc: Global, entries: &[Entry]) -> Result<Vec<Request>, LogError>
    ensures ok { IfOk result (λ v. v.items ≡ requests_of entries.now) }
    ensures err { IfErr result (λ e. e ≡ LogError.NoMemory) }
{
    let mut copies = Vec::with_capacity(alloc, entries.len())?;
    for entry in entries {
        add_copy(&entry.request, &mut copies)?;
    }
    Ok(copies)
}

/// True if the lists are equal.
pub fn are_same_requests(list: &[Request], other: &[Request]) -> bool
    ensures { IsTrue result ↔ (list.now ≡ other.now) }
{
    if list.len() != other.len() {
        return false;
    }
    for place in 0..list.len() {
        if !list[place].is(&other[place]) {
            return false;
        }
    }
    true
}

//! A call of a helper as a step of the flat machine.

ghost use Rattle.std.specs.Prelude.{◌≡◌, ◌<◌, IfOk};
ghost use Rattle.bpf_machine.specs.Flat.{help};
ghost use Rattle.flat_machine.specs.StateView.{caps_in, layout_in, flat_state};
ghost use Rattle.flat_machine.specs.inner.FlatState.{with_answer, GivesState, Answers, may_call, helped};

mod arguments;
mod changes;
mod reads;

use crate::state::{FlatState, answer};
use bpf_machine::Caps;
use changes::{create, map_rm, map_set, rmxattr, setxattr, truncate, write};
use helpers::{Helper, signature};
use reads::{compare, copy, getxattr, map_get, map_next, out_len, read, xattr_next};
use std::alloc::Global;
use txn::NoMemory;

/// The answer of a helper, by its row of the table.
fn help_by(alloc: Global, helper: Helper, s: &mut FlatState) -> Result<Option<u64>, NoMemory>
    ensures helped { IfOk result
        (λ o. Answers o (flat_state s.new) (helped (caps_in s.old) (layout_in s.old) helper (flat_state s.old))) }
    ensures slot { s.new.slot ≡ s.old.slot }
    ensures machine { s.new.memory.machine ≡ s.old.memory.machine }
{
    // A helper that lacks memory ends the run and answers no error number: each replica is to
    // compute the same.
    match helper {
        Helper::Stat => Ok(Some(helpers::stat(&s.object))),
        Helper::Read => Ok(read(s)),
        Helper::Write => write(alloc, s),
        Helper::Truncate => truncate(alloc, s),
        Helper::Remove => Ok(Some(helpers::remove(alloc, &mut s.object)?)),
        Helper::GetXattr => Ok(getxattr(s)),
        Helper::SetXattr => setxattr(alloc, s),
        Helper::RmXattr => rmxattr(alloc, s),
        Helper::MapGet => Ok(map_get(s)),
        Helper::MapSet => map_set(alloc, s),
        Helper::MapRm => map_rm(alloc, s),
        Helper::MapNext => Ok(map_next(s)),
        Helper::OutLen => Ok(out_len(s)),
        Helper::Create => create(alloc, s),
        Helper::Caller => Ok(Some(helpers::caller(s.caller))),
        Helper::Compare => Ok(compare(s)),
        Helper::Copy => copy(alloc, s),
        Helper::XattrNext => Ok(xattr_next(s)),
    }
}

/// True if a method may call the helper of that id: one that may change the object needs `writes`.
fn may_call(caps: &Caps, id: u32) -> bool
    ensures { result ≡ may_call caps.now id }
{
    match signature(id) {
        None => false,
        Some(takes) => !takes.writes || caps.writes,
    }
}

/// The registers after a helper that answers a number.
fn put_answer(s: &mut FlatState, number: u64)
    ensures state { flat_state s.new ≡ with_answer (flat_state s.old) number }
    ensures memory { s.new.memory ≡ s.old.memory }
{
    s.regs = answer(s.regs, number);
}

/// The helper of that id (RFC 9669 section 4.3.1); there is no step for another id.
pub fn help(alloc: Global, id: u32, s: &mut FlatState) -> Result<Option<()>, NoMemory>
    ensures helped { IfOk result
        (λ o. GivesState o (flat_state s.new) (help (caps_in s.old) (layout_in s.old) id (flat_state s.old))) }
    ensures slot { s.new.slot ≡ s.old.slot }
    ensures machine { s.new.memory.machine ≡ s.old.memory.machine }
{
    if !may_call(&s.memory.machine.caps, id) {
        return Ok(None);
    }
    match Helper::of(id) {
        None => Ok(None),
        Some(helper) => match help_by(alloc, helper, s)? {
            None => Ok(None),
            Some(number) => {
                put_answer(s, number);
                Ok(Some(()))
            }
        },
    }
}

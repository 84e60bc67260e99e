//! The helpers that change the object, on plain addresses.

ghost use Rattle.std.specs.Prelude.{◌≡◌, IfOk};
ghost use Rattle.flat_machine.specs.StateView.{caps_in, layout_in, flat_state};
ghost use Rattle.flat_machine.specs.inner.FlatState.{Answers, helped};

use crate::calls::arguments::{number_and_text, one_text, text_in, two_texts};
use crate::state::{FlatState, get};
use helpers::Helper;
use std::alloc::Global;
use txn::NoMemory;

/// Helper 3, `write`: writes a range's bytes into the object at a place.
pub fn write(alloc: Global, s: &mut FlatState) -> Result<Option<u64>, NoMemory>
    ensures helped { IfOk result
        (λ o. Answers o (flat_state s.new) (helped (caps_in s.old) (layout_in s.old) Helper.Write (flat_state s.old))) }
    ensures slot { s.new.slot ≡ s.old.slot }
    ensures machine { s.new.memory.machine ≡ s.old.memory.machine }
{
    match number_and_text(s) {
        None => Ok(None),
        Some((at, text)) => {
            let text = text_in(&s.memory, text);
            Ok(Some(helpers::write(alloc, &mut s.object, at, text)?))
        }
    }
}

/// Helper 4, `truncate`: cuts the object's data or extends it with zeros.
pub fn truncate(alloc: Global, s: &mut FlatState) -> Result<Option<u64>, NoMemory>
    ensures helped { IfOk result (λ o. Answers o (flat_state s.new)
        (helped (caps_in s.old) (layout_in s.old) Helper.Truncate (flat_state s.old))) }
    ensures slot { s.new.slot ≡ s.old.slot }
    ensures machine { s.new.memory.machine ≡ s.old.memory.machine }
{
    match get(s, 1) {
        None => Ok(None),
        Some(size) => Ok(Some(helpers::truncate(alloc, &mut s.object, size)?)),
    }
}

/// Helper 7, `setxattr`: sets an xattr.
pub fn setxattr(alloc: Global, s: &mut FlatState) -> Result<Option<u64>, NoMemory>
    ensures helped { IfOk result (λ o. Answers o (flat_state s.new)
        (helped (caps_in s.old) (layout_in s.old) Helper.SetXattr (flat_state s.old))) }
    ensures slot { s.new.slot ≡ s.old.slot }
    ensures machine { s.new.memory.machine ≡ s.old.memory.machine }
{
    match two_texts(s) {
        None => Ok(None),
        Some((name, value)) => {
            let (name, value) = (text_in(&s.memory, name), text_in(&s.memory, value));
            Ok(Some(helpers::setxattr(alloc, &mut s.object, name, value)?))
        }
    }
}

/// Helper 8, `rmxattr`: removes an xattr.
pub fn rmxattr(alloc: Global, s: &mut FlatState) -> Result<Option<u64>, NoMemory>
    ensures helped { IfOk result (λ o. Answers o (flat_state s.new)
        (helped (caps_in s.old) (layout_in s.old) Helper.RmXattr (flat_state s.old))) }
    ensures slot { s.new.slot ≡ s.old.slot }
    ensures machine { s.new.memory.machine ≡ s.old.memory.machine }
{
    match one_text(s) {
        None => Ok(None),
        Some(name) => {
            let name = text_in(&s.memory, name);
            Ok(Some(helpers::rmxattr(alloc, &mut s.object, name)?))
        }
    }
}

/// Helper 10, `map_set`: sets the value of a key.
pub fn map_set(alloc: Global, s: &mut FlatState) -> Result<Option<u64>, NoMemory>
    ensures helped { IfOk result (λ o. Answers o (flat_state s.new)
        (helped (caps_in s.old) (layout_in s.old) Helper.MapSet (flat_state s.old))) }
    ensures slot { s.new.slot ≡ s.old.slot }
    ensures machine { s.new.memory.machine ≡ s.old.memory.machine }
{
    match two_texts(s) {
        None => Ok(None),
        Some((key, value)) => {
            let (key, value) = (text_in(&s.memory, key), text_in(&s.memory, value));
            Ok(Some(helpers::map_set(alloc, &mut s.object, key, value)?))
        }
    }
}

/// Helper 11, `map_rm`: removes a key.
pub fn map_rm(alloc: Global, s: &mut FlatState) -> Result<Option<u64>, NoMemory>
    ensures helped { IfOk result
        (λ o. Answers o (flat_state s.new) (helped (caps_in s.old) (layout_in s.old) Helper.MapRm (flat_state s.old))) }
    ensures slot { s.new.slot ≡ s.old.slot }
    ensures machine { s.new.memory.machine ≡ s.old.memory.machine }
{
    match one_text(s) {
        None => Ok(None),
        Some(key) => {
            let key = text_in(&s.memory, key);
            Ok(Some(helpers::map_rm(alloc, &mut s.object, key)?))
        }
    }
}

/// Helper 14, `create`: creates an absent object.
pub fn create(alloc: Global, s: &mut FlatState) -> Result<Option<u64>, NoMemory>
    ensures helped { IfOk result (λ o. Answers o (flat_state s.new)
        (helped (caps_in s.old) (layout_in s.old) Helper.Create (flat_state s.old))) }
    ensures slot { s.new.slot ≡ s.old.slot }
    ensures machine { s.new.memory.machine ≡ s.old.memory.machine }
{
    match get(s, 1) {
        None => Ok(None),
        Some(exclusive) => Ok(Some(helpers::create(alloc, &mut s.object, exclusive)?)),
    }
}

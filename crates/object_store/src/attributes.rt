//! Values by name, in order: the form in which an object keeps its xattrs and its omap.

ghost use Rattle.std.specs.Prelude.{◌≡◌, OnOk, OnErr};
ghost use Rattle.std.specs.Option.{option_copied};
ghost use Rattle.std.specs.FinMap as fin;
ghost use Rattle.shared_map.specs.Entries.{nth, entry_behind};
ghost use Rattle.object_store.specs.Calls.{set_in, removed_in};
ghost use Rattle.object_store.specs.Returned.{Gives};

use crate::store_error::StoreError;
use crate::stored_bytes::StoredBytes;
use shared_map::SharedMap;
use std::alloc::{AllocError, Global};

/// Names and their values.
pub(crate) type Attributes = SharedMap<StoredBytes>;

/// The value of a name.
pub(crate) fn value_in<'a>(attributes: &'a Attributes, name: &[u8]) -> Option<&'a [u8]>
    ensures { option_copied result ≡ fin.get attributes.now name.now }
{
    match attributes.get(name) {
        Some(value) => Some(value.bytes()),
        None => None,
    }
}

/// The name at a place in the order of the names, from 0 on, and its value.
pub(crate) fn nth_in(attributes: &Attributes, n: usize) -> Option<(&[u8], &[u8])>
    ensures { entry_behind result ≡ nth attributes.now n }
{
    match attributes.nth(n) {
        Some((name, value)) => Some((name, value.bytes())),
        None => None,
    }
}

/// Sets the value of a name, unless there would be more than `most` names then.
pub(crate) fn set_in(
    alloc: Global,
    attributes: &mut Attributes,
    most: usize,
    name: &[u8],
    value: &[u8],
) -> Result<(), StoreError>
    ensures answer { Gives (λ _. attributes.new) result (set_in most attributes.old name.now value.now) }
    ensures err { OnErr result (attributes.new ≡ attributes.old) }
{
    // A name that is there may get a new value though no further name fits.
    if attributes.len() >= most && attributes.get(name).is_none() {
        return Err(StoreError::TooMany);
    }
    Ok(put_in(alloc, attributes, name, value)?)
}

/// Makes this the value of a name, in place of the one that it has.
fn put_in(
    alloc: Global,
    attributes: &mut Attributes,
    name: &[u8],
    value: &[u8],
) -> Result<(), AllocError>
    ensures ok { OnOk result (attributes.new ≡ fin.insert attributes.old name.now value.now) }
    ensures err { OnErr result (attributes.new ≡ attributes.old) }
{
    let value = StoredBytes::new(alloc, value)?;
    attributes.set(alloc, name, value)
}

/// Removes a name that has to be there.
pub(crate) fn remove_in(
    alloc: Global,
    attributes: &mut Attributes,
    name: &[u8],
) -> Result<(), StoreError>
    ensures answer { Gives (λ _. attributes.new) result (removed_in attributes.old name.now) }
    ensures err { OnErr result (attributes.new ≡ attributes.old) }
{
    if attributes.get(name).is_none() {
        return Err(StoreError::NoAttr);
    }
    Ok(attributes.remove(alloc, name)?)
}

//! Edits, made of an object; and lists of them as they are spelled.

ghost use Rattle.std.specs.Prelude.{◌≡◌, ◌⊎◌, List, IfErr, IfOk};
ghost use Rattle.object_store.specs.Object.{content_of};
ghost use Rattle.object_store.specs.Returned.{Gives};
ghost use Rattle.txn.specs.Edits as plain;
ghost use Rattle.txn.specs.Edits.{spelled};
ghost use Rattle.txn.specs.Made.{all_made};
ghost use Rattle.txn.specs.Staging.{edit_of};
ghost use Rattle.large_objects.specs.Large.{AreFormed, after, fits_data, set_refusal};

use crate::large_object::LargeObject;
use crate::limits::LARGE_LIMIT;
use edit_bytes::edit_at;
use interp::are_bytes;
use object_store::{NAME_LIMIT, StoreError, VALUE_LIMIT};
use std::alloc::Global;
use txn::Edit;

/// The refusal of a name and its value, if an object can't hold them.
fn set_refusal(name: &[u8], value: &[u8]) -> Option<StoreError>
    ensures { result ≡ set_refusal name.now value.now }
{
    if name.is_empty() || name.len() > NAME_LIMIT {
        return Some(StoreError::Range);
    }
    if value.len() > VALUE_LIMIT {
        return Some(StoreError::TooBig);
    }
    None
}

/// True if data may reach so far.
fn fits(at: u64, len: usize) -> bool
    ensures { result ≡ fits_data at len }
{
    at <= LARGE_LIMIT && len as u64 <= LARGE_LIMIT - at
}

/// The object that is there, or a new one.
fn created(alloc: Global, object: Option<LargeObject>) -> LargeObject
    ensures { result ≡ content_of object }
{
    match object {
        Some(object) => object,
        None => LargeObject::new(alloc),
    }
}

/// An object with an xattr set.
fn with_xattr(
    alloc: Global,
    object: Option<LargeObject>,
    name: &[u8],
    value: &[u8],
) -> Result<Option<LargeObject>, StoreError>
    ensures { Gives (λ o. o) result (after (plain.SetXattr name.now value.now) object) }
{
    if let Some(refusal) = set_refusal(name, value) {
        return Err(refusal);
    }
    // For the proof: they are bytes.
    are_bytes(name);
    are_bytes(value);
    let mut object = created(alloc, object);
    object.set_xattr(alloc, name, value)?;
    Ok(Some(object))
}

/// An object with a key set.
fn with_key(
    alloc: Global,
    object: Option<LargeObject>,
    key: &[u8],
    value: &[u8],
) -> Result<Option<LargeObject>, StoreError>
    ensures { Gives (λ o. o) result (after (plain.SetKey key.now value.now) object) }
{
    if let Some(refusal) = set_refusal(key, value) {
        return Err(refusal);
    }
    // For the proof: they are bytes.
    are_bytes(key);
    are_bytes(value);
    let mut object = created(alloc, object);
    object.set_key(alloc, key, value)?;
    Ok(Some(object))
}

/// An object without an xattr, if it is there.
fn without_xattr(
    alloc: Global,
    object: Option<LargeObject>,
    name: &[u8],
) -> Result<Option<LargeObject>, StoreError>
    ensures { Gives (λ o. o) result (after (plain.RemoveXattr name.now) object) }
{
    let Some(mut object) = object else {
        return Ok(None);
    };
    object.remove_xattr(alloc, name)?;
    Ok(Some(object))
}

/// An object without a key, if it is there.
fn without_key(
    alloc: Global,
    object: Option<LargeObject>,
    key: &[u8],
) -> Result<Option<LargeObject>, StoreError>
    ensures { Gives (λ o. o) result (after (plain.RemoveKey key.now) object) }
{
    let Some(mut object) = object else {
        return Ok(None);
    };
    object.remove_key(alloc, key)?;
    Ok(Some(object))
}

/// An object whose data is cut or extended, if it is there.
fn with_length(object: Option<LargeObject>, len: u64) -> Result<Option<LargeObject>, StoreError>
    ensures { Gives (λ o. o) result (after (plain.SetLength len) object) }
{
    if !fits(len, 0) {
        return Err(StoreError::TooBig);
    }
    let Some(mut object) = object else {
        return Ok(None);
    };
    object.set_length(len as usize)?;
    Ok(Some(object))
}

/// An object with text written at a place.
fn written(
    alloc: Global,
    object: Option<LargeObject>,
    at: u64,
    text: &[u8],
) -> Result<Option<LargeObject>, StoreError>
    ensures { Gives (λ o. o) result (after (plain.Write at text.now) object) }
{
    if !fits(at, text.len()) {
        return Err(StoreError::TooBig);
    }
    let mut object = created(alloc, object);
    object.write(at as usize, text)?;
    Ok(Some(object))
}

/// The object after an edit, which makes of any object what it says. Refused: 6 Range, a name that
/// has no byte or more than 64; 4 TooBig, data past `LARGE_LIMIT` or a value past 4,096; 7 NoMemory.
#[rattlefmt::skip]
pub fn make(
    alloc: Global,
    object: Option<LargeObject>,
    edit: Edit,
) -> Result<Option<LargeObject>, StoreError>
    ensures { Gives (λ o. o) result (after (edit_of edit.entry) object) }
{
    match edit {
        Edit::Create                => Ok(Some(created(alloc, object))),
        Edit::Remove                => Ok(None),
        Edit::SetXattr(name, value) => with_xattr(alloc, object, name, value),
        Edit::RemoveXattr(name)     => without_xattr(alloc, object, name),
        Edit::SetKey(key, value)    => with_key(alloc, object, key, value),
        Edit::RemoveKey(key)        => without_key(alloc, object, key),
        Edit::SetLength(len)        => with_length(object, len),
        Edit::Write(at, text)       => written(alloc, object, at, text),
    }
}

/// The object after a list of edits, as it is spelled. Refused: 7 NoMemory; and as `make`, or by 6
/// Range, what is no such list.
pub fn make_all(
    alloc: Global,
    object: Option<LargeObject>,
    edits: &[u8],
) -> Result<Option<LargeObject>, StoreError>
    ensures made { IfOk result (λ o. (list : List plain.Edit) → AreFormed list → spelled list ≡ edits.now →
        o ≡ all_made list object) }
    ensures refused { IfErr result (λ e. (e ≡ StoreError.NoMemory) ⊎
        ((list : List plain.Edit) → AreFormed list → spelled list ≡ edits.now → ⊥)) }
{
    let mut object = object;
    let mut rest = edits;
    while !rest.is_empty() {
        let Some((edit, behind)) = edit_at(rest) else {
            return Err(StoreError::Range);
        };
        object = match make(alloc, object, edit) {
            Ok(made) => made,
            Err(error) => return Err(error),
        };
        rest = behind;
    }
    Ok(object)
}

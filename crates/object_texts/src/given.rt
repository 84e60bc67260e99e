//! The object that a call begins with, as words spell it.
ghost use Rattle.std.specs.Prelude.{Result};
ghost use Rattle.object_store.specs.Object.{Content};
ghost use Rattle.object_store.specs.Returned.{Gives as Answered};
ghost use Rattle.object_store.specs.declared.store_error.StoreError.{StoreError as AStoreError};
ghost use Rattle.object_texts.specs.Given.{Gives, bytes_in, content_in, name_in, object_before, of_change, set_in};
ghost use Rattle.object_texts.specs.Given.{with_data, with_entries, with_words};

use crate::method_call::{MethodCall, SpelledEntry};
use hex::FromHexError;
use object_store::{Object, StoreError, calls};
use program_files::Failure;
use std::alloc::Global;

/// The part of an object that entries are set in.
#[derive(Clone, Copy)]
pub(crate) enum Part {
    Xattrs,
    Keys,
}

/// The bytes that pairs of hexadecimal digits stand for.
pub(crate) fn bytes_in(alloc: Global, text: &[u8]) -> Result<Vec<u8>, Failure>
    ensures { Gives (λ bytes. bytes.items) result (bytes_in text.now) }
{
    match hex::decode(alloc, text) {
        Ok(bytes) => Ok(bytes),
        Err(FromHexError::OutOfMemory) => Err(Failure::NoMemory),
        Err(_) => Err(Failure::ObjectNotHex),
    }
}

/// The bytes that a name stands for: after `0x` those of its digits, else its own.
pub(crate) fn name_in(alloc: Global, text: &[u8]) -> Result<Vec<u8>, Failure>
    ensures { Gives (λ bytes. bytes.items) result (name_in text.now) }
{
    match text {
        [b'0', b'x', digits @ ..] => bytes_in(alloc, digits),
        _ => Ok(Vec::from_slice(alloc, text)?),
    }
}

/// The changed object, or why the store refused the change.
fn changed(made: Result<Object, StoreError>) -> Result<Object, Failure>
    ensures { (answer : Result Content AStoreError) → Answered (λ o. o) made answer →
        Gives (λ o. o) result (of_change answer) }
{
    match made {
        Ok(object) => Ok(object),
        Err(StoreError::NoMemory) => Err(Failure::NoMemory),
        Err(error) => Err(Failure::Object(error)),
    }
}

/// An object with one xattr, or one key, set, as words spell it.
pub(crate) fn with_words(
    alloc: Global,
    part: Part,
    object: &Object,
    name: &str,
    value: &str,
) -> Result<Object, Failure>
    ensures { Gives (λ o. o) result (with_words part object.now name.now value.now) }
{
    let name = name_in(alloc, name.as_bytes())?;
    let value = bytes_in(alloc, value.as_bytes())?;
    set(alloc, part, object, &name, &value)
}

/// The same of bytes.
fn set(
    alloc: Global,
    part: Part,
    object: &Object,
    name: &[u8],
    value: &[u8],
) -> Result<Object, Failure>
    ensures { Gives (λ o. o) result (of_change (set_in part object.now name.now value.now)) }
{
    changed(match part {
        Part::Xattrs => calls::set_xattr(alloc, Some(object), name, value),
        Part::Keys => calls::set_key(alloc, Some(object), name, value),
    })
}

/// An object with several set, one after the other.
fn with_entries(
    alloc: Global,
    part: Part,
    object: Object,
    entries: &[SpelledEntry<'_>],
) -> Result<Object, Failure>
    ensures { Gives (λ o. o) result (with_entries part object entries.now) }
{
    let mut object = object;
    for entry in entries {
        object = with_words(alloc, part, &object, entry.name, entry.value)?;
    }
    Ok(object)
}

/// An object of that data.
pub(crate) fn with_data(alloc: Global, text: &str) -> Result<Object, Failure>
    ensures { Gives (λ o. o) result (with_data text.now) }
{
    let bytes = bytes_in(alloc, text.as_bytes())?;
    changed(calls::write(alloc, None, 0, &bytes))
}

/// An object of that data, those xattrs and those keys.
fn content_in(
    alloc: Global,
    text: &str,
    xattrs: &[SpelledEntry<'_>],
    keys: &[SpelledEntry<'_>],
) -> Result<Object, Failure>
    ensures { Gives (λ o. o) result (content_in text.now xattrs.now keys.now) }
{
    let object = with_data(alloc, text)?;
    let object = with_entries(alloc, Part::Xattrs, object, xattrs)?;
    with_entries(alloc, Part::Keys, object, keys)
}

/// The object before a call, or the first refusal: of its data, then of its xattrs, then of its
/// keys.
pub fn object_before(alloc: Global, asked: &MethodCall<'_>) -> Result<Option<Object>, Failure>
    ensures { Gives (λ o. o) result (object_before asked.now) }
{
    let text = match asked.data {
        Some(text) => text,
        None => {
            if asked.xattrs.is_empty() && asked.keys.is_empty() {
                return Ok(None);
            }
            ""
        }
    };
    match content_in(alloc, text, &asked.xattrs, &asked.keys) {
        Ok(object) => Ok(Some(object)),
        Err(failure) => Err(failure),
    }
}

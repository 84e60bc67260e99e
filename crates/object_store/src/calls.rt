//! The calls on one object, absent or there. A read takes no memory. A change leaves the given
//! object as it is and returns a new one, which shares all that the change doesn't touch.
ghost use Rattle.std.specs.Prelude.{◌≡◌, Result, IfOk, IfErr, Ok, Err, if◌then◌else◌, nat_lt, length};
ghost use Rattle.std.specs.Option.{option_copied};
ghost use Rattle.object_store.specs.Object.{Content, IsName, IsValue, content_of};
ghost use Rattle.object_store.specs.Calls as spec;
ghost use Rattle.object_store.specs.Returned.{Gives, behind};

use crate::held::Held;
use crate::limits::{NAME_LIMIT, VALUE_LIMIT};
use crate::object::Object;
use crate::slices::place_of;
use crate::store_error::StoreError;
use std::alloc::Global;

/// The length of the data in bytes. Refused: 1 Absent.
pub fn stat(object: Option<&Object>) -> Result<usize, StoreError>
    ensures { result ≡ spec.stat (option_copied object.entry) }
{
    Ok(there(object)?.len())
}

/// Copies the bytes from a place on into a buffer, until the data or the buffer ends, and returns
/// their number. Refused: 1 Absent; the buffer is then as it was.
pub fn read(object: Option<&Object>, at: u64, out: &mut [u8]) -> Result<usize, StoreError>
    ensures count { result ≡ spec.count (spec.read (option_copied object.entry) at (length out.old)) }
    ensures bytes { out.new ≡ spec.filled (spec.read (option_copied object.entry) at (length out.old)) out.old }
{
    Ok(there(object)?.read(at, out))
}

/// The value of an xattr. Refused: 6 Range, 1 Absent, 3 NoAttr.
pub fn get_xattr<'a>(object: Option<&'a Object>, name: &[u8]) -> Result<&'a [u8], StoreError>
    ensures { behind result ≡ spec.get_xattr (option_copied object.entry) name.now }
{
    named(object, name)?.xattr(name).ok_or(StoreError::NoAttr)
}

/// The value of a key of the omap. Refused: 6 Range, 1 Absent, 3 NoAttr.
pub fn get_key<'a>(object: Option<&'a Object>, key: &[u8]) -> Result<&'a [u8], StoreError>
    ensures { behind result ≡ spec.get_key (option_copied object.entry) key.now }
{
    named(object, key)?.key(key).ok_or(StoreError::NoAttr)
}

/// The least name of an xattr above these bytes, which may be none. Refused: 6 Range past
/// `NAME_LIMIT`, 1 Absent, 3 NoAttr.
pub fn next_xattr<'a>(object: Option<&'a Object>, name: &[u8]) -> Result<&'a [u8], StoreError>
    ensures { behind result ≡ spec.next_xattr (option_copied object.entry) name.now }
{
    short_named(object, name)?
        .xattr_above(name)
        .ok_or(StoreError::NoAttr)
}

/// The least key of the omap above these bytes, which may be none. Refused: 6 Range past
/// `NAME_LIMIT`, 1 Absent, 3 NoAttr.
pub fn next_key<'a>(object: Option<&'a Object>, key: &[u8]) -> Result<&'a [u8], StoreError>
    ensures { behind result ≡ spec.next_key (option_copied object.entry) key.now }
{
    short_named(object, key)?
        .key_above(key)
        .ok_or(StoreError::NoAttr)
}

/// Text written at a place; it creates an object that is absent. Zeros fill a gap, and no bytes
/// leave the data as it is. Refused: 4 TooBig, 7 NoMemory.
pub fn write(
    alloc: Global,
    object: Option<&Object>,
    at: u64,
    text: &[u8],
) -> Result<Object, StoreError>
    ensures { Gives (λ o. o) result (spec.write (option_copied object.entry) at text.now) }
{
    let Some(at) = place_of(at, text.len()) else {
        return Err(StoreError::TooBig);
    };
    let mut new = there_or_new(object)?;
    let done = new.write(alloc, at, text);
    finished(alloc, new, done)
}

/// The data cut, or extended with zeros. Refused: 4 TooBig, 1 Absent, 7 NoMemory.
pub fn truncate(alloc: Global, object: Option<&Object>, len: u64) -> Result<Object, StoreError>
    ensures { Gives (λ o. o) result (spec.truncate (option_copied object.entry) len) }
{
    // The length first: of two refusals the first of the definition is answered, TooBig.
    let Some(len) = place_of(len, 0) else {
        return Err(StoreError::TooBig);
    };
    let mut new = there(object)?.opened()?;
    let done = new.truncate(alloc, len);
    finished(alloc, new, done)
}

/// An xattr set; it creates an object that is absent. Refused: 6 Range, 4 TooBig, 5 TooMany, 7
/// NoMemory.
pub fn set_xattr(
    alloc: Global,
    object: Option<&Object>,
    name: &[u8],
    value: &[u8],
) -> Result<Object, StoreError>
    ensures { Gives (λ o. o) result (spec.set_xattr (option_copied object.entry) name.now value.now) }
{
    check_entry(name, value)?;
    let mut new = there_or_new(object)?;
    let done = new.set_xattr(alloc, name, value);
    finished(alloc, new, done)
}

/// A key of the omap set; it creates an object that is absent. Refused: 6 Range, 4 TooBig, 5
/// TooMany, 7 NoMemory.
pub fn set_key(
    alloc: Global,
    object: Option<&Object>,
    key: &[u8],
    value: &[u8],
) -> Result<Object, StoreError>
    ensures { Gives (λ o. o) result (spec.set_key (option_copied object.entry) key.now value.now) }
{
    check_entry(key, value)?;
    let mut new = there_or_new(object)?;
    let done = new.set_key(alloc, key, value);
    finished(alloc, new, done)
}

/// An xattr removed. Refused: 6 Range, 1 Absent, 3 NoAttr, 7 NoMemory.
pub fn remove_xattr(
    alloc: Global,
    object: Option<&Object>,
    name: &[u8],
) -> Result<Object, StoreError>
    ensures { Gives (λ o. o) result (spec.remove_xattr (option_copied object.entry) name.now) }
{
    let mut new = named(object, name)?.opened()?;
    let done = new.remove_xattr(alloc, name);
    finished(alloc, new, done)
}

/// A key of the omap removed. Refused: 6 Range, 1 Absent, 3 NoAttr, 7 NoMemory.
pub fn remove_key(alloc: Global, object: Option<&Object>, key: &[u8]) -> Result<Object, StoreError>
    ensures { Gives (λ o. o) result (spec.remove_key (option_copied object.entry) key.now) }
{
    let mut new = named(object, key)?.opened()?;
    let done = new.remove_key(alloc, key);
    finished(alloc, new, done)
}

/// An object without data, xattrs and keys if there is none; one that is there stays as it is.
/// Refused: 2 Exists, if it is there and the creation is exclusive, 7 NoMemory.
pub fn create(object: Option<&Object>, exclusive: bool) -> Result<Object, StoreError>
    ensures { Gives (λ o. o) result (spec.create (option_copied object.entry) exclusive) }
{
    match object {
        None => Ok(Object::new()),
        Some(object) => {
            if exclusive {
                return Err(StoreError::Exists);
            }
            object.copy()
        }
    }
}

/// Refuses to remove an object that is absent: 1 Absent.
pub fn remove(object: Option<&Object>) -> Result<(), StoreError>
    ensures { result ≡ spec.remove (option_copied object.entry) }
{
    there(object)?;
    Ok(())
}

/// The object. Refused: 1 Absent.
fn there(object: Option<&Object>) -> Result<&Object, StoreError>
    ensures { behind result ≡ spec.if_there (option_copied object.entry) (λ c. Ok c) }
{
    object.ok_or(StoreError::Absent)
}

/// The object, for a call that names an xattr or a key. Refused: 6 Range, 1 Absent.
fn named<'a>(object: Option<&'a Object>, name: &[u8]) -> Result<&'a Object, StoreError>
    ensures { behind result ≡ (if spec.is_named name.now then spec.if_there (option_copied object.entry) (λ c. Ok c)
        else Err StoreError.Range) }
{
    check_name(name)?;
    there(object)
}

/// The object, for a call that names bytes below an xattr or a key, which may be none. Refused: 6
/// Range, 1 Absent.
fn short_named<'a>(object: Option<&'a Object>, name: &[u8]) -> Result<&'a Object, StoreError>
    ensures { behind result ≡ (if nat_lt NAME_LIMIT (length name.now) then Err StoreError.Range
        else spec.if_there (option_copied object.entry) (λ c. Ok c)) }
{
    if name.len() > NAME_LIMIT {
        return Err(StoreError::Range);
    }
    there(object)
}

/// The content of the object, to be changed; an empty one if it is absent.
fn there_or_new(object: Option<&Object>) -> Result<Held, StoreError>
    ensures value { IfOk result (λ h. h ≡ content_of (option_copied object.entry)) }
    ensures refused { IfErr result (λ e. e ≡ StoreError.NoMemory) }
{
    match object {
        Some(object) => object.opened(),
        None => Ok(Held::new()),
    }
}

/// The object that a change made of the content that it was given. Refused: as the change was, or 7
/// NoMemory.
fn finished(alloc: Global, new: Held, done: Result<(), StoreError>) -> Result<Object, StoreError>
    ensures { (answer : Result Content StoreError) → Gives (λ _. new) done answer → Gives (λ o. o) result answer }
{
    done?;
    Ok(Object::of(alloc, new)?)
}

/// Refuses a name, and then a value, that no xattr and no key has: 6 Range, 4 TooBig.
fn check_entry(name: &[u8], value: &[u8]) -> Result<(), StoreError>
    ensures answer { result ≡ (if spec.is_named name.now then (if nat_lt VALUE_LIMIT (length value.now)
        then Err StoreError.TooBig else Ok tt) else Err StoreError.Range) }
    ensures name { IfOk result (λ _. IsName name.now) }
    ensures value { IfOk result (λ _. IsValue value.now) }
{
    // The name first: of two refusals it is the one that is answered.
    check_name(name)?;
    check_value(value)
}

/// Refuses a name of no bytes or of too many: 6 Range.
fn check_name(name: &[u8]) -> Result<(), StoreError>
    ensures answer { result ≡ (if spec.is_named name.now then Ok tt else Err StoreError.Range) }
    ensures name { IfOk result (λ _. IsName name.now) }
{
    if name.is_empty() || name.len() > NAME_LIMIT {
        return Err(StoreError::Range);
    }
    Ok(())
}

/// Refuses a value of too many bytes: 4 TooBig.
fn check_value(value: &[u8]) -> Result<(), StoreError>
    ensures answer { result ≡ (if nat_lt VALUE_LIMIT (length value.now) then Err StoreError.TooBig else Ok tt) }
    ensures value { IfOk result (λ _. IsValue value.now) }
{
    if value.len() > VALUE_LIMIT {
        return Err(StoreError::TooBig);
    }
    Ok(())
}

//! Reading a flat form: each field is cut from the front, and set in the object by its own calls. So
//! the bytes are read once, and copied once.

ghost use Rattle.std.specs.Prelude.{◌≡◌, [], Result};
ghost use Rattle.bpf_decode.specs.Reading.{Reads};
ghost use Rattle.object_store.specs.Object.{Content};
ghost use Rattle.object_store.specs.Returned as store;
ghost use Rattle.object_bytes.specs.Reading.{byte_at, number_at, bytes_at, entry_at, stored, set_in, rises, entries_at};
ghost use Rattle.object_bytes.specs.Reading.{part_at, data_at, content_at, object_at, Gives};

use crate::flat::FlatError;
use crate::part::Part;
use byteorder::{ByteOrder, LittleEndian};
use object_store::{Object, StoreError, calls};
use std::alloc::Global;

/// An entry.
#[derive(Clone, Copy)]
struct Entry<'a> {
    name: &'a [u8],
    value: &'a [u8],
}

fn byte_at(bytes: &[u8]) -> Result<(u8, &[u8]), FlatError>
    ensures { Reads (λ x. (x.0, x.1.now)) result (byte_at bytes.now) }
{
    match bytes {
        [] => Err(FlatError::Malformed),
        [byte, rest @ ..] => Ok((*byte, rest)),
    }
}

fn number_at_2(bytes: &[u8]) -> Result<(u16, &[u8]), FlatError>
    ensures { Reads (λ x. (x.0, x.1.now)) result (number_at 2 bytes.now) }
{
    if bytes.len() < 2 {
        return Err(FlatError::Malformed);
    }
    Ok((LittleEndian::read_u16(bytes), &bytes[2..]))
}

fn number_at_4(bytes: &[u8]) -> Result<(u32, &[u8]), FlatError>
    ensures { Reads (λ x. (x.0, x.1.now)) result (number_at 4 bytes.now) }
{
    if bytes.len() < 4 {
        return Err(FlatError::Malformed);
    }
    Ok((LittleEndian::read_u32(bytes), &bytes[4..]))
}

fn bytes_at(count: usize, bytes: &[u8]) -> Result<(&[u8], &[u8]), FlatError>
    ensures { Reads (λ x. (x.0.now, x.1.now)) result (bytes_at count bytes.now) }
{
    if bytes.len() < count {
        return Err(FlatError::Malformed);
    }
    Ok(bytes.split_at(count))
}

#[tactic(auto, unfolding(crate::specs::Reading::entry_at))]
fn entry_at(bytes: &[u8]) -> Result<(Entry, &[u8]), FlatError>
    ensures { Reads (λ x. ((x.0.name.now, x.0.value.now), x.1.now)) result (entry_at bytes.now) }
{
    let (count, rest) = byte_at(bytes)?;
    let (name, rest) = bytes_at(count as usize, rest)?;
    let (count, rest) = number_at_2(rest)?;
    let (value, rest) = bytes_at(count as usize, rest)?;
    Ok((Entry { name, value }, rest))
}

/// The result of a call on an object, as it is answered here.
fn stored(made: Result<Object, StoreError>) -> Result<Object, FlatError>
    ensures { (answer : Result Content StoreError) → store.Gives (λ o. o) made answer →
        Gives (λ o. o) result (stored answer) }
{
    match made {
        Ok(object) => Ok(object),
        Err(StoreError::NoMemory) => Err(FlatError::NoMemory),
        // A refusal by a limit: no object within the limits has these bytes as its flat form.
        Err(_) => Err(FlatError::Malformed),
    }
}

/// An object with an entry more.
fn set_in(alloc: Global, part: Part, object: &Object, entry: Entry) -> Result<Object, FlatError>
    ensures { Gives (λ o. o) result (set_in part object.now (entry.entry.name.now, entry.entry.value.now)) }
{
    match part {
        Part::Xattrs => stored(calls::set_xattr(alloc, Some(object), entry.name, entry.value)),
        Part::Keys => stored(calls::set_key(alloc, Some(object), entry.name, entry.value)),
    }
}

/// True if a name stands behind another, by their bytes.
fn rises(last: &[u8], name: &[u8]) -> bool
    ensures { result ≡ rises last.now name.now }
{
    last.cmp(name).is_lt()
}

/// An object with that many entries more, whose names rise, and the bytes after them.
fn entries_at<'a>(
    alloc: Global,
    part: Part,
    count: u16,
    object: Object,
    bytes: &'a [u8],
) -> Result<(Object, &'a [u8]), FlatError>
    ensures { Gives (λ x. (x.0, x.1.now)) result (entries_at part count [] object bytes.now) }
{
    let mut object = object;
    let mut rest = bytes;
    let mut last: &[u8] = &[];
    let mut left = count;
    while left > 0 {
        let (entry, behind) = entry_at(rest)?;
        // In another order, or twice, the names would give an object a second flat form.
        if !rises(last, entry.name) {
            return Err(FlatError::Malformed);
        }
        object = set_in(alloc, part, &object, entry)?;
        last = entry.name;
        rest = behind;
        left -= 1;
    }
    Ok((object, rest))
}

#[tactic(auto, unfolding(crate::specs::Reading::part_at))]
fn part_at<'a>(
    alloc: Global,
    part: Part,
    object: Object,
    bytes: &'a [u8],
) -> Result<(Object, &'a [u8]), FlatError>
    ensures { Gives (λ x. (x.0, x.1.now)) result (part_at part object bytes.now) }
{
    let (count, rest) = number_at_2(bytes)?;
    entries_at(alloc, part, count, object, rest)
}

#[tactic(auto, unfolding(crate::specs::Reading::data_at))]
fn data_at(alloc: Global, bytes: &[u8]) -> Result<(Object, &[u8]), FlatError>
    ensures { Gives (λ x. (x.0, x.1.now)) result (data_at bytes.now) }
{
    let (count, rest) = number_at_4(bytes)?;
    let (text, rest) = bytes_at(count as usize, rest)?;
    let object = stored(calls::write(alloc, None, 0, text))?;
    Ok((object, rest))
}

#[tactic(auto, unfolding(crate::specs::Reading::content_at))]
fn content_at(alloc: Global, bytes: &[u8]) -> Result<Object, FlatError>
    ensures { Gives (λ o. o) result (content_at bytes.now) }
{
    let (object, rest) = data_at(alloc, bytes)?;
    let (object, rest) = part_at(alloc, Part::Xattrs, object, rest)?;
    let (object, rest) = part_at(alloc, Part::Keys, object, rest)?;
    if !rest.is_empty() {
        return Err(FlatError::Malformed);
    }
    Ok(object)
}

/// The object of bytes that are its flat form.
#[tactic(auto, unfolding(crate::specs::Reading::object_at))]
pub(crate) fn object_at(alloc: Global, bytes: &[u8]) -> Result<Option<Object>, FlatError>
    ensures { Gives (λ o. o) result (object_at bytes.now) }
{
    let (there, rest) = byte_at(bytes)?;
    if there == 0 {
        if !rest.is_empty() {
            return Err(FlatError::Malformed);
        }
        return Ok(None);
    }
    // 0 and 1 alone are spelled: any other byte would give an object a second flat form.
    if there != 1 {
        return Err(FlatError::Malformed);
    }
    Ok(Some(content_at(alloc, rest)?))
}

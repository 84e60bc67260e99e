//! The one spelling of an object.

ghost use Rattle.std.specs.Prelude.{◌≡◌, ◌++◌, ◌∷◌, [], ◌<◌, ◌≤◌, IfOk, OnOk, length};
ghost use Rattle.std.specs.Option.{option_copied};
ghost use Rattle.std.specs.List.{flat_map};
ghost use Rattle.std.specs.FinMap as fin;
ghost use Rattle.byteorder.specs.Endian.{little_bytes};
ghost use Rattle.object_bytes.specs.Part.{names};
ghost use Rattle.object_bytes.specs.Flat.{content_bytes, entries_bytes, entry_bytes, name_bytes, value_bytes, flat};

use crate::part::{Part, count_of, entry_of};
use byteorder::{ByteOrder, LittleEndian};
use object_store::Object;
use std::alloc::{AllocError, Global};

pub(crate) fn put_byte(out: &mut Vec<u8>, byte: u8) -> Result<(), AllocError>
    ensures { OnOk result (out.new.items ≡ out.old.items ++ byte ∷ []) }
{
    Ok(out.push(byte)?)
}

pub(crate) fn put_u16(out: &mut Vec<u8>, number: u16) -> Result<(), AllocError>
    ensures { OnOk result (out.new.items ≡ out.old.items ++ little_bytes 2 number) }
{
    let mut bytes = [0; 2];
    LittleEndian::write_u16(&mut bytes, number);
    out.extend_from_slice(&bytes)
}

pub(crate) fn put_u32(out: &mut Vec<u8>, number: u32) -> Result<(), AllocError>
    ensures { OnOk result (out.new.items ≡ out.old.items ++ little_bytes 4 number) }
{
    let mut bytes = [0; 4];
    LittleEndian::write_u32(&mut bytes, number);
    out.extend_from_slice(&bytes)
}

/// A name after its length.
pub(crate) fn put_name(out: &mut Vec<u8>, name: &[u8]) -> Result<(), AllocError>
    requires { length name.now < 256 }
    ensures { OnOk result (out.new.items ≡ out.old.items ++ name_bytes name.now) }
{
    put_byte(out, name.len() as u8)?;
    out.extend_from_slice(name)
}

/// A value after its length.
pub(crate) fn put_value(out: &mut Vec<u8>, value: &[u8]) -> Result<(), AllocError>
    requires { length value.now < 65536 }
    ensures { OnOk result (out.new.items ≡ out.old.items ++ value_bytes value.now) }
{
    put_u16(out, value.len() as u16)?;
    out.extend_from_slice(value)
}

/// An entry.
fn put_entry(out: &mut Vec<u8>, name: &[u8], value: &[u8]) -> Result<(), AllocError>
    requires name { length name.now < 256 }
    requires value { length value.now < 65536 }
    ensures { OnOk result (out.new.items ≡ out.old.items ++ entry_bytes (name.now, value.now)) }
{
    put_name(out, name)?;
    put_value(out, value)
}

/// The entries of a part, one after the other.
fn entry_bytes_of(alloc: Global, part: Part, object: &Object) -> Result<Vec<u8>, AllocError>
    ensures { IfOk result (λ bytes. bytes.items ≡ flat_map entry_bytes (fin.entries (names part object.now))) }
{
    let mut out = Vec::new(alloc);
    for n in 0..count_of(part, object) {
        if let Some((name, value)) = entry_of(part, object, n) {
            put_entry(&mut out, name, value)?;
        }
    }
    Ok(out)
}

/// The entries of a part after their count.
fn put_entries(
    alloc: Global,
    out: &mut Vec<u8>,
    part: Part,
    object: &Object,
) -> Result<(), AllocError>
    ensures { OnOk result (out.new.items ≡ out.old.items ++ entries_bytes (names part object.now)) }
{
    let entries = entry_bytes_of(alloc, part, object)?;
    put_u16(out, count_of(part, object) as u16)?;
    out.extend_from_slice(&entries)
}

/// The bytes of an object's data.
pub(crate) fn data_bytes(alloc: Global, object: &Object) -> Result<Vec<u8>, AllocError>
    ensures { IfOk result (λ bytes. bytes.items ≡ object.now.bytes) }
{
    let mut bytes = vec![in alloc; 0; object.len()]?;
    object.read(0, &mut bytes);
    Ok(bytes)
}

fn put_content(alloc: Global, out: &mut Vec<u8>, object: &Object) -> Result<(), AllocError>
    ensures { OnOk result (out.new.items ≡ out.old.items ++ content_bytes object.now) }
{
    let text = data_bytes(alloc, object)?;
    put_u32(out, object.len() as u32)?;
    out.extend_from_slice(&text)?;
    put_entries(alloc, out, Part::Xattrs, object)?;
    put_entries(alloc, out, Part::Keys, object)
}

/// The flat form of an object, absent or there.
pub fn flat_form(alloc: Global, object: Option<&Object>) -> Result<Vec<u8>, AllocError>
    ensures { IfOk result (λ bytes. bytes.items ≡ flat (option_copied object.entry)) }
{
    let mut out = Vec::new(alloc);
    match object {
        None => put_byte(&mut out, 0)?,
        Some(object) => {
            put_byte(&mut out, 1)?;
            put_content(alloc, &mut out, object)?;
        }
    }
    Ok(out)
}

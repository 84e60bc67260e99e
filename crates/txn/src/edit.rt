ghost use Rattle.std.specs.Prelude.{◌≡◌, ◌++◌, ◌∷◌, [], ◌<◌, ◌^◌, OnOk, length};
ghost use Rattle.byteorder.specs.Endian.{little_bytes};
ghost use Rattle.txn.specs.Edits.{edit_bytes, counted_bytes, placed_bytes, text_bytes};
ghost use Rattle.txn.specs.Staging.{edit_of, IsShort};

use byteorder::{ByteOrder, LittleEndian};
use std::alloc::AllocError;

/// An edit of an object, as a list of edits has it.
#[derive(Clone, Copy)]
pub enum Edit<'a> {
    Create,
    Remove,
    SetXattr(&'a [u8], &'a [u8]),
    RemoveXattr(&'a [u8]),
    SetKey(&'a [u8], &'a [u8]),
    RemoveKey(&'a [u8]),
    SetLength(u64),
    Write(u64, &'a [u8]),
}

/// Appends an edit: its number and its fields, little-endian.
#[rattlefmt::skip]
pub(crate) fn put_edit(out: &mut Vec<u8>, edit: Edit) -> Result<(), AllocError>
    requires { IsShort edit }
    ensures { OnOk result (out.new.items ≡ out.old.items ++ edit_bytes (edit_of edit.entry)) }
{
    match edit {
        Edit::Create                => put_byte(out, 1),
        Edit::Remove                => put_byte(out, 2),
        Edit::SetXattr(name, value) => put_pair(out, 3, name, value),
        Edit::RemoveXattr(name)     => put_named(out, 4, name),
        Edit::SetKey(key, value)    => put_pair(out, 5, key, value),
        Edit::RemoveKey(key)        => put_named(out, 6, key),
        Edit::SetLength(len)        => put_len(out, len),
        Edit::Write(at, text)       => put_write(out, at, text),
    }
}

fn put_byte(out: &mut Vec<u8>, byte: u8) -> Result<(), AllocError>
    ensures { OnOk result (out.new.items ≡ out.old.items ++ byte ∷ []) }
{
    Ok(out.push(byte)?)
}

fn put_u64(out: &mut Vec<u8>, number: u64) -> Result<(), AllocError>
    ensures { OnOk result (out.new.items ≡ out.old.items ++ little_bytes 8 number) }
{
    let mut bytes = [0; 8];
    LittleEndian::write_u64(&mut bytes, number);
    out.extend_from_slice(&bytes)
}

/// A name or a value, after its length.
fn put_text(out: &mut Vec<u8>, text: &[u8]) -> Result<(), AllocError>
    requires { length text.now < 2 ^ 16 }
    ensures { OnOk result (out.new.items ≡ out.old.items ++ text_bytes text.now) }
{
    let mut len = [0; 2];
    LittleEndian::write_u16(&mut len, text.len() as u16);
    out.extend_from_slice(&len)?;
    out.extend_from_slice(text)
}

fn put_named(out: &mut Vec<u8>, number: u8, name: &[u8]) -> Result<(), AllocError>
    requires { length name.now < 2 ^ 16 }
    ensures { OnOk result (out.new.items ≡ out.old.items ++ number ∷ text_bytes name.now) }
{
    put_byte(out, number)?;
    put_text(out, name)
}

fn put_pair(out: &mut Vec<u8>, number: u8, name: &[u8], value: &[u8]) -> Result<(), AllocError>
    requires name { length name.now < 2 ^ 16 }
    requires value { length value.now < 2 ^ 16 }
    ensures { OnOk result (out.new.items ≡ out.old.items ++ number ∷ text_bytes name.now ++ text_bytes value.now) }
{
    put_named(out, number, name)?;
    put_text(out, value)
}

fn put_len(out: &mut Vec<u8>, len: u64) -> Result<(), AllocError>
    ensures { OnOk result (out.new.items ≡ out.old.items ++ 7 ∷ little_bytes 8 len) }
{
    put_byte(out, 7)?;
    put_u64(out, len)
}

fn put_write(out: &mut Vec<u8>, at: u64, text: &[u8]) -> Result<(), AllocError>
    requires { length text.now < 2 ^ 32 }
    ensures { OnOk result (out.new.items ≡ out.old.items ++ 8 ∷ placed_bytes at text.now) }
{
    put_byte(out, 8)?;
    put_placed(out, at, text)
}

/// Bytes after their place and their count.
fn put_placed(out: &mut Vec<u8>, at: u64, text: &[u8]) -> Result<(), AllocError>
    requires { length text.now < 2 ^ 32 }
    ensures { OnOk result (out.new.items ≡ out.old.items ++ placed_bytes at text.now) }
{
    put_u64(out, at)?;
    put_counted(out, text)
}

/// Bytes after their count.
fn put_counted(out: &mut Vec<u8>, text: &[u8]) -> Result<(), AllocError>
    requires { length text.now < 2 ^ 32 }
    ensures { OnOk result (out.new.items ≡ out.old.items ++ counted_bytes text.now) }
{
    let mut len = [0; 4];
    LittleEndian::write_u32(&mut len, text.len() as u32);
    out.extend_from_slice(&len)?;
    out.extend_from_slice(text)
}

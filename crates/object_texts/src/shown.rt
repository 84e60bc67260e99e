//! Prints all that an object holds.
ghost use Rattle.std.specs.Prelude.{◌≡◌, ◌++◌, ◌==◌, ◌&&◌, IfOk, OnOk, not, slice_index, string_bytes, codes};
ghost use Rattle.std.specs.List.{flat_map, list_any};
ghost use Rattle.std.specs.FinMap as fin;
ghost use Rattle.std.specs.Option.{option_copied};
ghost use Rattle.hex.specs.Hex.{encode_lower};
ghost use Rattle.object_texts.specs.Shown.{content_text, data_line, entry_line, is_printable, is_text, name_text};
ghost use Rattle.object_texts.specs.Shown.{named_text, objects_text, or_dash, shown_text, sizes_text};

use object_store::{Object, Objects};
use std::alloc::{AllocError, Global};

/// Adds bytes in hexadecimal, or `-` if there are none.
pub(crate) fn push_bytes(alloc: Global, out: &mut String, bytes: &[u8]) -> Result<(), AllocError>
    ensures { OnOk result (string_bytes out.new ≡ string_bytes out.old ++ or_dash (encode_lower bytes.now)) }
{
    let digits = hex::encode(alloc, bytes)?;
    if digits.is_empty() {
        out.push_str("-")
    } else {
        out.push_str(&digits)
    }
}

/// A letter, a digit or a sign of ASCII other than `=`.
fn is_printable(b: u8) -> bool
    ensures { result ≡ is_printable b }
{
    33 <= b && b <= 126 && b != b'='
}

/// True if a byte among them isn't printable.
fn has_other(name: &[u8]) -> bool
    ensures { result ≡ list_any (λ b. not (is_printable b)) name.now }
{
    for b in name {
        if !is_printable(*b) {
            return true;
        }
    }
    false
}

/// True if a name begins as one in hexadecimal does.
fn begins_as_hex(name: &[u8]) -> bool
    ensures { result ≡ (slice_index name.now 0 == 48 && slice_index name.now 1 == 120) }
{
    match name {
        [b'0', b'x', ..] => true,
        _ => false,
    }
}

/// True if a name is printed as text.
fn is_text(name: &[u8]) -> bool
    ensures { result ≡ is_text name.now }
{
    !begins_as_hex(name) && !has_other(name)
}

/// Adds a name in hexadecimal after `0x`.
fn push_digits(alloc: Global, out: &mut String, name: &[u8]) -> Result<(), AllocError>
    ensures { OnOk result (string_bytes out.new ≡ string_bytes out.old ++ codes "0x" ++ encode_lower name.now) }
{
    let digits = hex::encode(alloc, name)?;
    out.push_str("0x")?;
    out.push_str(&digits)
}

/// Adds a name: as text, or in hexadecimal after `0x`.
#[tactic(auto, using(crate::proofs::Printable::text_is_utf8))]
fn push_name(alloc: Global, out: &mut String, name: &[u8]) -> Result<(), AllocError>
    ensures { OnOk result (string_bytes out.new ≡ string_bytes out.old ++ name_text name.now) }
{
    if !is_text(name) {
        return push_digits(alloc, out, name);
    }
    match str::from_utf8(name) {
        Ok(text) => out.push_str(text),
        Err(_) => unreachable!(),
    }
}

/// Adds the line of a name and its value.
pub(crate) fn push_entry(
    alloc: Global,
    out: &mut String,
    word: &str,
    name: &[u8],
    value: &[u8],
) -> Result<(), AllocError>
    ensures { OnOk result (string_bytes out.new ≡ string_bytes out.old ++ entry_line word.now (name.now, value.now)) }
{
    out.push_str(word)?;
    push_name(alloc, out, name)?;
    out.push_str(" ")?;
    push_bytes(alloc, out, value)?;
    out.push_str("\n")
}

/// The bytes of an object's data.
fn bytes_of(alloc: Global, object: &Object) -> Result<Vec<u8>, AllocError>
    ensures { IfOk result (λ bytes. bytes.items ≡ object.now.bytes) }
{
    let mut bytes = vec![in alloc; 0; object.len()]?;
    object.read(0, &mut bytes);
    Ok(bytes)
}

/// The line of an object's data.
fn data_line(alloc: Global, object: &Object) -> Result<String, AllocError>
    ensures { IfOk result (λ text. string_bytes text ≡ data_line object.now.bytes) }
{
    let bytes = bytes_of(alloc, object)?;
    let mut text = String::from_str(alloc, "data ")?;
    push_bytes(alloc, &mut text, &bytes)?;
    text.push_str("\n")?;
    Ok(text)
}

/// The lines of an object's xattrs.
fn xattr_lines(alloc: Global, object: &Object) -> Result<String, AllocError>
    ensures { IfOk result (λ text. string_bytes text ≡
        flat_map (entry_line (codes "xattr ")) (fin.entries object.now.xattrs)) }
{
    let mut text = String::new(alloc);
    for n in 0..object.xattr_count() {
        if let Some((name, value)) = object.xattr_at(n) {
            push_entry(alloc, &mut text, "xattr ", name, value)?;
        }
    }
    Ok(text)
}

/// The lines of an object's keys.
fn key_lines(alloc: Global, object: &Object) -> Result<String, AllocError>
    ensures { IfOk result (λ text. string_bytes text ≡
        flat_map (entry_line (codes "key ")) (fin.entries object.now.omap)) }
{
    let mut text = String::new(alloc);
    for n in 0..object.key_count() {
        if let Some((name, value)) = object.key_at(n) {
            push_entry(alloc, &mut text, "key ", name, value)?;
        }
    }
    Ok(text)
}

/// The lines of all that an object holds.
fn content_text(alloc: Global, object: &Object) -> Result<String, AllocError>
    ensures { IfOk result (λ text. string_bytes text ≡ content_text object.now) }
{
    let mut text = data_line(alloc, object)?;
    text.push_str(&xattr_lines(alloc, object)?)?;
    text.push_str(&key_lines(alloc, object)?)?;
    Ok(text)
}

/// The lines that show an object, if they are asked for.
pub fn shown_text(
    alloc: Global,
    is_shown: bool,
    object: Option<&Object>,
) -> Result<String, AllocError>
    ensures { IfOk result (λ text. string_bytes text ≡ shown_text is_shown (option_copied object.entry)) }
{
    match object {
        Some(object) if is_shown => content_text(alloc, object),
        _ => Ok(String::new(alloc)),
    }
}

/// The numbers of an object's bytes, xattrs and keys, at the end of a line.
fn sizes_text(alloc: Global, object: &Object) -> Result<String, AllocError>
    ensures { IfOk result (λ text. string_bytes text ≡ sizes_text object.now) }
{
    let (bytes, xattrs, keys) = (object.len(), object.xattr_count(), object.key_count());
    format!(in alloc; " {bytes} {xattrs} {keys}\n")
}

/// Adds an object by its name: the line that names it, and the lines of all that it holds.
fn push_named(
    alloc: Global,
    out: &mut String,
    name: &[u8],
    object: &Object,
) -> Result<(), AllocError>
    ensures { OnOk result (string_bytes out.new ≡ string_bytes out.old ++ named_text (name.now, object.now)) }
{
    out.push_str("object ")?;
    push_name(alloc, out, name)?;
    out.push_str(&sizes_text(alloc, object)?)?;
    out.push_str(&content_text(alloc, object)?)
}

/// The lines of objects, in the order of their names' bytes: of each `object NAME D X K`, with its
/// numbers of bytes, xattrs and keys, and then the lines that show it.
pub fn objects_text(alloc: Global, objects: &Objects) -> Result<String, AllocError>
    ensures { IfOk result (λ text. string_bytes text ≡ objects_text objects.now) }
{
    let mut text = String::new(alloc);
    for n in 0..objects.len() {
        if let Some((name, object)) = objects.nth(n) {
            push_named(alloc, &mut text, name, object)?;
        }
    }
    Ok(text)
}

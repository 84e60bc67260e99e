//! What is wrong with an image, or with raw code.

ghost use Rattle.std.specs.Prelude.{◌≡◌, IfSome, length};

use crate::quoted::push_about;
use bpf_decode::{DecodeError, ImageError};
use std::alloc::{AllocError, Global};

/// What is wanted of a file that is read as an image.
const WANTED: &str =
    "  wanted: an image, which begins with RCL1, RCL2 or RCL3, or a class's text in UTF-8\n  see docs/IMAGE.md\n";

/// What is wrong, in a sentence; nothing if memory was refused.
#[rattlefmt::skip]
fn sentence(error: DecodeError) -> &'static str {
    match error {
        DecodeError::Truncated => "  it ends within a field: it was cut, or is none; code has 8 bytes a slot\n",
        DecodeError::Magic =>
            "  its first bytes aren't RCL1, RCL2 or RCL3, or the two after the count of methods aren't zero\n",
        DecodeError::Opcode(_) => "  no operation of the language has this first byte\n",
        DecodeError::Register(_) =>
            "  registers are r0 to r10: the second byte has dst in its low four bits, src in its high four\n",
        DecodeError::NonzeroField(_) =>
            "  a field that the operation doesn't use isn't zero, or its src, offset or imm selects no operation\n",
        DecodeError::WideHalf(_) =>
            "  a wide load has a second slot, in which all but the number's high half is zero\n",
        DecodeError::Name => "  a method's name has 1 to 64 of a-z, 0-9 and _\n",
        DecodeError::Order => "  methods stand in the order of their names, each once\n",
        DecodeError::Flags => "  flags are 1 (r), 2 (w) or 3 (rw)\n",
        DecodeError::Limit =>
            "  1 to 32 methods of 1 to 4096 slots; IN, OUT to 4096, by rule set 3 65535; 64 heads, budget to 1048576\n",
        DecodeError::Trailing => "  bytes follow the last method\n",
        DecodeError::NoMemory => "",
        DecodeError::Head(_) =>
            "  heads rise by slot, each at an instruction; places rise, 0 to 9 and 11 to 74, of kinds 0 to 6\n",
    }
}

/// What is left out of BPF, by an operation's first byte.
fn left_out(opcode: u8) -> Option<&'static str> {
    match opcode {
        0xc3 | 0xdb => Some("atomics aren't taken"),
        0x8d => Some("calls of a register aren't taken"),
        0x20 | 0x28 | 0x30 | 0x40 | 0x48 | 0x50 => Some("loads from a packet aren't taken"),
        _ => None,
    }
}

/// Two bytes at a place, as a number.
fn number_at(image: &[u8], at: usize) -> Option<usize> {
    let low = *image.get(at)?;
    let high = *image.get(at.checked_add(1)?)?;
    Some(usize::from(low) + 256 * usize::from(high))
}

/// The place of the code of the method at a place: its name has a byte for its length, and flags,
/// IN, OUT and the number of slots follow it.
fn code_of(image: &[u8], method: usize) -> Option<usize> {
    let name = usize::from(*image.get(method)?);
    method.checked_add(name)?.checked_add(8)
}

/// The place behind the head at a place.
fn behind_head(image: &[u8], at: usize) -> Option<usize> {
    let places = *image.get(at.checked_add(2)?)?;
    let mut end = at.checked_add(3)?;
    for _ in 0..places {
        let kind = *image.get(end.checked_add(1)?)?;
        // The kinds from 2 on have two bounds of eight bytes.
        let length = if kind < 2 { 2 } else { 18 };
        end = end.checked_add(length)?;
    }
    Some(end)
}

/// The place behind the loops at a place: their number, and if there are some a budget and the
/// heads.
fn behind_loops(image: &[u8], at: usize) -> Option<usize> {
    let heads = number_at(image, at)?;
    let length = if heads == 0 { 2 } else { 6 };
    let mut end = at.checked_add(length)?;
    for _ in 0..heads {
        end = behind_head(image, end)?;
    }
    Some(end)
}

/// The place behind the method at a place. By rule set 3 its loops are its last field.
fn behind(image: &[u8], method: usize) -> Option<usize> {
    let code = code_of(image, method)?;
    let slots = number_at(image, code.checked_sub(2)?)?;
    let end = code.checked_add(slots.checked_mul(8)?)?;
    match image {
        [_, _, _, b'3', ..] => behind_loops(image, end),
        _ => Some(end),
    }
}

/// The place of a method in an image, behind so many others.
fn place_of(image: &[u8], methods: usize) -> Option<usize> {
    // The magic number, the count of methods, and two zeros.
    let mut at = 8_usize;
    for _ in 0..methods.min(32) {
        at = behind(image, at)?;
    }
    Some(at)
}

/// The eight bytes of a slot of the code at a place.
fn slot_of(image: &[u8], code: usize, slot: usize) -> Option<&[u8]>
    ensures { IfSome result (λ s. length s.now ≡ 8) }
{
    let at = code.checked_add(slot.checked_mul(8)?)?;
    image.get(at..at.checked_add(8)?)
}

/// Adds bytes, in hexadecimal.
fn push_bytes(out: &mut String, bytes: &[u8]) -> Result<(), AllocError> {
    for byte in bytes {
        write!(out, " {byte:02x}")?;
    }
    Ok(())
}

/// Adds the fields of a slot, and what was left out of BPF, if it is that.
fn push_fields(out: &mut String, error: DecodeError, bytes: &[u8]) -> Result<(), AllocError> {
    match (error, bytes) {
        (DecodeError::Opcode(_), [opcode, ..]) => match left_out(*opcode) {
            Some(what) => write!(out, ": {what}"),
            None => write!(out, ": opcode {opcode:02x}"),
        },
        (_, [_, registers, ..]) => {
            let (dst, src) = (registers % 16, registers / 16);
            write!(out, ": dst {dst}, src {src}")
        }
        _ => Ok(()),
    }
}

/// Adds a refused slot, its place in the image, and its bytes.
fn push_slot(
    out: &mut String,
    error: &ImageError,
    slot: usize,
    image: &[u8],
    method: usize,
) -> Result<(), AllocError> {
    let Some(code) = code_of(image, method) else {
        return Ok(());
    };
    let Some(bytes) = slot_of(image, code, slot) else {
        return Ok(());
    };
    let at = code.saturating_add(slot.saturating_mul(8));
    write!(out, "  method {} slot {slot}, at byte {at}:", error.methods)?;
    push_bytes(out, bytes)?;
    push_fields(out, error.error, bytes)?;
    out.push_str("\n")
}

/// Adds the fields of a method before its code, as far as the image has them.
fn push_head(out: &mut String, number: usize, image: &[u8], at: usize) -> Result<(), AllocError> {
    write!(out, "  method {number}, at byte {at}")?;
    let length = image.get(at).copied().unwrap_or(0);
    let fields = at.saturating_add(usize::from(length)).saturating_add(1);
    if let Some(name) = image.get(at.saturating_add(1)..fields) {
        match str::from_utf8(name) {
            Ok(name) => push_about(out, ": `", name, "`")?,
            Err(_) => out.push_str(": no text as its name")?,
        }
        write!(out, " of {length} bytes")?;
    }
    push_numbers(out, image, fields)?;
    out.push_str("\n")
}

/// Adds the numbers of a method, from its flags on, as far as the image has them.
fn push_numbers(out: &mut String, image: &[u8], at: usize) -> Result<(), AllocError> {
    if let Some(flags) = image.get(at) {
        write!(out, ", flags {flags}")?;
    }
    for (name, after) in [("IN", 1_usize), ("OUT", 3), ("slots", 5)] {
        if let Some(number) = number_at(image, at.saturating_add(after)) {
            write!(out, ", {name} {number}")?;
        }
    }
    Ok(())
}

/// Adds the number of bytes, and the head of an image.
fn push_size(out: &mut String, image: &[u8]) -> Result<(), AllocError> {
    write!(out, "  {} bytes, the first:", image.len())?;
    push_bytes(out, &image[..image.len().min(8)])?;
    out.push_str("\n")
}

/// Adds where an image is wrong: its bytes, the method's fields, or its slot.
fn push_where(out: &mut String, error: &ImageError, image: &[u8]) -> Result<(), AllocError> {
    if let DecodeError::Head(slot) = error.error {
        return write!(out, "  method {}, the head at slot {slot}\n", error.methods);
    }
    match (place_of(image, error.methods), error.error.slot()) {
        (Some(at), Some(slot)) => push_slot(out, error, slot, image, at),
        (Some(at), None) => {
            push_size(out, image)?;
            if at < image.len() && !is_of_class(error.error) {
                return push_head(out, error.methods, image, at);
            }
            write!(out, "  {} methods end at byte {at}\n", error.methods)
        }
        (None, _) => push_size(out, image),
    }
}

/// True if a refusal is of the image's first fields or its end, and of no method.
fn is_of_class(error: DecodeError) -> bool {
    match error {
        DecodeError::Magic | DecodeError::Trailing => true,
        _ => false,
    }
}

/// The note on bytes that are no image, which has where they are wrong; nothing if memory was
/// refused.
pub fn image_text(alloc: Global, error: &ImageError, image: &[u8]) -> Result<String, AllocError> {
    let mut out = String::new(alloc);
    if let DecodeError::NoMemory = error.error {
        return Ok(out);
    }
    push_where(&mut out, error, image)?;
    out.push_str(sentence(error.error))?;
    out.push_str(WANTED)?;
    Ok(out)
}

/// A method that is packed: its name, the file of its raw code, and its capacities.
#[derive(Clone, Copy)]
pub struct PackedMethod<'a> {
    pub name: &'a str,
    pub file: &'a str,
    pub in_cap: u16,
    pub out_cap: u16,
}

/// The note on raw code that is no method's, or on methods that are no class's: which method, its
/// capacities and file, and what is wrong.
pub fn packed_text(
    alloc: Global,
    error: &ImageError,
    method: Option<PackedMethod<'_>>,
) -> Result<String, AllocError> {
    let mut out = String::new(alloc);
    if let Some(packed) = method {
        push_about(&mut out, "  method ", packed.name, ", ")?;
        write!(out, "IN {}, OUT {}, ", packed.in_cap, packed.out_cap)?;
        push_about(&mut out, "", packed.file, "\n")?;
    }
    out.push_str(sentence(error.error))?;
    Ok(out)
}

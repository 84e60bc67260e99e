//! How values and bytes are written.

use crate::paired::{Both, Paired};
use bpf_decode::Region;
use bpf_machine::STACK_SIZE;
use flat_machine::FlatState;
use std::alloc::AllocError;

/// Of a longer range as many bytes are written, and then the count of all.
const SHOWN_BYTES: u64 = 64;

/// Adds a number as a signed one, and in hexadecimal if that differs.
fn push_number(out: &mut String, number: u64) -> Result<(), AllocError> {
    write!(out, "{}", number.cast_signed())?;
    if number >= 10 {
        write!(out, " (0x{number:x})")?;
    }
    Ok(())
}

/// Adds a place: its region, and the distance from the region's first byte, of the stack from its
/// end.
fn push_place(out: &mut String, region: Region, at: u64) -> Result<(), AllocError> {
    let (name, distance) = match region {
        Region::Input => ("input", at),
        Region::Output => ("output", at),
        Region::Stack => ("stack", at.wrapping_sub(STACK_SIZE as u64)),
    };
    if distance < 1 << 63 {
        write!(out, "{name} + {distance}")
    } else {
        write!(out, "{name} - {}", distance.wrapping_neg())
    }
}

/// Adds a value: a number or a place.
pub(crate) fn push_value(
    out: &mut String,
    states: Paired<'_, '_>,
    value: Both,
) -> Result<(), AllocError> {
    match states.place(value) {
        Some((region, at)) => push_place(out, region, at),
        None => push_number(out, value.first),
    }
}

/// Adds the bytes from an address on; `-` if there are none.
pub(crate) fn push_bytes(
    out: &mut String,
    state: &FlatState<'_>,
    at: u64,
    count: u64,
) -> Result<(), AllocError> {
    if count == 0 {
        return out.push_str("-");
    }
    for n in 0..count.min(SHOWN_BYTES) {
        if let Some(byte) = state.byte(at.wrapping_add(n)) {
            write!(out, "{byte:02x}")?;
        }
    }
    if count > SHOWN_BYTES {
        write!(out, ".. ({count} bytes)")?;
    }
    Ok(())
}

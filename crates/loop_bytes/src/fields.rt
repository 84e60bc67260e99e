//! The fields of loops: each is cut from the front of the bytes.

ghost use Rattle.std.specs.Prelude.{◌≡◌, ◌≤◌, ℕ, Bool, false, get_or, IfOk};
ghost use Rattle.loop_heads.specs.declared.limits.TheConstants.{HEAD_LIMIT, PLACE_LIMIT};
ghost use Rattle.loop_bytes.specs.Reading.{Reads, number_from, count_from, budget_from, slot_from};
ghost use Rattle.loop_bytes.specs.Reading.{bounded_kind, bounds_from, kind_from, is_numbered, place_from};

use crate::heads_error::HeadsError;
use byteorder::{ByteOrder, LittleEndian};
use loop_heads::{BUDGET_LIMIT, HEAD_LIMIT, HeadPlace, PLACE_LIMIT, PlaceKind};

pub(crate) fn u8_from(bytes: &[u8]) -> Result<(u8, &[u8]), HeadsError>
    ensures { Reads (λ x. (x.0, x.1.now)) result (number_from 1 bytes.now) }
{
    match bytes {
        [] => Err(HeadsError::Truncated),
        [byte, rest @ ..] => Ok((*byte, rest)),
    }
}

fn u16_from(bytes: &[u8]) -> Result<(u16, &[u8]), HeadsError>
    ensures { Reads (λ x. (x.0, x.1.now)) result (number_from 2 bytes.now) }
{
    if bytes.len() < 2 {
        return Err(HeadsError::Truncated);
    }
    Ok((LittleEndian::read_u16(bytes), &bytes[2..]))
}

fn u32_from(bytes: &[u8]) -> Result<(u32, &[u8]), HeadsError>
    ensures { Reads (λ x. (x.0, x.1.now)) result (number_from 4 bytes.now) }
{
    if bytes.len() < 4 {
        return Err(HeadsError::Truncated);
    }
    Ok((LittleEndian::read_u32(bytes), &bytes[4..]))
}

fn u64_from(bytes: &[u8]) -> Result<(u64, &[u8]), HeadsError>
    ensures { Reads (λ x. (x.0, x.1.now)) result (number_from 8 bytes.now) }
{
    if bytes.len() < 8 {
        return Err(HeadsError::Truncated);
    }
    Ok((LittleEndian::read_u64(bytes), &bytes[8..]))
}

/// The number of heads.
#[tactic(auto, unfolding(crate::specs::Reading::count_from))]
pub(crate) fn count_from(bytes: &[u8]) -> Result<(u16, &[u8]), HeadsError>
    ensures read { Reads (λ x. (x.0, x.1.now)) result (count_from bytes.now) }
    ensures few { IfOk result (λ x. x.0 ≤ HEAD_LIMIT) }
{
    let (count, rest) = u16_from(bytes)?;
    if count as usize > HEAD_LIMIT {
        return Err(HeadsError::Limit);
    }
    Ok((count, rest))
}

/// The budget.
#[tactic(auto, unfolding(crate::specs::Reading::budget_from))]
pub(crate) fn budget_from(bytes: &[u8]) -> Result<(u32, &[u8]), HeadsError>
    ensures { Reads (λ x. (x.0, x.1.now)) result (budget_from bytes.now) }
{
    let (budget, rest) = u32_from(bytes)?;
    if budget < 1 || budget > BUDGET_LIMIT {
        return Err(HeadsError::Limit);
    }
    Ok((budget, rest))
}

/// True if an instruction begins at that slot.
fn is_start(starts: &[bool], slot: u16) -> bool
    ensures { result ≡ get_or starts.now slot false }
{
    (slot as usize) < starts.len() && starts[slot as usize]
}

/// A head's slot, which is at least `least` and at an instruction.
#[tactic(auto, unfolding(crate::specs::Reading::slot_from))]
pub(crate) fn slot_from<'a>(
    starts: &[bool],
    least: u32,
    bytes: &'a [u8],
) -> Result<(u16, &'a [u8]), HeadsError>
    ensures { Reads (λ x. (x.0, x.1.now)) result (slot_from starts.now least bytes.now) }
{
    let (slot, rest) = u16_from(bytes)?;
    if (slot as u32) < least || !is_start(starts, slot) {
        return Err(HeadsError::Head(slot));
    }
    Ok((slot, rest))
}

/// The kind of that number, 2 to 6, with those bounds.
fn bounded_kind(code: u8, a: u64, b: u64) -> PlaceKind
    ensures { result ≡ bounded_kind code a b }
{
    match code {
        2 => PlaceKind::Unsigned(a, b),
        3 => PlaceKind::Signed(a.cast_signed(), b.cast_signed()),
        4 => PlaceKind::Input(a, b),
        5 => PlaceKind::Output(a, b),
        _ => PlaceKind::Stack(a, b),
    }
}

/// The bounds of the kind of that number, 2 to 6, for the head at that slot.
#[tactic(auto, unfolding(crate::specs::Reading::bounds_from))]
fn bounds_from(slot: u16, code: u8, bytes: &[u8]) -> Result<(PlaceKind, &[u8]), HeadsError>
    ensures { Reads (λ x. (x.0, x.1.now)) result (bounds_from slot code bytes.now) }
{
    let (a, rest) = u64_from(bytes)?;
    let (b, rest) = u64_from(rest)?;
    let kind = bounded_kind(code, a, b);
    if !kind.is_ordered() {
        return Err(HeadsError::Head(slot));
    }
    Ok((kind, rest))
}

/// The kind of that number, with its bounds if it has some.
#[tactic(auto, unfolding(crate::specs::Reading::kind_from))]
fn kind_from(slot: u16, code: u8, bytes: &[u8]) -> Result<(PlaceKind, &[u8]), HeadsError>
    ensures { Reads (λ x. (x.0, x.1.now)) result (kind_from slot code bytes.now) }
{
    match code {
        0 => Ok((PlaceKind::Unset, bytes)),
        1 => Ok((PlaceKind::Any, bytes)),
        _ => bounds_from(slot, code, bytes),
    }
}

/// True if a place may have that number, which is to be at least `least`, and its kind that one.
fn is_numbered(least: u8, number: u8, code: u8) -> bool
    ensures { result ≡ is_numbered least number code }
{
    least <= number && number <= PLACE_LIMIT && number != 10 && code <= 6
}

/// A place of the head at that slot, whose number is at least `least`.
#[tactic(auto, unfolding(crate::specs::Reading::place_from))]
pub(crate) fn place_from(
    slot: u16,
    least: u8,
    bytes: &[u8],
) -> Result<(HeadPlace, &[u8]), HeadsError>
    ensures read { Reads (λ x. (x.0, x.1.now)) result (place_from slot least bytes.now) }
    ensures known { IfOk result (λ x. x.0.number ≤ PLACE_LIMIT) }
{
    let (number, rest) = u8_from(bytes)?;
    let (code, rest) = u8_from(rest)?;
    if !is_numbered(least, number, code) {
        return Err(HeadsError::Head(slot));
    }
    let (kind, rest) = kind_from(slot, code, rest)?;
    Ok((HeadPlace { number, kind }, rest))
}

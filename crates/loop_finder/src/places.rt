//! Places of a frame, and what is written of one.

use abstract_num::{SRange, URange};
use abstract_regs::{Frame, Kind};
use bpf_decode::Region;
use loop_heads::PlaceKind;

/// Register 10, which no head declares.
pub const STACK_POINTER: usize = 10;

/// The kind of a place: of a register up to 10, or of a slot of the stack from 11 on.
pub fn place_kind(frame: &Frame, place: usize) -> Kind {
    if place <= STACK_POINTER {
        frame.kind(place)
    } else {
        frame.slot_kind(place - STACK_POINTER - 1)
    }
}

/// What a head declares of a place of that kind: of a number the narrower of both its ranges.
pub fn declared(kind: Kind) -> PlaceKind {
    match kind {
        Kind::Unset => PlaceKind::Unset,
        Kind::Num(number) => number_between(number.unsigned(), number.signed()),
        Kind::Ptr(region, at) => pointer_between(region, at.unsigned()),
    }
}

/// A number in both ranges: the narrower one is declared.
pub fn number_between(unsigned: URange, signed: SRange) -> PlaceKind {
    let numbers = unsigned.high.wrapping_sub(unsigned.low);
    let signed_numbers = signed
        .high
        .cast_unsigned()
        .wrapping_sub(signed.low.cast_unsigned());
    if numbers == u64::MAX && signed_numbers == u64::MAX {
        PlaceKind::Any
    } else if numbers <= signed_numbers {
        PlaceKind::Unsigned(unsigned.low, unsigned.high)
    } else {
        PlaceKind::Signed(signed.low, signed.high)
    }
}

/// A pointer at an offset in a range.
pub fn pointer_between(region: Region, at: URange) -> PlaceKind {
    match region {
        Region::Input => PlaceKind::Input(at.low, at.high),
        Region::Output => PlaceKind::Output(at.low, at.high),
        Region::Stack => PlaceKind::Stack(at.low, at.high),
    }
}

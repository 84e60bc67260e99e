//! The tests that rules make of the kinds of values: of pointers, lengths and regions.

ghost use Rattle.std.specs.Prelude.{◌≡◌};
ghost use Rattle.bpf_decode.specs.Values.{moves_pointer, is_addition};
ghost use Rattle.abstract_regs.specs.Seen.{seen};
ghost use Rattle.verifier.specs.Kind.{alu_refused, mov_refused, stays, is_read_only, is_at_most, range_leaves};
ghost use Rattle.verifier.specs.Kind.{range_is_read_only};

use abstract_num::{Precision, highest};
use abstract_regs::{Kind, access_fits, range_fits};
use bpf_decode::{Arithmetic, OpWidth};
use bpf_machine::Caps;

/// True if it is arithmetic with a pointer other than a number added to it or subtracted from it,
/// in 64 bits.
#[inline(always)]
pub fn is_alu_refused(bits: OpWidth, operation: Arithmetic, x: Kind, y: Kind) -> bool
    ensures { result ≡ alu_refused bits operation (seen x) (seen y) }
{
    match (x, y) {
        (Kind::Ptr(_, _), Kind::Num(_)) => !moves_pointer(bits, operation),
        (Kind::Num(_), Kind::Ptr(_, _)) => !is_addition(bits, operation),
        (Kind::Ptr(_, _), Kind::Ptr(_, _)) => true,
        (Kind::Num(_), Kind::Num(_)) => false,
        // An operand that is unset is refused by rule 5.
        (Kind::Unset, _) => false,
        (Kind::Num(_) | Kind::Ptr(_, _), Kind::Unset) => false,
    }
}

/// True if it is a pointer that is copied in 32 bits.
#[inline(always)]
pub fn is_mov_refused(bits: OpWidth, kind: Kind) -> bool
    ensures { result ≡ mov_refused bits (seen kind) }
{
    match bits {
        OpWidth::Bits64 => false,
        OpWidth::Bits32 => kind.is_ptr(),
    }
}

/// True if it is a pointer, and all of the bytes at that distance from it are in its region.
#[inline(always)]
pub fn stays(precision: Precision, caps: &Caps, kind: Kind, distance: u64, bytes: usize) -> bool
    ensures { result ≡ stays precision caps.now (seen kind) distance bytes }
{
    match kind {
        Kind::Ptr(r, at) => access_fits(precision, at, distance, bytes as u64, caps.size(r) as u64),
        Kind::Unset | Kind::Num(_) => false,
    }
}

/// True if it points into the region that is read only.
#[inline(always)]
pub fn is_read_only(kind: Kind) -> bool
    ensures { result ≡ is_read_only (seen kind) }
{
    match kind {
        Kind::Unset | Kind::Num(_) => false,
        Kind::Ptr(r, _) => !r.is_writable(),
    }
}

/// True if it is a number that is at most `most`.
#[inline(always)]
pub fn is_at_most(most: u16, kind: Kind) -> bool
    ensures { result ≡ is_at_most most (seen kind) }
{
    match kind {
        Kind::Num(k) => highest(&k) <= u64::from(most),
        Kind::Unset | Kind::Ptr(_, _) => false,
    }
}

/// True if a helper's range from this pointer on, of that length, may leave its region.
#[inline(always)]
pub fn range_leaves(caps: &Caps, pointer: Kind, length: Kind) -> bool
    ensures { result ≡ range_leaves caps.now (seen pointer) (seen length) }
{
    match (pointer, length) {
        (Kind::Ptr(r, at), Kind::Num(bytes)) => !range_fits(at, bytes, caps.size(r) as u64),
        (Kind::Ptr(_, _), Kind::Unset | Kind::Ptr(_, _)) => false,
        (Kind::Unset | Kind::Num(_), _) => false,
    }
}

/// True if a helper's range from this pointer on, of that length, is in the region that is read
/// only.
#[inline(always)]
pub fn range_is_read_only(pointer: Kind, length: Kind) -> bool
    ensures { result ≡ range_is_read_only (seen pointer) (seen length) }
{
    match (pointer, length) {
        (Kind::Ptr(r, _), Kind::Num(_)) => !r.is_writable(),
        (Kind::Ptr(_, _), Kind::Unset | Kind::Ptr(_, _)) => false,
        (Kind::Unset | Kind::Num(_), _) => false,
    }
}

/// True if it adds or subtracts in 64 bits, as a pointer may be moved.
#[inline(always)]
fn moves_pointer(bits: OpWidth, operation: Arithmetic) -> bool
    ensures { result ≡ moves_pointer bits operation }
{
    match bits {
        OpWidth::Bits64 => match operation {
            Arithmetic::Add | Arithmetic::Sub => true,
            _ => false,
        },
        OpWidth::Bits32 => false,
    }
}

#[inline(always)]
fn is_addition(bits: OpWidth, operation: Arithmetic) -> bool
    ensures { result ≡ is_addition bits operation }
{
    match bits {
        OpWidth::Bits64 => match operation {
            Arithmetic::Add => true,
            _ => false,
        },
        OpWidth::Bits32 => false,
    }
}

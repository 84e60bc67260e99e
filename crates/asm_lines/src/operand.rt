//! The operands of a line: each text becomes a register, a number, a place in memory or a target.

ghost use Rattle.std.specs.Prelude.{◌≡◌, ◌≤◌, ◌<◌, IfOk, length};
ghost use Rattle.std.specs.List.{position_or_len};
ghost use Rattle.asm_lines.specs.Operands.{least, both, register_of, immediate_of, offset_of, distance_of, unsigned_of};
ghost use Rattle.asm_lines.specs.Operands.{source_of, is_sign, offset_or_zero, place_within, memory_of, near_target_of};
ghost use Rattle.asm_lines.specs.Operands.{far_target_of};

use crate::fault::AsmFault;
use crate::number::{decimal_within, integer, signed};
use crate::target::{Name, Target};
use crate::text::{is_label_name, place_of_either};
use bpf_decode::{Operand, Register};

/// Two readings of one line: of two faults the least.
pub(crate) fn both<A: Drop, B: Drop>(
    a: Result<A, AsmFault>,
    b: Result<B, AsmFault>,
) -> Result<(A, B), AsmFault>
    ensures { result ≡ both a b }
{
    match a {
        Ok(a) => match b {
            Ok(b) => Ok((a, b)),
            Err(fault) => Err(fault),
        },
        Err(f) => match b {
            Ok(_) => Err(f),
            Err(g) => Err(f.least(g)),
        },
    }
}

/// A register.
#[tactic(auto, unfolding(crate::specs::Operands::register_of))]
pub(crate) fn register(text: &[u8]) -> Result<Register, AsmFault>
    ensures { result ≡ register_of text.now }
{
    match text {
        [b'r', digits @ ..] => match decimal_within(digits, 10) {
            Ok(number) => Register::new(number as u8).ok_or(AsmFault::Range),
            Err(fault) => Err(fault),
        },
        _ => Err(AsmFault::Operand),
    }
}

/// An immediate.
#[rattlefmt::skip]
#[tactic(auto, unfolding(crate::specs::Operands::immediate_of),
    using(crate::proofs::NumberLemmas::plain_fits, crate::proofs::NumberLemmas::signed_fits))]
pub(crate) fn immediate(text: &[u8]) -> Result<i32, AsmFault>
    ensures { result ≡ immediate_of text.now }
{
    match integer(text, 2147483648, 2147483647) {
        Ok(number) => Ok(number.to_i32()),
        Err(fault) => Err(fault),
    }
}

/// An offset of 16 bits.
#[rattlefmt::skip]
#[tactic(auto, unfolding(crate::specs::Operands::offset_of),
    using(crate::proofs::NumberLemmas::plain_fits, crate::proofs::NumberLemmas::signed_fits))]
fn offset(text: &[u8]) -> Result<i16, AsmFault>
    ensures { result ≡ offset_of text.now }
{
    match signed(text, 32768, 32767) {
        Ok(number) => Ok(number.to_i16()),
        Err(fault) => Err(fault),
    }
}

/// A distance of 32 bits.
#[rattlefmt::skip]
#[tactic(auto, unfolding(crate::specs::Operands::distance_of),
    using(crate::proofs::NumberLemmas::plain_fits, crate::proofs::NumberLemmas::signed_fits))]
fn distance(text: &[u8]) -> Result<i32, AsmFault>
    ensures { result ≡ distance_of text.now }
{
    match signed(text, 2147483648, 2147483647) {
        Ok(number) => Ok(number.to_i32()),
        Err(fault) => Err(fault),
    }
}

/// A number from 0 to `most`.
#[rattlefmt::skip]
#[tactic(auto, unfolding(crate::specs::Operands::unsigned_of),
    using(crate::proofs::NumberLemmas::unsigned_fits, crate::proofs::NumberLemmas::signed_fits))]
pub fn unsigned(text: &[u8], most: u64) -> Result<u64, AsmFault>
    ensures read { result ≡ unsigned_of most text.now }
    ensures within { IfOk result (λ n. n ≤ most) }
{
    match integer(text, 0, most) {
        Ok(number) => Ok(number.magnitude),
        Err(fault) => Err(fault),
    }
}

/// A register or an immediate.
#[tactic(auto, unfolding(crate::specs::Operands::source_of))]
pub(crate) fn source(text: &[u8]) -> Result<Operand, AsmFault>
    ensures { result ≡ source_of text.now }
{
    match text {
        [b'r', ..] => match register(text) {
            Ok(src) => Ok(Operand::Register(src)),
            Err(fault) => Err(fault),
        },
        _ => match immediate(text) {
            Ok(imm) => Ok(Operand::Immediate(imm)),
            Err(fault) => Err(fault),
        },
    }
}

#[tactic(auto, unfolding(crate::specs::Operands::offset_or_zero))]
fn offset_or_zero(text: &[u8]) -> Result<i16, AsmFault>
    ensures { result ≡ offset_or_zero text.now }
{
    if text.is_empty() { Ok(0) } else { offset(text) }
}

/// The index of the first sign, or the length.
fn place_of_sign(text: &[u8]) -> usize
    ensures place { result ≡ position_or_len is_sign text.now }
    ensures bound { result ≤ length text.now }
{
    place_of_either(text, b'+', b'-')
}

/// Reads the inside of the brackets: a register, then an offset or nothing.
#[tactic(auto, unfolding(crate::specs::Operands::place_within))]
fn place_within(inner: &[u8]) -> Result<(Register, i16), AsmFault>
    ensures { result ≡ place_within inner.now }
{
    let at = place_of_sign(inner);
    both(register(&inner[..at]), offset_or_zero(&inner[at..]))
}

/// A place in memory.
#[tactic(auto, unfolding(crate::specs::Operands::memory_of))]
pub(crate) fn memory(text: &[u8]) -> Result<(Register, i16), AsmFault>
    ensures { result ≡ memory_of text.now }
{
    match text {
        [b'[', inner @ .., b']'] => place_within(inner),
        _ => Err(AsmFault::Operand),
    }
}

/// The target of a jump by an offset of 16 bits: a label or a signed distance.
#[tactic(auto, unfolding(crate::specs::Operands::near_target_of))]
pub(crate) fn near_target(text: &[u8]) -> Result<Target, AsmFault>
    ensures { result ≡ near_target_of text.now }
{
    if is_label_name(text) {
        return Ok(Target::Label(Name::new(text)));
    }
    match offset(text) {
        Ok(slots) => Ok(Target::Slots(i32::from(slots))),
        Err(fault) => Err(fault),
    }
}

/// The target of a jump by an immediate of 32 bits: a label or a signed distance.
#[tactic(auto, unfolding(crate::specs::Operands::far_target_of))]
pub(crate) fn far_target(text: &[u8]) -> Result<Target, AsmFault>
    ensures { result ≡ far_target_of text.now }
{
    if is_label_name(text) {
        return Ok(Target::Label(Name::new(text)));
    }
    match distance(text) {
        Ok(slots) => Ok(Target::Slots(slots)),
        Err(fault) => Err(fault),
    }
}

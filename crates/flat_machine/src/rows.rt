//! The steps of the flat machine, a row for each kind of opcode.

ghost use Rattle.std.specs.Prelude.{◌≡◌, ◌<◌, ◌+◌, ◌*◌, ◌^◌, ℕ, IfOk};
ghost use Rattle.bpf_machine.specs.State.{State};
ghost use Rattle.bpf_machine.specs.Flat.{operand, operation_row, neg_row, mov_row, end_row, alu_row, mem_row};
ghost use Rattle.bpf_machine.specs.Flat.{memsx_row, ldx_row, st_row, stx_row, wide_row, ja_row, ja32_row, branch_row};
ghost use Rattle.bpf_machine.specs.Flat.{call_row, act, step, exit_code, at_base, width_of, store, flat_after};
ghost use Rattle.flat_machine.specs.StateView.{caps_in, layout_in, flat_state};
ghost use Rattle.flat_machine.specs.inner.FlatState.{sets, sets_wide, GivesState};

use crate::calls::help;
use crate::fields::{at_slot, signed_width_of, signed16, signed32, width_of};
use crate::memory::{load, load_signed, store};
use crate::state::{FlatState, get, set};
use bpf_decode::arithmetic::{alu, copied, negative, ordered, sign_extended, taken};
use bpf_decode::{Arithmetic, ByteOrder, Comparison, EndWidth, OpWidth, SignedMove, Slot};
use std::alloc::Global;
use txn::NoMemory;

/// The source operand of an instruction: the immediate, sign-extended, or a register.
fn operand(f: Slot, s: &FlatState) -> Option<u64>
    ensures { result ≡ operand f (flat_state s.now) }
{
    // Bit 3 of an opcode is the source bit. It is 0 for the immediate; the register field has to be
    // 0 then.
    if f.opcode / 8 % 2 == 0 {
        if f.src == 0 {
            Some(signed32(f.imm))
        } else {
            None
        }
    } else if f.imm == 0 {
        get(s, f.src)
    } else {
        None
    }
}

/// The result of an arithmetic operation; the offset tells signed division and modulo apart.
fn operation_value(bits: OpWidth, f: Slot, s: &FlatState) -> Option<u64>
    ensures { sets f.dst (flat_state s.now) result ≡ operation_row bits f (flat_state s.now) }
{
    let row = Arithmetic::of(f.opcode / 16)?;
    if !row.allows(f.offset) {
        return None;
    }
    let y = operand(f, s)?;
    let x = get(s, f.dst)?;
    Some(alu(bits, row.selected(f.offset), x, y))
}

/// The result of NEG.
fn neg_value(bits: OpWidth, f: Slot, s: &FlatState) -> Option<u64>
    ensures { sets f.dst (flat_state s.now) result ≡ neg_row bits f (flat_state s.now) }
{
    if f.opcode / 8 % 2 != 0 || f.src != 0 || f.offset != 0 || f.imm != 0 {
        return None;
    }
    let x = get(s, f.dst)?;
    Some(negative(bits, x))
}

/// The result of MOV, and of MOVSX of a register.
fn mov_value(bits: OpWidth, f: Slot, s: &FlatState) -> Option<u64>
    ensures { sets f.dst (flat_state s.now) result ≡ mov_row bits f (flat_state s.now) }
{
    if f.offset == 0 {
        let y = operand(f, s)?;
        return Some(copied(bits, y));
    }
    if f.opcode / 8 % 2 != 1 || f.imm != 0 || !SignedMove::exists(bits, f.offset) {
        return None;
    }
    let y = get(s, f.src)?;
    Some(sign_extended(SignedMove::selected(bits, f.offset), y))
}

/// The result of END: the order by the class and the source bit, the bits kept by the immediate.
fn end_value(bits: OpWidth, f: Slot, s: &FlatState) -> Option<u64>
    ensures { sets f.dst (flat_state s.now) result ≡ end_row bits f (flat_state s.now) }
{
    let order = ByteOrder::of(bits, f.opcode / 8 % 2)?;
    if f.src != 0 || f.offset != 0 || !EndWidth::exists(f.imm) {
        return None;
    }
    let x = get(s, f.dst)?;
    Some(ordered(order, EndWidth::selected(f.imm), x))
}

/// The result of an instruction of ALU and ALU64.
fn alu_value(bits: OpWidth, f: Slot, s: &FlatState) -> Option<u64>
    ensures { sets f.dst (flat_state s.now) result ≡ alu_row bits f (flat_state s.now) }
{
    match f.opcode / 16 {
        0x8 => neg_value(bits, f, s),
        0xb => mov_value(bits, f, s),
        0xd => end_value(bits, f, s),
        _ => operation_value(bits, f, s),
    }
}

/// Sets the destination to a value, and goes on at the next slot.
fn set_and_go(dst: u8, value: Option<u64>, s: &mut FlatState) -> Option<()>
    requires slot { s.old.slot < 2 ^ 62 }
    ensures sets { GivesState result (flat_state s.new) (sets dst (flat_state s.old) value) }
    ensures memory { s.new.memory ≡ s.old.memory }
{
    set(s, dst, value?)?;
    s.slot += 1;
    Some(())
}

/// ALU and ALU64.
fn alu_row(bits: OpWidth, f: Slot, s: &mut FlatState) -> Option<()>
    requires slot { s.old.slot < 2 ^ 62 }
    ensures row { GivesState result (flat_state s.new) (alu_row bits f (flat_state s.old)) }
    ensures machine { s.new.memory.machine ≡ s.old.memory.machine }
{
    let value = alu_value(bits, f, s);
    set_and_go(f.dst, value, s)
}

/// The address that is offset from a base.
fn at_base(f: Slot, base: u64) -> u64
    ensures { result ≡ at_base f base }
{
    base.wrapping_add(signed16(f.offset))
}

/// The result of LDX in the mode MEM.
fn mem_value(f: Slot, s: &FlatState) -> Option<u64>
    ensures { sets f.dst (flat_state s.now) result ≡ mem_row (caps_in s.now) (layout_in s.now) f (flat_state s.now) }
{
    let base = get(s, f.src)?;
    load(width_of(f.opcode), at_base(f, base), s)
}

/// The result of LDX in the mode MEMSX.
fn memsx_value(f: Slot, s: &FlatState) -> Option<u64>
    ensures { sets f.dst (flat_state s.now) result ≡ memsx_row (caps_in s.now) (layout_in s.now) f (flat_state s.now) }
{
    let width = signed_width_of(f.opcode)?;
    let base = get(s, f.src)?;
    load_signed(width, at_base(f, base), s)
}

/// The result of LDX in the modes MEM and MEMSX.
fn ldx_value(f: Slot, s: &FlatState) -> Option<u64>
    ensures { sets f.dst (flat_state s.now) result ≡ ldx_row (caps_in s.now) (layout_in s.now) f (flat_state s.now) }
{
    if f.imm != 0 {
        return None;
    }
    match f.opcode / 32 {
        3 => mem_value(f, s),
        4 => memsx_value(f, s),
        _ => None,
    }
}

/// LDX in the modes MEM and MEMSX.
fn ldx_row(f: Slot, s: &mut FlatState) -> Option<()>
    requires slot { s.old.slot < 2 ^ 62 }
    ensures row { GivesState result (flat_state s.new)
        (ldx_row (caps_in s.old) (layout_in s.old) f (flat_state s.old)) }
    ensures machine { s.new.memory.machine ≡ s.old.memory.machine }
{
    let value = ldx_value(f, s);
    set_and_go(f.dst, value, s)
}

/// Stores a number at an offset from a base, and goes on at the next slot.
fn store_and_go(f: Slot, base: u64, value: u64, s: &mut FlatState) -> Option<()>
    requires slot { s.old.slot < 2 ^ 62 }
    ensures stores { GivesState result (flat_state s.new)
        (flat_after (caps_in s.old) (layout_in s.old) (flat_state s.old)
        (store (caps_in s.old) (layout_in s.old) (width_of f.opcode) (at_base f base) value (flat_state s.old))) }
    ensures machine { s.new.memory.machine ≡ s.old.memory.machine }
{
    store(width_of(f.opcode), at_base(f, base), value, s)?;
    s.slot += 1;
    Some(())
}

/// ST in the mode MEM.
fn st_row(f: Slot, s: &mut FlatState) -> Option<()>
    requires slot { s.old.slot < 2 ^ 62 }
    ensures row { GivesState result (flat_state s.new) (st_row (caps_in s.old) (layout_in s.old) f (flat_state s.old)) }
    ensures machine { s.new.memory.machine ≡ s.old.memory.machine }
{
    if f.opcode / 32 != 3 || f.src != 0 {
        return None;
    }
    let base = get(s, f.dst)?;
    store_and_go(f, base, signed32(f.imm), s)
}

/// STX in the mode MEM.
fn stx_row(f: Slot, s: &mut FlatState) -> Option<()>
    requires slot { s.old.slot < 2 ^ 62 }
    ensures row { GivesState result (flat_state s.new)
        (stx_row (caps_in s.old) (layout_in s.old) f (flat_state s.old)) }
    ensures machine { s.new.memory.machine ≡ s.old.memory.machine }
{
    if f.opcode / 32 != 3 || f.imm != 0 {
        return None;
    }
    let base = get(s, f.dst)?;
    let value = get(s, f.src)?;
    store_and_go(f, base, value, s)
}

/// The number of a wide load: the high half is the next slot's immediate.
fn wide_value(f: Slot, next: Option<Slot>) -> Option<u64>
    ensures { (s : State ℕ) → sets_wide f.dst s result ≡ wide_row f next s }
{
    if f.src != 0 || f.offset != 0 {
        return None;
    }
    let half = next?;
    if half.opcode != 0 || half.dst != 0 || half.src != 0 || half.offset != 0 {
        return None;
    }
    Some(u64::from(f.imm) + 0x1_0000_0000 * u64::from(half.imm))
}

/// The wide load of a number.
fn wide_row(f: Slot, next: Option<Slot>, s: &mut FlatState) -> Option<()>
    requires slot { s.old.slot < 2 ^ 62 }
    ensures row { GivesState result (flat_state s.new) (wide_row f next (flat_state s.old)) }
    ensures machine { s.new.memory.machine ≡ s.old.memory.machine }
{
    set(s, f.dst, wide_value(f, next)?)?;
    s.slot += 2;
    Some(())
}

/// JA: in slots from the slot after the jump.
fn ja_row(f: Slot, s: &mut FlatState) -> Option<()>
    requires slot { s.old.slot < 2 ^ 62 }
    ensures row { GivesState result (flat_state s.new) (ja_row f (flat_state s.old)) }
    ensures machine { s.new.memory.machine ≡ s.old.memory.machine }
{
    if f.dst != 0 || f.src != 0 || f.imm != 0 {
        return None;
    }
    // Wraps modulo 2^64: a jump before slot 0 lands past the end of any code, and there is no step.
    s.slot = (s.slot + 1).wrapping_add(signed16(f.offset));
    Some(())
}

/// JA by the immediate.
fn ja32_row(f: Slot, s: &mut FlatState) -> Option<()>
    requires slot { s.old.slot < 2 ^ 62 }
    ensures row { GivesState result (flat_state s.new) (ja32_row f (flat_state s.old)) }
    ensures machine { s.new.memory.machine ≡ s.old.memory.machine }
{
    if f.dst != 0 || f.src != 0 || f.offset != 0 {
        return None;
    }
    s.slot = (s.slot + 1).wrapping_add(signed32(f.imm));
    Some(())
}

/// A comparison of JMP and JMP32.
fn branch_row(bits: OpWidth, f: Slot, s: &mut FlatState) -> Option<()>
    requires slot { s.old.slot < 2 ^ 62 }
    ensures row { GivesState result (flat_state s.new) (branch_row bits f (flat_state s.old)) }
    ensures machine { s.new.memory.machine ≡ s.old.memory.machine }
{
    let comparison = Comparison::of(f.opcode / 16)?;
    let x = get(s, f.dst)?;
    let y = operand(f, s)?;
    s.slot = if taken(bits, comparison, x, y) {
        (s.slot + 1).wrapping_add(signed16(f.offset))
    } else {
        s.slot + 1
    };
    Some(())
}

/// CALL of a helper.
fn call_row(alloc: Global, f: Slot, s: &mut FlatState) -> Result<Option<()>, NoMemory>
    requires slot { s.old.slot < 2 ^ 62 }
    ensures row { IfOk result
        (λ o. GivesState o (flat_state s.new) (call_row (caps_in s.old) (layout_in s.old) f (flat_state s.old))) }
    ensures machine { s.new.memory.machine ≡ s.old.memory.machine }
{
    if f.dst != 0 || f.src != 0 || f.offset != 0 {
        return Ok(None);
    }
    match help(alloc, f.imm, s)? {
        None => Ok(None),
        Some(()) => {
            s.slot += 1;
            Ok(Some(()))
        }
    }
}

/// One row of the table, by class or by opcode; `next` has the fields of the next slot.
fn act(
    alloc: Global,
    f: Slot,
    next: Option<Slot>,
    s: &mut FlatState,
) -> Result<Option<()>, NoMemory>
    requires slot { s.old.slot < 2 ^ 62 }
    ensures acts { IfOk result
        (λ o. GivesState o (flat_state s.new) (act (caps_in s.old) (layout_in s.old) f next (flat_state s.old))) }
    ensures machine { s.new.memory.machine ≡ s.old.memory.machine }
{
    match f.opcode % 8 {
        4 => Ok(alu_row(OpWidth::Bits32, f, s)),
        7 => Ok(alu_row(OpWidth::Bits64, f, s)),
        1 => Ok(ldx_row(f, s)),
        2 => Ok(st_row(f, s)),
        3 => Ok(stx_row(f, s)),
        // The classes LD, JMP and JMP32: first the opcodes with a row of their own, then
        // comparisons.
        class => match f.opcode {
            0x18 => Ok(wide_row(f, next, s)),
            0x05 => Ok(ja_row(f, s)),
            0x06 => Ok(ja32_row(f, s)),
            0x85 => call_row(alloc, f, s),
            _ => match class {
                5 => Ok(branch_row(OpWidth::Bits64, f, s)),
                6 => Ok(branch_row(OpWidth::Bits32, f, s)),
                _ => Ok(None),
            },
        },
    }
}

/// A step, if there is one.
pub fn step(alloc: Global, code: &[u8], s: &mut FlatState) -> Result<Option<()>, NoMemory>
    ensures stepped { IfOk result
        (λ o. GivesState o (flat_state s.new) (step (caps_in s.old) (layout_in s.old) code.now (flat_state s.old))) }
    ensures machine { s.new.memory.machine ≡ s.old.memory.machine }
{
    let bytes = at_slot(code, s.slot);
    match Slot::of(bytes) {
        None => Ok(None),
        Some(f) => act(alloc, f, Slot::of(&bytes[8..]), s),
    }
}

/// Register 0 at an EXIT, if it is set.
pub fn exit_code(code: &[u8], s: &FlatState) -> Option<u64>
    ensures { result ≡ exit_code code.now (flat_state s.now) }
{
    let f = Slot::of(at_slot(code, s.slot))?;
    if f.opcode == 0x95 && f.dst == 0 && f.src == 0 && f.offset == 0 && f.imm == 0 {
        get(s, 0)
    } else {
        None
    }
}

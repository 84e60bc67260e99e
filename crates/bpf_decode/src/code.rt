//! Code as bytes: reading, and the one spelling.

ghost use Rattle.std.specs.Prelude.{◌≡◌, ◌≤◌, ◌<◌, ◌++◌, List, length, IfOk, IfErr, OnOk, true, false, get_or};
ghost use Rattle.bpf_decode.specs.Instruction.{IsCode, AllFit, Fits, OperandFits, slot, bytes_of, spelling, slot_count};
ghost use Rattle.bpf_decode.specs.Instruction.{slot_total};
ghost use Rattle.bpf_decode.specs.Class.{starts};
ghost use Rattle.bpf_decode.specs.Table.{opcode, operand_slot};
ghost use Rattle.bpf_decode.specs.Reading.{Gives, width_of, insn_at, code_of, count_of};
ghost use Rattle.bpf_decode.specs.declared.insn.Insn.{Insn};
ghost use Rattle.bpf_decode.specs.declared.insn.Insn.TheVariants.{LoadWide};
ghost use Rattle.bpf_decode.specs.declared.decode_error.DecodeError.TheVariants.{NoMemory};

use crate::arithmetic::low;
use crate::decode_error::DecodeError;
use crate::insn::{Insn, Operand, width};
use crate::register::Register;
use crate::row::OpcodeRow;
use crate::slot::Slot;
use std::alloc::{AllocError, Global};

/// The instruction at the front of the bytes, which begin at that slot: refusals name it.
#[tactic(auto, unfolding(crate::specs::Reading::insn_at))]
fn insn_at(slot: usize, bytes: &[u8]) -> Result<Insn, DecodeError>
    ensures { result ≡ insn_at slot bytes.now }
{
    let Some(fields) = Slot::of(bytes) else {
        return Err(DecodeError::Truncated);
    };
    let Some(row) = OpcodeRow::of(fields.opcode) else {
        return Err(DecodeError::Opcode(slot));
    };
    let (Some(dst), Some(src)) = (Register::new(fields.dst), Register::new(fields.src)) else {
        return Err(DecodeError::Register(slot));
    };
    if !row.allows(&fields) {
        return Err(DecodeError::NonzeroField(slot));
    }
    let Some(high) = row.high_half(&bytes[8..]) else {
        return Err(DecodeError::WideHalf(slot));
    };
    Ok(row.instruction(dst, src, &fields, high))
}

/// The number of slots that the instruction at the front of the bytes takes.
fn width_at(slot: usize, bytes: &[u8]) -> Result<usize, DecodeError>
    ensures { result ≡ width_of (insn_at slot bytes.now) }
{
    match insn_at(slot, bytes) {
        Ok(insn) => Ok(width(&insn)),
        Err(error) => Err(error),
    }
}

fn count(bytes: &[u8]) -> Result<usize, DecodeError>
    ensures { result ≡ count_of bytes.now }
{
    if bytes.len() % 8 != 0 {
        return Err(DecodeError::Truncated);
    }
    let slots = bytes.len() / 8;
    let mut slot = 0;
    let mut count = 0;
    while slot < slots {
        slot += width_at(slot, &bytes[8 * slot..])?;
        count += 1;
    }
    Ok(count)
}

/// Returns the number of instructions that the bytes spell. It takes no memory.
///
/// Refusals, slot by slot: a length that is no multiple of 8 (`Truncated`, first of all), then
/// `Opcode`, `Register`, `NonzeroField` and `WideHalf`.
pub fn check(bytes: &[u8]) -> Result<usize, DecodeError>
    ensures exact { result ≡ count_of bytes.now }
    // Bytes that are counted are code.
    ensures found { IfOk result (λ n. (is : List Insn) × IsCode bytes.now is × (n ≡ length is)) }
    // Code is counted.
    ensures only { (is : List Insn) → IsCode bytes.now is → result ≡ Ok (length is) }
{
    count(bytes)
}

fn read(alloc: Global, bytes: &[u8]) -> Result<Vec<Insn>, DecodeError>
    ensures { Gives (λ v. v.items) result (code_of bytes.now) }
{
    if bytes.len() % 8 != 0 {
        return Err(DecodeError::Truncated);
    }
    // The check looks for the types inside an instruction among those that a function names.
    let _unused: Option<Operand> = None;
    let slots = bytes.len() / 8;
    let mut slot = 0;
    let mut insns = Vec::new(alloc);
    while slot < slots {
        let insn = insn_at(slot, &bytes[8 * slot..])?;
        insns.push(insn)?;
        slot += width(&insn);
    }
    Ok(insns)
}

/// The instructions that the bytes are. It refuses as `check` does, and with `NoMemory`.
pub fn decode(alloc: Global, bytes: &[u8]) -> Result<Vec<Insn>, DecodeError>
    ensures exact { Gives (λ v. v.items) result (code_of bytes.now) }
    // Bytes that are read are the spelling of the result.
    ensures found { IfOk result (λ v. IsCode bytes.now v.items) }
    // A spelling is read as its instructions, unless memory runs out.
    ensures only { (is : List Insn) → IsCode bytes.now is → Gives (λ v. v.items) result (Ok is) }
{
    read(alloc, bytes)
}

/// The slot of a row with those fields.
fn row_slot(row: OpcodeRow, dst: u8, src: u8, offset: u16, imm: u32) -> Slot
    ensures opcode { result.opcode ≡ opcode row }
    ensures dst { result.dst ≡ dst }
    ensures src { result.src ≡ src }
    ensures offset { result.offset ≡ offset }
    ensures imm { result.imm ≡ imm }
{
    let opcode = row.opcode();
    Slot {
        opcode,
        dst,
        src,
        offset,
        imm,
    }
}

/// The slot of an operation on a register and an operand: by one row for a number, by another for a
/// register.
#[rattlefmt::skip]
fn operand_slot(immediate: OpcodeRow, register: OpcodeRow, dst: Register, source: Operand, offset: u16) -> Slot
    ensures spelled { operand_slot (opcode immediate) (opcode register) dst source offset ≡
        slot result.opcode result.dst result.src result.offset result.imm }
    ensures dst { result.dst < 16 }
    ensures src { result.src < 16 }
    ensures fit { (dst ≤ 10) × OperandFits source }
{
    match source {
        Operand::Immediate(imm) => row_slot(immediate, dst.number(), 0, offset, imm.cast_unsigned()),
        Operand::Register(src) => row_slot(register, dst.number(), src.number(), offset, 0),
    }
}

/// The first slot of an instruction.
#[rattlefmt::skip]
fn first_slot(insn: Insn) -> Slot
    ensures spelled { slot_count insn ≡ 1 →
        bytes_of insn ≡ slot result.opcode result.dst result.src result.offset result.imm }
    ensures dst { result.dst < 16 }
    ensures src { result.src < 16 }
    ensures fit { Fits insn }
{
    match insn {
        Insn::Alu { bits, operation, dst, source } =>
            operand_slot(OpcodeRow::AluImmediate(bits, operation), OpcodeRow::AluRegister(bits, operation), dst, source,
                operation.offset()),
        Insn::Neg { bits, dst } => row_slot(OpcodeRow::Neg(bits), dst.number(), 0, 0, 0),
        Insn::Mov { bits, dst, source } =>
            operand_slot(OpcodeRow::MovImmediate(bits), OpcodeRow::MovRegister(bits), dst, source, 0),
        Insn::MovSigned { extension, dst, src } =>
            row_slot(OpcodeRow::MovRegister(extension.bits()), dst.number(), src.number(), extension.offset(), 0),
        Insn::End { order, width, dst } => row_slot(OpcodeRow::End(order), dst.number(), 0, 0, width.bits()),
        // Its second slot, with the high half, is written by `put_wide`.
        Insn::LoadWide { dst, value } => row_slot(OpcodeRow::Wide, dst.number(), 0, 0, low(value)),
        Insn::Load { width, dst, base, offset } =>
            row_slot(OpcodeRow::Load(width), dst.number(), base.number(), offset.cast_unsigned(), 0),
        Insn::LoadSigned { width, dst, base, offset } =>
            row_slot(OpcodeRow::LoadSigned(width), dst.number(), base.number(), offset.cast_unsigned(), 0),
        Insn::Store { width, base, offset, source } =>
            operand_slot(OpcodeRow::StoreImmediate(width), OpcodeRow::StoreRegister(width), base, source,
                offset.cast_unsigned()),
        Insn::Jump { offset } => row_slot(OpcodeRow::Jump, 0, 0, offset.cast_unsigned(), 0),
        Insn::JumpLong { distance } => row_slot(OpcodeRow::JumpLong, 0, 0, 0, distance.cast_unsigned()),
        Insn::Branch { bits, comparison, dst, source, offset } =>
            operand_slot(OpcodeRow::BranchImmediate(bits, comparison), OpcodeRow::BranchRegister(bits, comparison), dst,
                source, offset.cast_unsigned()),
        Insn::Call { helper } => row_slot(OpcodeRow::Call, 0, 0, 0, helper),
        Insn::CallLocal { distance } => row_slot(OpcodeRow::Call, 0, 1, 0, distance.cast_unsigned()),
        Insn::Exit => row_slot(OpcodeRow::Exit, 0, 0, 0, 0),
    }
}

fn put_insn(out: &mut Vec<u8>, insn: &Insn) -> Result<(), AllocError>
    ensures spelled { OnOk result (out.new.items ≡ out.old.items ++ bytes_of insn.now) }
    ensures fit { Fits insn.now }
{
    match *insn {
        Insn::LoadWide { dst, value } => put_wide(out, dst, value),
        insn => first_slot(insn).put(out),
    }
}

fn put_wide(out: &mut Vec<u8>, dst: Register, value: u64) -> Result<(), AllocError>
    ensures spelled { OnOk result (out.new.items ≡ out.old.items ++ bytes_of (LoadWide dst value)) }
    ensures fit { dst ≤ 10 }
{
    let high = (value >> 32) as u32;
    row_slot(OpcodeRow::Wide, dst.number(), 0, 0, low(value)).put(out)?;
    Slot {
        opcode: 0,
        dst: 0,
        src: 0,
        offset: 0,
        imm: high,
    }
    .put(out)
}

/// For the prover alone: nothing else says of a value behind a reference that its numbers are
/// within their types' ranges. `slots` proves by it that instructions fit their fields; nothing of
/// it runs.
fn fits(insn: &Insn) -> bool
    ensures always { result ≡ true }
    ensures fit { Fits insn.now }
{
    first_slot(*insn).dst < 16
}

/// Writes code at the end.
pub fn put_code(out: &mut Vec<u8>, insns: &[Insn]) -> Result<(), AllocError>
    ensures spelled { OnOk result (out.new.items ≡ out.old.items ++ spelling insns.now) }
    ensures fit { OnOk result (AllFit insns.now) }
{
    for insn in insns {
        put_insn(out, insn)?;
    }
    Ok(())
}

/// The one spelling of the instructions. Only memory may run out.
pub fn encode(alloc: Global, insns: &[Insn]) -> Result<Vec<u8>, DecodeError>
    ensures code { IfOk result (λ v. IsCode v.items insns.now) }
    ensures refused { IfErr result (λ e. e ≡ NoMemory) }
{
    let mut out = Vec::new(alloc);
    put_code(&mut out, insns)?;
    Ok(out)
}

/// Of each slot, whether an instruction begins there. It is refused for want of memory alone.
pub(crate) fn starts(alloc: Global, insns: &[Insn]) -> Result<Vec<bool>, AllocError>
    ensures { IfOk result (λ v. v.items ≡ starts insns.now) }
{
    let mut starts = Vec::new(alloc);
    for insn in insns {
        starts.push(true)?;
        if width(insn) == 2 {
            starts.push(false)?;
        }
    }
    Ok(starts)
}

/// True if an instruction begins at that slot.
pub(crate) fn is_start(insns: &[Insn], slot: u16) -> bool
    ensures { result ≡ get_or (starts insns.now) slot false }
{
    let slot = slot as usize;
    let mut at = 0;
    for insn in insns {
        if at >= slot {
            return at == slot;
        }
        at += width(insn);
    }
    false
}

/// The number of slots that the instructions take.
pub fn slots(insns: &[Insn]) -> usize
    ensures total { result ≡ slot_total insns.now }
    ensures fit { AllFit insns.now }
{
    let mut total = 0;
    for insn in insns {
        prove!(fits(insn));
        total += width(insn);
    }
    total
}

ghost use Rattle.std.specs.Prelude.{◌≡◌, IsFalse};
ghost use Rattle.asm_lines.specs.Operands.{filled, of_one, of_two, of_three, register_of, immediate_of, unsigned_of};
ghost use Rattle.asm_lines.specs.Operands.{source_of, memory_of, near_target_of, far_target_of};
ghost use Rattle.asm_lines.specs.Drafts.{draft, call_of, instruction_of, has_target};
ghost use Rattle.asm_lines.specs.Texts.{lone, pair, triple};

use crate::fault::AsmFault;
use crate::form::Form;
use crate::operand::{
    both, far_target, immediate, memory, near_target, register, source, unsigned,
};
use crate::target::Target;
use crate::text::{after_word, first_word, lone, pair, triple};
use bpf_decode::{Comparison, Insn, OpWidth, Operand, Register, SignedWidth, Width};

/// An instruction as its line has it: the target of a jump may be a label.
#[derive(Drop)]
pub enum Draft<'a> {
    Plain(Insn),
    Jump(Target<'a>),
    JumpLong(Target<'a>),
    Branch(OpWidth, Comparison, Register, Operand, Target<'a>),
    CallLocal(Target<'a>),
}

/// One register.
fn one_register(rest: &[u8]) -> Result<Register, AsmFault>
    ensures { result ≡ of_one register_of (lone rest.now) }
{
    match lone(rest) {
        Some(a) => register(a),
        None => Err(AsmFault::Operand),
    }
}

/// A register and a source.
fn register_and_source(rest: &[u8]) -> Result<(Register, Operand), AsmFault>
    ensures { result ≡ of_two register_of source_of (pair rest.now) }
{
    match pair(rest) {
        Some((a, b)) => both(register(a), source(b)),
        None => Err(AsmFault::Operand),
    }
}

/// Two registers.
fn two_registers(rest: &[u8]) -> Result<(Register, Register), AsmFault>
    ensures { result ≡ of_two register_of register_of (pair rest.now) }
{
    match pair(rest) {
        Some((a, b)) => both(register(a), register(b)),
        None => Err(AsmFault::Operand),
    }
}

/// A register and a number of 64 bits.
fn register_and_wide(rest: &[u8]) -> Result<(Register, u64), AsmFault>
    ensures { result ≡ of_two register_of (unsigned_of 18446744073709551615) (pair rest.now) }
{
    match pair(rest) {
        Some((a, b)) => both(register(a), unsigned(b, u64::MAX)),
        None => Err(AsmFault::Operand),
    }
}

/// A register and a place.
fn register_and_memory(rest: &[u8]) -> Result<(Register, (Register, i16)), AsmFault>
    ensures { result ≡ of_two register_of memory_of (pair rest.now) }
{
    match pair(rest) {
        Some((a, b)) => both(register(a), memory(b)),
        None => Err(AsmFault::Operand),
    }
}

/// A place and a number.
fn memory_and_number(rest: &[u8]) -> Result<((Register, i16), i32), AsmFault>
    ensures { result ≡ of_two memory_of immediate_of (pair rest.now) }
{
    match pair(rest) {
        Some((a, b)) => both(memory(a), immediate(b)),
        None => Err(AsmFault::Operand),
    }
}

/// A place and a register.
fn memory_and_register(rest: &[u8]) -> Result<((Register, i16), Register), AsmFault>
    ensures { result ≡ of_two memory_of register_of (pair rest.now) }
{
    match pair(rest) {
        Some((a, b)) => both(memory(a), register(b)),
        None => Err(AsmFault::Operand),
    }
}

/// The target of a jump by an offset.
fn one_near(rest: &[u8]) -> Result<Target, AsmFault>
    ensures { result ≡ of_one near_target_of (lone rest.now) }
{
    match lone(rest) {
        Some(a) => near_target(a),
        None => Err(AsmFault::Operand),
    }
}

/// The target of a jump by an immediate.
fn one_far(rest: &[u8]) -> Result<Target, AsmFault>
    ensures { result ≡ of_one far_target_of (lone rest.now) }
{
    match lone(rest) {
        Some(a) => far_target(a),
        None => Err(AsmFault::Operand),
    }
}

/// The operands of a conditional jump: the two that it compares, and its target.
fn branch_operands(rest: &[u8]) -> Result<(Register, (Operand, Target)), AsmFault>
    ensures { result ≡ of_three register_of source_of near_target_of (triple rest.now) }
{
    match triple(rest) {
        Some((a, b, c)) => both(register(a), both(source(b), near_target(c))),
        None => Err(AsmFault::Operand),
    }
}

/// A call, by its operand: `local` and a target, or the id of a helper.
#[tactic(auto, unfolding(crate::specs::Drafts::call_of))]
fn call(text: &[u8]) -> Result<Draft, AsmFault>
    ensures { result ≡ call_of text.now }
{
    if first_word(text) == b"local".as_slice() {
        return match far_target(after_word(text)) {
            Ok(target) => Ok(Draft::CallLocal(target)),
            Err(fault) => Err(fault),
        };
    }
    match unsigned(text, 4294967295) {
        Ok(helper) => Ok(Draft::Plain(Insn::Call {
            helper: helper as u32,
        })),
        Err(fault) => Err(fault),
    }
}

/// A load.
#[rattlefmt::skip]
fn load(width: Width, rest: &[u8]) -> Result<Insn, AsmFault>
    ensures { filled Draft.Plain result ≡ draft (Form.Load width) rest.now }
{
    let (dst, (base, offset)) = register_and_memory(rest)?;
    Ok(Insn::Load { width, dst, base, offset })
}

/// A load with sign extension.
#[rattlefmt::skip]
fn load_signed(width: SignedWidth, rest: &[u8]) -> Result<Insn, AsmFault>
    ensures { filled Draft.Plain result ≡ draft (Form.LoadSigned width) rest.now }
{
    let (dst, (base, offset)) = register_and_memory(rest)?;
    Ok(Insn::LoadSigned { width, dst, base, offset })
}

/// A store of a number.
#[rattlefmt::skip]
fn store_number(width: Width, rest: &[u8]) -> Result<Insn, AsmFault>
    ensures { filled Draft.Plain result ≡ draft (Form.StoreNumber width) rest.now }
{
    let ((base, offset), imm) = memory_and_number(rest)?;
    Ok(Insn::Store { width, base, offset, source: Operand::Immediate(imm) })
}

/// A store of a register.
#[rattlefmt::skip]
fn store_register(width: Width, rest: &[u8]) -> Result<Insn, AsmFault>
    ensures { filled Draft.Plain result ≡ draft (Form.StoreRegister width) rest.now }
{
    let ((base, offset), src) = memory_and_register(rest)?;
    Ok(Insn::Store { width, base, offset, source: Operand::Register(src) })
}

/// A form without a target, with its operands.
#[rattlefmt::skip]
fn plain(form: Form, rest: &[u8]) -> Result<Insn, AsmFault>
    requires { IsFalse (has_target form) }
    ensures { filled Draft.Plain result ≡ draft form rest.now }
{
    match form {
        Form::Alu(bits, operation) => {
            let (dst, source) = register_and_source(rest)?;
            Ok(Insn::Alu { bits, operation, dst, source })
        }
        Form::Neg(bits) => Ok(Insn::Neg { bits, dst: one_register(rest)? }),
        Form::Mov(bits) => {
            let (dst, source) = register_and_source(rest)?;
            Ok(Insn::Mov { bits, dst, source })
        }
        Form::MovSigned(extension) => {
            let (dst, src) = two_registers(rest)?;
            Ok(Insn::MovSigned { extension, dst, src })
        }
        Form::End(order, width) => Ok(Insn::End { order, width, dst: one_register(rest)? }),
        Form::LoadWide => {
            let (dst, value) = register_and_wide(rest)?;
            Ok(Insn::LoadWide { dst, value })
        }
        Form::Load(width) => load(width, rest),
        Form::LoadSigned(width) => load_signed(width, rest),
        Form::StoreNumber(width) => store_number(width, rest),
        Form::StoreRegister(width) => store_register(width, rest),
        Form::Exit => if rest.is_empty() { Ok(Insn::Exit) } else { Err(AsmFault::Operand) },
        // The requires excludes the forms with a target.
        Form::Jump | Form::JumpLong | Form::Branch(_, _) | Form::Call => unreachable!(),
    }
}

/// A form with its operands.
#[rattlefmt::skip]
fn with_operands(form: Form, rest: &[u8]) -> Result<Draft, AsmFault>
    ensures { result ≡ draft form rest.now }
{
    match form {
        Form::Jump => Ok(Draft::Jump(one_near(rest)?)),
        Form::JumpLong => Ok(Draft::JumpLong(one_far(rest)?)),
        Form::Branch(bits, comparison) => {
            let (dst, (source, target)) = branch_operands(rest)?;
            Ok(Draft::Branch(bits, comparison, dst, source, target))
        }
        Form::Call => match lone(rest) { Some(a) => call(a), None => Err(AsmFault::Operand) },
        Form::Alu(_, _) | Form::Neg(_) | Form::Mov(_) | Form::MovSigned(_) | Form::End(_, _) | Form::LoadWide
        | Form::Load(_) | Form::LoadSigned(_) | Form::StoreNumber(_) | Form::StoreRegister(_) | Form::Exit => {
            Ok(Draft::Plain(plain(form, rest)?))
        }
    }
}

/// An instruction's line.
#[tactic(auto, unfolding(crate::specs::Drafts::instruction_of))]
pub(crate) fn instruction(text: &[u8]) -> Result<Draft, AsmFault>
    ensures { result ≡ instruction_of text.now }
{
    match Form::of(first_word(text)) {
        Some(form) => with_operands(form, after_word(text)),
        None => Err(AsmFault::Word),
    }
}

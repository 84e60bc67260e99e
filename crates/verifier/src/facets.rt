//! The sides of an instruction that rules look at: where a run goes on, and what it reads, writes,
//! computes with and calls.

ghost use Rattle.std.specs.Prelude.{◌≡◌};
ghost use Rattle.verifier.specs.Facets.{goes_of, writes_of, reads_of, uses_of, touches_of, callee_of};

use bpf_decode::{Arithmetic, Insn, OpWidth, Operand, Register};

/// The flow of a run after an instruction. A distance is in slots, from the slot after it.
#[derive(Clone, Copy)]
pub enum Goes {
    /// To the instruction after it.
    On,
    /// To a jump's target.
    To(i32),
    /// To a jump's target or to the instruction after it.
    Either(i32),
    /// Nowhere: the method ends.
    Out,
}

/// The registers that an instruction reads, but for a helper's arguments.
#[derive(Clone, Copy)]
pub enum Reads {
    Nothing,
    One(Operand),
    Two(Operand, Operand),
    /// Register 0, the method's answer.
    Answer,
}

/// The use that an instruction makes of the values of registers.
#[derive(Clone, Copy)]
pub enum Uses {
    /// It computes with none: it loads, stores, jumps or calls.
    Nothing,
    /// It computes from two, and replaces the first.
    Computes(OpWidth, Arithmetic, Register, Operand),
    /// It computes from one.
    Changes(Register),
    Copies(OpWidth, Operand),
    Compares(Register, Operand),
    /// It hands register 0 to the caller.
    Answers,
}

/// Bytes of memory: `bytes` of them, at an offset from where a register points.
#[derive(Clone, Copy)]
pub struct Access {
    pub base: Register,
    pub offset: i16,
    pub bytes: usize,
}

/// The memory that an instruction reads or writes, but for a helper's ranges.
#[derive(Clone, Copy)]
pub enum Touches {
    Nothing,
    Loads(Access),
    Stores(Access, Operand),
}

/// The function that an instruction calls, if any.
#[derive(Clone, Copy)]
pub enum Callee {
    Nothing,
    Helper(u32),
    /// A function of the program itself.
    Local,
}

/// The flow of a run after an instruction.
#[rattlefmt::skip]
#[inline(always)]
pub fn goes_of(insn: &Insn) -> Goes
    ensures { result ≡ goes_of insn.now }
{
    match *insn {
        Insn::Alu { .. } => Goes::On,
        Insn::Neg { .. } => Goes::On,
        Insn::Mov { .. } => Goes::On,
        Insn::MovSigned { .. } => Goes::On,
        Insn::End { .. } => Goes::On,
        Insn::LoadWide { .. } => Goes::On,
        Insn::Load { .. } => Goes::On,
        Insn::LoadSigned { .. } => Goes::On,
        Insn::Store { .. } => Goes::On,
        Insn::Jump { offset } => Goes::To(i32::from(offset)),
        Insn::JumpLong { distance } => Goes::To(distance),
        Insn::Branch { offset, .. } => Goes::Either(i32::from(offset)),
        Insn::Call { .. } => Goes::On,
        Insn::CallLocal { .. } => Goes::On,
        Insn::Exit => Goes::Out,
    }
}

/// The register that an instruction writes. A call's answer in register 0 isn't counted.
#[rattlefmt::skip]
#[inline(always)]
pub fn writes_of(insn: &Insn) -> Option<Register>
    ensures { result ≡ writes_of insn.now }
{
    match *insn {
        Insn::Alu { dst, .. } => Some(dst),
        Insn::Neg { dst, .. } => Some(dst),
        Insn::Mov { dst, .. } => Some(dst),
        Insn::MovSigned { dst, .. } => Some(dst),
        Insn::End { dst, .. } => Some(dst),
        Insn::LoadWide { dst, .. } => Some(dst),
        Insn::Load { dst, .. } => Some(dst),
        Insn::LoadSigned { dst, .. } => Some(dst),
        Insn::Store { .. } => None,
        Insn::Jump { .. } => None,
        Insn::JumpLong { .. } => None,
        Insn::Branch { .. } => None,
        Insn::Call { .. } => None,
        Insn::CallLocal { .. } => None,
        Insn::Exit => None,
    }
}

/// The registers that an instruction reads, but for a helper's arguments.
#[rattlefmt::skip]
#[inline(always)]
pub fn reads_of(insn: &Insn) -> Reads
    ensures { result ≡ reads_of insn.now }
{
    match *insn {
        Insn::Alu { dst, source, .. } => Reads::Two(Operand::Register(dst), source),
        Insn::Neg { dst, .. } => Reads::One(Operand::Register(dst)),
        Insn::Mov { source, .. } => Reads::One(source),
        Insn::MovSigned { src, .. } => Reads::One(Operand::Register(src)),
        Insn::End { dst, .. } => Reads::One(Operand::Register(dst)),
        Insn::LoadWide { .. } => Reads::Nothing,
        Insn::Load { base, .. } => Reads::One(Operand::Register(base)),
        Insn::LoadSigned { base, .. } => Reads::One(Operand::Register(base)),
        Insn::Store { base, source, .. } => Reads::Two(Operand::Register(base), source),
        Insn::Jump { .. } => Reads::Nothing,
        Insn::JumpLong { .. } => Reads::Nothing,
        Insn::Branch { dst, source, .. } => Reads::Two(Operand::Register(dst), source),
        Insn::Call { .. } => Reads::Nothing,
        Insn::CallLocal { .. } => Reads::Nothing,
        Insn::Exit => Reads::Answer,
    }
}

/// The use that an instruction makes of the values of registers.
#[rattlefmt::skip]
#[inline(always)]
pub fn uses_of(insn: &Insn) -> Uses
    ensures { result ≡ uses_of insn.now }
{
    match *insn {
        Insn::Alu { bits, operation, dst, source } => Uses::Computes(bits, operation, dst, source),
        Insn::Neg { dst, .. } => Uses::Changes(dst),
        Insn::Mov { bits, source, .. } => Uses::Copies(bits, source),
        Insn::MovSigned { src, .. } => Uses::Changes(src),
        Insn::End { dst, .. } => Uses::Changes(dst),
        Insn::LoadWide { .. } => Uses::Nothing,
        Insn::Load { .. } => Uses::Nothing,
        Insn::LoadSigned { .. } => Uses::Nothing,
        Insn::Store { .. } => Uses::Nothing,
        Insn::Jump { .. } => Uses::Nothing,
        Insn::JumpLong { .. } => Uses::Nothing,
        Insn::Branch { dst, source, .. } => Uses::Compares(dst, source),
        Insn::Call { .. } => Uses::Nothing,
        Insn::CallLocal { .. } => Uses::Nothing,
        Insn::Exit => Uses::Answers,
    }
}

/// The memory that an instruction reads or writes, but for a helper's ranges.
#[rattlefmt::skip]
#[inline(always)]
pub fn touches_of(insn: &Insn) -> Touches
    ensures { result ≡ touches_of insn.now }
{
    match *insn {
        Insn::Alu { .. } => Touches::Nothing,
        Insn::Neg { .. } => Touches::Nothing,
        Insn::Mov { .. } => Touches::Nothing,
        Insn::MovSigned { .. } => Touches::Nothing,
        Insn::End { .. } => Touches::Nothing,
        Insn::LoadWide { .. } => Touches::Nothing,
        Insn::Load { width, base, offset, .. } => Touches::Loads(Access { base, offset, bytes: width.bytes() }),
        Insn::LoadSigned { width, base, offset, .. } => Touches::Loads(Access { base, offset, bytes: width.bytes() }),
        Insn::Store { width, base, offset, source } =>
            Touches::Stores(Access { base, offset, bytes: width.bytes() }, source),
        Insn::Jump { .. } => Touches::Nothing,
        Insn::JumpLong { .. } => Touches::Nothing,
        Insn::Branch { .. } => Touches::Nothing,
        Insn::Call { .. } => Touches::Nothing,
        Insn::CallLocal { .. } => Touches::Nothing,
        Insn::Exit => Touches::Nothing,
    }
}

/// The function that an instruction calls, if any.
#[rattlefmt::skip]
#[inline(always)]
pub fn callee_of(insn: &Insn) -> Callee
    ensures { result ≡ callee_of insn.now }
{
    match *insn {
        Insn::Alu { .. } => Callee::Nothing,
        Insn::Neg { .. } => Callee::Nothing,
        Insn::Mov { .. } => Callee::Nothing,
        Insn::MovSigned { .. } => Callee::Nothing,
        Insn::End { .. } => Callee::Nothing,
        Insn::LoadWide { .. } => Callee::Nothing,
        Insn::Load { .. } => Callee::Nothing,
        Insn::LoadSigned { .. } => Callee::Nothing,
        Insn::Store { .. } => Callee::Nothing,
        Insn::Jump { .. } => Callee::Nothing,
        Insn::JumpLong { .. } => Callee::Nothing,
        Insn::Branch { .. } => Callee::Nothing,
        Insn::Call { helper } => Callee::Helper(helper),
        Insn::CallLocal { .. } => Callee::Local,
        Insn::Exit => Callee::Nothing,
    }
}

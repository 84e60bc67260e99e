//! What an instruction makes of a frame, along each of its edges.

ghost use Rattle.std.specs.Prelude.{◌≡◌, ℕ, ◌<◌, ◌+◌, ◌++◌, ◌^◌, Some, true, false};
ghost use Rattle.std.specs.Option.{option_map, option_and_then};
ghost use Rattle.bpf_decode.specs.Instruction.{slot_count, byte_count};
ghost use Rattle.bpf_decode.specs.Values.{extended};
ghost use Rattle.abstract_num.specs.Plain.{Gives, view};
ghost use Rattle.abstract_num.specs.Edges.{along, first_of};
ghost use Rattle.abstract_num.specs.Tighten.{tighten};
ghost use Rattle.abstract_num.specs.declared.precision.Precision.{Precision};
ghost use Rattle.abstract_num.specs.Transfer.{ranged, load_high};
ghost use Rattle.abstract_regs.specs.Kind as plain;
ghost use Rattle.abstract_regs.specs.Seen.{seen, seen_both};
ghost use Rattle.abstract_regs.specs.Frame.{kind_at, kept_kind, operand_kind, with_kind};
ghost use Rattle.abstract_regs.specs.Kind.{alu_kind};
ghost use Rattle.abstract_regs.specs.Links.{told};
ghost use Rattle.abstract_regs.specs.Flow.{edge_to, computed, same_register, with_operand, with_both, along_edge};
ghost use Rattle.abstract_regs.specs.Flow.{loaded_kind, edges_of, flow};
ghost use Rattle.abstract_regs.specs.Moves.{EachFits, Keeps};
ghost use Rattle.abstract_regs.specs.Edged.{with_edges, refined};
ghost use Rattle.abstract_regs.specs.declared.kind.Kinds.{Kinds};
ghost use Rattle.bpf_decode.specs.declared.insn.Operand.TheVariants as Operand;

use crate::edges::{Branch, Compared, Edges};
use crate::frame::Frame;
use crate::kind::{Kind, Kinds};
use abstract_num::{
    Number, Precision, arithmetic, constant, keeping_laws, loaded, loaded_signed, refine,
};
use bpf_decode::arithmetic::copied;
use bpf_decode::{Arithmetic, Insn, OpWidth, Operand, Register, Width, jump_target};

/// True if a comparison is of a register with itself.
#[inline(always)]
fn is_same_register(dst: Register, source: &Operand) -> bool
    ensures { result ≡ same_register dst source.now }
{
    match *source {
        Operand::Immediate(_) => false,
        Operand::Register(src) => dst.number() == src.number(),
    }
}

/// What an edge of a comparison leaves of the first number.
#[inline(always)]
fn first_along(branch: Branch, taken: bool, x: &Number, y: Number) -> Option<Number>
    ensures { Gives (option_map first_of
        (along branch.precision branch.bits branch.comparison taken (view x.now) (view y))) result }
{
    match refine(
        branch.precision,
        branch.bits,
        branch.comparison,
        taken,
        *x,
        y,
    ) {
        None => None,
        Some((first, _)) => Some(first),
    }
}

impl Frame {
    /// Turns the frame before the instruction at a slot, which no rule refuses, into the one after
    /// it, and gives its edges. `room` is the first register of the range that a call's helper
    /// writes, `answer` the number that it leaves in register 0. If a comparison has both edges,
    /// `fallen` gets the kinds along the second.
    pub fn flow(
        &mut self,
        precision: Precision,
        room: Option<u8>,
        answer: &Number,
        insn: &Insn,
        slot: usize,
        fallen: &mut Kinds,
    ) -> Edges
        requires { slot < 2 ^ 32 }
        ensures table { flow precision room (view answer.now) insn.now slot self.old ≡
            with_edges precision result fallen.new (slot + slot_count insn.now) self.new }
        // A frame along an edge holds after it the values that were held before it.
        ensures keeps { Keeps precision room (view answer.now) insn.now slot self.old }
        ensures fits { EachFits self.old.registers }
    {
        // For the proof: the tables of numbers keep what is held, and the frame's numbers fit.
        keeping_laws();
        self.fits();
        self.relink(precision, room, insn, slot as u32);
        self.flow_on(precision, room, answer, insn, slot, fallen)
    }

    /// The edges, with the links as they stand.
    #[rattlefmt::skip]
    fn flow_on(
        &mut self, precision: Precision, room: Option<u8>, answer: &Number, insn: &Insn, slot: usize,
        fallen: &mut Kinds,
    ) -> Edges
        requires { slot < 2 ^ 62 }
        ensures { edges_of precision room (view answer.now) insn.now slot self.old ≡
            with_edges precision result fallen.new (slot + slot_count insn.now) self.new }
    {
        match *insn {
            Insn::Alu { bits, operation, dst, source } => {
                self.combine(precision, bits, operation, dst, &source)
            }
            Insn::Neg { bits, dst } => self.compute(dst, self.at(dst).neg(precision, bits)),
            Insn::Mov { bits, dst, source } => self.compute(dst, self.operand(source).mov(precision, bits)),
            Insn::MovSigned { extension, dst, src } => self.compute(dst, self.at(src).mov_signed(precision, extension)),
            Insn::End { order, width, dst } => self.compute(dst, self.at(dst).end(precision, order, width)),
            Insn::LoadWide { dst, value } => self.keep(dst, Kind::Num(constant(value))),
            Insn::Load { width, dst, base, offset } => self.keep(dst, self.loaded(precision, width, base, offset)),
            Insn::LoadSigned { width, dst, .. } => self.keep(dst, Kind::Num(loaded_signed(precision, width))),
            Insn::Store { width, base, offset, source } => {
                self.store(precision, base, i64::from(offset).cast_unsigned(), width.bytes(), source);
                Edges::Falls
            }
            Insn::Jump { offset } => Edges::Jumps(jump_target(slot, i64::from(offset))),
            Insn::JumpLong { distance } => Edges::Jumps(jump_target(slot, i64::from(distance))),
            Insn::Branch { bits, comparison, dst, source, offset } => {
                let target = jump_target(slot, i64::from(offset));
                self.branch(Branch { precision, bits, comparison, target }, dst, &source, fallen)
            }
            Insn::Call { .. } => {
                self.end_call(room, answer);
                Edges::Falls
            }
            Insn::CallLocal { .. } | Insn::Exit => Edges::Leaves,
        }
    }

    /// Arithmetic that no rule refuses. The result of two numbers is written straight into the
    /// register: made as a kind first, it would be copied three times more.
    #[inline(always)]
    fn combine(
        &mut self,
        precision: Precision,
        bits: OpWidth,
        operation: Arithmetic,
        dst: Register,
        source: &Operand,
    ) -> Edges
        ensures { (next : ℕ) (kinds : Kinds) →
            computed next self.old dst (alu_kind precision bits operation (kind_at self.old dst)
            (operand_kind self.old source.now)) ≡ with_edges precision result kinds next self.new }
    {
        let made = match (self.peek(dst), source) {
            (Kind::Num(x), Operand::Immediate(imm)) => {
                arithmetic(
                    precision,
                    bits,
                    operation,
                    *x,
                    constant(i64::from(*imm).cast_unsigned()),
                )
            }
            (Kind::Num(x), Operand::Register(src)) => match self.peek(*src) {
                Kind::Num(y) => arithmetic(precision, bits, operation, *x, *y),
                Kind::Unset | Kind::Ptr(_, _) => {
                    return self.compute(dst, self.alu(precision, bits, operation, dst, *source));
                }
            },
            (Kind::Unset | Kind::Ptr(_, _), _) => {
                return self.compute(dst, self.alu(precision, bits, operation, dst, *source));
            }
        };
        match made {
            None => Edges::Leaves,
            Some(number) => self.keep(dst, Kind::Num(number)),
        }
    }

    /// The kind that arithmetic gives which no rule refuses. None if no number is left.
    fn alu(
        &self,
        precision: Precision,
        bits: OpWidth,
        operation: Arithmetic,
        dst: Register,
        source: Operand,
    ) -> Option<Kind>
        ensures { option_map seen result ≡ alu_kind precision bits operation (kind_at self.now dst)
            (operand_kind self.now source) }
    {
        match source {
            Operand::Immediate(_) => {
                Kind::alu(
                    precision,
                    bits,
                    operation,
                    self.peek(dst),
                    &self.operand(source),
                )
            }
            Operand::Register(src) => {
                Kind::alu(precision, bits, operation, self.peek(dst), self.peek(src))
            }
        }
    }

    /// The kind that a load gives: that of the known slot that it reads whole, or else a number of
    /// that many bytes.
    #[inline(always)]
    fn loaded(&self, precision: Precision, width: Width, base: Register, offset: i16) -> Kind
        ensures { Some (seen result) ≡ loaded_kind
            (kept_kind precision self.now (kind_at self.now base) (extended offset) (byte_count width))
            (option_map plain.Num (tighten precision (ranged 0 (load_high width)))) }
    {
        match self.slot(
            precision,
            self.peek(base),
            i64::from(offset).cast_unsigned(),
            width.bytes(),
        ) {
            Some(kind) => kind,
            None => Kind::Num(loaded(precision, width)),
        }
    }

    /// Gives a register a kind, and goes on.
    #[inline(always)]
    fn keep(&mut self, dst: Register, kind: Kind) -> Edges
        ensures { (precision : Precision) (next : ℕ) (kinds : Kinds) →
            computed next self.old dst (Some (seen kind)) ≡ with_edges precision result kinds next self.new }
    {
        self.set(dst, kind);
        Edges::Falls
    }

    /// Gives a register the kind that an instruction computes. If no value is left, no edge leaves
    /// the instruction.
    #[inline(always)]
    fn compute(&mut self, dst: Register, kind: Option<Kind>) -> Edges
        ensures { (precision : Precision) (next : ℕ) (kinds : Kinds) →
            computed next self.old dst (option_map seen kind) ≡ with_edges precision result kinds next self.new }
    {
        match kind {
            None => Edges::Leaves,
            Some(kind) => {
                self.set(dst, kind);
                Edges::Falls
            }
        }
    }

    /// Both edges of a comparison.
    // Its places are many: in one function with the other instructions, each of those would clear
    // them.
    #[inline(never)]
    fn branch(
        &mut self,
        branch: Branch,
        dst: Register,
        source: &Operand,
        place: &mut Kinds,
    ) -> Edges
        ensures { (next : ℕ) → edge_to branch.target
            (along_edge branch.precision branch.bits branch.comparison true dst source.now self.old) ++
            edge_to next (along_edge branch.precision branch.bits branch.comparison false dst source.now self.old) ≡
            with_edges branch.precision result place.new next self.new }
    {
        if let (Kind::Num(x), Operand::Immediate(imm)) = (self.peek(dst), source) {
            // Nothing is kept of what an edge leaves of an immediate.
            let y = constant(copied(branch.bits, i64::from(*imm).cast_unsigned()));
            let taken = first_along(branch, true, x, y);
            let fallen = first_along(branch, false, x, y);
            return self.fork_first(branch, dst, *imm, (taken, fallen), place);
        }
        let same = is_same_register(dst, source);
        let x = self.at(dst);
        let y = self.compared(branch.bits, source);
        let taken = Kind::along(branch, true, same, &x, &y);
        let fallen = Kind::along(branch, false, same, &x, &y);
        self.fork(branch, dst, source, (taken, fallen), place)
    }

    /// Both edges of a comparison with an immediate, by the numbers that each leaves of the register:
    /// the one to the target first.
    #[inline(always)]
    fn fork_first(
        &mut self,
        branch: Branch,
        dst: Register,
        imm: i32,
        left: (Option<Number>, Option<Number>),
        place: &mut Kinds,
    ) -> Edges
        ensures { (next : ℕ) →
            edge_to branch.target (option_and_then (told branch.precision dst (Operand.Immediate imm))
            (option_map (with_kind self.old dst) (option_map plain.Num (option_map view left.0)))) ++
            edge_to next (option_and_then (told branch.precision dst (Operand.Immediate imm))
            (option_map (with_kind self.old dst) (option_map plain.Num (option_map view left.1)))) ≡
            with_edges branch.precision result place.new next self.new }
    {
        let source = &Operand::Immediate(imm);
        match left {
            (None, None) => Edges::Leaves,
            (None, Some(number)) => {
                self.set(dst, Kind::Num(number));
                if self.tell_both(branch.precision, dst, source) {
                    Edges::Falls
                } else {
                    Edges::Leaves
                }
            }
            (Some(number), None) => {
                self.set(dst, Kind::Num(number));
                if self.tell_both(branch.precision, dst, source) {
                    Edges::Jumps(branch.target)
                } else {
                    Edges::Leaves
                }
            }
            (Some(number), Some(other)) => {
                self.set(dst, Kind::Num(number));
                place.dst = Kind::Num(other);
                let compared = Compared {
                    dst,
                    source: *source,
                };
                if self.is_told(dst, source) {
                    Edges::Forks(branch.target, compared)
                } else {
                    Edges::Branches(branch.target, compared)
                }
            }
        }
    }

    /// Both edges, by the kinds that each leaves: the one to the target first. If both are live, the
    /// place gets the kinds along the second.
    #[inline(always)]
    fn fork(
        &mut self,
        branch: Branch,
        dst: Register,
        source: &Operand,
        left: (Option<Kinds>, Option<Kinds>),
        place: &mut Kinds,
    ) -> Edges
        ensures { (next : ℕ) →
            edge_to branch.target (option_and_then (told branch.precision dst source.now)
            (option_map (with_both self.old dst source.now) (option_map seen_both left.0))) ++
            edge_to next (option_and_then (told branch.precision dst source.now)
            (option_map (with_both self.old dst source.now) (option_map seen_both left.1))) ≡
            with_edges branch.precision result place.new next self.new }
    {
        match left {
            (None, None) => Edges::Leaves,
            (None, Some(kinds)) => {
                self.put_both(dst, source, kinds);
                if self.tell_both(branch.precision, dst, source) {
                    Edges::Falls
                } else {
                    Edges::Leaves
                }
            }
            (Some(kinds), None) => {
                self.put_both(dst, source, kinds);
                if self.tell_both(branch.precision, dst, source) {
                    Edges::Jumps(branch.target)
                } else {
                    Edges::Leaves
                }
            }
            (Some(kinds), Some(others)) => {
                self.put_both(dst, source, kinds);
                *place = others;
                let compared = Compared {
                    dst,
                    source: *source,
                };
                if self.is_told(dst, source) {
                    Edges::Forks(branch.target, compared)
                } else {
                    Edges::Branches(branch.target, compared)
                }
            }
        }
    }

    /// Gives the operands of a comparison the kinds that they have along another edge.
    pub fn refine(&mut self, compared: &Compared, kinds: &Kinds)
        ensures { self.new ≡ refined self.old compared.now kinds.now }
    {
        self.put_both(compared.dst, &compared.source, *kinds);
    }

    /// Gives the registers of a comparison other kinds.
    #[inline(always)]
    fn put_both(&mut self, dst: Register, source: &Operand, kinds: Kinds)
        ensures { self.new ≡ with_both self.old dst source.now (seen_both kinds) }
    {
        self.set(dst, kinds.dst);
        self.put(source, kinds.source);
    }

    /// Gives an operand another kind, if it is a register.
    #[inline(always)]
    fn put(&mut self, source: &Operand, kind: Kind)
        ensures { self.new ≡ with_operand self.old source.now (seen kind) }
    {
        match *source {
            Operand::Immediate(_) => {}
            Operand::Register(src) => self.set(src, kind),
        }
    }
}

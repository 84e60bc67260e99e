ghost use Rattle.std.specs.Prelude.{◌≡◌, IfOk, OnOk, length, replicate, slice_get, slice_set};
ghost use Rattle.std.specs.Option.{option_map};
ghost use Rattle.abstract_num.specs.Plain.{view};
ghost use Rattle.abstract_regs.specs.Frame.{kind_at, or_unset, with_kind, join, entry_frame, after_call, after_answer};
ghost use Rattle.abstract_regs.specs.Frame.{after_store, kept_kind, room_span, operand_kind, compared_kind, with_slots};
ghost use Rattle.abstract_regs.specs.Frame.{with_links};
ghost use Rattle.abstract_regs.specs.Link.{no_link};
ghost use Rattle.abstract_regs.specs.Slots.{stack_place, stack_range, access_span, spoiled, meets};
ghost use Rattle.abstract_regs.specs.Moves.{EachFits};
ghost use Rattle.abstract_regs.specs.Seen.{seen, seen_each};

use crate::content::Content;
use crate::kind::Kind;
use crate::link::Link;
use crate::links::{free, join_links, unlink};
use crate::slots::{fit_all, join_all, join_slots, meets, spoil, zeros};
use crate::stack_span::{StackSpan, access_span, stack_place, stack_range, whole_slot};
use abstract_num::{Number, Precision, between, constant};
use bpf_decode::arithmetic::copied;
use bpf_decode::{OpWidth, Operand, Region, Register};
use std::alloc::{AllocError, Global};
use std::marker::Model;

/// The state before an instruction: the kinds of the eleven registers, and those of the stack's
/// slots of eight bytes, if such are known, with the links between both, if such are followed.
/// Contracts see them in plain numbers.
#[derive(Drop)]
pub struct Frame {
    pub(crate) registers: [Kind; 11],
    pub(crate) slots: Vec<Kind>,
    pub(crate) links: Vec<Link>,
}

impl Model for Frame {
    ghost use Rattle.abstract_regs.specs.Frame.{PlainFrame};
    ghost use Rattle.abstract_regs.specs.Seen.{seen_each};

    ghost Value = { PlainFrame };

    ghost view = { λ f. record {
      registers = seen_each f.registers;
      slots = seen_each f.slots.items;
      links = f.links.items;
    } };
}

impl Frame {
    /// As a method begins: 1 points to the input, 2 is its length, at most `in_cap`, 3 points to
    /// the output, 10 to the end of a stack of `stack` bytes. `count` slots of the stack are known,
    /// each as the number 0. `places` registers and slots can be linked; none is.
    pub fn entry(
        alloc: Global,
        precision: Precision,
        in_cap: u64,
        stack: u64,
        count: usize,
        places: usize,
    ) -> Result<Frame, AllocError>
        ensures { IfOk result (λ f. f ≡ entry_frame precision in_cap stack count places) }
    {
        let slots = zeros(alloc, count)?;
        let links = free(alloc, places)?;
        let mut registers = [Kind::Unset; 11];
        registers[1] = Kind::Ptr(Region::Input, constant(0));
        registers[2] = Kind::Num(between(precision, 0, in_cap));
        registers[3] = Kind::Ptr(Region::Output, constant(0));
        registers[10] = Kind::Ptr(Region::Stack, constant(stack));
        Ok(Frame {
            registers,
            slots,
            links,
        })
    }

    /// An equal frame. It takes memory for its slots and links alone, and rule set 1 has none.
    pub fn copy(&self, alloc: Global) -> Result<Frame, AllocError>
        ensures { IfOk result (λ f. f ≡ self.now) }
    {
        let slots = Vec::from_slice(alloc, &self.slots)?;
        let links = Vec::from_slice(alloc, &self.links)?;
        Ok(Frame {
            registers: self.registers,
            slots,
            links,
        })
    }

    /// Becomes an equal frame, in its own memory if that has room for the slots and the links.
    pub fn copy_from(&mut self, other: &Frame) -> Result<(), AllocError>
        ensures { OnOk result (self.new ≡ other.now) }
    {
        self.slots.clear();
        self.slots.extend_from_slice(&other.slots)?;
        self.links.clear();
        self.links.extend_from_slice(&other.links)?;
        self.registers = other.registers;
        Ok(())
    }

    /// Its numbers are below `2^64`. It does nothing.
    pub(crate) fn fits(&self)
        ensures fits { EachFits self.now.registers }
        ensures eleven { length self.now.registers ≡ 11 }
    {
        fit_all(&self.registers);
    }

    /// The kind of the register of that number; past 10 it is Unset.
    #[inline(always)]
    pub fn kind(&self, register: usize) -> Kind
        ensures { seen result ≡ kind_at self.now register }
    {
        kind_in(&self.registers, register)
    }

    /// The kind of a register.
    #[inline(always)]
    pub fn at(&self, register: Register) -> Kind
        ensures { seen result ≡ kind_at self.now register }
    {
        self.kind(usize::from(register.number()))
    }

    /// The kind of a register, borrowed.
    #[inline(always)]
    pub fn peek(&self, register: Register) -> &Kind
        ensures { seen result.now ≡ kind_at self.now register }
    {
        kind_of(&self.registers, register)
    }

    /// Gives a register another kind.
    #[inline(always)]
    pub fn set(&mut self, dst: Register, kind: Kind)
        ensures { self.new ≡ with_kind self.old dst (seen kind) }
    {
        self.registers[usize::from(dst.number())] = kind;
    }

    /// Joins it in place with a later flow at a merge point.
    pub fn join(&mut self, other: &Frame)
        ensures { self.new ≡ join self.old other.now }
    {
        join_all(&mut self.registers, &other.registers);
        join_slots(&mut self.slots, &other.slots);
        join_links(&mut self.links, &other.links);
    }

    /// After a helper's call: register 0 is the number of its answer, registers 1 to 5 are unset,
    /// and the slots that its writable range may touch are overwritten; `room` is that range's
    /// first register.
    pub(crate) fn end_call(&mut self, room: Option<u8>, answer: &Number)
        ensures { self.new ≡ after_call room (view answer.now) self.old }
    {
        self.spoil_room(room);
        self.set_answer(*answer);
    }

    /// The answer takes the place of the arguments.
    fn set_answer(&mut self, answer: Number)
        ensures { self.new ≡ after_answer (view answer) self.old }
    {
        self.registers[0] = Kind::Num(answer);
        self.registers[1] = Kind::Unset;
        self.registers[2] = Kind::Unset;
        self.registers[3] = Kind::Unset;
        self.registers[4] = Kind::Unset;
        self.registers[5] = Kind::Unset;
    }

    fn spoil_room(&mut self, room: Option<u8>)
        ensures { self.new ≡ with_slots self.old (spoiled (room_span self.old room) 0 self.old.slots) }
    {
        // Rule set 1 knows no slots: it has nothing to overwrite.
        if !self.slots.is_empty() {
            let span = self.room_span(room);
            spoil(&mut self.slots, span);
        }
    }

    /// The bytes of the stack that a helper may write.
    pub(crate) fn room_span(&self, room: Option<u8>) -> Option<StackSpan>
        ensures { result ≡ room_span self.now room }
    {
        match room {
            None => None,
            Some(register) => {
                let first = usize::from(register);
                stack_range(self.kind(first), self.kind(first + 1))
            }
        }
    }

    /// The kind of the slot that an access covers, at a distance from where `base` points, if it is
    /// one whole slot that is known.
    #[inline(always)]
    pub fn slot(
        &self,
        precision: Precision,
        base: &Kind,
        distance: u64,
        bytes: usize,
    ) -> Option<Kind>
        ensures { option_map seen result ≡ kept_kind precision self.now (seen base.now) distance bytes }
    {
        if self.slots.is_empty() {
            None
        } else {
            match whole_slot(stack_place(precision, base, distance), bytes) {
                None => None,
                Some(slot) => self.slots.get(slot).copied(),
            }
        }
    }

    /// True if a slot that the bytes of an access may touch has that content.
    #[inline(always)]
    pub fn access_meets(
        &self,
        precision: Precision,
        content: Content,
        base: &Kind,
        distance: u64,
        bytes: usize,
    ) -> bool
        ensures { result ≡ meets content (access_span (stack_place precision (seen base.now) distance) bytes)
            0 self.now.slots }
    {
        !self.slots.is_empty()
            && meets(
                content,
                &self.slots,
                access_span(stack_place(precision, base, distance), bytes),
            )
    }

    /// True if a slot that a helper's range may touch has that content.
    #[inline(always)]
    pub fn range_meets(&self, content: Content, pointer: Kind, length: Kind) -> bool
        ensures { result ≡ meets content (stack_range (seen pointer) (seen length)) 0 self.now.slots }
    {
        !self.slots.is_empty() && meets(content, &self.slots, stack_range(pointer, length))
    }

    /// After a store of an operand through a register.
    pub(crate) fn store(
        &mut self,
        precision: Precision,
        base: Register,
        distance: u64,
        bytes: usize,
        source: Operand,
    )
        ensures { self.new ≡ after_store precision self.old (kind_at self.old base) distance bytes
            (operand_kind self.old source) }
    {
        if !self.slots.is_empty() {
            let place = stack_place(precision, self.peek(base), distance);
            match whole_slot(place, bytes) {
                None => spoil(&mut self.slots, access_span(place, bytes)),
                Some(slot) => {
                    let kind = self.operand(source);
                    self.set_slot(slot, kind)
                }
            }
        }
    }

    /// Gives a slot of the stack that is known another kind.
    pub fn set_slot(&mut self, slot: usize, kind: Kind)
        ensures { self.new ≡ with_slots self.old (slice_set self.old.slots slot (seen kind)) }
    {
        if slot < self.slots.len() {
            self.slots[slot] = kind;
        }
    }

    /// The number of slots of the stack that are known.
    #[inline(always)]
    pub fn slot_count(&self) -> usize
        ensures { result ≡ length self.now.slots }
    {
        self.slots.len()
    }

    /// The kind of the slot of that number; past those that are known it is Unset.
    #[inline(always)]
    pub fn slot_kind(&self, slot: usize) -> Kind
        ensures { seen result ≡ or_unset (slice_get self.now.slots slot) }
    {
        match self.slots.get(slot) {
            None => Kind::Unset,
            Some(kind) => *kind,
        }
    }

    /// Takes all links away.
    pub fn unlink(&mut self)
        ensures { self.new ≡ with_links self.old (replicate (length self.old.links) no_link) }
    {
        let places = self.links.len();
        unlink(&mut self.links, 0, places);
    }

    /// The kind of an instruction's source operand.
    #[inline(always)]
    pub fn operand(&self, source: Operand) -> Kind
        ensures { seen result ≡ operand_kind self.now source }
    {
        match source {
            Operand::Immediate(imm) => Kind::Num(constant(i64::from(imm).cast_unsigned())),
            Operand::Register(src) => self.at(src),
        }
    }

    /// The kind of a comparison's source operand; one of 32 bits takes an immediate modulo 2^32.
    #[inline(always)]
    pub(crate) fn compared(&self, bits: OpWidth, source: &Operand) -> Kind
        ensures { seen result ≡ compared_kind bits self.now source.now }
    {
        match *source {
            Operand::Immediate(imm) => {
                Kind::Num(constant(copied(bits, i64::from(imm).cast_unsigned())))
            }
            Operand::Register(src) => self.at(src),
        }
    }
}

#[inline(always)]
fn kind_in(registers: &[Kind; 11], register: usize) -> Kind
    ensures { seen result ≡ or_unset (slice_get (seen_each registers.now) register) }
{
    match registers.get(register) {
        None => Kind::Unset,
        Some(kind) => *kind,
    }
}

#[inline(always)]
fn kind_of(registers: &[Kind; 11], register: Register) -> &Kind
    ensures { seen result.now ≡ or_unset (slice_get (seen_each registers.now) register) }
{
    &registers[usize::from(register.number())]
}

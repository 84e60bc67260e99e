//! Which places hold numbers that come from one, after an instruction.

ghost use Rattle.std.specs.Prelude.{◌≡◌, ◌<◌, ◌^◌, IfSome, length, slice_set};
ghost use Rattle.abstract_num.specs.Plain.{view};
ghost use Rattle.abstract_regs.specs.Seen.{seen};
ghost use Rattle.abstract_regs.specs.Frame.{kind_at, operand_kind, room_span, with_links};
ghost use Rattle.abstract_regs.specs.Slots.{stack_place, access_span};
ghost use Rattle.abstract_regs.specs.Link.{no_link, link_in, unlinked};
ghost use Rattle.abstract_regs.specs.Links as plain;
ghost use Rattle.abstract_regs.specs.Links.{is_touched, is_clobbered, taken, is_short, constant_of, alu_link};
ghost use Rattle.abstract_regs.specs.Links.{computed_link, accessed_slot, copied_link, halved_link, moved_links};
ghost use Rattle.abstract_regs.specs.Links.{extended_links, loaded_links, stored_links, relinked};

use crate::frame::Frame;
use crate::kind::Kind;
use crate::link::{Link, LinkForm, is_ones};
use crate::links::{link_in, unlink};
use crate::stack_span::{StackSpan, access_span, stack_place, whole_slot};
use abstract_num::{Number, Precision};
use bpf_decode::arithmetic::copied;
use bpf_decode::{Arithmetic, Insn, OpWidth, Operand, Register, SignedMove};

/// The place of the first slot, after those of the registers.
pub(crate) const FIRST_SLOT: usize = 11;

/// An access: the register with its pointer, what is added to that, modulo `2^64`, and its length.
#[derive(Clone, Copy)]
struct Access {
    base: Register,
    distance: u64,
    bytes: usize,
}

/// The link of a place whose number the instruction at a slot copies. A number that has none gets
/// one; what isn't a number gives none.
#[inline(always)]
fn taken(slot: u32, kind: &Kind, link: Link) -> Link
    ensures { result ≡ taken slot (seen kind.now) link }
{
    match kind {
        Kind::Num(_) => {
            if link.form.is_linked() {
                link
            } else {
                Link {
                    distance: 0,
                    name: slot,
                    form: LinkForm::Whole,
                }
            }
        }
        Kind::Unset | Kind::Ptr(_, _) => Link::none(),
    }
}

/// True of a number of 32 bits, unsigned or signed.
fn is_short(kind: &Kind) -> bool
    ensures { result ≡ is_short (seen kind.now) }
{
    match kind {
        Kind::Num(number) => {
            number.unsigned().high < 1 << 32
                || number.signed().low >= -0x8000_0000 && number.signed().high < 0x8000_0000
        }
        Kind::Unset | Kind::Ptr(_, _) => false,
    }
}

/// The number that an operation takes from its source, if it is one alone.
#[inline(always)]
fn constant_of(bits: OpWidth, kind: &Kind) -> Option<u64>
    ensures { result ≡ constant_of bits (seen kind.now) }
{
    match kind {
        Kind::Num(number) => {
            let range = number.unsigned();
            if range.low == range.high {
                Some(copied(bits, range.low))
            } else {
                None
            }
        }
        Kind::Unset | Kind::Ptr(_, _) => None,
    }
}

/// The link, if the shift is by 32.
#[inline(always)]
fn shifted(by: u64, link: Link) -> Link
    ensures { result ≡ plain.shifted_link by link }
{
    if by % 64 == 32 { link } else { Link::none() }
}

/// The link that a bitwise `and` leaves of a number.
fn masked(x: &Number, mask: u64, link: Link) -> Link
    ensures { result ≡ plain.masked_link (view x.now) mask link }
{
    if is_ones(mask) && x.unsigned().high <= mask {
        link
    } else if mask == 1 << 31 {
        link.shaped(link.form.sign())
    } else {
        Link::none()
    }
}

/// The link that arithmetic of a number and a constant leaves.
#[rattlefmt::skip]
fn alu_link(bits: OpWidth, operation: Arithmetic, x: &Number, by: u64, link: Link) -> Link
    ensures { result ≡ alu_link bits operation (view x.now) by link }
{
    match (bits, operation) {
        (OpWidth::Bits64, Arithmetic::Add) => link.moved(by),
        (OpWidth::Bits64, Arithmetic::Sub) => link.moved_back(by),
        (OpWidth::Bits64, Arithmetic::Lsh) => shifted(by, link.shaped(link.form.up())),
        (OpWidth::Bits64, Arithmetic::Rsh) => shifted(by, link.shaped(link.form.down())),
        (OpWidth::Bits64, Arithmetic::Arsh) => shifted(by, link.shaped(link.form.down())),
        (_, Arithmetic::And) => masked(x, by, link),
        _ => Link::none(),
    }
}

/// The link that arithmetic leaves.
fn computed_link(bits: OpWidth, operation: Arithmetic, x: &Kind, y: &Kind, link: Link) -> Link
    ensures { result ≡ computed_link bits operation (seen x.now) (seen y.now) link }
{
    match x {
        Kind::Num(number) => match constant_of(bits, y) {
            None => Link::none(),
            Some(by) => alu_link(bits, operation, number, by, link),
        },
        Kind::Unset | Kind::Ptr(_, _) => Link::none(),
    }
}

impl Frame {
    /// Changes the links to those after the instruction at a slot, and leaves the kinds as they
    /// are.
    #[inline(always)]
    pub(crate) fn relink(&mut self, precision: Precision, room: Option<u8>, insn: &Insn, slot: u32)
        ensures { self.new ≡ relinked precision room insn.now slot self.old }
    {
        // Rule sets 1 and 2 follow no links: there is nothing to change.
        if !self.links.is_empty() {
            self.relink_after(precision, room, insn, slot);
        }
    }

    #[rattlefmt::skip]
    fn relink_after(&mut self, precision: Precision, room: Option<u8>, insn: &Insn, slot: u32)
        ensures { self.new ≡ relinked precision room insn.now slot self.old }
    {
        match *insn {
            Insn::Alu { bits, operation, dst, source } => self.link_computed(bits, operation, dst, &source),
            Insn::Neg { bits: _, dst } => self.free(dst),
            Insn::Mov { bits, dst, source } => self.link_moved(bits, &source, slot, dst),
            Insn::MovSigned { extension, dst, src } => self.link_extended(extension, src, slot, dst),
            Insn::End { order: _, width: _, dst } => self.free(dst),
            Insn::LoadWide { dst, value: _ } => self.free(dst),
            Insn::Load { width, dst, base, offset } => {
                let access = Access { base, distance: i64::from(offset).cast_unsigned(), bytes: width.bytes() };
                self.link_loaded(precision, access, slot, dst)
            }
            Insn::LoadSigned { width: _, dst, base: _, offset: _ } => self.free(dst),
            Insn::Store { width, base, offset, source } => {
                let access = Access { base, distance: i64::from(offset).cast_unsigned(), bytes: width.bytes() };
                self.link_stored(precision, access, &source, slot)
            }
            Insn::Call { .. } => self.free_called(room),
            Insn::Jump { .. } | Insn::JumpLong { .. } | Insn::Branch { .. } => {}
            Insn::CallLocal { .. } | Insn::Exit => {}
        }
    }

    /// The link of a place: of a register, or of a slot of the stack, from place 11 on. Past the
    /// last place, and in rule sets 1 and 2, there is none.
    #[inline(always)]
    pub fn link(&self, place: usize) -> Link
        ensures { result ≡ link_in self.now.links place }
    {
        link_in(&self.links, place)
    }

    /// Gives a place another link.
    #[inline(always)]
    fn set_link(&mut self, place: usize, link: Link)
        ensures { self.new ≡ with_links self.old (slice_set self.old.links place link) }
    {
        if place < self.links.len() {
            self.links[place] = link;
        }
    }

    /// Takes a register's link away.
    #[inline(always)]
    pub fn free(&mut self, dst: Register)
        ensures { self.new ≡ with_links self.old (slice_set self.old.links dst no_link) }
    {
        self.set_link(usize::from(dst.number()), Link::none());
    }

    /// After a copy of a place's number.
    fn copy_link(&mut self, slot: u32, source: usize, kind: &Kind, target: usize)
        ensures { self.new ≡ with_links self.old (copied_link slot self.old.links source (seen kind.now) target) }
    {
        let link = taken(slot, kind, self.link(source));
        self.set_link(source, link);
        self.set_link(target, link);
    }

    /// After a copy of the low half of a register's number.
    fn halve_link(&mut self, slot: u32, src: Register, dst: Register)
        ensures { self.new ≡ with_links self.old (halved_link slot self.old.links src (kind_at self.old src) dst) }
    {
        let kind = self.at(src);
        if is_short(&kind) {
            let source = usize::from(src.number());
            let link = taken(slot, &kind, self.link(source));
            self.set_link(source, link);
            self.set_link(usize::from(dst.number()), link.shaped(link.form.low()));
        } else {
            self.free(dst);
        }
    }

    fn link_moved(&mut self, bits: OpWidth, source: &Operand, slot: u32, dst: Register)
        ensures { self.new ≡ with_links self.old (moved_links bits source.now slot self.old dst) }
    {
        match *source {
            Operand::Immediate(_) => self.free(dst),
            Operand::Register(src) => match bits {
                OpWidth::Bits64 => {
                    let kind = self.at(src);
                    self.copy_link(
                        slot,
                        usize::from(src.number()),
                        &kind,
                        usize::from(dst.number()),
                    )
                }
                OpWidth::Bits32 => self.halve_link(slot, src, dst),
            },
        }
    }

    fn link_extended(&mut self, extension: SignedMove, src: Register, slot: u32, dst: Register)
        ensures { self.new ≡ with_links self.old (extended_links extension src slot self.old dst) }
    {
        match extension {
            SignedMove::Word64 => self.halve_link(slot, src, dst),
            SignedMove::Byte64 | SignedMove::Half64 => self.free(dst),
            SignedMove::Byte32 | SignedMove::Half32 => self.free(dst),
        }
    }

    fn link_computed(
        &mut self,
        bits: OpWidth,
        operation: Arithmetic,
        dst: Register,
        source: &Operand,
    )
        ensures { self.new ≡ with_links self.old
            (slice_set self.old.links dst (computed_link bits operation (kind_at self.old dst)
            (operand_kind self.old source.now) (link_in self.old.links dst))) }
    {
        let place = usize::from(dst.number());
        let link = computed_link(
            bits,
            operation,
            self.peek(dst),
            &self.operand(*source),
            self.link(place),
        );
        self.set_link(place, link);
    }

    /// The slot that an access is, if it is known.
    fn accessed(&self, precision: Precision, access: Access) -> Option<usize>
        ensures slot { result ≡
            accessed_slot precision self.now (kind_at self.now access.base) access.distance access.bytes }
        ensures known { IfSome result (λ j. j < length self.now.slots) }
        ensures small { IfSome result (λ j. j < 2 ^ 61) }
    {
        let Access {
            base,
            distance,
            bytes,
        } = access;
        match whole_slot(stack_place(precision, self.peek(base), distance), bytes) {
            None => None,
            Some(slot) => {
                if slot < self.slots.len() {
                    Some(slot)
                } else {
                    None
                }
            }
        }
    }

    fn link_loaded(&mut self, precision: Precision, access: Access, slot: u32, dst: Register)
        ensures { self.new ≡ with_links self.old (loaded_links
            (accessed_slot precision self.old (kind_at self.old access.base) access.distance access.bytes) slot self.old
            dst) }
    {
        match self.accessed(precision, access) {
            None => self.free(dst),
            Some(j) => {
                let kind = self.slots[j];
                self.copy_link(slot, FIRST_SLOT + j, &kind, usize::from(dst.number()))
            }
        }
    }

    fn link_stored(&mut self, precision: Precision, access: Access, source: &Operand, slot: u32)
        ensures { self.new ≡ with_links self.old (stored_links
            (accessed_slot precision self.old (kind_at self.old access.base) access.distance access.bytes)
            (access_span (stack_place precision (kind_at self.old access.base) access.distance) access.bytes) source.now
            slot self.old) }
    {
        let Access {
            base,
            distance,
            bytes,
        } = access;
        match self.accessed(precision, access) {
            None => {
                let span = access_span(stack_place(precision, self.peek(base), distance), bytes);
                self.free_span(span)
            }
            Some(j) => match *source {
                Operand::Immediate(_) => self.set_link(FIRST_SLOT + j, Link::none()),
                Operand::Register(src) => {
                    let kind = self.at(src);
                    self.copy_link(slot, usize::from(src.number()), &kind, FIRST_SLOT + j)
                }
            },
        }
    }

    /// Takes the links of the slots that may have one of the bytes away.
    fn free_span(&mut self, span: Option<StackSpan>)
        ensures { self.new ≡ with_links self.old (unlinked (is_touched span) 0 self.old.links) }
    {
        if let Some(span) = span {
            let end = span.end(self.links.len());
            unlink(&mut self.links, FIRST_SLOT + span.first(), FIRST_SLOT + end);
        }
    }

    /// Takes the links away that a helper's call ends.
    fn free_called(&mut self, room: Option<u8>)
        ensures { self.new ≡ with_links self.old
            (unlinked (is_touched (room_span self.old room)) 0 (unlinked is_clobbered 0 self.old.links)) }
    {
        let span = self.room_span(room);
        unlink(&mut self.links, 0, 6);
        self.free_span(span);
    }
}

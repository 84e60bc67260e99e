//! What is known at each slot of a method with heads, and whether it is true of a state.

use abstract_num::{Precision, holds};
use abstract_regs::{Compared, Edges, Frame, Kind, Kinds, Link, LinkForm};
use bpf_decode::{Insn, Operand, RuleSet, jump_target, width};
use bpf_machine::{Caps, Region, STACK_SIZE};
use flat_machine::{FlatState, Layout};
use loop_frames::{PLACES, PairCompared, PointerPair, declare, pair_of, refine_pair, subtract};
use loop_heads::Loops;
use std::alloc::{AllocError, Global};
use verifier::{answer, room};

/// A method has fewer slots.
const MOST: usize = 4096;

const PRECISION: Precision = Precision::Halves;

/// The frames of a method's slots, as one pass finds them.
#[derive(Drop)]
pub struct Frames {
    alloc: Global,
    /// By slot: what flows there from lower ones, and when the pass has been there, what is known.
    known: Vec<Option<Frame>>,
    place: Kinds,
}

/// A frame, if it is live.
fn if_live(is_live: bool, frame: Frame) -> Option<Frame> {
    if is_live { Some(frame) } else { None }
}

/// A frame along an edge once the compared registers have told what they know.
fn told(mut frame: Frame, compared: &Compared) -> Option<Frame> {
    let is_live = frame.tell(PRECISION, compared);
    if_live(is_live, frame)
}

/// A frame along an edge of a comparison of two pointers.
fn refined(mut frame: Frame, compared: &PairCompared, taken: bool) -> Option<Frame> {
    let is_live = refine_pair(compared, taken, &mut frame);
    if_live(is_live, frame)
}

impl Frames {
    /// The frames of a method whose heads are right.
    pub fn of(alloc: Global, caps: &Caps, loops: &Loops, code: &[Insn]) -> Option<Frames> {
        let mut frames = Frames {
            alloc,
            known: Vec::new(alloc),
            place: Kinds::unset(),
        };
        for insn in code {
            for _ in 0..width(insn) {
                frames.known.push(None).ok()?;
            }
        }
        let entry = Frame::entry(
            alloc,
            PRECISION,
            u64::from(caps.in_cap),
            STACK_SIZE as u64,
            64,
            PLACES,
        )
        .ok()?;
        frames.give(0, Some(entry))?;
        frames.pass(caps, loops, code)?;
        Some(frames)
    }

    /// What is known at a slot, if a run can come there.
    pub fn at(&self, slot: u64) -> Option<&Frame> {
        self.known.get(slot as usize)?.as_ref()
    }

    /// A flow to a slot; none if there is none.
    fn give(&mut self, slot: usize, flow: Option<Frame>) -> Option<()> {
        let Some(flow) = flow else {
            return Some(());
        };
        let known = self.known.get_mut(slot)?;
        match known {
            None => *known = Some(flow),
            Some(first) => first.join(&flow),
        }
        Some(())
    }

    /// A flow of a jump, if it doesn't go back.
    fn send(&mut self, slot: usize, target: usize, flow: Option<Frame>) -> Option<()> {
        if target <= slot {
            Some(())
        } else {
            self.give(target, flow)
        }
    }

    fn pass(&mut self, caps: &Caps, loops: &Loops, code: &[Insn]) -> Option<()> {
        let mut slot = 0usize;
        for insn in code {
            if slot >= MOST {
                return None;
            }
            if let Some(frame) = self.enter(loops, slot).ok()? {
                self.flow(caps, slot, insn, frame)?;
            }
            slot += width(insn);
        }
        Some(())
    }

    /// A copy of what is known at a slot, once it has what is declared there.
    fn enter(&mut self, loops: &Loops, slot: usize) -> Result<Option<Frame>, AllocError> {
        match self.known.get_mut(slot) {
            Some(Some(frame)) => {
                if let Some(places) = loops.at(slot) {
                    declare(PRECISION, places, frame);
                }
                Ok(Some(frame.copy(self.alloc)?))
            }
            Some(None) | None => Ok(None),
        }
    }

    /// The flows of an instruction under a frame.
    fn flow(&mut self, caps: &Caps, slot: usize, insn: &Insn, frame: Frame) -> Option<()> {
        match pair_of(caps, &frame, insn) {
            None => self.flow_on(slot, insn, frame),
            Some(pair) => self.flow_pair(slot, insn, &pair, frame),
        }
    }

    fn flow_on(&mut self, slot: usize, insn: &Insn, mut frame: Frame) -> Option<()> {
        if slot >= MOST {
            return None;
        }
        let answer = answer(RuleSet::Three, &frame, insn);
        let next = slot + width(insn);
        match frame.flow(PRECISION, room(insn), &answer, insn, slot, &mut self.place) {
            Edges::Leaves => Some(()),
            Edges::Falls => self.give(next, Some(frame)),
            Edges::Jumps(target) => self.send(slot, target, Some(frame)),
            Edges::Branches(target, compared) => {
                let taken = frame.copy(self.alloc).ok()?;
                frame.refine(&compared, &self.place);
                self.send(slot, target, Some(taken))?;
                self.give(next, Some(frame))
            }
            Edges::Forks(target, compared) => {
                let taken = frame.copy(self.alloc).ok()?;
                frame.refine(&compared, &self.place);
                self.send(slot, target, told(taken, &compared))?;
                self.give(next, told(frame, &compared))
            }
        }
    }

    fn flow_pair(
        &mut self,
        slot: usize,
        insn: &Insn,
        pair: &PointerPair,
        mut frame: Frame,
    ) -> Option<()> {
        if slot >= MOST {
            return None;
        }
        let next = slot + width(insn);
        match *insn {
            Insn::Alu { dst, .. } => {
                let is_live = subtract(PRECISION, dst, pair, &mut frame);
                self.give(next, if_live(is_live, frame))
            }
            Insn::Branch {
                comparison,
                dst,
                source: Operand::Register(src),
                offset,
                ..
            } => {
                let compared = PairCompared {
                    precision: PRECISION,
                    comparison,
                    dst,
                    src,
                    pair: *pair,
                };
                let taken = refined(frame.copy(self.alloc).ok()?, &compared, true);
                self.send(slot, jump_target(slot, i64::from(offset)), taken)?;
                self.give(next, refined(frame, &compared, false))
            }
            _ => None,
        }
    }
}

/// The numbers of all places: of the registers, none of one that is unset, and of the stack's slots,
/// the lowest byte first.
pub fn numbers(alloc: Global, state: &FlatState<'_>) -> Result<Vec<Option<u64>>, AllocError> {
    let mut numbers = Vec::with_capacity(alloc, PLACES)?;
    for register in 0..11u8 {
        numbers.push(state.register(register))?;
    }
    for slot in state.region(Region::Stack).chunks_exact(8) {
        if let [a, b, c, d, e, f, g, h] = slot {
            numbers.push(Some(u64::from_le_bytes([*a, *b, *c, *d, *e, *f, *g, *h])))?;
        }
    }
    Ok(numbers)
}

fn kind_at(frame: &Frame, place: usize) -> Kind {
    if place < 11 {
        frame.kind(place)
    } else {
        frame.slot_kind(place - 11)
    }
}

/// True if a place of that kind may have that number, if regions lie so.
fn is_of(kind: &Kind, layout: &Layout, number: Option<u64>) -> bool {
    match (kind, number) {
        (Kind::Unset, _) => true,
        (Kind::Num(known), Some(n)) => holds(known, n),
        (Kind::Ptr(region, at), Some(n)) => holds(at, n.wrapping_sub(layout.base(*region))),
        (Kind::Num(_) | Kind::Ptr(_, _), None) => false,
    }
}

/// True if a frame is true of the numbers of all places, if regions lie so.
pub fn is_true(frame: &Frame, layout: &Layout, numbers: &[Option<u64>]) -> bool {
    for (place, number) in numbers.iter().enumerate() {
        let link = frame.link(place);
        let is_linked = !matches!(link.form, LinkForm::Unlinked);
        let kind = kind_at(frame, place);
        if !is_of(&kind, layout, *number)
            || is_linked && (kind.is_ptr() || !is_name_true(frame, link.name, numbers))
        {
            return false;
        }
    }
    numbers.len() == PLACES
}

/// True if a name can have a number so that its links are true. One that some place leaves it will do:
/// a whole number leaves one alone, other places one low half, and if there are signs alone, the first
/// number with the sign of one of them.
fn is_name_true(frame: &Frame, name: u32, numbers: &[Option<u64>]) -> bool {
    for (place, number) in numbers.iter().enumerate() {
        let link = frame.link(place);
        if !matches!(link.form, LinkForm::Unlinked) && link.name == name {
            let moved = match link.form {
                LinkForm::Up => number.unwrap_or(0) >> 32,
                LinkForm::Unlinked | LinkForm::Whole | LinkForm::Low | LinkForm::Sign =>
                    number.unwrap_or(0),
            };
            if is_named(frame, name, moved.wrapping_sub(link.distance), numbers) {
                return true;
            }
        }
    }
    false
}

/// True if the links of a name are true where it is that number.
fn is_named(frame: &Frame, name: u32, named: u64, numbers: &[Option<u64>]) -> bool {
    for (place, number) in numbers.iter().enumerate() {
        let link = frame.link(place);
        if link.name == name && !is_linked(&link, named, *number) {
            return false;
        }
    }
    true
}

/// True if a place with that link has that number, where its name has the number `named`.
fn is_linked(link: &Link, named: u64, number: Option<u64>) -> bool {
    let moved = named.wrapping_add(link.distance);
    match (link.form, number) {
        (LinkForm::Unlinked, _) => true,
        (LinkForm::Whole, Some(n)) => n == moved,
        (LinkForm::Low, Some(n)) => n & 0xffff_ffff == moved & 0xffff_ffff,
        (LinkForm::Up, Some(n)) => n == moved << 32,
        (LinkForm::Sign, Some(n)) => n == moved & 0x8000_0000,
        (LinkForm::Whole | LinkForm::Low | LinkForm::Up | LinkForm::Sign, None) => false,
    }
}

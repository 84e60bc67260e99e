//! Frames at heads, and their order, by hand.

use abstract_num::{Number, Precision, between, constant, signed_between};
use abstract_regs::{Frame, Kind, Kinds};
use bpf_asm::assemble;
use bpf_decode::{Region, Register, RuleSet};
use loop_frames::{PLACES, declare, is_frame_below};
use loop_heads::{HeadPlace, PlaceKind};
use std::alloc::Global;
use verifier::{answer, room};

/// What a place is known to be: nothing, a number from one to another, unsigned or signed, or a
/// pointer at such an offset.
#[derive(Clone, Copy)]
pub enum Told {
    Nothing,
    From(u64, u64),
    Signed(i64, i64),
    At(Region, u64, u64),
}

/// The frame as a method of in_cap 16 begins.
pub fn entry(alloc: Global) -> Option<Frame> {
    Frame::entry(alloc, Precision::Halves, 16, 512, 64, PLACES).ok()
}

fn number(low: u64, high: u64) -> Number {
    if low <= high {
        between(Precision::Halves, low, high)
    } else {
        constant(low)
    }
}

fn kind(told: Told) -> Kind {
    match told {
        Told::Nothing => Kind::Unset,
        Told::From(low, high) => Kind::Num(number(low, high)),
        Told::Signed(low, high) => Kind::Num(if low <= high {
            signed_between(Precision::Halves, low, high)
        } else {
            constant(0)
        }),
        Told::At(region, low, high) => Kind::Ptr(region, number(low, high)),
    }
}

/// Gives a place of a frame a kind; a number from 11 on is a slot's.
pub fn put(frame: &mut Frame, place: u8, told: Told) {
    match Register::new(place) {
        Some(register) => frame.set(register, kind(told)),
        None => frame.set_slot(usize::from(place.saturating_sub(11)), kind(told)),
    }
}

/// The kind of a place.
pub fn kind_of(frame: &Frame, place: u8) -> Kind {
    if place < 11 {
        frame.kind(usize::from(place))
    } else {
        frame.slot_kind(usize::from(place - 11))
    }
}

/// True if a kind has those bounds.
pub fn is_told(kind: Kind, told: Told) -> bool {
    match (kind, told) {
        (Kind::Unset, Told::Nothing) => true,
        (Kind::Num(n), Told::From(low, high)) => n.unsigned().low == low
            && n.unsigned().high == high,
        (Kind::Num(n), Told::Signed(low, high)) => n.signed().low == low && n.signed().high == high,
        (Kind::Ptr(region, at), Told::At(wanted, low, high)) => {
            region == wanted && at.unsigned().low == low && at.unsigned().high == high
        }
        (Kind::Unset | Kind::Num(_) | Kind::Ptr(_, _), _) => false,
    }
}

/// A place, its kind in one frame and in another, and whether the first is below the second, and the
/// other way round.
#[rattlefmt::skip]
const ORDER: [(u8, Told, Told, bool, bool); 14] = [
    (0, Told::Nothing, Told::Nothing, true, true),
    (0, Told::From(5, 5), Told::Nothing, true, false),
    (0, Told::At(Region::Input, 5, 5), Told::Nothing, true, false),
    (0, Told::From(3, 5), Told::From(3, 5), true, true),
    (0, Told::From(3, 5), Told::From(2, 5), true, false),
    (0, Told::From(3, 5), Told::From(3, 6), true, false),
    (0, Told::From(3, 5), Told::From(4, 9), false, false),
    // -1 is no small number
    (9, Told::Signed(0, 5), Told::Signed(-1, 5), true, false),
    (9, Told::From(3, 5), Told::At(Region::Input, 3, 5), false, false),
    (9, Told::At(Region::Stack, 3, 5), Told::At(Region::Stack, 0, 8), true, false),
    (9, Told::At(Region::Stack, 3, 5), Told::At(Region::Output, 0, 8), false, false),
    (9, Told::At(Region::Input, 3, 5), Told::At(Region::Output, 0, 8), false, false),
    // slots of the stack
    (11, Told::From(0, 1), Told::Nothing, true, false),
    (74, Told::From(0, 1), Told::From(0, 2), true, false),
];

/// True if two frames that differ in one place are in that order.
fn is_in_order(alloc: Global, row: &(u8, Told, Told, bool, bool)) -> Option<bool> {
    let (place, one, other, is_below, is_above) = *row;
    let (mut f, mut g) = (entry(alloc)?, entry(alloc)?);
    put(&mut f, place, one);
    put(&mut g, place, other);
    Some(is_frame_below(&f, &g) == is_below && is_frame_below(&g, &f) == is_above)
}

#[test]
fn order(rt: HostRuntime) {
    for (number, row) in ORDER.iter().enumerate() {
        assert!(rt; is_in_order(rt.alloc(), row) == Some(true), "{number}");
    }
}

/// The frame at the entry after an instruction at slot 0.
pub fn after(alloc: Global, line: &str) -> Option<Frame> {
    let code = assemble(alloc, line).ok()?;
    let insn = code.first()?;
    let mut frame = entry(alloc)?;
    let answer = answer(RuleSet::Three, &frame, insn);
    let mut place = Kinds::unset();
    frame.flow(Precision::Halves, room(insn), &answer, insn, 0, &mut place);
    Some(frame)
}

/// A copy links two registers: without links more is said to be possible.
fn is_order_of_links(alloc: Global) -> Option<bool> {
    let linked = after(alloc, "mov r4, r2")?;
    let mut free = linked.copy(alloc).ok()?;
    free.unlink();
    let other = after(alloc, "mov r5, r2")?;
    Some(
        is_frame_below(&linked, &free)
            && !is_frame_below(&free, &linked)
            && is_frame_below(&linked, &linked)
            && !is_frame_below(&other, &linked),
    )
}

#[test]
fn order_of_links(rt: HostRuntime) {
    assert!(rt; is_order_of_links(rt.alloc()) == Some(true));
}

/// A place, its kind before, what is declared of it, and its kind at the head.
#[rattlefmt::skip]
const DECLARED: [(u8, Told, PlaceKind, Told); 17] = [
    (4, Told::From(3, 3), PlaceKind::Unset, Told::Nothing),
    (4, Told::Nothing, PlaceKind::Any, Told::Nothing),
    (4, Told::From(3, 3), PlaceKind::Any, Told::From(0, u64::MAX)),
    (4, Told::From(0, 0), PlaceKind::Unsigned(1, 16), Told::From(0, 16)),
    (4, Told::From(0, 20), PlaceKind::Unsigned(1, 16), Told::From(0, 20)),
    (4, Told::From(5, 5), PlaceKind::Unsigned(7, 7), Told::From(5, 7)),
    (4, Told::From(5, 5), PlaceKind::Signed(-1, 5), Told::Signed(-1, 5)),
    (4, Told::From(5, 5), PlaceKind::Signed(-1, 4), Told::Signed(-1, 5)),
    (4, Told::From(5, 5), PlaceKind::Input(0, 9), Told::Nothing),
    (4, Told::At(Region::Input, 0, 0), PlaceKind::Input(2, 9), Told::At(Region::Input, 0, 9)),
    (4, Told::At(Region::Input, 0, 0), PlaceKind::Output(2, 9), Told::Nothing),
    (4, Told::At(Region::Input, 0, 0), PlaceKind::Any, Told::Nothing),
    (4, Told::At(Region::Output, 3, 4), PlaceKind::Output(0, 0), Told::At(Region::Output, 0, 4)),
    (4, Told::At(Region::Stack, 448, 448), PlaceKind::Stack(449, 512), Told::At(Region::Stack, 448, 512)),
    (9, Told::At(Region::Stack, 448, 448), PlaceKind::Unset, Told::Nothing),
    (11, Told::From(0, 0), PlaceKind::Unsigned(1, 2), Told::From(0, 2)),
    (74, Told::From(0, 0), PlaceKind::Any, Told::From(0, u64::MAX)),
];

/// True if a declared place gets that kind, and its neighbours keep theirs.
fn is_declared(alloc: Global, row: &(u8, Told, PlaceKind, Told)) -> Option<bool> {
    let (number, before, kind, told) = *row;
    let mut frame = entry(alloc)?;
    put(&mut frame, number, before);
    let mut places = Vec::new(alloc);
    places.push(HeadPlace { number, kind }).ok()?;
    declare(Precision::Halves, &places, &mut frame);
    Some(
        is_told(kind_of(&frame, number), told)
            && is_told(kind_of(&frame, 1), Told::At(Region::Input, 0, 0))
            && is_told(kind_of(&frame, 2), Told::From(0, 16))
            && is_told(kind_of(&frame, 12), Told::From(0, 0)),
    )
}

/// At a head of no place nothing changes but that there are no links.
fn is_unlinked(alloc: Global) -> Option<bool> {
    let mut frame = after(alloc, "mov r4, r2")?;
    let mut free = frame.copy(alloc).ok()?;
    free.unlink();
    let was_linked = !is_frame_below(&free, &frame);
    declare(Precision::Halves, &[], &mut frame);
    Some(was_linked && is_frame_below(&free, &frame) && is_frame_below(&frame, &free))
}

#[test]
fn declared(rt: HostRuntime) {
    for (number, row) in DECLARED.iter().enumerate() {
        assert!(rt; is_declared(rt.alloc(), row) == Some(true), "{number}");
    }
    assert!(rt; is_unlinked(rt.alloc()) == Some(true));
}

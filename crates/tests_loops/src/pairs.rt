//! Two pointers into one region: which may be compared or subtracted, and what that tells.

use crate::frames::{Told, after, entry, is_told, kind_of, put};
use abstract_num::Precision;
use abstract_regs::{Frame, LinkForm};
use bpf_asm::assemble;
use bpf_decode::{Insn, Operand, Region, Register};
use bpf_machine::Caps;
use loop_frames::{PairCompared, PointerPair, pair_of, refine_pair, subtract};
use std::alloc::Global;

const CAPS: Caps = Caps {
    in_cap: 16,
    out_cap: 8,
    writes: false,
};

/// An instruction of registers 4 and 5, what these are, and whether it has a pair.
#[rattlefmt::skip]
const PAIRS: [(&str, Told, Told, bool); 24] = [
    ("jge r4, r5, +0", Told::At(Region::Input, 0, 16), Told::At(Region::Input, 0, 16), true),
    ("jge r4, r5, +0", Told::At(Region::Input, 0, 17), Told::At(Region::Input, 0, 16), false),
    ("jge r4, r5, +0", Told::At(Region::Input, 0, 16), Told::At(Region::Input, 0, 17), false),
    ("jgt r4, r5, +0", Told::At(Region::Output, 8, 8), Told::At(Region::Output, 0, 0), true),
    ("jgt r4, r5, +0", Told::At(Region::Output, 9, 9), Told::At(Region::Output, 0, 0), false),
    ("jlt r4, r5, +0", Told::At(Region::Stack, 0, 512), Told::At(Region::Stack, 512, 512), true),
    ("jlt r4, r5, +0", Told::At(Region::Stack, 0, 513), Told::At(Region::Stack, 512, 512), false),
    ("jle r4, r5, +0", Told::At(Region::Input, 0, 16), Told::At(Region::Input, 3, 4), true),
    ("jle r4, r4, +0", Told::At(Region::Input, 0, 16), Told::Nothing, true),
    // for equality they may be anywhere
    ("jeq r4, r5, +0", Told::At(Region::Input, 0, 17), Told::At(Region::Input, 99, 99), true),
    ("jne r4, r5, +0", Told::At(Region::Output, 0, u64::MAX), Told::At(Region::Output, 0, 0), true),
    ("jsge r4, r5, +0", Told::At(Region::Input, 0, 0), Told::At(Region::Input, 0, 0), false),
    ("jslt r4, r5, +0", Told::At(Region::Input, 0, 0), Told::At(Region::Input, 0, 0), false),
    ("jset r4, r5, +0", Told::At(Region::Input, 0, 0), Told::At(Region::Input, 0, 0), false),
    ("jge32 r4, r5, +0", Told::At(Region::Input, 0, 0), Told::At(Region::Input, 0, 0), false),
    ("jge r4, 5, +0", Told::At(Region::Input, 0, 0), Told::At(Region::Input, 0, 0), false),
    // of two regions, or with a number
    ("jeq r4, r5, +0", Told::At(Region::Input, 0, 0), Told::At(Region::Output, 0, 0), false),
    ("jeq r4, r5, +0", Told::At(Region::Input, 0, 0), Told::From(0, 0), false),
    ("jge r4, r5, +0", Told::From(0, 0), Told::From(0, 0), false),
    ("sub r4, r5", Told::At(Region::Input, 0, 99), Told::At(Region::Input, 0, u64::MAX), true),
    ("sub r4, r5", Told::At(Region::Input, 0, 0), Told::At(Region::Stack, 0, 0), false),
    ("sub32 r4, r5", Told::At(Region::Input, 0, 0), Told::At(Region::Input, 0, 0), false),
    ("add r4, r5", Told::At(Region::Input, 0, 0), Told::At(Region::Input, 0, 0), false),
    ("mov r4, r5", Told::At(Region::Input, 0, 0), Told::At(Region::Input, 0, 0), false),
];

fn with(alloc: Global, first: Told, second: Told) -> Option<Frame> {
    let mut frame = entry(alloc)?;
    put(&mut frame, 4, first);
    put(&mut frame, 5, second);
    Some(frame)
}

/// The pair of the first instruction of a text under a frame, if it has one; none inside if not.
fn pair_in(alloc: Global, line: &str, frame: &Frame) -> Option<Option<PointerPair>> {
    let code = assemble(alloc, line).ok()?;
    let insn = code.first()?;
    Some(pair_of(&CAPS, frame, insn))
}

/// True if the first instruction of a text has a pair, or has none.
fn has_pair(alloc: Global, row: &(&'static str, Told, Told, bool)) -> Option<bool> {
    let (line, first, second, has) = *row;
    let frame = with(alloc, first, second)?;
    Some(pair_in(alloc, line, &frame)?.is_some() == has)
}

#[test]
fn pairs(rt: HostRuntime) {
    for (number, row) in PAIRS.iter().enumerate() {
        assert!(rt; has_pair(rt.alloc(), row) == Some(true), "{number}");
    }
}

/// Offsets of registers 4 and 5 into the input, and those of the first less the second.
const DIFFERENCES: [((u64, u64), (u64, u64), Told); 4] = [
    ((3, 10), (0, 2), Told::From(1, 10)),
    ((16, 16), (0, 0), Told::From(16, 16)),
    ((0, 4), (3, 3), Told::Signed(-3, 1)),
    ((0, u64::MAX), (0, 4), Told::From(0, u64::MAX)),
];

/// True if the difference of two pointers is a number with those bounds, and no other register
/// changes.
fn differs(alloc: Global, row: &((u64, u64), (u64, u64), Told)) -> Option<bool> {
    let ((a, b), (c, d), told) = *row;
    let second = Told::At(Region::Input, c, d);
    let mut frame = with(alloc, Told::At(Region::Input, a, b), second)?;
    let pair = pair_in(alloc, "sub r4, r5", &frame)??;
    let is_live = subtract(Precision::Halves, Register::new(4)?, &pair, &mut frame);
    Some(
        is_live
            && pair.region == Region::Input
            && is_told(kind_of(&frame, 4), told)
            && is_told(kind_of(&frame, 5), second),
    )
}

/// True if register 4 has a link.
fn is_linked(frame: &Frame) -> bool {
    !matches!(frame.link(4).form, LinkForm::Unlinked)
}

/// True if a difference takes the link of its register away.
fn is_freed(alloc: Global) -> Option<bool> {
    let mut frame = after(alloc, "mov r4, r2")?;
    let was_linked = is_linked(&frame);
    let both = with(
        alloc,
        Told::At(Region::Input, 1, 1),
        Told::At(Region::Input, 0, 0),
    )?;
    let pair = pair_in(alloc, "sub r4, r5", &both)??;
    let is_live = subtract(Precision::Halves, Register::new(4)?, &pair, &mut frame);
    Some(was_linked && is_live && !is_linked(&frame))
}

#[test]
fn differences(rt: HostRuntime) {
    for (number, row) in DIFFERENCES.iter().enumerate() {
        assert!(rt; differs(rt.alloc(), row) == Some(true), "{number}");
    }
    assert!(rt; is_freed(rt.alloc()) == Some(true));
}

/// Offsets of two pointers along an edge.
type Offsets = ((u64, u64), (u64, u64));

/// A comparison of registers 4 and 5, their offsets before, and along both edges, taken first; none if
/// the edge is dead.
#[rattlefmt::skip]
const EDGES: [(&str, Offsets, Option<Offsets>, Option<Offsets>); 9] = [
    ("jge r4, r5, +0", ((0, 16), (8, 8)), Some(((8, 16), (8, 8))), Some(((0, 7), (8, 8)))),
    ("jgt r4, r5, +0", ((0, 16), (8, 8)), Some(((9, 16), (8, 8))), Some(((0, 8), (8, 8)))),
    ("jlt r4, r5, +0", ((0, 16), (0, 16)), Some(((0, 15), (1, 16))), Some(((0, 16), (0, 16)))),
    ("jle r4, r5, +0", ((4, 9), (0, 6)), Some(((4, 6), (4, 6))), Some(((4, 9), (0, 6)))),
    ("jlt r4, r5, +0", ((9, 9), (8, 8)), None, Some(((9, 9), (8, 8)))),
    ("jge r4, r5, +0", ((9, 9), (0, 8)), Some(((9, 9), (0, 8))), None),
    ("jeq r4, r5, +0", ((0, 16), (8, 8)), Some(((8, 8), (8, 8))), Some(((0, 16), (8, 8)))),
    ("jne r4, r5, +0", ((8, 16), (8, 8)), Some(((9, 16), (8, 8))), Some(((8, 8), (8, 8)))),
    ("jeq r4, r5, +0", ((0, 3), (8, 8)), None, Some(((0, 3), (8, 8)))),
];

/// The comparison of pointers that the first instruction of a text is under a frame.
fn compared_in(alloc: Global, line: &str, frame: &Frame) -> Option<PairCompared> {
    let code = assemble(alloc, line).ok()?;
    let insn = code.first()?;
    let pair = pair_of(&CAPS, frame, insn)?;
    match *insn {
        Insn::Branch {
            comparison,
            dst,
            source: Operand::Register(src),
            ..
        } => Some(PairCompared {
            precision: Precision::Halves,
            comparison,
            dst,
            src,
            pair,
        }),
        _ => None,
    }
}

/// True if registers 4 and 5 point into the input at those offsets.
fn are_at(frame: &Frame, offsets: Offsets) -> bool {
    let ((a, b), (c, d)) = offsets;
    is_told(kind_of(frame, 4), Told::At(Region::Input, a, b))
        && is_told(kind_of(frame, 5), Told::At(Region::Input, c, d))
}

/// True if an edge leaves those offsets, or is dead.
fn leaves(
    alloc: Global,
    line: &str,
    before: Offsets,
    taken: bool,
    wanted: Option<Offsets>,
) -> Option<bool> {
    let ((a, b), (c, d)) = before;
    let mut frame = with(
        alloc,
        Told::At(Region::Input, a, b),
        Told::At(Region::Input, c, d),
    )?;
    let compared = compared_in(alloc, line, &frame)?;
    let is_live = refine_pair(&compared, taken, &mut frame);
    Some(match wanted {
        None => !is_live && are_at(&frame, before),
        Some(offsets) => is_live && are_at(&frame, offsets),
    })
}

#[test]
fn edges(rt: HostRuntime) {
    let alloc = rt.alloc();
    for (number, (line, before, taken, fallen)) in EDGES.iter().enumerate() {
        assert!(rt;
            leaves(alloc, *line, *before, true, *taken) == Some(true),
            "{number}"
        );
        assert!(rt;
            leaves(alloc, *line, *before, false, *fallen) == Some(true),
            "{number}"
        );
    }
}

/// A pointer compared with itself: nothing is told along both edges.
fn is_untold(alloc: Global, taken: bool) -> Option<bool> {
    let mut frame = with(alloc, Told::At(Region::Input, 2, 7), Told::Nothing)?;
    let compared = compared_in(alloc, "jlt r4, r4, +0", &frame)?;
    let is_live = refine_pair(&compared, taken, &mut frame);
    Some(is_live && is_told(kind_of(&frame, 4), Told::At(Region::Input, 2, 7)))
}

#[test]
fn one_register_twice(rt: HostRuntime) {
    assert!(rt;
        is_untold(rt.alloc(), true) == Some(true) && is_untold(rt.alloc(), false) == Some(true)
    );
}

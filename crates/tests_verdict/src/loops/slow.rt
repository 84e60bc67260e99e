//! The verdict on a method with heads as it is defined, on frames: each slot's from all slots below it.

use abstract_num::Precision;
use abstract_regs::{Edges, Frame, Kinds};
use bpf_decode::{Insn, Operand, Region, RuleSet, jump_target, width};
use bpf_machine::Caps;
use loop_frames::{PairCompared, declare, is_frame_below, pair_of, refine_pair, subtract};
use loop_heads::{Head, HeadPlace};
use std::alloc::{AllocError, Global};
use verifier::{
    Goes, Rule, answer, begins_at, frame_rule, frame_slots, goes_of, is_local_call, linked_places,
    room, writes_r10,
};

/// A method's capacities, heads and code.
#[derive(Clone, Copy)]
pub struct Subject<'a> {
    pub caps: &'a Caps,
    pub heads: &'a [Head],
    pub code: &'a [Option<Insn>],
}

/// A frame along an edge to a slot.
#[derive(Drop)]
struct Edge {
    slot: usize,
    frame: Frame,
}

/// What is declared at a slot, if it is a head.
fn places_at<'a>(heads: &'a [Head], slot: usize) -> Option<&'a [HeadPlace]> {
    for head in heads {
        if usize::from(head.slot()) == slot {
            return Some(head.places());
        }
    }
    None
}

/// The target of a jump, if it is one.
fn target_of(slot: usize, insn: &Insn) -> Option<usize> {
    let slot = slot % 65_536;
    match goes_of(insn) {
        Goes::To(distance) => Some(jump_target(slot, i64::from(distance))),
        Goes::Either(distance) => Some(jump_target(slot, i64::from(distance))),
        Goes::On | Goes::Out => None,
    }
}

/// The slot after an instruction.
fn next_of(slot: usize, insn: &Insn) -> usize {
    slot.wrapping_add(width(insn))
}

/// The lowest of rules 1 to 4 that refuses an instruction.
fn shape_rule(subject: &Subject, slot: usize, insn: &Insn) -> Option<Rule> {
    let on = match goes_of(insn) {
        Goes::On | Goes::Either(_) => true,
        Goes::To(_) | Goes::Out => false,
    };
    if let Some(target) = target_of(slot, insn) {
        // One before slot 0 wraps, and is past the last slot then.
        let back = target <= slot || target > 1_000_000_000;
        if back && places_at(subject.heads, target).is_none() {
            return Some(Rule::Backward);
        }
        if !begins_at(subject.code, target) {
            return Some(Rule::Target);
        }
    }
    if on && !begins_at(subject.code, next_of(slot, insn)) {
        Some(Rule::FallsOff)
    } else if is_local_call(insn) {
        Some(Rule::LocalCall)
    } else {
        None
    }
}

/// The lowest rule that refuses an instruction, but for what goes back.
fn rule_below(subject: &Subject, slot: usize, insn: &Insn, frame: &Option<Frame>) -> Option<Rule> {
    if let Some(rule) = shape_rule(subject, slot, insn) {
        return Some(rule);
    }
    match frame {
        None => None,
        Some(frame) => match pair_of(subject.caps, frame, insn) {
            None => frame_rule(RuleSet::Three, subject.caps, frame, insn),
            Some(_) => {
                if writes_r10(insn) {
                    Some(Rule::WritesR10)
                } else {
                    None
                }
            }
        },
    }
}

/// The edges of a comparison of two pointers, or of their difference.
fn pair_edges(
    alloc: Global,
    caps: &Caps,
    slot: usize,
    insn: &Insn,
    frame: &Frame,
) -> Result<Vec<Edge>, AllocError> {
    let mut edges = Vec::new(alloc);
    let Some(pair) = pair_of(caps, frame, insn) else {
        return Ok(edges);
    };
    let next = next_of(slot, insn);
    if let Insn::Branch {
        comparison,
        dst,
        source: Operand::Register(src),
        ..
    } = *insn
    {
        let target = target_of(slot, insn).unwrap_or(next);
        let precision = Precision::Halves;
        let compared = PairCompared {
            precision,
            comparison,
            dst,
            src,
            pair,
        };
        for (slot, taken) in [(target, true), (next, false)] {
            let mut frame = frame.copy(alloc)?;
            if refine_pair(&compared, taken, &mut frame) {
                edges.push(Edge { slot, frame })?;
            }
        }
    }
    if let Insn::Alu { dst, .. } = *insn {
        let mut frame = frame.copy(alloc)?;
        if subtract(Precision::Halves, dst, &pair, &mut frame) {
            edges.push(Edge { slot: next, frame })?;
        }
    }
    Ok(edges)
}

/// The edges of any other instruction.
fn plain_edges(
    alloc: Global,
    slot: usize,
    insn: &Insn,
    frame: &Frame,
) -> Result<Vec<Edge>, AllocError> {
    let mut edges = Vec::new(alloc);
    let next = next_of(slot, insn);
    let precision = Precision::Halves;
    let mut kinds = Kinds::unset();
    let answer = answer(RuleSet::Three, frame, insn);
    let mut first = frame.copy(alloc)?;
    match first.flow(
        precision,
        room(insn),
        &answer,
        insn,
        slot % 65_536,
        &mut kinds,
    ) {
        Edges::Leaves => {}
        Edges::Falls => edges.push(Edge {
            slot: next,
            frame: first,
        })?,
        Edges::Jumps(slot) => edges.push(Edge { slot, frame: first })?,
        Edges::Branches(slot, compared) => {
            edges.push(Edge {
                slot,
                frame: first.copy(alloc)?,
            })?;
            first.refine(&compared, &kinds);
            edges.push(Edge {
                slot: next,
                frame: first,
            })?;
        }
        Edges::Forks(slot, compared) => {
            let mut taken = first.copy(alloc)?;
            if taken.tell(precision, &compared) {
                edges.push(Edge { slot, frame: taken })?;
            }
            first.refine(&compared, &kinds);
            if first.tell(precision, &compared) {
                edges.push(Edge {
                    slot: next,
                    frame: first,
                })?;
            }
        }
    }
    Ok(edges)
}

/// The edges of an instruction.
fn edges_of(
    alloc: Global,
    subject: &Subject,
    slot: usize,
    insn: &Insn,
    frame: &Frame,
) -> Result<Vec<Edge>, AllocError> {
    if pair_of(subject.caps, frame, insn).is_some() {
        pair_edges(alloc, subject.caps, slot, insn, frame)
    } else {
        plain_edges(alloc, slot, insn, frame)
    }
}

/// Joins to what flows into a slot what flows there from a lower one.
fn add_flows(
    alloc: Global,
    subject: &Subject,
    from: usize,
    frame: &Option<Frame>,
    slot: usize,
    inflow: &mut Option<Frame>,
) -> Result<(), AllocError> {
    let (Some(Some(insn)), Some(known)) = (subject.code.get(from), frame) else {
        return Ok(());
    };
    if rule_below(subject, from, insn, frame).is_some() {
        return Ok(());
    }
    for edge in edges_of(alloc, subject, from, insn, known)? {
        if edge.slot == slot {
            match inflow {
                None => *inflow = Some(edge.frame),
                Some(first) => first.join(&edge.frame),
            }
        }
    }
    Ok(())
}

/// What a method begins with.
fn entry(alloc: Global, caps: &Caps) -> Result<Frame, AllocError> {
    let rules = RuleSet::Three;
    let stack = caps.size(Region::Stack) as u64;
    let (slots, places) = (frame_slots(rules), linked_places(rules));
    Frame::entry(
        alloc,
        Precision::Halves,
        u64::from(caps.in_cap),
        stack,
        slots,
        places,
    )
}

/// The frame of a slot, from those of all slots below it.
fn frame_at(
    alloc: Global,
    subject: &Subject,
    table: &[Option<Frame>],
    slot: usize,
) -> Result<Option<Frame>, AllocError> {
    let mut inflow = if slot == 0 {
        Some(entry(alloc, subject.caps)?)
    } else {
        None
    };
    for (from, frame) in table.iter().enumerate() {
        add_flows(alloc, subject, from, frame, slot, &mut inflow)?;
    }
    if let (Some(places), Some(frame)) = (places_at(subject.heads, slot), &mut inflow) {
        declare(Precision::Halves, places, frame);
    }
    Ok(inflow)
}

/// True if each edge that goes back is below the frame there.
fn is_kept(
    alloc: Global,
    subject: &Subject,
    table: &[Option<Frame>],
    slot: usize,
    insn: &Insn,
) -> Result<bool, AllocError> {
    let Some(Some(frame)) = table.get(slot) else {
        return Ok(true);
    };
    for edge in edges_of(alloc, subject, slot, insn, frame)? {
        if edge.slot <= slot {
            match table.get(edge.slot) {
                Some(Some(head)) => {
                    if !is_frame_below(&edge.frame, head) {
                        return Ok(false);
                    }
                }
                _ => return Ok(false),
            }
        }
    }
    Ok(true)
}

/// The first refused slot, and the lowest rule there.
pub fn slow_verdict(alloc: Global, subject: &Subject) -> Result<Option<(usize, Rule)>, AllocError> {
    let mut table = Vec::new(alloc);
    for slot in 0..subject.code.len() {
        let frame = frame_at(alloc, subject, &table, slot)?;
        table.push(frame)?;
    }
    for (slot, frame) in table.iter().enumerate() {
        if let Some(Some(insn)) = subject.code.get(slot) {
            if let Some(rule) = rule_below(subject, slot, insn, frame) {
                return Ok(Some((slot, rule)));
            }
            if !is_kept(alloc, subject, &table, slot, insn)? {
                return Ok(Some((slot, Rule::Backward)));
            }
        }
    }
    Ok(None)
}

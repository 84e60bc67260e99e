//! Methods with loops at random, with right and wrong heads. The flat machine runs each accepted one by
//! its budget: it is never stuck, at each step what is known at the slot is true of the state, wherever
//! the regions lie, and all runs of a call come to the answer that the call gives.

mod dice;
mod draft;
mod known;
mod sights;
mod turns;

use crate::made::call;
use bpf_asm::assemble_class;
use bpf_decode::{ClassImage, Method, encode};
use bpf_machine::Caps;
use dice::Dice;
use draft::random_class;
use flat_machine::{FlatState, Layout, Machine, RunStart, is_layout};
use known::Frames;
use loop_calls::PartAnswer;
use loop_heads::Loops;
use loop_verdict::{LoopMethod, verify_by_heads};
use object_store::{Object, calls};
use sights::{LAYOUT, Manner, Sights};
use std::alloc::Global;
use turns::{Ran, Subject, run};
use txn::Staged;
use verifier::Rule;

/// How many. `rt try`, whose checks of memory take some hundred times as long, can do with 40.
const METHODS: usize = 2_000;

const SEED: u64 = 0x5eed_0011;

const CAPS: Caps = Caps {
    in_cap: 64,
    out_cap: 64,
    writes: true,
};

/// The regions one after the other from address 0 on; and in another order up to the last address.
const LAYOUTS: [Layout; 2] = [
    Layout {
        input: 0,
        output: 64,
        stack: 128,
    },
    Layout {
        input: 0xffff_ffff_ffff_ffbf,
        output: 0xffff_ffff_ffff_fe81,
        stack: 0xffff_ffff_ffff_fc81,
    },
];

const MANNERS: [Manner; 5] = [
    Manner::Likely,
    Manner::Seen,
    Manner::Mixed,
    Manner::Wrong,
    Manner::Wrong,
];

/// Data and a key with its value.
type Held = (&'static [u8], Option<(&'static [u8], &'static [u8])>);

/// Objects: none, an empty one, and one with data and a key; and the parts that have all of each.
#[rattlefmt::skip]
const OBJECTS: [(Option<Held>, &[u8]); 3] = [
    (None, b"\0"),
    (Some((b"", None)), b"\x01\0\0\0\0\0\0\0\0\0\0\0\0\x01\0\0\0\0\0\0\0\x01\0\0\0\0\0\0\0"),
    (
        Some((b"hello", Some((b"\0\0", b"v")))),
        b"\x01\x05\0\0\0\0\0\0\0\x01\0\0\0\0\0\0\0\0\0\0\0hello\x01\0\0\0\0\0\0\0\x01\0\0\0\0\0\x01\0\x02\0\0\0\x01\0v",
    ),
];

/// What was seen.
#[derive(Drop)]
pub struct Seen {
    accepted: usize,
    /// Refused by rule 1, and by other rules.
    backward: usize,
    others: usize,
    /// Steps that were followed, and how many of them were at a head.
    steps: usize,
    turns: usize,
    /// Calls that used up their budget, and those that ended after ten turns and more.
    spent: usize,
    ended: usize,
    /// Calls whose edits are some.
    edited: usize,
    /// Of the call that is made, what is wrong if it gives nothing.
    why: &'static str,
}

/// A method and what it is run on.
#[derive(Clone, Copy)]
struct Case<'a> {
    method: &'a LoopMethod,
    subject: Subject<'a>,
}

fn plus_one(count: &mut usize) {
    *count = count.saturating_add(1);
}

/// An object; no answer if memory is refused.
fn object(alloc: Global, held: Option<Held>) -> Option<Option<Object>> {
    let Some((data, key)) = held else {
        return Some(None);
    };
    let object = calls::write(alloc, None, 0, data).ok()?;
    match key {
        None => Some(Some(object)),
        Some((name, value)) => Some(Some(calls::set_key(alloc, Some(&object), name, value).ok()?)),
    }
}

/// An input of some bytes.
fn input(alloc: Global, dice: &mut Dice) -> Option<Vec<u8>> {
    let count = if dice.is_one_in(3) {
        64
    } else {
        dice.below(65)
    };
    let mut input = Vec::new(alloc);
    for _ in 0..count {
        let byte = if dice.is_one_in(3) {
            dice.byte()
        } else {
            dice.byte() % 4
        };
        input.push(byte).ok()?;
    }
    Some(input)
}

/// The state of a run's beginning in a layout, with a list of edits.
fn entry<'a>(alloc: Global, layout: Layout, start: &RunStart<'a>) -> Option<FlatState<'a>> {
    if !is_layout(&CAPS, &layout) || start.input.len() > usize::from(CAPS.in_cap) {
        return None;
    }
    let machine = Machine::new(CAPS, layout);
    let mut state = FlatState::entry(alloc, &machine, start).ok()?;
    state.object = Staged::listing(alloc, start.object);
    Some(state)
}

/// True if a call's answer is what a run came to.
fn is_same(answer: &PartAnswer, ran: &Ran) -> bool {
    answer.code == ran.code
        && answer.steps == ran.steps
        && answer.output.as_slice() == ran.output.as_slice()
        && answer.edits.as_slice() == ran.edits.as_slice()
}

/// Follows the runs of a call in both layouts; none unless each comes to the answer of the call.
fn follow(
    alloc: Global,
    case: &Case<'_>,
    start: &RunStart<'_>,
    part: &[u8],
    seen: &mut Seen,
) -> Option<()> {
    seen.why = "no answer";
    let answer = call(alloc, case.method, part, start.caller, start.input)?;
    for layout in LAYOUTS {
        seen.why = "no run's beginning";
        let mut state = entry(alloc, layout, start)?;
        let ran = run(alloc, &case.subject, &mut state, seen)?;
        seen.why = "another answer";
        if !is_same(&answer, &ran) {
            return None;
        }
    }
    if !answer.edits.is_empty() {
        plus_one(&mut seen.edited);
    }
    Some(())
}

/// Makes two calls of a method on objects and inputs at random, and follows their runs.
fn follow_calls(alloc: Global, case: &Case<'_>, dice: &mut Dice, seen: &mut Seen) -> Option<()> {
    for _ in 0..2 {
        let n = dice.below(OBJECTS.len() as u64) as usize;
        let (held, part) = *OBJECTS.get(n)?;
        let object = object(alloc, held)?;
        let input = input(alloc, dice)?;
        let start = RunStart {
            object: object.as_ref(),
            caller: 7,
            input: &input,
        };
        follow(alloc, case, &start, part, seen)?;
    }
    Some(())
}

/// Counts a refusal by a rule; none if memory is refused.
fn refused(rule: Rule, seen: &mut Seen) -> Option<()> {
    if rule == Rule::NoMemory {
        return None;
    }
    if rule == Rule::Backward {
        plus_one(&mut seen.backward);
    } else {
        plus_one(&mut seen.others);
    }
    Some(())
}

/// The verdict on a class's method by heads, and the runs of an accepted one.
fn try_heads(
    alloc: Global,
    image: &ClassImage,
    loops: &Loops,
    dice: &mut Dice,
    seen: &mut Seen,
) -> Option<()> {
    seen.why = "no memory";
    let method = image.methods().first()?;
    let accepted = match verify_by_heads(alloc, 0, method, loops) {
        Ok(accepted) => accepted,
        Err(refusal) => {
            return refused(refusal.rule, seen);
        }
    };
    plus_one(&mut seen.accepted);
    let insns = method.instructions();
    let code = encode(alloc, insns).ok()?;
    let frames = Frames::of(alloc, &CAPS, loops, insns)?;
    let subject = Subject {
        code: &code,
        loops,
        frames: &frames,
    };
    let case = Case {
        method: &accepted,
        subject,
    };
    follow_calls(alloc, &case, dice, seen)
}

/// What runs of a method show at its heads; none if memory is refused.
fn watched(alloc: Global, method: &Method, dice: &mut Dice) -> Option<Sights> {
    let insns = method.instructions();
    let code = encode(alloc, insns).ok()?;
    let mut sights = Sights::of(alloc, insns)?;
    for (held, _) in OBJECTS {
        let object = object(alloc, held)?;
        let input = input(alloc, dice)?;
        let start = RunStart {
            object: object.as_ref(),
            caller: 7,
            input: &input,
        };
        let mut state = entry(alloc, LAYOUT, &start)?;
        sights.watch(alloc, &code, &mut state)?;
    }
    Some(sights)
}

/// Tries the method of a text with heads of each manner.
fn try_text(alloc: Global, text: &str, dice: &mut Dice, seen: &mut Seen) -> Option<()> {
    seen.why = "no class, or no memory";
    let image = assemble_class(alloc, text).ok()?;
    let method = image.methods().first()?;
    let sights = watched(alloc, method, dice)?;
    for manner in MANNERS {
        let most = if dice.is_one_in(3) { 4_000 } else { 400 };
        let budget = 1 + dice.below(most);
        seen.why = "no loops";
        let loops = sights.declared(alloc, (budget % 4_096) as u32, manner, dice)?;
        try_heads(alloc, &image, &loops, dice, seen)?;
    }
    Some(())
}

/// True if so much was seen that the test says something.
fn is_enough(seen: &Seen) -> bool {
    seen.accepted >= METHODS / 2
        && seen.backward >= METHODS
        && seen.others >= METHODS / 10
        && seen.steps >= 100 * METHODS
        && seen.turns >= 10 * METHODS
        && seen.spent >= METHODS / 4
        && seen.ended >= METHODS / 10
        && seen.edited >= METHODS / 50
}

#[test]
fn random_methods(rt: HostRuntime) {
    let mut dice = Dice::new(SEED);
    let mut seen = Seen {
        accepted: 0,
        backward: 0,
        others: 0,
        steps: 0,
        turns: 0,
        spent: 0,
        ended: 0,
        edited: 0,
        why: "",
    };
    for _ in 0..METHODS {
        let text = random_class(rt.alloc(), &mut dice).expect(&rt, "memory");
        assert!(rt;
            try_text(rt.alloc(), &text, &mut dice, &mut seen).is_some(),
            "{}:\n{text}",
            seen.why
        );
    }
    assert!(rt;
        is_enough(&seen),
        "{} {} {} {} {} {} {} {}",
        seen.accepted,
        seen.backward,
        seen.others,
        seen.steps,
        seen.turns,
        seen.spent,
        seen.ended,
        seen.edited
    );
}

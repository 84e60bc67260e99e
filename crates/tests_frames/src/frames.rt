//! Methods of rule set 3 at random, run on plain addresses: at each step the frame that the verifier
//! has at the slot is true of the state, wherever the regions lie, and all runs of a call end as
//! `interp` has it.

mod held;

use crate::dice::Dice;
use crate::draft::random_class;
use bpf_asm::assemble_class;
use bpf_decode::{ClassImage, Insn, Method, Region, RuleSet, encode, width};
use bpf_machine::Caps;
use flat_machine::{FlatState, Layout, Machine, RunStart, Stepped, is_layout};
use held::{Known, form_number};
use interp::{Outcome, call};
use object_store::{Object, calls};
use std::alloc::Global;
use verifier::{Rule, VerifiedClass, refused_slot, verify};

/// How many. `rt try`, whose checks of memory take some hundred times as long, can do with 200.
const METHODS: usize = 10_000;

const SEED: u64 = 0x5eed_0003;

const CAPS: Caps = Caps {
    in_cap: 64,
    out_cap: 64,
    writes: true,
};

/// The regions one after the other from address 0 on; and in another order up to the last address.
const LAYOUTS: [Layout; 2] = [
    Layout {
        input: 0,
        output: 64,
        stack: 128,
    },
    Layout {
        input: 0xffff_ffff_ffff_ffbf,
        output: 0xffff_ffff_ffff_fe81,
        stack: 0xffff_ffff_ffff_fc81,
    },
];

/// Names with their values.
type Values = &'static [(&'static [u8], &'static [u8])];

/// Objects: none, or the data, the xattrs and the keys.
#[rattlefmt::skip]
const OBJECTS: [Option<(&[u8], Values, Values)>; 4] = [
    None,
    Some((b"", &[], &[])),
    Some((b"hello", &[(b"a", b"\x01"), (b"\0", b"\x02\x03")], &[(b"\0", b""), (b"\0\x01", b"b")])),
    Some((b"\0\xff\xff\xff\xff\x80\0\0\0", &[(b"\x01", b"\x80")], &[(b"a", b"1"), (b"b", b"2")])),
];

/// What was seen.
#[derive(Drop)]
struct Seen {
    accepted: usize,
    steps: usize,
    /// Places of which something was known.
    places: usize,
    /// Links by their forms.
    links: [usize; 5],
}

/// A method with what is known at each slot.
#[derive(Clone, Copy)]
struct Subject<'a> {
    class: &'a VerifiedClass,
    code: &'a [u8],
    known: &'a [Option<Known>],
}

/// The method's code with a backward jump, which is always refused, in the place of one
/// instruction; as many slots.
fn stopped_at(alloc: Global, code: &[Insn], index: usize) -> Option<ClassImage> {
    let mut stopped = Vec::new(alloc);
    for (n, insn) in code.iter().enumerate() {
        if n != index {
            stopped.push(*insn).ok()?;
        } else {
            stopped.push(Insn::Jump { offset: -1 }).ok()?;
            if width(insn) == 2 {
                stopped.push(Insn::Exit).ok()?;
            }
        }
    }
    let name = String::from_str(alloc, "f").ok()?;
    let mut methods = Vec::new(alloc);
    methods
        .push(Method::new(name, 3, CAPS.in_cap, CAPS.out_cap, stopped))
        .ok()?;
    ClassImage::new(methods, RuleSet::Three).ok()
}

/// What the verifier knows before the instruction of an index, at that slot; none where it refuses
/// another slot, or memory is refused.
fn known_at(alloc: Global, code: &[Insn], index: usize, slot: usize) -> Option<Option<Known>> {
    let image = stopped_at(alloc, code, index)?;
    let method = image.methods().first()?;
    let refused = refused_slot(alloc, RuleSet::Three, method).ok()??;
    if refused.slot != slot {
        return None;
    }
    match &refused.known {
        Some(frame) => Some(Some(Known::of(alloc, frame).ok()?)),
        None => Some(None),
    }
}

/// What the verifier knows at each slot of a method; none at a wide load's second half.
fn known_in(alloc: Global, code: &[Insn]) -> Option<Vec<Option<Known>>> {
    let mut known = Vec::new(alloc);
    for (index, insn) in code.iter().enumerate() {
        let slot = known.len();
        known.push(known_at(alloc, code, index, slot)?).ok()?;
        if width(insn) == 2 {
            known.push(None).ok()?;
        }
    }
    Some(known)
}

impl Seen {
    /// Adds a state at which that is known.
    fn add(&mut self, known: &Known) {
        self.steps = self.steps.saturating_add(1);
        self.places = self.places.saturating_add(known.told());
        for (_, link) in known.links.iter() {
            if let Some(count) = self.links.get_mut(form_number(link.form)) {
                *count = count.saturating_add(1);
            }
        }
    }
}

/// True if two objects are the same.
fn are_same(one: Option<&Object>, other: Option<&Object>) -> bool {
    match (one, other) {
        (None, None) => true,
        (Some(one), Some(other)) => one.is_same(other),
        (None, Some(_)) | (Some(_), None) => false,
    }
}

/// True if an exit in a state, of that code and after those steps, is the outcome of a call.
fn is_outcome(outcome: &Outcome, code: u64, steps: usize, state: &FlatState<'_>) -> bool {
    if outcome.code != code.cast_signed() || outcome.steps != steps {
        return false;
    }
    let (before, after) = (outcome.change.before(), outcome.change.after());
    if outcome.code < 0 {
        return outcome.output.is_empty() && are_same(after, before);
    }
    let output = state.region(Region::Output).get(..state.out_len);
    output == Some(outcome.output.as_slice()) && are_same(after, state.object.object())
}

/// The code and the steps of a run from a state on; none if a state has no frame, or one that isn't
/// true of it, or is stuck, or memory is refused.
fn follow(
    alloc: Global,
    subject: &Subject<'_>,
    state: &mut FlatState<'_>,
    seen: &mut Seen,
) -> Option<(u64, usize)> {
    for steps in 1..=subject.known.len() {
        let known = subject.known.get(state.slot as usize)?.as_ref()?;
        if !known.holds(alloc, state).ok()? {
            return None;
        }
        seen.add(known);
        match state.step(alloc, subject.code).ok()? {
            Stepped::Next => {}
            Stepped::Exit(code) => return Some((code, steps)),
            Stepped::Stuck => return None,
        }
    }
    None
}

/// Follows the run of a call in a layout; none unless it has the outcome that `interp` gives.
fn follow_call(
    alloc: Global,
    subject: &Subject<'_>,
    layout: &Layout,
    start: &RunStart<'_>,
    seen: &mut Seen,
) -> Option<()> {
    if !is_layout(&CAPS, layout) || start.input.len() > usize::from(CAPS.in_cap) {
        return None;
    }
    let machine = Machine::new(CAPS, *layout);
    let mut state = FlatState::entry(alloc, &machine, start).ok()?;
    let (code, steps) = follow(alloc, subject, &mut state, seen)?;
    let outcome = call(
        alloc,
        subject.class,
        "f",
        start.object,
        start.caller,
        start.input,
    )
    .ok()?;
    if is_outcome(&outcome, code, steps, &state) {
        Some(())
    } else {
        None
    }
}

/// An input: words of eight bytes, most of them near numbers at which comparisons turn.
fn input(alloc: Global, dice: &mut Dice) -> Option<Vec<u8>> {
    let mut input = Vec::new(alloc);
    for _ in 0..8 {
        let near = match dice.below(6) {
            0 => 0,
            1 => 1 << 31,
            2 => 1 << 32,
            3 => 1 << 63,
            4 => dice.number(),
            _ => dice.below(256),
        };
        let number = dice.below(34).wrapping_add(near).wrapping_sub(17);
        input.extend_from_slice(&number.to_le_bytes()).ok()?;
    }
    input.truncate(dice.below(65) as usize);
    Some(input)
}

/// One of `OBJECTS`; no answer if memory is refused.
fn object(alloc: Global, dice: &mut Dice) -> Option<Option<Object>> {
    let n = dice.below(OBJECTS.len() as u64) as usize;
    let Some((data, xattrs, keys)) = *OBJECTS.get(n)? else {
        return Some(None);
    };
    let mut object = calls::write(alloc, None, 0, data).ok()?;
    for (name, value) in xattrs {
        object = calls::set_xattr(alloc, Some(&object), *name, *value).ok()?;
    }
    for (name, value) in keys {
        object = calls::set_key(alloc, Some(&object), *name, *value).ok()?;
    }
    Some(Some(object))
}

/// Makes two calls of a method on objects and inputs at random, and follows their runs.
fn follow_calls(
    alloc: Global,
    subject: &Subject<'_>,
    dice: &mut Dice,
    seen: &mut Seen,
) -> Option<()> {
    for _ in 0..2 {
        let object = object(alloc, dice)?;
        let input = input(alloc, dice)?;
        let start = RunStart {
            object: object.as_ref(),
            caller: 7,
            input: &input,
        };
        for layout in &LAYOUTS {
            follow_call(alloc, subject, layout, &start, seen)?;
        }
    }
    Some(())
}

/// The same of the method of a text, unless it is refused.
fn try_text(alloc: Global, text: &str, dice: &mut Dice, seen: &mut Seen) -> Option<()> {
    let image = assemble_class(alloc, text).ok()?;
    let class = match verify(alloc, &image) {
        Ok(class) => class,
        Err(refusal) => return if refusal.rule == Rule::NoMemory {
            None
        } else {
            Some(())
        },
    };
    let insns = image.methods().first()?.instructions();
    let known = known_in(alloc, insns)?;
    let code = encode(alloc, insns).ok()?;
    let subject = Subject {
        class: &class,
        code: &code,
        known: &known,
    };
    seen.accepted = seen.accepted.saturating_add(1);
    follow_calls(alloc, &subject, dice, seen)
}

/// True if so much was seen that the test says something.
fn is_enough(seen: &Seen) -> bool {
    let [_, whole, low, up, sign] = seen.links;
    seen.accepted >= METHODS / 2
        && seen.steps >= 50 * METHODS
        && seen.places / 50 >= seen.steps
        && whole >= 50 * METHODS
        && low >= 5 * METHODS
        && up >= METHODS
        && sign >= METHODS
}

#[test]
fn random_methods(rt: HostRuntime) {
    let mut dice = Dice::new(SEED);
    let mut seen = Seen {
        accepted: 0,
        steps: 0,
        places: 0,
        links: [0; 5],
    };
    for _ in 0..METHODS {
        let text = random_class(rt.alloc(), &mut dice, 0).expect(&rt, "memory");
        assert!(rt;
            try_text(rt.alloc(), &text, &mut dice, &mut seen).is_some(),
            "{text}"
        );
    }
    assert!(rt; is_enough(&seen));
}

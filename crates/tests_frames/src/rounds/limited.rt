//! The flat machine by the limits of a host: it steps as it does, but if a call of a helper passes
//! a limit of the host's that is below its own, the answer is put here.

use bpf_machine::Caps;
use flat_machine::{FlatState, Layout, Machine, RunStart, Stepped, is_layout};
use helpers::{EFBIG, EINVAL, ENOSPC};
use object_store::{DATA_LIMIT, Limits, NameLimits, Object, VALUE_LIMIT};
use std::alloc::Global;
use txn::Staged;

/// What each method declares.
const CAPS: Caps = Caps {
    in_cap: 64,
    out_cap: 64,
    writes: true,
};

const LAYOUT: Layout = Layout {
    input: 0x1_0000,
    output: 0x2_0000,
    stack: 0x3_0000,
};

/// What a run came to.
#[derive(Drop)]
pub struct Ran {
    pub code: i64,
    pub steps: usize,
    pub output: Vec<u8>,
    pub edits: Vec<u8>,
    /// The calls of helpers, and once more those that removed a name.
    pub calls: usize,
    /// How often a limit of the host's that is below the machine's refused one.
    pub refused: usize,
}

impl Ran {
    /// Of no step.
    fn new(alloc: Global) -> Ran {
        Ran {
            code: 0,
            steps: 0,
            output: Vec::new(alloc),
            edits: Vec::new(alloc),
            calls: 0,
            refused: 0,
        }
    }
}

/// What the host's limits are to a call of a helper.
#[derive(Clone, Copy)]
enum Limit {
    /// No other than the machine's.
    Same,
    /// Passed: the error's number.
    Passed(u64),
    /// Not passed, but the machine's is.
    Above,
}

/// The helper that the instruction of a slot calls.
fn helper_at(code: &[u8], slot: u64) -> Option<u32> {
    match code.chunks_exact(8).nth(slot as usize)? {
        [0x85, _, _, _, a, b, c, d] => Some(u32::from_le_bytes([*a, *b, *c, *d])),
        _ => None,
    }
}

fn number(state: &FlatState<'_>, register: u8) -> u64 {
    state.register(register).unwrap_or(0)
}

/// The limit of a write that ends there, or of a cut to that length.
fn limit_of_data(limits: &Limits, end: Option<u64>) -> Limit {
    match end {
        Some(end) if end > limits.bytes => Limit::Passed(EFBIG),
        Some(end) if end > DATA_LIMIT as u64 => Limit::Above,
        _ => Limit::Same,
    }
}

/// A range's bytes.
fn text(alloc: Global, state: &FlatState<'_>, at: u64, count: u64) -> Option<Vec<u8>> {
    let mut text = Vec::new(alloc);
    for n in 0..count {
        text.push(state.byte(at.wrapping_add(n))?).ok()?;
    }
    Some(text)
}

/// How many names an object has, and whether one is among them.
fn count_of(object: Option<&Object>, are_keys: bool, name: &[u8]) -> (usize, bool) {
    match object {
        None => (0, false),
        Some(object) => if are_keys {
            (object.key_count(), object.key(name).is_some())
        } else {
            (object.xattr_count(), object.xattr(name).is_some())
        },
    }
}

/// The limit of names, of a helper with a name; and of how many there are, if it sets one.
fn limit_of_names(
    alloc: Global,
    state: &FlatState<'_>,
    limits: &NameLimits,
    are_keys: bool,
    sets: bool,
) -> Option<Limit> {
    let length = number(state, 2);
    if length > u64::from(limits.length) {
        return Some(Limit::Passed(EINVAL));
    }
    let Some(most) = limits.count else {
        return Some(Limit::Same);
    };
    if !sets || length == 0 || number(state, 4) > VALUE_LIMIT as u64 {
        return Some(Limit::Same);
    }
    let name = text(alloc, state, number(state, 1), length)?;
    let (count, is_there) = count_of(state.object.object(), are_keys, &name);
    if !is_there && count >= most as usize {
        return Some(Limit::Passed(ENOSPC));
    }
    Some(Limit::Same)
}

/// The limit of a helper that is called in a state.
fn limit_of(alloc: Global, state: &FlatState<'_>, limits: &Limits, helper: u32) -> Option<Limit> {
    match helper {
        3 => Some(limit_of_data(limits, number(state, 1).checked_add(number(state, 3)))),
        4 => Some(limit_of_data(limits, Some(number(state, 1)))),
        6 | 8 | 18 => limit_of_names(alloc, state, &limits.xattrs, false, false),
        7 => limit_of_names(alloc, state, &limits.xattrs, false, true),
        9 | 11 | 12 => limit_of_names(alloc, state, &limits.keys, true, false),
        10 => limit_of_names(alloc, state, &limits.keys, true, true),
        _ => Some(Limit::Same),
    }
}

/// Goes on after a call of a helper that answered a number.
fn put_answer(state: &mut FlatState<'_>, answer: u64) {
    let [_, _, _, _, _, _, r6, r7, r8, r9, r10] = state.regs;
    state.regs = [
        Some(answer),
        None,
        None,
        None,
        None,
        None,
        r6,
        r7,
        r8,
        r9,
        r10,
    ];
    state.slot = state.slot.wrapping_add(1);
}

/// What a step came to.
#[derive(Clone, Copy)]
enum Moved {
    On,
    /// To an exit with a code.
    Exit(u64),
    /// A limit of the machine's is passed that the host doesn't have.
    Above,
}

/// One step, by the limits; none if there is none, or memory is refused.
fn move_on(
    alloc: Global,
    code: &[u8],
    limits: &Limits,
    state: &mut FlatState<'_>,
    ran: &mut Ran,
) -> Option<Moved> {
    let helper = helper_at(code, state.slot).unwrap_or(0);
    if helper != 0 {
        ran.calls = ran.calls.saturating_add(1);
    }
    match limit_of(alloc, state, limits, helper)? {
        Limit::Same => {}
        Limit::Above => return Some(Moved::Above),
        Limit::Passed(error) => {
            put_answer(state, 0u64.wrapping_sub(error));
            ran.refused = ran.refused.saturating_add(1);
            return Some(Moved::On);
        }
    }
    match state.step(alloc, code).ok()? {
        Stepped::Next => {}
        Stepped::Exit(code) => return Some(Moved::Exit(code)),
        Stepped::Stuck => return None,
    }
    if matches!(helper, 8 | 11) && state.register(0) == Some(0) {
        ran.calls = ran.calls.saturating_add(1);
    }
    Some(Moved::On)
}

/// Puts what an exit with a code leaves: a negative one no output and no edits.
fn put_ended(alloc: Global, state: &mut FlatState<'_>, code: u64, ran: &mut Ran) -> Option<()> {
    ran.code = code.cast_signed();
    if ran.code >= 0 {
        let output = state.memory.output.get(..state.out_len)?;
        ran.output.extend_from_slice(output).ok()?;
        ran.edits = state.object.take_list(alloc);
    }
    Some(())
}

/// What a method's run comes to by the limits; none inside if it passes a limit of the machine's
/// that the host doesn't have, and none if it is stuck, or memory is refused.
pub fn run(
    alloc: Global,
    code: &[u8],
    limits: &Limits,
    start: &RunStart<'_>,
) -> Option<Option<Ran>> {
    if !is_layout(&CAPS, &LAYOUT) || start.input.len() > usize::from(CAPS.in_cap) {
        return None;
    }
    let machine = Machine::new(CAPS, LAYOUT);
    let mut state = FlatState::entry(alloc, &machine, start).ok()?;
    state.object = Staged::listing(alloc, start.object);
    let mut ran = Ran::new(alloc);
    for _ in 0..code.len() {
        ran.steps = ran.steps.saturating_add(1);
        match move_on(alloc, code, limits, &mut state, &mut ran)? {
            Moved::On => {}
            Moved::Above => return Some(None),
            Moved::Exit(code) => {
                put_ended(alloc, &mut state, code, &mut ran)?;
                return Some(Some(ran));
            }
        }
    }
    None
}

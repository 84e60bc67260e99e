//! Calls of methods at random on parts of objects, by rounds: a host fetches what a call needs, and
//! no more, until there is an answer. It is the flat machine's on the whole object, by the same
//! limits; what a call needs wasn't known, and it needs something at most as often as its run calls
//! helpers and removes names; and where more is known it answers the same, and never needs more.

mod fetched;
mod limited;

use crate::dice::Dice;
use crate::draft::random_class;
use bpf_asm::assemble_class;
use bpf_decode::{ClassImage, encode, write_image};
use class_calls::{ClassError, ClassHandle, PartCall, PartCallError};
use fetched::Fetched;
use flat_machine::RunStart;
use limited::{Ran, run};
use object_store::{Limits, NameLimits, Object, calls};
use part_bytes::Need;
use std::alloc::Global;

/// How many. `rt try`, whose checks of memory take some hundred times as long, can do with 120.
const METHODS: usize = 10_000;

const SEED: u64 = 0x5eed_0007;

/// What was seen.
#[derive(Drop)]
struct Seen {
    accepted: usize,
    calls: usize,
    /// Calls whose runs pass a limit of the flat machine's that the host doesn't have.
    past: usize,
    /// Helpers that a limit of the host's refused.
    refused: usize,
    /// Needs by their kinds.
    needs: [usize; 5],
    /// Calls of three rounds or more.
    long: usize,
    /// Calls that needed less where more was known.
    less: usize,
    /// Of the call that is made, what is wrong if it gives nothing.
    why: &'static str,
}

/// A call of a method.
#[derive(Clone, Copy)]
struct Call<'a, 'b> {
    class: &'a ClassHandle,
    code: &'a [u8],
    limits: Limits,
    start: RunStart<'b>,
}

fn kind(need: &Need) -> usize {
    match need {
        Need::Blocks { .. } => 0,
        Need::Xattr(_) => 1,
        Need::Key(_) => 2,
        Need::KeyFrom(_) => 3,
        Need::XattrFrom(_) => 4,
    }
}

/// Calls by rounds: how many needs there were. None if the answer isn't what is wanted, a need
/// names what was known or what there isn't, or there are more needs than the run allows.
fn rounds(
    alloc: Global,
    call: &Call<'_, '_>,
    ran: &Ran,
    fetched: &mut Fetched,
    seen: &mut Seen,
) -> Option<usize> {
    let mut class = call.class.share(alloc).ok()?;
    for count in 0..=ran.calls {
        let part = fetched.part(alloc, call.start.object)?;
        let request = PartCall {
            method: b"f",
            part: &part,
            caller: u64::from(call.start.caller),
            limits: call.limits,
            input: call.start.input,
        };
        match class.call_part(alloc, request) {
            Ok(answer) => {
                let is_same = answer.code == ran.code
                    && answer.steps == ran.steps
                    && answer.output.as_slice() == ran.output.as_slice()
                    && answer.edits.as_slice() == ran.edits.as_slice();
                seen.why = "another answer";
                return if is_same { Some(count) } else { None };
            }
            Err(PartCallError::Needs(need)) => {
                seen.why = "a need of what was known, or isn't there";
                fetched.fetch(alloc, call.start.object?, &need)?;
                let counted = seen.needs.get_mut(kind(&need))?;
                *counted = counted.saturating_add(1);
            }
            Err(_) => {
                seen.why = "no answer and no need";
                return None;
            }
        }
    }
    seen.why = "more needs than calls of helpers";
    None
}

/// What a host knows before the first round: nothing, or something at random; all names that its
/// limits count.
fn begun(
    alloc: Global,
    dice: &mut Dice,
    limits: &Limits,
    object: Option<&Object>,
) -> Option<Fetched> {
    let mut fetched = Fetched::nothing(alloc);
    if let Some(object) = object {
        if dice.is_one_in(3) {
            fetched.add_random(alloc, dice, object)?;
        }
    }
    fetched.add_all(
        alloc,
        limits.xattrs.count.is_some(),
        limits.keys.count.is_some(),
    )?;
    Some(fetched)
}

/// Calls by rounds from what is known, and once more after all of them with more; and by rounds
/// from more than that. None if any is wrong.
fn follow(
    alloc: Global,
    call: &Call<'_, '_>,
    ran: &Ran,
    dice: &mut Dice,
    seen: &mut Seen,
) -> Option<()> {
    let object = call.start.object;
    let mut fetched = begun(alloc, dice, &call.limits, object)?;
    let mut more = fetched.copied(alloc)?;
    let needs = rounds(alloc, call, ran, &mut fetched, seen)?;
    if let Some(object) = object {
        fetched.add_random(alloc, dice, object)?;
        more.add_random(alloc, dice, object)?;
    }
    if rounds(alloc, call, ran, &mut fetched, seen)? != 0 {
        seen.why = "a need after the last one";
        return None;
    }
    let fewer = rounds(alloc, call, ran, &mut more, seen)?;
    if needs >= 3 {
        seen.long = seen.long.saturating_add(1);
    }
    if fewer < needs {
        seen.less = seen.less.saturating_add(1);
    }
    seen.why = "more needs where more was known";
    if fewer <= needs { Some(()) } else { None }
}

/// A call beside the flat machine. None if they differ, or memory is refused.
fn try_call(alloc: Global, call: &Call<'_, '_>, dice: &mut Dice, seen: &mut Seen) -> Option<()> {
    seen.calls = seen.calls.saturating_add(1);
    seen.why = "no run of the flat machine";
    match run(alloc, call.code, &call.limits, &call.start)? {
        None => {
            seen.past = seen.past.saturating_add(1);
            Some(())
        }
        Some(ran) => {
            seen.refused = seen.refused.saturating_add(ran.refused);
            follow(alloc, call, &ran, dice, seen)
        }
    }
}

/// Limits of names: mostly no count.
fn random_names(dice: &mut Dice) -> NameLimits {
    let count = match dice.below(6) {
        0 => Some(dice.below(7) as u32),
        1 => Some(1000),
        _ => None,
    };
    let length = if dice.is_one_in(3) {
        (dice.byte() % 64).saturating_add(1)
    } else {
        64
    };
    NameLimits { count, length }
}

fn random_limits(dice: &mut Dice) -> Limits {
    let bytes = match dice.below(8) {
        0 => dice.below(20),
        1 => dice.below(20000),
        2 => (1 << 63) - 1,
        3 => 1 << 31,
        _ => 65536,
    };
    Limits {
        bytes,
        xattrs: random_names(dice),
        keys: random_names(dice),
    }
}

/// An input: the first word is mostly a place near a block's end, the others are small numbers.
fn random_input(alloc: Global, dice: &mut Dice) -> Option<Vec<u8>> {
    let mut input = Vec::new(alloc);
    for n in 0..8 {
        let near = match dice.below(6) {
            0 | 1 => if n == 0 { dice.below(5) * 4096 } else { 0 },
            2 => 1 << 31,
            3 => 65536,
            4 => dice.number(),
            _ => dice.below(256),
        };
        let number = dice.below(60).wrapping_add(near).wrapping_sub(30);
        input.extend_from_slice(&number.to_le_bytes()).ok()?;
    }
    input.truncate(dice.below(130).min(64) as usize);
    Some(input)
}

/// A name as runs have them: zeros, a small number, or letters.
fn random_name(alloc: Global, dice: &mut Dice, input: &[u8]) -> Option<Vec<u8>> {
    let length = 1 + dice.below(3) as usize;
    match dice.below(4) {
        0 => Some(Vec::from_elem(alloc, 0, length).ok()?),
        1 => Some(Vec::from_elem(alloc, dice.byte(), length).ok()?),
        _ => {
            let at = 8 * dice.below(2) as usize;
            match input.get(at..at + length) {
                Some(name) => Some(Vec::from_slice(alloc, name).ok()?),
                None => Some(Vec::from_elem(alloc, b'a', length).ok()?),
            }
        }
    }
}

/// Data whose bytes tell where they lie.
fn random_data(alloc: Global, dice: &mut Dice) -> Option<Vec<u8>> {
    let lengths = [
        0, 1, 9, 60, 4095, 4096, 4097, 8200, 8200, 12288, 12300, 20000,
    ];
    let length = lengths.get(dice.below(12) as usize).copied()?;
    let mut data = Vec::new(alloc);
    let mut number = dice.number();
    for _ in 0..length / 8 + 1 {
        number = number.wrapping_mul(0x5851_f42d_4c95_7f2d).wrapping_add(99);
        data.extend_from_slice(&(number >> 32).to_le_bytes()).ok()?;
    }
    data.truncate(length);
    Some(data)
}

/// An object, mostly; none inside if it is absent.
fn random_object(alloc: Global, dice: &mut Dice, input: &[u8]) -> Option<Option<Object>> {
    if dice.is_one_in(12) {
        return Some(None);
    }
    let data = random_data(alloc, dice)?;
    let mut object = calls::write(alloc, None, 0, &data).ok()?;
    for _ in 0..dice.below(6) {
        let name = random_name(alloc, dice, input)?;
        object = calls::set_xattr(alloc, Some(&object), &name, b"v").ok()?;
    }
    for _ in 0..dice.below(8) {
        let name = random_name(alloc, dice, input)?;
        object = calls::set_key(alloc, Some(&object), &name, b"\0\x01").ok()?;
    }
    Some(Some(object))
}

/// Makes calls of a method at random.
fn try_calls<'x>(
    alloc: Global,
    class: &'x ClassHandle,
    code: &'x [u8],
    dice: &mut Dice,
    seen: &mut Seen,
) -> Option<()> {
    for _ in 0..2 {
        let input = random_input(alloc, dice)?;
        let object = random_object(alloc, dice, &input)?;
        let start = RunStart {
            object: object.as_ref(),
            caller: 7,
            input: &input,
        };
        let call = Call {
            class,
            code,
            limits: random_limits(dice),
            start,
        };
        try_call(alloc, &call, dice, seen)?;
    }
    Some(())
}

/// The same of the method of an image, unless it is refused.
fn try_image(alloc: Global, image: &ClassImage, dice: &mut Dice, seen: &mut Seen) -> Option<()> {
    let bytes = write_image(alloc, image).ok()?;
    let class = match ClassHandle::open(alloc, &bytes) {
        Ok(class) => class,
        Err(ClassError::Verdict(_)) => return Some(()),
        Err(ClassError::Image(_) | ClassError::NoMemory) => return None,
    };
    seen.accepted = seen.accepted.saturating_add(1);
    let code = encode(alloc, image.methods().first()?.instructions()).ok()?;
    try_calls(alloc, &class, &code, dice, seen)
}

/// True if so much was seen that the test says something.
fn is_enough(seen: &Seen) -> bool {
    let [blocks, xattrs, keys, keys_from, xattrs_from] = seen.needs;
    seen.accepted >= METHODS / 5 * 2
        && seen.past <= seen.calls / 10
        && seen.refused >= METHODS / 10
        && blocks >= METHODS / 20
        && xattrs >= METHODS / 10
        && keys >= METHODS / 10
        && keys_from >= METHODS / 10
        && xattrs_from >= METHODS / 10
        && seen.long >= METHODS / 100
        && seen.less >= METHODS / 10
}

#[test]
fn random_parts(rt: HostRuntime) {
    let alloc = rt.alloc();
    let mut dice = Dice::new(SEED);
    let mut seen = Seen {
        accepted: 0,
        calls: 0,
        past: 0,
        refused: 0,
        needs: [0; 5],
        long: 0,
        less: 0,
        why: "",
    };
    for _ in 0..METHODS {
        let text = random_class(alloc, &mut dice, 3).expect(&rt, "memory");
        let image = assemble_class(alloc, &text).expect(&rt, "a class");
        assert!(rt;
            try_image(alloc, &image, &mut dice, &mut seen).is_some(),
            "{}: {text}",
            seen.why
        );
    }
    let [a, b, c, d, e] = seen.needs;
    assert!(rt;
        is_enough(&seen),
        "{} {} {} {} {a} {b} {c} {d} {e} {} {}",
        seen.accepted,
        seen.calls,
        seen.past,
        seen.refused,
        seen.long,
        seen.less
    );
}

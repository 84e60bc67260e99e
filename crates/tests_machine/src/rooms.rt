//! Calls in one room, of methods whose memory differs.

use crate::methods::class;
use interp::{CallError, Outcome, Room};
use std::alloc::Global;
use std::process::Abort;
use verifier::VerifiedClass;

/// Reads the stack's last bytes as they were at first, and leaves other ones for the next run.
const SMALLEST: &str = ".method f r 0 0; ldxdw r0, [r10-8]; stdw [r10-8], 7; exit";

/// Reads past an input of eight bytes, and leaves bytes in the output for the next run.
const SMALL: &str = ".method f r 24 16; ldxdw r0, [r1+8]; stdw [r3+0], -1; exit";

/// Adds the last bytes of the input, the output and the stack as they were at first, leaves other
/// ones in the last two for the next run, and puts out all of the output.
const GREATEST: &str =
    ".rules 3; .method f r 65535 65535; add r1, 65534; ldxb r6, [r1+0]; add r3, 65534;
ldxb r4, [r3+0]; add r6, r4; ldxdw r4, [r10-512]; add r6, r4; stb [r3+0], 9; stdw [r10-512], -1;
mov r1, 65535; call 13; mov r0, r6; exit";

/// True if the call returned 0 after three steps, without output.
fn is_zero(outcome: &Outcome) -> bool {
    outcome.code == 0 && outcome.steps == 3 && outcome.output.is_empty()
}

/// True if a call of the method `f` in the room returns 0.
fn answers_zero(rt: &impl Abort, room: &mut Room, class: &VerifiedClass, input: &[u8]) -> bool {
    let outcome = room
        .call(class, "f", None, 7, input)
        .expect(rt, "an answer");
    is_zero(&outcome)
}

/// True if a call of a method that was looked up before returns 0.
fn answers_once_found(rt: &impl Abort, room: &mut Room, class: &VerifiedClass) -> bool {
    let method = class.method("f").expect(rt, "a method");
    let outcome = room
        .call_method(method, None, 7, &[])
        .expect(rt, "an answer");
    is_zero(&outcome)
}

/// True if a method with the greatest regions returns the last byte of its input, and puts out 65,534
/// zeros and a 9. The input is 65,535 of this byte, or empty if it is 0.
fn answers_greatest(
    rt: &impl Abort,
    alloc: Global,
    room: &mut Room,
    class: &VerifiedClass,
    byte: u8,
) -> bool {
    let count = if byte == 0 { 0 } else { 65535 };
    let input = Vec::from_elem(alloc, byte, count).expect(rt, "memory");
    let outcome = room
        .call(class, "f", None, 7, &input)
        .expect(rt, "an answer");
    let mut sum = 0u64;
    for put in &outcome.output {
        sum = sum.wrapping_add(u64::from(*put));
    }
    outcome.code == i64::from(byte)
        && outcome.steps == 13
        && outcome.output.len() == 65535
        && outcome.output.get(65534).copied() == Some(9)
        && sum == 9
}

/// True if the room refuses an unknown method and a too long input, as `call` does.
fn refuses(room: &mut Room, class: &VerifiedClass) -> bool {
    let unnamed = room.call(class, "g", None, 7, &[]).err() == Some(CallError::NoMethod);
    let long = room.call(class, "f", None, 7, &[1; 25]).err() == Some(CallError::InputTooLong);
    unnamed && long
}

#[test]
fn one_after_the_other(rt: HostRuntime) {
    let smallest = class(&rt, rt.alloc(), &[SMALLEST]);
    let small = class(&rt, rt.alloc(), &[SMALL]);
    let mut room = Room::new(rt.alloc());
    let mut all = true;
    // Several rounds in one room: each run has to see zeros, whatever the run before it left.
    for _ in 0..3u8 {
        all = all && answers_zero(&rt, &mut room, &smallest, &[]);
        all = all && answers_zero(&rt, &mut room, &small, &[1, 2, 3, 4, 5, 6, 7, 8]);
        all = all && answers_zero(&rt, &mut room, &small, &[]);
        all = all && answers_once_found(&rt, &mut room, &smallest);
    }
    assert!(rt; all && refuses(&mut room, &small));
}

/// True if calls with the greatest regions and with the smallest, in turn, have their answers.
fn answer_in_turn(rt: &impl Abort, alloc: Global, room: &mut Room) -> bool {
    let greatest = class(rt, alloc, &[GREATEST]);
    let smallest = class(rt, alloc, &[SMALLEST]);
    let mut all = true;
    for byte in [5u8, 0, 6] {
        all = all && answers_greatest(rt, alloc, room, &greatest, byte);
        all = all && answers_greatest(rt, alloc, room, &greatest, 0);
        all = all && answers_zero(rt, room, &smallest, &[]);
    }
    all
}

/// The greatest regions take 131,582 bytes. A room holds them, whether it held fewer bytes before, as
/// many, or none, and serves the next call, whether it needs as many or fewer.
#[test]
fn the_greatest_regions(rt: HostRuntime) {
    let mut held_none = Room::new(rt.alloc());
    let mut held_few = Room::new(rt.alloc());
    let smallest = class(&rt, rt.alloc(), &[SMALLEST]);
    assert!(rt; answer_in_turn(&rt, rt.alloc(), &mut held_none));
    assert!(rt; answers_zero(&rt, &mut held_few, &smallest, &[]));
    assert!(rt; answer_in_turn(&rt, rt.alloc(), &mut held_few));
}

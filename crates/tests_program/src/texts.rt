//! Worked rows of classes in text and of a file of calls.

use crate::ended::{lines_of, only_prints};
use std::process::Abort;
use std::sync::Wait;
use std::thread::Threads;
use std::time::Clock;

/// Words, and after them the lines of the file `text`; below, the status and what is printed. Other
/// verdicts are rows of `tests_verdict`, other lines that are no instructions of `tests_decode`.
const VERDICTS: &str = "\
verify text / .method f r 0 0 / mov r0, 0 / exit
=> 0 f ok 2
verify text / .method f r 0 0 / jeq r1, 0, +0 / exit
=> 1 refused method 0 slot 0: 8 PointerCompare
verify text / .rules 2 / .method f r 16 1 / and r2, 15 / stxdw [r10-16], r2 / ldxdw r4, [r10-16] / \
    add r1, r4 / ldxb r0, [r1+0] / exit
=> 0 f ok 6
verify text / .method f r 16 1 / and r2, 15 / stxdw [r10-16], r2 / ldxdw r4, [r10-16] / add r1, r4 / \
    ldxb r0, [r1+0] / exit
=> 1 refused method 0 slot 4: 10 Bounds
asm text out / .method f r 0 0 / foo r1 / exit
=> 1 line 2: 1 Word
";

/// Calls: of an operation, of a write that fails, of the first lock of an object. Other operations
/// are rows of `tests_machine`.
const CALLS: &str = "\
run text f / .method f r 0 0 / mov r0, -13 / smod r0, 3 / exit
=> 0 code -1 / output - / steps 3 / object absent
run text f --input 616263 / .method f w 3 0 / mov r2, r1 / mov r1, 0 / mov r3, 3 / call 3 / mov r0, -5 / exit
=> 0 code -5 / output - / steps 6 / object absent
run text lock / .method lock rw 0 0 / call 15 / mov r6, r0 / stw [r10-4], 0x6b636f6c / mov r1, r10 / \
    add r1, -4 / mov r2, 4 / mov r3, r10 / add r3, -16 / mov r4, 8 / call 6 / jsge r0, 0, held / \
    stxdw [r10-16], r6 / mov r1, r10 / add r1, -4 / mov r2, 4 / mov r3, r10 / add r3, -16 / mov r4, 8 / \
    call 7 / exit / held: / ldxdw r1, [r10-16] / mov r0, 0 / jeq r1, r6, done / mov r0, -16 / done: / exit
=> 0 code 0 / output - / steps 20 / object 0 1 0
";

/// A folder that tells no reason, to which nothing is added.
const UNTOLD: &str = "\
verify other --explain / -
=> 1 cannot read
run text f --save other --explain / .method f r 0 0 / mov r0, 0 / exit
=> 1 cannot write
";

/// Files of calls.
const CLUSTERS: &str = "\
cluster text / cluster nodes 3 replicas 3 groups 64 shards 4 workers 4 tries 100000000 / \
    client 1 a lock lock - / client 1 a lock unlock -
=> 0 client 1 call 0 place 0 code 0 output - / client 1 call 1 place 1 code 0 output -
cluster text / cluster nodes 3 replicas 3 groups 64 shards 4 workers 4 tries 100000000 / \
    client 1 a lock lock - / map 0 1 / client 2 a lock lock -
=> 0 client 1 call 0 place 0 code 0 output - / client 2 call 0 place 1 code -16 output -
";

/// True if the program prints that of those words and that file `text`, and ends so.
fn prints<R: Abort + AllocGlobal + Threads + Wait + Clock + Sync>(
    rt: &R,
    words: &[&str],
    text: &str,
    printed: &str,
    status: u8,
) -> bool {
    let text = lines_of(rt, text);
    let printed = lines_of(rt, printed);
    only_prints(rt, words, text.as_bytes(), &printed, status)
}

/// True if a row is right.
fn is_right<R: Abort + AllocGlobal + Threads + Wait + Clock + Sync>(
    rt: &R,
    asked: &str,
    answer: &str,
) -> bool {
    let (words, text) = asked.split_once(" / ").expect(rt, "a file");
    let (status, printed) = answer.split_once(' ').expect(rt, "a status");
    let status = status.parse::<u8>().expect(rt, "a status");
    let words = words.split_whitespace().collect(rt.alloc());
    let words: Vec<&str> = words.expect(rt, "memory");
    prints(rt, &words, text, printed, status)
}

/// There are that many rows, and each is right.
fn are_right<R: Abort + AllocGlobal + Threads + Wait + Clock + Sync>(
    rt: &R,
    rows: &str,
    wanted: usize,
) {
    let mut lines = rows.lines();
    for _ in 0..wanted {
        let asked = lines.next().expect(rt, "a row");
        let answer = lines.next().expect(rt, "an answer");
        let answer = answer.strip_prefix("=> ").expect(rt, "an answer");
        assert!(rt; is_right(rt, asked, answer), "{asked}");
    }
    assert!(rt; lines.next().is_none());
}

#[test]
fn classes_are_judged(rt: HostRuntime) {
    are_right(&rt, VERDICTS, 5);
}

#[test]
fn methods_are_called(rt: HostRuntime) {
    are_right(&rt, CALLS, 3);
}

#[test]
fn nothing_is_told_without_a_reason(rt: HostRuntime) {
    are_right(&rt, UNTOLD, 2);
}

#[test]
fn clusters_are_played(rt: HostRuntime) {
    are_right(&rt, CLUSTERS, 2);
}

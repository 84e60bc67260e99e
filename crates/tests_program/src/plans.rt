//! The plan of a file of calls, and the lines that are printed of it.

use cluster_file::{
    Plan, PlannedCall, PlannedStep, Reading, bad_line, push_asked, push_head, push_refused,
    push_replied, read_plan, refused_line,
};
use std::process::Abort;
use std::test::*;

/// A call of an unknown class, a map without a node, a map of two, and a call with input.
const TEXT: &str = "cluster nodes 3 replicas 2 groups 64 shards 4 workers 5 tries 100000000
client 1 a other lock -
map
\t map 99999999999999999999  1
client 2 b obj write 6865";

/// Reads a file with the classes `lock` and `obj`.
fn read<R: Abort + AllocGlobal>(rt: &R, text: &str) -> Reading {
    read_plan(rt.alloc(), &["lock", "obj"], text).expect(rt, "memory")
}

/// True if a call is that one.
fn is_call(
    call: &PlannedCall,
    client: u32,
    object: &str,
    class: usize,
    method: &str,
    input: &[u8],
) -> bool {
    call.client().get() == client
        && call.object().text() == object
        && call.class() == class
        && call.method() == method
        && call.input() == input
}

/// True if these steps are those of the text.
fn are_right(steps: &[PlannedStep]) -> bool {
    match steps {
        [
            PlannedStep::Call(first),
            PlannedStep::Map(3, none),
            PlannedStep::Map(4, two),
            PlannedStep::Call(last),
        ] => {
            is_call(first, 1, "a", 64, "lock", &[])
                && first.word() == "other"
                && none.items().is_empty()
                && two.items().len() == 2
                && is_call(last, 2, "b", 1, "write", &[0x68, 0x65])
                && last.word() == "obj"
        }
        _ => false,
    }
}

/// True if the first line's numbers are there, the clients are counted, and the steps are right.
fn is_right(plan: &Plan) -> bool {
    let numbers = plan.numbers();
    numbers.nodes == 3
        && numbers.replicas == 2
        && numbers.groups == 64
        && numbers.shards == 4
        && numbers.workers == 5
        && numbers.tries == 100_000_000
        && plan.clients() == 2
        && are_right(plan.steps())
}

#[test]
fn a_plan(rt: HostRuntime) {
    match read(&rt, TEXT) {
        Reading::Plan(plan) => assert!(rt; is_right(&plan)),
        Reading::Bad(line) => assert_eq!(rt; line, 0),
    }
    match read(&rt, "cluster nodes 3") {
        Reading::Plan(_) => assert!(rt; false, "a first line that is cut"),
        Reading::Bad(line) => assert_eq!(rt; line, 1),
    }
}

#[test]
fn lines(rt: HostRuntime) -> Result<(), Fail> {
    let mut text = String::new(rt.alloc());
    push_head(&mut text, 1, 0)?;
    push_replied(rt.alloc(), &mut text, 0, 0, &[])?;
    push_head(&mut text, 2, 10)?;
    push_replied(rt.alloc(), &mut text, 7, -16, &[0x68, 0x0f])?;
    push_head(&mut text, 64, 1)?;
    push_refused(rt.alloc(), &mut text, "7 InputTooLong")?;
    let wanted =
        "client 1 call 0 place 0 code 0 output -\nclient 2 call 10 place 7 code -16 output 680f\nclient 64 call 1 \
    refused 7 InputTooLong\n";
    assert!(rt; text.as_str() == wanted);
    let bad = bad_line(rt.alloc(), 3)?;
    let refused = refused_line(rt.alloc(), 12, "1 NoneUp")?;
    assert!(rt;
        bad.as_str() == "line 3: bad\n" && refused.as_str() == "line 12: refused 1 NoneUp\n"
    );
    Ok(())
}

/// The requests of a file's calls, in a cluster of 64 groups.
fn asked<R: Abort + AllocGlobal>(rt: &R, file: &str) -> String {
    let mut text = String::new(rt.alloc());
    if let Reading::Plan(plan) = read(rt, file) {
        for step in plan.steps() {
            if let PlannedStep::Call(call) = step {
                push_asked(rt.alloc(), &mut text, 64, call).expect(rt, "memory");
            }
        }
    }
    text
}

/// By FNV-1a of 64 bits `a` hashes to 0xaf63dc4c8601ec8c and `b` to 0xaf63df4c8601f1a5, so they are
/// in groups 12 and 37 of 64.
#[test]
fn what_was_asked(rt: HostRuntime) {
    let wanted = " group 12 request a other lock - group 37 request b obj write 6865";
    assert!(rt; asked(&rt, TEXT).as_str() == wanted);
}

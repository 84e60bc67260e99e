//! Drawings of runs, by hand.

use sim::{Column, DrawnMessage, DrawnStep, What, draw};
use std::alloc::Global;
use std::process::Abort;

const NODE_1: Column = Column::Node(1);

const NODE_2: Column = Column::Node(2);

const CLIENT: Column = Column::Client(1);

/// A reply that is never delivered reaches its client; m5 is lost; m4 gets to a stopped node, whose
/// line is dotted until it goes on; m1 arrives twice. An arrow shows its kind if that leaves a dash
/// before the head: next to the number, over one column, in up to 7 characters (m6, and not m7),
/// over two in 19 (m10, and not m11), and in two less if the message is lost (m8, and not m9).
const DRAWN: &str = "\
c1          1           2           mon         event
|--req----->|           |           |           req 1 1 7 a lock lock - => m1
|           |--m1 Rep-->|           |           Rep 1 0 => m2
|           |--m1 Rep-->|           |           Rep 1 0
|           |<--m2 Ack--|           |           Ack 1 1 => m3
|<------m3--|           |           |           Reply 7 0 0 -
|           |           *           |           see 2 2 => m4 m5
|           |           |--m5----x  |           AskActivate 2, lost
|           |           *           |           stop 2
|           |           :  x--m4    |           Query 2: stopped
|           *           :           |           see 1 3 => m6 m7 m8 m9
|           |--m8 AskActivateNow-x  |           AskActivateNow 3, lost
|           |--m9----------------x  |           AskActivateThen 3, lost
|           |           *           |           go 2
|           |--m6 Logs->|           |           Logs 3 => m10 m11
|<-m10 AskActivateThen--|           |           AskActivateThen 4
|<-----------------m11--|           |           AskActivateThere 4
|           |--m7------>|           |           Query 3
";

/// The messages that are sent.
const MESSAGES: [(Column, Column, &str); 11] = [
    (NODE_1, NODE_2, "Rep 1 0"),
    (NODE_2, NODE_1, "Ack 1 1"),
    (NODE_1, CLIENT, "Reply 7 0 0 -"),
    (NODE_2, NODE_2, "Query 2"),
    (NODE_2, Column::Monitor, "AskActivate 2"),
    (NODE_1, NODE_2, "Logs 3"),
    (NODE_1, NODE_2, "Query 3"),
    (NODE_1, Column::Monitor, "AskActivateNow 3"),
    (NODE_1, Column::Monitor, "AskActivateThen 3"),
    (NODE_2, CLIENT, "AskActivateThen 4"),
    (NODE_2, CLIENT, "AskActivateThere 4"),
];

/// The messages of a table.
fn messages<R: Abort>(
    rt: &R,
    alloc: Global,
    table: &[(Column, Column, &str)],
) -> Vec<DrawnMessage> {
    let mut messages = Vec::new(alloc);
    for &(from, to, text) in table {
        let text = String::from_str(alloc, text).expect(rt, "memory");
        messages
            .push(DrawnMessage { from, to, text })
            .expect(rt, "memory");
    }
    messages
}

/// The event of each step, its text, and the number of messages it sent.
const STEPS: [(What, &str, usize); 11] = [
    (What::Asked(CLIENT, NODE_1), "req 1 1 7 a lock lock -", 1),
    (What::Arrived(1), "", 1),
    (What::Arrived(1), "", 0),
    (What::Arrived(2), "", 1),
    (What::At(NODE_2), "see 2 2", 2),
    (What::Stopped(NODE_2), "stop 2", 0),
    (What::Bounced(4), ": stopped", 0),
    (What::At(NODE_1), "see 1 3", 4),
    (What::Resumed(NODE_2), "go 2", 0),
    (What::Arrived(6), "", 2),
    (What::Arrived(7), "", 0),
];

/// The steps of a table.
fn steps<R: Abort>(rt: &R, alloc: Global, table: &[(What, &str, usize)]) -> Vec<DrawnStep> {
    let mut steps = Vec::new(alloc);
    for &(what, text, sent) in table {
        let text = String::from_str(alloc, text).expect(rt, "memory");
        steps
            .push(DrawnStep { what, text, sent })
            .expect(rt, "memory");
    }
    steps
}

/// The drawing of those steps.
fn drawn<R: Abort>(rt: &R, alloc: Global) -> String {
    let messages = messages(rt, alloc, &MESSAGES);
    let steps = steps(rt, alloc, &STEPS);
    draw(alloc, &messages, &steps).expect(rt, "memory")
}

#[test]
fn a_run(rt: HostRuntime) {
    let text = drawn(&rt, rt.alloc());
    assert!(rt; text.as_str() == DRAWN, "{text}");
}

//! Files of events, and what is printed of them.

use crate::ended::only_prints;
use std::process::Abort;
use std::sync::Wait;
use std::thread::Threads;
use std::time::Clock;

/// Node 1 alone is a group, and active.
const ALONE: &str = "\
map 1 => map 1 prev 0
see 1 1 => m1 1->mon AskActivate 1
deliver 1 => m2 mon->1 Activated 1
deliver 2 => nothing
";

/// Nodes 1, 2 and 3 become a group, and node 1 is active.
const OPENED: &str = "\
map 1 2 3 => map 1 prev 0
see 1 1 => m1 1->2 Install 1 0 / m2 1->3 Install 1 0
deliver 1 => m3 2->1 Installed 1
deliver 2 => m4 3->1 Installed 1
deliver 3 => nothing
deliver 4 => m5 1->mon AskActivate 1
deliver 5 => m6 mon->1 Activated 1
deliver 6 => nothing
";

/// After that: both members log a request and acknowledge it.
const LOGGED: &str = "\
req 1 1 7 a lock lock - => m7 1->2 Rep 1 0 / m8 1->3 Rep 1 0
deliver 7 => m9 2->1 Ack 1 1
deliver 8 => m10 3->1 Ack 1 1
";

/// One client holds the lock, the other gets it once it is unlocked.
const LOCK_CHANGES_HANDS: &str = "\
req 1 1 1 a lock lock - => m3 1->c1 Reply 1 0 0 -
req 1 2 1 a lock lock - => m4 1->c2 Reply 1 1 -16 -
req 1 1 2 a lock unlock - => m5 1->c1 Reply 2 2 0 -
req 1 2 2 a lock lock - => m6 1->c2 Reply 2 3 0 -
";

/// The reply goes out once all have acknowledged, and again where the request comes again.
const REPLIED_TWICE: &str = "\
deliver 9 => nothing
deliver 10 => m11 1->c1 Reply 7 0 0 -
req 1 1 7 a lock lock - => m12 1->c1 Reply 7 0 0 -
show 1 => node 1 epoch 1 active length 1 committed 1
";

/// The next primary finds the request in a log; what the old one answers later is the same.
const PRIMARY_CHANGES: &str = "\
map 2 3 => map 2 prev 1
see 2 2 => m11 2->1 Query 2 / m12 2->2 Query 2 / m13 2->3 Query 2
deliver 13 => m14 3->2 Log 2 1
deliver 14 => m15 2->3 Install 2 1
deliver 15 => m16 3->2 Installed 2
deliver 16 => m17 2->mon AskActivate 2
deliver 17 => m18 mon->2 Activated 2
deliver 18 => nothing
req 2 1 7 a lock lock - => m19 2->c1 Reply 7 0 0 -
deliver 9 => nothing
deliver 10 => m20 1->c1 Reply 7 0 0 -
";

/// A request that comes before the one below it isn't logged, and an Install that comes again
/// resets nothing.
const OUT_OF_ORDER: &str = "\
req 1 1 1 a lock lock - => m7 1->2 Rep 1 0 / m8 1->3 Rep 1 0
req 1 1 2 a lock unlock - => m9 1->2 Rep 1 1 / m10 1->3 Rep 1 1
deliver 9 => nothing
deliver 7 => m11 2->1 Ack 1 1
deliver 1 => m12 2->1 Installed 1
show 2 => node 2 epoch 1 installed length 1 committed 0
deliver 9 => m13 2->1 Ack 1 2
";

/// The primary of a map that nobody else has learned asks the members before it, and answers no
/// client.
const NEW_MEMBERS: &str = "\
map 4 5 => map 2 prev 1
see 4 2 => m7 4->1 Query 2 / m8 4->2 Query 2 / m9 4->3 Query 2
req 4 1 8 a lock lock - => refused 2 Peering
req 5 1 8 a lock lock - => refused 1 NotPrimary
show 4 => node 4 epoch 2 asking length 0 committed 0
";

/// The old primary logged a request that nobody else did; back as primary, it takes the list of the
/// others in its place.
const DIVERGENT_END: &str = "\
deliver 9 => nothing
deliver 10 => m11 1->c1 Reply 7 0 0 -
req 1 1 8 a lock unlock - => m12 1->2 Rep 1 1 / m13 1->3 Rep 1 1
map 2 3 => map 2 prev 1
see 2 2 => m14 2->1 Query 2 / m15 2->2 Query 2 / m16 2->3 Query 2
deliver 16 => m17 3->2 Log 2 1
deliver 17 => m18 2->3 Install 2 1
deliver 18 => m19 3->2 Installed 2
deliver 19 => m20 2->mon AskActivate 2
deliver 20 => m21 mon->2 Activated 2
deliver 21 => nothing
req 2 2 1 a lock lock - => m22 2->3 Rep 2 1
deliver 22 => m23 3->2 Ack 2 2
deliver 23 => m24 2->c2 Reply 1 1 -16 -
map 1 2 => map 3 prev 2
see 1 3 => m25 1->2 Query 3 / m26 1->3 Query 3
deliver 26 => m27 3->1 Log 3 2
deliver 27 => m28 1->2 Install 3 2
show 1 => node 1 epoch 3 installing length 2 committed 1
deliver 28 => m29 2->1 Installed 3
deliver 29 => m30 1->mon AskActivate 3
deliver 30 => m31 mon->1 Activated 3
deliver 31 => nothing
deliver 13 => nothing
req 1 1 8 a lock unlock - => m32 1->2 Rep 3 2
deliver 32 => m33 2->1 Ack 3 3
deliver 33 => m34 1->c1 Reply 8 2 0 -
";

/// A member stops and goes on; what nobody acknowledged is sent again.
const STOPPED_MEMBER: &str = "\
req 1 1 7 a lock lock - => m7 1->2 Rep 1 0 / m8 1->3 Rep 1 0
stop 3 => nothing
deliver 8 => stopped
resend 1 => again m7 / again m8
deliver 7 => m9 2->1 Ack 1 1
deliver 9 => nothing
resend 1 => again m8
go 3 => nothing
deliver 8 => m10 3->1 Ack 1 1
deliver 8 => m11 3->1 Ack 1 1
deliver 10 => m12 1->c1 Reply 7 0 0 -
deliver 11 => nothing
req 1 1 7 a lock lock - => m13 1->c1 Reply 7 0 0 -
";

/// A map with the members that there were keeps their interval; one that is like an earlier map
/// only doesn't.
const SAME_MEMBERS: &str = "\
map 1 2 3 => map 2 same 1
see 2 2 => nothing
req 1 1 1 a lock lock - => m7 1->2 Rep 1 0 / m8 1->3 Rep 1 0
deliver 7 => m9 2->1 Ack 1 1
deliver 8 => m10 3->1 Ack 1 1
deliver 9 => nothing
deliver 10 => m11 1->c1 Reply 1 0 0 -
map 1 2 => map 3 prev 1
map 1 2 3 => map 4 prev 1
see 1 4 => m12 1->1 Query 4 / m13 1->2 Query 4 / m14 1->3 Query 4
";

/// Runs of a group: how it opens, what happens then, and what happens at last.
static RUNS: [[&str; 3]; 9] = [
    [ALONE, LOCK_CHANGES_HANDS, ""],
    [OPENED, LOGGED, REPLIED_TWICE],
    [OPENED, LOGGED, PRIMARY_CHANGES],
    [OPENED, OUT_OF_ORDER, ""],
    [OPENED, NEW_MEMBERS, ""],
    [OPENED, LOGGED, DIVERGENT_END],
    [OPENED, STOPPED_MEMBER, ""],
    [OPENED, SAME_MEMBERS, ""],
    ["", "", ""],
];

fn push_line<R: Abort>(rt: &R, text: &mut String, line: &str) {
    text.push_str(line).expect(rt, "memory");
    text.push('\n').expect(rt, "memory");
}

/// Adds lines that have ` / ` between them.
fn push_lines<R: Abort>(rt: &R, text: &mut String, lines: &str) {
    for line in lines.split(" / ") {
        push_line(rt, text, line);
    }
}

/// Adds the events of a text to a file, and what stands after each to what it prints.
fn add<R: Abort>(rt: &R, text: &str, events: &mut String, printed: &mut String) {
    for line in text.lines() {
        let (event, lines) = line.split_once(" => ").expect(rt, "what is printed");
        push_line(rt, events, event);
        push_lines(rt, printed, lines);
    }
}

/// True if `sim` prints of those texts' events what stands after them, and ends with 0.
fn plays<R: Abort + AllocGlobal + Threads + Wait + Clock + Sync>(rt: &R, texts: &[&str]) -> bool {
    let mut events = String::new(rt.alloc());
    let mut printed = String::new(rt.alloc());
    for text in texts {
        add(rt, text, &mut events, &mut printed);
    }
    only_prints(rt, &["sim", "text"], events.as_bytes(), &printed, 0)
}

#[test]
fn groups_are_played(rt: HostRuntime) {
    for texts in &RUNS {
        assert!(rt; plays(&rt, texts), "{}", texts[1]);
    }
}

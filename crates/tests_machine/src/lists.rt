//! The lists of edits that runs leave, with their bytes written by hand.

use crate::helper_calls::{Arguments, id_of};
use crate::methods::class;
use crate::words::{halves, is_object, object, pairs};
use interp::{CallError, Listed, Room, VerifiedClass};
use object_store::Object;
use std::alloc::Global;
use std::process::Abort;

/// A row has the object before; the calls of helpers that the method makes, as in the rows of
/// helper calls, with a semicolon between two; the code that it returns; the list as hexadecimal
/// digits; and the object after.
#[rattlefmt::skip]
pub const ROWS: &[(&str, &str, i64, &str, &str)] = &[
    // a new name, the value that was there, and a name that isn't there
    ("none", "setxattr <a <1", 0, "0103010061010031", "-/a=1"),
    ("-/a=1", "setxattr <a <1", 0, "03010061010031", "-/a=1"),
    ("-/a=1", "rmxattr <b", 0, "", "-/a=1"),
    // a write of no bytes, of an absent object and of one that is there
    ("none", "write =5 <-", 0, "01", "-"),
    ("abc", "write =9 <-; create =0; create =1", 0, "", "abc"),
    // a gap, the same length, and two writes that touch
    ("abc", "write =5 <xy", 0, "080500000000000000020000007879", "0x61626300007879"),
    ("abc", "truncate =3", 0, "070300000000000000", "abc"),
    ("abc", "write =0 <ab; write =2 <c", 0, "080000000000000000020000006162080200000000000000\
0100000063", "abc"),
    // what comes and goes, a removal, and a negative code
    ("none", "create =1; setxattr <b <1; rmxattr <b", 0, "010301006201003104010062", "-"),
    ("-/a=1", "remove; map_set <k <v", 0, "02010501006b010076", "-//k=v"),
    ("-//k=v", "map_set <k <w", -5, "", "-//k=v"),
    // past the limit, and no bytes at it
    ("none", "write =65536 <y; write =65536 <-", 0, "01", "-"),
    // writes on both sides of a cut
    ("abc", "write =10 <pq; truncate =4; write =12 <rs", 0, "080a00000000000000020000007071\
070400000000000000080c00000000000000020000007273", "0x6162630000000000000000007273"),
    ("-/foo=bar", "setxattr <foo <bar", 0, "030300666f6f0300626172", "-/foo=bar"),
    ("none", "map_set <k <v; map_rm <k", 0, "010501006b0100760601006b", "-"),
    // helpers that only read
    ("abc/a=1/k=v", "stat; getxattr <a >9; map_next <- >9; out_len =2", 0, "", "abc/a=1/k=v"),
];

/// A class whose method `f` makes calls, and the input with their arguments.
#[derive(Drop)]
pub struct Made {
    pub class: VerifiedClass,
    pub input: Vec<u8>,
}

/// The class of a method that makes these calls and returns a code.
pub fn calling(rt: &impl Abort, alloc: Global, calls: &str, code: i64) -> Made {
    calling_by(rt, alloc, "", calls, code)
}

/// The same, of the rule set that a line names.
pub fn calling_by(rt: &impl Abort, alloc: Global, rules: &str, calls: &str, code: i64) -> Made {
    let mut made = Arguments::new(alloc);
    for call in calls.split(';') {
        let (name, words) = halves(call.trim(), ' ');
        for word in words.split_whitespace() {
            made.put(rt, alloc, word);
        }
        made.call(rt, alloc, id_of(name));
    }
    let end = format!(in alloc; "; mov r0, {code}; exit").expect(rt, "memory");
    let pieces = [
        rules,
        ".method f rw 4096 4096; mov r6, r1; mov r7, r3",
        &made.code,
        &end,
    ];
    Made {
        class: class(rt, alloc, &pieces),
        input: made.input,
    }
}

/// The answer of such a method.
fn listed(
    rt: &impl Abort,
    alloc: Global,
    object: Option<&Object>,
    calls: &str,
    code: i64,
) -> Listed {
    let made = calling(rt, alloc, calls, code);
    let mut room = Room::new(alloc);
    room.call_listed(&made.class, "f", object, 7, &made.input)
        .expect(rt, "an answer")
}

#[test]
fn lists(rt: HostRuntime) {
    let alloc = rt.alloc();
    for (before, calls, code, list, after) in ROWS {
        let object = object(&rt, alloc, before);
        let answer = listed(&rt, alloc, object.as_ref(), calls, *code);
        let list = pairs(&rt, alloc, list);
        assert!(rt; answer.outcome.code == *code, "{calls}");
        assert!(rt; answer.edits.as_slice() == list.as_slice(), "{calls}");
        assert!(rt;
            is_object(&rt, alloc, answer.outcome.change.after(), after),
            "{calls}"
        );
    }
}

#[test]
fn refusals(rt: HostRuntime) {
    let class = class(&rt, rt.alloc(), &[".method f r 4 0; mov r0, 1; exit"]);
    let mut room = Room::new(rt.alloc());
    let unnamed = room.call_listed(&class, "g", None, 7, &[]);
    assert!(rt; unnamed.err() == Some(CallError::NoMethod));
    let long = room.call_listed(&class, "f", None, 7, &[1; 5]);
    assert!(rt; long.err() == Some(CallError::InputTooLong));
    let answer = room.call_listed(&class, "f", None, 7, &[1; 4]);
    let answer = answer.expect(&rt, "an answer");
    assert!(rt; answer.outcome.code == 1 && answer.edits.is_empty());
}

//! Each answer and each refusal of every helper, and what it copies and leaves.

mod rows;

use crate::methods::{class, outcome};
use crate::words::{bytes, halves, is_object, number, object};
use helpers::{Argument, Helper, signature};
use interp::Outcome;
use object_store::{Object, calls};
use std::alloc::Global;
use std::process::Abort;

/// The helpers in the order of their ids from 1 on, each with its arguments. A star marks one that
/// may change the object.
const HELPERS: &str = "\
stat
read number writable
write* number readable
truncate* number
remove*
getxattr readable writable
setxattr* readable readable
rmxattr* readable
map_get readable writable
map_set* readable readable
map_rm* readable
map_next readable writable
out_len length
create* number
caller
compare readable readable
copy writable readable
xattr_next readable writable
";

/// The argument of that name.
fn argument(word: &str) -> Option<Argument> {
    match word {
        "number" => Some(Argument::Number),
        "readable" => Some(Argument::Readable),
        "writable" => Some(Argument::Writable),
        "length" => Some(Argument::OutputLength),
        _ => None,
    }
}

/// True if an id has the signature that a line of the helpers tells.
fn has_signature(id: u32, line: &str) -> bool {
    let (name, arguments) = halves(line, ' ');
    let (first, second) = halves(arguments, ' ');
    match signature(id) {
        None => false,
        Some(has) => {
            has.writes == name.ends_with('*')
                && has.arguments.get(0).copied() == argument(first)
                && has.arguments.get(1).copied() == argument(second)
                && has.arguments.len() <= 2
        }
    }
}

#[test]
fn signatures(rt: HostRuntime) {
    let mut id = 1u32;
    for line in HELPERS.lines() {
        assert!(rt; has_signature(id, line), "{line}");
        id = id.wrapping_add(1);
    }
    assert!(rt; id == 19 && Helper::of(12) == Some(Helper::MapNext));
    assert!(rt; signature(0).is_none() && signature(19).is_none() && signature(u32::MAX).is_none());
}

/// The id of the helper of that name.
pub fn id_of(name: &str) -> u32 {
    let mut id = 1u32;
    for line in HELPERS.lines() {
        if halves(line, ' ').0.trim_end_matches('*') == name {
            return id;
        }
        id = id.wrapping_add(1);
    }
    0
}

/// The bytes of the output in which a helper's writable range begins, all of which are put out.
const SHOWN: usize = 72;

/// The arguments of a call so far: the code that puts them into registers from 1 on, the next
/// register, and the input in which the readable ranges lie.
#[derive(Drop)]
pub struct Arguments {
    pub code: String,
    register: u8,
    pub input: Vec<u8>,
}

impl Arguments {
    pub fn new(alloc: Global) -> Arguments {
        Arguments {
            code: String::new(alloc),
            register: 1,
            input: Vec::new(alloc),
        }
    }

    /// Puts one more: a number `=N`, the bytes `<BYTES`, or `>N` bytes of the output.
    pub fn put(&mut self, rt: &impl Abort, alloc: Global, word: &str) {
        let (_, number) = halves(word, '=');
        let (_, name) = halves(word, '<');
        let (_, room) = halves(word, '>');
        let (first, second) = (self.register, self.register.wrapping_add(1));
        let code = if !number.is_empty() {
            self.register = second;
            format!(in alloc; "; lddw r{first}, {number}")
        } else if !name.is_empty() {
            self.register = second.wrapping_add(1);
            let (at, len) = self.put_bytes(rt, alloc, name);
            format!(in alloc; "; mov r{first}, r6; add r{first}, {at}; mov r{second}, {len}")
        } else {
            self.register = second.wrapping_add(1);
            format!(in alloc; "; mov r{first}, r7; mov r{second}, {room}")
        };
        let code = code.expect(rt, "memory");
        self.code.push_str(&code).expect(rt, "memory");
    }

    /// Calls the helper of an id with the arguments, and begins those of the next call.
    pub fn call(&mut self, rt: &impl Abort, alloc: Global, id: u32) {
        let call = format!(in alloc; "; call {id}").expect(rt, "memory");
        self.code.push_str(&call).expect(rt, "memory");
        self.register = 1;
    }

    /// Puts bytes after the input. Returns their place and their number.
    fn put_bytes(&mut self, rt: &impl Abort, alloc: Global, word: &str) -> (usize, usize) {
        let bytes = bytes(rt, alloc, word);
        let place = (self.input.len(), bytes.len());
        self.input.extend_from_slice(&bytes).expect(rt, "memory");
        place
    }
}

/// The lines before a method's code: it is of rule set 3 if it has a later helper or a longer input.
fn head_of(id: u32, input: usize) -> &'static str {
    if id > 15 || input > 4096 {
        ".rules 3; .method f rw 65535 4096"
    } else {
        ".method f rw 4096 4096"
    }
}

/// The outcome of a method that makes a call and returns 100 more than the helper. Before the call
/// the output's first 16 bytes are 0xee, afterwards the shown ones are put out.
fn outcome_of(rt: &impl Abort, alloc: Global, object: Option<&Object>, said: &str) -> Outcome {
    let (name, words) = halves(said, ' ');
    let mut arguments = Arguments::new(alloc);
    for word in words.split_whitespace() {
        arguments.put(rt, alloc, word);
    }
    let id = id_of(name);
    let call = format!(in alloc; "; call {id}; mov r6, r0; mov r1, {SHOWN}");
    let call = call.expect(rt, "memory");
    let pieces = [
        head_of(id, arguments.input.len()),
        "; mov r6, r1; mov r7, r3; lddw r8, 0xeeeeeeeeeeeeeeee",
        "; stxdw [r7+0], r8; stxdw [r7+8], r8",
        &arguments.code,
        &call,
        "; call 13; mov r0, r6; add r0, 100; exit",
    ];
    let class = class(rt, alloc, &pieces);
    outcome(rt, alloc, &class, object, &arguments.input)
}

/// True if an output is what the helper copied, and what was there before it.
fn is_output(output: &[u8], copied: &[u8]) -> bool {
    let mut same = output.len() == SHOWN;
    for (k, byte) in output.iter().enumerate() {
        let before = if k < 16 { 0xee } else { 0 };
        same = same && *byte == copied.get(k).copied().unwrap_or(before);
    }
    same
}

/// True if an outcome is the one that a line tells: the answer, and the copied bytes.
fn is_told(rt: &impl Abort, alloc: Global, outcome: &Outcome, told: &str) -> bool {
    let (answer, copied) = halves(told, ' ');
    let copied = bytes(rt, alloc, copied);
    outcome.code == number(rt, answer).wrapping_add(100) && is_output(&outcome.output, &copied)
}

/// A name of 64 bytes whose last two rise with the number, as `AA` of 0, `BA` of 32 and `aA` of
/// 1,024.
fn numbered(n: u16) -> [u8; 64] {
    let mut name = [b'k'; 64];
    name[62] = b'A' + (n / 32 % 64) as u8;
    name[63] = b'A' + (n % 32) as u8;
    name
}

/// An object with that many xattrs of 4,096 bytes.
fn with_xattrs(rt: &impl Abort, alloc: Global, count: u16) -> Option<Object> {
    let mut object = None;
    for n in 0..count {
        let set = calls::set_xattr(alloc, object.as_ref(), &numbered(n), &[0x5a; 4096]);
        object = Some(set.expect(rt, "room"));
    }
    object
}

/// An object with that many keys of 4,096 bytes.
fn with_keys(rt: &impl Abort, alloc: Global, count: u16) -> Option<Object> {
    let mut object = None;
    for n in 0..count {
        let set = calls::set_key(alloc, object.as_ref(), &numbered(n), &[0x5a; 4096]);
        object = Some(set.expect(rt, "room"));
    }
    object
}

/// The object that a line names.
fn named(rt: &impl Abort, alloc: Global, word: &str) -> Option<Object> {
    match word {
        "all-xattrs" => with_xattrs(rt, alloc, 32),
        "all-keys" => with_keys(rt, alloc, 1024),
        _ => object(rt, alloc, word),
    }
}

/// The word for an object that a line names: `?` for one that no word tells.
fn told_as(word: &str) -> &str {
    if word.starts_with("all-") { "?" } else { word }
}

/// True if an object is the one that a word tells, or the word is `?`.
fn is_after(rt: &impl Abort, alloc: Global, object: Option<&Object>, word: &str) -> bool {
    word == "?" || is_object(rt, alloc, object, word)
}

/// Makes the calls of a text one after the other. Returns the number of its lines.
fn run_all(rt: &impl Abort, alloc: Global, text: &str) -> usize {
    let mut object = None;
    let mut known = String::new(alloc);
    let mut count = 0usize;
    for line in text.lines() {
        let (said, rest) = halves(line, '|');
        if rest.is_empty() {
            let (_, word) = halves(said, ' ');
            object = named(rt, alloc, word);
            known = String::from_str(alloc, told_as(word)).expect(rt, "memory");
        } else {
            let (told, after) = halves(rest, '|');
            if !after.is_empty() {
                known = String::from_str(alloc, after).expect(rt, "memory");
            }
            let outcome = outcome_of(rt, alloc, object.as_ref(), said);
            assert!(rt; is_told(rt, alloc, &outcome, told), "{line}");
            assert!(rt;
                is_after(rt, alloc, outcome.change.after(), &known),
                "{line}"
            );
            object = outcome.change.into_after();
        }
        count = count.wrapping_add(1);
    }
    count
}

#[test]
fn on_no_object(rt: HostRuntime) {
    assert!(rt; run_all(&rt, rt.alloc(), rows::ABSENT) == 35);
    assert!(rt; run_all(&rt, rt.alloc(), rows::CREATES) == 20);
}

#[test]
fn on_data(rt: HostRuntime) {
    assert!(rt; run_all(&rt, rt.alloc(), rows::DATA) == 49);
}

#[test]
fn on_values(rt: HostRuntime) {
    assert!(rt; run_all(&rt, rt.alloc(), rows::XATTRS) == 26);
    assert!(rt; run_all(&rt, rt.alloc(), rows::KEYS) == 54);
}

#[test]
fn on_bytes_and_names(rt: HostRuntime) {
    assert!(rt; run_all(&rt, rt.alloc(), rows::BYTES) == 21);
    assert!(rt; run_all(&rt, rt.alloc(), rows::NAMES) == 17);
    assert!(rt; run_all(&rt, rt.alloc(), rows::LONG) == 12);
}

#[test]
fn on_an_object_with_all_names(rt: HostRuntime) {
    assert!(rt; run_all(&rt, rt.alloc(), rows::FULL) == 16);
}

//! Requests from the words of a text, and the bytes that a word spells.
use super::words::{halves, next, next_number, number_of};
use object_store::ObjectName;
use pg_log::{ClientId, Request, RequestNumber, RequestParts};
use std::alloc::Global;
use std::process::Abort;
use std::str::SplitWhitespace;

pub(super) fn client<R: Abort>(rt: &R, number: u32) -> ClientId {
    ClientId::new(number).expect(rt, "a client")
}

pub(super) fn number<R: Abort>(rt: &R, value: u32) -> RequestNumber {
    RequestNumber::new(value).expect(rt, "a number")
}

/// The bytes before a word's comma: hexadecimal digits, and `*N` for N zero bytes.
fn part_of<R: Abort>(rt: &R, alloc: Global, part: &str) -> Vec<u8> {
    let (digits, zeros) = part.split_once('*').unwrap_or((part, "0"));
    let mut bytes = hex::decode(alloc, digits).expect(rt, "digits");
    let length = bytes.len().saturating_add(number_of(rt, zeros) as usize);
    bytes.resize(length, 0).expect(rt, "memory");
    bytes
}

/// The bytes of a word: hexadecimal digits, `*N` for N zero bytes, and digits after a comma; or
/// `-`.
pub(super) fn bytes_of<R: Abort>(rt: &R, alloc: Global, word: &str) -> Vec<u8> {
    let (part, digits) = halves(word.trim_matches('-'), ',');
    let mut bytes = part_of(rt, alloc, part);
    let behind = hex::decode(alloc, digits).expect(rt, "digits");
    bytes.extend_from_slice(&behind).expect(rt, "memory");
    bytes
}

/// The id of a class in the table of `script::table`; that of no class for another word.
fn class_of(word: &str) -> usize {
    match word {
        "lock" => 0,
        "obj" => 1,
        "fails" => 2,
        _ => 64,
    }
}

/// The request of a client and a number: object, class, method and input are the next words.
pub(super) fn call_of<R: Abort>(
    rt: &R,
    alloc: Global,
    who: u32,
    value: u32,
    words: &mut SplitWhitespace<'_>,
) -> Request {
    let object = ObjectName::new(alloc, next(words)).expect(rt, "memory");
    let class = class_of(next(words));
    let method = String::from_str(alloc, next(words)).expect(rt, "memory");
    let parts = RequestParts {
        client: client(rt, who),
        number: number(rt, value),
        object,
        class,
        method,
        input: bytes_of(rt, alloc, next(words)),
    };
    Request::new(alloc, parts).expect(rt, "memory")
}

/// The request of a text: client, number, object, class, method and input.
pub(super) fn request_of<R: Abort>(rt: &R, alloc: Global, text: &str) -> Request {
    let mut words = text.split_whitespace();
    let who = next_number(rt, &mut words);
    let value = next_number(rt, &mut words);
    call_of(rt, alloc, who, value, &mut words)
}

/// Adds the requests of a text to a list. Semicolons separate them.
pub(super) fn add_list<R: Abort>(rt: &R, alloc: Global, list: &mut Vec<Request>, text: &str) {
    for part in text.split_terminator(';') {
        list.push(request_of(rt, alloc, part)).expect(rt, "memory");
    }
}

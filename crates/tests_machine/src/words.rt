//! Numbers, bytes and objects as words.

use object_store::{Object, calls};
use std::alloc::Global;
use std::process::Abort;
use std::str::SplitWhitespace;

/// Splits a text at the first mark, and trims both halves. Without a mark, the second half is
/// empty.
pub fn halves(text: &str, mark: char) -> (&str, &str) {
    let (before, behind) = text.split_once(mark).unwrap_or((text, ""));
    (before.trim(), behind.trim())
}

/// The next word, or the empty one after the last.
pub fn next<'a>(words: &mut SplitWhitespace<'a>) -> &'a str {
    words.next().unwrap_or("")
}

fn digit(byte: u8) -> u8 {
    match byte {
        b'0'..=b'9' => byte - b'0',
        b'a'..=b'f' => byte - b'a' + 10,
        _ => 0,
    }
}

/// The number of hexadecimal digits.
pub fn hex(digits: &str) -> u64 {
    let mut n = 0u64;
    for byte in digits.bytes() {
        n = n.wrapping_mul(16).wrapping_add(u64::from(digit(byte)));
    }
    n
}

/// The number of a word: hexadecimal after `0x`, else decimal with a sign.
pub fn number(rt: &impl Abort, word: &str) -> i64 {
    match word.split_once("0x") {
        Some((_, digits)) => hex(digits).cast_signed(),
        None => word.parse::<i64>().expect(rt, "a number"),
    }
}

/// A name of 64 bytes, the most that a name has, and a byte more.
const LONGEST: &str = "0123456789abcdef0123456789abcdef0123456789abcdef0123456789abcdef";

/// The bytes of a word: none of `-`, hexadecimal ones after `0x`, a name of 64 or of 65 bytes for
/// `@64` and `@65`, so many bytes for `@4096` and `@4097`, else the word's own.
pub fn bytes(rt: &impl Abort, alloc: Global, word: &str) -> Vec<u8> {
    match word {
        "-" => Vec::new(alloc),
        "@64" => copied(rt, alloc, LONGEST, ""),
        "@65" => copied(rt, alloc, LONGEST, "g"),
        "@4096" => repeated(rt, alloc, 4096),
        "@4097" => repeated(rt, alloc, 4097),
        _ => match word.split_once("0x") {
            Some((_, digits)) => pairs(rt, alloc, digits),
            None => copied(rt, alloc, word, ""),
        },
    }
}

/// That many bytes.
fn repeated(rt: &impl Abort, alloc: Global, count: usize) -> Vec<u8> {
    let mut bytes = Vec::new(alloc);
    bytes.resize(count, b'z').expect(rt, "memory");
    bytes
}

/// The bytes of two texts.
fn copied(rt: &impl Abort, alloc: Global, text: &str, more: &str) -> Vec<u8> {
    let mut bytes = Vec::from_slice(alloc, text.as_bytes()).expect(rt, "memory");
    bytes
        .extend_from_slice(more.as_bytes())
        .expect(rt, "memory");
    bytes
}

/// The bytes of hexadecimal digits.
pub fn pairs(rt: &impl Abort, alloc: Global, digits: &str) -> Vec<u8> {
    let mut bytes = Vec::new(alloc);
    for pair in digits.as_bytes().chunks_exact(2) {
        if let [high, low] = pair {
            bytes
                .push((digit(*high) << 4) | digit(*low))
                .expect(rt, "memory");
        }
    }
    bytes
}

/// The part of an object that has values by name.
#[derive(Clone, Copy)]
enum Part {
    Xattrs,
    Keys,
}

/// The object with that xattr or key.
fn with(rt: &impl Abort, alloc: Global, object: Object, part: Part, pair: &str) -> Object {
    let (name, value) = halves(pair, '=');
    let (name, value) = (bytes(rt, alloc, name), bytes(rt, alloc, value));
    match part {
        Part::Xattrs => calls::set_xattr(alloc, Some(&object), &name, &value),
        Part::Keys => calls::set_key(alloc, Some(&object), &name, &value),
    }
    .expect(rt, "room")
}

/// The object with those values, which commas separate.
fn filled(rt: &impl Abort, alloc: Global, object: Object, part: Part, values: &str) -> Object {
    let mut filled = object;
    for pair in values.split(',') {
        if !pair.is_empty() {
            filled = with(rt, alloc, filled, part, pair);
        }
    }
    filled
}

/// The object that a word tells: `none`, or its data, and after slashes its xattrs and its keys.
pub fn object(rt: &impl Abort, alloc: Global, word: &str) -> Option<Object> {
    if word == "none" {
        return None;
    }
    let (data, values) = halves(word, '/');
    let (xattrs, keys) = halves(values, '/');
    let object = calls::write(alloc, None, 0, &bytes(rt, alloc, data)).expect(rt, "room");
    let object = filled(rt, alloc, object, Part::Xattrs, xattrs);
    Some(filled(rt, alloc, object, Part::Keys, keys))
}

/// True if a value is there, and is the one that a word says.
fn is_value(rt: &impl Abort, alloc: Global, found: Option<&[u8]>, word: &str) -> bool {
    found == Some(bytes(rt, alloc, word).as_slice())
}

/// True if an object has these values of that part, and no other.
fn has_values(rt: &impl Abort, alloc: Global, object: &Object, part: Part, values: &str) -> bool {
    let (mut count, mut same) = (0usize, true);
    for pair in values.split(',') {
        if !pair.is_empty() {
            let (name, value) = halves(pair, '=');
            let name = bytes(rt, alloc, name);
            let found = match part {
                Part::Xattrs => object.xattr(&name),
                Part::Keys => object.key(&name),
            };
            same = same && is_value(rt, alloc, found, value);
            count = count.wrapping_add(1);
        }
    }
    let all = match part {
        Part::Xattrs => object.xattr_count(),
        Part::Keys => object.key_count(),
    };
    same && all == count
}

/// True if an object has that data.
fn has_data(rt: &impl Abort, alloc: Global, object: &Object, word: &str) -> bool {
    let mut data = Vec::from_elem(alloc, 0u8, object.len()).expect(rt, "memory");
    object.read(0, &mut data);
    data.as_slice() == bytes(rt, alloc, word).as_slice()
}

/// True if an object is the one that a word tells.
pub fn is_object(rt: &impl Abort, alloc: Global, object: Option<&Object>, word: &str) -> bool {
    match object {
        None => word == "none",
        Some(object) => {
            let (data, values) = halves(word, '/');
            let (xattrs, keys) = halves(values, '/');
            word != "none"
                && has_data(rt, alloc, object, data)
                && has_values(rt, alloc, object, Part::Xattrs, xattrs)
                && has_values(rt, alloc, object, Part::Keys, keys)
        }
    }
}

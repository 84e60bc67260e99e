//! Classes with one method `f`, from text or from bytes, and calls of it for client 7.

use bpf_asm::assemble_class;
use bpf_decode::{ClassImage, Method, RuleSet, decode};
use interp::{Outcome, call};
use object_store::Object;
use std::alloc::Global;
use std::process::Abort;
use verifier::{VerifiedClass, verify};

/// Puts a text after others, with a line's end for each semicolon.
fn put_lines(rt: &impl Abort, text: &mut String, lines: &str) {
    let mut first = true;
    for line in lines.split(';') {
        if !first {
            text.push_str("\n").expect(rt, "memory");
        }
        text.push_str(line).expect(rt, "memory");
        first = false;
    }
}

/// The class of a text in pieces, whose lines semicolons separate.
pub fn image(rt: &impl Abort, alloc: Global, pieces: &[&str]) -> ClassImage {
    let mut text = String::new(alloc);
    for piece in pieces {
        put_lines(rt, &mut text, piece);
    }
    assemble_class(alloc, &text).expect(rt, "a class")
}

/// The same, verified.
pub fn class(rt: &impl Abort, alloc: Global, pieces: &[&str]) -> VerifiedClass {
    verify(alloc, &image(rt, alloc, pieces)).expect(rt, "a safe class")
}

/// The method `f` of that code's bytes, which only reads, without input and output.
fn method_of(rt: &impl Abort, alloc: Global, code: &[u8]) -> Method {
    let name = String::from_str(alloc, "f").expect(rt, "memory");
    let code = decode(alloc, code).expect(rt, "code");
    Method::new(name, 1, 0, 0, code)
}

/// The class of that method.
pub fn class_of(rt: &impl Abort, alloc: Global, code: &[u8]) -> VerifiedClass {
    let mut methods = Vec::new(alloc);
    let method = method_of(rt, alloc, code);
    methods.push(method).expect(rt, "memory");
    let image = ClassImage::new(methods, RuleSet::One).expect(rt, "a class");
    verify(alloc, &image).expect(rt, "a safe class")
}

/// The outcome of a call on an object, or on none, with an input.
pub fn outcome(
    rt: &impl Abort,
    alloc: Global,
    class: &VerifiedClass,
    object: Option<&Object>,
    input: &[u8],
) -> Outcome {
    call(alloc, class, "f", object, 7, input).expect(rt, "an answer")
}

/// True if a call without an object returns this code, after this number of steps.
pub fn returns(
    rt: &impl Abort,
    alloc: Global,
    class: &VerifiedClass,
    input: &[u8],
    code: i64,
    steps: usize,
) -> bool {
    let outcome = outcome(rt, alloc, class, None, input);
    outcome.code == code && outcome.steps == steps
}

//! A host in Rattle keeps objects as they are, and needs no bytes: the lines of docs/EMBED.md.

use crate::answers::WRITE;
use bpf_decode::read_image;
use interp::call;
use object_store::Object;
use std::alloc::Global;
use verifier::verify;

/// The object after a call of a method of an image's class, and the method's code; none if there is
/// no such call.
fn called(
    alloc: Global,
    image: &[u8],
    method: &str,
    object: Option<&Object>,
    input: &[u8],
) -> Option<(i64, Option<Object>)> {
    let class = read_image(alloc, image).ok()?;
    let class = verify(alloc, &class).ok()?;
    let outcome = call(alloc, &class, method, object, 1, input).ok()?;
    Some((outcome.code, outcome.change.into_after()))
}

#[test]
fn a_host(rt: HostRuntime) {
    let (code, object) = called(rt.alloc(), &WRITE, "w", None, b"y").expect(&rt, "a call");
    assert!(rt; code == 1);
    assert!(rt; object.expect(&rt, "an object").len() == 1);
}

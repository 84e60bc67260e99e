//! Images with one byte changed, to each value: each is refused, or written back unchanged, and
//! accepted classes run.
use bpf_asm::assemble_class;
use bpf_decode::{ClassImage, read_image, write_image};
use builtin_classes::LOCK;
use interp::call;
use std::alloc::Global;
use std::process::Abort;
use verifier::{VerifiedClass, VerifiedMethod, verify};

/// One method `f`, flags 1, capacities 0, the code `mov r0, 0` and `exit`.
const TWO: [u8; 33] = [
    0x52, 0x43, 0x4c, 0x31, 1, 0, 0, 0, 1, 0x66, 1, 0, 0, 0, 0, 2, 0, 0xb7, 0, 0, 0, 0, 0, 0, 0,
    0x95, 0, 0, 0, 0, 0, 0, 0,
];

/// The longest input of zeros, and the longest of 0xff.
static ZEROS: [u8; 4096] = [0; 4096];

static ONES: [u8; 4096] = [0xff; 4096];

/// True if a method returns on an input, in no more steps than it has instructions.
fn answers(alloc: Global, class: &VerifiedClass, method: &VerifiedMethod, input: &[u8]) -> bool {
    match call(alloc, class, method.name(), None, 7, input) {
        Ok(outcome) => outcome.steps <= method.count(),
        Err(_) => false,
    }
}

/// True if a method returns on an empty input, on the longest of zeros, and on the longest of 0xff.
fn answers_three(alloc: Global, class: &VerifiedClass, method: &VerifiedMethod) -> bool {
    let most = usize::from(method.caps().in_cap).min(ZEROS.len());
    answers(alloc, class, method, &[])
        && answers(alloc, class, method, &ZEROS[..most])
        && answers(alloc, class, method, &ONES[..most])
}

/// True if each method of a class returns on all three inputs.
fn all_answer(alloc: Global, class: &VerifiedClass) -> bool {
    for method in class.methods() {
        if !answers_three(alloc, class, method) {
            return false;
        }
    }
    true
}

/// True if a class's image is written as these bytes.
fn is_written(alloc: Global, image: &ClassImage, bytes: &[u8]) -> bool {
    match write_image(alloc, image) {
        Ok(written) => written.as_slice() == bytes,
        Err(_) => false,
    }
}

/// True if the methods of a class answer, false if it isn't safe; `None` if one doesn't answer.
fn is_safe(alloc: Global, image: &ClassImage) -> Option<bool> {
    match verify(alloc, image) {
        Err(_) => Some(false),
        Ok(class) if all_answer(alloc, &class) => Some(true),
        Ok(_) => None,
    }
}

/// True if bytes are the image of a class that answers, false if they are no image or that of a
/// class that isn't safe; `None` if the image is written otherwise, or a method doesn't answer.
fn is_accepted(alloc: Global, bytes: &[u8]) -> Option<bool> {
    match read_image(alloc, bytes) {
        Err(_) => Some(false),
        Ok(image) if is_written(alloc, &image, bytes) => is_safe(alloc, &image),
        Ok(_) => None,
    }
}

/// Sets the byte at a place to each of its values, and then back. Returns the number of accepted
/// images, or `None` if one is wrong.
fn accepted_at(alloc: Global, bytes: &mut [u8], place: usize) -> Option<usize> {
    let kept = bytes.get(place).copied()?;
    let mut accepted = 0usize;
    for value in 0..=255u8 {
        *bytes.get_mut(place)? = value;
        if is_accepted(alloc, bytes)? {
            accepted = accepted.wrapping_add(1);
        }
    }
    *bytes.get_mut(place)? = kept;
    Some(accepted)
}

/// The same for every `step`th place from `first` on, one place at a time. Returns the sum.
fn accepted(alloc: Global, bytes: &mut [u8], first: usize, step: usize) -> Option<usize> {
    let mut sum = 0usize;
    for place in 0..bytes.len() {
        if place % step.max(1) == first {
            sum = sum.wrapping_add(accepted_at(alloc, bytes, place)?);
        }
    }
    Some(sum)
}

/// Accepted are 37 names, 3 flags, 273 capacities of the input and 273 of the output, `mov` and
/// `mov32`, 1,024 immediates, the other rule set, and the unchanged image at each of the other 22
/// places.
#[test]
fn two_instructions(rt: HostRuntime) {
    let mut bytes = TWO;
    assert!(rt; accepted(rt.alloc(), &mut bytes, 0, 1) == Some(1635));
}

/// The image of the class `lock`.
fn lock_image(rt: &impl Abort, alloc: Global) -> Vec<u8> {
    let image = assemble_class(alloc, LOCK).expect(rt, "a class");
    write_image(alloc, &image).expect(rt, "memory")
}

/// The number of tests that share the image of `lock`, since each test has a minute.
const PARTS: usize = 4;

/// True if the unchanged image of `lock` is accepted for each place of a part, and a changed one
/// for some.
fn part_is_right<R: Abort>(rt: &R, alloc: Global, part: usize) -> bool {
    let mut bytes = lock_image(rt, alloc);
    // Rounded up: the first parts may have one place more.
    let places = bytes.len().div_ceil(PARTS);
    match accepted(alloc, &mut bytes, part, PARTS) {
        None => false,
        Some(accepted) => accepted > places,
    }
}

#[test]
fn lock_at_each_fourth_place(rt: HostRuntime) {
    assert!(rt; part_is_right(&rt, rt.alloc(), 0));
}

#[test]
fn lock_at_each_place_after(rt: HostRuntime) {
    assert!(rt; part_is_right(&rt, rt.alloc(), 1));
}

#[test]
fn lock_two_places_after(rt: HostRuntime) {
    assert!(rt; part_is_right(&rt, rt.alloc(), 2));
}

#[test]
fn lock_three_places_after(rt: HostRuntime) {
    assert!(rt; part_is_right(&rt, rt.alloc(), 3));
}

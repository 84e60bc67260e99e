//! Images: what is read, written and refused. `tests_group` changes each byte to each value.

use crate::code::register_of;
use bpf_decode::{
    ClassImage, DecodeError, ImageError, Insn, Method, OpWidth, Operand, RuleSet, are_name_bytes,
    name_text, read_image, write_image,
};
use loop_heads::{Head, Loops};
use std::alloc::Global;
use std::fmt::Display;
use std::process::Abort;

/// One method `f`, flags 1, capacities 0, the code `mov r0, 0` and `exit`.
#[rattlefmt::skip]
const IMAGE: [u8; 33] = [
    0x52, 0x43, 0x4c, 0x31, 1, 0, 0, 0, 1, 0x66, 1, 0, 0, 0, 0, 2, 0,
    0xb7, 0, 0, 0, 0, 0, 0, 0,
    0x95, 0, 0, 0, 0, 0, 0, 0,
];

/// A place of the image, the byte that is put there, the methods read whole, and the refusal.
const REFUSED: [(usize, u8, usize, DecodeError); 25] = [
    (0, 0x53, 0, DecodeError::Magic),
    (3, 0x30, 0, DecodeError::Magic),
    (3, 0x33, 0, DecodeError::Truncated),
    (3, 0x34, 0, DecodeError::Magic),
    (6, 1, 0, DecodeError::Magic),
    (4, 0, 0, DecodeError::Limit),
    (4, 0x21, 0, DecodeError::Limit),
    (4, 2, 1, DecodeError::Truncated),
    (8, 0, 0, DecodeError::Name),
    (8, 0x41, 0, DecodeError::Name),
    (9, 0x46, 0, DecodeError::Name),
    (10, 0, 0, DecodeError::Flags),
    (10, 4, 0, DecodeError::Flags),
    (12, 0x11, 0, DecodeError::Limit),
    (14, 0x11, 0, DecodeError::Limit),
    (15, 0, 0, DecodeError::Limit),
    (15, 3, 0, DecodeError::Truncated),
    (15, 1, 1, DecodeError::Trailing),
    (17, 0, 0, DecodeError::Opcode(0)),
    (18, 0x0b, 0, DecodeError::Register(0)),
    (18, 0x10, 0, DecodeError::NonzeroField(0)),
    (19, 8, 0, DecodeError::NonzeroField(0)),
    (29, 1, 0, DecodeError::NonzeroField(1)),
    (25, 0x18, 0, DecodeError::WideHalf(1)),
    (17, 0x18, 0, DecodeError::WideHalf(0)),
];

/// The image with one byte changed.
fn changed(place: usize, value: u8) -> [u8; 33] {
    let mut image = IMAGE;
    if place < image.len() {
        image[place] = value;
    }
    image
}

/// True if the image is refused by that error after that number of methods.
fn is_refused(alloc: Global, image: &[u8], methods: usize, error: DecodeError) -> bool {
    read_image(alloc, image).err() == Some(ImageError { methods, error })
}

/// The bytes, and others after them.
fn joined(rt: &impl Abort, alloc: Global, bytes: &[u8], behind: &[u8]) -> Vec<u8> {
    let mut joined = Vec::from_slice(alloc, bytes).expect(rt, "memory");
    joined.extend_from_slice(behind).expect(rt, "memory");
    joined
}

#[test]
fn refused(rt: HostRuntime) {
    for (place, value, methods, error) in &REFUSED {
        let image = changed(*place, *value);
        assert!(rt; is_refused(rt.alloc(), &image, *methods, *error));
    }
    assert!(rt; is_refused(rt.alloc(), &[], 0, DecodeError::Truncated));
    let longer = joined(&rt, rt.alloc(), &IMAGE, &[0]);
    assert!(rt; is_refused(rt.alloc(), &longer, 1, DecodeError::Trailing));
    let twice = joined(&rt, rt.alloc(), &changed(4, 2), &IMAGE[8..]);
    assert!(rt; is_refused(rt.alloc(), &twice, 1, DecodeError::Order));
}

/// True if the class is written as that image.
fn is_written_as(alloc: Global, class: &ClassImage, image: &[u8]) -> bool {
    match write_image(alloc, class) {
        Ok(bytes) => bytes.as_slice() == image,
        Err(_) => false,
    }
}

/// True if it is the method of `IMAGE`.
fn is_the_method(rt: &impl Abort, method: &Method) -> bool {
    let (bits, dst, source) = (OpWidth::Bits64, register_of(rt, 0), Operand::Immediate(0));
    let code = [Insn::Mov { bits, dst, source }, Insn::Exit];
    method.name() == "f"
        && method.flags() == 1
        && method.in_cap() == 0
        && method.out_cap() == 0
        && method.instructions() == code.as_slice()
}

/// True if the image is that of one such method and of that rule set, and written as it was.
fn is_read(rt: &impl Abort, alloc: Global, image: &[u8], rules: RuleSet) -> bool {
    let class = read_image(alloc, image).expect(rt, "a class");
    let is_one = match class.methods() {
        [method] => is_the_method(rt, method),
        _ => false,
    };
    is_one && class.rules() == rules && is_written_as(alloc, &class, image)
}

/// The fourth byte of the image tells the rule set. In rule set 3 loops follow the code.
#[test]
fn read(rt: HostRuntime) {
    assert!(rt; is_read(&rt, rt.alloc(), &IMAGE, RuleSet::One));
    assert!(rt; is_read(&rt, rt.alloc(), &changed(3, 0x32), RuleSet::Two));
    let three = joined(&rt, rt.alloc(), &changed(3, 0x33), &[0, 0]);
    assert!(rt; is_read(&rt, rt.alloc(), &three, RuleSet::Three));
}

/// The last letter of the magic, the capacities of input and output, what stands after the code, and
/// the refusal with the number of methods read whole.
#[rattlefmt::skip]
const RULED: [(u8, [u8; 2], [u8; 2], &[u8], Option<(usize, DecodeError)>); 26] = [
    (b'1', [0x00, 0x10], [0x00, 0x10], &[], None),
    (b'1', [0x01, 0x10], [0, 0], &[], Some((0, DecodeError::Limit))),
    (b'1', [0, 0], [0x01, 0x10], &[], Some((0, DecodeError::Limit))),
    (b'1', [0, 0], [0, 0], &[0, 0], Some((1, DecodeError::Trailing))),
    (b'2', [0x00, 0x10], [0x00, 0x10], &[], None),
    (b'2', [0x01, 0x10], [0, 0], &[], Some((0, DecodeError::Limit))),
    (b'2', [0, 0], [0x01, 0x10], &[], Some((0, DecodeError::Limit))),
    (b'2', [0, 0], [0, 0], &[0, 0], Some((1, DecodeError::Trailing))),
    (b'3', [0, 0], [0, 0], &[0, 0], None),
    (b'3', [0x01, 0x10], [0, 0], &[0, 0], None),
    (b'3', [0, 0], [0x01, 0x10], &[0, 0], None),
    (b'3', [0xff, 0xff], [0xff, 0xff], &[0, 0], None),
    (b'3', [0, 0], [0, 0], &[], Some((0, DecodeError::Truncated))),
    (b'3', [0, 0], [0, 0], &[0], Some((0, DecodeError::Truncated))),
    (b'3', [0, 0], [0, 0], &[1], Some((0, DecodeError::Truncated))),
    (b'3', [0, 0], [0, 0], &[1, 0], Some((0, DecodeError::Truncated))),
    // a budget, and a head without places: its slot, and their number
    (b'3', [0, 0], [0, 0], &[1, 0, 0x64, 0, 0, 0, 1, 0, 0], None),
    (b'3', [0, 0], [0, 0], &[1, 0, 0x64, 0, 0, 0, 1, 0, 1, 4, 1], None),
    (b'3', [0, 0], [0, 0], &[1, 0, 0, 0, 0, 0, 1, 0, 0], Some((0, DecodeError::Limit))),
    (b'3', [0, 0], [0, 0], &[1, 0, 1, 0, 0x10, 0, 1, 0, 0], Some((0, DecodeError::Limit))),
    (b'3', [0, 0], [0, 0], &[1, 0, 0x64, 0, 0, 0, 2, 0, 0], Some((0, DecodeError::Head(2)))),
    (b'3', [0, 0], [0, 0], &[1, 0, 0x64, 0, 0, 0, 1, 0, 1, 10, 1], Some((0, DecodeError::Head(1)))),
    (b'3', [0, 0], [0, 0], &[1, 0, 0x64, 0, 0, 0, 1, 0, 0, 0], Some((1, DecodeError::Trailing))),
    (b'3', [0, 0], [0, 0], &[0, 1], Some((0, DecodeError::Limit))),
    (b'3', [0, 0], [0, 0], &[0, 0, 0], Some((1, DecodeError::Trailing))),
    (b'4', [0, 0], [0, 0], &[0, 0], Some((0, DecodeError::Magic))),
];

/// The image with that last letter of its magic and those capacities.
fn with_caps(letter: u8, in_cap: [u8; 2], out_cap: [u8; 2]) -> [u8; 33] {
    let mut image = IMAGE;
    image[3] = letter;
    image[11] = in_cap[0];
    image[12] = in_cap[1];
    image[13] = out_cap[0];
    image[14] = out_cap[1];
    image
}

/// True if the image is read and written as it was, or refused so.
fn is_ruled(alloc: Global, image: &[u8], refusal: Option<(usize, DecodeError)>) -> bool {
    match read_image(alloc, image) {
        Ok(class) => refusal.is_none() && is_written_as(alloc, &class, image),
        Err(error) => refusal == Some((error.methods, error.error)),
    }
}

#[test]
fn rule_sets(rt: HostRuntime) {
    for (letter, in_cap, out_cap, behind, refusal) in &RULED {
        let image = with_caps(*letter, *in_cap, *out_cap);
        let image = joined(&rt, rt.alloc(), &image, *behind);
        assert!(rt; is_ruled(rt.alloc(), &image, *refusal));
    }
}

/// 65 bytes.
const LONG_NAME: &str = "b2345678901234567890123456789012345678901234567890123456789012345";

/// A rule set; name, flags, in_cap and out_cap of a second method after `a`, and its refusal.
#[rattlefmt::skip]
const SECOND: [(RuleSet, &str, u8, u16, u16, Option<DecodeError>); 16] = [
    (RuleSet::One, "", 1, 0, 0, Some(DecodeError::Name)),
    (RuleSet::One, LONG_NAME, 1, 0, 0, Some(DecodeError::Name)),
    (RuleSet::One, "B", 1, 0, 0, Some(DecodeError::Name)),
    (RuleSet::One, "a", 1, 0, 0, Some(DecodeError::Order)),
    (RuleSet::One, "b", 0, 0, 0, Some(DecodeError::Flags)),
    (RuleSet::One, "b", 4, 0, 0, Some(DecodeError::Flags)),
    (RuleSet::One, "b", 2, 4097, 0, Some(DecodeError::Limit)),
    (RuleSet::One, "b", 2, 0, 4097, Some(DecodeError::Limit)),
    (RuleSet::One, "b", 3, 4096, 4096, None),
    (RuleSet::Two, "b", 1, 4096, 4096, None),
    (RuleSet::Two, "b", 1, 4097, 0, Some(DecodeError::Limit)),
    (RuleSet::Two, "b", 1, 0, 4097, Some(DecodeError::Limit)),
    (RuleSet::Three, "b", 1, 4097, 0, None),
    (RuleSet::Three, "b", 1, 0, 4097, None),
    (RuleSet::Three, "b", 1, 65535, 65535, None),
    (RuleSet::One, "b", 1, 65535, 65535, Some(DecodeError::Limit)),
];

/// A method whose code is `exit`.
fn method(rt: &impl Abort, alloc: Global, name: &str, flags: u8, caps: (u16, u16)) -> Method {
    let code = Vec::from_slice(alloc, &[Insn::Exit]).expect(rt, "memory");
    let name = String::from_str(alloc, name).expect(rt, "memory");
    Method::new(name, flags, caps.0, caps.1, code)
}

/// The refusal of a class of `a` and a second method.
fn refusal_of(
    rt: &impl Abort,
    alloc: Global,
    second: Method,
    rules: RuleSet,
) -> Option<ImageError> {
    let mut methods = Vec::new(alloc);
    methods
        .push(method(rt, alloc, "a", 1, (0, 0)))
        .expect(rt, "memory");
    methods.push(second).expect(rt, "memory");
    ClassImage::new(methods, rules).err()
}

/// The refusal of a class for its second method.
fn of_second(error: Option<DecodeError>) -> Option<ImageError> {
    let (methods, error) = (1, error?);
    Some(ImageError { methods, error })
}

#[test]
fn classes_are_built(rt: HostRuntime) {
    for (rules, name, flags, in_cap, out_cap, error) in &SECOND {
        let second = method(&rt, rt.alloc(), *name, *flags, (*in_cap, *out_cap));
        let found = refusal_of(&rt, rt.alloc(), second, *rules);
        assert!(rt; found == of_second(*error));
    }
    let (methods, error) = (0, DecodeError::Limit);
    let found = ClassImage::new(Vec::new(rt.alloc()), RuleSet::Two).err();
    assert!(rt; found == Some(ImageError { methods, error }));
}

/// A rule set, the slot of a head of a method whose code is `exit`, and the refusal of its class.
const LOOPED: [(RuleSet, u16, Option<DecodeError>); 4] = [
    (RuleSet::One, 0, Some(DecodeError::Limit)),
    (RuleSet::Two, 0, Some(DecodeError::Limit)),
    (RuleSet::Three, 0, None),
    (RuleSet::Three, 1, Some(DecodeError::Head(1))),
];

/// A budget of 1 and a head without places.
fn loops_at(rt: &impl Abort, alloc: Global, slot: u16) -> Option<Loops> {
    let mut heads = Vec::new(alloc);
    heads
        .push(Head::new(slot, Vec::new(alloc)))
        .expect(rt, "memory");
    Loops::new(1, heads).ok()
}

#[test]
fn classes_are_built_with_loops(rt: HostRuntime) {
    for (rules, slot, error) in &LOOPED {
        let second = method(&rt, rt.alloc(), "b", 1, (0, 0));
        let second = second.with_loops(loops_at(&rt, rt.alloc(), *slot));
        assert!(rt; second.loops().is_some());
        let found = refusal_of(&rt, rt.alloc(), second, *rules);
        assert!(rt; found == of_second(*error));
    }
}

/// Refusals, and what they print.
const PRINTED: [(DecodeError, &str); 13] = [
    (DecodeError::Truncated, "1 Truncated"),
    (DecodeError::Magic, "2 Magic"),
    (DecodeError::Opcode(3), "3 Opcode"),
    (DecodeError::Register(0), "4 Register"),
    (DecodeError::NonzeroField(0), "5 NonzeroField"),
    (DecodeError::WideHalf(0), "6 WideHalf"),
    (DecodeError::Name, "7 Name"),
    (DecodeError::Order, "8 Order"),
    (DecodeError::Flags, "9 Flags"),
    (DecodeError::Limit, "10 Limit"),
    (DecodeError::Trailing, "11 Trailing"),
    (DecodeError::NoMemory, "12 NoMemory"),
    (DecodeError::Head(2), "13 Head"),
];

/// Refusals of images, and what they print.
#[rattlefmt::skip]
const PRINTED_IMAGES: [(usize, DecodeError, &str); 3] = [
    (0, DecodeError::Truncated, "image refused after 0 methods: 1 Truncated"),
    (0, DecodeError::Opcode(3), "image refused after 0 methods, slot 3: 3 Opcode"),
    (1, DecodeError::Head(2), "image refused after 1 methods, slot 2: 13 Head"),
];

/// True if the value is printed as that text.
pub fn is_printed<T: Display>(alloc: Global, value: &T, text: &str) -> bool {
    match value.to_string(alloc) {
        Ok(printed) => printed.as_str() == text,
        Err(_) => false,
    }
}

#[test]
fn prints(rt: HostRuntime) {
    for (error, text) in &PRINTED {
        assert!(rt; is_printed(rt.alloc(), error, *text));
    }
    for (methods, error, text) in &PRINTED_IMAGES {
        let (methods, error) = (*methods, *error);
        assert!(rt; is_printed(rt.alloc(), &ImageError { methods, error }, *text));
    }
    let error = DecodeError::Opcode(3);
    assert!(rt; error.number() == 3 && error.name() == "Opcode" && error.slot() == Some(3));
}

/// The text of a name, if its bytes are those of one.
fn text_of(alloc: Global, name: &[u8]) -> Option<String> {
    if are_name_bytes(name) {
        name_text(alloc, name).ok()
    } else {
        None
    }
}

#[test]
fn texts_of_names(rt: HostRuntime) {
    let text = text_of(rt.alloc(), b"az_09").expect(&rt, "a text");
    assert!(rt; text.as_str() == "az_09");
    assert!(rt; text_of(rt.alloc(), &[0x61, 0x60]).is_none());
    assert!(rt; text_of(rt.alloc(), &[0x61, 0xc3, 0xa4]).is_none());
}

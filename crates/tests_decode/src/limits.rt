//! Texts and images at their limits.

use bpf_asm::{AsmError, AsmFault, assemble, assemble_class, disassemble_class};
use bpf_decode::{ClassImage, IMAGE_LIMIT, Method, RuleSet, read_image, write_image};
use loop_bytes::LOOPS_LIMIT;
use loop_heads::{BUDGET_LIMIT, Head, HeadPlace, Loops, PLACE_LIMIT, PlaceKind};
use std::alloc::Global;
use std::fmt::Write;
use std::process::Abort;

/// Writes lines that are numbered, each number between the two texts.
fn put_numbered(rt: &impl Abort, text: &mut String, front: &str, numbers: (u32, u32), back: &str) {
    let (first, end) = numbers;
    for number in first..end {
        write!(text, "{front}{number}{back}").expect(rt, "memory");
    }
}

/// The line that many times, and the lines after it.
fn repeated(rt: &impl Abort, alloc: Global, line: &str, count: usize, behind: &str) -> String {
    let mut text = line.repeat(alloc, count).expect(rt, "memory");
    text.push_str(behind).expect(rt, "memory");
    text
}

/// The lines of a method of 4,096 slots, after the number in its name of 64 bytes. `front` is the end
/// of its first line.
fn body(rt: &impl Abort, alloc: Global, front: &str) -> String {
    let movs = repeated(rt, alloc, "mov r0, 0\n", 4095, "exit\n");
    let mut text = String::from_str(alloc, front).expect(rt, "memory");
    text.push_str(&movs).expect(rt, "memory");
    text
}

/// Writes the canonical text of 32 methods of the longest names and 4,096 slots, whose capacities are
/// those of `front`.
fn put_largest(rt: &impl Abort, alloc: Global, text: &mut String, front: &str) {
    let mut name = String::from_str(alloc, ".method ").expect(rt, "memory");
    let letters = repeated(rt, alloc, "m", 62, "");
    name.push_str(&letters).expect(rt, "memory");
    let body = body(rt, alloc, front);
    put_numbered(rt, text, &name, (10, 42), &body);
}

/// The text of the class that the image of a class has, if it has that many bytes.
fn text_of_image(alloc: Global, class: &ClassImage, bytes: usize) -> Option<String> {
    let image = write_image(alloc, class).ok()?;
    if image.len() != bytes {
        return None;
    }
    disassemble_class(alloc, &read_image(alloc, &image).ok()?).ok()
}

/// True if the class of the text has an image of that many bytes, whose class has this text.
fn is_kept(alloc: Global, text: &str, bytes: usize) -> Option<bool> {
    let class = assemble_class(alloc, text).ok()?;
    Some(text_of_image(alloc, &class, bytes)?.as_str() == text)
}

/// The largest class of rule set 1: 8 bytes, and 32 times 8, 64 and 8 * 4,096.
#[test]
fn largest_class(rt: HostRuntime) {
    let mut text = String::new(rt.alloc());
    put_largest(&rt, rt.alloc(), &mut text, " rw 4096 4096\n");
    assert!(rt; is_kept(rt.alloc(), &text, 1_050_888) == Some(true));
}

/// The largest one of rule set 3 without loops has 2 bytes a method more.
#[test]
fn largest_class_of_set_3(rt: HostRuntime) {
    let mut text = String::from_str(rt.alloc(), ".rules 3\n").expect(&rt, "memory");
    put_largest(&rt, rt.alloc(), &mut text, " rw 65535 65535\n");
    assert!(rt; is_kept(rt.alloc(), &text, 1_050_952) == Some(true));
}

/// 64 heads at the first slots, each of all places, whose numbers are all of 64 bits.
fn all_places(alloc: Global) -> Option<Loops> {
    let kind = PlaceKind::Unsigned(0, u64::MAX);
    let mut heads = Vec::new(alloc);
    for slot in 0..64 {
        let mut places = Vec::new(alloc);
        for number in 0..=PLACE_LIMIT {
            if number != 10 {
                places.push(HeadPlace { number, kind }).ok()?;
            }
        }
        heads.push(Head::new(slot, places)).ok()?;
    }
    Loops::new(BUDGET_LIMIT, heads).ok()
}

/// A method of the longest name and 4,096 slots, with such heads.
fn largest_method(alloc: Global, number: u32) -> Option<Method> {
    let mut name = "m".repeat(alloc, 62).ok()?;
    write!(name, "{number}").ok()?;
    let code = assemble(alloc, &"exit\n".repeat(alloc, 4096).ok()?).ok()?;
    let method = Method::new(name, 3, 65_535, 65_535, code);
    Some(method.with_loops(all_places(alloc)))
}

/// The length of the image of 32 such methods, which is read and written as it was.
fn largest_image(alloc: Global) -> Option<usize> {
    let mut methods = Vec::new(alloc);
    for number in 10..42 {
        methods.push(largest_method(alloc, number)?).ok()?;
    }
    let class = ClassImage::new(methods, RuleSet::Three).ok()?;
    let image = write_image(alloc, &class).ok()?;
    let again = write_image(alloc, &read_image(alloc, &image).ok()?).ok()?;
    if again.as_slice() != image.as_slice() {
        return None;
    }
    Some(image.len())
}

/// The largest of all: 8 bytes, and 32 times 8, 64, 8 * 4,096, 6, and 64 heads of 3 and 74 * 18.
#[test]
fn largest_class_with_loops(rt: HostRuntime) {
    assert!(rt; largest_image(rt.alloc()) == Some(3_785_160));
    assert!(rt; IMAGE_LIMIT == 3_826_120);
    assert!(rt; LOOPS_LIMIT == 86_726);
}

/// The same and one method more.
#[test]
fn a_method_too_many(rt: HostRuntime) {
    let mut text = String::new(rt.alloc());
    put_largest(&rt, rt.alloc(), &mut text, " rw 4096 4096\n");
    text.push_str(".method n r 0 0\nexit\n")
        .expect(&rt, "memory");
    let (line, fault) = (131105, AsmFault::Range);
    assert!(rt; assemble_class(rt.alloc(), &text).err() == Some(AsmError { line, fault }));
}

/// Assembles a text, and returns the number of its instructions.
fn count_of(alloc: Global, text: &str) -> Result<usize, AsmError> {
    Ok(assemble(alloc, text)?.len())
}

/// 2,048 wide loads are 4,096 slots.
#[test]
fn slots(rt: HostRuntime) {
    let text = repeated(&rt, rt.alloc(), "lddw r1, 5\n", 2048, "");
    assert!(rt; count_of(rt.alloc(), &text) == Ok(2048));
    let text = repeated(&rt, rt.alloc(), "lddw r1, 5\n", 2048, "exit\n");
    let (line, fault) = (2049, AsmFault::Range);
    assert!(rt; count_of(rt.alloc(), &text) == Err(AsmError { line, fault }));
}

/// 4,095 jumps, each to a label of its own, before 80,000 labels.
#[test]
fn many_labels(rt: HostRuntime) {
    let mut text = String::new(rt.alloc());
    put_numbered(&rt, &mut text, "ja l", (0, 4095), "\n");
    put_numbered(&rt, &mut text, "l", (0, 80_000), ":\n");
    text.push_str("exit\n").expect(&rt, "memory");
    assert!(rt; count_of(rt.alloc(), &text) == Ok(4096));
}

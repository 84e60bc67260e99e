//! Images that are given in hexadecimal. Images with one byte changed are rows of `tests_decode`.

use crate::ended::{lines_of, prints_on, with_repeated};
use crate::folder::{Folder, TWO};
use std::process::Abort;
use std::sync::Wait;
use std::thread::Threads;
use std::time::Clock;

/// A word of a command, an image in hexadecimal, what is printed of it, and the status.
#[rattlefmt::skip]
static IMAGES: [(&str, &str, &str, u8); 6] = [
    ("verify", TWO, "f ok 2", 0),
    ("dis", TWO, ".method f r 0 0 / mov r0, 0 / exit", 0),
    ("verify", "", "image refused after 0 methods: 1 Truncated", 1),
    // one byte more
    ("verify", "52434c31 0100 0000 01 66 01 0000 0000 0200 b700000000000000 9500000000000000 00",
        "image refused after 1 methods: 11 Trailing", 1),
    // the method twice
    ("verify", "52434c31 0200 0000 01 66 01 0000 0000 0200 b700000000000000 9500000000000000 \
        01 66 01 0000 0000 0200 b700000000000000 9500000000000000",
        "image refused after 1 methods: 8 Order", 1),
    // an opcode of no instruction
    ("verify", "52434c31 0100 0000 01 66 01 0000 0000 0500 b700000000000000 b700000000000000 \
        b700000000000000 ff00000000000000 9500000000000000",
        "image refused after 0 methods, slot 3: 3 Opcode", 1),
];

/// True if a command prints that of an image, ends so, and writes no file.
fn is_read<R: Abort + AllocGlobal + Threads + Wait + Clock + Sync>(
    rt: &R,
    word: &str,
    image: &str,
    printed: &str,
    status: u8,
) -> bool {
    let mut folder = Folder::of(rt.alloc(), image, b"").expect(rt, "memory");
    let printed = lines_of(rt, printed);
    prints_on(rt, &[word, "image"], &mut folder, &printed, status) && folder.writes == 0
}

#[test]
fn images_are_read(rt: HostRuntime) {
    for (word, image, printed, status) in &IMAGES {
        assert!(rt; is_read(&rt, word, image, printed, *status), "{printed}");
    }
}

#[test]
fn an_image_is_called(rt: HostRuntime) {
    let mut folder = Folder::of(rt.alloc(), TWO, b"").expect(&rt, "memory");
    let printed = "code 0\noutput -\nsteps 2\nobject absent\n";
    assert!(rt; prints_on(&rt, &["run", "image", "f"], &mut folder, printed, 0));
}

/// The number of bytes that are asked for of an image that has bytes after its end.
fn most_read<R: Abort + AllocGlobal + Threads + Wait + Clock + Sync>(rt: &R, image: &str) -> usize {
    let mut folder = Folder::of(rt.alloc(), image, b"").expect(rt, "memory");
    let printed = "image refused after 1 methods: 11 Trailing\n";
    assert!(rt; prints_on(rt, &["verify", "image"], &mut folder, printed, 1));
    folder.most_read.get()
}

/// Bytes after an image, more of them than an image has.
#[test]
fn reads_no_more_than_a_text_may_have(rt: HostRuntime) {
    let image = with_repeated(rt.alloc(), TWO, "00", 1_100_000, "").expect(&rt, "memory");
    assert!(rt; most_read(&rt, &image) == 16_777_217);
}

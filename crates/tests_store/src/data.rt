//! Data as a list of bytes, in one vector and in extents of at most 4,096 bytes, which are shared.

use Step::{Cut, Put};
use object_store::{Data, DataEdit, DataError, ExtentData, FlatData, edit_all};
use std::alloc::Global;
use std::process::Abort;

/// An edit: bytes from a place on, or the length.
#[derive(Clone, Copy)]
enum Step {
    Put(u64, &'static [u8]),
    Cut(u64),
}

/// Edits of the data `0123456789`; the refusal; the length afterwards, a place and the bytes there.
type Row = (&'static [Step], Option<DataError>, u64, u64, &'static [u8]);

/// Six edits, and six of which the last is refused: a list may have any number of them.
#[rattlefmt::skip]
const SIX: [Step; 6] = [Put(0, b"a"), Put(1, b"b"), Put(2, b"c"), Put(3, b"d"), Put(4, b"e"), Cut(6)];

#[rattlefmt::skip]
const LAST_REFUSED: [Step; 6] = [Put(0, b"a"), Put(1, b"b"), Put(2, b"c"), Put(3, b"d"), Put(4, b"e"), Cut(65_537)];

#[rattlefmt::skip]
static ROWS: [Row; 14] = [
    (&[], None, 10, 0, b"0123456789"),
    (&[Put(2, b"ab")], None, 10, 0, b"01ab456789"),
    (&[Put(9, b"abc")], None, 12, 7, b"78abc"),
    (&[Put(70_000, b"")], None, 10, 8, b"89"),
    (&[Put(4_094, b"abcd")], None, 4_098, 4_094, b"abcd"),
    (&[Put(4_094, b"abcd"), Cut(4_095), Cut(4_098)], None, 4_098, 4_094, b"a\0\0\0"),
    (&[Cut(65_536), Put(65_535, b"z")], None, 65_536, 65_535, b"z"),
    (&[Cut(12_288), Put(4_096, b"z")], None, 12_288, 8_190, b"\0\0\0\0\0\0\0\0"),
    (&[Put(12_289, b"z"), Put(8_192, b"y")], None, 12_290, 12_286, b"\0\0\0z"),
    (&[Put(0, b"lost"), Put(65_536, b"z"), Cut(0)], Some(DataError::TooBig), 10, 0, b"0123456789"),
    (&[Put(u64::MAX, b"z")], Some(DataError::TooBig), 10, 8, b"89"),
    (&[Cut(65_537)], Some(DataError::TooBig), 10, 8, b"89"),
    (&SIX, None, 6, 0, b"abcde5"),
    (&LAST_REFUSED, Some(DataError::TooBig), 10, 0, b"0123456789"),
];

fn edit_of<R: Abort>(rt: &R, alloc: Global, step: Step) -> DataEdit {
    match step {
        Cut(len) => DataEdit::Truncate(len),
        Put(at, text) => {
            let text = Vec::from_slice(alloc, text).expect(rt, "memory");
            DataEdit::Write { at, text }
        }
    }
}

fn edits_of<R: Abort>(rt: &R, alloc: Global, steps: &[Step]) -> Vec<DataEdit> {
    let mut edits = Vec::new(alloc);
    for step in steps {
        let edit = edit_of(rt, alloc, *step);
        edits.push(edit).expect(rt, "memory");
    }
    edits
}

/// True if the data has that length, and these bytes at that place.
fn holds<D: Data>(data: &D, len: u64, at: u64, bytes: &[u8]) -> bool {
    let mut found = [0xff; 16];
    let count = data.read(at, &mut found);
    data.len() as u64 == len && count >= bytes.len() && found.starts_with(bytes)
}

/// Makes the edits of a row. True if all is as the row says.
fn passes<R: Abort, D: Data>(rt: &R, alloc: Global, data: &mut D, row: &Row) -> bool {
    let (steps, refusal, len, at, bytes) = *row;
    data.write(alloc, 0, b"0123456789").expect(rt, "memory");
    let edits = edits_of(rt, alloc, steps);
    let answer = edit_all(alloc, data, &edits).err();
    drop(edits);
    answer == refusal && holds(data, len, at, bytes)
}

fn passes_flat<R: Abort>(rt: &R, alloc: Global, row: &Row) -> bool {
    let mut data = FlatData::new(alloc);
    let right = passes(rt, alloc, &mut data, row);
    drop(data);
    right
}

fn passes_in_extents<R: Abort>(rt: &R, alloc: Global, row: &Row) -> bool {
    let mut data = ExtentData::new();
    let right = passes(rt, alloc, &mut data, row);
    drop(data);
    right
}

#[test]
fn lists_of_edits(rt: HostRuntime) {
    for row in &ROWS {
        assert!(rt; passes_flat(&rt, rt.alloc(), row) && passes_in_extents(&rt, rt.alloc(), row));
    }
}

/// Data of that many bytes, each 7.
fn sevens<R: Abort>(rt: &R, alloc: Global, len: usize) -> ExtentData {
    let mut data = ExtentData::new();
    let bytes = [7].repeat(alloc, len).expect(rt, "memory");
    data.write(alloc, 0, &bytes).expect(rt, "memory");
    data
}

/// A length, and the number of extents of data of that length: one byte, a full extent, a byte
/// more, and the most bytes that an object may have.
static COUNTS: [(usize, usize); 4] = [(1, 1), (4_096, 1), (4_097, 2), (65_536, 16)];

/// True if data of that length has so many extents once it is written to.
fn is_in<R: Abort>(rt: &R, alloc: Global, len: usize, count: usize) -> bool {
    let mut data = sevens(rt, alloc, len);
    data.write(alloc, 0, b"a").expect(rt, "memory");
    let right = data.extent_count() == count && data.longest_extent() <= 4_096;
    drop(data);
    right
}

/// True if data written byte by byte, each at its end, is in one extent.
fn is_in_one<R: Abort>(rt: &R, alloc: Global) -> bool {
    let mut data = ExtentData::new();
    for at in 0..16 {
        data.write(alloc, at, b"a").expect(rt, "memory");
    }
    let right = data.len() == 16 && data.extent_count() == 1;
    drop(data);
    right
}

#[test]
fn extents(rt: HostRuntime) {
    for (len, count) in &COUNTS {
        assert!(rt; is_in(&rt, rt.alloc(), *len, *count));
    }
    assert!(rt; is_in_one(&rt, rt.alloc()));
}

/// The number of extents that a copy shares once it is written to, and once it is cut as well.
fn shared_by_copy<R: Abort>(rt: &R, alloc: Global, old: &ExtentData) -> (usize, usize) {
    let mut new = old.copy(alloc).expect(rt, "memory");
    new.write(alloc, 5_000, b"a").expect(rt, "memory");
    let written = new.shared_count();
    new.truncate(alloc, 10_000).expect(rt, "memory");
    let cut = new.shared_count();
    drop(new);
    (written, cut)
}

#[test]
fn a_write_shares_what_it_does_not_touch(rt: HostRuntime) {
    let alloc = rt.alloc();
    let old = sevens(&rt, alloc, 65_536);
    let shared = shared_by_copy(&rt, alloc, &old);
    let stays = holds(&old, 65_536, 4_999, &[7; 16]);
    drop(old);
    assert!(rt; shared == (15, 1) && stays);
}

/// Data of 65,536 zeros, all in one hole.
fn hole<R: Abort>(rt: &R, alloc: Global) -> ExtentData {
    let mut data = ExtentData::new();
    data.truncate(alloc, 65_536).expect(rt, "memory");
    data
}

/// True if the second extent's place begins with these bytes, and each other extent's with zeros.
fn has_in_second(data: &ExtentData, bytes: &[u8]) -> bool {
    for place in 0..16 {
        let expected = if place == 1 { bytes } else { &[0; 16] };
        if !holds(data, 65_536, place * 4_096, expected) {
            return false;
        }
    }
    true
}

#[test]
fn a_write_into_a_hole_leaves_the_others_zero(rt: HostRuntime) {
    let mut data = hole(&rt, rt.alloc());
    let before = data.shared_count();
    data.write(rt.alloc(), 4_096, &[7; 16])
        .expect(&rt, "memory");
    let after = data.shared_count();
    let right = has_in_second(&data, &[7; 16]);
    drop(data);
    assert!(rt; (before, after) == (16, 15) && right);
}

//! Data of which only some blocks are known: what a write and a cut leave known, which blocks a
//! read needs, and what it gives.

use Step::{Clear, Cut, Know, Need, Put, Read, Size};
use part_data::{PartData, Unknown};
use std::alloc::Global;
use std::process::Abort;

/// A change of the data, or a question with its answer.
#[derive(Clone, Copy)]
enum Step {
    /// The block of this number is learned, all of whose bytes are this one.
    Know(u64, u8),
    /// Bytes are written at a place.
    Put(u64, &'static [u8]),
    /// The data gets this length.
    Cut(u64),
    /// The data is made again.
    Clear,
    /// The data has this length.
    Size(u64),
    /// At this place a read of a number of bytes needs this block and a number of blocks, or 0.
    Need(u64, u64, u64, u64),
    /// At this place a read of a number of bytes, at most 99, gives these.
    Read(u64, usize, &'static [u8]),
}

/// The size of data of which nothing is known, and steps.
type Row = (u64, &'static [Step]);

/// The size of an image's object.
const IMAGE: u64 = 4_194_304;

/// The greatest size.
const GREATEST: u64 = (1 << 63) - 1;

/// The last block of data of that size.
const LAST: u64 = 2_251_799_813_685_247;

#[rattlefmt::skip]
static ROWS: [Row; 17] = [
    // Nothing is known: a read past the end gives no bytes, another needs each block that it meets.
    (IMAGE, &[Size(IMAGE), Read(IMAGE, 8, b""), Need(4_095, 2, 0, 2), Need(0, 0, 0, 0), Need(IMAGE - 1, 9, 1_023, 1)]),
    // A write needs nothing, and its bytes stay unknown.
    (IMAGE, &[Put(10, b"y"), Need(10, 1, 0, 1), Size(IMAGE)]),
    // A known block has zeros past a cut.
    (IMAGE, &[Know(0, b'q'), Cut(5), Cut(9), Read(3, 9, b"qq\0\0\0\0")]),
    // Past a cut at a block's end zeros are known, and nothing of the block before.
    (IMAGE, &[Cut(4_096), Cut(8_192), Read(4_096, 4, b"\0\0\0\0"), Need(4_095, 2, 0, 1)]),
    // The block of a cut within it stays unknown.
    (IMAGE, &[Cut(4_097), Cut(8_192), Need(4_096, 4, 1, 1)]),
    // A write past the end leaves a gap of zeros.
    (3, &[Put(8_190, b"hello"), Size(8_195), Read(8_188, 99, b"\0\0hello"), Read(4_096, 1, b"\0"), Need(0, 99, 0, 1)]),
    // The last block has as many bytes as there are, and zeros after them.
    (5_000, &[Know(1, b'k'), Read(4_998, 9, b"kk"), Put(5_001, b"z"), Cut(5_003), Read(4_998, 9, b"kk\0z\0")]),
    // A known block changes under a write, over its end too.
    (IMAGE, &[Know(0, b'a'), Know(1, b'b'), Put(4_094, b"wxyz"), Read(4_093, 6, b"awxyzb")]),
    // The same where the second block is unknown.
    (IMAGE, &[Know(0, b'a'), Put(4_094, b"wxyz"), Read(4_093, 3, b"awx"), Need(4_093, 6, 1, 1)]),
    // From the first to the last unknown block, with a known one between them or none.
    (IMAGE, &[Know(0, 0), Know(2, 2), Need(0, 16_384, 1, 3), Know(3, 3), Need(0, 16_384, 1, 1)]),
    (IMAGE, &[Know(0, 0), Know(1, 1), Need(0, 8_192, 0, 0), Read(4_094, 4, b"\x00\x00\x01\x01")]),
    // No bytes change nothing, wherever they stand.
    (3, &[Put(9_000, b""), Size(3), Need(0, 3, 0, 1)]),
    // Made again, all is known.
    (IMAGE, &[Know(7, 7), Clear, Size(0), Put(3, b"ab"), Read(0, 9, b"\0\0\0ab"), Cut(30_000), Read(28_672, 1, b"\0")]),
    // Nothing, made longer.
    (0, &[Need(0, 9, 0, 0), Cut(GREATEST), Put(GREATEST - 1, b"z"), Read(GREATEST - 2, 9, b"\0z")]),
    // The greatest size.
    (GREATEST, &[Need(GREATEST - 1, 5, LAST, 1), Need(0, u64::MAX, 0, LAST + 1), Need(u64::MAX, u64::MAX, 0, 0)]),
    (GREATEST, &[Put(GREATEST - 1, b"z"), Size(GREATEST), Need(GREATEST - 1, 1, LAST, 1)]),
    (GREATEST, &[Cut(0), Size(0), Need(0, u64::MAX, 0, 0)]),
];

/// Learns a block, all of whose bytes are this one.
fn know<R: Abort>(rt: &R, alloc: Global, data: &mut PartData, block: u64, byte: u8) {
    assert!(rt; block < 1 << 51);
    let at = block * 4_096;
    let size = data.size();
    assert!(rt; at < size);
    let len = (size - at).min(4_096);
    let bytes = [byte].repeat(alloc, len as usize).expect(rt, "memory");
    assert!(rt; bytes.len() as u64 == len);
    data.learn(block, &bytes).expect(rt, "memory");
}

/// Writes bytes at a place.
fn put<R: Abort>(rt: &R, data: &mut PartData, at: u64, text: &[u8]) {
    let end = at.saturating_add(text.len() as u64);
    assert!(rt; end <= GREATEST);
    data.write(at, text).expect(rt, "memory");
}

/// True if a read needs these blocks, or none if the number of blocks is 0.
fn needs(data: &PartData, at: u64, n: u64, block: u64, count: u64) -> bool {
    match data.unknown(at, n) {
        Some(unknown) => unknown == Unknown { block, count },
        None => count == 0,
    }
}

/// True if a read needs no block, gives these bytes, and leaves the rest of its buffer.
fn reads(data: &PartData, at: u64, n: usize, bytes: &[u8]) -> bool {
    let mut found = [0xff; 99];
    let n = n.min(99);
    if data.unknown(at, n as u64).is_some() {
        return false;
    }
    let count = data.read(at, &mut found[..n]);
    &found[..count] == bytes && found[count..].iter().all(|byte| *byte == 0xff)
}

/// Makes a step. True if a question has the row's answer.
fn is_right<R: Abort>(rt: &R, alloc: Global, data: &mut PartData, step: Step) -> bool {
    match step {
        Know(block, byte) => know(rt, alloc, data, block, byte),
        Put(at, text) => put(rt, data, at, text),
        Cut(len) => {
            assert!(rt; len <= GREATEST);
            data.set_len(len);
        }
        Clear => data.clear(),
        Size(size) => return data.size() == size,
        Need(at, n, block, count) => return needs(data, at, n, block, count),
        Read(at, n, bytes) => return reads(data, at, n, bytes),
    }
    true
}

/// True if all answers are as the row says.
fn passes<R: Abort>(rt: &R, alloc: Global, row: &Row) -> bool {
    let (size, steps) = *row;
    assert!(rt; size <= GREATEST);
    let mut data = PartData::of_size(alloc, size);
    steps
        .iter()
        .all(|step| is_right(rt, alloc, &mut data, *step))
}

#[test]
fn rows(rt: HostRuntime) {
    for row in &ROWS {
        assert!(rt; passes(&rt, rt.alloc(), row));
    }
}

#[test]
fn empty_data_is_known(rt: HostRuntime) {
    let data = PartData::empty(rt.alloc());
    assert!(rt; data.size() == 0 && needs(&data, 0, 9, 0, 0));
}

/// True if 65,535 bytes from 4,095 on are read, of 17 blocks, each of whose bytes are its number.
fn reads_long<R: Abort>(rt: &R, data: &PartData, out: &mut [u8]) -> bool {
    assert!(rt; out.len() == 65_535);
    if data.unknown(4_095, 65_535).is_some() {
        return false;
    }
    let count = data.read(4_095, out);
    count == 65_535
        && out[0] == 0
        && out[1] == 1
        && out[4_097] == 2
        && out[61_440] == 15
        && out[65_534] == 16
}

#[test]
fn long_reads(rt: HostRuntime) {
    let mut data = PartData::of_size(rt.alloc(), IMAGE);
    for block in 0..17 {
        assert!(rt; needs(&data, 4_095, 65_535, block, 17 - block));
        know(&rt, rt.alloc(), &mut data, block, block as u8);
    }
    let mut out = [0].repeat(rt.alloc(), 65_535).expect(&rt, "memory");
    assert!(rt; reads_long(&rt, &data, &mut out));
}

/// True if data of ten bytes, of which nothing is known, has 13,090 bytes after a write that passes
/// its end, with text and zeros in its blocks, and is as before after a refused one.
fn writes_or_stays(data: &mut PartData) -> bool {
    let (size, byte): (u64, u8) = if data.write(4_090, &[7; 9_000]).is_ok() {
        (13_090, 7)
    } else {
        (10, 0)
    };
    let right = data.size() == size && needs(data, 0, 99, 0, 1);
    data.set_len(20_000);
    right && reads(data, 8_192, 2, &[byte, byte]) && reads(data, 13_088, 4, &[byte, byte, 0, 0])
}

#[test]
fn refused_writes_change_nothing(rt: HostRuntime) {
    let mut data = PartData::of_size(rt.alloc(), 10);
    let learned = data.learn(0, b"0123456789").is_ok();
    assert!(rt; needs(&data, 0, 99, 0, if learned { 0 } else { 1 }));
    let mut data = PartData::of_size(rt.alloc(), 10);
    assert!(rt; writes_or_stays(&mut data));
}

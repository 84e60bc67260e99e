//! Loops as bytes: what is read, written and refused.

use loop_bytes::{HeadsError, push_loops, read_loops};
use loop_heads::{Head, HeadPlace, Loops, PlaceKind};
use std::alloc::Global;
use std::process::Abort;

/// Budget 100, and a head at slot 2, where r0 is any number and r4 one from 0 to 16.
#[rattlefmt::skip]
const ROW: [u8; 29] = [
    1, 0, 100, 0, 0, 0, 2, 0, 2, 0, 1, 4, 2,
    0, 0, 0, 0, 0, 0, 0, 0,
    0x10, 0, 0, 0, 0, 0, 0, 0,
];

/// Ten instructions of one slot each.
const STARTS: [bool; 10] = [true; 10];

/// Two places of the row, the bytes that are put there, and the refusal.
#[rattlefmt::skip]
const REFUSED: [([(usize, u8); 2], HeadsError); 14] = [
    ([(0, 65), (0, 65)], HeadsError::Limit),     // heads
    ([(2, 0), (2, 0)], HeadsError::Limit),       // budget 0
    ([(2, 1), (4, 0x10)], HeadsError::Limit),    // budget 1,048,577
    ([(0, 2), (0, 2)], HeadsError::Truncated),   // a second head
    ([(6, 10), (8, 99)], HeadsError::Head(10)),  // slot
    ([(8, 3), (8, 3)], HeadsError::Truncated),   // a third place
    ([(9, 10), (9, 10)], HeadsError::Head(2)),   // a place that is none
    ([(11, 10), (11, 10)], HeadsError::Head(2)),
    ([(11, 75), (11, 75)], HeadsError::Head(2)),
    ([(11, 0), (11, 0)], HeadsError::Head(2)),   // the first place again
    ([(10, 7), (10, 7)], HeadsError::Head(2)),   // kind
    ([(12, 7), (12, 7)], HeadsError::Head(2)),
    ([(13, 5), (21, 4)], HeadsError::Head(2)),   // 5 to 4
    ([(12, 3), (28, 0x80)], HeadsError::Head(2)), // signed, to a negative number
];

/// The row with two bytes changed.
fn changed(changes: &[(usize, u8); 2]) -> [u8; 29] {
    let mut row = ROW;
    for (place, value) in changes {
        if *place < row.len() {
            row[*place] = *value;
        }
    }
    row
}

/// True if the bytes are refused by that error.
fn is_refused(alloc: Global, bytes: &[u8], starts: &[bool], error: HeadsError) -> bool {
    read_loops(alloc, bytes, starts).err() == Some(error)
}

#[test]
fn refused(rt: HostRuntime) {
    for (changes, error) in &REFUSED {
        let row = changed(changes);
        assert!(rt; is_refused(rt.alloc(), &row, &STARTS, *error));
    }
    // The second half of a wide load is no instruction's first slot.
    let starts = [true, true, false, true];
    assert!(rt; is_refused(rt.alloc(), &ROW, &starts, HeadsError::Head(2)));
    assert!(rt; is_refused(rt.alloc(), &ROW, &starts[..2], HeadsError::Head(2)));
    let twice = [2, 0, 100, 0, 0, 0, 2, 0, 0, 2, 0, 0];
    assert!(rt; is_refused(rt.alloc(), &twice, &STARTS, HeadsError::Head(2)));
    for length in 0..ROW.len() {
        assert!(rt; is_refused(rt.alloc(), &ROW[..length], &STARTS, HeadsError::Truncated));
    }
}

/// True if they are the loops of the row.
fn is_row(loops: &Loops) -> bool {
    let places = [
        HeadPlace {
            number: 0,
            kind: PlaceKind::Any,
        },
        HeadPlace {
            number: 4,
            kind: PlaceKind::Unsigned(0, 16),
        },
    ];
    match loops.heads() {
        [head] => loops.budget() == 100 && head.slot() == 2 && head.places() == places.as_slice(),
        _ => false,
    }
}

/// True if the bytes are read as loops of that length, if they are the row's as those, and these are
/// written as the bytes are.
fn is_kept(
    alloc: Global,
    bytes: &[u8],
    starts: &[bool],
    length: usize,
) -> Result<bool, HeadsError> {
    let read = read_loops(alloc, bytes, starts)?;
    let is_right = match &read.loops {
        Some(loops) => bytes != ROW.as_slice() || is_row(loops),
        None => length == 2,
    };
    let mut written = Vec::new(alloc);
    push_loops(&mut written, read.loops.as_ref())?;
    Ok(is_right && read.length == length && bytes.starts_with(&written) && written.len() == length)
}

#[test]
fn kept(rt: HostRuntime) {
    assert!(rt; is_kept(rt.alloc(), &ROW, &STARTS, 29) == Ok(true));
    // What follows isn't looked at.
    assert!(rt; is_kept(rt.alloc(), &[0, 0], &[], 2) == Ok(true));
    assert!(rt; is_kept(rt.alloc(), &[0, 0, 9], &STARTS, 2) == Ok(true));
    let followed = [1, 0, 0, 0, 0x10, 0, 9, 0, 0, 9, 9];
    assert!(rt; is_kept(rt.alloc(), &followed, &STARTS, 9) == Ok(true));
    // -1 to 5.
    let mut row = ROW;
    row[12] = 3;
    row[13..21].fill(0xff);
    row[21] = 5;
    assert!(rt; is_kept(rt.alloc(), &row, &STARTS, 29) == Ok(true));
}

/// The loops of the row.
fn row(alloc: Global) -> Option<Loops> {
    let mut places = Vec::new(alloc);
    places
        .push(HeadPlace {
            number: 0,
            kind: PlaceKind::Any,
        })
        .ok()?;
    places
        .push(HeadPlace {
            number: 4,
            kind: PlaceKind::Unsigned(0, 16),
        })
        .ok()?;
    let mut heads = Vec::new(alloc);
    heads.push(Head::new(2, places)).ok()?;
    Loops::new(100, heads).ok()
}

#[test]
fn written(rt: HostRuntime) {
    let loops = row(rt.alloc()).expect(&rt, "loops");
    let mut bytes = Vec::new(rt.alloc());
    push_loops(&mut bytes, Some(&loops)).expect(&rt, "memory");
    assert!(rt; bytes.as_slice() == ROW.as_slice());
    push_loops(&mut bytes, None).expect(&rt, "memory");
    assert!(rt; bytes.len() == 31 && bytes[29..] == [0, 0]);
}

/// 74 places: each number but 10, with the kinds that have bounds by turns, from 0 to 2^63 - 1.
fn places(rt: &impl Abort, alloc: Global) -> Vec<u8> {
    let mut bytes = Vec::new(alloc);
    for number in 0..75u8 {
        if number != 10 {
            bytes
                .extend_from_slice(&[number, 2 + number % 5])
                .expect(rt, "memory");
            bytes.extend_from_slice(&[0; 8]).expect(rt, "memory");
            bytes
                .extend_from_slice(&i64::MAX.to_le_bytes())
                .expect(rt, "memory");
        }
    }
    bytes
}

/// Budget 1,048,576, and a head of these places at each of 64 slots.
fn largest(rt: &impl Abort, alloc: Global) -> Vec<u8> {
    let places = places(rt, alloc);
    let mut bytes = Vec::from_slice(alloc, &[64, 0, 0, 0, 0x10, 0]).expect(rt, "memory");
    for slot in 0..64u8 {
        bytes.extend_from_slice(&[slot, 0, 74]).expect(rt, "memory");
        bytes.extend_from_slice(&places).expect(rt, "memory");
    }
    bytes
}

/// 6 bytes, and 64 times 3 and 74 * 18.
#[test]
fn largest_loops(rt: HostRuntime) {
    let bytes = largest(&rt, rt.alloc());
    assert!(rt; is_kept(rt.alloc(), &bytes, &[true; 64], 85_446) == Ok(true));
}

/// Where memory is refused to a call, by `rt try --test --fail-alloc`, it says so, and made again it
/// gives its answer.
#[test]
fn memory(rt: HostRuntime) {
    let first = is_kept(rt.alloc(), &ROW, &STARTS, 29);
    let refused = first == Err(HeadsError::NoMemory);
    assert!(rt; first == Ok(true) || refused && is_kept(rt.alloc(), &ROW, &STARTS, 29) == Ok(true));
}

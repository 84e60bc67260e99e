//! Edits at random of an object by an OSD's limits, beside a plain vector and plain lists; lists of edits
//! as they are spelled; and calls on the object that is left.

use crate::folder::{TWO, bytes_of};
use bpf_decode::read_image;
use large_objects::{
    LARGE_LIMIT, LargeCall, LargeNames, LargeObject, call_large, large_limits, make, make_all,
};
use object_store::StoreError;
use std::alloc::Global;
use txn::Edit;
use verifier::verify;

/// An object in the plainest form: of four names of one byte each, whether it is there, and its value.
#[derive(Drop)]
struct Plain {
    is_there: bool,
    bytes: Vec<u8>,
    xattrs: [Option<u8>; 4],
    keys: [Option<u8>; 4],
}

const NAMES: [[u8; 1]; 4] = [*b"a", *b"b", *b"\0", *b"\xff"];

#[derive(Drop)]
struct Dice(u64);

impl Dice {
    fn below(&mut self, most: u64) -> u64 {
        self.0 = self
            .0
            .wrapping_mul(6_364_136_223_846_793_005)
            .wrapping_add(1_442_695_040_888_963_407);
        (self.0 >> 33).checked_rem(most).unwrap_or(0)
    }
}

impl Plain {
    fn put(&mut self, at: usize, text: &[u8]) -> Option<()> {
        let end = at.saturating_add(text.len());
        if !text.is_empty() && self.bytes.len() < end {
            self.bytes.resize(end, 0).ok()?;
        }
        for (n, byte) in text.iter().enumerate() {
            *self.bytes.get_mut(at.saturating_add(n))? = *byte;
        }
        self.is_there = true;
        Some(())
    }

    fn clear(&mut self) {
        self.is_there = false;
        self.bytes.clear();
        self.xattrs = [None; 4];
        self.keys = [None; 4];
    }
}

/// An edit at random, done to both. None if memory lacks, or it is refused.
fn edited(
    alloc: Global,
    dice: &mut Dice,
    object: Option<LargeObject>,
    plain: &mut Plain,
) -> Option<Option<LargeObject>> {
    let n = dice.below(4) as usize;
    let name = NAMES.get(n)?;
    let [low, _, _, _, _, _, _, _] = dice.below(256).to_le_bytes();
    let value = [low];
    let at = dice.below(40);
    let text = [value[0]; 5];
    let text = text.get(..dice.below(6) as usize)?;
    match dice.below(9) {
        0 => {
            plain.is_there = true;
            make(alloc, object, Edit::Create).ok()
        }
        1 if at < 4 => {
            plain.clear();
            make(alloc, object, Edit::Remove).ok()
        }
        2 => {
            plain.is_there = true;
            *plain.xattrs.get_mut(n)? = Some(value[0]);
            make(alloc, object, Edit::SetXattr(name, &value)).ok()
        }
        3 => {
            *plain.xattrs.get_mut(n)? = None;
            make(alloc, object, Edit::RemoveXattr(name)).ok()
        }
        4 => {
            plain.is_there = true;
            *plain.keys.get_mut(n)? = Some(value[0]);
            make(alloc, object, Edit::SetKey(name, &value)).ok()
        }
        5 => {
            *plain.keys.get_mut(n)? = None;
            make(alloc, object, Edit::RemoveKey(name)).ok()
        }
        6 => {
            if plain.is_there {
                plain.bytes.resize(at as usize, 0).ok()?;
            }
            make(alloc, object, Edit::SetLength(at)).ok()
        }
        _ => {
            plain.put(at as usize, text)?;
            make(alloc, object, Edit::Write(at, text)).ok()
        }
    }
}

/// True if names have these values, and there are no others.
fn are_names(names: &LargeNames, plain: &[Option<u8>; 4]) -> bool {
    for (name, value) in NAMES.iter().zip(plain.iter()) {
        let is_same = match (names.get(name), value) {
            (None, None) => true,
            (Some(held), Some(value)) => held.bytes() == [*value].as_slice(),
            _ => false,
        };
        if !is_same {
            return false;
        }
    }
    names.len() == plain.iter().filter(|value| value.is_some()).count()
}

fn is_plain(object: Option<&LargeObject>, plain: &Plain) -> bool {
    match object {
        None => !plain.is_there,
        Some(object) => {
            plain.is_there
                && object.bytes() == plain.bytes.as_slice()
                && are_names(object.xattrs(), &plain.xattrs)
                && are_names(object.keys(), &plain.keys)
                && object.is_same(object)
        }
    }
}

/// Edits at random: how many were as the plain ones.
fn random_edits(alloc: Global, count: usize) -> usize {
    let mut dice = Dice(7);
    let mut object = None;
    let mut plain = Plain {
        is_there: false,
        bytes: Vec::new(alloc),
        xattrs: [None; 4],
        keys: [None; 4],
    };
    for n in 0..count {
        object = match edited(alloc, &mut dice, object, &mut plain) {
            Some(after) => after,
            None => return n,
        };
        if !is_plain(object.as_ref(), &plain) {
            return n;
        }
    }
    count
}

#[test]
fn edits(rt: HostRuntime) {
    assert!(rt; random_edits(rt.alloc(), 400) == 400);
}

/// True if a list, as it is spelled, makes an object of 8 bytes with one xattr; a list cut short none.
fn makes_lists(alloc: Global) -> bool {
    let list =
        b"\x01\x08\x04\0\0\0\0\0\0\0\x02\0\0\0xy\x07\x08\0\0\0\0\0\0\0\x03\x01\0a\x01\01\x05\x01\0k\0\0\x06\x01\0k";
    let made = match make_all(alloc, None, list) {
        Ok(Some(object)) => {
            object.bytes() == b"\0\0\0\0xy\0\0".as_slice()
                && object.xattrs().len() == 1
                && object.keys().len() == 0
        }
        _ => false,
    };
    let removed = matches!(make_all(alloc, None, b"\x01\x02\x04\x01\0a"), Ok(None));
    made && removed && matches!(make_all(alloc, None, &list[..20]), Err(StoreError::Range))
}

/// True if data ends at the limit, and what is past it, or has no name, is refused.
fn keeps_limits(alloc: Global) -> bool {
    let long = [0u8; 4_097];
    large_limits().bytes == LARGE_LIMIT
        && matches!(
            make(alloc, None, Edit::Write(LARGE_LIMIT, b"x")),
            Err(StoreError::TooBig)
        )
        && matches!(
            make(alloc, None, Edit::Write(u64::MAX, b"x")),
            Err(StoreError::TooBig)
        )
        && matches!(
            make(alloc, None, Edit::SetLength(LARGE_LIMIT + 1)),
            Err(StoreError::TooBig)
        )
        && matches!(
            make(alloc, None, Edit::SetKey(b"", b"x")),
            Err(StoreError::Range)
        )
        && matches!(
            make(alloc, None, Edit::SetXattr(&long[..65], b"x")),
            Err(StoreError::Range)
        )
        && matches!(
            make(alloc, None, Edit::SetXattr(b"a", &long)),
            Err(StoreError::TooBig)
        )
        && matches!(
            make(alloc, None, Edit::SetXattr(&long[..64], &long[..4_096])),
            Ok(Some(_))
        )
}

/// True if a call answers, and leaves the object of 5,000,000 bytes, of which no part has all.
fn calls(alloc: Global) -> Option<bool> {
    let image = bytes_of(alloc, TWO)?;
    let class = verify(alloc, &read_image(alloc, &image).ok()?).ok()?;
    let object = make(alloc, None, Edit::Write(4_999_999, b"x")).ok()?;
    let asked = LargeCall {
        method: b"f",
        caller: 1,
        input: b"",
    };
    let answer = call_large(alloc, &class, asked, object).ok()?;
    let length = answer
        .after
        .as_ref()
        .map_or(0, |object| object.bytes().len());
    Some(answer.answer.code == 0 && answer.answer.steps == 2 && length == 5_000_000)
}

#[test]
fn lists_limits_and_calls(rt: HostRuntime) {
    assert!(rt; makes_lists(rt.alloc()));
    assert!(rt; keeps_limits(rt.alloc()));
    assert!(rt; calls(rt.alloc()) == Some(true));
}

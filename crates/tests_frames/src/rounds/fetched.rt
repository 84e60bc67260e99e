//! What a host has fetched of an object: it fetches what a need names, and no more, and hands in
//! the part that says it.

use crate::dice::Dice;
use object_store::Object;
use part_bytes::Need;
use std::alloc::Global;

const BLOCK: usize = 4096;

/// The most blocks of an object.
const BLOCKS: usize = 16;

/// Names from `low` to below `high`; to the end if that is empty.
#[derive(Drop)]
struct Interval {
    low: Vec<u8>,
    high: Vec<u8>,
}

/// Which of an object's blocks were fetched, and which intervals of its xattrs and keys, in order
/// and apart.
#[derive(Drop)]
pub struct Fetched {
    blocks: [bool; BLOCKS],
    xattrs: Vec<Interval>,
    keys: Vec<Interval>,
}

fn is_below(name: &[u8], other: &[u8]) -> bool {
    name.cmp(other).is_lt()
}

/// True if what ends there ends before what begins there, apart from it.
fn ends_before(high: &[u8], low: &[u8]) -> bool {
    !high.is_empty() && is_below(high, low)
}

/// The interval of two that meet.
fn joined(one: Interval, other: Interval) -> Interval {
    let Interval { low, high } = one;
    let Interval {
        low: other_low,
        high: other_high,
    } = other;
    let begins = is_below(&low, &other_low);
    let ends = high.is_empty() || ends_before(&other_high, &high);
    Interval {
        low: if begins { low } else { other_low },
        high: if ends { high } else { other_high },
    }
}

/// Puts an interval among others: those that it meets become one with it.
fn learn(alloc: Global, intervals: &mut Vec<Interval>, more: Interval) -> Option<()> {
    let mut more = more;
    let mut before = Vec::new(alloc);
    let mut after = Vec::new(alloc);
    for _ in 0..u64::MAX {
        if intervals.is_empty() {
            break;
        }
        let old = intervals.remove(0);
        if ends_before(&old.high, &more.low) {
            before.push(old).ok()?;
        } else if ends_before(&more.high, &old.low) {
            after.push(old).ok()?;
        } else {
            more = joined(old, more);
        }
    }
    before.push(more).ok()?;
    for _ in 0..u64::MAX {
        if after.is_empty() {
            break;
        }
        before.push(after.remove(0)).ok()?;
    }
    *intervals = before;
    Some(())
}

/// True if an interval has the name.
fn is_held(intervals: &[Interval], name: &[u8]) -> bool {
    for interval in intervals {
        if !is_below(name, &interval.low)
            && (interval.high.is_empty() || is_below(name, &interval.high))
        {
            return true;
        }
    }
    false
}

/// A name, and a zero byte.
fn after(alloc: Global, name: &[u8]) -> Option<Vec<u8>> {
    let mut place = Vec::from_slice(alloc, name).ok()?;
    place.push(0).ok()?;
    Some(place)
}

/// Fetches one name; none if it was known.
fn fetch_name(alloc: Global, intervals: &mut Vec<Interval>, name: &[u8]) -> Option<()> {
    if is_held(intervals, name) {
        return None;
    }
    let low = Vec::from_slice(alloc, name).ok()?;
    let high = after(alloc, name)?;
    learn(alloc, intervals, Interval { low, high })
}

/// The object's name of a number, in order, and its value.
fn entry_at(object: &Object, are_keys: bool, n: usize) -> Option<(&[u8], &[u8])> {
    if are_keys {
        object.key_at(n)
    } else {
        object.xattr_at(n)
    }
}

fn count(object: &Object, are_keys: bool) -> usize {
    if are_keys {
        object.key_count()
    } else {
        object.xattr_count()
    }
}

/// Fetches the least name from a place on, or that there is none; none if the place was known.
fn fetch_from(
    alloc: Global,
    intervals: &mut Vec<Interval>,
    object: &Object,
    are_keys: bool,
    place: &[u8],
) -> Option<()> {
    if is_held(intervals, place) {
        return None;
    }
    let low = Vec::from_slice(alloc, place).ok()?;
    let mut high = Vec::new(alloc);
    for n in 0..count(object, are_keys) {
        let (name, _) = entry_at(object, are_keys, n)?;
        if !is_below(name, place) && high.is_empty() {
            high = after(alloc, name)?;
        }
    }
    learn(alloc, intervals, Interval { low, high })
}

/// Some names at random, of the object's and of others.
fn random_name(alloc: Global, dice: &mut Dice, object: &Object, are_keys: bool) -> Option<Vec<u8>> {
    let n = dice.below(count(object, are_keys) as u64) as usize;
    match (dice.below(5), entry_at(object, are_keys, n)) {
        (0, _) => Some(Vec::new(alloc)),
        (1, Some((name, _))) => after(alloc, name),
        (2 | 3, Some((name, _))) => Some(Vec::from_slice(alloc, name).ok()?),
        _ => Some(Vec::from_elem(alloc, dice.byte(), 1 + dice.below(3) as usize).ok()?),
    }
}

/// Fetches an interval at random.
fn learn_random(
    alloc: Global,
    dice: &mut Dice,
    intervals: &mut Vec<Interval>,
    object: &Object,
    are_keys: bool,
) -> Option<()> {
    let low = random_name(alloc, dice, object, are_keys)?;
    let high = random_name(alloc, dice, object, are_keys)?;
    if high.is_empty() || is_below(&low, &high) {
        learn(alloc, intervals, Interval { low, high })?;
    }
    Some(())
}

fn learn_all(alloc: Global, intervals: &mut Vec<Interval>) -> Option<()> {
    let (low, high) = (Vec::new(alloc), Vec::new(alloc));
    learn(alloc, intervals, Interval { low, high })
}

fn copied(alloc: Global, intervals: &[Interval]) -> Option<Vec<Interval>> {
    let mut copies = Vec::new(alloc);
    for interval in intervals {
        let low = Vec::from_slice(alloc, &interval.low).ok()?;
        let high = Vec::from_slice(alloc, &interval.high).ok()?;
        copies.push(Interval { low, high }).ok()?;
    }
    Some(copies)
}

fn put_number(bytes: &mut Vec<u8>, number: u64, length: usize) -> Option<()> {
    bytes
        .extend_from_slice(number.to_le_bytes().get(..length)?)
        .ok()
}

fn put_text(bytes: &mut Vec<u8>, text: &[u8]) -> Option<()> {
    put_number(bytes, text.len() as u64, 2)?;
    bytes.extend_from_slice(text).ok()
}

/// Puts intervals, and the entries of the object in them.
fn put_names(
    bytes: &mut Vec<u8>,
    intervals: &[Interval],
    object: &Object,
    are_keys: bool,
) -> Option<()> {
    put_number(bytes, intervals.len() as u64, 2)?;
    let mut held = 0u64;
    for interval in intervals {
        put_text(bytes, &interval.low)?;
        put_text(bytes, &interval.high)?;
    }
    for n in 0..count(object, are_keys) {
        if is_held(intervals, entry_at(object, are_keys, n)?.0) {
            held = held.saturating_add(1);
        }
    }
    put_number(bytes, held, 2)?;
    for n in 0..count(object, are_keys) {
        let (name, value) = entry_at(object, are_keys, n)?;
        if is_held(intervals, name) {
            put_text(bytes, name)?;
            put_text(bytes, value)?;
        }
    }
    Some(())
}

impl Fetched {
    /// Nothing but whether the object is there, and its size.
    pub fn nothing(alloc: Global) -> Fetched {
        Fetched {
            blocks: [false; BLOCKS],
            xattrs: Vec::new(alloc),
            keys: Vec::new(alloc),
        }
    }

    pub fn copied(&self, alloc: Global) -> Option<Fetched> {
        Some(Fetched {
            blocks: self.blocks,
            xattrs: copied(alloc, &self.xattrs)?,
            keys: copied(alloc, &self.keys)?,
        })
    }

    /// Fetches something at random.
    pub fn add_random(&mut self, alloc: Global, dice: &mut Dice, object: &Object) -> Option<()> {
        let blocks = [4, 2, 1].get(dice.below(3) as usize).copied()?;
        for is_known in self.blocks.iter_mut() {
            *is_known = *is_known || dice.is_one_in(blocks);
        }
        for _ in 0..dice.below(4) {
            learn_random(alloc, dice, &mut self.xattrs, object, false)?;
        }
        for _ in 0..dice.below(4) {
            learn_random(alloc, dice, &mut self.keys, object, true)?;
        }
        Some(())
    }

    /// Fetches all xattrs, or all keys.
    pub fn add_all(&mut self, alloc: Global, xattrs: bool, keys: bool) -> Option<()> {
        if xattrs {
            learn_all(alloc, &mut self.xattrs)?;
        }
        if keys {
            learn_all(alloc, &mut self.keys)?;
        }
        Some(())
    }

    /// Fetches blocks; none if the first or the last was known, or the object hasn't them.
    fn fetch_blocks(&mut self, object: &Object, first: u64, count: u8) -> Option<()> {
        let end = first.checked_add(u64::from(count))?;
        let last = end.checked_sub(1)?;
        if last.saturating_mul(BLOCK as u64) >= object.len() as u64 {
            return None;
        }
        if *self.blocks.get(first as usize)? || *self.blocks.get(last as usize)? {
            return None;
        }
        for number in first..end {
            *self.blocks.get_mut(number as usize)? = true;
        }
        Some(())
    }

    /// Fetches what a need names; none if it was known, or the object hasn't it.
    pub fn fetch(&mut self, alloc: Global, object: &Object, need: &Need) -> Option<()> {
        match need {
            Need::Blocks { first, count } => self.fetch_blocks(object, *first, *count),
            Need::Xattr(name) => fetch_name(alloc, &mut self.xattrs, name.as_slice()),
            Need::Key(name) => fetch_name(alloc, &mut self.keys, name.as_slice()),
            Need::KeyFrom(place) => fetch_from(
                alloc,
                &mut self.keys,
                object,
                true,
                place.as_slice(),
            ),
            Need::XattrFrom(place) => fetch_from(
                alloc,
                &mut self.xattrs,
                object,
                false,
                place.as_slice(),
            ),
        }
    }

    /// Puts the blocks that were fetched.
    fn put_blocks(&self, bytes: &mut Vec<u8>, object: &Object) -> Option<()> {
        let count = object.len().div_ceil(BLOCK);
        let known = self.blocks.get(..count)?;
        put_number(bytes, known.iter().filter(|is| **is).count() as u64, 4)?;
        for (number, is_known) in known.iter().enumerate() {
            if *is_known {
                let mut block = [0; BLOCK];
                let at = (number as u64).saturating_mul(BLOCK as u64);
                let length = object.read(at, &mut block);
                put_number(bytes, number as u64, 8)?;
                bytes.extend_from_slice(block.get(..length)?).ok()?;
            }
        }
        Some(())
    }

    /// The part that says what was fetched.
    pub fn part(&self, alloc: Global, object: Option<&Object>) -> Option<Vec<u8>> {
        let mut bytes = Vec::new(alloc);
        let Some(object) = object else {
            put_number(&mut bytes, 0, 1)?;
            return Some(bytes);
        };
        put_number(&mut bytes, 1, 1)?;
        put_number(&mut bytes, object.len() as u64, 8)?;
        self.put_blocks(&mut bytes, object)?;
        put_names(&mut bytes, &self.xattrs, object, false)?;
        put_names(&mut bytes, &self.keys, object, true)?;
        Some(bytes)
    }
}

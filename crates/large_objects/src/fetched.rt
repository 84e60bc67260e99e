//! What was handed in of an object: it grows by what calls need. No contract speaks of it: what is
//! handed in is checked against the object.

ghost use Rattle.std.specs.Prelude.{◌≤◌};

use crate::large_object::{LargeNames, LargeObject};
use object_store::{KEY_LIMIT, XATTR_LIMIT, part};
use part_bytes::{BLOCK, BLOCK_LIMIT, Need};
use std::alloc::{AllocError, Global};

/// The most names after a place that are handed in with it.
const PAGE: usize = 64;

/// Which places are handed in: of each it says so. At most `most` of them may be.
#[derive(Drop)]
struct Flags {
    known: Vec<bool>,
    count: usize,
    most: usize,
}

impl Flags {
    /// All of so many places, or none.
    fn of(alloc: Global, places: usize, are_all: bool, most: usize) -> Result<Flags, AllocError> {
        Ok(Flags {
            known: vec![in alloc; are_all; places]?,
            count: if are_all { places } else { 0 },
            most,
        })
    }

    fn has(&self, place: usize) -> bool {
        match self.known.get(place) {
            Some(known) => *known,
            None => false,
        }
    }

    /// True if the place is new, and there was room for it.
    fn learn(&mut self, place: usize) -> bool {
        if self.has(place) || self.count >= self.most {
            return false;
        }
        match self.known.get_mut(place) {
            Some(known) => {
                *known = true;
                self.count = self.count.saturating_add(1);
                true
            }
            None => false,
        }
    }
}

/// The name that a gap begins with, and its value; the first gap begins with none.
fn entry_of(names: &LargeNames, gap: usize) -> Option<(&[u8], &[u8])> {
    match names.nth(gap.checked_sub(1)?) {
        Some((name, value)) => Some((name, value.bytes())),
        None => None,
    }
}

/// The string that a gap begins with; none past the last gap too.
fn begin_of(names: &LargeNames, gap: usize) -> &[u8] {
    match entry_of(names, gap) {
        Some((name, _)) => name,
        None => &[],
    }
}

/// The gap that has a string: how many names are at it or below.
fn gap_of(names: &LargeNames, string: &[u8]) -> usize {
    let mut gap = 0;
    for n in 0..names.len() {
        match names.nth(n) {
            Some((name, _)) if !string.cmp(name).is_lt() => gap = n.saturating_add(1),
            _ => return gap,
        }
    }
    gap
}

/// Strings that are handed in, by gaps: each name begins one, which has all strings up to the next
/// name; before them is one that has those below all names.
#[derive(Drop)]
struct Gaps {
    gaps: Flags,
}

impl Gaps {
    /// All if there are at most `most` names, or none.
    fn of(alloc: Global, names: &LargeNames, most: usize) -> Result<Gaps, AllocError> {
        let gaps = names.len().saturating_add(1);
        Ok(Gaps {
            gaps: Flags::of(alloc, gaps, names.len() <= most, most)?,
        })
    }

    /// Hands in a page of gaps from that of a string on; true if one is new.
    fn learn_from(&mut self, names: &LargeNames, string: &[u8], page: usize) -> bool {
        let first = gap_of(names, string);
        let mut is_new = false;
        for n in 0..page {
            if self.gaps.learn(first.saturating_add(n)) {
                is_new = true;
            }
        }
        is_new
    }

    /// True if a gap is handed in, and the one before isn't.
    fn begins(&self, gap: usize) -> bool {
        self.gaps.has(gap)
            && match gap.checked_sub(1) {
                Some(before) => !self.gaps.has(before),
                None => true,
            }
    }

    /// Intervals, each of gaps one after the other, and entries.
    fn put(&self, out: &mut Vec<u8>, names: &LargeNames) -> Result<(), AllocError> {
        let end = names.len().saturating_add(1);
        let mut intervals = 0u64;
        let mut entries = 0u64;
        for gap in 0..end {
            if self.begins(gap) {
                intervals = intervals.saturating_add(1);
            }
            if gap > 0 && self.gaps.has(gap) {
                entries = entries.saturating_add(1);
            }
        }
        put_number(out, intervals, 2)?;
        for gap in 0..end {
            if self.begins(gap) {
                put_text(out, begin_of(names, gap))?;
            }
            let next = gap.saturating_add(1);
            if self.gaps.has(gap) && !self.gaps.has(next) {
                put_text(out, begin_of(names, next))?;
            }
        }
        put_number(out, entries, 2)?;
        for gap in 0..end {
            match entry_of(names, gap) {
                Some((name, value)) if self.gaps.has(gap) => {
                    put_text(out, name)?;
                    put_text(out, value)?;
                }
                _ => {}
            }
        }
        Ok(())
    }
}

/// Adds the low bytes of a number.
fn put_number(out: &mut Vec<u8>, number: u64, length: usize) -> Result<(), AllocError>
    requires { length ≤ 8 }
{
    out.extend_from_slice(&number.to_le_bytes()[..length])
}

/// Adds a text after its length.
fn put_text(out: &mut Vec<u8>, text: &[u8]) -> Result<(), AllocError> {
    put_number(out, text.len() as u64, 2)?;
    out.extend_from_slice(text)
}

/// What was handed in of an object that is there.
#[derive(Drop)]
pub(crate) struct Fetched {
    blocks: Flags,
    xattrs: Gaps,
    keys: Gaps,
}

impl Fetched {
    /// All of the data, of the xattrs and of the keys, each if a part can have it.
    pub(crate) fn of(alloc: Global, object: &LargeObject) -> Result<Fetched, AllocError> {
        let blocks = object.bytes().len().div_ceil(BLOCK as usize);
        let most = BLOCK_LIMIT as usize;
        Ok(Fetched {
            blocks: Flags::of(alloc, blocks, blocks <= most, most)?,
            xattrs: Gaps::of(alloc, object.xattrs(), XATTR_LIMIT)?,
            keys: Gaps::of(alloc, object.keys(), KEY_LIMIT)?,
        })
    }

    fn learn_blocks(&mut self, first: u64, count: u8) -> bool {
        let mut is_new = false;
        for n in 0..count {
            if self
                .blocks
                .learn((first as usize).saturating_add(usize::from(n)))
            {
                is_new = true;
            }
        }
        is_new
    }

    /// Hands in what is needed too; true if something is new.
    #[rattlefmt::skip]
    pub(crate) fn learn(&mut self, object: &LargeObject, need: &Need) -> bool {
        match need {
            Need::Blocks { first, count } => self.learn_blocks(*first, *count),
            Need::Xattr(name)        => self.xattrs.learn_from(object.xattrs(), name.as_slice(), 1),
            Need::Key(name)          => self.keys.learn_from(object.keys(), name.as_slice(), 1),
            Need::XattrFrom(place)   => self.xattrs.learn_from(object.xattrs(), place.as_slice(), PAGE),
            Need::KeyFrom(place)     => self.keys.learn_from(object.keys(), place.as_slice(), PAGE),
        }
    }

    /// Blocks after their count.
    fn put_blocks(&self, out: &mut Vec<u8>, object: &LargeObject) -> Result<(), AllocError> {
        put_number(out, self.blocks.count as u64, 4)?;
        for (number, known) in self.blocks.known.iter().enumerate() {
            if *known {
                let at = (number as u64).saturating_mul(BLOCK);
                put_number(out, number as u64, 8)?;
                out.extend_from_slice(part(object.bytes(), at, BLOCK))?;
            }
        }
        Ok(())
    }

    /// The spelling of the part that says it.
    pub(crate) fn part(&self, alloc: Global, object: &LargeObject) -> Result<Vec<u8>, AllocError> {
        let mut out = Vec::new(alloc);
        out.push(1)?;
        put_number(&mut out, object.bytes().len() as u64, 8)?;
        self.put_blocks(&mut out, object)?;
        self.xattrs.put(&mut out, object.xattrs())?;
        self.keys.put(&mut out, object.keys())?;
        Ok(out)
    }
}

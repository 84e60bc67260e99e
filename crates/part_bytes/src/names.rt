//! The names of a part: intervals of the xattrs or of the keys, and the entries in them.

ghost use Rattle.std.specs.Prelude.{◌≡◌, IsTrue, map, ◌∷◌, [], ◌↔◌};
ghost use Rattle.std.specs.Option.{option_copied};
ghost use Rattle.part_bytes.specs.Part.{after_interval, after_entry, Everything};
ghost use Rattle.part_bytes.specs.View.{interval_view, entry_view, names_view};
ghost use Rattle.part_bytes.specs.inner.Reading.{Reads, Gives, is_begin, is_end_of, is_interval, interval_at};
ghost use Rattle.part_bytes.specs.inner.Reading.{intervals_at, is_entry, entry_at, entries_at, in_turn, past};
ghost use Rattle.part_bytes.specs.inner.Reading.{is_begun, covers, names_at};

use crate::fields::{count_at_2, is_below, pair_at};
use crate::limits::{INTERVAL_LIMIT, PLACE_LIMIT};
use crate::part_error::PartError;
use object_store::{NAME_LIMIT, VALUE_LIMIT};
use std::alloc::Global;

/// An interval of names, from `low` to below `high`, by bytes; to the end if `high` is empty.
#[derive(Clone, Copy)]
pub struct Interval<'a> {
    pub low: &'a [u8],
    pub high: &'a [u8],
}

/// A name and its value.
#[derive(Clone, Copy)]
pub struct NamedValue<'a> {
    pub name: &'a [u8],
    pub value: &'a [u8],
}

/// What is known of the xattrs, or of the keys: in the intervals, the entries and no other name.
#[derive(Drop)]
pub struct Names<'a> {
    pub intervals: Vec<Interval<'a>>,
    pub entries: Vec<NamedValue<'a>>,
}

impl Names<'_> {
    /// True if every name is known: there is one interval, from the empty name to the end.
    pub fn are_all_known(&self) -> bool
        ensures { IsTrue result ↔ ((names_view self.now).intervals ≡ Everything) }
    {
        match self.intervals.as_slice() {
            [only] => only.low.is_empty() && only.high.is_empty(),
            _ => false,
        }
    }
}

/// True if `high` is an interval's end above that place.
fn is_end_of(place: &[u8], high: &[u8]) -> bool
    ensures { result ≡ is_end_of place.now high.now }
{
    high.is_empty() || is_below(place, high)
}

/// True if an interval may begin there, after one that has this end.
fn is_begin(before: Option<&[u8]>, low: &[u8]) -> bool
    ensures { result ≡ is_begin (option_copied before.entry) low.now }
{
    match before {
        None => true,
        Some(end) => !end.is_empty() && is_below(end, low),
    }
}

fn is_interval(before: Option<&[u8]>, interval: Interval) -> bool
    ensures { result ≡ is_interval (option_copied before.entry) (interval_view interval.entry) }
{
    interval.low.len() <= PLACE_LIMIT
        && interval.high.len() <= PLACE_LIMIT
        && is_end_of(interval.low, interval.high)
        && is_begin(before, interval.low)
}

#[tactic(auto, unfolding(crate::specs::inner::Reading::interval_at))]
fn interval_at<'a>(before: Option<&[u8]>, bytes: &'a [u8]) -> Option<(Interval<'a>, &'a [u8])>
    ensures { Reads (λ x. (interval_view x.0, x.1.now)) result (interval_at (option_copied before.entry) bytes.now) }
{
    let ((low, high), rest) = pair_at(bytes)?;
    let interval = Interval { low, high };
    if !is_interval(before, interval) {
        return None;
    }
    Some((interval, rest))
}

/// `count` intervals, in order.
fn intervals_in_turn(
    alloc: Global,
    count: u16,
    bytes: &[u8],
) -> Result<(Vec<Interval>, &[u8]), PartError>
    ensures { Gives (λ x. (map interval_view x.0.items, x.1.now)) result
        (in_turn interval_at after_interval None count bytes.now) }
{
    let mut intervals = Vec::new(alloc);
    let mut before = None;
    let mut rest = bytes;
    let mut left = count;
    while left > 0 {
        let Some((interval, behind)) = interval_at(before, rest) else {
            return Err(PartError::NoPart);
        };
        intervals.push(interval)?;
        before = Some(interval.high);
        rest = behind;
        left -= 1;
    }
    Ok((intervals, rest))
}

/// Intervals after their count.
fn intervals_at(alloc: Global, bytes: &[u8]) -> Result<(Vec<Interval>, &[u8]), PartError>
    ensures { Gives (λ x. (map interval_view x.0.items, x.1.now)) result (intervals_at bytes.now) }
{
    let (count, rest) = count_at_2(INTERVAL_LIMIT, bytes).ok_or(PartError::NoPart)?;
    intervals_in_turn(alloc, count, rest)
}

fn is_entry(before: &[u8], entry: NamedValue) -> bool
    ensures { result ≡ is_entry before.now (entry_view entry.entry) }
{
    is_below(before, entry.name)
        && entry.name.len() <= NAME_LIMIT
        && entry.value.len() <= VALUE_LIMIT
}

#[tactic(auto, unfolding(crate::specs::inner::Reading::entry_at))]
fn entry_at<'a>(before: &[u8], bytes: &'a [u8]) -> Option<(NamedValue<'a>, &'a [u8])>
    ensures { Reads (λ x. (entry_view x.0, x.1.now)) result (entry_at before.now bytes.now) }
{
    let ((name, value), rest) = pair_at(bytes)?;
    let entry = NamedValue { name, value };
    if !is_entry(before, entry) {
        return None;
    }
    Some((entry, rest))
}

/// `count` entries, whose names rise.
fn entries_in_turn(
    alloc: Global,
    count: u16,
    bytes: &[u8],
) -> Result<(Vec<NamedValue>, &[u8]), PartError>
    ensures { Gives (λ x. (map entry_view x.0.items, x.1.now)) result
        (in_turn entry_at after_entry [] count bytes.now) }
{
    let mut entries = Vec::new(alloc);
    let mut before: &[u8] = &[];
    let mut rest = bytes;
    let mut left = count;
    while left > 0 {
        let Some((entry, behind)) = entry_at(before, rest) else {
            return Err(PartError::NoPart);
        };
        entries.push(entry)?;
        before = entry.name;
        rest = behind;
        left -= 1;
    }
    Ok((entries, rest))
}

/// Entries after their count, which is at most `most`.
fn entries_at(alloc: Global, most: u16, bytes: &[u8]) -> Result<(Vec<NamedValue>, &[u8]), PartError>
    ensures { Gives (λ x. (map entry_view x.0.items, x.1.now)) result (entries_at most bytes.now) }
{
    let (count, rest) = count_at_2(most, bytes).ok_or(PartError::NoPart)?;
    entries_in_turn(alloc, count, rest)
}

/// The intervals from the first on that doesn't end at the name or below it.
pub fn past<'a, 'b>(name: &[u8], intervals: &'b [Interval<'a>]) -> &'b [Interval<'a>]
    ensures { map interval_view result.now ≡ past name.now (map interval_view intervals.now) }
{
    for (n, interval) in intervals.iter().enumerate() {
        if is_end_of(name, interval.high) {
            return &intervals[n..];
        }
    }
    &[]
}

/// True if the first interval begins at the name or below it.
pub fn is_begun(name: &[u8], intervals: &[Interval]) -> bool
    ensures { result ≡ is_begun name.now (map interval_view intervals.now) }
{
    match intervals.first() {
        None => false,
        Some(first) => !is_below(name, first.low),
    }
}

/// True if each entry is in one of the intervals. Both are in order, so each is looked at once.
fn covers(intervals: &[Interval], entries: &[NamedValue]) -> bool
    ensures { result ≡ covers (map interval_view intervals.now) (map entry_view entries.now) }
{
    let mut left = intervals;
    for entry in entries {
        left = past(entry.name, left);
        if !is_begun(entry.name, left) {
            return false;
        }
    }
    true
}

/// Intervals, and entries in them, of which there are at most `most`.
#[tactic(auto, unfolding(crate::specs::inner::Reading::names_at))]
pub(crate) fn names_at(alloc: Global, most: u16, bytes: &[u8]) -> Result<(Names, &[u8]), PartError>
    ensures { Gives (λ x. ((map interval_view x.0.intervals.items, map entry_view x.0.entries.items), x.1.now)) result
        (names_at most bytes.now) }
{
    let (intervals, rest) = intervals_at(alloc, bytes)?;
    let (entries, rest) = entries_at(alloc, most, rest)?;
    if !covers(&intervals, &entries) {
        return Err(PartError::NoPart);
    }
    Ok((Names { intervals, entries }, rest))
}

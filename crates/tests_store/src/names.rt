//! Names of which only some are known: what is told of a name, and of the least above some bytes. Where
//! memory is refused, the call is made again, and gives the same.

ghost use Rattle.std.specs.Prelude.{IsTrue};
ghost use Rattle.object_store.specs.Calls.{is_named};

use Seen::{Gap, Gone, Is, Unknown};
use Step::{Clear, Count, Enter, Get, Hold, Next, Remove, Set};
use object_store::NAME_LIMIT;
use part_names::{Above, Known, PartNames, SetError};
use std::alloc::Global;
use std::process::Abort;

/// What is told: the value, or the name; that there is none; that it isn't known; and the first
/// place where it isn't.
#[derive(Clone, Copy)]
enum Seen {
    Is(&'static [u8]),
    Gone,
    Unknown,
    Gap(&'static [u8]),
}

/// A call, and what it has to give: if it may be learned or is there, if there is room, what is seen,
/// if all is known and how many entries there are.
#[derive(Clone, Copy)]
enum Step {
    Hold(&'static [u8], Option<&'static [u8]>, bool),
    Enter(&'static [u8], bool),
    Set(&'static [u8], bool),
    Remove(&'static [u8], bool),
    Clear,
    Get(&'static [u8], Seen),
    Next(&'static [u8], Seen),
    Count(bool, usize),
}

/// The most entries of each row.
const MOST: usize = 3;

/// The value of each entry.
const VALUE: &[u8] = b"v";

const LONGEST: &[u8] = b"dddddddddddddddddddddddddddddddddddddddddddddddddddddddddddddddd";

const ABOVE_LONGEST: &[u8] = b"dddddddddddddddddddddddddddddddddddddddddddddddddddddddddddddddd\0";

#[rattlefmt::skip]
static ROWS: [&[Step]; 12] = [
    &[Set(b"a", true), Get(b"a", Is(VALUE)), Get(b"b", Unknown)],
    &[Set(b"k", true), Remove(b"k", true), Get(b"k", Unknown), Remove(b"k", false), Count(false, 0)],
    &[Hold(b"k", Some(b"k\0"), true), Get(b"k", Gone), Get(b"k\0", Unknown), Get(b"j", Unknown)],
    &[Hold(b"", Some(b"b\0"), true), Enter(b"b", true), Next(b"", Is(b"b")), Next(b"b", Gap(b"b\0"))],
    &[Set(b"m", true), Next(b"a", Gap(b"a\0")), Next(b"", Gap(b""))],
    &[Hold(b"", Some(b"c\0"), true), Enter(b"b", true), Enter(b"c", true), Remove(b"b", true),
      Remove(b"c", true), Get(b"c", Gone), Next(b"", Gap(b"c\0"))],
    &[Next(LONGEST, Gap(ABOVE_LONGEST))],
    &[Hold(b"b", Some(b"b\0"), true), Hold(b"c", Some(b"c\0"), true), Hold(b"d", Some(b"d\0"), true),
      Enter(b"c", true), Next(b"", Gap(b"")), Next(b"b", Gap(b"b\0")), Get(b"b", Gone), Get(b"c", Is(VALUE)),
      Get(b"d", Gone)],
    &[Set(b"a", true), Set(b"a\0", true), Next(b"a", Is(b"a\0")), Clear, Next(b"", Gone), Get(b"a", Gone),
      Count(true, 0)],
    &[Set(b"a", true), Set(b"b", true), Set(b"c", true), Set(b"d", false), Set(b"b", true), Count(false, 3),
      Remove(b"a", true), Set(b"d", true)],
    &[Hold(b"b", Some(b"b"), false), Hold(b"", None, true), Hold(b"c", None, false), Enter(b"b", true),
      Enter(b"b", false), Enter(b"", false), Count(true, 1), Next(b"b", Gone), Next(b"", Is(b"b"))],
    &[Hold(b"a", Some(b"b"), true), Hold(b"b", Some(b"c"), false), Hold(b"", Some(b"c"), false),
      Hold(b"c", Some(ABOVE_LONGEST), true), Enter(b"b", false), Next(b"c", Gap(ABOVE_LONGEST)),
      Hold(b"e", None, true)],
];

/// True if that is told of a name.
fn is_told(names: &PartNames, name: &[u8], seen: Seen) -> bool {
    match (names.get(name), seen) {
        (Known::Value(value), Is(wanted)) => value == wanted && names.is_known(name),
        (Known::Absent, Gone) => names.is_known(name),
        (Known::Unknown, Unknown) => !names.is_known(name),
        _ => false,
    }
}

/// True if that is told of the least name above some bytes.
fn is_next(names: &PartNames, bytes: &[u8], seen: Seen) -> bool {
    if bytes.len() > NAME_LIMIT {
        return false;
    }
    match (names.above(bytes), seen) {
        (Above::Name(name), Is(wanted)) => name == wanted,
        (Above::Absent, Gone) => true,
        (Above::Unknown(place), Gap(wanted)) => place.bytes() == wanted,
        _ => false,
    }
}

fn hold<R: Abort>(
    rt: &R,
    alloc: Global,
    names: &mut PartNames,
    lo: &[u8],
    hi: Option<&[u8]>,
) -> bool {
    let may = names.may_learn_interval(lo, hi);
    if may && names.learn_interval(alloc, lo, hi).is_err() {
        names.learn_interval(alloc, lo, hi).expect(rt, "memory");
    }
    may
}

fn enter<R: Abort>(rt: &R, alloc: Global, names: &mut PartNames, name: &[u8]) -> bool {
    let may = names.may_learn_entry(name, VALUE);
    if may && names.learn_entry(alloc, name, VALUE).is_err() {
        names.learn_entry(alloc, name, VALUE).expect(rt, "memory");
    }
    may
}

/// Gives a name the value, and makes the call again if memory was refused.
fn set_again(alloc: Global, names: &mut PartNames, name: &[u8]) -> Result<(), SetError>
    requires { IsTrue (is_named name.now) }
{
    match names.set(alloc, name, VALUE) {
        Err(SetError::NoMemory) => names.set(alloc, name, VALUE),
        answer => answer,
    }
}

fn set(alloc: Global, names: &mut PartNames, name: &[u8], room: bool) -> bool {
    if name.is_empty() || name.len() > NAME_LIMIT {
        return false;
    }
    match set_again(alloc, names, name) {
        Ok(()) => room,
        Err(error) => !room && error == SetError::Full,
    }
}

fn remove<R: Abort>(rt: &R, alloc: Global, names: &mut PartNames, name: &[u8]) -> bool {
    let there = match names.get(name) {
        Known::Value(_) => true,
        _ => false,
    };
    if there && names.remove(alloc, name).is_err() {
        names.remove(alloc, name).expect(rt, "memory");
    }
    there
}

/// True if a call gives what it has to.
fn is_right<R: Abort>(rt: &R, alloc: Global, names: &mut PartNames, step: Step) -> bool {
    match step {
        Hold(lo, hi, may) => hold(rt, alloc, names, lo, hi) == may,
        Enter(name, may) => enter(rt, alloc, names, name) == may,
        Set(name, room) => set(alloc, names, name, room),
        Remove(name, there) => remove(rt, alloc, names, name) == there,
        Clear => {
            names.clear();
            true
        }
        Get(name, seen) => is_told(names, name, seen),
        Next(bytes, seen) => is_next(names, bytes, seen),
        Count(whole, count) => names.is_whole() == whole && names.count() == count,
    }
}

#[test]
fn names(rt: HostRuntime) {
    for row in &ROWS {
        let mut names = PartNames::unknown(rt.alloc(), MOST);
        for step in *row {
            assert!(rt; is_right(&rt, rt.alloc(), &mut names, *step));
        }
    }
    assert!(rt; PartNames::all_known(rt.alloc(), MOST).is_whole());
}

//! Rows of `call`, `Room::call_listed` and `Room::call`, 3 NoMemory, and of `ClassTable::add`, 2 NoMemory.

use crate::ending::Ending;
use crate::made::class_of;
use crate::store::{object_of, same};
use interp::{CallError, ClassTable, Outcome, Room, TableError, call};
use object_store::Object;
use std::alloc::Global;
use verifier::VerifiedClass;

/// Calls each helper that takes memory, on the input `abcdefgh`: writes it at 4,092, cuts the data
/// at 4,100, sets the xattrs `a` and `abcd`, sets the keys `ab` and `abc`, takes `a` and `ab` away,
/// and reads from 4,094 what is there.
const EVERY: &str = ".method every rw 8 8\nmov r6, r1\nmov r7, r3\nmov r1, 0\ncall 14\n\
    mov r1, 4092\nmov r2, r6\nmov r3, 8\ncall 3\n\
    mov r1, 4100\ncall 4\n\
    mov r1, r6\nmov r2, 1\nmov r3, r6\nmov r4, 8\ncall 7\n\
    mov r1, r6\nmov r2, 4\nmov r3, r6\nmov r4, 1\ncall 7\n\
    mov r1, r6\nmov r2, 2\nmov r3, r6\nmov r4, 8\ncall 10\n\
    mov r1, r6\nmov r2, 3\nmov r3, r6\nmov r4, 4\ncall 10\n\
    mov r1, r6\nmov r2, 1\ncall 8\n\
    mov r1, r6\nmov r2, 2\ncall 11\n\
    mov r1, 4094\nmov r2, r7\nmov r3, 8\ncall 2\n\
    mov r8, r0\nmov r1, 8\ncall 13\n\
    mov r0, r8\nexit\n";

/// True if the object after holds what the method makes of that of 4,200 bytes.
fn is_made(after: &Object) -> bool {
    let mut bytes = [0u8; 9];
    after.read(4092, &mut bytes) == 8
        && &bytes == b"abcdefgh\0"
        && after.len() == 4100
        && after.xattr(b"a").is_none()
        && after.xattr(b"abcd") == Some(b"a".as_slice())
        && after.key(b"ab").is_none()
        && after.key(b"abc") == Some(b"abcd".as_slice())
        && after.xattr_count() == 3
        && after.key_count() == 4
}

/// True if the outcome is 6 bytes read, and that change of the object.
fn is_outcome(outcome: &Outcome, object: &Object) -> bool {
    let is_changed = match outcome.change.after() {
        None => false,
        Some(after) => is_made(after),
    };
    outcome.code == 6
        && outcome.output.as_slice() == b"cdefgh\0\0".as_slice()
        && outcome.steps == 45
        && is_changed
        && same(outcome.change.before(), Some(object))
}

fn every(alloc: Global, class: &VerifiedClass, object: &Object, before: &Object) -> Ending {
    match call(alloc, class, "every", Some(object), 7, b"abcdefgh") {
        Ok(outcome) => Ending::of(is_outcome(&outcome, before)),
        Err(error) => {
            let is_named = error == CallError::NoMemory && error.number() == 3;
            Ending::refused(is_named && same(Some(object), Some(before)))
        }
    }
}

/// `call`.
pub fn called(alloc: Global) -> Option<Ending> {
    let class = class_of(alloc, EVERY)?;
    let object = object_of(alloc)?;
    let before = object_of(alloc)?;
    Some(every(alloc, &class, &object, &before))
}

/// The edits that the method leaves.
const EDITS: &[u8] = b"\x08\xfc\x0f\0\0\0\0\0\0\x08\0\0\0abcdefgh\x07\x04\x10\0\0\0\0\0\0\
\x03\x01\0a\x08\0abcdefgh\x03\x04\0abcd\x01\0a\x05\x02\0ab\x08\0abcdefgh\x05\x03\0abc\x04\0abcd\
\x04\x01\0a\x06\x02\0ab";

fn every_listed(alloc: Global, class: &VerifiedClass, object: &Object, before: &Object) -> Ending {
    match Room::new(alloc).call_listed(class, "every", Some(object), 7, b"abcdefgh") {
        Ok(answer) => {
            let is_list = answer.edits.as_slice() == EDITS;
            Ending::of(is_list && is_outcome(&answer.outcome, before))
        }
        Err(error) => {
            let is_named = error == CallError::NoMemory && error.number() == 3;
            Ending::refused(is_named && same(Some(object), Some(before)))
        }
    }
}

/// `Room::call_listed`.
pub fn called_listed(alloc: Global) -> Option<Ending> {
    let class = class_of(alloc, EVERY)?;
    let object = object_of(alloc)?;
    let before = object_of(alloc)?;
    Some(every_listed(alloc, &class, &object, &before))
}

/// `mov r0, 0`, `exit`, with the greatest regions: the room holds 131,582 bytes.
const GREATEST: &str = ".rules 3\n.method f r 65535 65535\nmov r0, 0\nexit\n";

fn in_room(room: &mut Room, class: &VerifiedClass) -> Ending {
    match room.call(class, "f", None, 7, &[]) {
        Ok(outcome) => Ending::of(outcome.code == 0 && outcome.steps == 2),
        Err(error) => Ending::refused(error == CallError::NoMemory),
    }
}

/// `Room::call`, twice: one that has no output and changes nothing takes no memory where the room
/// has held as much before, so the second isn't refused.
pub fn called_in_room(alloc: Global) -> Option<Ending> {
    let class = class_of(alloc, GREATEST)?;
    let mut room = Room::new(alloc);
    let first = in_room(&mut room, &class);
    Some(first.then(Some(in_room(&mut room, &class))))
}

/// `mov r0, 0`, `exit`.
const SHORT: &str = ".method f r 0 0\nmov r0, 0\nexit\n";

/// The classes of the table before, as many as its first room has.
const BEFORE: usize = 4;

/// A table of some classes.
fn table(alloc: Global) -> Option<ClassTable> {
    let mut table = ClassTable::new(alloc);
    for _ in 0..BEFORE {
        table.add(class_of(alloc, SHORT)?).ok()?;
    }
    Some(table)
}

/// True if there are that many classes, each with that method.
fn has(table: &ClassTable, count: usize) -> bool {
    for id in 0..count {
        let is_there = match table.get(id) {
            None => false,
            Some(class) => class.method("f").is_some(),
        };
        if !is_there {
            return false;
        }
    }
    table.len() == count
}

fn add(table: &mut ClassTable, class: VerifiedClass) -> Ending {
    match table.add(class) {
        Ok(id) => Ending::of(id == BEFORE && has(table, BEFORE + 1)),
        Err(error) => {
            let is_named = error == TableError::NoMemory && error.number() == 2;
            Ending::refused(is_named && has(table, BEFORE))
        }
    }
}

/// `ClassTable::add`.
pub fn added(alloc: Global) -> Option<Ending> {
    let mut table = table(alloc)?;
    Some(match add(&mut table, class_of(alloc, SHORT)?) {
        Ending::Refused => Ending::Refused.then(Some(add(&mut table, class_of(alloc, SHORT)?))),
        ending => ending,
    })
}

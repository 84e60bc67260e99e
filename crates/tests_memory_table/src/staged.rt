//! Rows of `Staged`, whose word for want of memory is its `StoreError`'s, 7; and of `apply` and
//! `undo`: NoMemory.

use crate::ending::Ending;
use crate::made::names_of;
use crate::store::{NAMES, object_of, objects_of, same};
use object_store::{Object, ObjectName, Objects, StoreError};
use std::alloc::Global;
use txn::{Change, NoMemory, Staged, apply, undo};

/// A call of `Staged` that changes what it has staged.
#[derive(Clone, Copy)]
pub enum Step {
    Write,
    Truncate,
    SetXattr,
    RemoveXattr,
    SetKey,
    RemoveKey,
}

fn make(staged: &mut Staged, alloc: Global, step: Step) -> Result<(), StoreError> {
    match step {
        Step::Write => staged.write(alloc, 4090, b"over an end"),
        Step::Truncate => staged.truncate(alloc, 4098),
        Step::SetXattr => staged.set_xattr(alloc, b"z", b"three"),
        Step::RemoveXattr => staged.remove_xattr(alloc, b"x"),
        Step::SetKey => staged.set_key(alloc, b"n", b"four"),
        Step::RemoveKey => staged.remove_key(alloc, b"l"),
    }
}

/// True if the object is what the step makes of that of 4,200 bytes.
fn is_stepped(object: &Object, step: Step) -> bool {
    let mut bytes = [0u8; 13];
    match step {
        Step::Write => object.read(4089, &mut bytes) == 13 && &bytes == b"aover an enda",
        Step::Truncate => object.len() == 4098,
        Step::SetXattr => object.xattr(b"z") == Some(b"three".as_slice()),
        Step::RemoveXattr => object.xattr(b"x").is_none() && object.xattr_count() == 1,
        Step::SetKey => object.key(b"n") == Some(b"four".as_slice()),
        Step::RemoveKey => object.key(b"l").is_none() && object.key_count() == 2,
    }
}

fn step_end(staged: &mut Staged, alloc: Global, base: &Object, wanted: Step) -> Ending {
    match make(staged, alloc, wanted) {
        Ok(()) => match staged.object() {
            Some(object) => Ending::of(is_stepped(object, wanted)),
            None => Ending::Differs,
        },
        Err(error) => {
            let is_named = error == StoreError::NoMemory && error.number() == 7;
            Ending::refused(is_named && same(staged.object(), Some(base)))
        }
    }
}

/// True if finishing gives the change from the base to what the step makes. It takes no memory.
fn finishes(staged: Staged, base: &Object, step: Step) -> bool {
    match staged.finish() {
        Err(_) => false,
        Ok(change) => match change.after() {
            None => false,
            Some(after) => is_stepped(after, step) && same(change.before(), Some(base)),
        },
    }
}

/// A call of `Staged`, and `finish`.
pub fn stepped(alloc: Global, wanted: Step) -> Option<Ending> {
    let base = object_of(alloc)?;
    let mut staged = Staged::over(Some(&base));
    let ending = match step_end(&mut staged, alloc, &base, wanted) {
        Ending::Refused => Ending::Refused.then(Some(step_end(&mut staged, alloc, &base, wanted))),
        ending => ending,
    };
    Some(if finishes(staged, &base, wanted) {
        ending
    } else {
        Ending::Differs
    })
}

/// A change of objects that takes one away, done or undone.
#[derive(Clone, Copy)]
pub enum Turn {
    Apply,
    Undo,
}

/// Takes the object of that name away, or puts it back.
fn take_or_put(
    alloc: Global,
    turn: Turn,
    objects: &mut Objects,
    name: &ObjectName,
    object: &Object,
) -> Result<(), NoMemory> {
    match turn {
        Turn::Apply => {
            let change = Change::of(objects.get(name), None)?;
            apply(alloc, objects, name, &change)
        }
        Turn::Undo => {
            let change = Change::of(Some(object), None)?;
            undo(alloc, objects, name, &change)
        }
    }
}

/// Objects of those names, and the same without the third.
#[derive(Drop)]
struct Pair {
    names: Vec<ObjectName>,
    whole: Objects,
    without: Objects,
}

impl Pair {
    fn of(alloc: Global) -> Option<Pair> {
        let names = names_of(alloc, &NAMES)?;
        let whole = objects_of(alloc, &names)?;
        let mut without = whole.copy().ok()?;
        without.remove(alloc, names.get(2)?).ok()?;
        Some(Pair {
            names,
            whole,
            without,
        })
    }

    /// The objects before, and those after.
    fn sides(&self, turn: Turn) -> (&Objects, &Objects) {
        match turn {
            Turn::Apply => (&self.whole, &self.without),
            Turn::Undo => (&self.without, &self.whole),
        }
    }

    fn end(&self, alloc: Global, wanted: Turn, objects: &mut Objects) -> Ending {
        let (before, after) = self.sides(wanted);
        let Some(name) = self.names.get(2) else {
            return Ending::Differs;
        };
        let Some(object) = self.whole.get(name) else {
            return Ending::Differs;
        };
        match take_or_put(alloc, wanted, objects, name, object) {
            Ok(()) => Ending::of(objects.is_same(after)),
            Err(NoMemory) => Ending::refused(objects.is_same(before)),
        }
    }
}

/// `apply` or `undo`.
pub fn turned(alloc: Global, turn: Turn) -> Option<Ending> {
    let pair = Pair::of(alloc)?;
    let mut objects = pair.sides(turn).0.copy().ok()?;
    Some(match pair.end(alloc, turn, &mut objects) {
        Ending::Refused => Ending::Refused.then(Some(pair.end(alloc, turn, &mut objects))),
        ending => ending,
    })
}

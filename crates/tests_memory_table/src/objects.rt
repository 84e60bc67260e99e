//! Rows of objects and their data: 7 NoMemory.

use crate::ending::Ending;
use crate::made::names_of;
use crate::store::{NAMES, object_of, objects_of, same};
use object_store::{Data, DataEdit, DataError, Object, ObjectName, Objects, StoreError, edit_all};
use std::alloc::{AllocError, Global};

/// The end of a refused call.
fn refused(error: StoreError, is_as_before: bool) -> Ending {
    let is_named = error == StoreError::NoMemory && error.number() == 7;
    Ending::refused(is_named && is_as_before)
}

/// `ObjectName::new`.
pub fn named(alloc: Global) -> Ending {
    match ObjectName::new(alloc, "object") {
        Ok(name) => Ending::of(name.text() == "object"),
        Err(error) => refused(error, true),
    }
}

/// A call of `Objects` that changes one.
#[derive(Clone, Copy)]
pub enum Deed {
    Put,
    Store,
    Write,
    Truncate,
    SetXattr,
    SetKey,
    RemoveXattr,
    RemoveKey,
    Create,
    Remove,
}

/// Objects of these names, and a copy of them.
#[derive(Drop)]
struct Trial {
    names: Vec<ObjectName>,
    objects: Objects,
    before: Objects,
}

impl Trial {
    fn of(alloc: Global) -> Option<Trial> {
        let names = names_of(alloc, &NAMES)?;
        let objects = objects_of(alloc, &names)?;
        let before = objects.copy().ok()?;
        Some(Trial {
            names,
            objects,
            before,
        })
    }

    /// Makes the call, of the third object, or of the absent one; `given` is put, or stored.
    fn call(&mut self, alloc: Global, deed: Deed, given: &Object) -> Result<(), StoreError> {
        let [_, _, name, _, _, absent] = self.names.as_slice() else {
            return Err(StoreError::Absent);
        };
        let objects = &mut self.objects;
        match deed {
            Deed::Put => objects.put(alloc, absent, given.copy()?),
            Deed::Store => objects.store(alloc, absent, Some(given)),
            Deed::Write => objects.write(alloc, name, 4090, b"over an end"),
            Deed::Truncate => objects.truncate(alloc, name, 4098),
            Deed::SetXattr => objects.set_xattr(alloc, name, b"z", b"three"),
            Deed::SetKey => objects.set_key(alloc, name, b"n", b"four"),
            Deed::RemoveXattr => objects.remove_xattr(alloc, name, b"x"),
            Deed::RemoveKey => objects.remove_key(alloc, name, b"l"),
            Deed::Create => objects.create(alloc, absent, true),
            Deed::Remove => objects.remove(alloc, name),
        }
    }

    /// True if the object of the call is what it should be, and there are as many as there should
    /// be.
    fn is_done(&self, deed: Deed) -> bool {
        let [_, _, name, _, _, absent] = self.names.as_slice() else {
            return false;
        };
        let objects = &self.objects;
        match deed {
            Deed::Put | Deed::Store => objects.len() == 6 && objects.stat(absent) == Ok(4200),
            Deed::Write => is_written(objects, name),
            Deed::Truncate => objects.stat(name) == Ok(4098),
            Deed::SetXattr => objects.get_xattr(name, b"z") == Ok(b"three".as_slice()),
            Deed::SetKey => objects.get_key(name, b"n") == Ok(b"four".as_slice()),
            Deed::RemoveXattr => objects.get_xattr(name, b"x") == Err(StoreError::NoAttr),
            Deed::RemoveKey => objects.get_key(name, b"l") == Err(StoreError::NoAttr),
            Deed::Create => objects.len() == 6 && objects.stat(absent) == Ok(0),
            Deed::Remove => objects.len() == 4 && objects.stat(name) == Err(StoreError::Absent),
        }
    }

    /// True if the objects but the third are as before, of the five that there were.
    fn are_others_as_before(&self) -> bool {
        for (place, name) in self.names.iter().enumerate() {
            let is_kept = same(self.objects.get(name), self.before.get(name));
            if place != 2 && place != 5 && !is_kept {
                return false;
            }
        }
        true
    }

    fn end(&mut self, alloc: Global, deed: Deed, given: &Object) -> Ending {
        match self.call(alloc, deed, given) {
            Ok(()) => Ending::of(self.is_done(deed) && self.are_others_as_before()),
            Err(error) => refused(error, self.objects.is_same(&self.before)),
        }
    }
}

/// True if an object of 4,200 bytes was written over the end of its first extent.
fn is_written(objects: &Objects, name: &ObjectName) -> bool {
    let mut bytes = [0u8; 13];
    objects.read(name, 4089, &mut bytes) == Ok(13)
        && &bytes == b"aover an enda"
        && objects.stat(name) == Ok(4200)
}

/// A call of `Objects`.
pub fn stored(alloc: Global, deed: Deed) -> Option<Ending> {
    let given = object_of(alloc)?;
    let mut trial = Trial::of(alloc)?;
    Some(match trial.end(alloc, deed, &given) {
        Ending::Refused => Ending::Refused.then(Some(trial.end(alloc, deed, &given))),
        ending => ending,
    })
}

/// A write past the end, a cut, and a write over an end of an extent.
fn edits(alloc: Global) -> Result<Vec<DataEdit>, AllocError> {
    let mut edits = Vec::new(alloc);
    let text = Vec::from_slice(alloc, b"past the end")?;
    edits.push(DataEdit::Write { at: 8190, text })?;
    edits.push(DataEdit::Truncate(8195))?;
    let text = Vec::from_slice(alloc, b"over")?;
    edits.push(DataEdit::Write { at: 4094, text })?;
    Ok(edits)
}

/// True if data are `begun`, 5 bytes.
fn is_begun<D: Data>(data: &D) -> bool {
    let mut bytes = [0u8; 8];
    data.read(0, &mut bytes) == 5 && bytes.starts_with(b"begun")
}

/// True if data are those with the edits made.
fn is_edited<D: Data>(data: &D) -> bool {
    let (mut over, mut past) = ([0u8; 6], [0u8; 8]);
    let has_over = data.read(4093, &mut over) == 6 && &over == b"\0over\0";
    let has_past = data.read(8189, &mut past) == 6 && &past == b"\0past \0\0";
    has_over && has_past && data.len() == 8195
}

fn edits_end<D: Data>(alloc: Global, data: &mut D, edits: &[DataEdit]) -> Ending {
    match edit_all(alloc, data, edits) {
        Ok(()) => Ending::of(is_edited(data)),
        Err(error) => {
            let is_named = error == DataError::NoMemory && error.number() == 7;
            Ending::refused(is_named && is_begun(data))
        }
    }
}

/// `edit_all` of empty data.
pub fn edited<D: Data>(alloc: Global, data: &mut D) -> Option<Ending> {
    data.write(alloc, 0, b"begun").ok()?;
    let edits = edits(alloc).ok()?;
    Some(match edits_end(alloc, data, &edits) {
        Ending::Refused => Ending::Refused.then(Some(edits_end(alloc, data, &edits))),
        ending => ending,
    })
}

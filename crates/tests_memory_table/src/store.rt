//! The objects of the rows, and which are equal.

use object_store::{Object, ObjectName, Objects, StoreError};
use std::alloc::Global;
use txn::Staged;

/// A piece of data. The object's bytes end in it.
const PIECE: [u8; 200] = [0x61; 200];

/// The names, by which a map of four has two levels and more. The last one's object is absent.
pub const NAMES: [&str; 6] = ["a", "b", "c", "d", "e", "f"];

/// An object of 4,200 bytes in two extents, with two xattrs and three keys.
pub fn object_of(alloc: Global) -> Option<Object> {
    let mut staged = Staged::over(None);
    fill(alloc, &mut staged).ok()?;
    staged.finish().ok()?.into_after()
}

fn fill(alloc: Global, staged: &mut Staged<'_>) -> Result<(), StoreError> {
    staged.write(alloc, 4000, &PIECE)?;
    staged.set_xattr(alloc, b"x", b"one")?;
    staged.set_xattr(alloc, b"y", b"two")?;
    staged.set_key(alloc, b"k", b"one")?;
    staged.set_key(alloc, b"l", b"two")?;
    staged.set_key(alloc, b"m", b"three")
}

/// Such an object under each name but the last.
pub fn objects_of(alloc: Global, names: &[ObjectName]) -> Option<Objects> {
    let object = object_of(alloc)?;
    let mut objects = Objects::new();
    put_all(alloc, &mut objects, names, &object).ok()?;
    Some(objects)
}

fn put_all(
    alloc: Global,
    objects: &mut Objects,
    names: &[ObjectName],
    object: &Object,
) -> Result<(), StoreError> {
    for name in names {
        if name.text() != "f" {
            objects.put(alloc, name, object.copy()?)?;
        }
    }
    Ok(())
}

/// True if both are absent, or equal. It takes no memory.
pub fn same(one: Option<&Object>, other: Option<&Object>) -> bool {
    match (one, other) {
        (None, None) => true,
        (Some(one), Some(other)) => one.is_same(other),
        _ => false,
    }
}

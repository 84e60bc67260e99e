//! The effect of a call on its object: staged, applied and undone.

ghost use Rattle.std.specs.Prelude.{◌≡◌};

use crate::objects::named;
use object_store::{ObjectName, Objects, StoreError};
use std::alloc::Global;
use std::process::Abort;
use txn::{Change, Staged, apply, undo};

/// Stages an xattr and a key, each after another that is gone then.
fn stage_names(alloc: Global, staged: &mut Staged, value: &[u8]) -> Result<(), StoreError>
    ensures { staged.new.before ≡ staged.old.before }
{
    staged.set_xattr(alloc, b"gone", value)?;
    staged.set_xattr(alloc, b"n", value)?;
    staged.remove_xattr(alloc, b"gone")?;
    staged.set_key(alloc, b"k", value)?;
    staged.set_key(alloc, b"gone", value)?;
    staged.remove_key(alloc, b"gone")
}

/// Stages a change of each part of an object that is made, or was removed and is made anew.
fn stage(alloc: Global, staged: &mut Staged, value: &[u8]) -> Result<(), StoreError>
    ensures { staged.new.before ≡ staged.old.before }
{
    if staged.remove(alloc).is_err() || staged.create(alloc).is_err() {
        return Err(StoreError::NoMemory);
    }
    staged.write(alloc, 0, b"abcdef")?;
    staged.truncate(alloc, 4)?;
    stage_names(alloc, staged, value)
}

/// Applies such a change to the object of a name.
fn step_on<R: Abort>(
    rt: &R,
    alloc: Global,
    objects: &mut Objects,
    name: &ObjectName,
    value: &[u8],
) -> Change {
    let mut staged = Staged::over(objects.get(name));
    stage(alloc, &mut staged, value).expect(rt, "memory");
    let change = staged.finish().expect(rt, "memory");
    apply(alloc, objects, name, &change).expect(rt, "memory");
    change
}

/// True if the object is there with four bytes, one xattr and one key, both of that value.
fn is_made(objects: &Objects, name: &ObjectName, value: &[u8]) -> bool {
    let mut four = [0xee; 4];
    let right = match objects.get(name) {
        None => false,
        Some(object) => {
            object.read(0, &mut four) == 4
                && object.xattr(b"n") == Some(value)
                && object.key(b"k") == Some(value)
        }
    };
    right && &four == b"abcd" && objects.len() == 1
}

/// Applies such a change and undoes a copy of it. True if the object was so in between.
fn undoes<R: Abort>(
    rt: &R,
    alloc: Global,
    objects: &mut Objects,
    name: &ObjectName,
    value: &[u8],
) -> bool {
    let change = step_on(rt, alloc, objects, name, value);
    let right = is_made(objects, name, value);
    let copy = change.copy();
    drop(change);
    let copy = copy.expect(rt, "memory");
    let done = undo(alloc, objects, name, &copy);
    drop(copy);
    done.expect(rt, "memory");
    right
}

/// True if the change of an absent object and that of one that is there are undone.
fn are_undone<R: Abort>(rt: &R, alloc: Global, objects: &mut Objects, name: &ObjectName) -> bool {
    let absent = undoes(rt, alloc, objects, name, b"1") && objects.len() == 0;
    let change = step_on(rt, alloc, objects, name, b"1");
    drop(change);
    absent && undoes(rt, alloc, objects, name, b"2") && is_made(objects, name, b"1")
}

#[test]
fn undo_restores_what_was(rt: HostRuntime) {
    let alloc = rt.alloc();
    let mut objects = Objects::new();
    let name = named(&rt, alloc, "a");
    let undone = are_undone(&rt, alloc, &mut objects, &name);
    drop(name);
    drop(objects);
    assert!(rt; undone);
}

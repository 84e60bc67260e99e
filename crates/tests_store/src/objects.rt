//! Calls one after another on the object of one name, with answers computed by hand; objects,
//! xattrs and keys in their order; copies.

use StoreError::{Absent, Exists, NoAttr, Range, TooBig};
use object_store::{Object, ObjectName, Objects, StoreError, calls};
use std::alloc::Global;
use std::process::Abort;

/// A value of one byte more than there may be, the longest name, and one of a byte more.
const LONG: &[u8] = &[7; 4097];

const LAST: &[u8] = &[b'n'; 64];

const PAST: &[u8] = &[b'n'; 65];

pub fn named<R: Abort>(rt: &R, alloc: Global, text: &str) -> ObjectName {
    ObjectName::new(alloc, text).expect(rt, "a name")
}

/// True if a read of four bytes leaves these in a buffer of four ones.
fn reads(objects: &Objects, name: &ObjectName, at: u64, want: &[u8; 4]) -> bool {
    let mut buffer = [1; 4];
    objects.read(name, at, &mut buffer).is_ok() && buffer == *want
}

/// True if calls on an absent object are refused, each for the first that applies: a name, a size,
/// the object.
fn are_refused(alloc: Global, objects: &mut Objects, name: &ObjectName) -> bool {
    let mut buffer = [1; 4];
    objects.stat(name) == Err(Absent)
        && objects.read(name, 0, &mut buffer) == Err(Absent)
        && buffer == [1; 4]
        && objects.truncate(alloc, name, 65_537) == Err(TooBig)
        && objects.truncate(alloc, name, 0) == Err(Absent)
        && objects.remove(alloc, name) == Err(Absent)
        && objects.get_xattr(name, PAST) == Err(Range)
        && objects.get_xattr(name, b"x") == Err(Absent)
        && objects.remove_xattr(alloc, name, b"") == Err(Range)
        && objects.remove_key(alloc, name, b"k") == Err(Absent)
        && objects.next_key(name, PAST) == Err(Range)
        && objects.write(alloc, name, 65_537, b"") == Err(TooBig)
        && objects.set_xattr(alloc, name, b"", LONG) == Err(Range)
        && objects.set_key(alloc, name, b"k", LONG) == Err(TooBig)
}

/// True if an object is created by a write of no bytes, and its data is written, cut and read.
fn has_data(alloc: Global, objects: &mut Objects, name: &ObjectName) -> bool {
    objects.write(alloc, name, 65_536, b"") == Ok(())
        && objects.create(alloc, name, true) == Err(Exists)
        && objects.create(alloc, name, false) == Ok(())
        && objects.write(alloc, name, 4_094, b"abcd") == Ok(())
        && objects.stat(name) == Ok(4_098)
        && reads(objects, name, 4_096, b"cd\x01\x01")
        && reads(objects, name, u64::MAX, b"\x01\x01\x01\x01")
        && objects.truncate(alloc, name, 4_095) == Ok(())
        && objects.truncate(alloc, name, 4_098) == Ok(())
        && reads(objects, name, 4_094, b"a\0\0\0")
        && objects.write(alloc, name, 65_535, b"z") == Ok(())
        && objects.write(alloc, name, 65_536, b"z") == Err(TooBig)
}

/// True if an xattr and keys are set, looked up and removed.
fn has_names(alloc: Global, objects: &mut Objects, name: &ObjectName) -> bool {
    objects.set_xattr(alloc, name, LAST, b"one") == Ok(())
        && objects.set_xattr(alloc, name, LAST, b"two") == Ok(())
        && objects.get_xattr(name, LAST) == Ok(b"two".as_slice())
        && objects.remove_xattr(alloc, name, LAST) == Ok(())
        && objects.remove_xattr(alloc, name, LAST) == Err(NoAttr)
        && objects.set_key(alloc, name, b"c", b"C") == Ok(())
        && objects.set_key(alloc, name, b"a", b"A") == Ok(())
        && objects.get_key(name, b"a") == Ok(b"A".as_slice())
        && objects.next_key(name, b"") == Ok(b"a".as_slice())
        && objects.next_key(name, b"b") == Ok(b"c".as_slice())
        && objects.next_key(name, b"c") == Err(NoAttr)
        && objects.remove_key(alloc, name, b"a") == Ok(())
        && objects.next_key(name, b"") == Ok(b"c".as_slice())
}

/// True if a removed object is created anew with nothing in it.
fn is_new(alloc: Global, objects: &mut Objects, name: &ObjectName) -> bool {
    objects.remove(alloc, name) == Ok(())
        && objects.create(alloc, name, true) == Ok(())
        && objects.stat(name) == Ok(0)
        && objects.next_key(name, b"") == Err(NoAttr)
}

#[test]
fn each_call(rt: HostRuntime) {
    let alloc = rt.alloc();
    let mut objects = Objects::new();
    let name = named(&rt, alloc, "a");
    let refused = are_refused(alloc, &mut objects, &name);
    let data = has_data(alloc, &mut objects, &name);
    let names = has_names(alloc, &mut objects, &name) && is_new(alloc, &mut objects, &name);
    drop(name);
    drop(objects);
    assert!(rt; refused && data && names, "{refused} {data} {names}");
}

/// An object `a` of two bytes, two xattrs and two keys, and an object `ab` of nothing.
fn two<R: Abort>(rt: &R, alloc: Global, a: &ObjectName) -> Objects {
    let mut objects = Objects::new();
    let ab = named(rt, alloc, "ab");
    let created = objects.create(alloc, &ab, true);
    drop(ab);
    created.expect(rt, "memory");
    objects.write(alloc, a, 0, b"xy").expect(rt, "memory");
    objects.set_xattr(alloc, a, b"n", b"2").expect(rt, "memory");
    objects.set_xattr(alloc, a, b"m", b"1").expect(rt, "memory");
    objects.set_key(alloc, a, b"l", b"4").expect(rt, "memory");
    objects.set_key(alloc, a, b"k", b"").expect(rt, "memory");
    objects
}

/// True if an entry is there, with that name and that value.
fn is_entry(entry: Option<(&[u8], &[u8])>, name: &[u8], value: &[u8]) -> bool {
    match entry {
        None => false,
        Some((found, its_value)) => found == name && its_value == value,
    }
}

/// True if the xattrs and keys of `a` are listed in their order.
fn are_listed(object: &Object) -> bool {
    is_entry(object.xattr_at(0), b"m", b"1")
        && is_entry(object.xattr_at(1), b"n", b"2")
        && object.xattr_at(2).is_none()
        && is_entry(object.key_at(0), b"k", b"")
        && is_entry(object.key_at(1), b"l", b"4")
        && object.key_at(2).is_none()
}

/// True if the object at a place has that name and `len` bytes.
fn is_at(objects: &Objects, place: usize, name: &[u8], len: usize) -> bool {
    match objects.nth(place) {
        None => false,
        Some((found, object)) => found == name && object.len() == len,
    }
}

/// Gives `a` a key of another value, and puts what it was under `b`.
fn moves<R: Abort>(rt: &R, alloc: Global, objects: &mut Objects, a: &ObjectName, b: &ObjectName) {
    let object = objects.get(a).expect(rt, "an object");
    let changed = calls::set_key(alloc, Some(object), b"k", b"new");
    let object = object.copy().expect(rt, "memory");
    let stored = objects.store(alloc, b, Some(&object));
    drop(object);
    stored.expect(rt, "memory");
    objects
        .put(alloc, a, changed.expect(rt, "memory"))
        .expect(rt, "memory");
}

/// True if two objects are there, and are the same.
fn are_same(one: Option<&Object>, other: Option<&Object>) -> bool {
    match (one, other) {
        (Some(one), Some(other)) => one.is_same(other),
        _ => false,
    }
}

/// Changes the objects. True if a copy made before stays as they were.
fn copy_stays<R: Abort>(rt: &R, alloc: Global, objects: &mut Objects, a: &ObjectName) -> bool {
    let copy = objects.copy().expect(rt, "memory");
    let same = copy.is_same(objects);
    let b = named(rt, alloc, "b");
    moves(rt, alloc, objects, a, &b);
    let stays = are_same(copy.get(a), objects.get(&b)) && !are_same(copy.get(a), objects.get(a));
    drop(b);
    let right = same && stays && !copy.is_same(objects) && copy.len() == 2;
    drop(copy);
    right && is_at(objects, 0, b"a", 2) && is_at(objects, 1, b"ab", 0) && is_at(objects, 2, b"b", 2)
}

#[test]
fn objects_in_order(rt: HostRuntime) {
    let alloc = rt.alloc();
    let a = named(&rt, alloc, "a");
    let mut objects = two(&rt, alloc, &a);
    let listed = match objects.get(&a) {
        None => false,
        Some(object) => are_listed(object) && objects.nth(2).is_none(),
    };
    let stays = copy_stays(&rt, alloc, &mut objects, &a);
    drop(a);
    drop(objects);
    assert!(rt; listed && stays);
}

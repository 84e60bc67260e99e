//! An object at all limits, staged with memory enough: 65,536 bytes, 32 xattrs and 1,024 keys, each
//! with the longest name and value.

use object_store::{DATA_LIMIT, KEY_LIMIT, Object, StoreError, XATTR_LIMIT, calls};
use std::alloc::Global;
use std::process::Abort;
use txn::Staged;

/// A name of 64 bytes whose last two rise with the number.
fn numbered(n: u16) -> [u8; 64] {
    let mut name = [b'k'; 64];
    name[62] = b'A' + (n / 32 % 64) as u8;
    name[63] = b'A' + (n % 32) as u8;
    name
}

/// Sets the key of a number, and while an object may have more xattrs, the xattr too.
fn set_both(alloc: Global, staged: &mut Staged, n: u16) -> Result<(), StoreError> {
    let name = numbered(n);
    if usize::from(n) < XATTR_LIMIT {
        staged.set_xattr(alloc, &name, &[7; 4096])?;
    }
    staged.set_key(alloc, &name, &[7; 4096])
}

fn fill(alloc: Global, staged: &mut Staged) -> Result<(), StoreError> {
    for n in 0..KEY_LIMIT as u16 {
        set_both(alloc, staged, n)?;
    }
    staged.write(alloc, DATA_LIMIT as u64 - 1, b"z")
}

fn full<R: Abort>(rt: &R, alloc: Global) -> Object {
    let mut staged = Staged::over(None);
    fill(alloc, &mut staged).expect(rt, "memory");
    let change = staged.finish().expect(rt, "memory");
    change.into_after().expect(rt, "an object")
}

/// True if a value is there, and is this one.
fn is(found: Option<&[u8]>, value: &[u8]) -> bool {
    match found {
        None => false,
        Some(found) => found == value,
    }
}

/// True if the object has all that, with this value of a name.
fn is_full(object: &Object, name: &[u8], value: &[u8]) -> bool {
    let counts = object.len() == 65_536 && object.xattr_count() == 32 && object.key_count() == 1024;
    counts && is(object.xattr(name), value) && is(object.key(name), value)
}

/// True if one xattr and one key more are too many.
fn refuses_more(alloc: Global, object: &Object) -> bool {
    let xattr = calls::set_xattr(alloc, Some(object), &numbered(32), b"").err();
    let key = calls::set_key(alloc, Some(object), &numbered(1024), b"").err();
    xattr == Some(StoreError::TooMany) && key == Some(StoreError::TooMany)
}

/// True if an xattr and a key that are there may have new values.
fn takes_new<R: Abort>(rt: &R, alloc: Global, object: &Object) -> bool {
    let one = calls::set_xattr(alloc, Some(object), &numbered(5), b"new").expect(rt, "memory");
    let both = calls::set_key(alloc, Some(&one), &numbered(5), b"new").expect(rt, "memory");
    drop(one);
    let right = is_full(&both, &numbered(5), b"new");
    drop(both);
    right
}

#[test]
fn the_largest_object(rt: HostRuntime) {
    let alloc = rt.alloc();
    let object = full(&rt, alloc);
    let refused = refuses_more(alloc, &object) && takes_new(&rt, alloc, &object);
    let right = is_full(&object, &numbered(31), &[7; 4096]);
    drop(object);
    assert!(rt; refused && right);
}

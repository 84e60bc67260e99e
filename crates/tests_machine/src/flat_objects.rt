//! Objects as bytes: flat forms, each read as its object, and bytes that are none.

use object_bytes::{FlatError, flat_form, read_object};
use std::alloc::Global;

/// Data `hi`, an xattr `a` of `v`, a key `k` of no bytes and a key `kk` of `12`.
#[rattlefmt::skip]
const WHOLE: [u8; 27] = [
    1,
    2, 0, 0, 0, 0x68, 0x69,
    1, 0, 1, 0x61, 1, 0, 0x76,
    2, 0, 1, 0x6b, 0, 0, 2, 0x6b, 0x6b, 2, 0, 0x31, 0x32,
];

/// Bytes, and whether an object has them as its flat form.
#[rattlefmt::skip]
const FORMS: [(&[u8], bool); 13] = [
    (&[0], true),
    (&[1, 0, 0, 0, 0, 0, 0, 0, 0], true),
    (&WHOLE, true),
    (&[], false),
    (&[2], false),
    (&[0, 0], false),
    (&[1, 0, 0, 0, 0, 0, 0, 0, 0, 0], false),
    (&[1, 255, 255, 255, 255, 0, 0, 0, 0], false),
    // a name of no bytes, a value that is cut off
    (&[1, 0, 0, 0, 0, 1, 0, 0, 0, 0, 0, 0], false),
    (&[1, 0, 0, 0, 0, 1, 0, 1, 0x61, 1, 0], false),
    // xattrs that fall, keys that stand twice, keys that rise
    (&[1, 0, 0, 0, 0, 2, 0, 1, 0x62, 0, 0, 1, 0x61, 0, 0, 0, 0], false),
    (&[1, 0, 0, 0, 0, 0, 0, 2, 0, 1, 0x61, 0, 0, 1, 0x61, 0, 0], false),
    (&[1, 0, 0, 0, 0, 0, 0, 2, 0, 1, 0x61, 0, 0, 2, 0x61, 0, 0, 0], true),
];

/// True if the bytes are read as an object and written as they were, false if they are no object's
/// flat form; none if another object's were read, or memory was refused.
pub fn is_form(alloc: Global, bytes: &[u8]) -> Option<bool> {
    let object = match read_object(alloc, bytes) {
        Ok(object) => object,
        Err(FlatError::Malformed) => return Some(false),
        Err(FlatError::NoMemory) => return None,
    };
    let form = flat_form(alloc, object.as_ref()).ok()?;
    if form.as_slice() == bytes {
        Some(true)
    } else {
        None
    }
}

#[test]
fn forms(rt: HostRuntime) {
    for (bytes, expected) in &FORMS {
        assert!(rt; is_form(rt.alloc(), bytes) == Some(*expected));
    }
}

/// The object of `WHOLE` has what it says.
#[test]
fn whole(rt: HostRuntime) {
    let object = read_object(rt.alloc(), &WHOLE)
        .expect(&rt, "memory")
        .expect(&rt, "an object");
    assert!(rt; object.len() == 2);
    assert!(rt; object.xattr(b"a") == Some(b"v".as_slice()));
    assert!(rt; object.key(b"kk") == Some(b"12".as_slice()));
    assert!(rt; object.key_count() == 2);
}

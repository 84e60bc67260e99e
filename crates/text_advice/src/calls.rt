//! The helpers' calls, and errors, by their names.

/// The name of a helper, and its arguments in registers from 1 on.
#[rattlefmt::skip]
pub fn call_of(helper: u32) -> Option<(&'static str, &'static str)> {
    match helper {
        1 => Some(("stat", "")),
        2 => Some(("read", "offset, to, room")),
        3 => Some(("write", "offset, bytes, length")),
        4 => Some(("truncate", "length")),
        5 => Some(("remove", "")),
        6 => Some(("getxattr", "name, length, to, room")),
        7 => Some(("setxattr", "name, length, value, length")),
        8 => Some(("rmxattr", "name, length")),
        9 => Some(("map_get", "key, length, to, room")),
        10 => Some(("map_set", "key, length, value, length")),
        11 => Some(("map_rm", "key, length")),
        12 => Some(("map_next", "bytes, length, to, room")),
        13 => Some(("out_len", "length")),
        14 => Some(("create", "exclusive")),
        15 => Some(("caller", "")),
        16 => Some(("compare", "bytes, length, bytes, length")),
        17 => Some(("copy", "to, room, bytes, length")),
        18 => Some(("xattr_next", "bytes, length, to, room")),
        _ => None,
    }
}

/// The names of errors and their numbers, as methods answer them.
#[rattlefmt::skip]
const ERRORS: [(&str, u8); 10] = [
    ("ENOENT", 2), ("EIO", 5), ("ENOMEM", 12), ("EBUSY", 16), ("EEXIST", 17), ("EINVAL", 22), ("EFBIG", 27),
    ("ENOSPC", 28), ("ERANGE", 34), ("ENODATA", 61),
];

/// The number of an error's name, which may have a sign.
pub(crate) fn error_of(name: &str) -> Option<u8> {
    let name = name.strip_prefix("-").unwrap_or(name);
    for (error, number) in &ERRORS {
        if *error == name {
            return Some(*number);
        }
    }
    None
}

/// True if a word is the helper's name.
fn is_helper(id: u32, word: &str) -> bool {
    match call_of(id) {
        Some((name, _)) => name == word,
        None => false,
    }
}

/// The helper of a name, as Ceph has it too.
pub(crate) fn helper_of(name: &str) -> Option<u32> {
    let name = name.strip_prefix("cls_cxx_").unwrap_or(name);
    (1_u32..19).find(|id| is_helper(*id, name))
}

//! The built-in classes as their texts declare them.
use super::words::{is_number, next, see};
use builtin_classes::{OBJ, load_lock, load_obj};
use std::str::SplitWhitespace;
use verifier::{VerifiedClass, VerifiedMethod};

/// The methods as a class's text declares them, each with the number of its instructions.
const LOCK_METHODS: &str = "lock rw 0 0 25
unlock rw 0 0 19";

const OBJ_METHODS: &str = "getxattr r 64 4096 8
read r 16 4096 15
remove rw 0 0 2
setxattr rw 4096 0 18
stat r 0 0 2
write rw 4096 0 10";

/// True if a method is as the words declare it.
fn is_method(method: &VerifiedMethod, words: &mut SplitWhitespace<'_>) -> bool {
    let caps = method.caps();
    next(words) == method.name()
        && (next(words) == "rw") == caps.writes
        && is_number(next(words), u64::from(caps.in_cap))
        && is_number(next(words), u64::from(caps.out_cap))
        && is_number(next(words), method.count() as u64)
}

/// True if a method is as a line declares it.
fn is_declared(method: &VerifiedMethod, line: &str) -> bool {
    let mut words = line.split_whitespace();
    is_method(method, &mut words)
}

/// True if a class has these methods and no more.
fn declares(class: &VerifiedClass, text: &str) -> bool {
    let mut lines = text.lines();
    for method in class.methods() {
        if !is_declared(method, lines.next().unwrap_or("")) {
            return false;
        }
    }
    lines.next().is_none()
}

#[test]
fn loads_each_class(rt: HostRuntime) {
    let (lock, obj) = (load_lock(rt.alloc()), load_obj(rt.alloc()));
    see(
        &rt,
        declares(&lock.expect(&rt, "a class"), LOCK_METHODS),
        "lock",
    );
    see(
        &rt,
        declares(&obj.expect(&rt, "a class"), OBJ_METHODS),
        "obj",
    );
    assert!(rt; OBJ.starts_with(".method getxattr r 64 4096\n"));
}

//! Runs of raw bytes on plain addresses, on the object `z` and the input `abc`.

use bpf_machine::Caps;
use flat_machine::{Ending, Layout, Machine, RunStart, flat_run, is_layout};
use object_store::{Object, calls};
use std::alloc::Global;
use std::process::Abort;

const CAPS: Caps = Caps {
    in_cap: 3,
    out_cap: 8,
    writes: true,
};

/// The stack ends at 2^64 - 1; the regions touch, the stack first; they touch, the stack last, from
/// address 0 on.
const LAYOUTS: [Layout; 3] = [
    Layout {
        input: 0x1000,
        output: 0x2_0000,
        stack: 0xffff_ffff_ffff_fdff,
    },
    Layout {
        input: 0x1200,
        output: 0x1203,
        stack: 0x1000,
    },
    Layout {
        input: 0,
        output: 3,
        stack: 11,
    },
];

/// What comes of a run.
#[derive(Clone, Copy)]
enum Told {
    /// An exit: the returned number, the steps, the output, and the data of the object afterwards.
    Ended(u64, usize, &'static [u8], &'static [u8]),
    /// A state that is no exit and has no step.
    Stuck,
    /// No exit within sixteen steps.
    Unfinished,
}

/// Codes, in hexadecimal digits, and what comes of their runs.
#[rattlefmt::skip]
const RUNS: [(&str, Told); 12] = [
    ("b7000000f3ffffff97000100030000009500000000000000",
        Told::Ended(0xffff_ffff_ffff_ffff, 3, b"", b"z")),
    ("1800000000000000000000000000008037000100ffffffff9500000000000000",
        Told::Ended(0x8000_0000_0000_0000, 3, b"", b"z")),
    ("18000000ffffffff00000000ffffffffb7010000000000009c100000000000009500000000000000",
        Told::Ended(0xffff_ffff, 4, b"", b"z")),
    ("71100100000000007303000000000000b701000001000000850000000d0000009500000000000000",
        Told::Ended(0, 5, b"b", b"z")),
    ("bf12000000000000b701000000000000b70300000300000085000000030000009500000000000000",
        Told::Ended(3, 5, b"", b"abc")),
    ("bf12000000000000b701000000000000b7030000030000008500000003000000b7000000fbffffff9500000000000000",
        Told::Ended(0xffff_ffff_ffff_fffb, 6, b"", b"z")),
    ("7b2a00fe00000000b7000000000000009500000000000000", Told::Ended(0, 3, b"", b"z")),
    ("7b2afcff00000000b7000000000000009500000000000000", Told::Stuck),
    ("bf40000000000000", Told::Stuck),
    ("7201000001000000", Told::Stuck),
    ("b700000000000000", Told::Stuck),
    ("0500ffff00000000", Told::Unfinished),
];

/// True if an object has that data, and no xattrs and no keys.
fn is_object(rt: &impl Abort, alloc: Global, object: &Object, data: &[u8]) -> bool {
    let mut read = Vec::from_elem(alloc, 0u8, object.len()).expect(rt, "memory");
    object.read(0, &mut read);
    read.as_slice() == data && object.xattr_count() == 0 && object.key_count() == 0
}

/// True if an ending is the one that is told.
fn is_told(rt: &impl Abort, alloc: Global, ending: &Ending, told: &Told) -> bool {
    match (ending, told) {
        (Ending::Stuck, Told::Stuck) | (Ending::Unfinished, Told::Unfinished) => true,
        (
            Ending::Ended {
                code,
                output,
                object: Some(object),
                steps,
            },
            Told::Ended(number, count, bytes, data),
        ) => {
            *code == *number
                && *steps == *count
                && output.as_slice() == *bytes
                && is_object(rt, alloc, object, *data)
        }
        _ => false,
    }
}

/// The bytes of hexadecimal digits.
fn bytes(rt: &impl Abort, alloc: Global, digits: &str) -> Vec<u8> {
    hex::decode(alloc, digits).expect(rt, "digits")
}

/// The object with the data `z`.
fn object(rt: &impl Abort, alloc: Global) -> Option<Object> {
    Some(calls::write(alloc, None, 0, b"z").expect(rt, "room"))
}

/// How the run of a code in a layout ends; none if the layout isn't valid.
fn ending(rt: &impl Abort, alloc: Global, layout: Layout, code: &str) -> Option<Ending> {
    let input: &[u8] = b"abc";
    if !is_layout(&CAPS, &layout) || input.len() > usize::from(CAPS.in_cap) {
        return None;
    }
    let machine = Machine::new(CAPS, layout);
    let object = object(rt, alloc);
    let start = RunStart {
        object: object.as_ref(),
        caller: 7,
        input,
    };
    let code = bytes(rt, alloc, code);
    Some(flat_run(alloc, &machine, &code, &start, 16).expect(rt, "memory"))
}

/// True if the run of a code in a layout comes to what is told.
fn runs(rt: &impl Abort, alloc: Global, layout: Layout, code: &str, told: &Told) -> bool {
    match ending(rt, alloc, layout, code) {
        Some(ending) => is_told(rt, alloc, &ending, told),
        None => false,
    }
}

#[test]
fn in_each_layout(rt: HostRuntime) {
    for (code, told) in &RUNS {
        for layout in LAYOUTS {
            assert!(rt; runs(&rt, rt.alloc(), layout, *code, told), "{code}");
        }
    }
}

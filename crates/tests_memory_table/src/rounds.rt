//! The row of `ClassHandle::call_part`: a call by rounds, each of which can be refused memory.

use crate::ending::Ending;
use bpf_asm::assemble_class;
use bpf_decode::write_image;
use class_calls::{ClassHandle, PartCall, PartCallError};
use object_store::{Limits, NameLimits};
use part_bytes::Need;
use std::alloc::Global;

/// On the input `abcdefgh`: it gets the key `ab`, takes the xattr `abc` away, sets the key `abcd`
/// and takes it away, sets the xattr `a`, writes at 4,092, cuts the data at 4,100, asks for the
/// least key, reads from 4,094 what is there, and removes the object and makes it again.
const ROUNDS: &str = ".method rounds rw 8 8\nmov r6, r1\nmov r7, r3\n\
    mov r2, 2\nmov r4, 8\ncall 9\n\
    mov r1, r6\nmov r2, 3\ncall 8\n\
    mov r1, r6\nmov r2, 4\nmov r3, r6\nmov r4, 8\ncall 10\n\
    mov r1, r6\nmov r2, 4\ncall 11\n\
    mov r1, r6\nmov r2, 1\nmov r3, r6\nmov r4, 1\ncall 7\n\
    mov r1, 4092\nmov r2, r6\nmov r3, 8\ncall 3\n\
    mov r1, 4100\ncall 4\n\
    mov r1, r6\nmov r2, 0\nmov r3, r7\nmov r4, 8\ncall 12\n\
    mov r1, 4094\nmov r2, r7\nmov r3, 8\ncall 2\n\
    mov r8, r0\ncall 5\nmov r1, 0\ncall 14\nmov r1, 8\ncall 13\n\
    mov r0, r8\nexit\n";

/// The edits that it leaves.
const EDITS: &[u8] = b"\x04\x03\0abc\x05\x04\0abcd\x08\0abcdefgh\x06\x04\0abcd\x03\x01\0a\x01\0a\
\x08\xfc\x0f\0\0\0\0\0\0\x08\0\0\0abcdefgh\x07\x04\x10\0\0\0\0\0\0\x02\x01";

/// What is known in a round of an object of 5,000 bytes of `a`, the xattr `abc` and the least key
/// `ab`: whether both blocks; xattrs and keys, as a part spells them; and the kind of what is then
/// needed, 0 for nothing.
#[rattlefmt::skip]
const KNOWN: [(bool, &[u8], &[u8], u8); 5] = [
    (false, b"\0\0\0\0", b"\0\0\0\0", 3),
    (false, b"\0\0\0\0", b"\x01\0\x02\0ab\x03\0ab\0\x01\0\x02\0ab\x03\0one", 2),
    (false, b"\x01\0\x03\0abc\x04\0abc\0\x01\0\x03\0abc\0\0",
        b"\x01\0\x02\0ab\x03\0ab\0\x01\0\x02\0ab\x03\0one", 4),
    (false, b"\x01\0\x03\0abc\x04\0abc\0\x01\0\x03\0abc\0\0",
        b"\x01\0\0\0\x03\0ab\0\x01\0\x02\0ab\x03\0one", 1),
    (true, b"\x01\0\x03\0abc\x04\0abc\0\x01\0\x03\0abc\0\0",
        b"\x01\0\0\0\x03\0ab\0\x01\0\x02\0ab\x03\0one", 0),
];

/// The length of the data, in bytes.
const SIZE: u64 = 5000;

/// The spelling of a part with both blocks, or with none, and these names.
fn part(alloc: Global, blocks: bool, xattrs: &[u8], keys: &[u8]) -> Option<Vec<u8>> {
    let mut part = Vec::new(alloc);
    part.push(1).ok()?;
    part.extend_from_slice(&SIZE.to_le_bytes()).ok()?;
    part.extend_from_slice(if blocks { b"\x02\0\0\0" } else { b"\0\0\0\0" })
        .ok()?;
    if blocks {
        part.extend_from_slice(&[0; 8]).ok()?;
        part.extend_from_slice(&[b'a'; 4096]).ok()?;
        part.extend_from_slice(b"\x01\0\0\0\0\0\0\0").ok()?;
        part.extend_from_slice(&[b'a'; 904]).ok()?;
    }
    part.extend_from_slice(xattrs).ok()?;
    part.extend_from_slice(keys).ok()?;
    Some(part)
}

/// True if that is needed: the key `ab`, the xattr `abc`, the least key, or both blocks.
fn is_need(need: &Need, wanted: u8) -> bool {
    match need {
        Need::Blocks { first, count } => wanted == 1 && *first == 0 && *count == 2,
        Need::Xattr(name) => wanted == 2 && name.as_slice() == b"abc".as_slice(),
        Need::Key(name) => wanted == 3 && name.as_slice() == b"ab".as_slice(),
        Need::KeyFrom(place) => wanted == 4 && place.as_slice().is_empty(),
        Need::XattrFrom(_) => false,
    }
}

/// One round.
fn round(alloc: Global, class: &mut ClassHandle, part: &[u8], wanted: u8) -> Ending {
    let names = NameLimits {
        count: None,
        length: 64,
    };
    let request = PartCall {
        method: b"rounds",
        part,
        caller: 7,
        limits: Limits {
            bytes: 1 << 27,
            xattrs: names,
            keys: names,
        },
        input: b"abcdefgh",
    };
    match class.call_part(alloc, request) {
        Ok(answer) => Ending::of(
            wanted == 0
                && answer.code == 6
                && answer.output.as_slice() == b"cdefgh\0\0".as_slice()
                && answer.steps == 44
                && answer.edits.as_slice() == EDITS,
        ),
        Err(PartCallError::Needs(need)) => Ending::of(is_need(&need, wanted)),
        Err(error) => Ending::refused(matches!(error, PartCallError::NoMemory)),
    }
}

/// `ClassHandle::call_part`, in five rounds: of each that is refused memory the same call is made again.
pub fn called_by_rounds(alloc: Global) -> Option<Ending> {
    let image = write_image(alloc, &assemble_class(alloc, ROUNDS).ok()?).ok()?;
    let mut class = ClassHandle::open(alloc, &image).ok()?;
    let mut ending = Ending::Answered;
    for (blocks, xattrs, keys, wanted) in KNOWN {
        let part = part(alloc, blocks, xattrs, keys)?;
        match round(alloc, &mut class, &part, wanted) {
            Ending::Answered => {}
            Ending::Refused => {
                let again = round(alloc, &mut class, &part, wanted);
                ending = Ending::Refused.then(Some(again));
            }
            Ending::Differs => return Some(Ending::Differs),
        }
        if ending == Ending::Differs {
            return Some(ending);
        }
    }
    Some(ending)
}

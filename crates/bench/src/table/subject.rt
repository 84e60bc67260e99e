use super::workload::class_of;
use crate::timing::Work;
use anyhow::Result;
use bpf_decode::RuleSet;
use interp::Room;
use object_store::{DATA_LIMIT, KEY_LIMIT, Object, StoreError, XATTR_LIMIT, calls};
use std::alloc::Global;
use verifier::{VerifiedClass, verify};

/// A call on an object.
#[derive(Clone, Copy, PartialEq, Eq)]
pub enum Subject {
    /// A byte written to 1 KiB, and to 64 KiB.
    WriteShort,
    WriteLong,
    /// A key of 8 bytes set next to one key, and next to 1,023 with values of 4,096 bytes.
    SetFew,
    SetMany,
    /// Eight bytes read without an object, and of one at all limits.
    ReadNone,
    ReadFull,
}

/// The calls on objects that are measured, in the table's order.
pub const SUBJECTS: [Subject; 6] = [
    Subject::WriteShort,
    Subject::WriteLong,
    Subject::SetFew,
    Subject::SetMany,
    Subject::ReadNone,
    Subject::ReadFull,
];

/// `mov r2, r1`, `mov r1, 512`, `mov r3, 1`, `call 3`, `exit`.
const WRITE: [u8; 40] = [
    0xbf, 0x12, 0, 0, 0, 0, 0, 0, 0xb7, 0x01, 0, 0, 0, 2, 0, 0, 0xb7, 0x03, 0, 0, 1, 0, 0, 0, 0x85,
    0x00, 0, 0, 3, 0, 0, 0, 0x95, 0x00, 0, 0, 0, 0, 0, 0,
];

/// `mov r2, 8`, `mov r3, r1`, `add r3, 8`, `mov r4, 8`, `call 10`, `exit`.
const SET: [u8; 48] = [
    0xb7, 0x02, 0, 0, 8, 0, 0, 0, 0xbf, 0x13, 0, 0, 0, 0, 0, 0, 0x07, 0x03, 0, 0, 8, 0, 0, 0, 0xb7,
    0x04, 0, 0, 8, 0, 0, 0, 0x85, 0x00, 0, 0, 10, 0, 0, 0, 0x95, 0x00, 0, 0, 0, 0, 0, 0,
];

/// `mov r1, 0`, `mov r2, r10`, `add r2, -8`, `mov r3, 8`, `call 2`, `mov r0, 0`, `exit`.
const READ: [u8; 56] = [
    0xb7, 0x01, 0, 0, 0, 0, 0, 0, 0xbf, 0xa2, 0, 0, 0, 0, 0, 0, 0x07, 0x02, 0, 0, 0xf8, 0xff, 0xff,
    0xff, 0xb7, 0x03, 0, 0, 8, 0, 0, 0, 0x85, 0x00, 0, 0, 2, 0, 0, 0, 0xb7, 0x00, 0, 0, 0, 0, 0, 0,
    0x95, 0x00, 0, 0, 0, 0, 0, 0,
];

/// A value of the most bytes.
const VALUE: [u8; 4096] = [0x5a; 4096];

/// The input of every call: the byte, or a key and its value.
const INPUT: [u8; 16] = *b"a key...a value.";

impl Subject {
    /// Its name in the table.
    pub fn name(self) -> &'static str {
        match self {
            Subject::WriteShort => "write a byte to 1 KiB",
            Subject::WriteLong => "write a byte to 64 KiB",
            Subject::SetFew => "map_set beside 1 key",
            Subject::SetMany => "map_set beside 1023 keys",
            Subject::ReadNone => "read beside no object",
            Subject::ReadFull => "read beside a full one",
        }
    }

    /// Its method's code.
    fn code(self) -> &'static [u8] {
        match self {
            Subject::WriteShort | Subject::WriteLong => &WRITE,
            Subject::SetFew | Subject::SetMany => &SET,
            Subject::ReadNone | Subject::ReadFull => &READ,
        }
    }

    /// The object that it is called on.
    fn object(self, alloc: Global) -> Result<Option<Object>, StoreError> {
        match self {
            Subject::WriteShort => of_length(alloc, 1024).map(Some),
            Subject::WriteLong => of_length(alloc, DATA_LIMIT).map(Some),
            Subject::SetFew => with_keys(alloc, 0, 1).map(Some),
            Subject::SetMany => with_keys(alloc, 0, KEY_LIMIT as u16 - 1).map(Some),
            Subject::ReadNone => Ok(None),
            Subject::ReadFull => full(alloc).map(Some),
        }
    }

    /// Its class, and its object.
    pub fn ready(self, alloc: Global) -> Result<Beside> {
        let image = class_of(alloc, RuleSet::One, self.code(), 3, INPUT.len() as u16)?;
        Ok(Beside {
            class: verify(alloc, &image)?,
            object: self.object(alloc)?,
        })
    }
}

/// A class with a method `f`, and the object that it is called on.
#[derive(Drop)]
pub struct Beside {
    class: VerifiedClass,
    object: Option<Object>,
}

/// Calls of the method, in one room.
impl Work for Beside {
    fn run(&self, alloc: Global, count: usize) -> Result<()> {
        let mut room = Room::new(alloc);
        for _ in 0..count {
            let _ = room.call(&self.class, "f", self.object.as_ref(), 1, &INPUT)?;
        }
        Ok(())
    }
}

/// An object of that many bytes of data.
fn of_length(alloc: Global, len: usize) -> Result<Object, StoreError> {
    let data = vec![in alloc; 0x5au8; len]?;
    calls::write(alloc, None, 0, &data)
}

/// An object of that many bytes of data, with that many keys of two bytes with values of 4,096.
fn with_keys(alloc: Global, len: usize, count: u16) -> Result<Object, StoreError> {
    let mut object = of_length(alloc, len)?;
    for n in 0..count {
        object = calls::set_key(alloc, Some(&object), &n.to_be_bytes(), &VALUE)?;
    }
    Ok(object)
}

/// An object at all limits.
fn full(alloc: Global) -> Result<Object, StoreError> {
    let mut object = with_keys(alloc, DATA_LIMIT, KEY_LIMIT as u16)?;
    for n in 0..XATTR_LIMIT as u16 {
        object = calls::set_xattr(alloc, Some(&object), &n.to_be_bytes(), &VALUE)?;
    }
    Ok(object)
}

use super::pairs::count_pairs;
use crate::timing::Work;
use anyhow::{Context, Result};
use bpf_decode::{ClassImage, Method, RuleSet, decode};
use interp::{Room, call};
use std::alloc::{AllocError, Global};
use verifier::{VerifiedClass, verify};

/// A slot's bytes (RFC 9669 section 3).
type Slot = [u8; 8];

/// A method that is measured: three slots, four more that many times, and `exit`. It reads no
/// object, and takes no input.
#[derive(Drop)]
pub struct Workload {
    /// Its name in the table.
    pub name: &'static str,
    pub rules: RuleSet,
    pub head: [Slot; 3],
    pub cycle: [Slot; 4],
    pub rounds: usize,
}

/// A method that is ready to be measured.
#[derive(Drop)]
pub struct Ready {
    /// The class whose one method it is.
    pub image: ClassImage,
    /// The same, verified.
    pub class: VerifiedClass,
    /// Its slots, and those whose operation is a pair of instructions.
    pub slots: usize,
    pub pairs: usize,
    /// The instructions that a run executes.
    pub steps: usize,
}

/// `exit`.
const EXIT: Slot = [0x95, 0, 0, 0, 0, 0, 0, 0];

/// `mov r0, 1`, `mov r6, 3`, `mov r7, 5`.
const NUMBERS: [Slot; 3] = [
    [0xb7, 0x00, 0, 0, 1, 0, 0, 0],
    [0xb7, 0x06, 0, 0, 3, 0, 0, 0],
    [0xb7, 0x07, 0, 0, 5, 0, 0, 0],
];

/// `add r0, 7`, `xor r0, r6`, `lsh r0, 1`, `sub r0, r7`.
const ALU: [Slot; 4] = [
    [0x07, 0x00, 0, 0, 7, 0, 0, 0],
    [0xaf, 0x60, 0, 0, 0, 0, 0, 0],
    [0x67, 0x00, 0, 0, 1, 0, 0, 0],
    [0x1f, 0x70, 0, 0, 0, 0, 0, 0],
];

/// `mul r0, 65599`, `div r0, r6`, `mul r0, r7`, `div r0, 7`.
const MUL_DIV: [Slot; 4] = [
    [0x27, 0x00, 0, 0, 0x3f, 0, 1, 0],
    [0x3f, 0x60, 0, 0, 0, 0, 0, 0],
    [0x2f, 0x70, 0, 0, 0, 0, 0, 0],
    [0x37, 0x00, 0, 0, 7, 0, 0, 0],
];

/// `ldxdw r0, [r10-8]`, `ldxw r4, [r10-16]`, `ldxh r5, [r10-24]`, `ldxb r8, [r10-32]`.
const LOADS: [Slot; 4] = [
    [0x79, 0xa0, 0xf8, 0xff, 0, 0, 0, 0],
    [0x61, 0xa4, 0xf0, 0xff, 0, 0, 0, 0],
    [0x69, 0xa5, 0xe8, 0xff, 0, 0, 0, 0],
    [0x71, 0xa8, 0xe0, 0xff, 0, 0, 0, 0],
];

/// `mov r0, 0`, `mov r6, r10`, `add r6, -512`: register 6 points to the first byte of the stack.
const STACK: [Slot; 3] = [
    [0xb7, 0x00, 0, 0, 0, 0, 0, 0],
    [0xbf, 0xa6, 0, 0, 0, 0, 0, 0],
    [0x07, 0x06, 0, 0, 0x00, 0xfe, 0xff, 0xff],
];

/// `ldxb r4, [r6+0]`, `mul r0, 31`, `add r0, r4`, `add r6, 1`: one byte of the checksum.
const CHECKSUM: [Slot; 4] = [
    [0x71, 0x64, 0, 0, 0, 0, 0, 0],
    [0x27, 0x00, 0, 0, 31, 0, 0, 0],
    [0x0f, 0x40, 0, 0, 0, 0, 0, 0],
    [0x07, 0x06, 0, 0, 1, 0, 0, 0],
];

/// `jeq r6, 3, +0`, `jne r6, 3, +0`, `jlt r6, r7, +0`, `jge r6, r7, +0`: every other one is taken.
const BRANCHES: [Slot; 4] = [
    [0x15, 0x06, 0, 0, 3, 0, 0, 0],
    [0x55, 0x06, 0, 0, 3, 0, 0, 0],
    [0xad, 0x76, 0, 0, 0, 0, 0, 0],
    [0x3d, 0x76, 0, 0, 0, 0, 0, 0],
];

/// `jsgt r0, 0, +2`, `add r0, 1`, `ja +1`, `add r0, -1`: its two sides in turn, of two and of three
/// steps.
const DIAMOND: [Slot; 4] = [
    [0x65, 0x00, 2, 0, 0, 0, 0, 0],
    [0x07, 0x00, 0, 0, 1, 0, 0, 0],
    [0x05, 0x00, 1, 0, 0, 0, 0, 0],
    [0x07, 0x00, 0, 0, 0xff, 0xff, 0xff, 0xff],
];

/// `ldxb r4, [r6+0]`, `mov r5, r6`, `add r5, r4`, `ldxb r0, [r5+0]`: a place that is a range.
const RANGES: [Slot; 4] = [
    [0x71, 0x64, 0, 0, 0, 0, 0, 0],
    [0xbf, 0x65, 0, 0, 0, 0, 0, 0],
    [0x0f, 0x45, 0, 0, 0, 0, 0, 0],
    [0x71, 0x50, 0, 0, 0, 0, 0, 0],
];

/// `ldxdw r4, [r6+0]`, `jgt r4, 511, +2`, `add r4, r6`, `ldxb r0, [r4+0]`: a place that a jump has
/// checked.
const CHECKED: [Slot; 4] = [
    [0x79, 0x64, 0, 0, 0, 0, 0, 0],
    [0x25, 0x04, 2, 0, 0xff, 1, 0, 0],
    [0x0f, 0x64, 0, 0, 0, 0, 0, 0],
    [0x71, 0x40, 0, 0, 0, 0, 0, 0],
];

/// `stxdw [r10-8], r6`, `stxdw [r10-16], r3`, `ldxdw r4, [r10-8]`, `ldxdw r5, [r10-16]`: a number
/// and a pointer, spilled.
const SPILLS: [Slot; 4] = [
    [0x7b, 0x6a, 0xf8, 0xff, 0, 0, 0, 0],
    [0x7b, 0x3a, 0xf0, 0xff, 0, 0, 0, 0],
    [0x79, 0xa4, 0xf8, 0xff, 0, 0, 0, 0],
    [0x79, 0xa5, 0xf0, 0xff, 0, 0, 0, 0],
];

/// The methods that are measured, in the table's order. The first one's time is the cost of a call
/// without its steps.
pub const WORKLOADS: [Workload; 11] = [
    Workload {
        name: "call",
        rules: RuleSet::One,
        head: NUMBERS,
        cycle: ALU,
        rounds: 0,
    },
    Workload {
        name: "alu_100",
        rules: RuleSet::One,
        head: NUMBERS,
        cycle: ALU,
        rounds: 24,
    },
    Workload {
        name: "alu_4000",
        rules: RuleSet::One,
        head: NUMBERS,
        cycle: ALU,
        rounds: 999,
    },
    Workload {
        name: "mul_div",
        rules: RuleSet::One,
        head: NUMBERS,
        cycle: MUL_DIV,
        rounds: 249,
    },
    Workload {
        name: "loads",
        rules: RuleSet::One,
        head: NUMBERS,
        cycle: LOADS,
        rounds: 249,
    },
    Workload {
        name: "checksum",
        rules: RuleSet::One,
        head: STACK,
        cycle: CHECKSUM,
        rounds: 512,
    },
    Workload {
        name: "branches",
        rules: RuleSet::One,
        head: NUMBERS,
        cycle: BRANCHES,
        rounds: 249,
    },
    Workload {
        name: "diamonds",
        rules: RuleSet::One,
        head: NUMBERS,
        cycle: DIAMOND,
        rounds: 1000,
    },
    Workload {
        name: "ranges",
        rules: RuleSet::One,
        head: STACK,
        cycle: RANGES,
        rounds: 249,
    },
    Workload {
        name: "checked",
        rules: RuleSet::One,
        head: STACK,
        cycle: CHECKED,
        rounds: 249,
    },
    Workload {
        name: "spills",
        rules: RuleSet::Two,
        head: NUMBERS,
        cycle: SPILLS,
        rounds: 999,
    },
];

impl Workload {
    /// Its code.
    fn code(&self, alloc: Global) -> Result<Vec<u8>, AllocError> {
        let cycles = self.cycle.as_flattened().repeat(alloc, self.rounds)?;
        let mut bytes = Vec::from_slice(alloc, self.head.as_flattened())?;
        bytes.extend_from_slice(&cycles)?;
        bytes.extend_from_slice(&EXIT)?;
        Ok(bytes)
    }

    /// A class of one method, `f`, which has that code.
    fn image(&self, alloc: Global) -> Result<ClassImage> {
        class_of(alloc, self.rules, &self.code(alloc)?, 1, 0)
    }

    /// The method in a class of its own, verified and run once, without an object.
    pub fn ready(&self, alloc: Global) -> Result<Ready> {
        let image = self.image(alloc)?;
        let class = verify(alloc, &image)?;
        let method = class.method("f").context("a method")?;
        let (slots, pairs) = (method.count(), count_pairs(method.ops()));
        let steps = call(alloc, &class, "f", None, 1, &[])?.steps;
        Ok(Ready {
            image,
            class,
            slots,
            pairs,
            steps,
        })
    }
}

/// A call of the class's method `f`, found before, in one room, without an object.
impl Work for VerifiedClass {
    fn run(&self, alloc: Global, count: usize) -> Result<()> {
        let method = self.method("f").context("a method")?;
        let mut room = Room::new(alloc);
        for _ in 0..count {
            let _ = room.call_method(method, None, 1, &[])?;
        }
        Ok(())
    }
}

/// A pass of `verify`.
impl Work for ClassImage {
    fn run(&self, alloc: Global, count: usize) -> Result<()> {
        for _ in 0..count {
            let _ = verify(alloc, self)?;
        }
        Ok(())
    }
}

/// A class of one method, `f`, which has that code, flags and in_cap, and no output, with that rule
/// set.
pub fn class_of(
    alloc: Global,
    rules: RuleSet,
    code: &[u8],
    flags: u8,
    in_cap: u16,
) -> Result<ClassImage> {
    let code = decode(alloc, code)?;
    let mut methods = Vec::new(alloc);
    methods.push(Method::new(String::from_str(alloc, "f")?, flags, in_cap, 0, code))?;
    Ok(ClassImage::new(methods, rules)?)
}

//! What instructions take of a budget; and the laws, each called once.

use bpf_asm::assemble;
use bpf_decode::Insn;
use loop_frames::loop_laws;
use loop_machine::{CALL_WEIGHT, budgets, one_end, weight};
use loop_tables::accepted_loops;
use std::alloc::Global;

/// A line of each kind of instruction.
#[rattlefmt::skip]
const LINES: [(&str, u32); 17] = [
    ("add r0, 1", 1), ("add32 r0, r1", 1), ("neg r0", 1), ("mov r0, 0", 1), ("mov32 r0, r1", 1),
    ("movsx8 r0, r1", 1), ("le16 r0", 1), ("lddw r0, 64", 1), ("ldxb r0, [r1+0]", 1), ("ldxsb r0, [r1+0]", 1),
    ("stb [r1+0], 64", 1), ("stxdw [r1+0], r0", 1), ("ja +0", 1), ("jeq r0, 64, +0", 1), ("exit", 1),
    ("call 1", 64), ("call 18", 64),
];

/// True if the first instruction of a text takes that much.
fn takes(alloc: Global, line: &str, taken: u32) -> bool {
    match assemble(alloc, line) {
        Ok(code) => match code.first() {
            Some(insn) => weight(insn) == taken,
            None => false,
        },
        Err(_) => false,
    }
}

#[test]
fn weights(rt: HostRuntime) {
    for (line, taken) in &LINES {
        assert!(rt; takes(rt.alloc(), *line, *taken), "{line}");
    }
    assert!(rt; weight(&Insn::JumpLong { distance: -1 }) == 1);
    assert!(rt; weight(&Insn::CallLocal { distance: 64 }) == 1);
    assert!(rt; CALL_WEIGHT == 64);
    budgets();
    one_end();
    loop_laws();
    accepted_loops();
}

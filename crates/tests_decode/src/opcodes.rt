//! Every row of the table of opcodes, as bytes and as text.

use bpf_asm::{assemble, disassemble};
use bpf_decode::{DecodeError, check, decode, encode, width};
use std::alloc::Global;
use std::process::Abort;

/// Each instruction's bytes and its text. Register 3 is the destination, register 9 the source, and
/// no field that is used is zero, but for the offset of a row that it selects.
const ROWS: &str = "\
04030000feffffff add32 r3, -2 | 0c93000000000000 add32 r3, r9
07030000feffffff add r3, -2 | 0f93000000000000 add r3, r9
14030000feffffff sub32 r3, -2 | 1c93000000000000 sub32 r3, r9
17030000feffffff sub r3, -2 | 1f93000000000000 sub r3, r9
24030000feffffff mul32 r3, -2 | 2c93000000000000 mul32 r3, r9
27030000feffffff mul r3, -2 | 2f93000000000000 mul r3, r9
34030000feffffff div32 r3, -2 | 3c93000000000000 div32 r3, r9
37030000feffffff div r3, -2 | 3f93000000000000 div r3, r9
34030100feffffff sdiv32 r3, -2 | 3c93010000000000 sdiv32 r3, r9
37030100feffffff sdiv r3, -2 | 3f93010000000000 sdiv r3, r9
44030000feffffff or32 r3, -2 | 4c93000000000000 or32 r3, r9
47030000feffffff or r3, -2 | 4f93000000000000 or r3, r9
54030000feffffff and32 r3, -2 | 5c93000000000000 and32 r3, r9
57030000feffffff and r3, -2 | 5f93000000000000 and r3, r9
64030000feffffff lsh32 r3, -2 | 6c93000000000000 lsh32 r3, r9
67030000feffffff lsh r3, -2 | 6f93000000000000 lsh r3, r9
74030000feffffff rsh32 r3, -2 | 7c93000000000000 rsh32 r3, r9
77030000feffffff rsh r3, -2 | 7f93000000000000 rsh r3, r9
94030000feffffff mod32 r3, -2 | 9c93000000000000 mod32 r3, r9
97030000feffffff mod r3, -2 | 9f93000000000000 mod r3, r9
94030100feffffff smod32 r3, -2 | 9c93010000000000 smod32 r3, r9
97030100feffffff smod r3, -2 | 9f93010000000000 smod r3, r9
a4030000feffffff xor32 r3, -2 | ac93000000000000 xor32 r3, r9
a7030000feffffff xor r3, -2 | af93000000000000 xor r3, r9
b4030000feffffff mov32 r3, -2 | bc93000000000000 mov32 r3, r9
b7030000feffffff mov r3, -2 | bf93000000000000 mov r3, r9
c4030000feffffff arsh32 r3, -2 | cc93000000000000 arsh32 r3, r9
c7030000feffffff arsh r3, -2 | cf93000000000000 arsh r3, r9
8403000000000000 neg32 r3 | 8703000000000000 neg r3
bc93080000000000 movsx8_32 r3, r9 | bc93100000000000 movsx16_32 r3, r9
bf93080000000000 movsx8 r3, r9 | bf93100000000000 movsx16 r3, r9 | bf93200000000000 movsx32 r3, r9
d403000010000000 le16 r3 | d403000020000000 le32 r3 | d403000040000000 le64 r3
dc03000010000000 be16 r3 | dc03000020000000 be32 r3 | dc03000040000000 be64 r3
d703000010000000 bswap16 r3 | d703000020000000 bswap32 r3 | d703000040000000 bswap64 r3
1503fdfffeffffff jeq r3, -2, -3 | 1d93020100000000 jeq r3, r9, +258
1603fdfffeffffff jeq32 r3, -2, -3 | 1e93020100000000 jeq32 r3, r9, +258
2503fdfffeffffff jgt r3, -2, -3 | 2d93020100000000 jgt r3, r9, +258
2603fdfffeffffff jgt32 r3, -2, -3 | 2e93020100000000 jgt32 r3, r9, +258
3503fdfffeffffff jge r3, -2, -3 | 3d93020100000000 jge r3, r9, +258
3603fdfffeffffff jge32 r3, -2, -3 | 3e93020100000000 jge32 r3, r9, +258
4503fdfffeffffff jset r3, -2, -3 | 4d93020100000000 jset r3, r9, +258
4603fdfffeffffff jset32 r3, -2, -3 | 4e93020100000000 jset32 r3, r9, +258
5503fdfffeffffff jne r3, -2, -3 | 5d93020100000000 jne r3, r9, +258
5603fdfffeffffff jne32 r3, -2, -3 | 5e93020100000000 jne32 r3, r9, +258
6503fdfffeffffff jsgt r3, -2, -3 | 6d93020100000000 jsgt r3, r9, +258
6603fdfffeffffff jsgt32 r3, -2, -3 | 6e93020100000000 jsgt32 r3, r9, +258
7503fdfffeffffff jsge r3, -2, -3 | 7d93020100000000 jsge r3, r9, +258
7603fdfffeffffff jsge32 r3, -2, -3 | 7e93020100000000 jsge32 r3, r9, +258
a503fdfffeffffff jlt r3, -2, -3 | ad93020100000000 jlt r3, r9, +258
a603fdfffeffffff jlt32 r3, -2, -3 | ae93020100000000 jlt32 r3, r9, +258
b503fdfffeffffff jle r3, -2, -3 | bd93020100000000 jle r3, r9, +258
b603fdfffeffffff jle32 r3, -2, -3 | be93020100000000 jle32 r3, r9, +258
c503fdfffeffffff jslt r3, -2, -3 | cd93020100000000 jslt r3, r9, +258
c603fdfffeffffff jslt32 r3, -2, -3 | ce93020100000000 jslt32 r3, r9, +258
d503fdfffeffffff jsle r3, -2, -3 | dd93020100000000 jsle r3, r9, +258
d603fdfffeffffff jsle32 r3, -2, -3 | de93020100000000 jsle32 r3, r9, +258
0500030000000000 ja +3 | 0600000090eefeff ja32 -70000
85000000ffffffff call 4294967295 | 85100000feffffff call local -2 | 9500000000000000 exit
6193ffff00000000 ldxw r3, [r9-1] | 6993040000000000 ldxh r3, [r9+4]
7193040000000000 ldxb r3, [r9+4] | 7993008000000000 ldxdw r3, [r9-32768]
8193ffff00000000 ldxsw r3, [r9-1] | 8993040000000000 ldxsh r3, [r9+4] | 9193040000000000 ldxsb r3, [r9+4]
6203fffffeffffff stw [r3-1], -2 | 6a03040005000000 sth [r3+4], 5
7203040005000000 stb [r3+4], 5 | 7a03ff7f00000080 stdw [r3+32767], -2147483648
6393ffff00000000 stxw [r3-1], r9 | 6b93040000000000 stxh [r3+4], r9
7393040000000000 stxb [r3+4], r9 | 7b93040000000000 stxdw [r3+4], r9
18030000103254760000000098badcfe lddw r3, 0xfedcba9876543210
";

/// True if the text and the bytes are read as the same one instruction, which is written as them.
fn is_spelled(alloc: Global, bytes: &[u8], text: &str) -> Option<bool> {
    let insns = assemble(alloc, text).ok()?;
    let printed = disassemble(alloc, &insns).ok()?;
    let code = encode(alloc, &insns).ok()?;
    let read = decode(alloc, bytes).ok()?;
    let [insn] = insns.as_slice() else {
        return None;
    };
    let same = read.as_slice() == insns.as_slice() && check(bytes) == Ok(1);
    let long = width(insn).saturating_mul(8) == bytes.len();
    Some(same && long && code.as_slice() == bytes && printed.trim_end() == text)
}

/// What `check` says of a row's bytes with another byte at a place.
fn changed(bytes: &[u8], place: usize, value: u8) -> Result<usize, DecodeError> {
    let mut code = [0; 16];
    if bytes.len() > 16 || place >= bytes.len() {
        return Ok(0);
    }
    code[..bytes.len()].copy_from_slice(bytes);
    code[place] = value;
    check(&code[..bytes.len()])
}

/// True if no register is above 10, and a field that is zero in the row has no other value.
fn is_strict(bytes: &[u8]) -> bool {
    let [_, registers, low, high, a, b, c, d, ..] = *bytes else {
        return false;
    };
    let refused = Err(DecodeError::NonzeroField(0));
    let register = Err(DecodeError::Register(0));
    changed(bytes, 1, registers | 0x0b) == register
        && changed(bytes, 1, registers | 0xb0) == register
        && (registers & 0x0f != 0 || changed(bytes, 1, registers | 0x02) == refused)
        && (registers & 0xf0 != 0 || changed(bytes, 1, registers | 0x20) == refused)
        && ([low, high] != [0, 0] || changed(bytes, 2, 4) == refused)
        && ([a, b, c, d] != [0, 0, 0, 0] || changed(bytes, 4, 3) == refused)
}

/// Notes the opcode of a row. True if all of the row is right.
fn is_right(rt: &impl Abort, alloc: Global, row: &str, known: &mut [bool; 256]) -> bool {
    let (digits, text) = row.split_once(" ").expect(rt, "a space");
    let bytes = hex::decode(alloc, digits).expect(rt, "digits");
    if let Some(opcode) = bytes.first() {
        known[usize::from(*opcode)] = true;
    }
    is_spelled(alloc, &bytes, text) == Some(true) && is_strict(&bytes)
}

/// True if a slot of that opcode alone is refused for it.
fn is_unknown(opcode: u8) -> bool {
    check(&[opcode, 0, 0, 0, 0, 0, 0, 0]) == Err(DecodeError::Opcode(0))
}

/// There are 117 opcodes in 137 rows, and every other one is refused.
#[test]
fn every_row(rt: HostRuntime) {
    let mut known = [false; 256];
    let mut rows = 0usize;
    for line in ROWS.lines() {
        for row in line.split(" | ") {
            assert!(rt; is_right(&rt, rt.alloc(), row, &mut known), "{row}");
            rows = rows.saturating_add(1);
        }
    }
    let mut opcodes = 0usize;
    for opcode in 0..=255u8 {
        let is_known = known[usize::from(opcode)];
        assert!(rt; is_known != is_unknown(opcode), "opcode {opcode}");
        opcodes = opcodes.saturating_add(usize::from(is_known));
    }
    assert!(rt; rows == 137 && opcodes == 117);
}

//! Methods by which rule set 3 is told from rule set 2, or isn't.

/// Rows as `super::check` reads them, with verdicts in rule sets 3 and 2.
pub const THIRD: &str = "\
# the answer of a helper is a number of its range
ok 13:10 2 0 0: GET; jslt r0, 0, +5; WRITE r0; call 3; exit
12:10 12:10 2 0 0: GET; WRITE r0; call 3; exit
ok 6:13 1 0 256: mov r1, 0; mov r2, r3; mov r3, 256; call 2; jslt r0, 0, +2; mov r1, r0; call 13; exit
# but a copy of its low half isn't
12:5 12:5 1 0 0: GET; mov32 r6, r0; jgt r6, 64, +2; mov r0, 0; exit; mov r0, r9; exit
# helpers 16 to 18, and no other
ok 6:12 1 0 0: mov r1, r10; add r1, -8; mov r2, 8; mov r3, r10; add r3, -16; mov r4, 8; call 16; exit
ok 6:12 1 0 0: mov r1, r10; add r1, -8; mov r2, 8; mov r3, r10; add r3, -16; mov r4, 8; call 17; exit
ok 3:12 1 0 8: mov r1, r3; mov r2, 0; mov r4, 8; call 18; exit
2:11 2:12 1 8 8: mov r2, 8; mov r4, 8; call 17; exit
8:5 7:12 1 0 8: KEEP; mov r1, r10; add r1, -8; mov r2, 8; mov r3, r10; add r3, -16; mov r4, 8; call 17; \
    ldxdw r0, [r10-8]; exit
7:17 7:12 1 0 8: stxdw [r10-16], r3; mov r1, r10; add r1, -8; mov r2, 8; mov r3, r10; add r3, -16; mov r4, 8; \
    call 17; ldxdw r0, [r10-16]; exit
0:12 0:12 1 0 0: call 19; exit
# capacities over 4,096 bytes
1:10 none 1 65535* 0: add r1, 32767; ldxb r0, [r1+32767]; exit
ok ok 1 4096 4096: mov r0, 0; exit
ok none 1 4097 0: mov r0, 0; exit
ok none 1 0 4097: mov r0, 0; exit
# a comparison of the low half says nothing of the whole
4:10 4:10 1 8 16: ldxdw r4, [r1+0]; mov r0, 0; jgt32 r4, 15, +2; OUT
4:5 4:5 1 8 0: ldxw r4, [r1+0]; jslt32 r4, 0, +2; mov r0, 0; exit; mov r0, r9; exit
6:10 6:10 1 8 16: ldxdw r4, [r1+0]; mov r0, 0; jsgt32 r4, 5, +4; jslt32 r4, -1, +3; mov32 r4, r4; OUT
4:5 4:5 1 8 0: ldxdw r4, [r1+0]; mov r0, 0; jslt32 r4, 0, +2; add r4, 1; mov r0, r9; exit
# nor does one of another number say anything of what it was computed from
7:10 7:10 1 8 16: ldxdw r4, [r1+0]; mov r0, 0; stxdw [r10-8], r4; stb [r10-8], 255; jgt r4, 15, +3; BACK; OUT
6:10 6:10 1 8 16: ldxdw r4, [r1+0]; mov r0, 0; mov r5, r4; mul r5, 2; jgt r5, 15, +2; OUT
6:10 6:10 1 8 16: ldxdw r4, [r1+0]; mov r0, 0; mov r5, r4; add r5, 4; jgt r5, 15, +2; OUT
8:10 8:10 1 8 16: ldxdw r4, [r1+0]; mov r0, 0; jeq r2, 0, +2; mov r5, r4; ja +1; mov r5, r4; jgt r5, 15, +2; OUT
8:10 8:10 1 8 16: ldxdw r4, [r1+0]; mov r0, 0; jeq r2, 0, +2; mov r5, r4; ja +1; ldxb r5, [r1+0]; jgt r5, 15, +2; OUT
6:10 6:10 1 8 16: ldxdw r0, [r1+0]; mov r6, r0; mov r7, r3; call 15; jgt r0, 15, +2; add r7, r6; stb [r7+0], 1; exit
# the low half of its sum alone says that an access stays in its region, and which slot it is
ok none 1 7233 0: ldxw r4, [r1+0]; mov r0, 0; lddw r5, 0x0000000080000064; jgt r4, r5, +5; jsgt32 r4, 40000, +4; \
    jslt32 r4, -5, +3; jlt r4, 32768, +2; add r1, r4; ldxb r0, [r1-32768]; exit
9:10 none 1 7232 0: ldxw r4, [r1+0]; mov r0, 0; lddw r5, 0x0000000080000064; jgt r4, r5, +5; \
    jsgt32 r4, 40000, +4; jslt32 r4, -5, +3; jlt r4, 32768, +2; add r1, r4; ldxb r0, [r1-32768]; exit
ok 9:10 1 1233 0: ldxw r4, [r1+0]; mov r0, 0; lddw r5, 0x0000000080000064; jgt r4, r5, +5; jsgt32 r4, 34000, +4; \
    jslt32 r4, -5, +3; jlt r4, 32768, +2; add r1, r4; ldxb r0, [r1-32768]; exit
9:10 9:10 1 1232 0: ldxw r4, [r1+0]; mov r0, 0; lddw r5, 0x0000000080000064; jgt r4, r5, +5; \
    jsgt32 r4, 34000, +4; jslt32 r4, -5, +3; jlt r4, 32768, +2; add r1, r4; ldxb r0, [r1-32768]; exit
ok 11:9 1 4 1: ldxw r4, [r1+0]; mov r0, 0; lddw r5, 0x0000000080000064; jgt r4, r5, +9; jsgt32 r4, 32768, +8; \
    jslt32 r4, -5, +7; jlt r4, 32768, +6; mov r2, r10; add r2, -512; add r2, r4; stxdw [r2-32768], r3; \
    ldxdw r5, [r10-512]; stb [r5+0], 1; exit
";

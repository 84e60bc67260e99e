//! What is checked of one copy of a number, or of its low half, and used of another.

/// Rows as `super::check` reads them, with verdicts in rule sets 3 and 2.
pub const COPIES: &str = "\
# a comparison of the low half tells of that half: of its signed numbers, and of what is copied from it
5:10 5:10 1 8 16*: ldxdw r4, [r1+0]; mov r0, 0; jgt32 r4, 15, +3; mov32 r4, r4; OUT
ok 5:10 1 8 16: ldxw r4, [r1+0]; mov r0, 0; jsgt32 r4, 15, +3; jslt32 r4, 0, +2; OUT
ok 5:10 1 8 16: ldxdw r4, [r1+0]; mov r0, 0; jset32 r4, -16, +3; mov32 r4, r4; OUT
6:10 6:10 1 8 17*: ldxdw r4, [r1+0]; mov r0, 0; jgt32 r4, 15, +4; add r4, 1; mov32 r4, r4; OUT
ok 6:10 1 8 16: ldxdw r4, [r1+0]; mov r0, 0; jgt32 r4, 15, +4; lsh r4, 32; arsh r4, 32; OUT
6:10 6:10 1 8 16: ldxdw r4, [r1+0]; mov r0, 0; jgt32 r4, 15, +4; lsh r4, 31; arsh r4, 31; OUT
ok 5:10 1 8 16: ldxdw r4, [r1+0]; mov r0, 0; jgt32 r4, 15, +3; movsx32 r4, r4; OUT
# sign extension of a byte: 127 stays positive, 128 doesn't
ok 5:10 1 8 128: ldxb r4, [r1+0]; mov r0, 0; jgt r4, 127, +3; movsx8 r4, r4; OUT
5:10 5:10 1 8 129: ldxb r4, [r1+0]; mov r0, 0; jgt r4, 128, +3; movsx8 r4, r4; OUT
# what is checked of a copy of an answer holds of the answer: of its low half, of its sign
ok 17:10 2 0 0: GET; mov r6, r0; mov r1, r0; lsh r1, 32; arsh r1, 32; jslt r1, 0, +5; WRITE r6; call 3; exit
ok 17:10 2 0 0: GET; mov r6, r0; lddw r1, 0x0000000080000000; and r0, r1; jne r0, 0, +5; WRITE r6; call 3; exit
ok 14:10 2 0 0: GET; mov32 r6, r0; jslt32 r6, 0, +5; WRITE r0; call 3; exit
# and what is checked of a copy of a register or of a slot
ok 5:10 1 8 16: ldxdw r4, [r1+0]; mov r0, 0; mov r5, r4; jgt r5, 15, +2; OUT
ok 6:10 1 8 16: ldxdw r4, [r1+0]; mov r0, 0; stxdw [r10-8], r4; jgt r4, 15, +3; BACK; OUT
ok 7:10 1 8 16: ldxdw r4, [r1+0]; mov r0, 0; stxdw [r10-8], r4; ldxdw r5, [r10-8]; jgt r5, 15, +3; BACK; OUT
# at a distance that doesn't wrap
6:10 6:10 1 8 12*: ldxw r4, [r1+0]; mov r0, 0; mov r5, r4; add r5, 4; jgt r5, 15, +2; OUT
# where both edges that meet have the copy; where a mask cuts nothing off
ok 7:10 1 8 16: ldxdw r4, [r1+0]; mov r0, 0; mov r5, r4; jeq r2, 0, +1; mov r5, r4; jgt r5, 15, +2; OUT
ok 6:10 1 8 16: ldxb r4, [r1+0]; mov r0, 0; mov r5, r4; and r5, 255; jgt r5, 15, +2; OUT
6:10 6:10 1 8 16: ldxdw r4, [r1+0]; mov r0, 0; mov r5, r4; and r5, 255; jgt r5, 15, +2; OUT
# a slot that a helper may overwrite is a copy no longer
ok 14:10 1 8 16: ldxdw r4, [r1+0]; mov r0, 0; stxdw [r10-8], r4; mov r6, r4; mov r7, r3; mov r1, 0; mov r2, r10; \
    add r2, -16; mov r3, 8; call 2; mov r0, 0; jgt r6, 15, +3; ldxdw r5, [r10-8]; add r7, r5; stb [r7+0], 1; exit
14:10 14:10 1 8 16: ldxdw r4, [r1+0]; mov r0, 0; stxdw [r10-8], r4; mov r6, r4; mov r7, r3; mov r1, 0; mov r2, r10; \
    add r2, -15; mov r3, 8; call 2; mov r0, 0; jgt r6, 15, +3; ldxdw r5, [r10-8]; add r7, r5; stb [r7+0], 1; exit
# the low half of a number that may be longer is no copy
6:5 6:5 1 0 0: call 15; mov r2, r0; mov32 r3, r2; jlt32 r2, 9, +1; exit; jlt r3, 9, +1; sub r0, r1; exit
";

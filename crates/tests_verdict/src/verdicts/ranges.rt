//! Ranges, masks and comparisons: which bounds are known, and which edges are dead.

/// Rows as `super::check` reads them.
pub const RANGES: &str = "# the input's length is at most in_cap, and a mask bounds it
2:10 1 16* 0: and r2, 15; add r1, r2; ldxb r0, [r1+0]; exit
# a length checked by a jump, on either side of it, and in 32 bits after a load of 32
ok 1 4096 16: mov r0, 0; jgt r2, 15, +2; add r3, r2; stb [r3+0], 1; exit
4:10 1 4096 16: mov r0, 0; jgt r2, 15, +1; exit; add r3, r2; stb [r3+0], 1; exit
4:10 1 4096 16*: mov r0, 0; jlt r2, 16, +1; exit; add r3, r2; stb [r3+0], 1; exit
4:10 1 8 16: ldxdw r4, [r1+0]; mov r0, 0; jgt32 r4, 15, +2; OUT
ok 1 8 16: ldxw r4, [r1+0]; mov r0, 0; jgt32 r4, 15, +2; OUT
# an immediate of 32 bits is taken modulo 2^32: behind this jump r4 is 2^32 - 1
6:10 1 4 1*: ldxw r4, [r1+0]; mov r0, 0; jgt32 r4, -2, +1; exit; add32 r4, 1; OUT
# a remainder by a number that isn't 0, and by one that may be
5:10 1 8 255*: ldxdw r4, [r1+0]; ldxb r5, [r1+0]; or r5, 1; mod r4, r5; add r3, r4; stb [r3+0], 1; mov r0, 0; exit
4:10 1 8 255: ldxdw r4, [r1+0]; ldxb r5, [r1+0]; mod r4, r5; add r3, r4; stb [r3+0], 1; mov r0, 0; exit
# known bits: 1, 5, 9 or 13
4:10 1 8 14*: ldxdw r4, [r1+0]; and r4, 12; or r4, 1; add r3, r4; stb [r3+0], 1; mov r0, 0; exit
4:10 1 8 16*: ldxdw r4, [r1+0]; mov r0, 0; jset r4, -16, +2; OUT
# an access at a place that has no value stays, and goes on
8:5 1 8 16: ldxdw r4, [r1+0]; mov r0, 0; jlt r4, 10, +6; jgt r4, -10, +5; jsgt r4, 5, +4; jslt r4, -5, +3; \
    add r3, r4; ldxb r0, [r3+6]; mov r0, r9; exit
# a load's bits are unknown, so that this edge isn't dead
4:5 1 8 0: ldxb r4, [r1+0]; mov r0, 0; jset r4, 256, +1; exit; mov r0, r9; exit
# a dead edge carries no flow, whichever it is
ok 1 16 0: mov r0, 0; jgt r2, 16, +1; exit; mov r0, r9; exit
3:5 1 17 0: mov r0, 0; jgt r2, 16, +1; exit; mov r0, r9; exit
ok 1 16 0: mov r0, 0; jle r2, 16, +1; mov r0, r9; exit
2:5 1 17 0: mov r0, 0; jle r2, 16, +1; mov r0, r9; exit
# a register that is compared with itself tells nothing, one that is compared with a copy does
3:5 1 16 0: mov r0, 0; jgt r2, r2, +1; exit; mov r0, r9; exit
3:5 1 16 0: mov r0, 0; jne r2, r2, +1; exit; mov r0, r9; exit
ok 1 0 0: mov r0, 0; mov r4, r2; jne r4, r2, +1; exit; mov r0, r9; exit
# signed comparisons
5:10 1 8 16*: ldxdw r4, [r1+0]; mov r0, 0; jslt r4, 0, +3; jsgt r4, 15, +2; OUT
5:10 1 8 16: ldxdw r4, [r1+0]; mov r0, 0; jlt r4, 0, +3; jsgt r4, 15, +2; OUT
# a load with sign extension: -128 to 127
3:10 1 1 256*: ldxsb r4, [r1+0]; add r4, 128; add r3, r4; stb [r3+0], 1; mov r0, 0; exit
# a pointer less a number: places 505 to 512
ok 1 8 0: mov r6, r10; and r2, 7; sub r6, r2; stb [r6-1], 1; mov r0, 0; exit
ok 1 8 0: mov r6, r10; and r2, 7; sub r6, r2; stdw [r6-8], 1; mov r0, 0; exit
3:10 1 8 0: mov r6, r10; and r2, 7; sub r6, r2; stdw [r6-4], 1; mov r0, 0; exit
# a switch: 0, 1 or 2 where the edges meet
7:10 1 8 3*: ldxb r4, [r1+0]; mov r0, 0; jeq r4, 0, +3; jeq r4, 1, +2; jeq r4, 2, +1; exit; OUT
# a loop over the input's bytes, unrolled; with in_cap 2 its third turn is dead
ok 1 3 0: mov r0, 0; jle r2, 0, +8; ldxb r4, [r1+0]; add r0, r4; jle r2, 1, +5; ldxb r4, [r1+1]; add r0, r4; \
    jle r2, 2, +2; ldxb r4, [r1+2]; add r0, r4; exit
ok 1 2 0: mov r0, 0; jle r2, 0, +8; ldxb r4, [r1+0]; add r0, r4; jle r2, 1, +5; ldxb r4, [r1+1]; add r0, r4; \
    jle r2, 2, +2; ldxb r4, [r1+2]; add r0, r4; exit
8:10 1 2 0: mov r0, 0; jle r2, 0, +8; ldxb r4, [r1+0]; add r0, r4; jle r2, 1, +5; ldxb r4, [r1+1]; add r0, r4; \
    jle r2, 1, +2; ldxb r4, [r1+2]; add r0, r4; exit
# a table of 16 numbers of 8 bytes on the stack, by shifts and by a mask
ok 1 1 0: ldxb r4, [r1+0]; rsh r4, 4; lsh r4, 3; mov r6, r10; sub r6, 128; add r6, r4; stxdw [r6+0], r2; mov r0, 0; \
    exit
6:10 1 1 0: ldxb r4, [r1+0]; rsh r4, 4; lsh r4, 4; mov r6, r10; sub r6, 128; add r6, r4; stxdw [r6+0], r2; \
    mov r0, 0; exit
ok 1 1 0: ldxb r4, [r1+0]; and r4, 120; mov r6, r10; sub r6, 128; add r6, r4; stxdw [r6+0], r2; mov r0, 0; exit
5:10 1 1 0: ldxb r4, [r1+0]; and r4, 124; mov r6, r10; sub r6, 128; add r6, r4; stxdw [r6+0], r2; mov r0, 0; exit
# a helper's ranges and the output's length, by their upper bounds
4:10 1 8 8*: mov r6, r2; mov r2, r3; mov r3, r6; mov r1, 0; call 2; exit
6:10 1 8 8*: mov r6, r2; and r6, 3; mov r2, r3; add r2, r6; mov r3, 5; mov r1, 0; call 2; exit
6:11 1 8 8: mov r6, r2; mov r2, r1; mov r3, 0; mov r1, 0; and r6, 7; add r2, r6; call 2; exit
1:13 1 4 4*: mov r1, r2; call 13; exit
";

//! Methods that keep numbers and pointers in the stack.

/// Rows as `super::check` reads them, with verdicts in rule sets 2 and 1.
pub const SPILLS: &str = "\
# a pointer is stored whole and loaded whole
ok 0:9 1 0 1: KEEP; mov r0, 0; BACK; stb [r4+0], 1; exit
ok 0:9 1 0 1: stxdw [r10-512], r3; mov r0, 0; ldxdw r4, [r10-512]; stb [r4+0], 1; exit
0:9 0:9 1 0 1: stxdw [r10-12], r3; mov r0, 0; exit
0:9 0:9 1 0 1: stxw [r10-8], r3; mov r0, 0; exit
0:9 0:9 1 0 8: stxdw [r3+0], r10; mov r0, 0; exit
0:9 0:9 1 0 1: stxdw [r10-4], r3; mov r0, 0; exit
2:11 0:9 1 1 1: stxdw [r10-8], r1; BACK; stb [r4+0], 1; mov r0, 0; exit
2:8 0:9 1 0 1: KEEP; BACK; jeq r4, 0, +0; mov r0, 0; exit
2:15 0:9 1 0 1: KEEP; ldxdw r0, [r10-8]; exit
ok 0:9 1 0 1: KEEP; call 15; BACK; stb [r4+0], 1; mov r0, 0; exit
# a part of one
1:17 0:9 1 0 1: KEEP; ldxw r0, [r10-8]; exit
1:17 0:9 1 0 1: KEEP; ldxsw r0, [r10-8]; exit
1:17 0:9 1 0 1: KEEP; ldxb r0, [r10-1]; exit
1:17 0:9 1 0 1: KEEP; ldxdw r0, [r10-12]; exit
ok 0:9 1 0 1: KEEP; ldxw r0, [r10-12]; exit
# one that is overwritten in part, and a part of what is left
2:5 0:9 1 0 1: KEEP; stb [r10-8], 0; ldxdw r0, [r10-8]; exit
2:5 0:9 1 0 1: KEEP; stb [r10-8], 0; ldxb r0, [r10-1]; exit
ok 0:9 1 0 1: KEEP; stb [r10-8], 0; stdw [r10-8], 5; ldxdw r0, [r10-8]; exit
# a store that touches two slots
3:5 0:9 1 0 1: KEEP; stxdw [r10-16], r3; stw [r10-10], 0; ldxdw r0, [r10-8]; exit
3:5 0:9 1 0 1: KEEP; stxdw [r10-16], r3; stw [r10-10], 0; ldxdw r0, [r10-16]; exit
ok 0:9 1 0 1: stxdw [r10-24], r3; stw [r10-10], 0; ldxdw r4, [r10-24]; stb [r4+0], 1; mov r0, 0; exit
6:10 6:10 1 0 1: stdw [r10-8], 0; stdw [r10-16], 0; stw [r10-10], 0; BACK; mov r0, 0; OUT
# numbers
4:10 4:10 1 16* 0: and r2, 15; stxdw [r10-16], r2; ldxdw r4, [r10-16]; add r1, r4; ldxb r0, [r1+0]; exit
5:10 5:10 1 16 0: and r2, 15; stxdw [r10-16], r2; stb [r10-16], 1; ldxdw r4, [r10-16]; add r1, r4; ldxb r0, [r1+0]; \
    exit
ok 2:10 1 0 1: BACK; add r3, r4; stb [r3+0], 1; mov r0, 0; exit
3:10 3:10 1 0 6*: stdw [r10-8], 5; BACK; add r3, r4; stb [r3+0], 1; mov r0, 0; exit
3:10 3:10 1 0 5: stw [r10-8], 5; ldxw r4, [r10-8]; add r3, r4; stb [r3+0], 1; mov r0, 0; exit
# what two flows leave: a number and a pointer, an untouched slot and a pointer, two offsets, an untouched slot and a \
    number
4:5 1:9 1 1 1: mov r0, 0; KEEP; jeq r2, 0, +1; stdw [r10-8], 7; BACK; exit
2:5 1:9 1 1 1: jeq r2, 0, +1; KEEP; BACK; exit
5:10 0:9 1 1 5*: KEEP; jeq r2, 0, +2; add r3, 4; KEEP; BACK; stb [r4+0], 1; mov r0, 0; exit
4:10 4:10 1 1 4*: jeq r2, 0, +1; stdw [r10-8], 3; BACK; add r3, r4; stb [r3+0], 1; mov r0, 0; exit
# through a pointer of 496 or 504: a store keeps no pointer in either slot, a load reads no part of one
5:5 0:9 1 8 1: KEEP; and r2, 8; mov r4, r10; sub r4, r2; stdw [r4-8], 0; ldxdw r5, [r10-8]; exit
5:5 0:9 1 8 1: stxdw [r10-16], r3; and r2, 8; mov r4, r10; sub r4, r2; stdw [r4-8], 0; ldxdw r5, [r10-16]; exit
ok 0:9 1 8 1: stxdw [r10-24], r3; and r2, 8; mov r4, r10; sub r4, r2; stdw [r4-8], 0; ldxdw r5, [r10-24]; \
    stb [r5+0], 1; mov r0, 0; exit
4:17 0:9 1 8 1: KEEP; and r2, 8; mov r4, r10; sub r4, r2; ldxdw r0, [r4-8]; exit
6:5 0:9 1 8 1: KEEP; stxdw [r10-16], r3; stb [r10-16], 0; and r2, 8; mov r4, r10; sub r4, r2; ldxdw r0, [r4-8]; exit
4:9 4:9 1 8 1: and r2, 8; mov r4, r10; sub r4, r2; mov r0, 0; stxdw [r4-8], r3; exit
# a helper's range that is read
5:17 0:9 2 0 1: KEEP; mov r1, 0; mov r2, r10; add r2, -8; mov r3, 8; call 3; exit
ok 0:9 2 0 1: KEEP; mov r1, 0; mov r2, r10; add r2, -8; mov r3, 0; call 3; exit
4:17 0:9 2 0 1: KEEP; mov r1, r10; add r1, -12; mov r2, 5; call 8; exit
ok 0:9 2 0 1: KEEP; mov r1, r10; add r1, -12; mov r2, 4; call 8; exit
5:5 0:9 2 0 1: KEEP; stb [r10-8], 0; mov r1, r10; add r1, -8; mov r2, 4; call 8; exit
4:10 0:9 2 0 1: KEEP; mov r1, r10; add r1, -8; mov r2, 9; call 8; exit
5:10 0:9 2 0 1: KEEP; stb [r10-8], 0; mov r1, r10; add r1, -8; mov r2, 9; call 8; exit
6:17 0:9 2 8 1: stxdw [r10-16], r3; and r2, 8; mov r1, r10; add r1, -16; add r1, r2; mov r2, 8; call 8; exit
ok 0:9 2 8 1: stxdw [r10-24], r3; and r2, 8; mov r1, r10; add r1, -16; add r1, r2; mov r2, 8; call 8; exit
# and one that is written
ok 0:9 1 0 1: KEEP; mov r1, 0; mov r2, r10; add r2, -4; mov r3, 0; call 2; BACK; stb [r4+0], 1; mov r0, 0; exit
6:5 0:9 1 0 1: KEEP; mov r1, 0; mov r2, r10; add r2, -4; mov r3, 1; call 2; BACK; stb [r4+0], 1; mov r0, 0; exit
ok 0:9 1 0 1: KEEP; mov r1, 0; mov r2, r10; add r2, -16; mov r3, 8; call 2; BACK; stb [r4+0], 1; mov r0, 0; exit
9:10 9:10 1 0 1: stdw [r10-8], 0; mov r1, 0; mov r2, r10; add r2, -8; mov r6, r3; mov r3, 1; call 2; BACK; \
    add r6, r4; stb [r6+0], 1; mov r0, 0; exit
ok 9:10 1 0 1: stdw [r10-8], 0; mov r1, 0; mov r2, r10; add r2, -16; mov r6, r3; mov r3, 8; call 2; BACK; \
    add r6, r4; stb [r6+0], 1; mov r0, 0; exit
# a whole store and a whole load tighten nothing: unsigned 3 to 10 and signed 0 to 10 stay so
9:10 9:10 1 8 8: ldxdw r4, [r1+0]; mov r0, 0; jlt r4, 3, +7; jsgt r4, 10, +6; jslt r4, 0, +5; stxdw [r10-8], r4; \
    BACK; add r4, -3; OUT
# nor does a join of slots, where a comparison's edges meet
10:10 10:10 1 8 8: ldxdw r4, [r1+0]; mov r0, 0; jlt r4, 3, +8; jsgt r4, 10, +7; jslt r4, 0, +6; stxdw [r10-8], r4; \
    jeq r2, 0, +0; BACK; add r4, -3; OUT
# a range with a pointer, and a helper that the method may not call: the lower number
5:14 0:9 1 0 1: KEEP; mov r1, 0; mov r2, r10; add r2, -8; mov r3, 8; call 3; exit
# a load that leaves the stack is refused for that, though it may touch an unset slot
2:10 0:9 1 0 1: KEEP; stb [r10-8], 0; ldxdw r0, [r10-4]; exit
# each range by itself: the first leaves the stack, the second is over an unset slot
8:5 0:9 2 0 1: KEEP; stb [r10-8], 0; mov r1, r10; add r1, -4; mov r2, 8; mov r3, r10; add r3, -8; mov r4, 8; \
    call 7; exit
# the first range is over a number, the second over a pointer
7:17 0:9 2 0 1: KEEP; mov r1, r10; add r1, -16; mov r2, 4; mov r3, r10; add r3, -8; mov r4, 8; call 7; exit
# a range that is written may be over an unset slot
ok 0:9 1 0 1: KEEP; stb [r10-8], 0; mov r1, 0; mov r2, r10; add r2, -8; mov r3, 8; call 2; mov r0, 0; exit
# no slot begins at the stack's end, so that a pointer isn't stored whole there
0:9 0:9 1 0 1: stxdw [r10+0], r3; mov r0, 0; exit
# a jump keeps slots
ok 0:9 1 0 1: KEEP; mov r0, 0; ja +0; BACK; stb [r4+0], 1; exit
# so does a wide load
ok 0:9 1 0 1: KEEP; lddw r0, 5; BACK; stb [r4+0], 1; exit
# a range of length 0 or 8 may read a pointer
4:17 0:9 2 8 1: KEEP; and r2, 8; mov r1, r10; add r1, -8; call 8; exit
# a helper that reads a range and writes another overwrites the second
8:5 0:9 1 0 1: KEEP; mov r1, r10; add r1, -16; mov r2, 4; mov r3, r10; add r3, -8; mov r4, 8; call 6; \
    ldxdw r0, [r10-8]; exit
# a range of 0 to 8 bytes in the slot below leaves this slot's pointer
ok 0:9 1 8 1: KEEP; stxdw [r10-16], r3; and r2, 15; mov r6, r2; mov r1, 0; mov r2, r10; add r2, -16; mov r3, r6; \
    call 2; BACK; exit
# one of 8 bytes, in this slot or in the one below, doesn't
9:5 0:9 1 8 1: KEEP; and r2, 8; mov r6, r2; mov r1, 0; mov r2, r10; add r2, -16; add r2, r6; mov r3, 8; call 2; \
    BACK; exit
";

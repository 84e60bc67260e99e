//! Methods with loops, as compilers and authors write them.

/// Rows as `super::found` reads them: the heads are compared.
pub const HEADS: &str = "\
# the sum of the input's bytes
ok 1 16 0 / 2: r0 any, r4 0 16 / mov r0, 0; mov r4, 0; jge r4, r2, +6; mov r5, r1; add r5, r4; ldxb r5, [r5+0]; \
    add r0, r5; add r4, 1; ja -7; exit
# no end at all
ok 1 16 0 / 1: / mov r0, 0; ja -1
# bytes of the stack, through a pointer that is made anew: the slots that a store may spoil are declared
ok 1 16 0 / 1: r4 0 63, s56 any, s57 any, s58 any, s59 any, s60 any, s61 any, s62 any, s63 any / \
    mov r4, 0; mov r0, r10; sub r0, 64; add r0, r4; stb [r0+0], 1; add r4, 1; jne r4, 64, -6; mov r0, r4; exit
# a pointer that moves up to the input's end
ok 1 16 0 / 3: r0 any, r1 in 0 16 / mov r0, 0; mov r4, r1; add r4, r2; jge r1, r4, +4; ldxb r5, [r1+0]; \
    add r0, r5; add r1, 1; ja -5; exit
# registers that a call leaves unset, and a key without a bound
ok 2 16 0 / 1: r1 unset, r2 unset, r3 unset, r6 any / mov r6, 0; mov r1, r6; mov r2, r10; add r2, -8; mov r3, 8; \
    call 3; add r6, 8; ja -7
# do-while
ok 1 16 0 / 1: r0 0 8 / mov r0, 0; add r0, 1; jlt r0, 9, -2; exit
# down to 0, as a signed number
ok 1 16 0 / 2: r0 any, r4 0 5 / mov r4, 5; mov r0, 0; add r0, 1; add r4, -1; jsge r4, 0, -3; exit
# down to -1, which the head sees
ok 1 16 0 / 2: r0 any, r4 signed -1 5 / mov r4, 5; mov r0, 0; jslt r4, 0, +3; add r0, 1; add r4, -1; ja -4; exit
# the edge that goes back is dead
ok 1 16 0 / 1: / mov r0, 0; add r0, 1; jlt r0, 1, -2; mov r0, 0; exit
# no jump goes back
none 1 16 0 / none / mov r0, 0; ja +0; exit
# no flow comes to the head from lower slots
none 1 16 0 / no head for the jump at slot 3 / mov r0, 0; ja +1; add r0, 1; jlt r0, 5, -2; exit
# a jump to before the first slot
none 1 16 0 / no head for the jump at slot 0 / ja -2
";

/// The same, and the verdict alone is compared.
pub const VERDICTS: &str = "\
# up by 1, with the bound in the code and in a register
ok 1 16 0 / mov r0, 0; mov r4, 0; mov r5, r1; add r5, r4; ldxb r5, [r5+0]; add r0, r5; add r4, 1; jne r4, 16, -6; exit
ok 1 16 0 / mov r0, 0; mov r3, 16; mov r4, 0; mov r5, r1; add r5, r4; ldxb r5, [r5+0]; add r0, r5; add r4, 1; \
    jne r4, r3, -6; exit
ok 1 16 0 / mov r0, 0; mov r3, 16; mov r4, 0; mov r5, r1; add r5, r4; ldxb r5, [r5+0]; add r0, r5; add r4, 1; \
    jlt r4, r3, -6; exit
# up by 4, to the last whole word
ok 1 16 0 / mov r0, 0; mov r4, 0; mov r5, r1; add r5, r4; ldxw r5, [r5+0]; add r0, r5; add r4, 4; jle r4, 12, -6; exit
ok 1 19 0 / mov r0, 0; mov r4, 0; mov r5, r1; add r5, r4; ldxw r5, [r5+0]; add r0, r5; add r4, 4; jlt r4, 16, -6; exit
# down by 1, from a constant and from the input's length
ok 1 16 0 / mov r0, 0; mov r4, 16; add r4, -1; mov r5, r1; add r5, r4; ldxb r5, [r5+0]; add r0, r5; jne r4, 0, -6; exit
ok 1 16 0 / mov r0, 0; jeq r2, 0, +6; add r2, -1; mov r5, r1; add r5, r2; ldxb r5, [r5+0]; add r0, r5; \
    jne r2, 0, -6; exit
# down by 4
ok 1 16 0 / mov r0, 0; mov r4, 12; mov r5, r1; add r5, r4; ldxw r5, [r5+0]; add r0, r5; add r4, -4; jsge r4, 0, -6; exit
# from a negative number
ok 1 16 0 / mov r0, 0; mov r4, -8; add r0, r4; add r4, 1; jslt r4, 0, -3; exit
# a counter of 32 bits
ok 1 16 0 / mov r0, 0; mov32 r4, 0; mov r5, r1; add r5, r4; ldxb r5, [r5+0]; add r0, r5; add32 r4, 1; \
    jlt32 r4, 16, -6; exit
ok 1 16 0 / mov32 r0, 0; mov32 r4, 0; jge32 r4, r2, +6; mov r5, r1; add r5, r4; ldxb r5, [r5+0]; add32 r0, r5; \
    add32 r4, 1; ja -7; exit
# the input's bytes by a pointer, up to an end before the last whole word
ok 1 16 0 / mov r0, 0; mov r4, r1; add r4, 13; ldxw r5, [r1+0]; add r0, r5; add r1, 4; jlt r1, r4, -4; exit
# two buffers are compared
ok 1 16 0 / mov r0, 0; mov r4, 0; mov r5, r1; add r5, r4; ldxb r6, [r5+0]; ldxb r7, [r5+8]; jne r6, r7, +2; \
    add r4, 1; jlt r4, 8, -7; mov r0, r4; exit
# a search with two exits
ok 1 16 0 / mov r4, 0; jge r4, r2, +6; mov r5, r1; add r5, r4; ldxb r5, [r5+0]; jeq r5, 58, +3; add r4, 1; ja -7; \
    mov r4, -1; mov r0, r4; exit
# a loop in a loop
ok 1 64 0 / mov r0, 0; mov r4, 0; mov r5, 0; mov r6, r4; lsh r6, 3; add r6, r5; mov r7, r1; add r7, r6; \
    ldxb r7, [r7+0]; add r0, r7; add r5, 1; jne r5, 8, -9; add r4, 1; jne r4, 8, -12; exit
# the same down and up, with the bound of one in the other
ok 1 16 0 / mov r0, 0; mov r4, 16; mov r5, 0; mov r6, r1; add r6, r5; ldxb r6, [r6+0]; add r0, r6; add r5, 1; \
    jlt r5, r4, -6; add r4, -1; jne r4, 0, -9; exit
# two loops, one after the other
ok 1 16 16 / mov r4, 0; mov r5, r3; add r5, r4; stb [r5+0], 0; add r4, 1; jne r4, 16, -5; jeq r2, 0, +7; \
    mov r5, r1; add r5, r2; ldxb r6, [r5-1]; mov r5, r3; add r5, r2; stxb [r5-1], r6; add r2, -1; jne r2, 0, -8; \
    mov r0, 0; exit
# two jumps back to one head
ok 1 16 0 / mov r0, 0; mov r4, 0; jge r4, r2, +8; mov r5, r1; add r5, r4; ldxb r5, [r5+0]; add r4, 1; \
    jeq r5, 32, -6; add r0, 1; jne r5, 10, -8; mov r0, -1; exit
# the input is copied to the output
ok 1 16 16 / mov r4, 0; jge r4, r2, +7; mov r5, r1; add r5, r4; ldxb r6, [r5+0]; mov r5, r3; add r5, r4; \
    stxb [r5+0], r6; add r4, 1; ja -9; mov r0, r2; exit
# the stack's bytes, by a pointer up to its end, and down
ok 1 0 0 / mov r5, r10; add r5, -64; stb [r5+0], 0; add r5, 1; jne r5, r10, -3; mov r0, 0; exit
ok 1 0 0 / mov r5, r10; mov r4, r10; add r4, -64; add r5, -1; stb [r5+0], 0; jgt r5, r4, -3; mov r0, 0; exit
# slots of the stack, by a pointer to an end inside
ok 1 0 0 / mov r5, r10; add r5, -64; mov r4, r10; add r4, -15; stdw [r5+0], 0; add r5, 8; jlt r5, r4, -3; \
    mov r0, 0; exit
# a counter and a sum in slots of the stack
ok 1 16 0 / stdw [r10-8], 0; stdw [r10-16], 0; ldxdw r4, [r10-8]; jge r4, r2, +8; add r4, r1; ldxb r5, [r4+0]; \
    ldxdw r6, [r10-16]; add r6, r5; stxdw [r10-16], r6; ldxdw r4, [r10-8]; add r4, 1; stxdw [r10-8], r4; \
    ja -11; ldxdw r0, [r10-16]; exit
# a helper in a loop: what it needs later is in registers 6 to 9
ok 2 16 8 / mov r6, 0; mov r7, r3; mov r1, r6; mov r2, r7; mov r3, 8; call 2; jslt r0, 0, +2; add r6, 8; \
    jlt r6, 64, -7; mov r0, r6; exit
# bits are counted, the greatest common divisor, Fibonacci's numbers
ok 1 16 0 / mov r0, 0; mov r4, r2; jeq r4, 0, +5; mov r5, r4; and r5, 1; add r0, r5; rsh r4, 1; ja -6; exit
ok 1 16 0 / mov r0, 12; mov r4, r2; jeq r4, 0, +5; mov r5, r0; mod r5, r4; mov r0, r4; mov r4, r5; ja -6; exit
ok 1 16 0 / mov r0, 0; mov r4, 1; jeq r2, 0, +5; mov r5, r0; add r5, r4; mov r0, r4; mov r4, r5; add r2, -1; \
    ja -7; exit
# a search that halves what is left
ok 1 16 0 / mov r4, 0; mov r5, 16; jge r4, r5, +11; mov r6, r4; add r6, r5; rsh r6, 1; mov r7, r1; add r7, r6; \
    ldxb r7, [r7+0]; jge r7, 100, +3; mov r4, r6; add r4, 1; ja -11; mov r5, r6; ja -13; mov r0, r4; exit
# a number that is read bounds the loop, once it is tested
ok 1 16 0 / mov r0, 0; ldxb r3, [r1+0]; jgt r3, 15, +7; mov r4, 0; jge r4, r3, +5; mov r5, r1; add r5, r4; \
    ldxb r0, [r5+1]; add r4, 1; ja -6; exit
# pointers to two buffers are exchanged
ok 1 16 0 / mov r0, 0; mov r4, r1; add r1, 8; mov r5, r1; mov r1, r4; mov r4, r5; ldxb r5, [r1+7]; add r0, 1; \
    jlt r0, 9, -6; exit
# insertion sort in the stack, by clang
ok 1 16 16 / mov r2, 0; mov r4, r10; add r4, -16; add r4, r2; mov r5, r1; add r5, r2; ldxb r5, [r5+0]; \
    stxb [r4+0], r5; add r2, 1; jne r2, 16, -9; mov r1, 1; mov r2, r10; add r2, -16; add r2, r1; \
    ldxb r2, [r2+0]; mov r5, r1; mov r4, r5; add r4, -1; mov r0, r4; lsh r0, 32; rsh r0, 32; mov r6, r10; \
    add r6, -16; add r6, r0; ldxb r6, [r6+0]; mov r7, r2; mov r0, r5; jle32 r6, r7, +9; mov r0, r10; \
    add r0, -16; add r0, r5; stxb [r0+0], r6; mov r0, 0; mov r6, r4; add r6, 1; mov r5, r4; jsgt r6, 1, -20; \
    and r0, 15; mov r4, r10; add r4, -16; add r4, r0; stxb [r4+0], r2; add r1, 1; jne r1, 16, -33; mov r1, 0; \
    mov r2, r3; add r2, r1; mov r4, r10; add r4, -16; add r4, r1; ldxb r4, [r4+0]; stxb [r2+0], r4; add r1, 1; \
    jeq r1, 16, +1; ja -10; mov r0, 0; exit
# a cyclic redundancy check, bit by bit
ok 1 16 16 / mov r0, 0; jeq r2, 0, +19; mov32 r0, -1; mov r3, 0; mov r4, r1; add r4, r3; ldxb r4, [r4+0]; \
    xor32 r0, r4; mov32 r4, 8; mov32 r5, r0; rsh32 r5, 1; and32 r0, 1; neg32 r0; and32 r0, -306674912; \
    xor32 r0, r5; add32 r4, -1; jeq32 r4, 0, +1; ja -9; add r3, 1; jlt r3, r2, -16; xor32 r0, -1; exit
# decimal digits
ok 1 16 16 / mov r0, 0; jeq r2, 0, +14; mov r0, 0; mov r3, 0; mov r4, r1; add r4, r3; ldxb r4, [r4+0]; \
    add32 r4, -48; mov32 r5, r4; and32 r5, 255; jgt32 r5, 9, +5; and r4, 255; mul r0, 10; add r0, r4; \
    add r3, 1; jlt r3, r2, -12; exit
# bytes in reverse, from both ends
ok 1 16 16 / mov r2, 0; mov r4, 15; mov r5, r1; add r5, r4; ldxb r5, [r5+0]; mov r0, r3; add r0, r2; \
    stxb [r0+0], r5; mov r5, r3; add r5, r4; mov r0, r1; add r0, r2; ldxb r0, [r0+0]; stxb [r5+0], r0; \
    add r4, -1; add r2, 1; jlt r2, r4, -15; mov r0, 0; exit
# parts of lengths that stand in the input
ok 1 16 16 / mov r4, 0; mov r3, 0; mov r0, r3; jge r4, r2, +22; mov r7, r2; sub r7, r4; mov r5, r1; add r5, r4; \
    ldxb r0, [r5+0]; mov32 r5, 1; mov32 r6, 1; jlt r7, r0, +1; mov32 r6, 0; jeq r0, 0, +1; mov32 r5, 0; \
    or32 r5, r6; mov r6, 0; jne32 r5, 0, +1; mov r6, r0; add r6, r4; xor32 r5, 1; add r3, r5; mov r0, -22; \
    and32 r5, 1; mov r4, r6; jne32 r5, 0, -24; exit
";

/// Rows that no heads of this form would pass: what they need is not a range of one place.
pub const REFUSED: &str = "\
# a pointer that is compared for equality with an end that is no constant
4:10 1 16 0 / mov r0, 0; jeq r2, 0, +6; mov r4, r1; add r4, r2; ldxb r5, [r1+0]; add r0, r5; add r1, 1; \
    jne r1, r4, -4; exit
# a pointer that moves with a counter
2:10 1 16 0 / mov r0, 0; mov r4, 0; ldxb r5, [r1+0]; add r0, r5; add r1, 1; add r4, 1; jlt r4, 16, -5; exit
# steps of 4 to a bound that is met exactly, where only multiples of 4 stay in the input
4:10 1 16 0 / mov r0, 0; mov r4, 0; mov r5, r1; add r5, r4; ldxw r5, [r5+0]; add r0, r5; add r4, 4; jne r4, 16, -6; exit
# a number that was found unset
2:5 1 16 0 / mov r4, 0; mov r0, 0; add r0, r4; mov r4, r1; jlt r0, 5, -3; exit
";

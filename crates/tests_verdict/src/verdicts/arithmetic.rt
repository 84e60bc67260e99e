//! Arithmetic: which is refused of a pointer, and which bounds are known through constants.

/// Rows as `super::check` reads them.
pub const ARITHMETIC: &str = "# refused, with no input and no output
0:7 1 0 0: mul r1, 2; exit
0:7 1 0 0: and r1, 0; exit
0:7 1 0 0: neg r1; exit
0:7 1 0 0: le16 r1; exit
0:7 1 0 0: bswap64 r1; exit
# in 32 bits a number is neither added to a pointer nor subtracted
0:7 1 0 0: add32 r1, 1; exit
0:7 1 0 0: sub32 r1, 1; exit
0:7 1 0 0: add32 r2, r1; exit
# two pointers, a number less a pointer, and a number with a pointer
0:7 1 0 0: add r1, r3; exit
0:7 1 0 0: sub r1, r3; exit
1:7 1 0 0: mov r0, 0; sub r0, r1; exit
0:7 1 0 0: or r2, r1; exit
# copies that keep not all of a pointer
0:7 1 0 0: mov32 r0, r1; exit
0:7 1 0 0: movsx8 r0, r1; exit
0:7 1 0 0: movsx32 r0, r1; exit
0:7 1 0 0: movsx8_32 r0, r1; exit
# operands that are unset, either of them
0:5 1 0 0: add r4, r1; exit
0:5 1 0 0: add r2, r4; exit
0:5 1 0 0: neg r4; exit
0:5 1 0 0: be16 r4; exit
0:5 1 0 0: movsx8 r0, r4; exit
0:6 1 0 0: add r10, r2; exit
0:6 1 0 0: neg32 r10; exit
0:6 1 0 0: be16 r10; exit
0:6 1 0 0: movsx8 r10, r2; exit
0:6 1 0 0: ldxsb r10, [r1+0]; exit
2:10 1 0 0: mov r0, 0; sub r1, r2; ldxb r0, [r1+0]; exit
0:10 1 0 0: ldxsb r0, [r1+0]; exit
# the least in_cap with which a load is accepted, and one less
0:10 1 1* 0: ldxsb r0, [r1+0]; exit
0:10 1 4* 0: ldxsw r0, [r1+0]; exit
# the least place is 0, the next 1, 0
1:10 1 2* 0: add r1, 1; ldxb r0, [r1+0]; exit
2:10 1 1* 0: add r1, 1; sub r1, 1; ldxb r0, [r1+0]; exit
2:10 1 2* 0: mov r4, 1; add r4, r1; ldxb r0, [r4+0]; exit
# 3 * 5 - 7 is 8
4:10 1 9* 0: mov r4, 3; mul r4, 5; sub r4, 7; add r1, r4; ldxb r0, [r1+0]; exit
# the remainder of -13 by 3 is -1
3:10 1 2* 0: mov r4, -13; smod r4, 3; sub r1, r4; ldxb r0, [r1+0]; exit
# 9 by 0 is 0
3:10 1 1* 0: mov r4, 9; div r4, 0; add r1, r4; ldxb r0, [r1+0]; exit
# -(-3) is 3
3:10 1 4* 0: mov r4, -3; neg r4; add r1, r4; ldxb r0, [r1+0]; exit
# a move of 32 bits zeroes the upper half: 2^32 - 1, and one more, by 2^32
4:10 1 2* 0: mov32 r4, -1; add r4, 1; rsh r4, 32; add r1, r4; ldxb r0, [r1+0]; exit
# 0x0100 as big-endian is 0x0001
3:10 1 2* 0: mov r4, 256; be16 r4; add r1, r4; ldxb r0, [r1+0]; exit
# the byte 0xff is -1
3:10 1 2* 0: mov r4, 255; movsx8 r4, r4; sub r1, r4; ldxb r0, [r1+0]; exit
3:10 1 256* 0: mov r4, 255; neg r4; sub r1, r4; ldxb r0, [r1+0]; exit
# places that depend on the input's length
1:10 1 16 0: add r1, r2; ldxb r0, [r1+0]; exit
1:10 1 16 0: sub r1, r2; ldxb r0, [r1+0]; exit
3:10 1 16 0: mov r4, r2; mul r4, 5; add r1, r4; ldxb r0, [r1+0]; exit
# pointers moved by what isn't known, and not used
ok 1 0 0: mov r0, 0; add r1, r2; exit
ok 1 0 0: mov r0, 0; sub r1, r2; exit
ok 1 0 0: mov r0, 0; add r1, 1; sub r1, 1; exit
";

//! Methods of straight code and jumps, each with its verdict.

/// Rows as `super::check` reads them.
pub const METHODS: &str = "# refused, with no input and no output
0:5 1 0 0: exit
0:1 1 0 0: ja -1; exit
0:2 1 0 0: ja +1; lddw r0, 0; exit
0:2 1 0 0: ja +2; mov r0, 0; exit
1:2 1 0 0: mov r0, 0; ja +1; exit
0:3 1 0 0: mov r0, 0
1:3 1 0 0: mov r0, 0; lddw r0, 0
0:4 1 0 0: call local +0; exit
0:10 1 0 0: stxdw [r10-520], r2; mov r0, 0; exit
0:10 1 0 0: stxdw [r10-4], r2; mov r0, 0; exit
0:10 1 0 0: ldxb r0, [r2+0]; exit
1:15 1 0 0: mov r0, r1; exit
0:6 1 0 0: mov r10, 0; exit
0:6 1 0 0: add r10, 0; exit
0:6 1 0 0: lddw r10, 0; exit
0:6 1 0 0: ldxb r10, [r1+0]; exit
0:9 1 0 0: stxdw [r10-8], r1; exit
0:10 1 0 0: stb [r1+0], 1; exit
0:12 1 0 0: call 16; exit
1:13 1 0 0: mov r1, r10; call 13; exit
# a helper leaves registers 1 to 5 unset
2:5 1 0 0: mov r1, 0; call 13; mov r0, r1; exit
2:5 1 0 0: mov r1, 0; call 13; call 13; exit
# ranges: past the stack's end, a pointer for the length, a number for the pointer, the input for writing
4:10 1 0 0: mov r1, 0; mov r2, r10; add r2, -8; mov r3, 9; call 2; exit
3:13 1 0 0: mov r2, r1; mov r1, 0; mov r3, r10; call 2; exit
2:13 1 0 0: mov r1, 0; mov r3, 0; call 2; exit
3:11 1 0 0: mov r2, r1; mov r1, 0; mov r3, 0; call 2; exit
# the lower slot, and at a slot the lower rule
0:6 1 0 0: mov r10, 0; mov r0, r6; exit
0:5 1 0 0: mov r10, r6; exit
0:9 1 0 0: stxdw [r10-4], r1; exit
# behind an exit no frame is, and rules 1 to 4 hold
2:1 1 0 0: mov r0, 0; exit; ja -1; exit
2:4 1 0 0: mov r0, 0; exit; call local +0; exit
# accepted, likewise
ok 1 0 0: mov r0, 0; exit
ok 1 0 0: stxdw [r10-512], r2; mov r0, 0; exit
ok 1 0 0: ja +1; mov r0, r6; mov r0, 0; exit
ok 1 0 0: mov r0, 0; exit; mov r0, r6; exit
ok 1 0 0: mov r1, 0; mov r2, r10; add r2, -8; mov r3, 8; call 2; exit
ok 1 0 0: mov r1, 0; mov r2, r10; mov r3, 0; call 2; exit
# what the flags and the caps decide
0:11 1 1 0: stb [r1+0], 1; exit
0:10 1 0 0: ldxb r0, [r1+0]; exit
ok 1 1 0: ldxb r0, [r1+0]; exit
1:10 1 1 0: add r1, 1; ldxb r0, [r1+0]; exit
ok 1 2 0: add r1, 1; ldxb r0, [r1+0]; exit
1:13 1 0 4: mov r1, 5; call 13; exit
ok 1 0 5: mov r1, 5; call 13; exit
3:14 1 3 0: mov r2, r1; mov r1, 0; mov r3, 3; call 3; exit
ok 2 3 0: mov r2, r1; mov r1, 0; mov r3, 3; call 3; exit
";

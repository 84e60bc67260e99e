//! Methods with loops, with the verdicts on them.

/// Rows as `super::is_right` reads them: a verdict, heads, and a method.
pub const ROWS: &str = "\
# the sum of the input's bytes: each place that the loop changes has to be declared, with what its store bounds
ok | 2 r0 any, r4 0 16 | 1 16 0: mov r0, 0; mov r4, 0; SUM
8:1 | 2 r4 0 16 | 1 16 0: mov r0, 0; mov r4, 0; SUM
8:1 | 2 r0 any, r4 0 15 | 1 16 0: mov r0, 0; mov r4, 0; SUM
ok | 2 r0 any, r4 1 16 | 1 16 0: mov r0, 0; mov r4, 0; SUM
ok | 2 r0 any, r4 any | 1 16 0: mov r0, 0; mov r4, 0; SUM
# a jump back has to go to a head
8:1 | 1 r0 any, r4 0 16 | 1 16 0: mov r0, 0; mov r4, 0; SUM
2:1 | 1 | 1 0 0: mov r0, 0; mov r0, 1; ja -3
# a loop that never ends
ok | 1 | 1 0 0: mov r0, 0; ja -1
# a loop over the stack overwrites its slots
6:1 | 1 r4 0 63 | 1 0 0: mov r4, 0; FILL
ok | 1 r4 0 63, s56 any, s57 any, s58 any, s59 any, s60 any, s61 any, s62 any, s63 any | 1 0 0: mov r4, 0; FILL
4:10 | 1 r4 0 64 | 1 0 0: mov r4, 0; FILL
# two pointers into one region are compared, if both are within it or at its end
ok | 3 r0 any, r1 in 0 16 | 1 16 0: mov r0, 0; mov r4, r1; add r4, r2; jge r1, r4, +4; WALK
3:8 | 3 r0 any, r1 in 0 17 | 1 16 0: mov r0, 0; mov r4, r1; add r4, r2; jge r1, r4, +4; WALK
3:8 | 3 r0 any, r1 in 0 16 | 1 16 0: mov r0, 0; mov r4, r1; add r4, r2; jsge r1, r4, +4; WALK
3:8 | 3 r0 any, r1 in 0 16 | 1 16 0: mov r0, 0; mov r4, r3; add r4, r2; jge r1, r4, +4; WALK
# calls in a loop
ok | 1 r1 unset, r2 unset, r3 unset, r6 any | 2 0 0: mov r6, 0; mov r1, r6; mov r2, r10; add r2, -8; mov r3, 8; \
    call 3; add r6, 8; ja -7
ok | 0 | 2 0 0: mov r1, 1; call 14; exit
ok | 1 r0 any | 1 0 0: mov r0, 0; add r0, 1; jlt r0, 9, -2; exit
# links end at a head
3:10 | 1 | 1 16 0: mov r6, r2; jgt r6, 3, +3; add r1, r2; ldxb r0, [r1+12]; exit; mov r0, 0; exit
ok | 5 | 1 16 0: mov r6, r2; jgt r6, 3, +3; add r1, r2; ldxb r0, [r1+12]; exit; mov r0, 0; exit
# nothing flows to the head from below it
3:1 | 2 | 1 0 0: mov r0, 0; ja +1; add r0, 1; jlt r0, 5, -2; exit
ok | 2 r0 any, r4 signed -1 5 | 1 0 0: mov r4, 5; mov r0, 0; add r0, 1; add r4, -1; jsge r4, 0, -3; exit
# what falls through a comparison that goes back, and what begins at slot 0, is judged
3:5 | 1 r0 any | 1 0 0: mov r0, 0; add r0, 1; jlt r0, 1, -2; mov r0, r9; exit
0:5 | 0 | 1 0 0: mov r0, r9; exit
";

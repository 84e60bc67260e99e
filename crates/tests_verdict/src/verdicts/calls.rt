//! Calls of every helper, each with its verdict.

/// Rows as `super::check` reads them.
pub const CALLS: &str = "# an id that is no helper's
0:12 3 0 0: call 0; exit
0:12 1 0 0: call 0; exit
0:12 3 0 0: call 4294967295; exit
# each helper with its arguments, in a method that may write
ok 3 8 8: call 1; exit
ok 3 8 8: mov r1, 0; mov r2, r3; mov r3, 8; call 2; exit
ok 3 8 8: mov r3, r2; mov r2, r1; mov r1, 0; call 3; exit
ok 3 8 8: mov r1, 9; call 4; exit
ok 3 8 8: call 5; exit
ok 3 8 8: mov r4, 8; call 6; exit
ok 3 8 8: mov r4, 8; call 7; exit
ok 3 8 8: call 8; exit
ok 3 8 8: mov r4, 8; call 9; exit
ok 3 8 8: mov r4, 8; call 10; exit
ok 3 8 8: call 11; exit
ok 3 8 8: mov r4, 8; call 12; exit
ok 3 8 8: mov r1, 8; call 13; exit
ok 3 8 8: mov r1, 9; call 14; exit
ok 3 8 8: call 15; exit
# and in one that only reads
ok 1 8 8: call 1; exit
ok 1 8 8: mov r1, 0; mov r2, r3; mov r3, 8; call 2; exit
3:14 1 8 8: mov r3, r2; mov r2, r1; mov r1, 0; call 3; exit
1:14 1 8 8: mov r1, 9; call 4; exit
0:14 1 8 8: call 5; exit
ok 1 8 8: mov r4, 8; call 6; exit
1:14 1 8 8: mov r4, 8; call 7; exit
0:14 1 8 8: call 8; exit
ok 1 8 8: mov r4, 8; call 9; exit
1:14 1 8 8: mov r4, 8; call 10; exit
0:14 1 8 8: call 11; exit
ok 1 8 8: mov r4, 8; call 12; exit
ok 1 8 8: mov r1, 8; call 13; exit
1:14 1 8 8: mov r1, 9; call 14; exit
ok 1 8 8: call 15; exit
1:14 1 0 0: mov r4, 0; call 10; exit
ok 2 0 0: mov r4, 0; call 10; exit
# an argument that is not set
1:5 1 0 0: mov r1, 5; call 6; exit
0:5 1 8 8: call 6; exit
0:5 1 8 8: call 7; exit
0:5 1 8 8: call 9; exit
0:5 1 8 8: call 10; exit
0:5 1 8 8: call 12; exit
# a range that leaves its region
1:10 3 8 7: mov r4, 8; call 6; exit
1:10 3 8 7: mov r4, 8; call 7; exit
1:10 3 8 8: mov r2, 9; call 8; exit
1:10 3 8 7: mov r4, 8; call 9; exit
1:10 3 8 7: mov r4, 8; call 10; exit
1:10 3 8 8: mov r2, 9; call 11; exit
1:10 1 8 7: mov r4, 8; call 12; exit
ok 3 0 0: mov r4, 0; call 12; exit
# one that is written, in the input
2:11 1 8 8: mov r3, r1; mov r4, 8; call 6; exit
2:10 1 8 8: mov r3, r1; mov r4, 9; call 6; exit
2:11 1 8 8: mov r3, r1; mov r4, 0; call 9; exit
2:11 1 8 8: mov r3, r1; mov r4, 8; call 12; exit
ok 3 8 8: mov r3, r1; mov r4, 8; call 7; exit
3:11 1 8 8: mov r3, r1; mov r1, 0; mov r4, 0; call 6; exit
# an argument of the wrong kind
2:13 1 8 8: mov r1, 5; mov r4, 8; call 6; exit
1:13 1 8 8: mov r4, r1; call 12; exit
2:13 3 8 8: mov r3, 0; mov r4, 0; call 7; exit
0:13 3 8 8: call 4; exit
0:13 1 8 8: call 4; exit
0:13 3 8 8: call 14; exit
1:13 3 8 8: mov r2, r1; call 8; exit
1:13 1 8 8: mov r1, 9; call 13; exit
# what a helper leaves
1:5 1 0 0: call 1; mov r0, r1; exit
1:5 1 0 0: call 15; mov r0, r2; exit
1:5 1 0 0: call 15; mov r0, r3; exit
2:5 1 0 0: mov r4, 0; call 15; mov r0, r4; exit
2:5 1 0 0: mov r5, 0; call 15; mov r0, r5; exit
ok 1 0 0: mov r6, 0; call 15; mov r0, r6; exit
ok 1 0 0: mov r9, 0; call 15; mov r0, r9; exit
2:13 1 8 4096: call 1; mov r1, r0; call 13; exit";

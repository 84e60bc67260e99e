//! Branches: their operands and targets, and the kinds at merge points.

/// Rows as `super::check` reads them.
pub const BRANCHES: &str = "# refused, with an input of one byte
0:8 1 1 0: jeq r1, 0, +0; exit
0:8 1 1 0: jgt r2, r1, +0; exit
0:8 1 1 0: jslt32 r1, 0, +0; exit
0:8 1 1 0: jset32 r2, r10, +0; exit
0:5 1 1 0: jeq r4, 0, +0; exit
0:5 1 1 0: jgt r2, r4, +0; exit
1:1 1 1 0: mov r0, 0; jeq r2, 0, -1; exit
1:1 1 1 0: mov r0, 0; ja32 -1; exit
0:2 1 1 0: jeq r2, 0, +1; exit
0:2 1 1 0: jeq r2, 0, +1; lddw r0, 0; exit
0:2 1 1 0: ja32 +2; mov r0, 0; exit
# where the edges meet: unset with a number, a number with a pointer, two regions
2:5 1 1 0: jeq r2, 0, +1; mov r0, 0; exit
2:5 1 1 0: jeq r2, 0, +1; mov r1, 0; mov r0, r1; exit
2:5 1 1 0: jeq r2, 0, +1; mov r1, r3; mov r0, r1; exit
# unset with a pointer, along a jump as along a branch
2:5 1 1 0: jeq r2, 0, +1; mov r0, r1; exit
4:5 1 1 0: jeq r2, 0, +2; mov r0, r1; ja32 +1; mov r0, 0; exit
# one region at two places, the second past its end
2:10 1 1 0: jeq r2, 0, +1; add r1, 1; ldxb r0, [r1+0]; exit
# each edge has a frame of its own: the pointer that is left alone is returned at the last slot
4:15 1 1 0: jeq r2, 0, +2; mov r0, 0; exit; mov r0, r1; exit
# accepted, likewise
ok 1 1 0: mov r0, 0; jeq r2, 0, +0; exit
ok 1 1 0: mov r0, 0; jeq r2, 0, +1; mov r0, 1; exit
ok 1 1 0: jeq r2, 0, +1; mov r1, r3; mov r0, 0; exit
ok 1 1 0: jeq r2, 0, +2; mov r0, 0; ja +1; mov r0, 1; exit
ok 1 1 0: ja32 +1; mov r0, r6; ldxb r0, [r1+0]; exit
";

//! The ends of every helper's answer: less its least number, it is an offset into the output.

/// Rows as `super::check` reads them, with verdicts in rule sets 3 and 2: an output that each answer
/// stays in, and one that is a byte shorter.
pub const ANSWERS: &str = "\
8:10 8:10 3 0 67*: mov r7, r3; WRITE 64; call 2; add r0, 2; USE
8:10 8:10 3 0 92*: mov r7, r3; WRITE 64; call 3; add r0, 27; USE
5:10 5:10 3 0 28*: mov r7, r3; mov r1, 0; call 4; add r0, 27; USE
4:10 4:10 3 0 3*: mov r7, r3; call 5; add r0, 2; USE
10:10 10:10 3 0 94*: mov r7, r3; KEY; ROOM 32; call 6; add r0, 61; USE
10:10 10:10 3 0 29*: mov r7, r3; KEY; ROOM 32; call 7; add r0, 28; USE
7:10 7:10 3 0 62*: mov r7, r3; KEY; call 8; add r0, 61; USE
10:10 10:10 3 0 94*: mov r7, r3; KEY; ROOM 32; call 9; add r0, 61; USE
10:10 10:10 3 0 29*: mov r7, r3; KEY; ROOM 32; call 10; add r0, 28; USE
7:10 7:10 3 0 62*: mov r7, r3; KEY; call 11; add r0, 61; USE
10:10 10:10 3 0 126*: mov r7, r3; KEY; ROOM 64; call 12; add r0, 61; USE
5:10 5:10 3 0 1*: mov r7, r3; mov r1, 0; call 13; add r0, 0; USE
5:10 5:10 3 0 18*: mov r7, r3; mov r1, 0; call 14; add r0, 17; USE
10:10 7:12 3 0 3*: mov r7, r3; KEY; ROOM 32; call 16; add r0, 1; USE
10:10 7:12 3 0 67*: mov r7, r3; mov r1, r10; add r1, -128; mov r2, 64; ROOM 32; call 17; add r0, 34; USE
10:10 7:12 3 0 126*: mov r7, r3; KEY; ROOM 64; call 18; add r0, 61; USE
# the length of the range, where that is less than 64 or more
10:10 10:10 3 0 70*: mov r7, r3; KEY; ROOM 8; call 12; add r0, 61; USE
10:10 7:12 3 0 70*: mov r7, r3; KEY; ROOM 8; call 18; add r0, 61; USE
10:10 10:10 3 0 126*: mov r7, r3; KEY; mov r3, r10; add r3, -128; mov r4, 128; call 12; add r0, 61; USE
10:10 7:12 3 0 126*: mov r7, r3; KEY; mov r3, r10; add r3, -128; mov r4, 128; call 18; add r0, 61; USE
# any number
3:10 3:10 3 0 4096: mov r7, r3; call 1; USE
3:10 3:10 3 0 4096: mov r7, r3; call 15; USE
";

//! Results of the operations on 32 bits.

/// A line has the operation's name, the opcode, the offset field, the destination, and the result for
/// each operand; all numbers but the offset are hexadecimal.
pub const ROWS: &str = "\
ADD 0c 0 0 0 1 ffffffff 0 ffffffff 80000000 ffffffff
ADD 0c 0 1 1 2 0 1 0 80000001 0
ADD 0c 0 ffffffffffffffff ffffffff 0 fffffffe ffffffff fffffffe 7fffffff fffffffe
ADD 0c 0 8000000000000000 0 1 ffffffff 0 ffffffff 80000000 ffffffff
ADD 0c 0 7fffffffffffffff ffffffff 0 fffffffe ffffffff fffffffe 7fffffff fffffffe
ADD 0c 0 80000000 80000000 80000001 7fffffff 80000000 7fffffff 0 7fffffff
ADD 0c 0 ffffffff ffffffff 0 fffffffe ffffffff fffffffe 7fffffff fffffffe
ADD 04 0 0 0 1 ffffffff 80000000 7fffffff
ADD 04 0 1 1 2 0 80000001 80000000
ADD 04 0 ffffffffffffffff ffffffff 0 fffffffe 7fffffff 7ffffffe
ADD 04 0 8000000000000000 0 1 ffffffff 80000000 7fffffff
ADD 04 0 7fffffffffffffff ffffffff 0 fffffffe 7fffffff 7ffffffe
ADD 04 0 80000000 80000000 80000001 7fffffff 0 ffffffff
ADD 04 0 ffffffff ffffffff 0 fffffffe 7fffffff 7ffffffe
SUB 1c 0 0 0 ffffffff 1 0 1 80000000 1
SUB 1c 0 1 1 0 2 1 2 80000001 2
SUB 1c 0 ffffffffffffffff ffffffff fffffffe 0 ffffffff 0 7fffffff 0
SUB 1c 0 8000000000000000 0 ffffffff 1 0 1 80000000 1
SUB 1c 0 7fffffffffffffff ffffffff fffffffe 0 ffffffff 0 7fffffff 0
SUB 1c 0 80000000 80000000 7fffffff 80000001 80000000 80000001 0 80000001
SUB 1c 0 ffffffff ffffffff fffffffe 0 ffffffff 0 7fffffff 0
SUB 14 0 0 0 ffffffff 1 80000000 80000001
SUB 14 0 1 1 0 2 80000001 80000002
SUB 14 0 ffffffffffffffff ffffffff fffffffe 0 7fffffff 80000000
SUB 14 0 8000000000000000 0 ffffffff 1 80000000 80000001
SUB 14 0 7fffffffffffffff ffffffff fffffffe 0 7fffffff 80000000
SUB 14 0 80000000 80000000 7fffffff 80000001 0 1
SUB 14 0 ffffffff ffffffff fffffffe 0 7fffffff 80000000
MUL 2c 0 0 0 0 0 0 0 0 0
MUL 2c 0 1 0 1 ffffffff 0 ffffffff 80000000 ffffffff
MUL 2c 0 ffffffffffffffff 0 ffffffff 1 0 1 80000000 1
MUL 2c 0 8000000000000000 0 0 0 0 0 0 0
MUL 2c 0 7fffffffffffffff 0 ffffffff 1 0 1 80000000 1
MUL 2c 0 80000000 0 80000000 80000000 0 80000000 0 80000000
MUL 2c 0 ffffffff 0 ffffffff 1 0 1 80000000 1
MUL 24 0 0 0 0 0 0 0
MUL 24 0 1 0 1 ffffffff 80000000 7fffffff
MUL 24 0 ffffffffffffffff 0 ffffffff 1 80000000 80000001
MUL 24 0 8000000000000000 0 0 0 0 0
MUL 24 0 7fffffffffffffff 0 ffffffff 1 80000000 80000001
MUL 24 0 80000000 0 80000000 80000000 0 80000000
MUL 24 0 ffffffff 0 ffffffff 1 80000000 80000001
DIV 3c 0 0 0 0 0 0 0 0 0
DIV 3c 0 1 0 1 0 0 0 0 0
DIV 3c 0 ffffffffffffffff 0 ffffffff 1 0 1 1 1
DIV 3c 0 8000000000000000 0 0 0 0 0 0 0
DIV 3c 0 7fffffffffffffff 0 ffffffff 1 0 1 1 1
DIV 3c 0 80000000 0 80000000 0 0 0 1 0
DIV 3c 0 ffffffff 0 ffffffff 1 0 1 1 1
DIV 34 0 0 0 0 0 0 0
DIV 34 0 1 0 1 0 0 0
DIV 34 0 ffffffffffffffff 0 ffffffff 1 1 2
DIV 34 0 8000000000000000 0 0 0 0 0
DIV 34 0 7fffffffffffffff 0 ffffffff 1 1 2
DIV 34 0 80000000 0 80000000 0 1 1
DIV 34 0 ffffffff 0 ffffffff 1 1 2
SDIV 3c 1 0 0 0 0 0 0 0 0
SDIV 3c 1 1 0 1 ffffffff 0 ffffffff 0 ffffffff
SDIV 3c 1 ffffffffffffffff 0 ffffffff 1 0 1 0 1
SDIV 3c 1 8000000000000000 0 0 0 0 0 0 0
SDIV 3c 1 7fffffffffffffff 0 ffffffff 1 0 1 0 1
SDIV 3c 1 80000000 0 80000000 80000000 0 80000000 1 80000000
SDIV 3c 1 ffffffff 0 ffffffff 1 0 1 0 1
SDIV 34 1 0 0 0 0 0 0
SDIV 34 1 1 0 1 ffffffff 0 0
SDIV 34 1 ffffffffffffffff 0 ffffffff 1 0 0
SDIV 34 1 8000000000000000 0 0 0 0 0
SDIV 34 1 7fffffffffffffff 0 ffffffff 1 0 0
SDIV 34 1 80000000 0 80000000 80000000 1 ffffffff
SDIV 34 1 ffffffff 0 ffffffff 1 0 0
OR 4c 0 0 0 1 ffffffff 0 ffffffff 80000000 ffffffff
OR 4c 0 1 1 1 ffffffff 1 ffffffff 80000001 ffffffff
OR 4c 0 ffffffffffffffff ffffffff ffffffff ffffffff ffffffff ffffffff ffffffff ffffffff
OR 4c 0 8000000000000000 0 1 ffffffff 0 ffffffff 80000000 ffffffff
OR 4c 0 7fffffffffffffff ffffffff ffffffff ffffffff ffffffff ffffffff ffffffff ffffffff
OR 4c 0 80000000 80000000 80000001 ffffffff 80000000 ffffffff 80000000 ffffffff
OR 4c 0 ffffffff ffffffff ffffffff ffffffff ffffffff ffffffff ffffffff ffffffff
OR 44 0 0 0 1 ffffffff 80000000 7fffffff
OR 44 0 1 1 1 ffffffff 80000001 7fffffff
OR 44 0 ffffffffffffffff ffffffff ffffffff ffffffff ffffffff ffffffff
OR 44 0 8000000000000000 0 1 ffffffff 80000000 7fffffff
OR 44 0 7fffffffffffffff ffffffff ffffffff ffffffff ffffffff ffffffff
OR 44 0 80000000 80000000 80000001 ffffffff 80000000 ffffffff
OR 44 0 ffffffff ffffffff ffffffff ffffffff ffffffff ffffffff
AND 5c 0 0 0 0 0 0 0 0 0
AND 5c 0 1 0 1 1 0 1 0 1
AND 5c 0 ffffffffffffffff 0 1 ffffffff 0 ffffffff 80000000 ffffffff
AND 5c 0 8000000000000000 0 0 0 0 0 0 0
AND 5c 0 7fffffffffffffff 0 1 ffffffff 0 ffffffff 80000000 ffffffff
AND 5c 0 80000000 0 0 80000000 0 80000000 80000000 80000000
AND 5c 0 ffffffff 0 1 ffffffff 0 ffffffff 80000000 ffffffff
AND 54 0 0 0 0 0 0 0
AND 54 0 1 0 1 1 0 1
AND 54 0 ffffffffffffffff 0 1 ffffffff 80000000 7fffffff
AND 54 0 8000000000000000 0 0 0 0 0
AND 54 0 7fffffffffffffff 0 1 ffffffff 80000000 7fffffff
AND 54 0 80000000 0 0 80000000 80000000 0
AND 54 0 ffffffff 0 1 ffffffff 80000000 7fffffff
LSH 6c 0 0 0 0 0 0 0 0 0
LSH 6c 0 1 1 2 80000000 1 80000000 1 80000000
LSH 6c 0 ffffffffffffffff ffffffff fffffffe 80000000 ffffffff 80000000 ffffffff 80000000
LSH 6c 0 8000000000000000 0 0 0 0 0 0 0
LSH 6c 0 7fffffffffffffff ffffffff fffffffe 80000000 ffffffff 80000000 ffffffff 80000000
LSH 6c 0 80000000 80000000 0 0 80000000 0 80000000 0
LSH 6c 0 ffffffff ffffffff fffffffe 80000000 ffffffff 80000000 ffffffff 80000000
LSH 64 0 0 0 0 0 0 0
LSH 64 0 1 1 2 80000000 1 80000000
LSH 64 0 ffffffffffffffff ffffffff fffffffe 80000000 ffffffff 80000000
LSH 64 0 8000000000000000 0 0 0 0 0
LSH 64 0 7fffffffffffffff ffffffff fffffffe 80000000 ffffffff 80000000
LSH 64 0 80000000 80000000 0 0 80000000 0
LSH 64 0 ffffffff ffffffff fffffffe 80000000 ffffffff 80000000
RSH 7c 0 0 0 0 0 0 0 0 0
RSH 7c 0 1 1 0 0 1 0 1 0
RSH 7c 0 ffffffffffffffff ffffffff 7fffffff 1 ffffffff 1 ffffffff 1
RSH 7c 0 8000000000000000 0 0 0 0 0 0 0
RSH 7c 0 7fffffffffffffff ffffffff 7fffffff 1 ffffffff 1 ffffffff 1
RSH 7c 0 80000000 80000000 40000000 1 80000000 1 80000000 1
RSH 7c 0 ffffffff ffffffff 7fffffff 1 ffffffff 1 ffffffff 1
RSH 74 0 0 0 0 0 0 0
RSH 74 0 1 1 0 0 1 0
RSH 74 0 ffffffffffffffff ffffffff 7fffffff 1 ffffffff 1
RSH 74 0 8000000000000000 0 0 0 0 0
RSH 74 0 7fffffffffffffff ffffffff 7fffffff 1 ffffffff 1
RSH 74 0 80000000 80000000 40000000 1 80000000 1
RSH 74 0 ffffffff ffffffff 7fffffff 1 ffffffff 1
MOD 9c 0 0 0 0 0 0 0 0 0
MOD 9c 0 1 1 0 1 1 1 1 1
MOD 9c 0 ffffffffffffffff ffffffff 0 0 ffffffff 0 7fffffff 0
MOD 9c 0 8000000000000000 0 0 0 0 0 0 0
MOD 9c 0 7fffffffffffffff ffffffff 0 0 ffffffff 0 7fffffff 0
MOD 9c 0 80000000 80000000 0 80000000 80000000 80000000 0 80000000
MOD 9c 0 ffffffff ffffffff 0 0 ffffffff 0 7fffffff 0
MOD 94 0 0 0 0 0 0 0
MOD 94 0 1 1 0 1 1 1
MOD 94 0 ffffffffffffffff ffffffff 0 0 7fffffff 1
MOD 94 0 8000000000000000 0 0 0 0 0
MOD 94 0 7fffffffffffffff ffffffff 0 0 7fffffff 1
MOD 94 0 80000000 80000000 0 80000000 0 1
MOD 94 0 ffffffff ffffffff 0 0 7fffffff 1
SMOD 9c 1 0 0 0 0 0 0 0 0
SMOD 9c 1 1 1 0 0 1 0 1 0
SMOD 9c 1 ffffffffffffffff ffffffff 0 0 ffffffff 0 ffffffff 0
SMOD 9c 1 8000000000000000 0 0 0 0 0 0 0
SMOD 9c 1 7fffffffffffffff ffffffff 0 0 ffffffff 0 ffffffff 0
SMOD 9c 1 80000000 80000000 0 0 80000000 0 0 0
SMOD 9c 1 ffffffff ffffffff 0 0 ffffffff 0 ffffffff 0
SMOD 94 1 0 0 0 0 0 0
SMOD 94 1 1 1 0 0 1 1
SMOD 94 1 ffffffffffffffff ffffffff 0 0 ffffffff ffffffff
SMOD 94 1 8000000000000000 0 0 0 0 0
SMOD 94 1 7fffffffffffffff ffffffff 0 0 ffffffff ffffffff
SMOD 94 1 80000000 80000000 0 0 0 ffffffff
SMOD 94 1 ffffffff ffffffff 0 0 ffffffff ffffffff
XOR ac 0 0 0 1 ffffffff 0 ffffffff 80000000 ffffffff
XOR ac 0 1 1 0 fffffffe 1 fffffffe 80000001 fffffffe
XOR ac 0 ffffffffffffffff ffffffff fffffffe 0 ffffffff 0 7fffffff 0
XOR ac 0 8000000000000000 0 1 ffffffff 0 ffffffff 80000000 ffffffff
XOR ac 0 7fffffffffffffff ffffffff fffffffe 0 ffffffff 0 7fffffff 0
XOR ac 0 80000000 80000000 80000001 7fffffff 80000000 7fffffff 0 7fffffff
XOR ac 0 ffffffff ffffffff fffffffe 0 ffffffff 0 7fffffff 0
XOR a4 0 0 0 1 ffffffff 80000000 7fffffff
XOR a4 0 1 1 0 fffffffe 80000001 7ffffffe
XOR a4 0 ffffffffffffffff ffffffff fffffffe 0 7fffffff 80000000
XOR a4 0 8000000000000000 0 1 ffffffff 80000000 7fffffff
XOR a4 0 7fffffffffffffff ffffffff fffffffe 0 7fffffff 80000000
XOR a4 0 80000000 80000000 80000001 7fffffff 0 ffffffff
XOR a4 0 ffffffff ffffffff fffffffe 0 7fffffff 80000000
ARSH cc 0 0 0 0 0 0 0 0 0
ARSH cc 0 1 1 0 0 1 0 1 0
ARSH cc 0 ffffffffffffffff ffffffff ffffffff ffffffff ffffffff ffffffff ffffffff ffffffff
ARSH cc 0 8000000000000000 0 0 0 0 0 0 0
ARSH cc 0 7fffffffffffffff ffffffff ffffffff ffffffff ffffffff ffffffff ffffffff ffffffff
ARSH cc 0 80000000 80000000 c0000000 ffffffff 80000000 ffffffff 80000000 ffffffff
ARSH cc 0 ffffffff ffffffff ffffffff ffffffff ffffffff ffffffff ffffffff ffffffff
ARSH c4 0 0 0 0 0 0 0
ARSH c4 0 1 1 0 0 1 0
ARSH c4 0 ffffffffffffffff ffffffff ffffffff ffffffff ffffffff ffffffff
ARSH c4 0 8000000000000000 0 0 0 0 0
ARSH c4 0 7fffffffffffffff ffffffff ffffffff ffffffff ffffffff ffffffff
ARSH c4 0 80000000 80000000 c0000000 ffffffff 80000000 ffffffff
ARSH c4 0 ffffffff ffffffff ffffffff ffffffff ffffffff ffffffff
";

//! Results of the operations on 64 bits.

/// A line has the operation's name, the opcode, the offset field, the destination, and the result for
/// each operand; all numbers but the offset are hexadecimal.
pub const ROWS: &str = "\
ADD 0f 0 0 0 1 ffffffffffffffff 8000000000000000 7fffffffffffffff 80000000 ffffffff
ADD 0f 0 1 1 2 0 8000000000000001 8000000000000000 80000001 100000000
ADD 0f 0 ffffffffffffffff ffffffffffffffff 0 fffffffffffffffe 7fffffffffffffff 7ffffffffffffffe 7fffffff fffffffe
ADD 0f 0 8000000000000000 8000000000000000 8000000000000001 7fffffffffffffff 0 ffffffffffffffff 8000000080000000 \
    80000000ffffffff
ADD 0f 0 7fffffffffffffff 7fffffffffffffff 8000000000000000 7ffffffffffffffe ffffffffffffffff fffffffffffffffe \
    800000007fffffff 80000000fffffffe
ADD 0f 0 80000000 80000000 80000001 7fffffff 8000000080000000 800000007fffffff 100000000 17fffffff
ADD 0f 0 ffffffff ffffffff 100000000 fffffffe 80000000ffffffff 80000000fffffffe 17fffffff 1fffffffe
ADD 07 0 0 0 1 ffffffffffffffff ffffffff80000000 7fffffff
ADD 07 0 1 1 2 0 ffffffff80000001 80000000
ADD 07 0 ffffffffffffffff ffffffffffffffff 0 fffffffffffffffe ffffffff7fffffff 7ffffffe
ADD 07 0 8000000000000000 8000000000000000 8000000000000001 7fffffffffffffff 7fffffff80000000 800000007fffffff
ADD 07 0 7fffffffffffffff 7fffffffffffffff 8000000000000000 7ffffffffffffffe 7fffffff7fffffff 800000007ffffffe
ADD 07 0 80000000 80000000 80000001 7fffffff 0 ffffffff
ADD 07 0 ffffffff ffffffff 100000000 fffffffe 7fffffff 17ffffffe
SUB 1f 0 0 0 ffffffffffffffff 1 8000000000000000 8000000000000001 ffffffff80000000 ffffffff00000001
SUB 1f 0 1 1 0 2 8000000000000001 8000000000000002 ffffffff80000001 ffffffff00000002
SUB 1f 0 ffffffffffffffff ffffffffffffffff fffffffffffffffe 0 7fffffffffffffff 8000000000000000 ffffffff7fffffff \
    ffffffff00000000
SUB 1f 0 8000000000000000 8000000000000000 7fffffffffffffff 8000000000000001 0 1 7fffffff80000000 7fffffff00000001
SUB 1f 0 7fffffffffffffff 7fffffffffffffff 7ffffffffffffffe 8000000000000000 ffffffffffffffff 0 7fffffff7fffffff \
    7fffffff00000000
SUB 1f 0 80000000 80000000 7fffffff 80000001 8000000080000000 8000000080000001 0 ffffffff80000001
SUB 1f 0 ffffffff ffffffff fffffffe 100000000 80000000ffffffff 8000000100000000 7fffffff 0
SUB 17 0 0 0 ffffffffffffffff 1 80000000 ffffffff80000001
SUB 17 0 1 1 0 2 80000001 ffffffff80000002
SUB 17 0 ffffffffffffffff ffffffffffffffff fffffffffffffffe 0 7fffffff ffffffff80000000
SUB 17 0 8000000000000000 8000000000000000 7fffffffffffffff 8000000000000001 8000000080000000 7fffffff80000001
SUB 17 0 7fffffffffffffff 7fffffffffffffff 7ffffffffffffffe 8000000000000000 800000007fffffff 7fffffff80000000
SUB 17 0 80000000 80000000 7fffffff 80000001 100000000 1
SUB 17 0 ffffffff ffffffff fffffffe 100000000 17fffffff 80000000
MUL 2f 0 0 0 0 0 0 0 0 0
MUL 2f 0 1 0 1 ffffffffffffffff 8000000000000000 7fffffffffffffff 80000000 ffffffff
MUL 2f 0 ffffffffffffffff 0 ffffffffffffffff 1 8000000000000000 8000000000000001 ffffffff80000000 ffffffff00000001
MUL 2f 0 8000000000000000 0 8000000000000000 8000000000000000 0 8000000000000000 0 8000000000000000
MUL 2f 0 7fffffffffffffff 0 7fffffffffffffff 8000000000000001 8000000000000000 1 ffffffff80000000 7fffffff00000001
MUL 2f 0 80000000 0 80000000 ffffffff80000000 0 ffffffff80000000 4000000000000000 7fffffff80000000
MUL 2f 0 ffffffff 0 ffffffff ffffffff00000001 8000000000000000 7fffffff00000001 7fffffff80000000 fffffffe00000001
MUL 27 0 0 0 0 0 0 0
MUL 27 0 1 0 1 ffffffffffffffff ffffffff80000000 7fffffff
MUL 27 0 ffffffffffffffff 0 ffffffffffffffff 1 80000000 ffffffff80000001
MUL 27 0 8000000000000000 0 8000000000000000 8000000000000000 0 8000000000000000
MUL 27 0 7fffffffffffffff 0 7fffffffffffffff 8000000000000001 80000000 7fffffff80000001
MUL 27 0 80000000 0 80000000 ffffffff80000000 c000000000000000 3fffffff80000000
MUL 27 0 ffffffff 0 ffffffff ffffffff00000001 8000000080000000 7ffffffe80000001
DIV 3f 0 0 0 0 0 0 0 0 0
DIV 3f 0 1 0 1 0 0 0 0 0
DIV 3f 0 ffffffffffffffff 0 ffffffffffffffff 1 1 2 1ffffffff 100000001
DIV 3f 0 8000000000000000 0 8000000000000000 0 1 1 100000000 80000000
DIV 3f 0 7fffffffffffffff 0 7fffffffffffffff 0 0 1 ffffffff 80000000
DIV 3f 0 80000000 0 80000000 0 0 0 1 0
DIV 3f 0 ffffffff 0 ffffffff 0 0 0 1 1
DIV 37 0 0 0 0 0 0 0
DIV 37 0 1 0 1 0 0 0
DIV 37 0 ffffffffffffffff 0 ffffffffffffffff 1 1 200000004
DIV 37 0 8000000000000000 0 8000000000000000 0 0 100000002
DIV 37 0 7fffffffffffffff 0 7fffffffffffffff 0 0 100000002
DIV 37 0 80000000 0 80000000 0 0 1
DIV 37 0 ffffffff 0 ffffffff 0 0 2
SDIV 3f 1 0 0 0 0 0 0 0 0
SDIV 3f 1 1 0 1 ffffffffffffffff 0 0 0 0
SDIV 3f 1 ffffffffffffffff 0 ffffffffffffffff 1 0 0 0 0
SDIV 3f 1 8000000000000000 0 8000000000000000 8000000000000000 1 ffffffffffffffff ffffffff00000000 ffffffff80000000
SDIV 3f 1 7fffffffffffffff 0 7fffffffffffffff 8000000000000001 0 1 ffffffff 80000000
SDIV 3f 1 80000000 0 80000000 ffffffff80000000 0 0 1 0
SDIV 3f 1 ffffffff 0 ffffffff ffffffff00000001 0 0 1 1
SDIV 37 1 0 0 0 0 0 0
SDIV 37 1 1 0 1 ffffffffffffffff 0 0
SDIV 37 1 ffffffffffffffff 0 ffffffffffffffff 1 0 0
SDIV 37 1 8000000000000000 0 8000000000000000 8000000000000000 100000000 fffffffefffffffe
SDIV 37 1 7fffffffffffffff 0 7fffffffffffffff 8000000000000001 ffffffff00000001 100000002
SDIV 37 1 80000000 0 80000000 ffffffff80000000 ffffffffffffffff 1
SDIV 37 1 ffffffff 0 ffffffff ffffffff00000001 ffffffffffffffff 2
OR 4f 0 0 0 1 ffffffffffffffff 8000000000000000 7fffffffffffffff 80000000 ffffffff
OR 4f 0 1 1 1 ffffffffffffffff 8000000000000001 7fffffffffffffff 80000001 ffffffff
OR 4f 0 ffffffffffffffff ffffffffffffffff ffffffffffffffff ffffffffffffffff ffffffffffffffff ffffffffffffffff \
    ffffffffffffffff ffffffffffffffff
OR 4f 0 8000000000000000 8000000000000000 8000000000000001 ffffffffffffffff 8000000000000000 ffffffffffffffff \
    8000000080000000 80000000ffffffff
OR 4f 0 7fffffffffffffff 7fffffffffffffff 7fffffffffffffff ffffffffffffffff ffffffffffffffff 7fffffffffffffff \
    7fffffffffffffff 7fffffffffffffff
OR 4f 0 80000000 80000000 80000001 ffffffffffffffff 8000000080000000 7fffffffffffffff 80000000 ffffffff
OR 4f 0 ffffffff ffffffff ffffffff ffffffffffffffff 80000000ffffffff 7fffffffffffffff ffffffff ffffffff
OR 47 0 0 0 1 ffffffffffffffff ffffffff80000000 7fffffff
OR 47 0 1 1 1 ffffffffffffffff ffffffff80000001 7fffffff
OR 47 0 ffffffffffffffff ffffffffffffffff ffffffffffffffff ffffffffffffffff ffffffffffffffff ffffffffffffffff
OR 47 0 8000000000000000 8000000000000000 8000000000000001 ffffffffffffffff ffffffff80000000 800000007fffffff
OR 47 0 7fffffffffffffff 7fffffffffffffff 7fffffffffffffff ffffffffffffffff ffffffffffffffff 7fffffffffffffff
OR 47 0 80000000 80000000 80000001 ffffffffffffffff ffffffff80000000 ffffffff
OR 47 0 ffffffff ffffffff ffffffff ffffffffffffffff ffffffffffffffff ffffffff
AND 5f 0 0 0 0 0 0 0 0 0
AND 5f 0 1 0 1 1 0 1 0 1
AND 5f 0 ffffffffffffffff 0 1 ffffffffffffffff 8000000000000000 7fffffffffffffff 80000000 ffffffff
AND 5f 0 8000000000000000 0 0 8000000000000000 8000000000000000 0 0 0
AND 5f 0 7fffffffffffffff 0 1 7fffffffffffffff 0 7fffffffffffffff 80000000 ffffffff
AND 5f 0 80000000 0 0 80000000 0 80000000 80000000 80000000
AND 5f 0 ffffffff 0 1 ffffffff 0 ffffffff 80000000 ffffffff
AND 57 0 0 0 0 0 0 0
AND 57 0 1 0 1 1 0 1
AND 57 0 ffffffffffffffff 0 1 ffffffffffffffff ffffffff80000000 7fffffff
AND 57 0 8000000000000000 0 0 8000000000000000 8000000000000000 0
AND 57 0 7fffffffffffffff 0 1 7fffffffffffffff 7fffffff80000000 7fffffff
AND 57 0 80000000 0 0 80000000 80000000 0
AND 57 0 ffffffff 0 1 ffffffff 80000000 7fffffff
LSH 6f 0 0 0 0 0 0 0 0 0
LSH 6f 0 1 1 2 8000000000000000 1 8000000000000000 1 8000000000000000
LSH 6f 0 ffffffffffffffff ffffffffffffffff fffffffffffffffe 8000000000000000 ffffffffffffffff 8000000000000000 \
    ffffffffffffffff 8000000000000000
LSH 6f 0 8000000000000000 8000000000000000 0 0 8000000000000000 0 8000000000000000 0
LSH 6f 0 7fffffffffffffff 7fffffffffffffff fffffffffffffffe 8000000000000000 7fffffffffffffff 8000000000000000 \
    7fffffffffffffff 8000000000000000
LSH 6f 0 80000000 80000000 100000000 0 80000000 0 80000000 0
LSH 6f 0 ffffffff ffffffff 1fffffffe 8000000000000000 ffffffff 8000000000000000 ffffffff 8000000000000000
LSH 67 0 0 0 0 0 0 0
LSH 67 0 1 1 2 8000000000000000 1 8000000000000000
LSH 67 0 ffffffffffffffff ffffffffffffffff fffffffffffffffe 8000000000000000 ffffffffffffffff 8000000000000000
LSH 67 0 8000000000000000 8000000000000000 0 0 8000000000000000 0
LSH 67 0 7fffffffffffffff 7fffffffffffffff fffffffffffffffe 8000000000000000 7fffffffffffffff 8000000000000000
LSH 67 0 80000000 80000000 100000000 0 80000000 0
LSH 67 0 ffffffff ffffffff 1fffffffe 8000000000000000 ffffffff 8000000000000000
RSH 7f 0 0 0 0 0 0 0 0 0
RSH 7f 0 1 1 0 0 1 0 1 0
RSH 7f 0 ffffffffffffffff ffffffffffffffff 7fffffffffffffff 1 ffffffffffffffff 1 ffffffffffffffff 1
RSH 7f 0 8000000000000000 8000000000000000 4000000000000000 1 8000000000000000 1 8000000000000000 1
RSH 7f 0 7fffffffffffffff 7fffffffffffffff 3fffffffffffffff 0 7fffffffffffffff 0 7fffffffffffffff 0
RSH 7f 0 80000000 80000000 40000000 0 80000000 0 80000000 0
RSH 7f 0 ffffffff ffffffff 7fffffff 0 ffffffff 0 ffffffff 0
RSH 77 0 0 0 0 0 0 0
RSH 77 0 1 1 0 0 1 0
RSH 77 0 ffffffffffffffff ffffffffffffffff 7fffffffffffffff 1 ffffffffffffffff 1
RSH 77 0 8000000000000000 8000000000000000 4000000000000000 1 8000000000000000 1
RSH 77 0 7fffffffffffffff 7fffffffffffffff 3fffffffffffffff 0 7fffffffffffffff 0
RSH 77 0 80000000 80000000 40000000 0 80000000 0
RSH 77 0 ffffffff ffffffff 7fffffff 0 ffffffff 0
MOD 9f 0 0 0 0 0 0 0 0 0
MOD 9f 0 1 1 0 1 1 1 1 1
MOD 9f 0 ffffffffffffffff ffffffffffffffff 0 0 7fffffffffffffff 1 7fffffff 0
MOD 9f 0 8000000000000000 8000000000000000 0 8000000000000000 0 1 0 80000000
MOD 9f 0 7fffffffffffffff 7fffffffffffffff 0 7fffffffffffffff 7fffffffffffffff 0 7fffffff 7fffffff
MOD 9f 0 80000000 80000000 0 80000000 80000000 80000000 0 80000000
MOD 9f 0 ffffffff ffffffff 0 ffffffff ffffffff ffffffff 7fffffff 0
MOD 97 0 0 0 0 0 0 0
MOD 97 0 1 1 0 1 1 1
MOD 97 0 ffffffffffffffff ffffffffffffffff 0 0 7fffffff 3
MOD 97 0 8000000000000000 8000000000000000 0 8000000000000000 8000000000000000 2
MOD 97 0 7fffffffffffffff 7fffffffffffffff 0 7fffffffffffffff 7fffffffffffffff 1
MOD 97 0 80000000 80000000 0 80000000 80000000 1
MOD 97 0 ffffffff ffffffff 0 ffffffff ffffffff 1
SMOD 9f 1 0 0 0 0 0 0 0 0
SMOD 9f 1 1 1 0 0 1 1 1 1
SMOD 9f 1 ffffffffffffffff ffffffffffffffff 0 0 ffffffffffffffff ffffffffffffffff ffffffffffffffff ffffffffffffffff
SMOD 9f 1 8000000000000000 8000000000000000 0 0 0 ffffffffffffffff 0 ffffffff80000000
SMOD 9f 1 7fffffffffffffff 7fffffffffffffff 0 0 7fffffffffffffff 0 7fffffff 7fffffff
SMOD 9f 1 80000000 80000000 0 0 80000000 80000000 0 80000000
SMOD 9f 1 ffffffff ffffffff 0 0 ffffffff ffffffff 7fffffff 0
SMOD 97 1 0 0 0 0 0 0
SMOD 97 1 1 1 0 0 1 1
SMOD 97 1 ffffffffffffffff ffffffffffffffff 0 0 ffffffffffffffff ffffffffffffffff
SMOD 97 1 8000000000000000 8000000000000000 0 0 0 fffffffffffffffe
SMOD 97 1 7fffffffffffffff 7fffffffffffffff 0 0 7fffffff 1
SMOD 97 1 80000000 80000000 0 0 0 1
SMOD 97 1 ffffffff ffffffff 0 0 7fffffff 1
XOR af 0 0 0 1 ffffffffffffffff 8000000000000000 7fffffffffffffff 80000000 ffffffff
XOR af 0 1 1 0 fffffffffffffffe 8000000000000001 7ffffffffffffffe 80000001 fffffffe
XOR af 0 ffffffffffffffff ffffffffffffffff fffffffffffffffe 0 7fffffffffffffff 8000000000000000 ffffffff7fffffff \
    ffffffff00000000
XOR af 0 8000000000000000 8000000000000000 8000000000000001 7fffffffffffffff 0 ffffffffffffffff 8000000080000000 \
    80000000ffffffff
XOR af 0 7fffffffffffffff 7fffffffffffffff 7ffffffffffffffe 8000000000000000 ffffffffffffffff 0 7fffffff7fffffff \
    7fffffff00000000
XOR af 0 80000000 80000000 80000001 ffffffff7fffffff 8000000080000000 7fffffff7fffffff 0 7fffffff
XOR af 0 ffffffff ffffffff fffffffe ffffffff00000000 80000000ffffffff 7fffffff00000000 7fffffff 0
XOR a7 0 0 0 1 ffffffffffffffff ffffffff80000000 7fffffff
XOR a7 0 1 1 0 fffffffffffffffe ffffffff80000001 7ffffffe
XOR a7 0 ffffffffffffffff ffffffffffffffff fffffffffffffffe 0 7fffffff ffffffff80000000
XOR a7 0 8000000000000000 8000000000000000 8000000000000001 7fffffffffffffff 7fffffff80000000 800000007fffffff
XOR a7 0 7fffffffffffffff 7fffffffffffffff 7ffffffffffffffe 8000000000000000 800000007fffffff 7fffffff80000000
XOR a7 0 80000000 80000000 80000001 ffffffff7fffffff ffffffff00000000 ffffffff
XOR a7 0 ffffffff ffffffff fffffffe ffffffff00000000 ffffffff7fffffff 80000000
ARSH cf 0 0 0 0 0 0 0 0 0
ARSH cf 0 1 1 0 0 1 0 1 0
ARSH cf 0 ffffffffffffffff ffffffffffffffff ffffffffffffffff ffffffffffffffff ffffffffffffffff ffffffffffffffff \
    ffffffffffffffff ffffffffffffffff
ARSH cf 0 8000000000000000 8000000000000000 c000000000000000 ffffffffffffffff 8000000000000000 ffffffffffffffff \
    8000000000000000 ffffffffffffffff
ARSH cf 0 7fffffffffffffff 7fffffffffffffff 3fffffffffffffff 0 7fffffffffffffff 0 7fffffffffffffff 0
ARSH cf 0 80000000 80000000 40000000 0 80000000 0 80000000 0
ARSH cf 0 ffffffff ffffffff 7fffffff 0 ffffffff 0 ffffffff 0
ARSH c7 0 0 0 0 0 0 0
ARSH c7 0 1 1 0 0 1 0
ARSH c7 0 ffffffffffffffff ffffffffffffffff ffffffffffffffff ffffffffffffffff ffffffffffffffff ffffffffffffffff
ARSH c7 0 8000000000000000 8000000000000000 c000000000000000 ffffffffffffffff 8000000000000000 ffffffffffffffff
ARSH c7 0 7fffffffffffffff 7fffffffffffffff 3fffffffffffffff 0 7fffffffffffffff 0
ARSH c7 0 80000000 80000000 40000000 0 80000000 0
ARSH c7 0 ffffffff ffffffff 7fffffff 0 ffffffff 0
";

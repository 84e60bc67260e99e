//! The text of the built-in class for the data and xattrs of objects.

/// The class `obj`: an object's data and xattrs. Numbers are of 8 bytes, little-endian.
///
/// - `getxattr`: the input is a name; the value is the output, and its length the answer.
/// - `read`: offset, length; EINVAL if the input is not 16 bytes or the length over 4,096. The
///   bytes that there are from the offset on are the output, and their count the answer.
/// - `remove`: the object goes.
/// - `setxattr`: a byte n, a name of n bytes, the value after it; EINVAL if there is no such byte,
///   it is over 64 or the name is shorter; EFBIG if the value has more than 4,031 bytes.
/// - `stat`: the length of the data.
/// - `write`: offset, and the bytes after it; EINVAL under 8 bytes. Their count is the answer.
///
/// Otherwise each answers as its helper.
pub const OBJ: &str = ".method getxattr r 64 4096
mov r4, 4096
call 6
jgt r0, 4096, refused
mov r6, r0
mov r1, r0
call 13
mov r0, r6
refused:
exit

.method read r 16 4096
jne r2, 16, invalid
ldxdw r4, [r1+8]
jgt r4, 4096, invalid
ldxdw r1, [r1+0]
mov r2, r3
mov r3, r4
call 2
jgt r0, 4096, refused
mov r6, r0
mov r1, r0
call 13
mov r0, r6
refused:
exit
invalid:
mov r0, -22
exit

.method remove w 0 0
call 5
exit

.method setxattr w 4096 0
jeq r2, 0, invalid
ldxb r6, [r1+0] ; the name's length
jgt r6, 64, invalid
sub r2, 1
jlt r2, r6, invalid
mov r4, r2
sub r4, r6 ; the value's length
jgt r4, 4031, big
add r1, 1
mov r2, r6
mov r3, r1
add r3, r6
call 7
exit
invalid:
mov r0, -22
exit
big:
mov r0, -27
exit

.method stat r 0 0
call 1
exit

.method write w 4096 0
jlt r2, 8, invalid
mov r3, r2
sub r3, 8
mov r2, r1
add r2, 8
ldxdw r1, [r1+0]
call 3
exit
invalid:
mov r0, -22
exit
";

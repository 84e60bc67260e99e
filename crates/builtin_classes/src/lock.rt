//! The text of the built-in class for locks on objects.

/// The class `lock`: an exclusive lock on an object. Its owner is the number in the 8 bytes of the
/// xattr `lock`, little-endian; of a shorter value the rest is zero.
///
/// - `lock`: 0 if the caller takes it or has it already, EBUSY if another has it; ENOSPC if the
///   object can have no further xattr. It creates an absent object. A value of more than
///   8 bytes is nobody's, and it takes its place.
/// - `unlock`: 0 if the caller had it, whose xattr is gone then; EBUSY if another has it; ENOENT of
///   an absent object, ENODATA without the xattr, ERANGE if it has more than 8 bytes.
pub const LOCK: &str = ".method lock rw 0 0
call 15
mov r6, r0
stw [r10-4], 0x6b636f6c
mov r1, r10
add r1, -4
mov r2, 4
mov r3, r10
add r3, -16
mov r4, 8
call 6
jsge r0, 0, held
stxdw [r10-16], r6
mov r1, r10
add r1, -4
mov r2, 4
mov r3, r10
add r3, -16
mov r4, 8
call 7
exit
held:
ldxdw r1, [r10-16]
mov r0, 0
jeq r1, r6, done
mov r0, -16
done:
exit

.method unlock rw 0 0
call 15
mov r6, r0
stw [r10-4], 0x6b636f6c
mov r1, r10
add r1, -4
mov r2, 4
mov r3, r10
add r3, -16
mov r4, 8
call 6
jslt r0, 0, done
ldxdw r1, [r10-16]
mov r0, -16
jne r1, r6, done
mov r1, r10
add r1, -4
mov r2, 4
call 8
done:
exit
";

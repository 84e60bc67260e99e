//! Texts of a method's instructions and of classes: what else is read, and what is refused.

use crate::images::is_printed;
use bpf_asm::{
    AsmError, AsmFault, assemble, assemble_class, disassemble, disassemble_class,
    disassemble_with_slots,
};
use std::alloc::Global;
use std::process::Abort;

/// A text and its canonical text, or the first fault's line and kind and the text that has it. A
/// line of a text ends at `/`.
const TEXTS: &str = "\
exit => exit/
/ ; nothing/\t exit \t; the end/ => exit/
\tadd \t r1\t ,  r2 => add r1, r2/
add r1,r2 => add r1, r2/
mov r1, 0xFf => mov r1, 255/
mov r1, -0x80000000 => mov r1, -2147483648/
lddw r1, 18446744073709551615 => lddw r1, 0xffffffffffffffff/
lddw r1, 0xAb => lddw r1, 0x00000000000000ab/
ldxb r0, [r1] => ldxb r0, [r1+0]/
ldxb r0, [r1-0x10] => ldxb r0, [r1-16]/
ja end/end:/exit => ja +0/exit/
again:/lddw r1, 5/ja again => lddw r1, 0x0000000000000005/ja -3/
jeq r1, r2, far/lddw r1, 5/far: ; here/exit => jeq r1, r2, +2/lddw r1, 0x0000000000000005/exit/
r1:/call  local\tr1 => call local -1/
ja32 +0x10 => ja32 +16/
line 1: 3 Range => 
line 1: 3 Range => /; nothing
line 1: 3 Range => a:/
line 1: 1 Word => .method f r 0 0/exit
line 1: 1 Word => .method
line 1: 1 Word => .rules 2/exit
line 2: 1 Word => exit/.rules 3
line 3: 1 Word => /exit/foo r1
line 1: 1 Word => foo r11/mov r11
line 1: 2 Operand => mov r0
line 1: 2 Operand => mov r0, 1, 2
line 1: 2 Operand => exit r0
line 1: 1 Word => exit\rexit
line 1: 2 Operand => mov r0, +1
line 1: 2 Operand => mov r0, 01
line 1: 2 Operand => mov r0, -0
line 1: 2 Operand => mov r0, 0x
line 1: 2 Operand => mov r0, 0x00000000000000000
line 1: 2 Operand => mov r01, 1
line 1: 2 Operand => mov r11, x
line 1: 2 Operand => ja 3
line 1: 2 Operand => ldxb r0, [r1 +4]
line 1: 2 Operand => ldxb r0, [r1+4
line 1: 2 Operand => stb [r1+0], r2
line 1: 2 Operand => stxb [r1+0], 2
line 1: 2 Operand => call local
line 1: 2 Operand => call r1
line 1: 3 Range => mov r11, 0
line 1: 3 Range => mov r0, 2147483648
line 1: 3 Range => mov r0, 0xffffffff
line 1: 3 Range => mov r0, -2147483649
line 1: 3 Range => mov r0, 99999999999999999999999
line 1: 3 Range => ldxb r0, [r1+32768]
line 1: 3 Range => ldxb r0, [r1-32769]
line 1: 3 Range => lddw r1, 18446744073709551616
line 1: 3 Range => lddw r1, -1
line 1: 3 Range => call 4294967296
line 1: 3 Range => call -1
line 1: 3 Range => ja32 +2147483648
line 1: 3 Range => ja +32768
line 2: 4 Label => exit/jeq r0, 0, nowhere
line 3: 4 Label => a:/exit/a:
line 1: 3 Range => jeq r11, 0, nowhere
line 2: 1 Word => exit/exit: exit
line 2: 2 Operand => mov r0, 1/mov r0/foo
";

/// The same of classes. The first is the class `lock`.
const CLASSES: &str = "\
.method lock rw 0 0/call 15/mov r6, r0/stw [r10-4], 0x6b636f6c/mov r1, r10/add r1, -4/mov r2, 4/mov r3, r10/\
add r3, -16/mov r4, 8/call 6/jsge r0, 0, held/stxdw [r10-16], r6/mov r1, r10/add r1, -4/mov r2, 4/mov r3, r10/\
add r3, -16/mov r4, 8/call 7/exit/held:/ldxdw r1, [r10-16]/mov r0, 0/jeq r1, r6, done/mov r0, -16/done:/exit/ => \
.method lock rw 0 0/call 15/mov r6, r0/stw [r10-4], 1801678700/mov r1, r10/add r1, -4/mov r2, 4/mov r3, r10/\
add r3, -16/mov r4, 8/call 6/jsge r0, 0, +9/stxdw [r10-16], r6/mov r1, r10/add r1, -4/mov r2, 4/mov r3, r10/\
add r3, -16/mov r4, 8/call 7/exit/ldxdw r1, [r10-16]/mov r0, 0/jeq r1, r6, +1/mov r0, -16/exit/
.method f r 0 0/mov r0, 0/exit => .method f r 0 0/mov r0, 0/exit/
; two//\t.method  a\trw 0x10 4096 ; first/end: /ja end/.method b w 0 0/ja end/end:/exit => \
.method a rw 16 4096/ja -1/.method b w 0 0/ja +0/exit/
; spills// \t.rules  2\t; not 1//.method f r 0 1/stxdw [r10-8], r3/mov r0, 0/exit => \
.rules 2/.method f r 0 1/stxdw [r10-8], r3/mov r0, 0/exit/
.rules 3/.method f r 65535 65535/exit/ => .rules 3/.method f r 65535 65535/exit/
; long// .rules\t3 ; not 2/.method f r 0xffff 4097/exit/.method g w 4096 0/exit => \
.rules 3/.method f r 65535 4097/exit/.method g w 4096 0/exit/
line 1: 3 Range => 
line 1: 3 Range => /.method f r 0 0
line 1: 1 Word => a:
line 1: 2 Operand => .method f r 0
line 1: 3 Range => .method f r 0 4097
line 2: 1 Word => /exit
line 2: 1 Word => /a:/.method f r 0 0/exit
line 2: 1 Word => .method f r 0 0/foo r1/exit
line 2: 2 Operand => .method f r 0 0/mov r0/exit
line 2: 3 Range => .method f r 0 0/mov r11, 0/exit
line 2: 4 Label => .method f r 0 0/jeq r0, 0, nowhere/exit
line 1: 2 Operand => .method F r 0 0/exit
line 1: 2 Operand => .method f x 0 0/exit
line 1: 2 Operand => .method f r 0 0 0/exit
line 1: 3 Range => .method f r 0 4097/exit
line 1: 3 Range => .method f r -1 0/exit
line 1: 2 Operand => .method f r 4097 x/exit
line 3: 3 Range => .method f r 0 0/exit/.method g r 0 0/; none
line 1: 3 Range => .method f r 0 0/.method g r 0 0/exit
line 3: 4 Label => .method g r 0 0/exit/.method f r 0 0/exit
line 3: 4 Label => .method f r 0 0/exit/.method f r 0 0/exit
line 5: 4 Label => .method f r 0 0/a:/exit/.method g r 0 0/ja a
line 1: 2 Operand => .rules 1/.method f r 0 0/exit
line 1: 2 Operand => .rules 0x2/.method f r 0 0/exit
line 1: 2 Operand => .rules/.method f r 0 0/exit
line 1: 2 Operand => .rules 2 2/.method f r 0 0/exit
line 1: 1 Word => .rules2/.method f r 0 0/exit
line 1: 2 Operand => .rules 4
line 1: 3 Range => .rules 3
line 1: 3 Range => .rules 2
line 1: 3 Range => .rules 2/.method f r 0 0
line 2: 1 Word => .rules 2/.rules 2/.method f r 0 0/exit
line 2: 1 Word => .rules 2/.rules 3/.method f r 0 0/exit
line 2: 1 Word => .rules 2/exit/.method f r 0 0/exit
line 2: 1 Word => .method f r 0 0/.rules 2/exit
line 3: 1 Word => .method f r 0 0/exit/.rules 3/.method g r 0 0/exit
line 1: 1 Word => a:/.rules 2/.method f r 0 0/exit
line 2: 2 Operand => .rules 2/.method f/exit
line 1: 2 Operand => .rules 4/.method f r 0 0/exit
line 1: 2 Operand => .rules 03/.method f r 0 0/exit
line 1: 2 Operand => .rules 0x3/.method f r 0 0/exit
line 1: 2 Operand => .rules 3 3/.method f r 0 0/exit
line 1: 3 Range => .method f r 4097 0/exit
line 2: 3 Range => .rules 2/.method f r 4097 0/exit
line 2: 3 Range => .rules 2/.method f r 0 4097/exit
line 2: 3 Range => .rules 2/.method f r 65535 65535/exit
line 4: 3 Range => .rules 2/.method f r 0 0/exit/.method f r 4097 0/exit
line 2: 3 Range => .rules 3/.method f r 65536 0/exit
line 2: 3 Range => .rules 3/.method f r 0 65536/exit
line 2: 2 Operand => .rules 3/.method f r 65536 x/exit
line 1: 3 Range => .rules 3/.method f r 5000 0
line 2: 1 Word => .rules 3/.rules 2/.method f r 5000 0/exit
line 4: 4 Label => .rules 3/.method f r 5000 0/exit/.method f r 5000 0/exit
";

/// True if that text was printed.
fn is_text(printed: Result<String, AsmError>, text: &str) -> bool {
    match printed {
        Ok(printed) => printed.as_str() == text,
        Err(_) => false,
    }
}

/// True if that error was answered, and prints so.
fn is_error(alloc: Global, printed: Result<String, AsmError>, text: &str) -> bool {
    match printed {
        Ok(_) => false,
        Err(error) => is_printed(alloc, &error, text),
    }
}

/// The canonical text of a class, or else of a method's instructions.
fn canonical(alloc: Global, text: &str, of_class: bool) -> Result<String, AsmError> {
    if of_class {
        disassemble_class(alloc, &assemble_class(alloc, text)?)
    } else {
        disassemble(alloc, &assemble(alloc, text)?)
    }
}

/// True if the two sides of a row are a text and its canonical text, or a fault and its text.
fn is_row(alloc: Global, left: &str, right: &str, of_class: bool) -> bool {
    if left.starts_with("line ") {
        is_error(alloc, canonical(alloc, right, of_class), left)
    } else {
        is_text(canonical(alloc, left, of_class), right)
    }
}

/// So many rows there are, and each is right.
fn are_right(rt: &impl Abort, alloc: Global, rows: &str, of_class: bool, wanted: usize) {
    let mut count = 0usize;
    for row in rows.lines() {
        let text = row.replace(alloc, '/', "\n").expect(rt, "memory");
        let (left, right) = text.split_once(" => ").expect(rt, "an arrow");
        assert!(rt; is_row(alloc, left, right, of_class), "{row}");
        count = count.saturating_add(1);
    }
    assert!(rt; count == wanted);
}

#[test]
fn methods(rt: HostRuntime) {
    are_right(&rt, rt.alloc(), TEXTS, false, 60);
}

#[test]
fn classes(rt: HostRuntime) {
    are_right(&rt, rt.alloc(), CLASSES, true, 59);
}

/// A class with a wide load, which takes two slots, with slots.
const SLOTS: &str = ".rules 2
.method f r 0 0
lddw r1, 0x0000000000000010 ; slot 0
mov r0, 0 ; slot 2
exit ; slot 3
.method g w 0 0
exit ; slot 0
";

/// A class of rule set 3, with slots.
const SLOTS_3: &str = ".rules 3
.method f r 65535 4097
exit ; slot 0
";

/// The class of the text, with slots.
fn with_slots(alloc: Global, text: &str) -> Result<String, AsmError> {
    disassemble_with_slots(alloc, &assemble_class(alloc, text)?)
}

/// Memory ran out, at line 0.
const LACK: AsmError = AsmError {
    line: 0,
    fault: AsmFault::NoMemory,
};

#[test]
fn slots(rt: HostRuntime) {
    assert!(rt; is_text(with_slots(rt.alloc(), SLOTS), SLOTS));
    assert!(rt; is_text(with_slots(rt.alloc(), SLOTS_3), SLOTS_3));
    assert!(rt; is_printed(rt.alloc(), &LACK, "line 0: 5 NoMemory"));
}

//! Worked calls of methods with loops, by budgets.

use crate::made::{Heads, call, image, verdict};
use loop_calls::{PartAnswer, SPENT_CODE};
use loop_heads::PlaceKind;
use std::alloc::Global;

/// A method: what it may do to the object (1 read, 2 write), its lines and its heads.
#[derive(Clone, Copy)]
struct Looping {
    flags: u8,
    lines: &'static str,
    heads: Heads,
}

/// What a call answers.
#[derive(Clone, Copy)]
enum Answer {
    /// The code of a used up budget after those steps, without output and edits.
    Spent(usize),
    /// A code after those steps, without output and edits.
    Ends(i64, usize),
    /// A code after those steps, output and edits.
    Gives(i64, usize, &'static [u8], &'static [u8]),
}

/// An absent object, and an empty one of which all is known.
const ABSENT: &[u8] = b"\0";

const EMPTY: &[u8] = b"\x01\0\0\0\0\0\0\0\0\0\0\0\0\x01\0\0\0\0\0\0\0\x01\0\0\0\0\0\0\0";

/// The sum of the input's bytes, by an index.
const SUM: Looping = Looping {
    flags: 1,
    lines: "mov r0, 0; mov r4, 0; jge r4, r2, +6; mov r5, r1; add r5, r4; ldxb r5, [r5+0];
        add r0, r5; add r4, 1; ja -7; exit",
    heads: &[(2, &[(0, PlaceKind::Any), (4, PlaceKind::Unsigned(0, 16))])],
};

/// The same by a pointer, up to the input's end.
const BY_POINTER: Looping = Looping {
    flags: 1,
    lines: "mov r0, 0; mov r4, r1; add r4, r2; jge r1, r4, +4; ldxb r5, [r1+0]; add r0, r5;
        add r1, 1; ja -5; exit",
    heads: &[(3, &[(0, PlaceKind::Any), (1, PlaceKind::Input(0, 16))])],
};

/// It never ends.
const ENDLESS: Looping = Looping {
    flags: 1,
    lines: "mov r0, 0; ja -1",
    heads: &[(1, &[])],
};

/// It sets the last 64 bytes of the stack.
const FILL: Looping = Looping {
    flags: 1,
    lines: "mov r4, 0; mov r0, r10; sub r0, 64; add r0, r4; stb [r0+0], 1; add r4, 1; jne r4, 64, -6;
        mov r0, r4; exit",
    heads: &[(
        1,
        &[
            (4, PlaceKind::Unsigned(0, 63)),
            (67, PlaceKind::Any),
            (68, PlaceKind::Any),
            (69, PlaceKind::Any),
            (70, PlaceKind::Any),
            (71, PlaceKind::Any),
            (72, PlaceKind::Any),
            (73, PlaceKind::Any),
            (74, PlaceKind::Any),
        ],
    )],
};

/// It writes eight bytes after the other, and never ends.
const GROW: Looping = Looping {
    flags: 2,
    lines: "mov r6, 0; mov r1, r6; mov r2, r10; add r2, -8; mov r3, 8; call 3; add r6, 8; ja -7",
    heads: &[(
        1,
        &[
            (1, PlaceKind::Unset),
            (2, PlaceKind::Unset),
            (3, PlaceKind::Unset),
            (6, PlaceKind::Any),
        ],
    )],
};

/// It creates the object; its head is at the first slot.
const CREATE: Looping = Looping {
    flags: 2,
    lines: "mov r1, 1; call 14; exit",
    heads: &[(0, &[])],
};

/// It counts to nine.
const NINE: Looping = Looping {
    flags: 1,
    lines: "mov r0, 0; add r0, 1; jlt r0, 9, -2; exit",
    heads: &[(1, &[(0, PlaceKind::Any)])],
};

/// The same, by an addition and a jump that run as one operation.
const NOT_NINE: Looping = Looping {
    flags: 1,
    lines: "mov r0, 0; add r0, 1; jne r0, 9, -2; exit",
    heads: &[(1, &[(0, PlaceKind::Any)])],
};

/// It counts down past 0.
const DOWN: Looping = Looping {
    flags: 1,
    lines: "mov r4, 5; mov r0, 0; add r0, 1; add r4, -1; jsge r4, 0, -3; exit",
    heads: &[(2, &[(0, PlaceKind::Any), (4, PlaceKind::Signed(-1, 5))])],
};

/// It writes two bytes at 0, 2 and 4.
const THRICE: Looping = Looping {
    flags: 2,
    lines: "mov r6, 0; mov r1, r6; mov r2, r10; add r2, -8; mov r3, 2; call 3; add r6, 2; jlt r6, 5, -7;
        mov r0, r6; exit",
    heads: &[(
        1,
        &[
            (1, PlaceKind::Unset),
            (2, PlaceKind::Unset),
            (3, PlaceKind::Unset),
            (6, PlaceKind::Unsigned(0, 4)),
        ],
    )],
};

const WRITES: &[u8] = b"\x08\0\0\0\0\0\0\0\0\x02\0\0\0\0\0\x08\x02\0\0\0\0\0\0\0\x02\0\0\0\0\0\
\x08\x04\0\0\0\0\0\0\0\x02\0\0\0\0\0";

const CREATES_AND_WRITES: &[u8] =
    b"\x01\x08\0\0\0\0\0\0\0\0\x02\0\0\0\0\0\x08\x02\0\0\0\0\0\0\0\x02\0\0\0\0\0\
\x08\x04\0\0\0\0\0\0\0\x02\0\0\0\0\0";

/// It puts the input out.
const ECHO: Looping = Looping {
    flags: 1,
    lines: "mov r4, 0; jge r4, r2, +8; mov r5, r1; add r5, r4; ldxb r5, [r5+0]; mov r6, r3; add r6, r4;
        stxb [r6+0], r5; add r4, 1; ja -9; mov r1, r2; call 13; exit",
    heads: &[(1, &[(4, PlaceKind::Unsigned(0, 16))])],
};

/// A method, its budget, an object, the input, and the answer.
type Row = (Looping, u32, &'static [u8], &'static [u8], Answer);

#[rattlefmt::skip]
const ROWS: [Row; 31] = [
    (SUM, 100, ABSENT, b"\x01\x02\x03", Answer::Ends(6, 25)),
    (SUM, 25, ABSENT, b"\x01\x02\x03", Answer::Ends(6, 25)),
    (SUM, 24, ABSENT, b"\x01\x02\x03", Answer::Spent(24)),
    (SUM, 4, EMPTY, b"", Answer::Ends(0, 4)),
    (SUM, 3, EMPTY, b"", Answer::Spent(3)),
    (ENDLESS, 5, ABSENT, b"", Answer::Spent(5)),
    (ENDLESS, 1, ABSENT, b"", Answer::Spent(1)),
    (ENDLESS, 100_000, ABSENT, b"", Answer::Spent(100_000)),
    (FILL, 1000, ABSENT, b"", Answer::Ends(64, 387)),
    (FILL, 386, ABSENT, b"", Answer::Spent(386)),
    (BY_POINTER, 100, ABSENT, b"\x01\x02\x03", Answer::Ends(6, 20)),
    (GROW, 20, ABSENT, b"", Answer::Spent(20)),
    (GROW, 1000, EMPTY, b"", Answer::Spent(1000)),
    (CREATE, 66, ABSENT, b"", Answer::Gives(0, 3, b"", b"\x01")),
    (CREATE, 66, EMPTY, b"", Answer::Ends(-17, 3)),
    (CREATE, 65, ABSENT, b"", Answer::Spent(65)),
    (CREATE, 64, ABSENT, b"", Answer::Spent(64)),
    (NINE, 3, ABSENT, b"", Answer::Spent(3)),
    (NINE, 20, ABSENT, b"", Answer::Ends(9, 20)),
    (NOT_NINE, 20, ABSENT, b"", Answer::Ends(9, 20)),
    (NOT_NINE, 19, ABSENT, b"", Answer::Spent(19)),
    // the budget ends in the middle of what runs as one operation: of an addition and a jump, of a
    // copy and an addition, and of a load and an addition
    (NOT_NINE, 18, ABSENT, b"", Answer::Spent(18)),
    (NOT_NINE, 2, ABSENT, b"", Answer::Spent(2)),
    (SUM, 4, ABSENT, b"\x01\x02\x03", Answer::Spent(4)),
    (SUM, 6, ABSENT, b"\x01\x02\x03", Answer::Spent(6)),
    (SUM, 5, ABSENT, b"\x01\x02\x03", Answer::Spent(5)),
    (DOWN, 90, ABSENT, b"", Answer::Ends(6, 21)),
    // three calls take 189 more than their number
    (THRICE, 213, ABSENT, b"", Answer::Gives(6, 24, b"", CREATES_AND_WRITES)),
    (THRICE, 213, EMPTY, b"", Answer::Gives(6, 24, b"", WRITES)),
    (THRICE, 212, ABSENT, b"", Answer::Spent(212)),
    (ECHO, 95, ABSENT, b"abc", Answer::Gives(0, 32, b"abc", b"")),
];

/// True if a call came to an answer.
fn is_answer(called: &PartAnswer, answer: Answer) -> bool {
    let (code, steps) = (called.code, called.steps);
    let (output, edits) = (called.output.as_slice(), called.edits.as_slice());
    match answer {
        Answer::Spent(count) => {
            code == SPENT_CODE && steps == count && output.is_empty() && edits.is_empty()
        }
        Answer::Ends(number, count) => {
            code == number && steps == count && output.is_empty() && edits.is_empty()
        }
        Answer::Gives(number, count, bytes, list) => {
            code == number && steps == count && output == bytes && edits == list
        }
    }
}

/// True if a call gives that answer.
fn answers(alloc: Global, row: &Row) -> Option<bool> {
    let (looping, budget, part, input, answer) = *row;
    let image = image(alloc, looping.flags, looping.lines)?;
    let method = verdict(alloc, &image, budget, looping.heads)?.ok()?;
    let called = call(alloc, &method, part, 7, input)?;
    Some(is_answer(&called, answer))
}

#[test]
fn answers_by_budgets(rt: HostRuntime) {
    for (number, row) in ROWS.iter().enumerate() {
        assert!(rt; answers(rt.alloc(), row) == Some(true), "{number}");
    }
    assert!(rt; SPENT_CODE == -62);
}

//! Rows of methods with loops: `read_loops`, NoMemory; `verify_by_heads`, 16 NoMemory, at method 0 and
//! slot 0, as `verify_loops`; and `LoopRoom::call_by_budget`, NoMemory, after which the room serves again.
ghost use Rattle.std.specs.Prelude.{◌≡◌, [], Some, IfSome};

use crate::ending::Ending;
use crate::texts::LOOPED;
use bpf_asm::assemble_class;
use loop_bytes::{HeadsError, read_loops};
use loop_calls::{BudgetedMethod, LoopRoom, PartAnswer, StagedPart, Stop};
use loop_classes::{MethodRun, verify_loops};
use loop_heads::Loops;
use loop_verdict::{LoopMethod, verify_by_heads};
use object_store::{Limits, NameLimits};
use part_bytes::read_part;
use std::alloc::Global;
use verifier::Rule;

/// On the input `abcdefgh`: it writes the first two bytes at 0, 2 and 4, and puts one out.
const THRICE: &str = ".rules 3\n.method f rw 8 8\nmov r6, r1\nmov r7, r3\nmov r8, 0\n\
    mov r1, r8\nmov r2, r6\nmov r3, 2\ncall 3\nadd r8, 2\njlt r8, 5, -6\n\
    ldxb r5, [r6+0]\nstxb [r7+0], r5\nmov r1, 1\ncall 13\nmov r0, r8\nexit\n";

/// Its slots.
const SLOTS: usize = 15;

/// Its loops: five heads and the budget 1,000. The head at slot 3 has five places: registers 1 to 4,
/// unset, and 8, from 0 to 4. Those at 9, 10, 11 and 13 have none.
const LOOPS: [u8; 47] = [
    5, 0, 0xe8, 3, 0, 0, //
    3, 0, 5, 1, 0, 2, 0, 3, 0, 4, 0, 8, 2, 0, 0, 0, 0, 0, 0, 0, 0, 4, 0, 0, 0, 0, 0, 0, 0, //
    9, 0, 0, 10, 0, 0, 11, 0, 0, 13, 0, 0,
];

/// True if they have the budget, the heads and the places.
fn are_whole(loops: &Loops) -> bool {
    match loops.heads() {
        [first, _, _, _, last] => {
            loops.budget() == 1000 && first.places().len() == 5 && last.slot() == 13
        }
        _ => false,
    }
}

/// `read_loops`.
pub fn loops_read(alloc: Global) -> Ending {
    match read_loops(alloc, &LOOPS, &[true; SLOTS]) {
        Ok(read) => Ending::of(match &read.loops {
            None => false,
            Some(loops) => read.length == LOOPS.len() && are_whole(loops),
        }),
        Err(error) => Ending::refused(error == HeadsError::NoMemory),
    }
}

/// `verify_by_heads`.
pub fn loops_verified(alloc: Global) -> Option<Ending> {
    let image = assemble_class(alloc, THRICE).ok()?;
    let read = read_loops(alloc, &LOOPS, &[true; SLOTS]).ok()?;
    let method = image.methods().first()?;
    Some(
        match verify_by_heads(alloc, 0, method, read.loops.as_ref()?) {
            Ok(it) => Ending::of(it.budget() == 1000 && it.ops().len() == SLOTS),
            Err(refusal) => {
                let is_named = refusal.rule == Rule::NoMemory && refusal.rule.number() == 16;
                Ending::refused(is_named && refusal.method == 0 && refusal.slot == 0)
            }
        },
    )
}

/// `verify_loops`, of a class of a method with a loop and one without.
pub fn class_verified(alloc: Global) -> Option<Ending> {
    let class = loop_asm::assemble_class(alloc, LOOPED).ok()?;
    Some(match verify_loops(alloc, &class) {
        Ok(class) => Ending::of(matches!(
            class.methods(),
            [first, second] if matches!(first.run(), MethodRun::Looped(_, _))
                && matches!(second.run(), MethodRun::Plain(_))
        )),
        Err(refusal) => {
            Ending::refused(
                refusal.rule == Rule::NoMemory && refusal.method == 0 && refusal.slot == 0,
            )
        }
    })
}

/// The edits that it leaves of an absent object.
const EDITS: &[u8] = b"\x01\x08\0\0\0\0\0\0\0\0\x02\0\0\0ab\x08\x02\0\0\0\0\0\0\0\x02\0\0\0ab\
\x08\x04\0\0\0\0\0\0\0\x02\0\0\0ab";

const LIMITS: Limits = Limits {
    bytes: 65_536,
    xattrs: NameLimits {
        count: None,
        length: 64,
    },
    keys: NameLimits {
        count: None,
        length: 64,
    },
};

/// An absent object.
fn absent(alloc: Global) -> Option<StagedPart>
    ensures { IfSome result (λ k. k.list ≡ Some []) }
{
    let part = read_part(alloc, b"\0").ok()?;
    match StagedPart::of(alloc, part.as_ref()) {
        Ok(known) => Some(known),
        Err(_) => None,
    }
}

/// True if it took 27 instructions to write and to put out.
fn is_answer(answer: &PartAnswer) -> bool {
    answer.code == 6
        && answer.output.as_slice() == b"a".as_slice()
        && answer.steps == 27
        && answer.edits.as_slice() == EDITS
}

fn called(alloc: Global, room: &mut LoopRoom, method: &LoopMethod) -> Option<Ending> {
    let known = absent(alloc)?;
    let input = b"abcdefgh";
    if input.len() > usize::from(method.caps().in_cap) {
        return None;
    }
    // For the proof: there is an object that it may be.
    known.some_object();
    let method = BudgetedMethod {
        caps: method.caps(),
        budget: method.budget(),
        ops: method.ops(),
    };
    Some(
        match room.call_by_budget(&method, LIMITS, known, 7, input) {
            Ok(answer) => Ending::of(is_answer(&answer)),
            Err(stop) => Ending::refused(matches!(stop, Stop::NoMemory)),
        },
    )
}

/// `LoopRoom::call_by_budget`: if it is refused, the same room is called again.
pub fn called_by_budget(alloc: Global) -> Option<Ending> {
    let image = assemble_class(alloc, THRICE).ok()?;
    let read = read_loops(alloc, &LOOPS, &[true; SLOTS]).ok()?;
    let method = verify_by_heads(alloc, 0, image.methods().first()?, read.loops.as_ref()?).ok()?;
    let mut room = LoopRoom::new(alloc);
    match called(alloc, &mut room, &method) {
        Some(Ending::Refused) => Some(Ending::Refused.then(called(alloc, &mut room, &method))),
        ending => ending,
    }
}

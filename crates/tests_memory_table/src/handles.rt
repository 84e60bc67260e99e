//! Rows of held classes whose methods may loop: `LoopHandle::open` and `LoopHandle::call`, NoMemory; by a
//! handle that was refused memory the call is made again.

use crate::ending::Ending;
use crate::texts::LOOPED;
use bpf_decode::write_image;
use class_calls::{ClassCall, ClassError, MethodError};
use class_loops::{LoopClassError, LoopHandle};
use loop_asm::assemble_class;
use std::alloc::Global;

/// `LoopHandle::open`, of a class of a method with a loop and one without.
pub fn class_held(alloc: Global) -> Option<Ending> {
    let image = write_image(alloc, &assemble_class(alloc, LOOPED).ok()?).ok()?;
    Some(match LoopHandle::open(alloc, &image, 100) {
        Ok(class) => Ending::of(class.place_of(b"f") == Some(0) && class.place_of(b"g") == Some(1)),
        Err(error) => {
            Ending::refused(matches!(error, LoopClassError::Class(ClassError::NoMemory)))
        }
    })
}

/// The sum of three bytes, on an object of one byte.
fn summed(alloc: Global, class: &mut LoopHandle) -> Ending {
    let request = ClassCall {
        method: b"f",
        object: &[1, 1, 0, 0, 0, 0x78, 0, 0, 0, 0],
        caller: 7,
        input: b"\x01\x02\x03",
    };
    match class.call(alloc, request) {
        Ok(answer) => Ending::of(answer.code == 6 && answer.steps == 25 && answer.edits.is_empty()),
        Err(error) => Ending::refused(matches!(error, MethodError::NoMemory)),
    }
}

/// `LoopHandle::call`.
pub fn held_called(alloc: Global) -> Option<Ending> {
    let image = write_image(alloc, &assemble_class(alloc, LOOPED).ok()?).ok()?;
    let mut class = LoopHandle::open(alloc, &image, 100).ok()?;
    match summed(alloc, &mut class) {
        Ending::Refused => Some(Ending::Refused.then(Some(summed(alloc, &mut class)))),
        ending => Some(ending),
    }
}

//! Does what is asked of a class, whichever command it is.

ghost use Rattle.std.specs.Prelude.{IfOk, IfErr};
ghost use Rattle.class_tool.specs.ActionResult.{Settles, Fails};
ghost use Rattle.program_files.specs.Files.{storage};

use crate::action::Action;
use crate::action_result::ActionResult;
use crate::large_run::run_large;
use crate::packing::pack;
use crate::run::run_and_save;
use program_files::{Failed, Files, assemble, disassemble, load};
use std::alloc::Global;

/// Does what is asked for. The answer is true of the files as they were. No file is written but the
/// one that is named for the image of a text or of raw code, and that one only if it is right, or
/// for a call's object; a failure says why, the first reason in the order of `Fails`.
pub fn find<F: Files>(
    alloc: Global,
    files: &mut F,
    action: &Action<'_>,
) -> Result<ActionResult, Failed>
    ensures settles { IfOk result (Settles (storage F.disk F.failed F.in_place files.old)
        (storage F.disk F.failed F.in_place files.new) action.now) }
    ensures fails { IfErr result (λ e. Fails (storage F.disk F.failed F.in_place files.old)
        (storage F.disk F.failed F.in_place files.new) action.now e.failure) }
{
    match action {
        Action::Verify { image } => match load(alloc, files, image) {
            Ok(class) => Ok(ActionResult::Accepted(class)),
            Err(failed) => Err(failed),
        },
        Action::Run(asked) => match run_and_save(alloc, files, asked) {
            Ok(report) => Ok(ActionResult::Ran(report)),
            Err(failed) => Err(failed),
        },
        Action::RunLarge(asked) => match run_large(alloc, files, asked) {
            Ok(report) => Ok(ActionResult::Ran(report)),
            Err(failed) => Err(failed),
        },
        Action::Assemble { text, image } => match assemble(alloc, files, text, image) {
            Ok(()) => Ok(ActionResult::Assembled),
            Err(failed) => Err(failed),
        },
        Action::Pack(asked) => match pack(alloc, files, asked) {
            Ok(()) => Ok(ActionResult::Assembled),
            Err(failed) => Err(failed),
        },
        Action::Disassemble { image, has_slots } => {
            match disassemble(alloc, files, image, *has_slots) {
                Ok(text) => Ok(ActionResult::Disassembled(text)),
                Err(failed) => Err(failed),
            }
        }
    }
}

//! The command `pack --heads`: an image of raw code with the heads that are found for its loops.

ghost use Rattle.std.specs.Prelude.{IfErr, IfOk};
ghost use Rattle.program_files.specs.Files.{storage};
ghost use Rattle.loop_tool.specs.PackedHeads.{IsPackedWithHeads, PackHeadsFail, PacksNone, PacksWithHeads};

use crate::asked::HeadedPacking;
use crate::heads::headed_image;
use crate::write_heads_error::WriteHeadsError;
use class_tool::packed_class;
use program_files::{Failed, Failure, Files, ReadableFiles};
use std::alloc::Global;

/// The image of the class of raw code with the heads that are found for its methods.
fn packed_image<F: ReadableFiles>(
    alloc: Global,
    files: &F,
    asked: &HeadedPacking<'_>,
) -> Result<Vec<u8>, WriteHeadsError>
    ensures made { IfOk result (λ bytes. IsPackedWithHeads (F.disk files.now) asked.now bytes.items) }
    ensures none { IfErr result (PacksNone (F.disk files.now) asked.now) }
{
    match packed_class(alloc, files, &asked.packing) {
        Ok(class) => headed_image(alloc, &class, asked.budget),
        Err(failed) => Err(WriteHeadsError::Failed(failed)),
    }
}

/// Writes the image of the class that `pack` makes of files of raw code, with the heads that are
/// found for its methods: the same methods but for their loops. One that doesn't jump back gets none.
/// The first file of code that is refused comes first, then what makes no class of the methods, then
/// the first method that gets no heads; in rule sets 1 and 2 that is each which jumps back. Nothing is
/// written before all heads are found and the image is known to be right; it may take the place of a
/// file of code. The verdict on loops may still refuse what is found.
pub fn pack_with_heads<F: Files>(
    alloc: Global,
    files: &mut F,
    asked: &HeadedPacking<'_>,
) -> Result<(), WriteHeadsError>
    ensures ok { IfOk result (λ _. PacksWithHeads (storage F.disk F.failed F.in_place files.old)
        (storage F.disk F.failed F.in_place files.new) asked.now) }
    ensures err { IfErr result (PackHeadsFail (storage F.disk F.failed F.in_place files.old)
        (storage F.disk F.failed F.in_place files.new) asked.now) }
{
    let bytes = packed_image(alloc, files, asked)?;
    match files.write(asked.packing.image, &bytes) {
        Ok(()) => Ok(()),
        // Want of memory is this failure too: the line says which step failed.
        Err(_) => Err(WriteHeadsError::Failed(Failed::from(Failure::CannotWrite))),
    }
}

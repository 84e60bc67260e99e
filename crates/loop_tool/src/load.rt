//! The class of a file whose methods may loop.

ghost use Rattle.std.specs.Prelude.{IfErr, IfOk};
ghost use Rattle.loop_tool.specs.Safe.{IsLoopSafeIn, LoopLoadFails};

use loop_classes::{LoopClass, verify_loops};
use program_files::{About, Failed, Failure, ReadableFiles, read_source};
use std::alloc::Global;

/// The class whose image or text a file holds, if the verdict on loops accepts it. Its failure tells
/// of the class, for `note_of`.
pub fn load_by_loops<F: ReadableFiles>(
    alloc: Global,
    files: &F,
    name: &str,
) -> Result<LoopClass, Failed>
    ensures safe { IfOk result (IsLoopSafeIn (F.disk files.now) name.now) }
    ensures fails { IfErr result (λ e. LoopLoadFails (F.disk files.now) name.now e.failure) }
{
    let source = read_source(alloc, files, name)?;
    match verify_loops(alloc, source.class()) {
        Ok(class) => Ok(class),
        Err(refusal) => Err(Failed {
            failure: Failure::Verdict(refusal),
            about: About::Class(source),
        }),
    }
}

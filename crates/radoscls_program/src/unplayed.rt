//! Why a file of events or of calls wasn't played.
ghost use Rattle.std.specs.Prelude.{◌≡◌};
ghost use Rattle.radoscls_program.specs.Streams.{IsTold, stream};

use crate::status::ExitStatus;
use crate::telling::{asked_note, say, tell};
use class_tool::Explain;
use escaped_text::push_escaped;
use program_files::{Failed, Failure, Files, Output, load_with_source};
use std::alloc::{AllocError, Global};
use tenant_classes::TenantClass;

/// The tenants' classes of a run that came to nothing, and whether that is explained.
#[derive(Clone, Copy)]
pub(crate) struct Unplayed<'a> {
    pub(crate) classes: &'a [TenantClass<'a>],
    pub(crate) is_explained: bool,
}

/// The note on a class that can't be loaded: its name and its file, and what is wrong there.
fn class_note<F: Files>(
    alloc: Global,
    files: &F,
    class: &TenantClass<'_>,
    failed: &Failed,
) -> Result<String, AllocError> {
    let mut note = String::new(alloc);
    note.push_str("  class ")?;
    push_escaped(&mut note, class.name)?;
    note.push_str(", ")?;
    push_escaped(&mut note, class.image)?;
    note.push_str("\n")?;
    note.push_str(&failed.note(alloc, files.fault(alloc))?)?;
    Ok(note)
}

/// The note on the first of the classes that can't be loaded, if there is one, and memory for it.
/// What standard input had can't be read again, so what is said then is of no class.
fn note_of_classes<F: Files>(
    alloc: Global,
    files: &F,
    classes: &[TenantClass<'_>],
) -> Option<String> {
    for class in classes {
        if class.image == "-" {
            return None;
        }
        if let Err(failed) = load_with_source(alloc, files, class.image) {
            return class_note(alloc, files, class, &failed).ok();
        }
    }
    None
}

/// Prints why nothing was played, and if it is asked for a note on the class at fault, or on the
/// file that can't be read.
pub(crate) fn tell_unplayed<F: Files, O: Output>(
    alloc: Global,
    files: &F,
    asked: Unplayed<'_>,
    failure: Failure,
    out: &mut O,
) -> ExitStatus
    ensures status { result ≡ ExitStatus.Refused }
    ensures told { IsTold (stream O.printed O.failed out.old)
        (stream O.printed O.failed out.new) failure asked.entry.is_explained }
{
    if asked.is_explained {
        if let Some(note) = note_of_classes(alloc, files, asked.classes) {
            let note = asked_note(alloc, note, asked.is_explained);
            say(failure, &note, out);
            return ExitStatus::Refused;
        }
    }
    tell(
        alloc,
        files,
        &Failed::from(failure),
        asked.is_explained,
        out,
    )
}

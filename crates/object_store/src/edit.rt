ghost use Rattle.std.specs.Prelude.{◌≡◌, OnErr};
ghost use Rattle.object_store.specs.Edits.{edited, all_edited};
ghost use Rattle.object_store.specs.Returned.{GivesData};

use crate::data::Data;
use crate::data_error::DataError;
use std::alloc::Global;

/// A change of data.
#[derive(Drop)]
pub enum DataEdit {
    /// Bytes from a place on. No bytes change nothing.
    Write { at: u64, text: Vec<u8> },
    /// The length from now on: a cut, or zeros at the end.
    Truncate(u64),
}

/// Makes all edits in order, or none: it is refused as the first refused edit is, 4 TooBig or 7
/// NoMemory, and the data is then as it was.
pub fn edit_all<D: Data>(
    alloc: Global,
    content: &mut D,
    edits: &[DataEdit],
) -> Result<(), DataError>
    ensures answer { GivesData (λ _. D.bytes content.new) result (all_edited (D.bytes content.old) edits.now) }
    ensures err { OnErr result (D.bytes content.new ≡ D.bytes content.old) }
{
    // A copy is edited, so that an edit refused halfway leaves the data as it was.
    let mut copy = content.copy(alloc)?;
    make_all(alloc, &mut copy, edits)?;
    *content = copy;
    Ok(())
}

/// Makes edits in order, up to the first refused one.
fn make_all<D: Data>(alloc: Global, content: &mut D, edits: &[DataEdit]) -> Result<(), DataError>
    ensures { GivesData (λ _. D.bytes content.new) result (all_edited (D.bytes content.old) edits.now) }
{
    for edit in edits {
        make(alloc, content, edit)?;
    }
    Ok(())
}

/// Makes one edit.
fn make<D: Data>(alloc: Global, content: &mut D, edit: &DataEdit) -> Result<(), DataError>
    ensures { GivesData (λ _. D.bytes content.new) result (edited (D.bytes content.old) edit.now) }
{
    match edit {
        DataEdit::Write { at, text } => content.write(alloc, *at, text),
        DataEdit::Truncate(len) => content.truncate(alloc, *len),
    }
}

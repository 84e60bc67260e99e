//! The object that a list of edits makes.

ghost use Rattle.std.specs.Prelude.{◌≡◌, IfOk, IfErr, OnOk, Ok};
ghost use Rattle.std.specs.Option.{option_copied};
ghost use Rattle.object_store.specs.Object.{PlainObject};
ghost use Rattle.txn.specs.Edits.{Create, Remove, edited};
ghost use Rattle.txn.specs.Staging.{edit_of};
ghost use Rattle.loop_objects.specs.inner.Making.{Makes};

use edit_bytes::edit_at;
use object_store::{Object, StoreError};
use std::alloc::Global;
use txn::{Change, Edit, NoMemory, Staged};

/// Creates the object, which is absent.
fn create(alloc: Global, staged: &mut Staged) -> Result<(), StoreError>
    requires { (o : PlainObject) × (edited Create staged.old.after ≡ Ok o) }
    ensures before { staged.new.before ≡ staged.old.before }
    ensures made { OnOk result (edited Create staged.old.after ≡ Ok staged.new.after) }
    ensures refused { IfErr result (λ e. e ≡ StoreError.NoMemory) }
{
    match staged.create(alloc) {
        Ok(()) => Ok(()),
        Err(NoMemory) => Err(StoreError::NoMemory),
    }
}

/// Removes the object, which is there.
fn remove(alloc: Global, staged: &mut Staged) -> Result<(), StoreError>
    requires { (o : PlainObject) × (edited Remove staged.old.after ≡ Ok o) }
    ensures before { staged.new.before ≡ staged.old.before }
    ensures made { OnOk result (edited Remove staged.old.after ≡ Ok staged.new.after) }
    ensures refused { IfErr result (λ e. e ≡ StoreError.NoMemory) }
{
    match staged.remove(alloc) {
        Ok(()) => Ok(()),
        Err(NoMemory) => Err(StoreError::NoMemory),
    }
}

/// Makes an edit that isn't refused of a staged object, as the object's own call does.
#[rattlefmt::skip]
fn staged_by(alloc: Global, staged: &mut Staged, edit: Edit) -> Result<(), StoreError>
    requires { (o : PlainObject) × (edited (edit_of edit) staged.old.after ≡ Ok o) }
    ensures before { staged.new.before ≡ staged.old.before }
    ensures made { OnOk result (edited (edit_of edit.entry) staged.old.after ≡ Ok staged.new.after) }
    ensures refused { IfErr result (λ e. e ≡ StoreError.NoMemory) }
{
    match edit {
        Edit::Create                => create(alloc, staged),
        Edit::Remove                => remove(alloc, staged),
        Edit::SetXattr(name, value) => staged.set_xattr(alloc, name, value),
        Edit::RemoveXattr(name)     => staged.remove_xattr(alloc, name),
        Edit::SetKey(key, value)    => staged.set_key(alloc, key, value),
        Edit::RemoveKey(key)        => staged.remove_key(alloc, key),
        Edit::SetLength(len)        => staged.truncate(alloc, len),
        Edit::Write(at, text)       => staged.write(alloc, at, text),
    }
}

/// The change of an object by a list of edits as it is spelled, none of which is refused.
pub(crate) fn make_all(
    alloc: Global,
    object: Option<&Object>,
    edits: &[u8],
) -> Result<Change, NoMemory>
    requires { (o : PlainObject) × Makes edits.now (option_copied object) o }
    ensures before { IfOk result (λ c. c.before ≡ option_copied object.entry) }
    ensures after { IfOk result
        (λ c. (o : PlainObject) → Makes edits.now (option_copied object.entry) o → c.after ≡ o) }
{
    let mut staged = Staged::over(object);
    let mut rest = edits;
    while !rest.is_empty() {
        let Some((edit, behind)) = edit_at(rest) else {
            unreachable!()
        };
        let Ok(()) = staged_by(alloc, &mut staged, edit) else {
            return Err(NoMemory);
        };
        rest = behind;
    }
    staged.finish()
}

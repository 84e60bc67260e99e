ghost use Rattle.std.specs.Prelude.{◌≡◌, IfOk, OnOk, OnErr};
ghost use Rattle.std.specs.FinMap as fin;
ghost use Rattle.object_store.specs.Names.{PlainObjects, stored};
ghost use Rattle.std.specs.Option.{option_copied};

use crate::no_memory::NoMemory;
use object_store::{Object, ObjectName, Objects};
use std::alloc::Global;
use std::marker::Model;

/// The object after a call: the one before it, or the one that a call made.
#[derive(Drop)]
enum After {
    Same,
    Made(Option<Object>),
}

/// The effect of a call: the object before and after, none if it is absent. One that a call made
/// shares the parts that the call didn't touch; one that no call changed is held once. Contracts
/// see both.
#[derive(Drop)]
pub struct Change {
    before: Option<Object>,
    after: After,
}

impl Model for Change {
    ghost use Rattle.txn.specs.Versions.{Versions, versions_code};

    ghost Value = { Versions };

    ghost coded = { versions_code };

    ghost use Rattle.txn.specs.Staging.{left};

    ghost view = { λ c. record { before = c.before; after = left c.before c.after } };
}

impl Change {
    /// The change of an object that stays as it is. It copies nothing.
    pub fn none(object: Option<&Object>) -> Result<Change, NoMemory>
        ensures before { IfOk result (λ c. c.before ≡ option_copied object.entry) }
        ensures after { IfOk result (λ c. c.after ≡ option_copied object.entry) }
    {
        let before = shared(object)?;
        Ok(Change {
            before,
            after: After::Same,
        })
    }

    /// The change from one object to another. It copies neither.
    pub fn of(before: Option<&Object>, after: Option<Object>) -> Result<Change, NoMemory>
        ensures before { IfOk result (λ c. c.before ≡ option_copied before.entry) }
        ensures after { IfOk result (λ c. c.after ≡ after) }
    {
        let before = shared(before)?;
        Ok(Change {
            before,
            after: After::Made(after),
        })
    }

    /// The object before the call; none if it was absent.
    pub fn before(&self) -> Option<&Object>
        ensures { option_copied result ≡ self.now.before }
    {
        self.before.as_ref()
    }

    /// The object after the call; none if it is absent.
    pub fn after(&self) -> Option<&Object>
        ensures { option_copied result ≡ self.now.after }
    {
        match &self.after {
            After::Same => self.before.as_ref(),
            After::Made(object) => object.as_ref(),
        }
    }

    /// The object after the call, which it takes out of the change.
    pub fn into_after(self) -> Option<Object>
        ensures { result ≡ self.after }
    {
        let Change { before, after } = self;
        match after {
            After::Same => before,
            After::Made(object) => object,
        }
    }

    /// An equal change, of the same objects.
    pub fn copy(&self) -> Result<Change, NoMemory>
        ensures { IfOk result (λ c. c ≡ self.now) }
    {
        let before = shared(self.before.as_ref())?;
        let after = match &self.after {
            After::Same => After::Same,
            After::Made(object) => After::Made(shared(object.as_ref())?),
        };
        Ok(Change { before, after })
    }
}

/// The same object by one more pointer, if there is one.
fn shared(object: Option<&Object>) -> Result<Option<Object>, NoMemory>
    ensures { IfOk result (λ o. o ≡ option_copied object.entry) }
{
    match object {
        None => Ok(None),
        Some(object) => match object.copy() {
            Ok(object) => Ok(Some(object)),
            // The only refusal of this call is NoMemory.
            Err(_) => Err(NoMemory),
        },
    }
}

/// Makes the object of a name this one, or absent.
fn put(
    alloc: Global,
    objects: &mut Objects,
    name: &ObjectName,
    object: Option<&Object>,
) -> Result<(), NoMemory>
    ensures ok { OnOk result (objects.new ≡ stored objects.old name.now (option_copied object.entry)) }
    ensures stands { OnOk result (fin.get objects.new name.now ≡ option_copied object.entry) }
    ensures err { OnErr result (objects.new ≡ objects.old) }
{
    match objects.store(alloc, name, object) {
        Ok(()) => Ok(()),
        // The only refusal of this call is NoMemory.
        Err(_) => Err(NoMemory),
    }
}

/// Applies a change to the object of a name, which is as it was before the change: the object is
/// then as it is after it. It costs a put into the objects, and nothing if no call changed the
/// object.
pub fn apply(
    alloc: Global,
    objects: &mut Objects,
    name: &ObjectName,
    change: &Change,
) -> Result<(), NoMemory>
    requires { fin.get objects.old name.now ≡ change.now.before }
    ensures ok { OnOk result (objects.new ≡ stored objects.old name.now change.now.after) }
    ensures stands { OnOk result (fin.get objects.new name.now ≡ change.now.after) }
    ensures err { OnErr result (objects.new ≡ objects.old) }
{
    match &change.after {
        After::Same => Ok(()),
        After::Made(object) => put(alloc, objects, name, object.as_ref()),
    }
}

/// Undoes a change on the objects that `apply` left: all objects are then as they were before. It
/// costs a put into the objects.
pub fn undo(
    alloc: Global,
    objects: &mut Objects,
    name: &ObjectName,
    change: &Change,
) -> Result<(), NoMemory>
    ensures ok { OnOk result (objects.new ≡ stored objects.old name.now change.now.before) }
    ensures stands { OnOk result (fin.get objects.new name.now ≡ change.now.before) }
    // `was`: the objects before `apply`, which made the present ones of them.
    ensures restored { OnOk result ((was : PlainObjects) → fin.get was name.now ≡ change.now.before →
        objects.old ≡ stored was name.now change.now.after → objects.new ≡ was) }
    ensures err { OnErr result (objects.new ≡ objects.old) }
{
    // The change shares the object before it, so undoing copies no object.
    put(alloc, objects, name, change.before())
}

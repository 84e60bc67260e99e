ghost use Rattle.std.specs.Prelude.{◌≡◌, ◌++◌, ◌∷◌, [], Result, IfOk, OnOk, OnErr, None, Some, unwrap_or};
ghost use Rattle.std.specs.Option.{option_copied};
ghost use Rattle.object_store.specs.Object.{Content, content_of};
ghost use Rattle.object_store.specs.Calls as spec;
ghost use Rattle.object_store.specs.Returned.{Gives};
ghost use Rattle.txn.specs.Edits.{Create, SetXattr, RemoveXattr, SetKey, RemoveKey, SetLength, created, creating};
ghost use Rattle.txn.specs.Edits.{write_edits, removed, noted};
ghost use Rattle.txn.specs.Staging.{AreShort, creation, edits_of, kept};
ghost use Rattle.txn.specs.Versions.{made};

use crate::change::Change;
use crate::edit::{Edit, put_edit};
use crate::no_memory::NoMemory;
use object_store::{Object, StoreError, calls};
use std::alloc::{AllocError, Global};
use std::marker::Model;

/// The newest version of a staged object: the given one until a call writes.
#[derive(Drop)]
enum Newest {
    Untouched,
    Written(Option<Object>),
}

/// An object that a call stages changes of. Contracts see it as the call found it, as it is now, and
/// the bytes of the list of the edits that its calls made, if it keeps one. Reads are reads of
/// `object`, the newest version. Until the first write it holds a reference and copies nothing; a
/// write costs the parts that it touches. Each write does as the function of the same name in
/// `object_store::calls`: if that refuses it, all stays as it was, the list too. A list that isn't
/// kept costs nothing.
#[derive(Drop)]
pub struct Staged<'a> {
    base: Option<&'a Object>,
    newest: Newest,
    list: Option<Vec<u8>>,
}

impl<'a> Model for Staged<'a> {
    ghost use Rattle.txn.specs.Versions.{StagedObject, staged_code};

    ghost Value = { StagedObject };

    ghost coded = { staged_code };

    ghost use Rattle.std.specs.Option.{option_copied};
    ghost use Rattle.txn.specs.Staging.{shown, kept};

    ghost view = { λ s. record { before = option_copied s.base; after = shown s.base s.newest; list = kept s.list } };
}

impl<'a> Staged<'a> {
    /// The object as it stands; none if it is absent. It keeps no list, and takes no memory.
    pub fn over(base: Option<&'a Object>) -> Staged<'a>
        ensures before { result.before ≡ option_copied base.entry }
        ensures after { result.after ≡ option_copied base.entry }
        ensures list { result.list ≡ None }
    {
        Staged {
            base,
            newest: Newest::Untouched,
            list: None,
        }
    }

    /// The same with a list of the edits that its calls make, which is empty. It takes no memory.
    pub fn listing(alloc: Global, base: Option<&'a Object>) -> Staged<'a>
        ensures before { result.before ≡ option_copied base.entry }
        ensures after { result.after ≡ option_copied base.entry }
        ensures list { result.list ≡ Some [] }
    {
        Staged {
            base,
            newest: Newest::Untouched,
            list: Some(Vec::new(alloc)),
        }
    }

    /// The object as it is now; none if it is absent.
    pub fn object(&self) -> Option<&Object>
        ensures { option_copied result ≡ self.entry.now.after }
    {
        match &self.newest {
            Newest::Untouched => self.base,
            Newest::Written(object) => object.as_ref(),
        }
    }

    /// Writes bytes into the data at a place. An absent object is created, zeros fill a gap, and no
    /// bytes leave the data as it is. Refused: 4 TooBig, 7 NoMemory.
    pub fn write(&mut self, alloc: Global, at: u64, text: &[u8]) -> Result<(), StoreError>
        ensures before { self.new.before ≡ self.old.before }
        ensures answer { Gives (λ _. self.new.after) result (made (spec.write self.old.after at text.now)) }
        ensures list { OnOk result (self.new.list ≡ noted (write_edits self.old.after at text.now) self.old.list) }
        ensures refused { OnErr result (self.new ≡ self.old) }
    {
        let object = calls::write(alloc, self.object(), at, text)?;
        let edit = if text.is_empty() {
            None
        } else {
            Some(Edit::Write(at, text))
        };
        self.renew(alloc, object, edit)
    }

    /// Cuts the data to a length, or extends it with zeros. Refused: 4 TooBig, 1 Absent, 7
    /// NoMemory.
    pub fn truncate(&mut self, alloc: Global, len: u64) -> Result<(), StoreError>
        ensures before { self.new.before ≡ self.old.before }
        ensures answer { Gives (λ _. self.new.after) result (made (spec.truncate self.old.after len)) }
        ensures list { OnOk result (self.new.list ≡ noted (SetLength len ∷ []) self.old.list) }
        ensures refused { OnErr result (self.new ≡ self.old) }
    {
        let object = calls::truncate(alloc, self.object(), len)?;
        self.renew(alloc, object, Some(Edit::SetLength(len)))
    }

    /// Sets an xattr. An absent object is created. Refused: 6 Range, 4 TooBig, 5 TooMany, 7
    /// NoMemory.
    pub fn set_xattr(&mut self, alloc: Global, name: &[u8], value: &[u8]) -> Result<(), StoreError>
        ensures before { self.new.before ≡ self.old.before }
        ensures answer { Gives (λ _. self.new.after) result (made (spec.set_xattr self.old.after name.now value.now)) }
        ensures list { OnOk result (self.new.list ≡
            noted (creating self.old.after (SetXattr name.now value.now)) self.old.list) }
        ensures refused { OnErr result (self.new ≡ self.old) }
    {
        let object = calls::set_xattr(alloc, self.object(), name, value)?;
        self.renew(alloc, object, Some(Edit::SetXattr(name, value)))
    }

    /// Removes an xattr. Refused: 6 Range, 1 Absent, 3 NoAttr, 7 NoMemory.
    pub fn remove_xattr(&mut self, alloc: Global, name: &[u8]) -> Result<(), StoreError>
        ensures before { self.new.before ≡ self.old.before }
        ensures answer { Gives (λ _. self.new.after) result (made (spec.remove_xattr self.old.after name.now)) }
        ensures list { OnOk result (self.new.list ≡ noted (RemoveXattr name.now ∷ []) self.old.list) }
        ensures refused { OnErr result (self.new ≡ self.old) }
    {
        let object = calls::remove_xattr(alloc, self.object(), name)?;
        self.renew(alloc, object, Some(Edit::RemoveXattr(name)))
    }

    /// Sets the value of a key of the omap. An absent object is created. Refused: 6 Range, 4
    /// TooBig, 5 TooMany, 7 NoMemory.
    pub fn set_key(&mut self, alloc: Global, key: &[u8], value: &[u8]) -> Result<(), StoreError>
        ensures before { self.new.before ≡ self.old.before }
        ensures answer { Gives (λ _. self.new.after) result (made (spec.set_key self.old.after key.now value.now)) }
        ensures list { OnOk result (self.new.list ≡
            noted (creating self.old.after (SetKey key.now value.now)) self.old.list) }
        ensures refused { OnErr result (self.new ≡ self.old) }
    {
        let object = calls::set_key(alloc, self.object(), key, value)?;
        self.renew(alloc, object, Some(Edit::SetKey(key, value)))
    }

    /// Removes a key of the omap. Refused: 6 Range, 1 Absent, 3 NoAttr, 7 NoMemory.
    pub fn remove_key(&mut self, alloc: Global, key: &[u8]) -> Result<(), StoreError>
        ensures before { self.new.before ≡ self.old.before }
        ensures answer { Gives (λ _. self.new.after) result (made (spec.remove_key self.old.after key.now)) }
        ensures list { OnOk result (self.new.list ≡ noted (RemoveKey key.now ∷ []) self.old.list) }
        ensures refused { OnErr result (self.new ≡ self.old) }
    {
        let object = calls::remove_key(alloc, self.object(), key)?;
        self.renew(alloc, object, Some(Edit::RemoveKey(key)))
    }

    /// Makes the object that a call made the newest version, and appends to the list the edit which
    /// made it, after the creation of an absent object. The list grows first: if memory is refused,
    /// all stays as it was.
    fn renew(&mut self, alloc: Global, object: Object, edit: Option<Edit>) -> Result<(), StoreError>
        requires { AreShort edit }
        ensures before { self.new.before ≡ self.old.before }
        ensures after { OnOk result (self.new.after ≡ Some object) }
        ensures list { OnOk result (self.new.list ≡
            noted (created self.old.after ++ edits_of edit.entry) self.old.list) }
        ensures refused { OnErr result (self.new ≡ self.old) }
        ensures want { OnErr result (result ≡ Err StoreError.NoMemory) }
    {
        let creates = self.object().is_none();
        note_edits(alloc, &mut self.list, creates, edit)?;
        self.newest = Newest::Written(Some(object));
        Ok(())
    }

    /// Makes an object with nothing in it if it is absent; one that is there stays as it is. It
    /// takes memory for the list alone.
    pub fn create(&mut self, alloc: Global) -> Result<(), NoMemory>
        ensures before { self.new.before ≡ self.old.before }
        ensures after { OnOk result (self.new.after ≡ Some (content_of self.old.after)) }
        ensures list { OnOk result (self.new.list ≡ noted (created self.old.after) self.old.list) }
        ensures refused { OnErr result (self.new ≡ self.old) }
    {
        // An object that is there, given or written, is kept with its content.
        if self.object().is_none() {
            note_edits(alloc, &mut self.list, true, None)?;
            self.newest = Newest::Written(Some(Object::new()));
        }
        Ok(())
    }

    /// Removes the object: data, xattrs and omap. It takes memory for the list alone.
    pub fn remove(&mut self, alloc: Global) -> Result<(), NoMemory>
        ensures before { self.new.before ≡ self.old.before }
        ensures after { OnOk result (self.new.after ≡ None) }
        ensures list { OnOk result (self.new.list ≡ noted (removed self.old.after) self.old.list) }
        ensures refused { OnErr result (self.new ≡ self.old) }
    {
        if self.object().is_some() {
            note_edits(alloc, &mut self.list, false, Some(Edit::Remove))?;
            self.newest = Newest::Written(None);
        }
        Ok(())
    }

    /// The list, which it no longer keeps; an empty one if it kept none.
    pub fn take_list(&mut self, alloc: Global) -> Vec<u8>
        ensures before { self.new.before ≡ self.old.before }
        ensures after { self.new.after ≡ self.old.after }
        ensures list { result.items ≡ unwrap_or self.old.list [] }
    {
        match self.list.take() {
            None => Vec::new(alloc),
            Some(list) => list,
        }
    }

    /// The change from the object as the call found it to the object as it is now. It shares both
    /// and grows nothing.
    pub fn finish(self) -> Result<Change, NoMemory>
        ensures before { IfOk result (λ c. c.before ≡ self.entry.before) }
        ensures after { IfOk result (λ c. c.after ≡ self.entry.after) }
    {
        let Staged {
            base,
            newest,
            list: _,
        } = self;
        match newest {
            Newest::Untouched => Change::none(base),
            Newest::Written(object) => Change::of(base, object),
        }
    }
}

/// Appends to a list, if one is kept, the creation of the object, if it was absent, and an edit. If
/// memory is refused, the list stays as it was.
pub fn note_edits(
    alloc: Global,
    list: &mut Option<Vec<u8>>,
    creates: bool,
    edit: Option<Edit>,
) -> Result<(), AllocError>
    requires { AreShort edit }
    ensures ok { OnOk result (kept list.new ≡ noted (creation creates ++ edits_of edit.entry) (kept list.old)) }
    ensures err { OnErr result (kept list.new ≡ kept list.old) }
{
    match list {
        None => Ok(()),
        Some(list) => {
            let mut more = Vec::new(alloc);
            if creates {
                put_edit(&mut more, Edit::Create)?;
            }
            if let Some(edit) = edit {
                put_edit(&mut more, edit)?;
            }
            list.append(&mut more)
        }
    }
}

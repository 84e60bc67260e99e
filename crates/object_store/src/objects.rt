ghost use Rattle.std.specs.Prelude.{◌≡◌, ◌↔◌, Result, IsTrue, IfOk, IfErr, OnErr, OnOk, length};
ghost use Rattle.std.specs.Option.{option_copied};
ghost use Rattle.std.specs.FinMap as fin;
ghost use Rattle.shared_map.specs.Entries.{nth, entry_behind};
ghost use Rattle.object_store.specs.Calls as spec;
ghost use Rattle.object_store.specs.Object.{Content};
ghost use Rattle.object_store.specs.Names.{stored, after, after_removal};
ghost use Rattle.object_store.specs.Returned.{Gives, behind};

use crate::calls;
use crate::object::Object;
use crate::object_name::ObjectName;
use crate::store_error::StoreError;
use shared_map::SharedMap;
use std::alloc::Global;
use std::marker::Model;

/// Objects by name. A copy shares all of them and costs one pointer. Contracts see the finite map
/// from names to the contents of the objects.
#[derive(Drop)]
pub struct Objects {
    by_name: SharedMap<Object>,
}

impl Model for Objects {
    ghost use Rattle.std.specs.Coded.{coded_ℕ, coded_list};
    ghost use Rattle.std.specs.FinMap as fin;
    ghost use Rattle.object_store.specs.Object.{content_code};
    ghost use Rattle.object_store.specs.Names.{PlainObjects};

    ghost Value = { PlainObjects };

    ghost coded = { fin.code (coded_list coded_ℕ) content_code };

    ghost view = { λ o. o.by_name };
}

impl Objects {
    /// No objects. It takes no memory.
    pub fn new() -> Objects
        ensures { result ≡ fin.empty }
    {
        Objects {
            by_name: SharedMap::new(),
        }
    }

    /// The number of objects.
    pub fn len(&self) -> usize
        ensures { result ≡ fin.len self.now }
    {
        self.by_name.len()
    }

    /// The object of that name, if it exists.
    pub fn get(&self, name: &ObjectName) -> Option<&Object>
        ensures { option_copied result ≡ fin.get self.now name.now }
    {
        self.by_name.get(name.text().as_bytes())
    }

    /// The object at a place in the order of the names, from 0 on, and its name, in the logarithm
    /// of the number of objects.
    pub fn nth(&self, n: usize) -> Option<(&[u8], &Object)>
        ensures { entry_behind result ≡ nth self.now n }
    {
        self.by_name.nth(n)
    }

    /// True if two have the same objects under the same names. It takes no memory.
    pub fn is_same(&self, other: &Objects) -> bool
        ensures { IsTrue result ↔ (self.now ≡ other.now) }
    {
        self.by_name.is_same(&other.by_name)
    }

    /// Equal objects, which are shared. Refused: 7 NoMemory.
    pub fn copy(&self) -> Result<Objects, StoreError>
        ensures value { IfOk result (λ o. o ≡ self.now) }
        ensures refused { IfErr result (λ e. e ≡ StoreError.NoMemory) }
    {
        Ok(Objects {
            by_name: self.by_name.copy()?,
        })
    }

    /// Makes this the object of that name, in place of the one that is there. Refused: 7 NoMemory;
    /// nothing has changed then.
    pub fn put(
        &mut self,
        alloc: Global,
        name: &ObjectName,
        object: Object,
    ) -> Result<(), StoreError>
        ensures ok { OnOk result (self.new ≡ fin.insert self.old name.now object) }
        ensures refused { IfErr result (λ e. e ≡ StoreError.NoMemory) }
        ensures err { OnErr result (self.new ≡ self.old) }
    {
        Ok(self.by_name.set(alloc, name.text().as_bytes(), object)?)
    }

    /// Makes the object of that name the one that a change made of it. If the change was refused,
    /// so is this, and nothing has changed.
    fn put_changed(
        &mut self,
        alloc: Global,
        name: &ObjectName,
        changed: Result<Object, StoreError>,
    ) -> Result<(), StoreError>
        ensures answer { (answer : Result Content StoreError) → Gives (λ o. o) changed answer →
            Gives (λ _. self.new) result (after self.old name.now answer) }
        ensures err { OnErr result (self.new ≡ self.old) }
    {
        self.put(alloc, name, changed?)
    }

    /// Takes the object of that name away, if it exists.
    fn take_away(&mut self, alloc: Global, name: &ObjectName) -> Result<(), StoreError>
        ensures ok { OnOk result (self.new ≡ fin.remove self.old name.now) }
        ensures refused { IfErr result (λ e. e ≡ StoreError.NoMemory) }
        ensures err { OnErr result (self.new ≡ self.old) }
    {
        Ok(self.by_name.remove(alloc, name.text().as_bytes())?)
    }

    /// Makes the object of that name equal to this one, which it shares, or absent. Refused: 7
    /// NoMemory; nothing has changed then.
    pub fn store(
        &mut self,
        alloc: Global,
        name: &ObjectName,
        object: Option<&Object>,
    ) -> Result<(), StoreError>
        ensures ok { OnOk result (self.new ≡ stored self.old name.now (option_copied object.entry)) }
        ensures refused { IfErr result (λ e. e ≡ StoreError.NoMemory) }
        ensures err { OnErr result (self.new ≡ self.old) }
    {
        match object {
            None => self.take_away(alloc, name),
            Some(object) => self.put(alloc, name, object.copy()?),
        }
    }

    /// The length of an object's data in bytes. Refused: 1 Absent.
    pub fn stat(&self, name: &ObjectName) -> Result<usize, StoreError>
        ensures { result ≡ spec.stat (fin.get self.now name.now) }
    {
        calls::stat(self.get(name))
    }

    /// Copies the bytes of an object from a place on into a buffer, until the data or the buffer
    /// ends, and returns their number. Refused: 1 Absent; the buffer is then as it was.
    pub fn read(&self, name: &ObjectName, at: u64, out: &mut [u8]) -> Result<usize, StoreError>
        ensures count { result ≡ spec.count (spec.read (fin.get self.now name.now) at (length out.old)) }
        ensures bytes { out.new ≡ spec.filled (spec.read (fin.get self.now name.now) at (length out.old)) out.old }
    {
        calls::read(self.get(name), at, out)
    }

    /// The value of an object's xattr. Refused: 6 Range, 1 Absent, 3 NoAttr.
    pub fn get_xattr(&self, name: &ObjectName, xattr: &[u8]) -> Result<&[u8], StoreError>
        ensures { behind result ≡ spec.get_xattr (fin.get self.now name.now) xattr.now }
    {
        calls::get_xattr(self.get(name), xattr)
    }

    /// The value of a key of an object's omap. Refused: 6 Range, 1 Absent, 3 NoAttr.
    pub fn get_key(&self, name: &ObjectName, key: &[u8]) -> Result<&[u8], StoreError>
        ensures { behind result ≡ spec.get_key (fin.get self.now name.now) key.now }
    {
        calls::get_key(self.get(name), key)
    }

    /// The least key of an object's omap above these bytes, which may be none. Refused: 6 Range
    /// past `NAME_LIMIT`, 1 Absent, 3 NoAttr.
    pub fn next_key(&self, name: &ObjectName, key: &[u8]) -> Result<&[u8], StoreError>
        ensures { behind result ≡ spec.next_key (fin.get self.now name.now) key.now }
    {
        calls::next_key(self.get(name), key)
    }

    /// Writes text at a place of an object, which it creates if it is absent. Zeros fill a gap, and
    /// no bytes leave the data as it is. Refused: 4 TooBig, 7 NoMemory; nothing has changed then.
    pub fn write(
        &mut self,
        alloc: Global,
        name: &ObjectName,
        at: u64,
        text: &[u8],
    ) -> Result<(), StoreError>
        ensures answer { Gives (λ _. self.new) result
            (after self.old name.now (spec.write (fin.get self.old name.now) at text.now)) }
        ensures err { OnErr result (self.new ≡ self.old) }
    {
        // The change is made first: it only reads these objects, so that borrow ends before the
        // put.
        let changed = calls::write(alloc, self.get(name), at, text);
        self.put_changed(alloc, name, changed)
    }

    /// Cuts the data of an object, or extends it with zeros. Refused: 4 TooBig, 1 Absent, 7
    /// NoMemory; nothing has changed then.
    pub fn truncate(&mut self, alloc: Global, name: &ObjectName, len: u64) -> Result<(), StoreError>
        ensures answer { Gives (λ _. self.new) result
            (after self.old name.now (spec.truncate (fin.get self.old name.now) len)) }
        ensures err { OnErr result (self.new ≡ self.old) }
    {
        let changed = calls::truncate(alloc, self.get(name), len);
        self.put_changed(alloc, name, changed)
    }

    /// Sets an xattr of an object, which it creates if it is absent. Refused: 6 Range, 4 TooBig, 5
    /// TooMany, 7 NoMemory; nothing has changed then.
    pub fn set_xattr(
        &mut self,
        alloc: Global,
        name: &ObjectName,
        xattr: &[u8],
        value: &[u8],
    ) -> Result<(), StoreError>
        ensures answer { Gives (λ _. self.new) result
            (after self.old name.now (spec.set_xattr (fin.get self.old name.now) xattr.now value.now)) }
        ensures err { OnErr result (self.new ≡ self.old) }
    {
        let changed = calls::set_xattr(alloc, self.get(name), xattr, value);
        self.put_changed(alloc, name, changed)
    }

    /// Sets a key of the omap of an object, which it creates if it is absent. Refused: 6 Range, 4
    /// TooBig, 5 TooMany, 7 NoMemory; nothing has changed then.
    pub fn set_key(
        &mut self,
        alloc: Global,
        name: &ObjectName,
        key: &[u8],
        value: &[u8],
    ) -> Result<(), StoreError>
        ensures answer { Gives (λ _. self.new) result
            (after self.old name.now (spec.set_key (fin.get self.old name.now) key.now value.now)) }
        ensures err { OnErr result (self.new ≡ self.old) }
    {
        let changed = calls::set_key(alloc, self.get(name), key, value);
        self.put_changed(alloc, name, changed)
    }

    /// Removes an xattr of an object. Refused: 6 Range, 1 Absent, 3 NoAttr, 7 NoMemory; nothing has
    /// changed then.
    pub fn remove_xattr(
        &mut self,
        alloc: Global,
        name: &ObjectName,
        xattr: &[u8],
    ) -> Result<(), StoreError>
        ensures answer { Gives (λ _. self.new) result
            (after self.old name.now (spec.remove_xattr (fin.get self.old name.now) xattr.now)) }
        ensures err { OnErr result (self.new ≡ self.old) }
    {
        let changed = calls::remove_xattr(alloc, self.get(name), xattr);
        self.put_changed(alloc, name, changed)
    }

    /// Removes a key of the omap of an object. Refused: 6 Range, 1 Absent, 3 NoAttr, 7 NoMemory;
    /// nothing has changed then.
    pub fn remove_key(
        &mut self,
        alloc: Global,
        name: &ObjectName,
        key: &[u8],
    ) -> Result<(), StoreError>
        ensures answer { Gives (λ _. self.new) result
            (after self.old name.now (spec.remove_key (fin.get self.old name.now) key.now)) }
        ensures err { OnErr result (self.new ≡ self.old) }
    {
        let changed = calls::remove_key(alloc, self.get(name), key);
        self.put_changed(alloc, name, changed)
    }

    /// Creates an object without data, xattrs and keys; one that is there stays as it is. Refused:
    /// 2 Exists, if it is there and the creation is exclusive, 7 NoMemory; nothing has changed
    /// then.
    pub fn create(
        &mut self,
        alloc: Global,
        name: &ObjectName,
        exclusive: bool,
    ) -> Result<(), StoreError>
        ensures answer { Gives (λ _. self.new) result
            (after self.old name.now (spec.create (fin.get self.old name.now) exclusive)) }
        ensures err { OnErr result (self.new ≡ self.old) }
    {
        let changed = calls::create(self.get(name), exclusive);
        self.put_changed(alloc, name, changed)
    }

    /// Removes an object. Refused: 1 Absent, 7 NoMemory; nothing has changed then.
    pub fn remove(&mut self, alloc: Global, name: &ObjectName) -> Result<(), StoreError>
        ensures answer { Gives (λ _. self.new) result
            (after_removal self.old name.now (spec.remove (fin.get self.old name.now))) }
        ensures err { OnErr result (self.new ≡ self.old) }
    {
        // An absent object is refused here: `take_away` would take it for done.
        calls::remove(self.get(name))?;
        self.take_away(alloc, name)
    }
}

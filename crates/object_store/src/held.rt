ghost use Rattle.std.specs.Prelude.{◌≡◌, ◌+◌, ◌≤◌, ◌↔◌, IsTrue, IfOk, Ok, length};
ghost use Rattle.std.specs.Option.{option_copied};
ghost use Rattle.std.specs.FinMap as fin;
ghost use Rattle.shared_map.specs.Entries.{key_above, nth, entry_behind};
ghost use Rattle.object_store.specs.declared.limits.TheConstants.{DATA_LIMIT, XATTR_LIMIT, KEY_LIMIT};
ghost use Rattle.object_store.specs.Object.{IsContent, IsName, IsValue, nothing, part, spliced, resized};
ghost use Rattle.object_store.specs.Edits.{overlaid};
ghost use Rattle.object_store.specs.Calls.{set_in, removed_in, with_xattrs, with_omap};
ghost use Rattle.object_store.specs.Returned.{Gives};

use crate::attributes::{Attributes, nth_in, remove_in, set_in, value_in};
use crate::data::Data;
use crate::extent_data::ExtentData;
use crate::limits::{KEY_LIMIT, XATTR_LIMIT};
use crate::store_error::StoreError;
use shared_map::SharedMap;
use std::alloc::{AllocError, Global};
use std::marker::Model;

/// The content of an object: its data, its xattrs and its omap, always within the limits. A copy
/// shares all of it and costs three pointers. Contracts see it as the content.
#[derive(Drop)]
pub(crate) struct Held {
    bytes: ExtentData,
    xattrs: Attributes,
    omap: Attributes,
}

impl Model for Held {
    ghost use Rattle.object_store.specs.Object.{Content, content_code, IsContent};

    ghost Value = { Content };

    ghost coded = { content_code };

    ghost view = { λ o. record { bytes = o.bytes; xattrs = o.xattrs; omap = o.omap } };

    ghost invariant = { λ o. IsContent (record { bytes = o.bytes; xattrs = o.xattrs; omap = o.omap }) };
}

impl Held {
    /// No data, xattrs and keys. It takes no memory.
    pub(crate) fn new() -> Held
        ensures { result ≡ nothing }
    {
        Held {
            bytes: ExtentData::new(),
            xattrs: SharedMap::new(),
            omap: SharedMap::new(),
        }
    }

    /// It is within the limits.
    pub(crate) fn within(&self)
        ensures { IsContent self.now }
    {
        // For the proof: a use of a field brings the invariant of the type, which is the clause.
        let _ = &self.bytes;
    }

    /// The length of the data in bytes.
    pub(crate) fn len(&self) -> usize
        ensures value { result ≡ length self.now.bytes }
        ensures within { result ≤ DATA_LIMIT }
    {
        self.bytes.len()
    }

    /// Copies the bytes from a place on into a buffer, until the data or the buffer ends, and
    /// returns their number. It takes no memory.
    pub(crate) fn read(&self, at: u64, out: &mut [u8]) -> usize
        ensures count { result ≡ length (part self.now.bytes at (length out.old)) }
        ensures bytes { out.new ≡ overlaid (part self.now.bytes at (length out.old)) out.old }
    {
        self.bytes.read(at, out)
    }

    /// The value of an xattr.
    pub(crate) fn xattr(&self, name: &[u8]) -> Option<&[u8]>
        ensures { option_copied result ≡ fin.get self.now.xattrs name.now }
    {
        value_in(&self.xattrs, name)
    }

    /// The least name of an xattr above these bytes.
    pub(crate) fn xattr_above(&self, name: &[u8]) -> Option<&[u8]>
        ensures { option_copied result ≡ key_above self.now.xattrs name.now }
    {
        self.xattrs.key_above(name)
    }

    /// The number of xattrs.
    pub(crate) fn xattr_count(&self) -> usize
        ensures value { result ≡ fin.len self.now.xattrs }
        ensures within { result ≤ XATTR_LIMIT }
    {
        self.xattrs.len()
    }

    /// The xattr at a place in the order of their names, from 0 on: its name and its value.
    pub(crate) fn xattr_at(&self, n: usize) -> Option<(&[u8], &[u8])>
        ensures { entry_behind result ≡ nth self.now.xattrs n }
    {
        nth_in(&self.xattrs, n)
    }

    /// The value of a key of the omap.
    pub(crate) fn key(&self, key: &[u8]) -> Option<&[u8]>
        ensures { option_copied result ≡ fin.get self.now.omap key.now }
    {
        value_in(&self.omap, key)
    }

    /// The least key of the omap above these bytes.
    pub(crate) fn key_above(&self, key: &[u8]) -> Option<&[u8]>
        ensures { option_copied result ≡ key_above self.now.omap key.now }
    {
        self.omap.key_above(key)
    }

    /// The number of keys of the omap.
    pub(crate) fn key_count(&self) -> usize
        ensures value { result ≡ fin.len self.now.omap }
        ensures within { result ≤ KEY_LIMIT }
    {
        self.omap.len()
    }

    /// The key of the omap at a place in their order, from 0 on, and its value.
    pub(crate) fn key_at(&self, n: usize) -> Option<(&[u8], &[u8])>
        ensures { entry_behind result ≡ nth self.now.omap n }
    {
        nth_in(&self.omap, n)
    }

    /// True if two hold the same. It takes no memory.
    pub(crate) fn is_same(&self, other: &Held) -> bool
        ensures { IsTrue result ↔ (self.now ≡ other.now) }
    {
        self.bytes.is_same(&other.bytes)
            && self.xattrs.is_same(&other.xattrs)
            && self.omap.is_same(&other.omap)
    }

    /// True if it has no data, xattrs and keys.
    pub(crate) fn is_nothing(&self) -> bool
        ensures { IsTrue result ↔ (self.now ≡ nothing) }
    {
        self.is_same(&Held::new())
    }

    /// An equal content, which shares all of it.
    pub(crate) fn copy(&self) -> Result<Held, AllocError>
        ensures { IfOk result (λ o. o ≡ self.now) }
    {
        Ok(Held {
            bytes: self.bytes.share()?,
            xattrs: self.xattrs.copy()?,
            omap: self.omap.copy()?,
        })
    }

    /// Writes text at a place.
    pub(crate) fn write(&mut self, alloc: Global, at: usize, text: &[u8]) -> Result<(), StoreError>
        requires { at + length text.now ≤ DATA_LIMIT }
        ensures { Gives (λ _. self.new) result (Ok (record self.old { bytes = spliced self.old.bytes at text.now })) }
    {
        Ok(self.bytes.splice(alloc, at, text)?)
    }

    /// Cuts the data, or extends it with zeros.
    pub(crate) fn truncate(&mut self, alloc: Global, len: usize) -> Result<(), StoreError>
        requires { len ≤ DATA_LIMIT }
        ensures { Gives (λ _. self.new) result (Ok (record self.old { bytes = resized self.old.bytes len })) }
    {
        Ok(self.bytes.resize(alloc, len)?)
    }

    /// Sets an xattr.
    pub(crate) fn set_xattr(
        &mut self,
        alloc: Global,
        name: &[u8],
        value: &[u8],
    ) -> Result<(), StoreError>
        requires { IsName name.now × IsValue value.now }
        ensures { Gives
            (λ _. self.new) result (with_xattrs self.old (set_in XATTR_LIMIT self.old.xattrs name.now value.now)) }
    {
        set_in(alloc, &mut self.xattrs, XATTR_LIMIT, name, value)
    }

    /// Sets the value of a key.
    pub(crate) fn set_key(
        &mut self,
        alloc: Global,
        key: &[u8],
        value: &[u8],
    ) -> Result<(), StoreError>
        requires { IsName key.now × IsValue value.now }
        ensures { Gives (λ _. self.new) result (with_omap self.old (set_in KEY_LIMIT self.old.omap key.now value.now)) }
    {
        set_in(alloc, &mut self.omap, KEY_LIMIT, key, value)
    }

    /// Removes an xattr.
    pub(crate) fn remove_xattr(&mut self, alloc: Global, name: &[u8]) -> Result<(), StoreError>
        ensures { Gives (λ _. self.new) result (with_xattrs self.old (removed_in self.old.xattrs name.now)) }
    {
        remove_in(alloc, &mut self.xattrs, name)
    }

    /// Removes a key of the omap.
    pub(crate) fn remove_key(&mut self, alloc: Global, key: &[u8]) -> Result<(), StoreError>
        ensures { Gives (λ _. self.new) result (with_omap self.old (removed_in self.old.omap key.now)) }
    {
        remove_in(alloc, &mut self.omap, key)
    }
}

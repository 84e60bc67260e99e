ghost use Rattle.std.specs.Prelude.{◌≡◌, ◌↔◌, ◌+◌, ◌≤◌, IsTrue, OnErr, OnOk, length};
ghost use Rattle.std.specs.FinMap as fin;
ghost use Rattle.object_store.specs.Object.{IsName, IsValue, nothing, resized, spliced};
ghost use Rattle.large_objects.specs.Large.{IsLarge};
ghost use Rattle.large_objects.specs.declared.limits.TheConstants.{LARGE_LIMIT};

use crate::large_value::LargeValue;
use crate::slices::{resize, splice};
use interp::are_bytes;
use object_store::changes_keep_the_form;
use shared_map::SharedMap;
use std::alloc::{AllocError, Global};
use std::marker::Model;

/// Names and their values, in the order of the names.
pub type LargeNames = SharedMap<LargeValue>;

/// An object that is there, within an OSD's limits. Contracts see its content.
#[derive(Drop)]
pub struct LargeObject {
    bytes: Vec<u8>,
    xattrs: LargeNames,
    keys: LargeNames,
}

impl Model for LargeObject {
    ghost use Rattle.object_store.specs.Object.{Content, content_code};
    ghost use Rattle.large_objects.specs.Large.{IsLarge};

    ghost Value = { Content };

    ghost coded = { content_code };

    ghost view = { λ o. record { bytes = o.bytes.items; xattrs = o.xattrs; omap = o.keys } };

    ghost invariant = { λ o. IsLarge (record { bytes = o.bytes.items; xattrs = o.xattrs; omap = o.keys }) };
}

/// Gives a name this value.
fn set_in(
    alloc: Global,
    names: &mut LargeNames,
    name: &[u8],
    value: &[u8],
) -> Result<(), AllocError>
    ensures ok { OnOk result (names.new ≡ fin.insert names.old name.now value.now) }
    ensures err { OnErr result (names.new ≡ names.old) }
{
    let value = LargeValue::new(alloc, value)?;
    names.set(alloc, name, value)
}

impl LargeObject {
    /// An object without data, xattrs and keys.
    pub(crate) fn new(alloc: Global) -> LargeObject
        ensures { result ≡ nothing }
    {
        // For the proof: no names are such as an object may have.
        changes_keep_the_form();
        LargeObject {
            bytes: Vec::new(alloc),
            xattrs: SharedMap::new(),
            keys: SharedMap::new(),
        }
    }

    /// The data.
    pub fn bytes(&self) -> &[u8]
        ensures { result.now ≡ self.now.bytes }
    {
        &self.bytes
    }

    /// True if two hold the same.
    pub fn is_same(&self, other: &LargeObject) -> bool
        ensures { IsTrue result ↔ (self.now ≡ other.now) }
    {
        self.bytes.as_slice() == other.bytes.as_slice()
            && self.xattrs.is_same(&other.xattrs)
            && self.keys.is_same(&other.keys)
    }

    /// It is within the limits.
    pub(crate) fn within(&self)
        ensures { IsLarge self.now }
    {
        // For the proof: a use of a field brings the invariant of the type.
        let _ = &self.bytes;
    }

    /// The xattrs.
    pub fn xattrs(&self) -> &LargeNames
        ensures { result.now ≡ self.now.xattrs }
    {
        &self.xattrs
    }

    /// The keys.
    pub fn keys(&self) -> &LargeNames
        ensures { result.now ≡ self.now.omap }
    {
        &self.keys
    }

    /// Writes text at a place.
    pub(crate) fn write(&mut self, at: usize, text: &[u8]) -> Result<(), AllocError>
        requires { at + length text.now ≤ LARGE_LIMIT }
        ensures { OnOk result (self.new ≡ record self.old { bytes = spliced self.old.bytes at text.now }) }
    {
        changes_keep_the_form();
        are_bytes(text);
        splice(&mut self.bytes, at, text)?;
        Ok(())
    }

    /// Cuts the data, or extends it with zeros.
    pub(crate) fn set_length(&mut self, len: usize) -> Result<(), AllocError>
        requires { len ≤ LARGE_LIMIT }
        ensures { OnOk result (self.new ≡ record self.old { bytes = resized self.old.bytes len }) }
    {
        changes_keep_the_form();
        resize(&mut self.bytes, len)?;
        Ok(())
    }

    /// Sets an xattr.
    pub(crate) fn set_xattr(
        &mut self,
        alloc: Global,
        name: &[u8],
        value: &[u8],
    ) -> Result<(), AllocError>
        requires { IsName name.now × IsValue value.now }
        ensures { OnOk result (self.new ≡ record self.old { xattrs = fin.insert self.old.xattrs name.now value.now }) }
    {
        changes_keep_the_form();
        set_in(alloc, &mut self.xattrs, name, value)?;
        Ok(())
    }

    /// Sets a key.
    pub(crate) fn set_key(
        &mut self,
        alloc: Global,
        key: &[u8],
        value: &[u8],
    ) -> Result<(), AllocError>
        requires { IsName key.now × IsValue value.now }
        ensures { OnOk result (self.new ≡ record self.old { omap = fin.insert self.old.omap key.now value.now }) }
    {
        changes_keep_the_form();
        set_in(alloc, &mut self.keys, key, value)?;
        Ok(())
    }

    /// Removes an xattr, which may be absent.
    pub(crate) fn remove_xattr(&mut self, alloc: Global, name: &[u8]) -> Result<(), AllocError>
        ensures { OnOk result (self.new ≡ record self.old { xattrs = fin.remove self.old.xattrs name.now }) }
    {
        changes_keep_the_form();
        self.xattrs.remove(alloc, name)?;
        Ok(())
    }

    /// Removes a key, which may be absent.
    pub(crate) fn remove_key(&mut self, alloc: Global, key: &[u8]) -> Result<(), AllocError>
        ensures { OnOk result (self.new ≡ record self.old { omap = fin.remove self.old.omap key.now }) }
    {
        changes_keep_the_form();
        self.keys.remove(alloc, key)?;
        Ok(())
    }
}

ghost use Rattle.std.specs.Prelude.{◌≡◌, ◌≤◌, ◌↔◌, IsTrue, IfOk, IfErr, length};
ghost use Rattle.std.specs.Option.{option_copied};
ghost use Rattle.std.specs.FinMap as fin;
ghost use Rattle.shared_map.specs.Entries.{key_above, nth, entry_behind};
ghost use Rattle.object_store.specs.declared.limits.TheConstants.{DATA_LIMIT, XATTR_LIMIT, KEY_LIMIT};
ghost use Rattle.object_store.specs.Object.{IsContent, nothing, part};
ghost use Rattle.object_store.specs.Edits.{overlaid};

use crate::held::Held;
use crate::store_error::StoreError;
use shared_map::Same;
use std::alloc::{AllocError, Global};
use std::marker::Model;
use std::sync::Arc;

/// An object: its data, its xattrs and its omap, always within the limits. Its content never
/// changes once it is made, so a copy shares all of it and costs one pointer. Contracts see its
/// content.
pub struct Object {
    // None is the object without content, so that making one takes no memory.
    held: Option<Arc<Held>>,
}

// Written out, so that a crate that drops an object calls this and needn't prove again how its
// parts are dropped.
impl Drop for Object {
    fn drop(self) {
        let Object { held } = self;
        drop(held);
    }
}

impl Model for Object {
    ghost use Rattle.object_store.specs.Object.{Content, content_code};
    ghost use Rattle.object_store.specs.Shared.{content_behind};

    ghost Value = { Content };

    ghost coded = { content_code };

    ghost view = { λ o. content_behind o.held };
}

impl Object {
    /// An object without data, xattrs and keys. It takes no memory.
    pub fn new() -> Object
        ensures { result ≡ nothing }
    {
        Object { held: None }
    }

    /// An object that holds this.
    pub(crate) fn of(alloc: Global, held: Held) -> Result<Object, AllocError>
        ensures { IfOk result (λ o. o ≡ held) }
    {
        Ok(Object {
            held: Some(Arc::new(alloc, held)?),
        })
    }

    /// The content, to be changed: it shares all of it. Refused: 7 NoMemory.
    pub(crate) fn opened(&self) -> Result<Held, StoreError>
        ensures value { IfOk result (λ h. h ≡ self.now) }
        ensures refused { IfErr result (λ e. e ≡ StoreError.NoMemory) }
    {
        match &self.held {
            Some(held) => Ok(held.copy()?),
            None => Ok(Held::new()),
        }
    }

    /// It is within the limits.
    pub fn within(&self)
        ensures { IsContent self.now }
    {
        match &self.held {
            Some(held) => held.within(),
            None => {}
        }
    }

    /// The length of the data in bytes.
    pub fn len(&self) -> usize
        ensures value { result ≡ length self.now.bytes }
        ensures within { result ≤ DATA_LIMIT }
    {
        match &self.held {
            Some(held) => held.len(),
            None => 0,
        }
    }

    /// Copies the bytes from a place on into a buffer, until the data or the buffer ends, and
    /// returns their number. It takes no memory.
    pub fn read(&self, at: u64, out: &mut [u8]) -> usize
        ensures count { result ≡ length (part self.now.bytes at (length out.old)) }
        ensures bytes { out.new ≡ overlaid (part self.now.bytes at (length out.old)) out.old }
    {
        match &self.held {
            Some(held) => held.read(at, out),
            None => 0,
        }
    }

    /// The value of an xattr.
    pub fn xattr(&self, name: &[u8]) -> Option<&[u8]>
        ensures { option_copied result ≡ fin.get self.now.xattrs name.now }
    {
        match &self.held {
            Some(held) => held.xattr(name),
            None => None,
        }
    }

    /// The least name of an xattr above these bytes.
    pub fn xattr_above(&self, name: &[u8]) -> Option<&[u8]>
        ensures { option_copied result ≡ key_above self.now.xattrs name.now }
    {
        match &self.held {
            Some(held) => held.xattr_above(name),
            None => None,
        }
    }

    /// The number of xattrs.
    pub fn xattr_count(&self) -> usize
        ensures value { result ≡ fin.len self.now.xattrs }
        ensures within { result ≤ XATTR_LIMIT }
    {
        match &self.held {
            Some(held) => held.xattr_count(),
            None => 0,
        }
    }

    /// The xattr at a place in the order of their names, from 0 on: its name and its value.
    pub fn xattr_at(&self, n: usize) -> Option<(&[u8], &[u8])>
        ensures { entry_behind result ≡ nth self.now.xattrs n }
    {
        match &self.held {
            Some(held) => held.xattr_at(n),
            None => None,
        }
    }

    /// The value of a key of the omap.
    pub fn key(&self, key: &[u8]) -> Option<&[u8]>
        ensures { option_copied result ≡ fin.get self.now.omap key.now }
    {
        match &self.held {
            Some(held) => held.key(key),
            None => None,
        }
    }

    /// The least key of the omap above these bytes.
    pub fn key_above(&self, key: &[u8]) -> Option<&[u8]>
        ensures { option_copied result ≡ key_above self.now.omap key.now }
    {
        match &self.held {
            Some(held) => held.key_above(key),
            None => None,
        }
    }

    /// The number of keys of the omap.
    pub fn key_count(&self) -> usize
        ensures value { result ≡ fin.len self.now.omap }
        ensures within { result ≤ KEY_LIMIT }
    {
        match &self.held {
            Some(held) => held.key_count(),
            None => 0,
        }
    }

    /// The key of the omap at a place in their order, from 0 on, and its value.
    pub fn key_at(&self, n: usize) -> Option<(&[u8], &[u8])>
        ensures { entry_behind result ≡ nth self.now.omap n }
    {
        match &self.held {
            Some(held) => held.key_at(n),
            None => None,
        }
    }

    /// True if two have the same data, xattrs and keys. It takes no memory.
    pub fn is_same(&self, other: &Object) -> bool
        ensures { IsTrue result ↔ (self.now ≡ other.now) }
    {
        match &self.held {
            Some(held) => held_is(held, other),
            None => other.is_nothing(),
        }
    }

    /// True if it has no data, xattrs and keys.
    fn is_nothing(&self) -> bool
        ensures { IsTrue result ↔ (nothing ≡ self.now) }
    {
        match &self.held {
            Some(held) => held.is_nothing(),
            None => true,
        }
    }

    /// An equal object, which shares all of it. Refused: 7 NoMemory.
    pub fn copy(&self) -> Result<Object, StoreError>
        ensures value { IfOk result (λ o. o ≡ self.now) }
        ensures refused { IfErr result (λ e. e ≡ StoreError.NoMemory) }
    {
        Ok(self.share()?)
    }

    /// The same by one pointer more.
    fn share(&self) -> Result<Object, AllocError>
        ensures { IfOk result (λ o. o ≡ self.now) }
    {
        let held = match &self.held {
            Some(held) => Some(Arc::try_clone(held)?),
            None => None,
        };
        Ok(Object { held })
    }
}

/// True if an object has this content.
fn held_is(held: &Held, object: &Object) -> bool
    ensures { IsTrue result ↔ (held.now ≡ object.now) }
{
    match &object.held {
        Some(other) => held.is_same(other),
        None => held.is_nothing(),
    }
}

impl Same for Object {
    fn is_same(&self, other: &Object) -> bool {
        Object::is_same(self, other)
    }
}

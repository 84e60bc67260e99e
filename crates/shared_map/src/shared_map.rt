ghost use Rattle.std.specs.Prelude.{◌≡◌, ◌↔◌, OnOk, OnErr, IfOk, IsTrue};
ghost use Rattle.std.specs.Option.{option_copied};
ghost use Rattle.std.specs.FinMap as fin;
ghost use Rattle.shared_map.specs.Entries.{key_above, nth, entry_behind};

use crate::same::Same;
use crate::tree::Tree;
use std::alloc::{AllocError, Global};
use std::cmp::Ordering;
use std::marker::Model;

/// A map from bytes to values, in the order of the bytes. It is copied on write. Contracts see the
/// finite map.
pub struct SharedMap<V> {
    tree: Tree<V>,
}

// Written out, so that a crate that drops a map calls this and needn't prove again how a tree is
// dropped.
impl<V: Drop> Drop for SharedMap<V> {
    fn drop(self) {
        let SharedMap { tree } = self;
        drop(tree);
    }
}

impl<V> Model for SharedMap<V> {
    ghost use Rattle.std.specs.Prelude.{IsTrue};
    ghost use Rattle.std.specs.FinMap as fin;
    ghost use Rattle.std.specs.Coded.{coded_ℕ, coded_list};
    ghost use Rattle.shared_map.specs.Entries.{ByteMap, sorted};

    ghost Value = { ByteMap V };

    ghost coded = { fin.code (coded_list coded_ℕ) V.code };

    ghost view = { λ m. fin.from_sorted m.tree.entries };

    ghost invariant = { λ m. IsTrue (sorted m.tree.entries) };
}

impl<V: Drop> SharedMap<V> {
    /// A map without keys. It takes no memory.
    pub fn new() -> SharedMap<V>
        ensures { result ≡ fin.empty }
    {
        SharedMap { tree: Tree::new() }
    }

    /// The number of keys.
    pub fn len(&self) -> usize
        ensures { result ≡ fin.len self.now }
    {
        self.tree.len()
    }

    /// The value of a key, in the logarithm of the number of keys.
    pub fn get(&self, key: &[u8]) -> Option<&V>
        ensures { option_copied result ≡ fin.get self.now key.now }
    {
        self.tree.get(key)
    }

    /// The least key above these bytes, in the logarithm of the number of keys. The bytes need not
    /// be a key.
    pub fn key_above(&self, key: &[u8]) -> Option<&[u8]>
        ensures { option_copied result ≡ key_above self.now key.now }
    {
        self.tree.above(key)
    }

    /// Gives a key this value, in place of the one that it has. It makes the path to the key anew
    /// and shares the rest with older copies, which stay as they are. An error changes nothing.
    pub fn set(&mut self, alloc: Global, key: &[u8], value: V) -> Result<(), AllocError>
        ensures ok { OnOk result (self.new ≡ fin.insert self.old key.now value) }
        ensures err { OnErr result (self.new ≡ self.old) }
    {
        self.tree = self.tree.set_at(alloc, key, value)?;
        Ok(())
    }

    /// Removes a key, which may be absent. It makes the path to the key anew and shares the rest
    /// with older copies, which stay as they are. An error changes nothing.
    pub fn remove(&mut self, alloc: Global, key: &[u8]) -> Result<(), AllocError>
        ensures ok { OnOk result (self.new ≡ fin.remove self.old key.now) }
        ensures err { OnErr result (self.new ≡ self.old) }
    {
        // Without this look an absent key would cost a new path, though nothing changes.
        if self.tree.get(key).is_none() {
            return Ok(());
        }
        self.tree = self.tree.remove(alloc, key)?;
        Ok(())
    }

    /// An equal map, which shares all entries. It costs one pointer.
    pub fn copy(&self) -> Result<SharedMap<V>, AllocError>
        ensures { IfOk result (λ m. m ≡ self.now) }
    {
        Ok(SharedMap {
            tree: self.tree.copy()?,
        })
    }

    /// The key and the value at a place in the order of the keys, from 0 on, in the logarithm of
    /// the number of keys.
    pub fn nth(&self, n: usize) -> Option<(&[u8], &V)>
        ensures { entry_behind result ≡ nth self.now n }
    {
        match self.tree.nth(n) {
            Some(entry) => Some((entry.key.as_slice(), &entry.value)),
            None => None,
        }
    }

    /// The number of nodes on the longest path from the root, 255 if it is more: the most nodes
    /// that a lookup visits. No clause speaks of it; tests hold it low.
    pub fn height(&self) -> u8 {
        self.tree.height()
    }
}

impl<V: Drop + Same> SharedMap<V> {
    /// True if two maps have the same keys with the same values. It takes no memory.
    pub fn is_same(&self, other: &SharedMap<V>) -> bool
        ensures { IsTrue result ↔ (self.now ≡ other.now) }
    {
        // The loop goes over the keys of the first map alone: a longer second one is told here.
        if self.len() != other.len() {
            return false;
        }
        for n in 0..self.len() {
            if !same_entry(self.nth(n), other.nth(n)) {
                return false;
            }
        }
        true
    }
}

/// True if two entries are equal, or neither is there.
fn same_entry<V: Drop + Same>(one: Option<(&[u8], &V)>, other: Option<(&[u8], &V)>) -> bool
    ensures { IsTrue result ↔ (entry_behind one.entry ≡ entry_behind other.entry) }
{
    match (one, other) {
        (Some((key, value)), Some((other_key, other_value))) => match key.cmp(other_key) {
            Ordering::Equal => value.is_same(other_value),
            _ => false,
        },
        (None, None) => true,
        _ => false,
    }
}

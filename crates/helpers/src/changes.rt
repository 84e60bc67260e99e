//! The helpers that change the object.

ghost use Rattle.std.specs.Prelude.{◌≡◌, ◌∷◌, [], IfOk, OnErr};
ghost use Rattle.txn.specs.Edits.{Remove, SetXattr, RemoveXattr, SetKey, RemoveKey, SetLength, created, creating};
ghost use Rattle.txn.specs.Edits.{write_edits, noted};
ghost use Rattle.object_store.specs.Limits.{profile};
ghost use Rattle.helpers.specs.Edits.{if_done};
ghost use Rattle.helpers.specs.Table.{write_effect, truncate_effect, remove_effect, setxattr_effect, rmxattr_effect};
ghost use Rattle.helpers.specs.Table.{map_set_effect, map_rm_effect, create_effect};

use crate::answer::{answered, negative};
use crate::errno::{EEXIST, ENOENT};
use std::alloc::Global;
use txn::{NoMemory, Staged};

/// Helper 3, `write`: writes bytes into the data at a place. It creates an absent object, zeros
/// fill a gap, and no bytes leave the data as it is. It answers the number of bytes written.
/// Refused: EFBIG past the most bytes of an object.
pub fn write(alloc: Global, staged: &mut Staged, at: u64, bytes: &[u8]) -> Result<u64, NoMemory>
    ensures answer { IfOk result (λ n. n ≡ (write_effect profile staged.old.after at bytes.now).answer) }
    ensures object { IfOk result (λ _. staged.new.after ≡ (write_effect profile staged.old.after at bytes.now).object) }
    ensures list { IfOk result (λ n. staged.new.list ≡
        noted (if_done n (write_edits staged.old.after at bytes.now)) staged.old.list) }
    ensures before { staged.new.before ≡ staged.old.before }
    ensures refused { OnErr result (staged.new ≡ staged.old) }
{
    answered(staged.write(alloc, at, bytes), bytes.len() as u64)
}

/// Helper 4, `truncate`: cuts the data to a length, or extends it with zeros. It answers 0.
/// Refused, in this order: EFBIG past the most bytes of an object, ENOENT.
pub fn truncate(alloc: Global, staged: &mut Staged, size: u64) -> Result<u64, NoMemory>
    ensures answer { IfOk result (λ n. n ≡ (truncate_effect profile staged.old.after size).answer) }
    ensures object { IfOk result (λ _. staged.new.after ≡ (truncate_effect profile staged.old.after size).object) }
    ensures list { IfOk result (λ n. staged.new.list ≡ noted (if_done n (SetLength size ∷ [])) staged.old.list) }
    ensures before { staged.new.before ≡ staged.old.before }
    ensures refused { OnErr result (staged.new ≡ staged.old) }
{
    answered(staged.truncate(alloc, size), 0)
}

/// Helper 5, `remove`: data, xattrs and omap go. It answers 0, and takes memory for the list of
/// edits alone. Refused: ENOENT.
pub fn remove(alloc: Global, staged: &mut Staged) -> Result<u64, NoMemory>
    ensures answer { IfOk result (λ n. n ≡ (remove_effect staged.old.after).answer) }
    ensures object { IfOk result (λ _. staged.new.after ≡ (remove_effect staged.old.after).object) }
    ensures list { IfOk result (λ n. staged.new.list ≡ noted (if_done n (Remove ∷ [])) staged.old.list) }
    ensures before { staged.new.before ≡ staged.old.before }
    ensures refused { OnErr result (staged.new ≡ staged.old) }
{
    if staged.object().is_none() {
        return Ok(negative(ENOENT));
    }
    staged.remove(alloc)?;
    Ok(0)
}

/// Helper 7, `setxattr`: sets an xattr, of an absent object too, which it creates. It answers 0.
/// Refused, in this order: EINVAL if the name is none, EFBIG if the value is longer than a value
/// may be, ENOSPC if the name is new and the object has all xattrs that it may have.
pub fn setxattr(
    alloc: Global,
    staged: &mut Staged,
    name: &[u8],
    value: &[u8],
) -> Result<u64, NoMemory>
    ensures answer { IfOk result (λ n. n ≡ (setxattr_effect profile staged.old.after name.now value.now).answer) }
    ensures object { IfOk result (λ _. staged.new.after ≡
        (setxattr_effect profile staged.old.after name.now value.now).object) }
    ensures list { IfOk result (λ n. staged.new.list ≡
        noted (if_done n (creating staged.old.after (SetXattr name.now value.now))) staged.old.list) }
    ensures before { staged.new.before ≡ staged.old.before }
    ensures refused { OnErr result (staged.new ≡ staged.old) }
{
    answered(staged.set_xattr(alloc, name, value), 0)
}

/// Helper 8, `rmxattr`: removes an xattr. It answers 0. Refused, in this order: EINVAL if the name
/// is none, ENOENT, ENODATA if it has no such xattr.
pub fn rmxattr(alloc: Global, staged: &mut Staged, name: &[u8]) -> Result<u64, NoMemory>
    ensures answer { IfOk result (λ n. n ≡ (rmxattr_effect profile staged.old.after name.now).answer) }
    ensures object { IfOk result (λ _. staged.new.after ≡ (rmxattr_effect profile staged.old.after name.now).object) }
    ensures list { IfOk result (λ n. staged.new.list ≡ noted (if_done n (RemoveXattr name.now ∷ [])) staged.old.list) }
    ensures before { staged.new.before ≡ staged.old.before }
    ensures refused { OnErr result (staged.new ≡ staged.old) }
{
    answered(staged.remove_xattr(alloc, name), 0)
}

/// Helper 10, `map_set`: as `setxattr`, on the omap with its limit.
pub fn map_set(
    alloc: Global,
    staged: &mut Staged,
    key: &[u8],
    value: &[u8],
) -> Result<u64, NoMemory>
    ensures answer { IfOk result (λ n. n ≡ (map_set_effect profile staged.old.after key.now value.now).answer) }
    ensures object { IfOk result (λ _. staged.new.after ≡
        (map_set_effect profile staged.old.after key.now value.now).object) }
    ensures list { IfOk result (λ n. staged.new.list ≡
        noted (if_done n (creating staged.old.after (SetKey key.now value.now))) staged.old.list) }
    ensures before { staged.new.before ≡ staged.old.before }
    ensures refused { OnErr result (staged.new ≡ staged.old) }
{
    answered(staged.set_key(alloc, key, value), 0)
}

/// Helper 11, `map_rm`: as `rmxattr`, on the omap.
pub fn map_rm(alloc: Global, staged: &mut Staged, key: &[u8]) -> Result<u64, NoMemory>
    ensures answer { IfOk result (λ n. n ≡ (map_rm_effect profile staged.old.after key.now).answer) }
    ensures object { IfOk result (λ _. staged.new.after ≡ (map_rm_effect profile staged.old.after key.now).object) }
    ensures list { IfOk result (λ n. staged.new.list ≡ noted (if_done n (RemoveKey key.now ∷ [])) staged.old.list) }
    ensures before { staged.new.before ≡ staged.old.before }
    ensures refused { OnErr result (staged.new ≡ staged.old) }
{
    answered(staged.remove_key(alloc, key), 0)
}

/// Helper 14, `create`: creates an absent object. It answers 0, and takes memory for the list of
/// edits alone. Refused: EEXIST if the object is there and is to be new, which any number but 0
/// says.
pub fn create(alloc: Global, staged: &mut Staged, exclusive: u64) -> Result<u64, NoMemory>
    ensures answer { IfOk result (λ n. n ≡ (create_effect staged.old.after exclusive).answer) }
    ensures object { IfOk result (λ _. staged.new.after ≡ (create_effect staged.old.after exclusive).object) }
    ensures list { IfOk result (λ n. staged.new.list ≡ noted (if_done n (created staged.old.after)) staged.old.list) }
    ensures before { staged.new.before ≡ staged.old.before }
    ensures refused { OnErr result (staged.new ≡ staged.old) }
{
    if exclusive != 0 && staged.object().is_some() {
        return Ok(negative(EEXIST));
    }
    staged.create(alloc)?;
    Ok(0)
}

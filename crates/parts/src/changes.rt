//! The helpers that change the object.

ghost use Rattle.std.specs.Prelude.{◌≡◌, ◌<◌, ◌^◌, ◌∷◌, [], ◌⊎◌, IfOk, IfErr, OnOk, length, true};
ghost use Rattle.object_store.specs.Limits.{IsLimits};
ghost use Rattle.txn.specs.Edits.{Remove, SetXattr, RemoveXattr, SetKey, RemoveKey, SetLength, created, creating};
ghost use Rattle.txn.specs.Edits.{write_edits};
ghost use Rattle.helpers.specs.Table.{write_effect, truncate_effect, remove_effect, setxattr_effect, rmxattr_effect};
ghost use Rattle.helpers.specs.Table.{map_set_effect, map_rm_effect, create_effect};
ghost use Rattle.parts.specs.Answers.{Changes};
ghost use Rattle.parts.specs.Grows.{Learns, no_position, as_before, past_cut};
ghost use Rattle.part_names.specs.Changes.{with_entry, without_entry, none_there};
ghost use Rattle.parts.specs.Needs.{NeedsXattr, NeedsKey, IsLookedUp};
ghost use Rattle.parts.specs.Stops.{IsWant, IsWantOrFull, IsWantOrNeed};
ghost use Rattle.parts.specs.inner.Names.{IsCounted};

use crate::names::{Found, found_of, set_errno};
use crate::staged_part::StagedPart;
use crate::stop::Stop;
use helpers::{EEXIST, EFBIG, EINVAL, ENODATA, ENOENT, negative};
use object_store::Limits;
use part_bytes::{Need, needed_name};
use std::alloc::Global;
use txn::{Edit, note_edits};

impl StagedPart {
    /// Helper 3, `write`: writes bytes into the data at a place. It creates an absent object, zeros
    /// fill a gap, and no bytes leave the data as it is. It answers the number of bytes written.
    /// Refused: EFBIG past the limit. Nothing is needed: blocks that aren't known stay unknown.
    pub fn write(
        &mut self,
        alloc: Global,
        limits: &Limits,
        at: u64,
        bytes: &[u8],
    ) -> Result<u64, Stop>
        requires limits { IsLimits limits.now }
        requires short { length bytes.now < 2 ^ 32 }
        ensures done { IfOk result (Changes (λ o. write_effect limits.now o at bytes.now)
            (λ o. write_edits o at bytes.now) self.old self.new) }
        ensures learns { IfOk result (Learns no_position as_before as_before self.old self.new) }
        ensures stopped { IfErr result IsWant }
    {
        match at.checked_add(bytes.len() as u64) {
            Some(end) if end <= limits.bytes => {}
            _ => return Ok(negative(EFBIG)),
        }
        let edit = if bytes.is_empty() {
            None
        } else {
            Some(Edit::Write(at, bytes))
        };
        note_edits(alloc, &mut self.list, !self.is_there, edit)?;
        self.bytes.write(at, bytes)?;
        self.is_there = true;
        Ok(bytes.len() as u64)
    }

    /// Helper 4, `truncate`: cuts the data to a length, or extends it with zeros. It answers 0.
    /// Refused, in this order: EFBIG past the limit, ENOENT. Nothing is needed.
    pub fn truncate(&mut self, alloc: Global, limits: &Limits, size: u64) -> Result<u64, Stop>
        requires { IsLimits limits.now }
        ensures done { IfOk result (Changes (λ o. truncate_effect limits.now o size)
            (λ _. SetLength size ∷ []) self.old self.new) }
        ensures learns { IfOk result
            (Learns (past_cut self.old.bytes size) as_before as_before self.old self.new) }
        ensures stopped { IfErr result IsWant }
    {
        if size > limits.bytes {
            return Ok(negative(EFBIG));
        }
        if !self.is_there {
            return Ok(negative(ENOENT));
        }
        note_edits(alloc, &mut self.list, false, Some(Edit::SetLength(size)))?;
        self.bytes.set_len(size);
        Ok(0)
    }

    /// Helper 5, `remove`: data, xattrs and omap go, so all is known afterwards. It answers 0.
    /// Refused: ENOENT. Nothing is needed.
    pub fn remove(&mut self, alloc: Global) -> Result<u64, Stop>
        ensures done { IfOk result (Changes (λ o. remove_effect o) (λ _. Remove ∷ []) self.old self.new) }
        ensures learns { IfOk result
            (Learns (λ _. true) (λ n. none_there n.most) (λ n. none_there n.most) self.old self.new) }
        ensures stopped { IfErr result IsWant }
    {
        if !self.is_there {
            return Ok(negative(ENOENT));
        }
        note_edits(alloc, &mut self.list, false, Some(Edit::Remove))?;
        self.bytes.clear();
        self.xattrs.clear();
        self.keys.clear();
        self.is_there = false;
        Ok(0)
    }

    /// Helper 14, `create`: makes an object with nothing in it if it is absent. It answers 0.
    /// Refused: EEXIST of an object that is there, if `exclusive` isn't 0. Nothing is needed.
    pub fn create(&mut self, alloc: Global, exclusive: u64) -> Result<u64, Stop>
        ensures done { IfOk result (Changes (λ o. create_effect o exclusive) (λ o. created o) self.old self.new) }
        ensures learns { IfOk result (Learns no_position as_before as_before self.old self.new) }
        ensures stopped { IfErr result IsWant }
    {
        if self.is_there {
            let answer = if exclusive == 0 { 0 } else { negative(EEXIST) };
            return Ok(answer);
        }
        note_edits(alloc, &mut self.list, true, None)?;
        self.is_there = true;
        Ok(0)
    }

    /// Helper 7, `setxattr`: sets an xattr, of an absent object too, which it creates. It answers 0.
    /// Refused, in this order: EINVAL if the name is none, EFBIG if the value is longer than a value
    /// may be, ENOSPC if the name is new and the object has all xattrs that it may have. Nothing is
    /// needed; `Full` if one xattr more would be kept than there may be.
    pub fn set_xattr(
        &mut self,
        alloc: Global,
        limits: &Limits,
        name: &[u8],
        value: &[u8],
    ) -> Result<u64, Stop>
        requires limits { IsLimits limits.now }
        requires counted { IsCounted limits.now.xattrs self.old.xattrs }
        ensures done { IfOk result (Changes (λ o. setxattr_effect limits.now o name.now value.now)
            (λ o. creating o (SetXattr name.now value.now)) self.old self.new) }
        ensures learns { IfOk result
            (Learns no_position (λ n. with_entry n name.now value.now) as_before self.old self.new) }
        ensures stopped { IfErr result (IsWantOrFull self.old.xattrs name.now) }
    {
        if let Some(errno) = set_errno(&self.xattrs, &limits.xattrs, name, value) {
            return Ok(negative(errno));
        }
        note_edits(
            alloc,
            &mut self.list,
            !self.is_there,
            Some(Edit::SetXattr(name, value)),
        )?;
        self.xattrs.set(alloc, name, value)?;
        self.is_there = true;
        Ok(0)
    }

    /// Helper 10, `map_set`: as `setxattr`, on the omap.
    pub fn set_key(
        &mut self,
        alloc: Global,
        limits: &Limits,
        key: &[u8],
        value: &[u8],
    ) -> Result<u64, Stop>
        requires limits { IsLimits limits.now }
        requires counted { IsCounted limits.now.keys self.old.keys }
        ensures done { IfOk result (Changes (λ o. map_set_effect limits.now o key.now value.now)
            (λ o. creating o (SetKey key.now value.now)) self.old self.new) }
        ensures learns { IfOk result
            (Learns no_position as_before (λ n. with_entry n key.now value.now) self.old self.new) }
        ensures stopped { IfErr result (IsWantOrFull self.old.keys key.now) }
    {
        if let Some(errno) = set_errno(&self.keys, &limits.keys, key, value) {
            return Ok(negative(errno));
        }
        note_edits(
            alloc,
            &mut self.list,
            !self.is_there,
            Some(Edit::SetKey(key, value)),
        )?;
        self.keys.set(alloc, key, value)?;
        self.is_there = true;
        Ok(0)
    }

    /// Helper 8, `rmxattr`: removes an xattr. It answers 0. Refused, in this order: EINVAL if the name
    /// is none, ENOENT, ENODATA if it has no such xattr. Needed is the xattr of that name.
    pub fn remove_xattr(&mut self, alloc: Global, limits: &Limits, name: &[u8]) -> Result<u64, Stop>
        requires { IsLimits limits.now }
        ensures done { IfOk result (Changes (λ o. rmxattr_effect limits.now o name.now)
            (λ _. RemoveXattr name.now ∷ []) self.old self.new) }
        ensures learns { IfOk result
            (Learns no_position (λ n. without_entry n name.now) as_before self.old self.new) }
        ensures known { OnOk result
            (IsLookedUp self.old.present limits.now.xattrs.length self.old.xattrs name.now) }
        ensures stopped { IfErr result (IsWantOrNeed (NeedsXattr limits.now self.old name.now)) }
    {
        match found_of(&self.xattrs, self.is_there, limits.xattrs.length, name) {
            Found::Refused(errno) => Ok(negative(errno)),
            Found::Unknown => Err(Stop::Needs(Need::Xattr(needed_name(name)))),
            Found::There => {
                note_edits(alloc, &mut self.list, false, Some(Edit::RemoveXattr(name)))?;
                self.xattrs.remove(alloc, name)?;
                Ok(0)
            }
        }
    }

    /// Helper 11, `map_rm`: as `rmxattr`, on the omap.
    pub fn remove_key(&mut self, alloc: Global, limits: &Limits, key: &[u8]) -> Result<u64, Stop>
        requires { IsLimits limits.now }
        ensures done { IfOk result (Changes (λ o. map_rm_effect limits.now o key.now)
            (λ _. RemoveKey key.now ∷ []) self.old self.new) }
        ensures learns { IfOk result
            (Learns no_position as_before (λ n. without_entry n key.now) self.old self.new) }
        ensures known { OnOk result (IsLookedUp self.old.present limits.now.keys.length self.old.keys key.now) }
        ensures stopped { IfErr result (IsWantOrNeed (NeedsKey limits.now self.old key.now)) }
    {
        match found_of(&self.keys, self.is_there, limits.keys.length, key) {
            Found::Refused(errno) => Ok(negative(errno)),
            Found::Unknown => Err(Stop::Needs(Need::Key(needed_name(key)))),
            Found::There => {
                note_edits(alloc, &mut self.list, false, Some(Edit::RemoveKey(key)))?;
                self.keys.remove(alloc, key)?;
                Ok(0)
            }
        }
    }
}

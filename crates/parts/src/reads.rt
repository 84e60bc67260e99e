//! The helpers that look something up.

ghost use Rattle.std.specs.Prelude.{◌≡◌, ◌≤◌, ◌^◌, IfOk, IfErr, OnOk, OnErr, length};
ghost use Rattle.object_store.specs.Object.{PlainObject};
ghost use Rattle.object_store.specs.Edits.{overlaid};
ghost use Rattle.object_store.specs.Limits.{IsLimits};
ghost use Rattle.helpers.specs.Table.{stat_answer, read_answer, getxattr_answer, map_get_answer, map_next_answer};
ghost use Rattle.helpers.specs.Table.{xattr_next_answer};
ghost use Rattle.parts.specs.Known.{Stands};
ghost use Rattle.parts.specs.Answers.{Finds};
ghost use Rattle.parts.specs.Needs.{NeedsBlocks, NeedsXattr, NeedsKey, NeedsKeyFrom, NeedsXattrFrom};
ghost use Rattle.parts.specs.Needs.{AreRead, IsLookedUp, IsReached};

use crate::names::{name_above, value_of};
use crate::staged_part::StagedPart;
use helpers::{ENOENT, HelperAnswer, negative};
use object_store::Limits;
use part_bytes::{Need, needed_name};

impl StagedPart {
    /// Helper 1, `stat`: the length of the data. Refused: ENOENT.
    pub fn stat(&self) -> u64
        ensures { (o : PlainObject) → Stands self.now o → result ≡ (stat_answer o).number }
    {
        if self.is_there {
            self.bytes.size()
        } else {
            negative(ENOENT)
        }
    }

    /// Helper 2, `read`: copies the data from a place on into a buffer of at most 262,144 bytes, until
    /// the data or the buffer ends. It answers the number of bytes copied. Refused: ENOENT. Needed are
    /// the blocks that it copies from.
    pub fn read(&self, at: u64, out: &mut [u8]) -> Result<u64, Need>
        requires { length out.old ≤ 2 ^ 18 }
        ensures number { IfOk result (λ n. (o : PlainObject) → Stands self.now o →
            n ≡ (read_answer o at (length out.old)).number) }
        ensures bytes { OnOk result ((o : PlainObject) → Stands self.now o →
            out.new ≡ overlaid (read_answer o at (length out.old)).bytes out.old) }
        ensures needed { IfErr result (NeedsBlocks self.now at (length out.old)) }
        ensures known { OnOk result (AreRead self.now at (length out.old)) }
        ensures same { OnErr result (out.new ≡ out.old) }
    {
        if !self.is_there {
            return Ok(negative(ENOENT));
        }
        if let Some(unknown) = self.bytes.unknown(at, out.len() as u64) {
            return Err(Need::Blocks {
                first: unknown.block,
                count: unknown.count as u8,
            });
        }
        Ok(self.bytes.read(at, out) as u64)
    }

    /// The answer of helper 6, `getxattr`: the value of an xattr. Refused: EINVAL, ENOENT, ENODATA,
    /// ERANGE. Needed is the xattr of that name.
    pub fn xattr_value(
        &self,
        limits: &Limits,
        name: &[u8],
        room: u64,
    ) -> Result<HelperAnswer<'_>, Need>
        requires { IsLimits limits.now }
        ensures found { IfOk result (Finds (λ o. getxattr_answer limits.now o name.now room) self.now) }
        ensures needed { IfErr result (NeedsXattr limits.now self.now name.now) }
        ensures known { OnOk result (IsLookedUp self.now.present limits.now.xattrs.length self.now.xattrs name.now) }
    {
        match value_of(
            &self.xattrs,
            self.is_there,
            limits.xattrs.length,
            name,
            room,
        ) {
            Some(answer) => Ok(answer),
            None => Err(Need::Xattr(needed_name(name))),
        }
    }

    /// The answer of helper 9, `map_get`: as `xattr_value`, on the omap.
    pub fn map_value(
        &self,
        limits: &Limits,
        key: &[u8],
        room: u64,
    ) -> Result<HelperAnswer<'_>, Need>
        requires { IsLimits limits.now }
        ensures found { IfOk result (Finds (λ o. map_get_answer limits.now o key.now room) self.now) }
        ensures needed { IfErr result (NeedsKey limits.now self.now key.now) }
        ensures known { OnOk result (IsLookedUp self.now.present limits.now.keys.length self.now.keys key.now) }
    {
        match value_of(&self.keys, self.is_there, limits.keys.length, key, room) {
            Some(answer) => Ok(answer),
            None => Err(Need::Key(needed_name(key))),
        }
    }

    /// The answer of helper 12, `map_next`: the least key of the omap above some bytes, and with no
    /// bytes the least key. Refused: EINVAL, ENOENT, ENODATA, ERANGE. Needed is the least key from the
    /// first place on that isn't known.
    pub fn key_above(
        &self,
        limits: &Limits,
        key: &[u8],
        room: u64,
    ) -> Result<HelperAnswer<'_>, Need>
        requires { IsLimits limits.now }
        ensures found { IfOk result (Finds (λ o. map_next_answer limits.now o key.now room) self.now) }
        ensures needed { IfErr result (NeedsKeyFrom limits.now self.now key.now) }
        ensures known { OnOk result (IsReached self.now.present limits.now.keys.length self.now.keys key.now) }
    {
        match name_above(&self.keys, self.is_there, limits.keys.length, key, room) {
            Ok(answer) => Ok(answer),
            Err(place) => Err(Need::KeyFrom(needed_name(place.bytes()))),
        }
    }

    /// The answer of helper 18, `xattr_next`: as of `map_next`, on the xattrs.
    pub fn xattr_above(
        &self,
        limits: &Limits,
        name: &[u8],
        room: u64,
    ) -> Result<HelperAnswer<'_>, Need>
        requires { IsLimits limits.now }
        ensures found { IfOk result (Finds (λ o. xattr_next_answer limits.now o name.now room) self.now) }
        ensures needed { IfErr result (NeedsXattrFrom limits.now self.now name.now) }
        ensures known { OnOk result (IsReached self.now.present limits.now.xattrs.length self.now.xattrs name.now) }
    {
        match name_above(
            &self.xattrs,
            self.is_there,
            limits.xattrs.length,
            name,
            room,
        ) {
            Ok(answer) => Ok(answer),
            Err(place) => Err(Need::XattrFrom(needed_name(place.bytes()))),
        }
    }
}

ghost use Rattle.std.specs.Prelude.{◌≡◌, [], unwrap_or};

use part_data::PartData;
use part_names::PartNames;
use std::alloc::Global;
use std::marker::Model;

/// An object of which a part is known, as a call stages it: whether it is there, its data, its xattrs
/// and its keys, and the list of the edits that were made. Contracts see what is known, and speak of
/// every object that it may be.
#[derive(Drop)]
pub struct StagedPart {
    pub(crate) is_there: bool,
    pub(crate) bytes: PartData,
    pub(crate) xattrs: PartNames,
    pub(crate) keys: PartNames,
    pub(crate) list: Option<Vec<u8>>,
}

impl StagedPart {
    /// The edits so far, one after the other, as a list of edits is spelled; the list is empty then.
    pub fn take_list(&mut self, alloc: Global) -> Vec<u8>
        ensures { result.items ≡ unwrap_or self.old.list [] }
    {
        match self.list.take() {
            None => Vec::new(alloc),
            Some(list) => list,
        }
    }
}

impl Model for StagedPart {
    ghost use Rattle.parts.specs.Known.{KnownObject, known_code};
    ghost use Rattle.txn.specs.Staging.{kept};
    ghost use Rattle.parts.specs.inner.Part.{IsNothing};

    ghost Value = { KnownObject };

    ghost coded = { known_code };

    ghost view = { λ s. record {
      present = s.is_there;
      bytes = s.bytes;
      xattrs = s.xattrs;
      keys = s.keys;
      list = kept s.list;
    } };

    ghost invariant = { λ s. IsNothing s.is_there s.bytes s.xattrs s.keys };
}

//! What holds of all that a call stages, proved as the contract of a function that does nothing.

ghost use Rattle.object_store.specs.Object.{PlainObject};
ghost use Rattle.object_store.specs.Limits.{IsAnyObject};
ghost use Rattle.parts.specs.Known.{Stands};

use crate::staged_part::StagedPart;

impl StagedPart {
    /// There is an object that it may be: data below 2^63 bytes, names of 1 to 64 bytes and values of
    /// at most 4,096, within no host's limits.
    pub fn some_object(&self)
        ensures { (o : PlainObject) × IsAnyObject o × Stands self.now o }
    {
        // For the proof: what is known is bytes, and so is each name and value that is kept.
        let _size = self.bytes.size();
        self.bytes.within();
        self.xattrs.within();
        self.keys.within();
    }
}

ghost use Rattle.std.specs.Prelude.{◌≡◌, ◌≤◌, ◌↔◌, List, ℕ, IsTrue, IsSome, OnOk, OnErr, MatchResult, length};
ghost use Rattle.std.specs.Option.{option_copied};
ghost use Rattle.std.specs.FinMap as fin;
ghost use Rattle.object_store.specs.declared.limits.TheConstants.{NAME_LIMIT, VALUE_LIMIT};
ghost use Rattle.object_store.specs.Object.{Attributes};
ghost use Rattle.object_store.specs.Calls.{is_named};
ghost use Rattle.part_names.specs.Order.{is_held, may_follow};
ghost use Rattle.part_names.specs.Known.{is_known, Agrees, AreKept};
ghost use Rattle.part_names.specs.Changes.{nothing_known, none_there, with_interval, with_entry, without_entry};
ghost use Rattle.part_names.specs.Changes.{may_enter, has_room, IsRefused};
ghost use Rattle.part_names.specs.Answers.{IsGot, IsAbove, HasAbove};

use crate::above::Above;
use crate::intervals::Intervals;
use crate::known::Known;
use crate::order::is_below;
use crate::place::Place;
use crate::set_error::SetError;
use crate::stored_value::StoredValue;
use object_store::{NAME_LIMIT, VALUE_LIMIT};
use shared_map::SharedMap;
use std::alloc::{AllocError, Global};
use std::marker::Model;

/// Names of an object and their values, of which only some are known: entries, names that are there
/// with a value, and intervals, in which each name without an entry is absent. Contracts see
/// `PlainNames`. A name has 1 to 64 bytes, and a value at most 4,096.
pub struct PartNames {
    most: usize,
    entries: SharedMap<StoredValue>,
    intervals: Intervals,
}

// Written out, so that a crate that drops names calls this and needn't prove again how its parts
// are dropped.
impl Drop for PartNames {
    fn drop(self) {
        let PartNames {
            most: _,
            entries,
            intervals,
        } = self;
        drop(entries);
        drop(intervals);
    }
}

impl Model for PartNames {
    ghost use Rattle.part_names.specs.Known.{PlainNames, names_code, AreKept};

    ghost Value = { PlainNames };

    ghost coded = { names_code };

    ghost view = { λ n. record { most = n.most; entries = n.entries; intervals = n.intervals } };

    ghost invariant = { λ n. AreKept n.most n.entries };
}

impl PartNames {
    /// Nothing is known. There may be at most `most` entries: `XATTR_LIMIT` for xattrs and
    /// `KEY_LIMIT` for keys of the omap. It takes no memory.
    pub fn unknown(alloc: Global, most: usize) -> PartNames
        ensures value { result ≡ nothing_known most }
        ensures agree { (m : Attributes) → Agrees result m }
    {
        PartNames {
            most,
            entries: SharedMap::new(),
            intervals: Intervals::none(alloc),
        }
    }

    /// All names are absent. There may be at most `most` entries. It takes no memory.
    pub fn all_known(alloc: Global, most: usize) -> PartNames
        ensures value { result ≡ none_there most }
        ensures agree { Agrees result fin.empty }
    {
        PartNames {
            most,
            entries: SharedMap::new(),
            intervals: Intervals::all(alloc),
        }
    }

    /// There are at most `most` entries, each a name and a value within the limits, both of them bytes.
    pub fn within(&self)
        ensures { AreKept self.now.most self.now.entries }
    {
        // For the proof: a use of a field brings the invariant of the type, which is the clause.
        let _ = &self.intervals;
    }

    /// True if an interval may be learned: `lo` is below `hi`, all intervals end below `lo`, and both
    /// bounds have at most 65 bytes. No `hi` is the end of all strings.
    pub fn may_learn_interval(&self, lo: &[u8], hi: Option<&[u8]>) -> bool
        ensures { result ≡ may_follow self.now.intervals lo.now (option_copied hi.entry) }
    {
        self.intervals.may_add(lo, hi)
    }

    /// Learns that each name from `lo` on below `hi` is absent, if it has no entry. An error changes
    /// nothing.
    pub fn learn_interval(
        &mut self,
        alloc: Global,
        lo: &[u8],
        hi: Option<&[u8]>,
    ) -> Result<(), AllocError>
        requires { IsTrue (may_follow self.old.intervals lo.now (option_copied hi)) }
        ensures ok { OnOk result (self.new ≡ with_interval self.old lo.now (option_copied hi.entry)) }
        ensures err { OnErr result (self.new ≡ self.old) }
    {
        self.intervals.add(alloc, lo, hi)
    }

    /// True if an entry may be learned: the name has 1 to 64 bytes, an interval holds it, and it has
    /// no entry yet; the value has at most 4,096 bytes; and there are fewer than `most` entries.
    pub fn may_learn_entry(&self, name: &[u8], value: &[u8]) -> bool
        ensures { result ≡ may_enter self.now name.now value.now }
    {
        !name.is_empty()
            && name.len() <= NAME_LIMIT
            && value.len() <= VALUE_LIMIT
            && self.intervals.hold(name)
            && self.entries.get(name).is_none()
            && self.entries.len() < self.most
    }

    /// Learns the value of a name. An error changes nothing.
    pub fn learn_entry(
        &mut self,
        alloc: Global,
        name: &[u8],
        value: &[u8],
    ) -> Result<(), AllocError>
        requires { IsTrue (may_enter self.old name.now value.now) }
        ensures ok { OnOk result (self.new ≡ with_entry self.old name.now value.now) }
        ensures err { OnErr result (self.new ≡ self.old) }
    {
        let value = StoredValue::new(alloc, value)?;
        self.entries.set(alloc, name, value)
    }

    /// True if it is known of a name if it is there.
    pub fn is_known(&self, name: &[u8]) -> bool
        ensures { result ≡ is_known self.now name.now }
    {
        self.entries.get(name).is_some() || self.intervals.hold(name)
    }

    /// What is known of a name. Every map that agrees has this value at a known name, or none.
    pub fn get(&self, name: &[u8]) -> Known<'_>
        ensures { IsGot self.now name.now result }
    {
        match self.entries.get(name) {
            Some(value) => Known::Value(value.bytes()),
            None if self.intervals.hold(name) => Known::Absent,
            None => Known::Unknown,
        }
    }

    /// The number of entries.
    pub fn count(&self) -> usize
        ensures value { result ≡ fin.len self.now.entries }
        ensures within { result ≤ self.now.most }
    {
        self.entries.len()
    }

    /// True if all names are known. Then the entries are the only map that agrees, and `count` is
    /// the number of its names.
    pub fn is_whole(&self) -> bool
        ensures all { IsTrue result ↔ ((name : List ℕ) → IsTrue (is_held self.now.intervals name)) }
        ensures same { IsTrue result → (m : Attributes) → Agrees self.now m → m ≡ self.now.entries }
    {
        self.intervals.reach(&[]).is_none()
    }

    /// Gives a name this value, whether it is known or not. Refused: Full, exactly if the name has
    /// no entry and there are `most`; and NoMemory. A refusal changes nothing.
    pub fn set(&mut self, alloc: Global, name: &[u8], value: &[u8]) -> Result<(), SetError>
        requires name { IsTrue (is_named name.now) }
        requires value { length value.now ≤ VALUE_LIMIT }
        ensures ok { OnOk result (self.new ≡ with_entry self.old name.now value.now) }
        ensures agree { OnOk result
            ((m : Attributes) → Agrees self.old m → Agrees self.new (fin.insert m name.now value.now)) }
        ensures err { OnErr result (self.new ≡ self.old) }
        ensures refused { MatchResult result
            (λ _. IsTrue (has_room self.old name.now)) (λ e. IsRefused (has_room self.old name.now) e) }
    {
        // A name that is there may get a new value though no further name fits.
        if self.entries.len() >= self.most && self.entries.get(name).is_none() {
            return Err(SetError::Full);
        }
        let value = StoredValue::new(alloc, value)?;
        self.entries.set(alloc, name, value)?;
        Ok(())
    }

    /// Removes an entry. Its name is unknown afterwards if no interval holds it, though it is
    /// absent. An error changes nothing.
    pub fn remove(&mut self, alloc: Global, name: &[u8]) -> Result<(), AllocError>
        requires { IsSome (fin.get self.old.entries name.now) }
        ensures ok { OnOk result (self.new ≡ without_entry self.old name.now) }
        ensures agree { OnOk result
            ((m : Attributes) → Agrees self.old m → Agrees self.new (fin.remove m name.now)) }
        ensures err { OnErr result (self.new ≡ self.old) }
    {
        self.entries.remove(alloc, name)
    }

    /// Makes all names absent. It takes no memory.
    pub fn clear(&mut self)
        ensures value { self.new ≡ none_there self.old.most }
        ensures agree { Agrees self.new fin.empty }
    {
        self.entries = SharedMap::new();
        self.intervals.hold_all();
    }

    /// The least name above some bytes, at most 64; above no bytes the least of all. It is the one
    /// of every map that agrees. Else it gives the first place where a name may be that isn't known.
    pub fn above(&self, bytes: &[u8]) -> Above<'_>
        requires { length bytes.now ≤ NAME_LIMIT }
        ensures answer { IsAbove self.now bytes.now result }
        ensures agree { (m : Attributes) → Agrees self.now m → HasAbove m bytes.now result }
    {
        let from = Place::least_from(bytes);
        match (
            self.intervals.reach(from.bytes()),
            self.entries.key_above(bytes),
        ) {
            (None, None) => Above::Absent,
            (None, Some(name)) => Above::Name(name),
            (Some(place), None) => Above::Unknown(Place::of(place)),
            (Some(place), Some(name)) if is_below(place, name) => {
                Above::Unknown(Place::of(place))
            }
            (Some(_), Some(name)) => Above::Name(name),
        }
    }
}

ghost use Rattle.std.specs.Prelude.{◌≡◌, IfOk};
ghost use Rattle.loop_heads.specs.Loops.{is_head};

use crate::place::HeadPlace;
use std::alloc::{AllocError, Global};
use std::marker::Model;

/// A head of a loop: the slot of a backward jump's target, and what is declared of places there.
/// Contracts see a `PlainHead`.
pub struct Head {
    slot: u16,
    places: Vec<HeadPlace>,
}

impl Drop for Head {
    fn drop(self) {
        let Head { slot: _, places } = self;
        drop(places);
    }
}

impl Model for Head {
    ghost use Rattle.loop_heads.specs.Loops.{PlainHead};

    ghost Value = { PlainHead };

    ghost view = { λ h. record { slot = h.slot; places = h.places.items } };
}

impl Head {
    /// A head at a slot.
    pub fn new(slot: u16, places: Vec<HeadPlace>) -> Head
        ensures { result ≡ record { slot = slot; places = places.items } }
    {
        Head { slot, places }
    }

    /// Its slot.
    pub fn slot(&self) -> u16
        ensures { result ≡ self.now.slot }
    {
        self.slot
    }

    /// Its places.
    pub fn places(&self) -> &[HeadPlace]
        ensures { result.now ≡ self.now.places }
    {
        &self.places
    }

    /// The same head. It is refused for want of memory alone.
    pub fn copy(&self, alloc: Global) -> Result<Head, AllocError>
        ensures { IfOk result (λ h. h ≡ self.now) }
    {
        let places = self.places.to_vec(alloc)?;
        Ok(Head {
            slot: self.slot,
            places,
        })
    }

    /// True if each of its places is one, and their numbers rise.
    pub fn is_head(&self) -> bool
        ensures { result ≡ is_head self.now }
    {
        let mut least: u8 = 0;
        for place in &self.places {
            if place.number < least || !place.is_place() {
                return false;
            }
            least = place.number + 1;
        }
        true
    }
}

use crate::growth::{Growth, Step, widest};
use crate::places::{STACK_POINTER, declared, place_kind};
use abstract_num::Precision;
use abstract_regs::{Frame, Kind};
use loop_frames::{PLACES, declare, is_frame_below};
use loop_heads::{HeadPlace, PlaceKind};
use std::alloc::{AllocError, Global};
use std::mem;

/// What is guessed of a head, and what flowed to it in the last pass.
#[derive(Drop)]
pub struct Guess {
    /// The head's slot.
    slot: usize,
    /// What is declared of its places, by rising numbers, and what was before.
    places: Vec<HeadPlace>,
    before: Vec<HeadPlace>,
    /// The join of the flows from lower slots, and of those that jumped back.
    inflow: Option<Frame>,
    back: Option<Frame>,
    /// The slot of the last jump back.
    jump: usize,
}

impl Guess {
    /// Nothing is declared yet.
    pub fn new(alloc: Global, slot: usize) -> Guess {
        Guess {
            slot,
            places: Vec::new(alloc),
            before: Vec::new(alloc),
            inflow: None,
            back: None,
            jump: 0,
        }
    }

    /// The head's slot.
    pub fn slot(&self) -> usize {
        self.slot
    }

    /// Its places.
    pub fn places(&self) -> &[HeadPlace] {
        &self.places
    }

    /// The slot of the last jump back.
    pub fn jump(&self) -> usize {
        self.jump
    }

    /// Before a pass.
    pub fn begin(&mut self) {
        self.inflow = None;
        self.back = None;
    }

    /// Turns what flows to it from lower slots into the frame there.
    pub fn enter(&mut self, alloc: Global, frame: &mut Frame) -> Result<(), AllocError> {
        self.inflow = Some(frame.copy(alloc)?);
        declare(Precision::Halves, &self.places, frame);
        Ok(())
    }

    /// Keeps what jumps back from a slot, joined with what did before.
    pub fn come_back(
        &mut self,
        alloc: Global,
        slot: usize,
        flow: &Frame,
    ) -> Result<(), AllocError> {
        self.jump = slot;
        match &mut self.back {
            None => self.back = Some(flow.copy(alloc)?),
            Some(back) => back.join(flow),
        }
        Ok(())
    }

    /// True if something jumped back, and nothing flowed from lower slots.
    pub fn is_cut_off(&self) -> bool {
        self.back.is_some() && self.inflow.is_none()
    }

    /// Lets what is declared grow till what jumped back is below it, and gives the first place that grew.
    pub fn grow(
        &mut self,
        alloc: Global,
        growth: &Growth,
        step: Step,
    ) -> Result<Option<u8>, AllocError> {
        let (Some(inflow), Some(back)) = (&self.inflow, &self.back) else {
            return Ok(None);
        };
        let mut head = inflow.copy(alloc)?;
        declare(Precision::Halves, &self.places, &mut head);
        let mut places = Vec::new(alloc);
        let mut first = None;
        for number in 0..PLACES as u8 {
            let was = declared_at(&self.places, number);
            let kind = place_kind(&head, usize::from(number));
            let joined = kind.join(place_kind(back, usize::from(number)));
            let place = if joined == kind {
                was
            } else {
                first = or(first, number);
                Some(unlike(was, growth.grown(step, kind, joined), joined))
            };
            push_place(&mut places, number, place)?;
        }
        self.places = places;
        Ok(first)
    }

    /// True if what jumped back is below the frame there.
    pub fn is_kept(&self, alloc: Global) -> Result<bool, AllocError> {
        match (&self.inflow, &self.back) {
            (_, None) => Ok(true),
            (None, Some(_)) => Ok(false),
            (Some(inflow), Some(back)) => {
                let mut head = inflow.copy(alloc)?;
                declare(Precision::Halves, &self.places, &mut head);
                Ok(is_frame_below(back, &head))
            }
        }
    }

    /// Declares no more than what flowed to it from both sides.
    pub fn narrow(&mut self, alloc: Global) -> Result<(), AllocError> {
        let mut places = Vec::new(alloc);
        if let (Some(inflow), Some(back)) = (&self.inflow, &self.back) {
            for number in 0..PLACES as u8 {
                let kind = place_kind(inflow, usize::from(number));
                let joined = kind.join(place_kind(back, usize::from(number)));
                let place = if joined == kind {
                    None
                } else {
                    Some(declared(joined))
                };
                push_place(&mut places, number, place)?;
            }
        }
        self.before = mem::replace(&mut self.places, places);
        Ok(())
    }

    /// Takes the last narrowing back.
    pub fn widen(&mut self) {
        mem::swap(&mut self.places, &mut self.before);
    }
}

/// What is declared of a place.
fn declared_at(places: &[HeadPlace], number: u8) -> Option<PlaceKind> {
    for place in places {
        if place.number == number {
            return Some(place.kind);
        }
    }
    None
}

fn push_place(
    places: &mut Vec<HeadPlace>,
    number: u8,
    kind: Option<PlaceKind>,
) -> Result<(), AllocError> {
    if let Some(kind) = kind {
        if usize::from(number) != STACK_POINTER {
            places.push(HeadPlace { number, kind })?;
        }
    }
    Ok(())
}

/// What a place that grew becomes; the widest if that is what it was.
fn unlike(was: Option<PlaceKind>, grown: PlaceKind, joined: Kind) -> PlaceKind {
    if was == Some(grown) {
        widest(joined)
    } else {
        grown
    }
}

fn or(first: Option<u8>, number: u8) -> Option<u8> {
    match first {
        None => Some(number),
        Some(first) => Some(first),
    }
}

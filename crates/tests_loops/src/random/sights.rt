//! What runs show of the places at a method's heads, and heads that are declared by that: right ones,
//! wider ones and wrong ones.

use crate::random::dice::Dice;
use crate::random::known::numbers;
use bpf_decode::{Insn, jump_target, width};
use bpf_machine::Region;
use flat_machine::{FlatState, Layout, Stepped};
use loop_frames::PLACES;
use loop_heads::{Head, HeadPlace, Loops, PlaceKind};
use std::alloc::Global;
use verifier::{Goes, goes_of};

/// The layout of these runs: what lies within a region is a pointer there, any other number is one.
pub const LAYOUT: Layout = Layout {
    input: 0x1111_0000_0000,
    output: 0x2222_0000_0000,
    stack: 0x3333_0000_0000,
};

const REGIONS: [(Region, u64, u64); 3] = [
    (Region::Input, LAYOUT.input, 64),
    (Region::Output, LAYOUT.output, 64),
    (Region::Stack, LAYOUT.stack, 512),
];

/// The steps of a run in which it may show something.
const STEPS: usize = 1_500;

/// What a place was.
#[derive(Clone, Copy)]
enum Hull {
    /// Not looked at.
    Unseen,
    /// Unset, or not always of one kind.
    Mixed,
    /// Numbers from the first to the second; as signed ones, from the third to the fourth.
    Numbers(u64, u64, i64, i64),
    /// Pointers at offsets from the first to the second.
    Pointers(Region, u64, u64),
}

fn hull_of(number: Option<u64>) -> Hull {
    let Some(n) = number else {
        return Hull::Mixed;
    };
    for (region, base, size) in REGIONS {
        let at = n.wrapping_sub(base);
        if at <= size {
            return Hull::Pointers(region, at, at);
        }
    }
    Hull::Numbers(n, n, n.cast_signed(), n.cast_signed())
}

fn joined(one: Hull, other: Hull) -> Hull {
    match (one, other) {
        (Hull::Unseen, hull) => hull,
        (Hull::Numbers(a, b, c, d), Hull::Numbers(e, f, g, h)) => {
            Hull::Numbers(a.min(e), b.max(f), c.min(g), d.max(h))
        }
        (Hull::Pointers(region, a, b), Hull::Pointers(other, c, d)) => {
            if region == other {
                Hull::Pointers(region, a.min(c), b.max(d))
            } else {
                Hull::Mixed
            }
        }
        (_, _) => Hull::Mixed,
    }
}

/// A place at a head.
#[derive(Clone, Copy)]
struct Place {
    hull: Hull,
    /// What it was when this run was last there.
    last: Option<Option<u64>>,
    /// True if it wasn't the same each time.
    changes: bool,
}

/// A head.
#[derive(Drop)]
struct Sight {
    slot: usize,
    places: Vec<Place>,
}

impl Sight {
    fn look(&mut self, numbers: &[Option<u64>]) {
        for (place, number) in self.places.iter_mut().zip(numbers.iter()) {
            place.hull = joined(place.hull, hull_of(*number));
            if let Some(last) = place.last {
                place.changes |= last != *number;
            }
            place.last = Some(*number);
        }
    }

    fn begin(&mut self) {
        for place in &mut self.places {
            place.last = None;
        }
    }
}

/// How heads are declared.
#[derive(Clone, Copy, PartialEq, Eq)]
pub enum Manner {
    /// Counters and pointers as they were seen, other numbers as any.
    Likely,
    /// Each place as it was seen.
    Seen,
    /// Each place in one of these ways, or wider.
    Mixed,
    /// As the first, with a wrong place here and there.
    Wrong,
}

/// The targets of a method's backward jumps.
#[derive(Drop)]
pub struct Sights {
    heads: Vec<Sight>,
}

/// How far a jump goes; 0 of any other instruction.
fn distance(insn: &Insn) -> i64 {
    match goes_of(insn) {
        Goes::To(distance) => i64::from(distance),
        Goes::Either(distance) => i64::from(distance),
        Goes::On | Goes::Out => 0,
    }
}

/// The target of a jump that goes back.
fn back_target(slot: usize, insn: &Insn) -> Option<usize> {
    let distance = distance(insn);
    if distance < 0 && slot < 65_536 {
        Some(jump_target(slot, distance))
    } else {
        None
    }
}

/// The same of all of a method's jumps, by rising slots.
fn targets(alloc: Global, code: &[Insn]) -> Option<Vec<usize>> {
    let mut targets: Vec<usize> = Vec::new(alloc);
    let mut slot = 0usize;
    for insn in code {
        if let Some(target) = back_target(slot, insn) {
            if !targets.contains(&target) {
                targets.push(target).ok()?;
            }
        }
        slot = slot.saturating_add(width(insn));
    }
    targets.sort().ok()?;
    Some(targets)
}

impl Sights {
    /// Of a method, before anything was seen.
    pub fn of(alloc: Global, code: &[Insn]) -> Option<Sights> {
        let mut heads = Vec::new(alloc);
        for slot in targets(alloc, code)?.iter() {
            let unseen = Place {
                hull: Hull::Unseen,
                last: None,
                changes: false,
            };
            let places = Vec::from_elem(alloc, unseen, PLACES).ok()?;
            heads
                .push(Sight {
                    slot: *slot,
                    places,
                })
                .ok()?;
        }
        Some(Sights { heads })
    }

    /// Looks at the places each time a run from a state comes to a head; none if memory is refused.
    pub fn watch(&mut self, alloc: Global, code: &[u8], state: &mut FlatState<'_>) -> Option<()> {
        for head in &mut self.heads {
            head.begin();
        }
        for _ in 0..STEPS {
            for head in &mut self.heads {
                if head.slot as u64 == state.slot {
                    head.look(&numbers(alloc, state).ok()?);
                }
            }
            if !matches!(state.step(alloc, code).ok()?, Stepped::Next) {
                break;
            }
        }
        Some(())
    }

    /// Heads by what was seen; none if memory is refused, or there are no such loops.
    pub fn declared(
        &self,
        alloc: Global,
        budget: u32,
        manner: Manner,
        dice: &mut Dice,
    ) -> Option<Loops> {
        let mut heads = Vec::new(alloc);
        for sight in &self.heads {
            let places = places(alloc, sight, manner, dice)?;
            heads
                .push(Head::new((sight.slot % 65_536) as u16, places))
                .ok()?;
        }
        Loops::new(budget, heads).ok()
    }
}

/// What is declared at a head.
fn places(alloc: Global, sight: &Sight, manner: Manner, dice: &mut Dice) -> Option<Vec<HeadPlace>> {
    let mut places = Vec::new(alloc);
    for (number, place) in sight.places.iter().enumerate() {
        if number != 10 && (place.changes || dice.is_one_in(200)) {
            let kind = declared(place.hull, (number % 256) as u8, manner, dice);
            // At a wrong head a place may be left out.
            if manner != Manner::Wrong || !dice.is_one_in(9) {
                let number = (number % 256) as u8;
                places.push(HeadPlace { number, kind }).ok()?;
            }
        }
    }
    Some(places)
}

/// What is declared of a place.
fn declared(hull: Hull, number: u8, manner: Manner, dice: &mut Dice) -> PlaceKind {
    let by = match manner {
        Manner::Likely => if number == 6 || number == 7 { 0 } else { 1 },
        Manner::Seen => 0,
        Manner::Mixed => dice.below(5),
        Manner::Wrong => if dice.is_one_in(5) { 5 } else { dice.below(2) },
    };
    match hull {
        Hull::Unseen => PlaceKind::Any,
        Hull::Mixed => PlaceKind::Unset,
        Hull::Numbers(low, high, least, most) => numbers_by(by, (low, high), (least, most)),
        Hull::Pointers(region, low, high) => pointers_by(by, region, low, high),
    }
}

/// Numbers: as they were seen (0), any (1), wider (2 to 4), or fewer (5).
fn numbers_by(by: u64, unsigned: (u64, u64), signed: (i64, i64)) -> PlaceKind {
    let ((low, high), (least, most)) = (unsigned, signed);
    match by {
        0 => if low <= i64::MAX.cast_unsigned() && high > i64::MAX.cast_unsigned() {
            PlaceKind::Signed(least, most)
        } else {
            PlaceKind::Unsigned(low, high)
        },
        1 => PlaceKind::Any,
        2 => PlaceKind::Unsigned(low.saturating_sub(1), high.saturating_add(1)),
        3 => PlaceKind::Signed(least.saturating_sub(1), most.saturating_add(8)),
        4 => PlaceKind::Unsigned(0, high.max(63)),
        _ => PlaceKind::Unsigned(low, low.max(high.saturating_sub(1))),
    }
}

/// Pointers: as they were seen, at any offset of their region, one further, or fewer.
fn pointers_by(by: u64, region: Region, low: u64, high: u64) -> PlaceKind {
    let (low, high) = match by {
        0 | 1 => (low, high),
        2 => (low.saturating_sub(1), high.saturating_add(1)),
        3 => (0, high),
        4 => (low, high.saturating_add(1)),
        _ => (low, low.max(high.saturating_sub(1))),
    };
    match region {
        Region::Input => PlaceKind::Input(low, high),
        Region::Output => PlaceKind::Output(low, high),
        Region::Stack => PlaceKind::Stack(low, high),
    }
}

//! What frames say of a state, checked by what they mean.

use abstract_num::{Number, Precision, constant};
use abstract_regs::{Frame, Kind, Link, LinkForm};
use bpf_decode::Region;
use flat_machine::{FlatState, Layout};
use std::alloc::{AllocError, Global};

/// The registers, and the stack's slots of eight bytes.
const PLACES: usize = 75;

/// What is known before an instruction: the kinds of all places, and the linked places.
#[derive(Drop)]
pub struct Known {
    kinds: Vec<Kind>,
    pub links: Vec<(usize, Link)>,
}

/// The number of a form, from 1; 0 of no link.
pub fn form_number(form: LinkForm) -> usize {
    match form {
        LinkForm::Unlinked => 0,
        LinkForm::Whole => 1,
        LinkForm::Low => 2,
        LinkForm::Up => 3,
        LinkForm::Sign => 4,
    }
}

impl Known {
    /// What a frame knows.
    pub fn of(alloc: Global, frame: &Frame) -> Result<Known, AllocError> {
        let mut known = Known {
            kinds: Vec::new(alloc),
            links: Vec::new(alloc),
        };
        let stack = Kind::Ptr(Region::Stack, constant(0));
        for place in 0..PLACES {
            let kind = if place < 11 {
                Some(frame.kind(place))
            } else {
                frame.slot(Precision::Halves, &stack, (place as u64 - 11) * 8, 8)
            };
            // A frame without a slot is true of nothing: `is_of` finds no kind of the last places.
            if let Some(kind) = kind {
                known.kinds.push(kind)?;
            }
            let link = frame.link(place);
            if form_number(link.form) != 0 {
                known.links.push((place, link))?;
            }
        }
        Ok(known)
    }

    /// The places of which something is known.
    pub fn told(&self) -> usize {
        self.kinds.iter().filter(|kind| !kind.is_unset()).count()
    }

    /// True if it is true of a state.
    pub fn holds(&self, alloc: Global, state: &FlatState<'_>) -> Result<bool, AllocError> {
        let layout = &state.memory.machine.layout;
        let numbers = numbers(alloc, state)?;
        for place in 0..PLACES {
            if !self.is_of(place, layout, number_at(&numbers, place)) {
                return Ok(false);
            }
        }
        Ok(self.are_links_true(&numbers))
    }

    /// True if a place may have that number, if regions lie so.
    fn is_of(&self, place: usize, layout: &Layout, number: Option<u64>) -> bool {
        match (self.kinds.get(place), number) {
            (Some(Kind::Unset), _) => true,
            (Some(Kind::Num(known)), Some(n)) => is_in(known, n),
            (Some(Kind::Ptr(region, at)), Some(n)) => is_in(
                at,
                n.wrapping_sub(layout.base(*region)),
            ),
            (None, _) | (Some(Kind::Num(_) | Kind::Ptr(_, _)), None) => false,
        }
    }

    /// True if each name can have a number so that all links are true, none of which is a pointer's.
    fn are_links_true(&self, numbers: &[Option<u64>]) -> bool {
        for (place, link) in self.links.iter() {
            if !self.is_name_true(link.name, numbers) || self.is_pointer(*place) {
                return false;
            }
        }
        true
    }

    fn is_pointer(&self, place: usize) -> bool {
        match self.kinds.get(place) {
            Some(kind) => kind.is_ptr(),
            None => true,
        }
    }

    /// True if a name can have a number so that its links are true. One that some place leaves it
    /// will do: a whole number leaves one alone, other places one low half, and if there are signs
    /// alone, the first number with the sign of one of them.
    fn is_name_true(&self, name: u32, numbers: &[Option<u64>]) -> bool {
        for (place, link) in self.links.iter() {
            if link.name == name {
                let named = named_by(link, number_at(numbers, *place).unwrap_or(0));
                if self.is_named(name, named, numbers) {
                    return true;
                }
            }
        }
        false
    }

    /// True if the links of a name are true where it is that number.
    fn is_named(&self, name: u32, named: u64, numbers: &[Option<u64>]) -> bool {
        for (place, link) in self.links.iter() {
            if link.name == name && !is_linked(link, named, number_at(numbers, *place)) {
                return false;
            }
        }
        true
    }
}

fn number_at(numbers: &[Option<u64>], place: usize) -> Option<u64> {
    *numbers.get(place)?
}

/// A number that a name may have where the place with that link has that number.
fn named_by(link: &Link, number: u64) -> u64 {
    let moved = match link.form {
        LinkForm::Unlinked | LinkForm::Whole | LinkForm::Low | LinkForm::Sign => number,
        LinkForm::Up => number >> 32,
    };
    moved.wrapping_sub(link.distance)
}

/// True if a place with that link has that number, where its name has the number `named`.
fn is_linked(link: &Link, named: u64, number: Option<u64>) -> bool {
    let Some(n) = number else {
        return false;
    };
    let moved = named.wrapping_add(link.distance);
    match link.form {
        LinkForm::Unlinked => true,
        LinkForm::Whole => n == moved,
        LinkForm::Low => n & 0xffff_ffff == moved & 0xffff_ffff,
        LinkForm::Up => n == moved << 32,
        LinkForm::Sign => n == moved & 0x8000_0000,
    }
}

/// True if an abstract number says that it may be `n`: `n` lies in the unsigned range, and in the
/// signed one as a signed number; its known bits are the value's; and its low 32 bits, read as a
/// signed number, lie in the half.
fn is_in(known: &Number, n: u64) -> bool {
    let (unsigned, signed) = (&known.first, &known.second.first);
    let (bits, half) = (&known.second.second.first, &known.second.second.second);
    let (number, low) = (n.cast_signed(), ((n & 0xffff_ffff) as u32).cast_signed());
    unsigned.low <= n
        && n <= unsigned.high
        && signed.low <= number
        && number <= signed.high
        && n & (u64::MAX ^ bits.unknown) == bits.value
        && half.low <= low
        && low <= half.high
}

/// The numbers of all places: of the registers, none of one that is unset, and of the stack's slots,
/// the lowest byte first.
fn numbers(alloc: Global, state: &FlatState<'_>) -> Result<Vec<Option<u64>>, AllocError> {
    let mut numbers = Vec::with_capacity(alloc, PLACES)?;
    for register in 0..11u8 {
        numbers.push(state.register(register))?;
    }
    for slot in state.region(Region::Stack).chunks_exact(8) {
        if let [a, b, c, d, e, f, g, h] = slot {
            numbers.push(Some(u64::from_le_bytes([*a, *b, *c, *d, *e, *f, *g, *h])))?;
        }
    }
    Ok(numbers)
}

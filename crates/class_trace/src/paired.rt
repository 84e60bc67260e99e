//! One run in two layouts, which tell addresses from numbers.

use bpf_decode::Region;
use flat_machine::FlatState;

/// A state in the first layout, and the same one in the other layout.
#[derive(Clone, Copy)]
pub(crate) struct Paired<'a, 'b> {
    pub(crate) first: &'b FlatState<'a>,
    pub(crate) other: &'b FlatState<'a>,
}

/// A value in each of the two layouts. They are one number, or the addresses of one byte.
#[derive(Clone, Copy)]
pub(crate) struct Both {
    pub(crate) first: u64,
    pub(crate) other: u64,
}

impl Both {
    /// The value at an offset.
    pub(crate) fn offset(self, offset: i16) -> Both {
        let distance = i64::from(offset).cast_unsigned();
        Both {
            first: self.first.wrapping_add(distance),
            other: self.other.wrapping_add(distance),
        }
    }
}

impl<'a, 'b> Paired<'a, 'b> {
    /// The two states.
    pub(crate) fn of(first: &'b FlatState<'a>, other: &'b FlatState<'a>) -> Paired<'a, 'b> {
        Paired { first, other }
    }

    /// The value of a register, if it is set.
    pub(crate) fn register(self, register: u8) -> Option<Both> {
        Some(Both {
            first: self.first.register(register)?,
            other: self.other.register(register)?,
        })
    }

    /// The region of an address and the place in it, which may be below the region; none of a
    /// number.
    pub(crate) fn place(self, value: Both) -> Option<(Region, u64)> {
        if value.first == value.other {
            return None;
        }
        let (first, other) = (
            self.first.memory.machine.layout,
            self.other.memory.machine.layout,
        );
        for region in [Region::Input, Region::Output, Region::Stack] {
            let at = value.first.wrapping_sub(first.base(region));
            if at == value.other.wrapping_sub(other.base(region)) {
                return Some((region, at));
            }
        }
        None
    }
}

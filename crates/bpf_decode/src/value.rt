use crate::region::Region;

/// The content of a register of the typed machine: a number, or a pointer to an offset in a region.
#[derive(Clone, Copy, PartialEq, Eq)]
pub enum Value {
    Num(u64),
    Ptr(Region, u64),
}

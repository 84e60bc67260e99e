use crate::place::Place;

/// The least name above some bytes.
#[derive(Drop)]
pub enum Above<'a> {
    /// This one.
    Name(&'a [u8]),
    /// There is none.
    Absent,
    /// It isn't known, since a name may be here: the first such place.
    Unknown(Place),
}

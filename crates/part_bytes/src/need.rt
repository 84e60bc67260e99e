//! What a call needs of an object next.

ghost use Rattle.std.specs.Prelude.{◌≡◌, ◌++◌, ◌∷◌, [], ◌<◌, ◌≤◌, IfOk, OnOk, length};
ghost use Rattle.byteorder.specs.Endian.{little_bytes};
ghost use Rattle.part_bytes.specs.Part.{text_bytes};
ghost use Rattle.part_bytes.specs.Need.{need_bytes};

use crate::limits::PLACE_LIMIT;
use arrayvec::ArrayVec;
use byteorder::{ByteOrder, LittleEndian};
use std::alloc::{AllocError, Global};

/// A name, or a place among the names: at most `PLACE_LIMIT` bytes.
pub type NeededName = ArrayVec<u8, PLACE_LIMIT>;

/// What a call needs of an object next.
#[derive(Drop)]
pub enum Need {
    /// `count` blocks, from the number `first` on.
    Blocks { first: u64, count: u8 },
    /// The xattr of that name, or that there is none.
    Xattr(NeededName),
    /// The key of that name, or that there is none.
    Key(NeededName),
    /// The least key at that place or above it, or that there is none.
    KeyFrom(NeededName),
    /// The least xattr at that place or above it, or that there is none.
    XattrFrom(NeededName),
}

/// The place that has these bytes.
pub fn needed_name(bytes: &[u8]) -> NeededName
    requires { length bytes.now ≤ PLACE_LIMIT }
    ensures { result.items ≡ bytes.now }
{
    let mut place = ArrayVec::new();
    // It fits: the place has room for that many bytes.
    let _ = place.try_extend_from_slice(bytes);
    place
}

fn put_blocks(out: &mut Vec<u8>, first: u64, count: u8) -> Result<(), AllocError>
    ensures { OnOk result (out.new.items ≡ out.old.items ++ 1 ∷ (little_bytes 8 first ++ count ∷ [])) }
{
    let mut bytes = [0; 8];
    LittleEndian::write_u64(&mut bytes, first);
    out.push(1)?;
    out.extend_from_slice(&bytes)?;
    Ok(out.push(count)?)
}

fn put_place(out: &mut Vec<u8>, kind: u8, place: &NeededName) -> Result<(), AllocError>
    ensures { OnOk result (out.new.items ≡ out.old.items ++ kind ∷ text_bytes place.now.items) }
{
    let bytes = place.as_slice();
    let mut count = [0; 2];
    LittleEndian::write_u16(&mut count, bytes.len() as u16);
    out.push(kind)?;
    out.extend_from_slice(&count)?;
    out.extend_from_slice(bytes)
}

/// The spelling of a need: at most `NEED_LIMIT` bytes.
pub fn need_form(alloc: Global, need: &Need) -> Result<Vec<u8>, AllocError>
    ensures { IfOk result (λ bytes. bytes.items ≡ need_bytes need.now) }
{
    let mut out = Vec::new(alloc);
    match need {
        Need::Blocks { first, count } => put_blocks(&mut out, *first, *count)?,
        Need::Xattr(name) => put_place(&mut out, 2, name)?,
        Need::Key(name) => put_place(&mut out, 3, name)?,
        Need::KeyFrom(place) => put_place(&mut out, 4, place)?,
        Need::XattrFrom(place) => put_place(&mut out, 5, place)?,
    }
    Ok(out)
}

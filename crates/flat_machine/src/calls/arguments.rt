//! The arguments of helpers, as the registers have them; none if one isn't right.

ghost use Rattle.std.specs.Prelude.{◌≡◌, ◌+◌, ◌<◌, ◌≤◌, [], ◌∷◌, IfSome};
ghost use Rattle.std.specs.Option.{option_map};
ghost use Rattle.bpf_machine.specs.State.{size};
ghost use Rattle.object_store.specs.Limits.{profile};
ghost use Rattle.bpf_machine.specs.Helper.{nothing_given, with_number, with_text, with_room, bytes_in};
ghost use Rattle.bpf_machine.specs.Flat.{arguments};
ghost use Rattle.flat_machine.specs.StateView.{memory_of, caps_in, layout_in, flat_state};
ghost use Rattle.flat_machine.specs.inner.FlatState.{range_at};

use crate::memory::{range, region_bytes};
use crate::regions::Regions;
use crate::state::{FlatState, get};
use bpf_decode::Region;
use helpers::Argument;
use object_store::part;

/// A range that a helper takes: its place, none if its length is 0, and its length.
// The length is a number of 64 bits, as registers are: none is cut before it is refused.
#[derive(Clone, Copy)]
pub struct Range {
    pub place: Option<(Region, usize)>,
    pub len: u64,
}

/// The bytes of a range.
pub fn text_in(memory: &Regions, text: Range) -> &[u8]
    ensures { result.now ≡ bytes_in (memory_of memory.now) text.place text.len }
{
    match text.place {
        None => &[],
        Some((region, at)) => part(region_bytes(memory, region), at as u64, text.len),
    }
}

/// The range whose address and length are in two registers, from this one on; `writes` if it is to
/// be written.
fn range_at(s: &FlatState, writes: bool, register: u8) -> Option<Range>
    requires { register < 255 }
    ensures taken { option_map (λ r. (r.place, r.len)) result ≡
        range_at (caps_in s.now) (layout_in s.now) (flat_state s.now) writes register }
    ensures inside { IfSome result (λ r. IfSome r.place (λ p. p.1 + r.len ≤ size (caps_in s.now) p.0)) }
{
    let address = get(s, register)?;
    let len = get(s, register + 1)?;
    let place = range(&s.memory.machine, writes, address, len)?;
    Some(Range { place, len })
}

/// The arguments of `read`: a place in the object, and a range for its bytes.
pub fn number_and_room(s: &FlatState) -> Option<(u64, Range)>
    ensures given { option_map (λ r. with_number r.0 (with_room r.1.len r.1.place (nothing_given profile s.now.caller)))
        result ≡ arguments (caps_in s.now) (layout_in s.now) (flat_state s.now)
        (Argument.Number ∷ Argument.Writable ∷ []) 1 }
    ensures inside { IfSome result (λ r. IfSome r.1.place (λ p. p.1 + r.1.len ≤ size (caps_in s.now) p.0)) }
{
    let n = get(s, 1)?;
    let room = range_at(s, true, 2)?;
    Some((n, room))
}

/// The arguments of `write`: a place in the object, and the range of the bytes.
pub fn number_and_text(s: &FlatState) -> Option<(u64, Range)>
    ensures { option_map
        (λ r. with_number r.0 (with_text (bytes_in (flat_state s.now).memory r.1.place r.1.len)
        (nothing_given profile s.now.caller))) result ≡
        arguments (caps_in s.now) (layout_in s.now) (flat_state s.now) (Argument.Number ∷ Argument.Readable ∷ []) 1 }
{
    let n = get(s, 1)?;
    let text = range_at(s, false, 2)?;
    Some((n, text))
}

/// The argument of `rmxattr` and `map_rm`: the range of a name.
pub fn one_text(s: &FlatState) -> Option<Range>
    ensures { option_map (λ r.
        with_text (bytes_in (flat_state s.now).memory r.place r.len) (nothing_given profile s.now.caller)) result ≡
        arguments (caps_in s.now) (layout_in s.now) (flat_state s.now) (Argument.Readable ∷ []) 1 }
{
    range_at(s, false, 1)
}

/// The arguments of `getxattr`, `map_get`, `map_next` and `xattr_next`: the range of a name, and
/// one for the bytes found.
pub fn text_and_room(s: &FlatState) -> Option<(Range, Range)>
    ensures given { option_map
        (λ r. with_text (bytes_in (flat_state s.now).memory r.0.place r.0.len)
        (with_room r.1.len r.1.place (nothing_given profile s.now.caller))) result ≡
        arguments (caps_in s.now) (layout_in s.now) (flat_state s.now) (Argument.Readable ∷ Argument.Writable ∷ []) 1 }
    ensures inside { IfSome result (λ r. IfSome r.1.place (λ p. p.1 + r.1.len ≤ size (caps_in s.now) p.0)) }
{
    let text = range_at(s, false, 1)?;
    let room = range_at(s, true, 3)?;
    Some((text, room))
}

/// The arguments of `copy`: a range, and that of the bytes that are copied to it.
pub fn room_and_text(s: &FlatState) -> Option<(Range, Range)>
    ensures given { option_map
        (λ r. with_room r.0.len r.0.place (with_text (bytes_in (flat_state s.now).memory r.1.place r.1.len)
        (nothing_given profile s.now.caller))) result ≡
        arguments (caps_in s.now) (layout_in s.now) (flat_state s.now) (Argument.Writable ∷ Argument.Readable ∷ []) 1 }
    ensures inside { IfSome result (λ r. IfSome r.0.place (λ p. p.1 + r.0.len ≤ size (caps_in s.now) p.0)) }
{
    let room = range_at(s, true, 1)?;
    let text = range_at(s, false, 3)?;
    Some((room, text))
}

/// The arguments of `setxattr`, `map_set` and `compare`: two ranges.
pub fn two_texts(s: &FlatState) -> Option<(Range, Range)>
    ensures { option_map
        (λ r. with_text (bytes_in (flat_state s.now).memory r.0.place r.0.len)
        (with_text (bytes_in (flat_state s.now).memory r.1.place r.1.len) (nothing_given profile s.now.caller)))
        result ≡ arguments (caps_in s.now) (layout_in s.now) (flat_state s.now)
        (Argument.Readable ∷ Argument.Readable ∷ []) 1 }
{
    let name = range_at(s, false, 1)?;
    let value = range_at(s, false, 3)?;
    Some((name, value))
}

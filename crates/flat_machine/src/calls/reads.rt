//! The helpers that leave the object as it is, on plain addresses.

ghost use Rattle.std.specs.Prelude.{◌≡◌, ◌+◌, ◌≤◌, ◌<◌, length, IfOk};
ghost use Rattle.helpers.specs.Table.{read_answer};
ghost use Rattle.bpf_machine.specs.State.{written, put, size};
ghost use Rattle.flat_machine.specs.StateView.{memory_of, caps_in, layout_in, flat_state};
ghost use Rattle.flat_machine.specs.inner.FlatState.{Answers, helped};

use crate::calls::arguments::{
    Range, number_and_room, room_and_text, text_and_room, text_in, two_texts,
};
use crate::memory::put_room;
use crate::regions::Regions;
use crate::state::{FlatState, get};
use bpf_decode::Region;
use helpers::{Helper, Span};
use std::alloc::Global;
use txn::{NoMemory, Staged};

/// The object's bytes from a place on, read over those at a place; and the answer of `read`.
fn read_over(staged: &Staged, at: u64, bytes: &mut Vec<u8>, room: Span) -> u64
    requires inside { room.at + room.len ≤ length bytes.old.items }
    requires some { 0 < room.len }
    ensures answer { result ≡ (read_answer staged.entry.now.after at room.len).number }
    ensures bytes { bytes.new.items ≡ written bytes.old.items room.at
        (read_answer staged.entry.now.after at room.len).bytes }
    ensures long { length bytes.new.items ≡ length bytes.old.items }
{
    helpers::read(staged, at, bytes, room)
}

/// The object's bytes from a place on, read into a region at a place; and the answer of `read`.
fn read_into(memory: &mut Regions, region: Region, room: Span, staged: &Staged, at: u64) -> u64
    requires inside { room.at + room.len ≤ size memory.old.machine.caps region }
    requires some { 0 < room.len }
    ensures answer { result ≡ (read_answer staged.entry.now.after at room.len).number }
    ensures bytes { memory_of memory.new ≡ put (memory_of memory.old) region room.at
        (read_answer staged.entry.now.after at room.len).bytes }
    ensures machine { memory.new.machine ≡ memory.old.machine }
{
    match region {
        Region::Input => read_over(staged, at, &mut memory.input, room),
        Region::Output => read_over(staged, at, &mut memory.output, room),
        Region::Stack => read_over(staged, at, &mut memory.stack, room),
    }
}

/// Helper 2, `read`: copies the object's bytes from a place on into a range.
pub fn read(s: &mut FlatState) -> Option<u64>
    ensures helped { Answers result (flat_state s.new)
        (helped (caps_in s.old) (layout_in s.old) Helper.Read (flat_state s.old)) }
    ensures slot { s.new.slot ≡ s.old.slot }
    ensures machine { s.new.memory.machine ≡ s.old.memory.machine }
{
    let (at, room) = number_and_room(s)?;
    match room.place {
        None => Some(helpers::read(&s.object, at, &mut [], Span { at: 0, len: 0 })),
        Some((region, place)) => {
            let span = Span {
                at: place as u64,
                len: room.len,
            };
            Some(read_into(&mut s.memory, region, span, &s.object, at))
        }
    }
}

/// Helper 6, `getxattr`: copies an xattr's value into a range.
pub fn getxattr(s: &mut FlatState) -> Option<u64>
    ensures helped { Answers result (flat_state s.new)
        (helped (caps_in s.old) (layout_in s.old) Helper.GetXattr (flat_state s.old)) }
    ensures slot { s.new.slot ≡ s.old.slot }
    ensures machine { s.new.memory.machine ≡ s.old.memory.machine }
{
    let (name, room) = text_and_room(s)?;
    let found = helpers::xattr_value(&s.object, text_in(&s.memory, name), room.len);
    put_room(&mut s.memory, room.place, found.bytes);
    Some(found.number)
}

/// Helper 9, `map_get`: copies a key's value into a range.
pub fn map_get(s: &mut FlatState) -> Option<u64>
    ensures helped { Answers result (flat_state s.new)
        (helped (caps_in s.old) (layout_in s.old) Helper.MapGet (flat_state s.old)) }
    ensures slot { s.new.slot ≡ s.old.slot }
    ensures machine { s.new.memory.machine ≡ s.old.memory.machine }
{
    let (name, room) = text_and_room(s)?;
    let found = helpers::map_value(&s.object, text_in(&s.memory, name), room.len);
    put_room(&mut s.memory, room.place, found.bytes);
    Some(found.number)
}

/// Helper 12, `map_next`: copies the least key above a range's bytes into a range.
pub fn map_next(s: &mut FlatState) -> Option<u64>
    ensures helped { Answers result (flat_state s.new)
        (helped (caps_in s.old) (layout_in s.old) Helper.MapNext (flat_state s.old)) }
    ensures slot { s.new.slot ≡ s.old.slot }
    ensures machine { s.new.memory.machine ≡ s.old.memory.machine }
{
    let (name, room) = text_and_room(s)?;
    let found = helpers::key_above(&s.object, text_in(&s.memory, name), room.len);
    put_room(&mut s.memory, room.place, found.bytes);
    Some(found.number)
}

/// Helper 13, `out_len`: sets the number of bytes of the output region that are output.
pub fn out_len(s: &mut FlatState) -> Option<u64>
    ensures helped { Answers result (flat_state s.new)
        (helped (caps_in s.old) (layout_in s.old) Helper.OutLen (flat_state s.old)) }
    ensures slot { s.new.slot ≡ s.old.slot }
    ensures machine { s.new.memory.machine ≡ s.old.memory.machine }
{
    let n = get(s, 1)?;
    if n > u64::from(s.memory.machine.caps.out_cap) {
        return None;
    }
    Some(helpers::out_len(&mut s.out_len, n))
}

/// Helper 16, `compare`: compares the bytes of two ranges.
pub fn compare(s: &FlatState) -> Option<u64>
    ensures { Answers result (flat_state s.now)
        (helped (caps_in s.now) (layout_in s.now) Helper.Compare (flat_state s.now)) }
{
    let (left, right) = two_texts(s)?;
    Some(helpers::compared(text_in(&s.memory, left), text_in(&s.memory, right)))
}

/// Helper 17, `copy`: copies a range's bytes into a range.
pub fn copy(alloc: Global, s: &mut FlatState) -> Result<Option<u64>, NoMemory>
    ensures helped { IfOk result
        (λ o. Answers o (flat_state s.new) (helped (caps_in s.old) (layout_in s.old) Helper.Copy (flat_state s.old))) }
    ensures slot { s.new.slot ≡ s.old.slot }
    ensures machine { s.new.memory.machine ≡ s.old.memory.machine }
{
    match room_and_text(s) {
        None => Ok(None),
        Some((room, text)) => {
            // A copy of the bytes, since both ranges may lie in one region.
            let bytes = Vec::from_slice(alloc, text_in(&s.memory, text))?;
            let found = helpers::copied(&bytes, room.len);
            put_room(&mut s.memory, room.place, found.bytes);
            Ok(Some(found.number))
        }
    }
}

/// Helper 18, `xattr_next`: copies the least name of an xattr above a range's bytes into a range.
pub fn xattr_next(s: &mut FlatState) -> Option<u64>
    ensures helped { Answers result (flat_state s.new)
        (helped (caps_in s.old) (layout_in s.old) Helper.XattrNext (flat_state s.old)) }
    ensures slot { s.new.slot ≡ s.old.slot }
    ensures machine { s.new.memory.machine ≡ s.old.memory.machine }
{
    let (name, room) = text_and_room(s)?;
    let found = helpers::xattr_above(&s.object, text_in(&s.memory, name), room.len);
    put_room(&mut s.memory, room.place, found.bytes);
    Some(found.number)
}

//! A class that is verified once and called many times.

ghost use Rattle.std.specs.Prelude.{◌≡◌, IfOk, IfErr, IfSome, None, map, length, slice_get};
ghost use Rattle.std.specs.Option.{option_map};
ghost use Rattle.verifier.specs.Verified.{method_named};
ghost use Rattle.class_calls.specs.Answers.{IsAnsweredBy, IsLoaded, RefusesImage, RefusesMethod};
ghost use Rattle.class_calls.specs.Handle.{IsPlace, declared_of, told, told_of};
ghost use Rattle.class_calls.specs.Parts.{IsAnsweredByPart, RefusesPart};

use crate::answer::{Answer, ClassCall, MethodError, call_on};
use crate::class::{ClassError, judged, place_of, read_class};
use crate::part_call::{PartCall, PartCallError, call_part};
use bpf_decode::ClassImage;
use footprint::{Parts, needed};
use interp::Room;
use part_calls::{PartAnswer, PartRoom};
use std::alloc::{AllocError, Global};
use std::marker::Model;
use std::sync::Arc;
use verifier::VerifiedClass;

/// What a method declares, and what it needs.
#[derive(Clone, Copy)]
pub struct Declared {
    /// 1 reads, 2 writes, 3 both.
    pub flags: u8,
    /// The most bytes of its input.
    pub in_cap: u16,
    /// The most bytes of its output.
    pub out_cap: u16,
    /// The parts of an object that it can see or change.
    pub parts: Parts,
}

/// A verified class and what its methods declare, by number. Contracts see the list of its methods.
struct Held {
    class: VerifiedClass,
    declared: Vec<Declared>,
}

// Written out, here and at `ClassHandle`, so that a crate that drops one calls this and needn't
// prove again how a class is dropped.
impl Drop for Held {
    fn drop(self) {
        let Held { class, declared } = self;
        drop(class);
        drop(declared);
    }
}

impl Model for Held {
    ghost use Rattle.std.specs.Prelude.{◌≡◌, List, map};
    ghost use Rattle.bpf_decode.specs.Class.{ClassMethod};
    ghost use Rattle.class_calls.specs.Handle.{declared_of};

    ghost Value = { List ClassMethod };

    ghost view = { λ h. h.class };

    ghost invariant = { λ h. h.declared.items ≡ map declared_of h.class };
}

/// What the methods of a class declare, by number.
pub fn declared_by(alloc: Global, class: &ClassImage) -> Result<Vec<Declared>, AllocError>
    ensures { IfOk result (λ found. found.items ≡ map declared_of class.now.methods) }
{
    let mut found = Vec::new(alloc);
    for method in class.methods() {
        found.push(Declared {
            flags: method.flags(),
            in_cap: method.in_cap(),
            out_cap: method.out_cap(),
            parts: needed(method.instructions()),
        })?;
    }
    Ok(found)
}

/// A handle of a verified class: it holds the class, which copies of it share, and the memory of
/// its calls, which they don't. It is for one call at a time. Contracts see the list of methods.
pub struct ClassHandle {
    held: Arc<Held>,
    room: Room,
    part_room: PartRoom,
}

impl Drop for ClassHandle {
    fn drop(self) {
        let ClassHandle {
            held,
            room,
            part_room,
        } = self;
        drop(held);
        drop(room);
        drop(part_room);
    }
}

impl Model for ClassHandle {
    ghost use Rattle.std.specs.Prelude.{List};
    ghost use Rattle.std.specs.Arc.{arc_value};
    ghost use Rattle.bpf_decode.specs.Class.{ClassMethod};

    ghost Value = { List ClassMethod };

    ghost view = { λ h. arc_value h.held };
}

impl ClassHandle {
    /// Verifies an image's class and holds it.
    pub fn open(alloc: Global, image: &[u8]) -> Result<ClassHandle, ClassError>
        ensures found { IfOk result (IsLoaded image.now) }
        ensures refused { IfErr result (RefusesImage image.now) }
    {
        let class = read_class(alloc, image)?;
        let verified = judged(alloc, image, &class)?;
        let Ok(declared) = declared_by(alloc, &class) else {
            return Err(ClassError::NoMemory);
        };
        let held = Held {
            class: verified,
            declared,
        };
        let Ok(held) = Arc::new(alloc, held) else {
            return Err(ClassError::NoMemory);
        };
        Ok(ClassHandle {
            held,
            room: Room::new(alloc),
            part_room: PartRoom::new(alloc),
        })
    }

    /// Another handle of the same class, which both share.
    pub fn share(&self, alloc: Global) -> Result<ClassHandle, AllocError>
        ensures { IfOk result (λ h. h ≡ self.now) }
    {
        Ok(ClassHandle {
            held: Arc::try_clone(&self.held)?,
            room: Room::new(alloc),
            part_room: PartRoom::new(alloc),
        })
    }

    /// Calls a method of the class on an object in its flat form.
    pub fn call(&mut self, alloc: Global, request: ClassCall) -> Result<Answer, MethodError>
        ensures ok { IfOk result
            (IsAnsweredBy self.old request.entry.method.now request.entry.object.now request.entry.caller
            request.entry.input.now) }
        ensures refused { IfErr result
            (RefusesMethod self.old request.entry.method.now request.entry.object.now request.entry.caller
            request.entry.input.now) }
        ensures held { self.new ≡ self.old }
    {
        call_on(alloc, &mut self.room, &self.held.class, request)
    }

    /// Calls a method of the class on a part of an object, by a host's limits.
    pub fn call_part(
        &mut self,
        alloc: Global,
        request: PartCall,
    ) -> Result<PartAnswer, PartCallError>
        ensures ok { IfOk result
            (IsAnsweredByPart self.old request.entry.method.now request.entry.part.now request.entry.caller
            request.entry.limits request.entry.input.now) }
        ensures refused { IfErr result
            (RefusesPart self.old request.entry.method.now request.entry.part.now request.entry.caller
            request.entry.limits request.entry.input.now) }
        ensures held { self.new ≡ self.old }
    {
        call_part(alloc, &mut self.part_room, &self.held.class, request)
    }

    /// The name of the method of a number, from 0 on, and what it declares; none past the last.
    pub fn method_at(&self, n: usize) -> Option<(&[u8], Declared)>
        ensures { told result ≡ option_map told_of (slice_get self.now n) }
    {
        match (self.held.class.methods().get(n), self.held.declared.get(n)) {
            (Some(method), Some(declared)) => Some((method.name().as_bytes(), *declared)),
            _ => None,
        }
    }

    /// The number of the method of a name, if the class has one.
    pub fn place_of(&self, name: &[u8]) -> Option<usize>
        ensures found { IfSome result (IsPlace self.now name.now) }
        ensures none { result ≡ None → method_named self.now name.now ≡ None }
    {
        place_of(&self.held.class, name)
    }
}

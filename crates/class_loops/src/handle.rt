//! A class whose methods may loop that is verified once and called many times.

ghost use Rattle.std.specs.Prelude.{◌≡◌, IfOk, IfErr, IfSome, None, slice_get};
ghost use Rattle.std.specs.Option.{option_map};
ghost use Rattle.verifier.specs.Verified.{method_named};
ghost use Rattle.class_calls.specs.Answers.{RefusesMethod};
ghost use Rattle.class_calls.specs.Handle.{IsPlace, told, told_of};
ghost use Rattle.class_loops.specs.Answers.{IsAnsweredByLoops};
ghost use Rattle.class_loops.specs.Opened.{IsLoadedByLoops, RefusesImageByLoops};
ghost use Rattle.class_loops.specs.Parts.{IsAnsweredByPartAndLoops, RefusesPartByLoops};

use crate::call::call_on;
use crate::class::{LoopClassError, judged, place_of};
use crate::part_call::call_part;
use class_calls::{
    Answer, ClassCall, ClassError, Declared, MethodError, PartCall, PartCallError, declared_by,
    read_class,
};
use interp::Room;
use loop_calls::LoopRoom;
use loop_classes::LoopClass;
use part_calls::{PartAnswer, PartRoom};
use std::alloc::{AllocError, Global};
use std::marker::Model;
use std::sync::Arc;

/// An accepted class and what its methods declare, by number. Contracts see the list of its methods.
struct HeldLoops {
    class: LoopClass,
    declared: Vec<Declared>,
}

impl Drop for HeldLoops {
    fn drop(self) {
        let HeldLoops { class, declared } = self;
        drop(class);
        drop(declared);
    }
}

impl Model for HeldLoops {
    ghost use Rattle.std.specs.Prelude.{◌≡◌, List, map};
    ghost use Rattle.bpf_decode.specs.Class.{ClassMethod};
    ghost use Rattle.class_calls.specs.Handle.{declared_of};

    ghost Value = { List ClassMethod };

    ghost view = { λ h. h.class };

    ghost invariant = { λ h. h.declared.items ≡ map declared_of h.class };
}

/// A handle of a class that the verdict on loops accepts: it holds the class, which copies of it
/// share, and the memory of its calls, which they don't. It is for one call at a time. Contracts see
/// the list of methods.
pub struct LoopHandle {
    held: Arc<HeldLoops>,
    room: Room,
    part_room: PartRoom,
    loop_room: LoopRoom,
}

impl Drop for LoopHandle {
    fn drop(self) {
        let LoopHandle {
            held,
            room,
            part_room,
            loop_room,
        } = self;
        drop(held);
        drop(room);
        drop(part_room);
        drop(loop_room);
    }
}

impl Model for LoopHandle {
    ghost use Rattle.std.specs.Prelude.{List};
    ghost use Rattle.std.specs.Arc.{arc_value};
    ghost use Rattle.bpf_decode.specs.Class.{ClassMethod};

    ghost Value = { List ClassMethod };

    ghost view = { λ h. arc_value h.held };
}

impl LoopHandle {
    /// Judges an image's class by the verdict on loops, and holds it if no method declares a greater
    /// budget than the host's greatest.
    pub fn open(alloc: Global, image: &[u8], most: u32) -> Result<LoopHandle, LoopClassError>
        ensures found { IfOk result (IsLoadedByLoops image.now most) }
        ensures refused { IfErr result (RefusesImageByLoops image.now most) }
    {
        let class = match read_class(alloc, image) {
            Ok(class) => class,
            Err(error) => return Err(LoopClassError::Class(error)),
        };
        let accepted = judged(alloc, image, &class, most)?;
        let Ok(declared) = declared_by(alloc, &class) else {
            return Err(LoopClassError::Class(ClassError::NoMemory));
        };
        let held = HeldLoops {
            class: accepted,
            declared,
        };
        let Ok(held) = Arc::new(alloc, held) else {
            return Err(LoopClassError::Class(ClassError::NoMemory));
        };
        Ok(LoopHandle {
            held,
            room: Room::new(alloc),
            part_room: PartRoom::new(alloc),
            loop_room: LoopRoom::new(alloc),
        })
    }

    /// Another handle of the same class, which both share.
    pub fn share(&self, alloc: Global) -> Result<LoopHandle, AllocError>
        ensures { IfOk result (λ h. h ≡ self.now) }
    {
        Ok(LoopHandle {
            held: Arc::try_clone(&self.held)?,
            room: Room::new(alloc),
            part_room: PartRoom::new(alloc),
            loop_room: LoopRoom::new(alloc),
        })
    }

    /// Calls a method of the class on an object in its flat form.
    pub fn call(&mut self, alloc: Global, request: ClassCall) -> Result<Answer, MethodError>
        ensures ok { IfOk result
            (IsAnsweredByLoops self.old request.entry.method.now request.entry.object.now request.entry.caller
            request.entry.input.now) }
        ensures refused { IfErr result
            (RefusesMethod self.old request.entry.method.now request.entry.object.now request.entry.caller
            request.entry.input.now) }
        ensures held { self.new ≡ self.old }
    {
        let class = &self.held.class;
        call_on(alloc, &mut self.room, &mut self.loop_room, class, request)
    }

    /// Calls a method of the class on a part of an object, by a host's limits.
    pub fn call_part(
        &mut self,
        alloc: Global,
        request: PartCall,
    ) -> Result<PartAnswer, PartCallError>
        ensures ok { IfOk result
            (IsAnsweredByPartAndLoops self.old request.entry.method.now request.entry.part.now request.entry.caller
            request.entry.limits request.entry.input.now) }
        ensures refused { IfErr result
            (RefusesPartByLoops self.old request.entry.method.now request.entry.part.now request.entry.caller
            request.entry.limits request.entry.input.now) }
        ensures held { self.new ≡ self.old }
    {
        let class = &self.held.class;
        call_part(
            alloc,
            &mut self.part_room,
            &mut self.loop_room,
            class,
            request,
        )
    }

    /// The name of the method of a number, from 0 on, and what it declares; none past the last.
    pub fn method_at(&self, n: usize) -> Option<(&[u8], Declared)>
        ensures { told result ≡ option_map told_of (slice_get self.now n) }
    {
        match (self.held.class.methods().get(n), self.held.declared.get(n)) {
            (Some(method), Some(declared)) => Some((method.name().as_bytes(), *declared)),
            _ => None,
        }
    }

    /// The number of the method of a name, if the class has one.
    pub fn place_of(&self, name: &[u8]) -> Option<usize>
        ensures found { IfSome result (IsPlace self.now name.now) }
        ensures none { result ≡ None → method_named self.now name.now ≡ None }
    {
        place_of(&self.held.class, name)
    }
}

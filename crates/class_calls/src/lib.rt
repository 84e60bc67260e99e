//! Calls of verified classes on bytes, for a host that keeps the objects itself: an object comes in
//! as its flat form, and what the method did to it goes out as the list of its edits. `load` gives
//! an image's class if no rule refuses it, and `call_on` makes a call of it; a `ClassHandle` holds
//! one for many calls. What is answered is a function of class, object, client and input alone.
#![tactic(auto)]

mod answer;
mod class;
mod handle;
mod laws;
mod part_call;

pub use answer::{Answer, ClassCall, MethodError, begin_call, call_method_on, call_on};
pub use class::{ClassError, load, place_of, read_class, verdict_refusal};
pub use handle::{ClassHandle, Declared, declared_by};
pub use laws::{
    lists_stand_over_others, more_of_a_part_is_enough, needs_are_lacking, one_answer, one_class,
    parts_have_one_answer, parts_may_be_left_out,
};
pub use part_call::{
    PartCall, PartCallError, begin_part, call_method_part, call_part, stop_refusal,
};

//! The calls of verified classes for C; `include/sillarnica.h` declares them. Each is a function of
//! its arguments: the caller owns all memory before and after, nothing is kept, and there is no
//! state, so any number of calls may run at once. But for a handle that the caller opens: it holds
//! a verified class until it is closed, and is for one call at a time.
#![tactic(auto)]

ghost use Rattle.std.specs.Prelude.{◌≡◌};

mod call;
mod method;
mod pointer;
mod told;
mod told_part;
mod verified;
mod verify;

pub use call::sillarnica_call;
pub use method::{sillarnica_method, sillarnica_method_at, sillarnica_needs};
pub use pointer::ClassPointer;
pub use told::{ToldAnswer, ToldMethod, ToldRefusal};
pub use told_part::{GivenLimits, ToldWant};
pub use verified::{
    Verified, sillarnica_loops_open, sillarnica_verified_call, sillarnica_verified_call_part,
    sillarnica_verified_close, sillarnica_verified_copy, sillarnica_verified_method_at,
    sillarnica_verified_needs, sillarnica_verified_open,
};
pub use verify::{sillarnica_explain, sillarnica_loops_explain, sillarnica_verify};

/// The version of these calls, of the flat form, of the edits and of the structs: 2.
#[unsafe(no_mangle)]
pub extern "C" fn sillarnica_version() -> u32
    ensures { result ≡ 2 }
{
    2
}

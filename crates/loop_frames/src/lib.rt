//! Frames of methods with loops: the frame at a head, the order of frames, and pairs of pointers into one
//! region.
//!
//! `declare` gives a frame the form that it has at a head, by what is declared there. `is_frame_below` is the
//! test that what goes back to a head says no less than the frame there. `pair_of`, `subtract` and
//! `refine_pair` do what an instruction does with two pointers into one region. `loop_laws` has what is
//! proved of all of these.
#![tactic(auto)]

mod below;
mod head;
mod laws;
mod pair_compared;
mod place;
mod pointer_pair;

pub use below::is_frame_below;
pub use head::declare;
pub use laws::loop_laws;
pub use pair_compared::{PairCompared, refine_pair};
pub use place::PLACES;
pub use pointer_pair::{PointerPair, pair_of, subtract};

//! Does the command `radoscls sim` once its words are read: `simulate` loads the built-in classes
//! and the tenants', reads a file of events, and plays it: it prints what each line comes to, or
//! draws the whole (`draw`). `specs/Run.antt` says what is printed of a file, by the group's worlds
//! after its lines; a drawing has the same end. Each of the worlds is an agreed one by the events
//! that happened up to it, and no line cuts a committed list (`worlds_are_known`). A failure says
//! why nothing was done, the first reason in a stated order.
#![tactic(auto)]

mod asked;
mod bad_line;
mod drawing;
mod drawn;
mod file;
mod laws;
mod objects;
mod play;
mod setup;
mod tool;
mod verified;
mod why;

pub use asked::Simulation;
pub use drawn::{Column, DrawnMessage, DrawnStep, What, draw};
pub use file::SimulationEnd;
pub use laws::worlds_are_known;
pub use tool::simulate;

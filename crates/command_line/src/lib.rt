//! The command line of `radoscls`, read by `clap`, which no crate above sees. `parse` gives the
//! subcommand that words name and the texts of its arguments, just those of the definition
//! `command_line`; else words have no parse without a fault, or memory ran out. Nothing is claimed
//! of usage and help but that they are texts.
#![tactic(auto)]

mod commands;
mod forms;
mod help;
mod parsed;
mod reading;
mod unparsed;

pub use parsed::ParsedWords;
pub use reading::{misused, parse};
pub use unparsed::Unparsed;

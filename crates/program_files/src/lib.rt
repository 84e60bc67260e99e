//! The files of the program `radoscls`, and where it prints. `Files` are read and written whole; a
//! failed write leaves a file as it was. `load` gives the safe class whose image or text a file
//! holds, `assemble` writes a text's image, `disassemble` gives a class's text: each is true of the
//! files as they were, or a `Failure` says why not, the first reason in a stated order. `Output`
//! prints whole texts; of one that fails a beginning was printed.
#![tactic(auto)]

mod assembly;
mod failed;
mod failure;
mod files;
mod image;
mod output;
mod replacing;
mod window;

pub use assembly::{assemble, disassemble, read_text};
pub use failed::{About, Failed};
pub use failure::Failure;
pub use files::{Files, ReadableFiles, SystemFiles};
pub use image::{ClassSource, TEXT_LIMIT, load, load_with_source, read_source};
pub use output::{Output, Printer};

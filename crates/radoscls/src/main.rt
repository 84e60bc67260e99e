//! `radoscls` tells whether a class is safe, runs a method of one, and turns texts of classes into
//! images and back; and it plays a group of nodes from a file of events, and a cluster in threads
//! from a file of calls. A file of a class holds its image or its text.
//!
//! - `radoscls verify IN`: whether each method of the class in the file IN is safe, or which rule
//!   it breaks.
//! - `radoscls run IN METHOD [--input HEX] [--caller N] [--object HEX] [--xattr NAME=HEX ..] [--key
//!   KEY=HEX ..] [--show]`: a call of that method on that object, or on none, by client N (1 to
//!   4294967295; else client 1): its code, its output, the object that it leaves, and its steps.
//!   HEX may be `-` for no byte, or `@FILE` for the bytes of a file.
//! - `radoscls test IN FILE`: whether the class in the file IN does what the tests in the file FILE
//!   say, or the first line there that differs.
//! - `radoscls asm IN OUT`: the image of the class text in the file IN, written to the file OUT.
//! - `radoscls pack OUT NAME:FLAGS:IN:OUT:FILE ..`: the image of a class of those methods, each
//!   with the raw code in its FILE, written to the file OUT.
//! - `radoscls dis IN [--slots]`: the text of the class in the file IN, with each instruction's
//!   slot or without.
//! - `radoscls sim FILE [--class NAME=IMAGE ..] [--trace] [--objects]`: what each event of the file
//!   FILE comes to, and what the objects of a node hold, or a drawing of the run; a request asks
//!   `lock`, `obj` or one of those classes by name.
//! - `radoscls cluster FILE [--class NAME=IMAGE ..] [--stats]`: how each call of the clients in the
//!   file FILE ends on a cluster in threads, and what that took.
//!
//! With `--explain` each says more of a failure, below its line. `-` as a file that is read is
//! standard input, which one argument at most may name.
//!
//! It ends with 0 if that was done and printed, with 1 if it was refused or could not be
//! printed, and with 2 if the words ask for none of that, or for help.
#![tactic(auto)]

use radoscls_program::{Printer, start};
use std::process::ExitCode;

fn main(rt: HostRuntime) -> ExitCode {
    start(&rt, &mut Printer::new(rt.stdout()), &mut rt.stderr())
}

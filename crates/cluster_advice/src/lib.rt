//! Says why a line of a cluster file is bad or refused, for `cluster --explain`: `why` gives the
//! line, the first thing wrong in it, and its form. Of that it is promised that it is text, and that
//! it begins with the file's name and the line's number (`specs/Why.antt`); that the reason is right
//! is tested, by a row for each (`tools/process_explained.py`).
#![tactic(auto)]

mod above;
mod forms;
mod note;
mod reason;
mod told;

pub use note::why;

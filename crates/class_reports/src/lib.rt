//! Tells what `class_tool` finds of several files, and in JSON. `verify_files` judges the class of each
//! file in the order given, also after one that is refused, and is accepted only if each is; each part
//! of its text is true of that file. `answer_line` and `error_line` have the result of a call, or why
//! there is none, as one object of JSON. `note_below` is what stands below a failure's line: nothing,
//! each further wrong line of a text, or what explains it. `told_text` puts a file's name before each
//! line.
#![tactic(auto)]

mod asked;
mod file_report;
mod file_reports;
mod json;
mod named;
mod notes;

pub use asked::{FilesAsked, ReportForm};
pub use file_reports::{FileReports, verify_files};
pub use json::{answer_line, error_line};
pub use named::told_text;
pub use notes::{Notes, note_below};

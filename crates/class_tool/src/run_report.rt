ghost use Rattle.std.specs.Prelude.{◌≡◌, IfOk, Some, option_map, string_bytes};
ghost use Rattle.std.specs.Option.{option_copied};
ghost use Rattle.std.specs.Fmt.{DisplaysOnOk};
ghost use Rattle.class_tool.specs.RunReport.{IsReportOf, holdings_of, object_line, report_lines};
ghost use Rattle.object_texts.specs.Shown.{or_dash};

use crate::log::Logged;
use interp::Outcome;
use object_store::Object;
use object_texts::shown_text;
use std::alloc::{AllocError, Global};
use std::fmt;

/// The end of a call of a method. It prints as the lines of its instructions, four lines, and those
/// that show the object.
#[derive(Drop)]
pub struct RunReport {
    /// The lines of the instructions that the call executed, if they are asked for.
    pub traced: String,
    /// The code that was answered.
    pub code: i64,
    /// The output that was answered in hexadecimal, two lower case digits a byte.
    pub output: String,
    /// The instructions that the call executed.
    pub steps: usize,
    /// The sizes of the object's parts after the call; `None` if it is absent.
    pub object: Option<Holdings>,
    /// The lines of all that the object holds then, if they are asked for.
    pub shown: String,
    /// The object after the call; `None` if it is absent, or of a call by an OSD's limits.
    pub(crate) after: Option<Object>,
}

/// The sizes of an object's parts.
#[derive(Clone, Copy, PartialEq, Eq)]
pub struct Holdings {
    /// Bytes of data.
    pub bytes: usize,
    /// Xattrs.
    pub xattrs: usize,
    /// Keys of the omap.
    pub keys: usize,
}

impl Holdings {
    /// The sizes of an object's parts, if there is one.
    fn of(object: Option<&Object>) -> Option<Holdings>
        ensures { result ≡ option_map holdings_of (option_copied object.entry) }
    {
        match object {
            Some(object) => Some(Holdings {
                bytes: object.len(),
                xattrs: object.xattr_count(),
                keys: object.key_count(),
            }),
            None => None,
        }
    }
}

/// A copy of an object, if there is one, which shares all of it.
fn copy_of(object: Option<&Object>) -> Result<Option<Object>, AllocError>
    ensures { IfOk result (λ copy. copy ≡ option_copied object.entry) }
{
    match object {
        Some(object) => match object.copy() {
            Ok(copy) => Ok(Some(copy)),
            Err(_) => Err(AllocError),
        },
        None => Ok(None),
    }
}

impl RunReport {
    /// The report of that answer and that outcome, with what the object holds or without. It fails
    /// only for want of memory.
    pub(crate) fn new(
        alloc: Global,
        logged: &Logged,
        outcome: &Outcome,
        is_shown: bool,
    ) -> Result<RunReport, AllocError>
        ensures { IfOk result (IsReportOf is_shown logged.now outcome.now) }
    {
        Ok(RunReport {
            traced: String::new(alloc),
            code: logged.code,
            output: hex::encode(alloc, &logged.output)?,
            steps: outcome.steps,
            object: Holdings::of(outcome.change.after()),
            shown: shown_text(alloc, is_shown, outcome.change.after())?,
            after: copy_of(outcome.change.after())?,
        })
    }

    /// The report with those lines of the call's instructions.
    pub fn with_trace(self, traced: String) -> RunReport
        ensures { result ≡ record self { traced = traced } }
    {
        RunReport { traced, ..self }
    }

    /// The output as it is printed: its digits, or `-` if there are none.
    fn shown_output(&self) -> &str
        ensures { result.now ≡ or_dash (string_bytes self.now.output) }
    {
        if self.output.is_empty() {
            "-"
        } else {
            self.output.as_str()
        }
    }
}

impl fmt::Display for RunReport {
    ghost use Rattle.class_tool.specs.RunReport.{report_text};

    ghost output = { λ report. Some (report_text report) };

    fn fmt<W: fmt::Write>(&self, f: &mut fmt::Formatter<W>) -> fmt::Result {
        f.write_str(&self.traced)?;
        write_lines(self, f)
    }
}

/// The four lines of a report, and those that show the object.
fn write_lines<W: fmt::Write>(report: &RunReport, f: &mut fmt::Formatter<W>) -> fmt::Result
    ensures { DisplaysOnOk W.write_str_gives f.old result (Some (report_lines report.now)) f.new }
{
    let (code, output, steps) = (report.code, report.shown_output(), report.steps);
    write!(f, "code {code}\noutput {output}\nsteps {steps}\n")?;
    write_object(report.object, f)?;
    f.write_str(&report.shown)
}

/// The line of an object that holds so much, or of none.
fn write_object<W: fmt::Write>(object: Option<Holdings>, f: &mut fmt::Formatter<W>) -> fmt::Result
    ensures { DisplaysOnOk W.write_str_gives f.old result (Some (object_line object)) f.new }
{
    match object {
        Some(held) => {
            let (bytes, xattrs, keys) = (held.bytes, held.xattrs, held.keys);
            writeln!(f, "object {bytes} {xattrs} {keys}")
        }
        None => f.write_str("object absent\n"),
    }
}

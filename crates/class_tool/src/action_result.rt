ghost use Rattle.std.specs.Prelude.{Some};
ghost use Rattle.std.specs.Fmt.{DisplaysOnOk};
ghost use Rattle.std.specs.List.{flat_map};
ghost use Rattle.class_tool.specs.ActionResult.{method_line};

use crate::run_report::RunReport;
use std::fmt;
use verifier::{VerifiedClass, VerifiedMethod};

/// The result of an action. It prints as its lines; there are none if an image was written.
#[derive(Drop)]
pub enum ActionResult {
    /// The class is safe.
    Accepted(VerifiedClass),
    /// The method ran.
    Ran(RunReport),
    /// The image of the text or of the raw code was written.
    Assembled,
    /// The class has that text.
    Disassembled(String),
}

impl fmt::Display for ActionResult {
    ghost use Rattle.class_tool.specs.ActionResult.{result_text};

    ghost output = { λ r. Some (result_text r) };

    fn fmt<W: fmt::Write>(&self, f: &mut fmt::Formatter<W>) -> fmt::Result {
        match self {
            ActionResult::Accepted(class) => write_methods(class, f),
            ActionResult::Ran(report) => report.fmt(f),
            ActionResult::Assembled => Ok(()),
            ActionResult::Disassembled(text) => f.write_str(text),
        }
    }
}

/// A line for each method: its name, and how many instructions it has.
fn write_methods<W: fmt::Write>(class: &VerifiedClass, f: &mut fmt::Formatter<W>) -> fmt::Result
    ensures { DisplaysOnOk W.write_str_gives f.old result (Some (flat_map method_line class.now)) f.new }
{
    for method in class.methods() {
        write_method(method, f)?;
    }
    Ok(())
}

/// The line of a method.
fn write_method<W: fmt::Write>(method: &VerifiedMethod, f: &mut fmt::Formatter<W>) -> fmt::Result
    ensures { DisplaysOnOk W.write_str_gives f.old result (Some (method_line method.now)) f.new }
{
    let (name, count) = (method.name(), method.count());
    writeln!(f, "{name} ok {count}")
}

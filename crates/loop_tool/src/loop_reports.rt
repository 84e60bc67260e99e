ghost use Rattle.std.specs.Prelude.{◌≡◌, IfOk};
ghost use Rattle.loop_tool.specs.Reports.{AreLoopReports};

use crate::asked::LoopsAsked;
use crate::loop_report::{LoopReport, loop_report};
use program_files::Files;
use std::alloc::{AllocError, Global};
use std::fmt;

/// What is told of files by their heads, in their order. It prints as that.
#[derive(Drop)]
pub struct LoopReports {
    reports: Vec<LoopReport>,
}

impl LoopReports {
    ghost use Rattle.std.specs.Prelude.{◌≡◌};
    ghost use Rattle.loop_tool.specs.Reports.{all_accepted, reports_in};

    /// True if each class is accepted.
    pub fn are_accepted(&self) -> bool
        ensures { result ≡ all_accepted (reports_in self.now) }
    {
        for report in &self.reports {
            if !report.is_accepted {
                return false;
            }
        }
        true
    }
}

impl fmt::Display for LoopReports {
    ghost use Rattle.std.specs.Prelude.{Some};
    ghost use Rattle.loop_tool.specs.Reports.{reports_in, reports_text};

    ghost output = { λ all. Some (reports_text (reports_in all)) };

    fn fmt<W: fmt::Write>(&self, f: &mut fmt::Formatter<W>) -> fmt::Result {
        for report in &self.reports {
            f.write_str(&report.text)?;
        }
        Ok(())
    }
}

/// Judges the class of each file by its heads, in their order, each also if one before it is refused
/// or can't be read. It fails only if memory for what is told is refused.
pub fn verify_files_by_loops<F: Files>(
    alloc: Global,
    files: &F,
    asked: &LoopsAsked<'_>,
) -> Result<LoopReports, AllocError>
    ensures { IfOk result (AreLoopReports (F.disk files.now) asked.now) }
{
    let mut reports = Vec::new(alloc);
    for name in &asked.files {
        let report = loop_report(alloc, files, *name, asked)?;
        reports.push(report)?;
    }
    Ok(LoopReports { reports })
}

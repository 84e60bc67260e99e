ghost use Rattle.std.specs.Prelude.{◌≡◌, IfOk};
ghost use Rattle.class_reports.specs.Reports.{AreReports};

use crate::asked::FilesAsked;
use crate::file_report::{FileReport, file_report};
use program_files::Files;
use std::alloc::{AllocError, Global};
use std::fmt;

/// What is told of files, in their order. It prints as that.
#[derive(Drop)]
pub struct FileReports {
    reports: Vec<FileReport>,
}

impl FileReports {
    ghost use Rattle.std.specs.Prelude.{◌≡◌};
    ghost use Rattle.class_reports.specs.Reports.{all_accepted, reports_in};

    /// True if each class is accepted.
    pub fn are_accepted(&self) -> bool
        ensures { result ≡ all_accepted (reports_in self.now) }
    {
        for report in &self.reports {
            if !report.is_accepted {
                return false;
            }
        }
        true
    }
}

impl fmt::Display for FileReports {
    ghost use Rattle.std.specs.Prelude.{Some};
    ghost use Rattle.class_reports.specs.Reports.{reports_in, reports_text};

    ghost output = { λ all. Some (reports_text (reports_in all)) };

    fn fmt<W: fmt::Write>(&self, f: &mut fmt::Formatter<W>) -> fmt::Result {
        for report in &self.reports {
            f.write_str(&report.text)?;
        }
        Ok(())
    }
}

/// Judges the class of each file, in their order, each also if one before it is refused or can't
/// be read. It fails only if memory for what is told is refused.
pub fn verify_files<F: Files>(
    alloc: Global,
    files: &F,
    asked: &FilesAsked<'_>,
) -> Result<FileReports, AllocError>
    ensures { IfOk result (AreReports (F.disk files.now) asked.now) }
{
    let mut reports = Vec::new(alloc);
    for name in &asked.files {
        let report = file_report(alloc, files, *name, asked)?;
        reports.push(report)?;
    }
    Ok(FileReports { reports })
}

//! What is asked of files.

ghost use Rattle.std.specs.Prelude.{◌≡◌};

/// How the verdict on a file is told.
#[derive(Clone, Copy, PartialEq, Eq)]
pub enum ReportForm {
    /// As `verify` does: a line for each method, or the first refusal.
    Class,
    /// As `verify --all` does: each method's own verdict.
    Each,
    /// In JSON, an object for each method, or one for the first refusal.
    Json,
}

/// The files whose classes are judged.
#[derive(Drop)]
pub struct FilesAsked<'a> {
    /// The files, in their order.
    pub files: Vec<&'a str>,
    /// How each is told.
    pub form: ReportForm,
    /// True if refusals are explained; not in JSON.
    pub is_explained: bool,
}

impl FilesAsked<'_> {
    ghost use Rattle.class_reports.specs.Reports.{is_named};

    /// True if each line begins with its file's name: there are several files, and no JSON.
    pub fn is_named(&self) -> bool
        ensures { result ≡ is_named self.now }
    {
        match self.form {
            ReportForm::Class | ReportForm::Each => self.files.len() > 1,
            ReportForm::Json => false,
        }
    }
}

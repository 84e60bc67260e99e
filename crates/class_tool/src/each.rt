//! `verify --all`: of each method the verdict of that method by itself.
ghost use Rattle.std.specs.Prelude.{◌≡◌, IfErr, IfOk, is_none, string_bytes, true};
ghost use Rattle.std.specs.List.{AllByRecursion};
ghost use Rattle.bpf_decode.specs.Class.{IsMethod};
ghost use Rattle.class_tool.specs.Each.{AreVerdicts, IsEachText, IsRefusalText, IsVerdictText, are_accepted};
ghost use Rattle.class_tool.specs.ActionResult.{method_line};
ghost use Rattle.program_files.specs.Image.{ReadFails, class_of};
ghost use Rattle.class_tool.specs.Note.{IsNote};
ghost use Rattle.verifier.specs.Verdict.{method_verdict};

use crate::explain::verdict_note;
use bpf_decode::Method;
use program_files::{ClassSource, Failed, ReadableFiles, read_source};
use std::alloc::{AllocError, Global};
use std::fmt;
use verifier::{Refusal, refused_slot};

/// The verdicts of a class's methods. They print as their lines, in the methods' order.
#[derive(Drop)]
pub struct Verdicts {
    lines: String,
    are_accepted: bool,
}

impl Verdicts {
    ghost use Rattle.std.specs.Prelude.{◌≡◌};

    /// True if no rule refuses a method.
    pub fn are_accepted(&self) -> bool
        ensures { result ≡ self.now.are_accepted }
    {
        self.are_accepted
    }
}

impl fmt::Display for Verdicts {
    ghost use Rattle.std.specs.Prelude.{Some, string_bytes};

    ghost output = { λ verdicts. Some (string_bytes verdicts.lines) };

    fn fmt<W: fmt::Write>(&self, f: &mut fmt::Formatter<W>) -> fmt::Result {
        f.write_str(&self.lines)
    }
}

/// A class that is judged, and whether its refusals are explained.
#[derive(Clone, Copy)]
struct Judged<'a> {
    alloc: Global,
    source: &'a ClassSource,
    is_explained: bool,
}

impl Judged<'_> {
    ghost use Rattle.std.specs.Prelude.{IfOk, string_bytes, ◌≡◌};

    /// The note of a refusal, if that is asked for.
    fn note(&self, refusal: &Refusal) -> Result<String, AllocError>
        ensures { IfOk result (λ note. IsNote self.now.is_explained (string_bytes note)) }
    {
        if self.is_explained {
            verdict_note(self.alloc, self.source, refusal)
        } else {
            Ok(String::new(self.alloc))
        }
    }

    /// The lines of a refusal.
    fn refused(&self, refusal: &Refusal) -> Result<String, AllocError>
        ensures { IfOk result (λ lines. IsRefusalText self.now.is_explained refusal.now (string_bytes lines)) }
    {
        let mut lines = String::new(self.alloc);
        write!(lines, "{refusal}\n")?;
        lines.push_str(&self.note(refusal)?)?;
        Ok(lines)
    }

    /// The verdict of the method of that number.
    fn verdict(&self, number: usize, method: &Method) -> Result<Verdicts, AllocError>
        requires { IsMethod method.now }
        ensures lines { IfOk result (λ v. IsVerdictText self.now.is_explained number method.now
            (method_verdict (class_of self.now.source.now).rules method.now) (string_bytes v.lines)) }
        ensures accepted { IfOk result (λ v. v.are_accepted ≡
            is_none (method_verdict (class_of self.now.source.now).rules method.now)) }
    {
        match refused_slot(self.alloc, self.source.class().rules(), method)? {
            None => self.accepted(method),
            Some(refused) => {
                let refusal = Refusal {
                    method: number,
                    slot: refused.slot,
                    rule: refused.rule,
                };
                Ok(Verdicts {
                    lines: self.refused(&refusal)?,
                    are_accepted: false,
                })
            }
        }
    }

    /// The line of a method that no rule refuses.
    fn accepted(&self, method: &Method) -> Result<Verdicts, AllocError>
        ensures lines { IfOk result (λ v. string_bytes v.lines ≡ method_line method.now) }
        ensures accepted { IfOk result (λ v. v.are_accepted ≡ true) }
    {
        let (name, count) = (method.name(), method.instructions().len());
        let mut lines = String::new(self.alloc);
        write!(lines, "{name} ok {count}\n")?;
        Ok(Verdicts {
            lines,
            are_accepted: true,
        })
    }

    /// The verdicts of methods, in their order.
    fn verdicts(&self, methods: &[Method]) -> Result<Verdicts, AllocError>
        requires { AllByRecursion IsMethod methods.now }
        ensures lines { IfOk result (λ v. IsEachText self.now.is_explained
            (class_of self.now.source.now).rules 0 methods.now (string_bytes v.lines)) }
        ensures accepted { IfOk result (λ v. v.are_accepted ≡
            are_accepted (class_of self.now.source.now).rules methods.now) }
    {
        let mut lines = String::new(self.alloc);
        let mut are_accepted = true;
        for (number, method) in methods.iter().enumerate() {
            let verdict = self.verdict(number, method)?;
            lines.push_str(&verdict.lines)?;
            are_accepted = are_accepted && verdict.are_accepted;
        }
        Ok(Verdicts {
            lines,
            are_accepted,
        })
    }
}

/// The verdict of each method of the class that a file holds, with a note below each refusal, if
/// that is asked for; a text that is no class's fails with a note on each wrong line. It costs what
/// `verify` does of an accepted class, and that again for each refusal that is explained.
pub fn verify_each<F: ReadableFiles>(
    alloc: Global,
    files: &F,
    image: &str,
    is_explained: bool,
) -> Result<Verdicts, Failed>
    ensures ok { IfOk result (AreVerdicts (F.disk files.now) image.now is_explained) }
    ensures err { IfErr result (λ e. ReadFails (F.disk files.now) image.now e.failure) }
{
    let source = match read_source(alloc, files, image) {
        Ok(source) => source,
        Err(failed) => return Err(failed.of_each_line()),
    };
    let judged = Judged {
        alloc,
        source: &source,
        is_explained,
    };
    Ok(judged.verdicts(source.class().methods())?)
}

use class_advice::refusal_note;
use interp::CallError;
use program_files::{About, ClassSource, Failed, Failure};
use std::alloc::{AllocError, Global};
use text_advice::{PackedMethod, fault_text, faults_text, image_text, packed_text, source_text};
use verifier::{Refusal, Rule};

/// What is explained by a note.
pub trait Explain {
    /// The note below the failure's line; nothing if there is nothing to add. Of a file that
    /// couldn't be read or written it is `fault`, what the files tell of it.
    fn note(&self, alloc: Global, fault: Option<String>) -> Result<String, AllocError>;
}

/// The note of a refused call: what it must have.
#[rattlefmt::skip]
fn call_wanted(failure: Failure) -> &'static str {
    match failure {
        Failure::InputNotHex => "  wanted: --input in hexadecimal, two digits a byte\n",
        Failure::ObjectNotHex =>
            "  wanted: --object, --xattr NAME=HEX and --key KEY=HEX in hexadecimal, two digits a byte\n",
        Failure::ObjectLine(_) =>
            "  wanted: in the file of --load first `data HEX`, then lines `xattr NAME HEX` and `key NAME HEX`, with - \
                for no byte\n  see docs/PROGRAM.md\n",
        Failure::Object(_) => "  see docs/OBJECTS.md\n",
        Failure::Call(CallError::NoMethod) => "  wanted: a method of the class; `radoscls verify` lists them\n",
        Failure::Call(CallError::InputTooLong) =>
            "  wanted: at most IN bytes of input, as `.method NAME FLAGS IN OUT` declares; `radoscls dis` shows it\n",
        Failure::CallFull =>
            "  wanted: at most 32 xattrs and 1,024 keys, seen and set, of an object that has more, and at most 1,024 \
                blocks of 4,096 bytes\n",
        Failure::Call(CallError::NoMemory) | Failure::NoMemory | Failure::TextTooLong => "",
        Failure::CannotRead | Failure::CannotWrite | Failure::Text(_) | Failure::Image(_) | Failure::Verdict(_) => "",
    }
}

/// The note of a class's refusal; if a text was read, with the line of the refused instruction.
pub(crate) fn verdict_note(
    alloc: Global,
    source: &ClassSource,
    refusal: &Refusal,
) -> Result<String, AllocError> {
    let mut note = refusal_note(alloc, source.class(), refusal)?;
    match (source, refusal.rule) {
        (ClassSource::Image(_), _) | (ClassSource::Text(_, _), Rule::NoMemory) => {}
        (ClassSource::Text(_, text), _) => {
            note.push_str(&source_text(alloc, text, refusal.method, refusal.slot)?)?;
        }
    }
    Ok(note)
}

impl Explain for Failed {
    fn note(&self, alloc: Global, fault: Option<String>) -> Result<String, AllocError> {
        match (self.failure, &self.about) {
            (Failure::CannotRead | Failure::CannotWrite, _) => {
                Ok(fault.unwrap_or_else(|| String::new(alloc)))
            }
            (Failure::Text(error), About::Text(text)) => fault_text(alloc, text, &error),
            (Failure::Text(error), About::EachLine(text)) => faults_text(alloc, text, &error),
            (Failure::Verdict(refusal), About::Class(source)) => {
                verdict_note(alloc, source, &refusal)
            }
            (Failure::Image(error), About::Image(bytes)) => image_text(alloc, &error, bytes),
            (Failure::Image(error), About::Method(name, file, in_cap, out_cap)) => {
                let packed = PackedMethod {
                    name,
                    file,
                    in_cap: *in_cap,
                    out_cap: *out_cap,
                };
                packed_text(alloc, &error, Some(packed))
            }
            (Failure::Image(error), About::Methods) => packed_text(alloc, &error, None),
            (failure, _) => String::from_str(alloc, call_wanted(failure)),
        }
    }
}

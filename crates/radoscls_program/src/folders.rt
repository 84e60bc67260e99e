//! Folders that `verify` is given: each stands for the files of classes in it, as if they had been
//! named, in the order of their names' bytes. Nothing is claimed of what the system lists.

use std::alloc::{AllocError, Global};
use std::fs::read_dir;
use std::io::{self, ErrorKind};
use std::path::AsPath;
use std::rt::Files;

/// True if a name is that of a class's file: it ends with `.img` or `.txt`, and doesn't begin with a
/// dot.
fn is_class(name: &str) -> bool {
    !name.starts_with('.') && (name.ends_with(".img") || name.ends_with(".txt"))
}

/// The files of classes in a folder, with its name before theirs.
fn listed<R: Files + AllocGlobal + Clone + Drop>(rt: &R, folder: &str) -> io::Result<Vec<String>> {
    let alloc = rt.alloc();
    let mut files = Vec::new(alloc);
    for entry in read_dir(rt, folder)? {
        let entry = entry?;
        if is_class(entry.file_name()) {
            files.push(String::from_str(alloc, entry.path().path_text())?)?;
        }
    }
    files.sort()?;
    Ok(files)
}

/// The same; none if it can't be listed whole, as what is no folder. It fails for want of memory
/// alone.
fn classes_in<R: Files + AllocGlobal + Clone + Drop>(
    rt: &R,
    folder: &str,
) -> Result<Vec<String>, AllocError> {
    match listed(rt, folder) {
        Ok(files) => Ok(files),
        Err(error) => match error.kind() {
            ErrorKind::OutOfMemory => Err(AllocError),
            _ => Ok(Vec::new(rt.alloc())),
        },
    }
}

/// Adds a word, or the files of classes in the folder that it names.
fn push_word<R: Files + AllocGlobal + Clone + Drop>(
    rt: &R,
    words: &mut Vec<String>,
    word: String,
) -> Result<(), AllocError> {
    let files = if word.starts_with('-') {
        Vec::new(rt.alloc())
    } else {
        classes_in(rt, word.as_str())?
    };
    if files.is_empty() {
        words.push(word)?;
        return Ok(());
    }
    for file in files {
        words.push(file)?;
    }
    Ok(())
}

/// True if words begin with a program's name and `verify`.
fn are_of_verify(words: &[String]) -> bool {
    match words.get(1) {
        Some(word) => word.as_str() == "verify",
        None => false,
    }
}

/// The words of a command line, with the files of classes in place of each folder that `verify` is
/// given; one that has none, or that can't be listed, stays. It fails for want of memory alone.
pub(crate) fn spelled_out<R: Files + AllocGlobal + Clone + Drop>(
    rt: &R,
    words: Vec<String>,
) -> Result<Vec<String>, AllocError> {
    if !are_of_verify(&words) {
        return Ok(words);
    }
    let mut all = Vec::new(rt.alloc());
    let mut count = 0u64;
    for word in words {
        if count < 2 {
            all.push(word)?;
            count += 1;
        } else {
            push_word(rt, &mut all, word)?;
        }
    }
    Ok(all)
}

//! Names of classes and objects.
ghost use Rattle.std.specs.Prelude.{◌≡◌, IfOk, map};
ghost use Rattle.file_words.specs.Words.{class_of, object_in};

use object_store::{ObjectName, StoreError};
use std::alloc::{AllocError, Global};

/// The id that no class has: a table holds at most 64 classes, with the ids 0 to 63.
pub const NO_CLASS: usize = 64;

/// The id of the class of this name: its index among the names, the first if it is there twice, or
/// `NO_CLASS`.
pub fn class_of(names: &[&str], word: &str) -> usize
    ensures { result ≡ class_of 0 (map (λ n. n.now) names.now) word.now }
{
    let mut id = 0;
    for name in names {
        if *name == word {
            return id;
        }
        id += 1;
    }
    NO_CLASS
}

/// An object's name, 1 to 255 bytes; `None` if the word is none.
pub fn object_in(alloc: Global, word: &str) -> Result<Option<ObjectName>, AllocError>
    ensures { IfOk result (λ o. o ≡ object_in word.now) }
{
    match ObjectName::new(alloc, word) {
        Ok(name) => Ok(Some(name)),
        Err(StoreError::Range) => Ok(None),
        // The only other refusal is that of memory.
        Err(_) => Err(AllocError),
    }
}

ghost use Rattle.std.specs.Prelude.{◌≡◌, IfOk};
ghost use Rattle.file_words.specs.Words.{bytes_in};

use hex::FromHexError;
use std::alloc::{AllocError, Global};
use std::marker::Model;

/// A list of bytes that a word spells. Contracts see the list.
#[derive(Drop)]
pub struct Bytes {
    items: Vec<u8>,
}

impl Model for Bytes {
    ghost use Rattle.std.specs.Prelude.{List, ℕ};

    ghost Value = { List ℕ };

    ghost view = { λ b. b.items.items };
}

impl Bytes {
    fn new(items: Vec<u8>) -> Bytes
        ensures { result ≡ items.items }
    {
        Bytes { items }
    }

    /// Returns the bytes by value. It takes no memory.
    pub fn into_items(self) -> Vec<u8>
        ensures { result.items ≡ self }
    {
        self.items
    }
}

/// The bytes that a word spells: pairs of hexadecimal digits of either case, or `-` for no byte;
/// `None` if it is neither.
pub fn bytes_in(alloc: Global, word: &str) -> Result<Option<Bytes>, AllocError>
    ensures { IfOk result (λ b. b ≡ bytes_in word.now) }
{
    if word == "-" {
        return Ok(Some(Bytes::new(Vec::new(alloc))));
    }
    match hex::decode(alloc, word) {
        Ok(bytes) => Ok(Some(Bytes::new(bytes))),
        // A refusal of memory says nothing of the word, so it isn't taken for malformed.
        Err(FromHexError::OutOfMemory) => Err(AllocError),
        Err(_) => Ok(None),
    }
}

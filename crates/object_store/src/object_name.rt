ghost use Rattle.std.specs.Prelude.{◌≡◌, ◌<◌, ◌≤◌, IfOk, IfErr, ◌⊎◌, length, Err};

use crate::limits::OBJECT_NAME_LIMIT;
use crate::store_error::StoreError;
use std::alloc::Global;
use std::marker::Model;

/// An object's name: 1 to 255 bytes of text. Contracts see the bytes.
pub struct ObjectName {
    text: String,
}

// Written out, so that a crate that drops a name calls this and needn't prove again how text is
// dropped.
impl Drop for ObjectName {
    fn drop(self) {
        let ObjectName { text } = self;
        drop(text);
    }
}

impl Model for ObjectName {
    ghost use Rattle.std.specs.Prelude.{ℕ, List, ◌≤◌, length, string_bytes};
    ghost use Rattle.object_store.specs.declared.limits.TheConstants.{OBJECT_NAME_LIMIT};

    ghost Value = { List ℕ };

    ghost view = { λ n. string_bytes n.text };

    ghost invariant = { λ n. (1 ≤ length (string_bytes n.text)) × (length (string_bytes n.text) ≤ OBJECT_NAME_LIMIT) };
}

impl ObjectName {
    /// The name of that text, 1 to 255 bytes. Refused: 6 Range, 7 NoMemory.
    pub fn new(alloc: Global, text: &str) -> Result<ObjectName, StoreError>
        ensures value { IfOk result (λ n. n ≡ text.now) }
        ensures within { IfOk result (λ n. (1 ≤ length text.now) × (length text.now ≤ OBJECT_NAME_LIMIT)) }
        ensures empty { length text.now ≡ 0 → result ≡ Err StoreError.Range }
        ensures long { OBJECT_NAME_LIMIT < length text.now → result ≡ Err StoreError.Range }
        ensures range { result ≡ Err StoreError.Range → (1 ≤ length text.now) → OBJECT_NAME_LIMIT < length text.now }
        ensures other { IfErr result (λ e. (e ≡ StoreError.Range) ⊎ (e ≡ StoreError.NoMemory)) }
    {
        if text.is_empty() || text.len() > OBJECT_NAME_LIMIT {
            return Err(StoreError::Range);
        }
        match String::from_str(alloc, text) {
            Ok(text) => Ok(ObjectName { text }),
            Err(_) => Err(StoreError::NoMemory),
        }
    }

    /// Its text.
    pub fn text(&self) -> &str
        ensures value { result.now ≡ self.now }
        ensures within { (1 ≤ length self.now) × (length self.now ≤ OBJECT_NAME_LIMIT) }
    {
        self.text.as_str()
    }

    /// An equal name. Refused: 7 NoMemory.
    pub fn copy(&self, alloc: Global) -> Result<ObjectName, StoreError>
        ensures value { IfOk result (λ n. n ≡ self.now) }
        ensures refused { IfErr result (λ e. e ≡ StoreError.NoMemory) }
    {
        match String::from_str(alloc, self.text.as_str()) {
            Ok(text) => Ok(ObjectName { text }),
            Err(_) => Err(StoreError::NoMemory),
        }
    }
}

ghost use Rattle.std.specs.Prelude.{◌≡◌, ◌==◌, ◌≤◌, ◌++◌, ◌∷◌, ◌↔◌, [], IfOk, IfSome, OnErr, length, Err, slice_get};
ghost use Rattle.std.specs.List.{AllByRecursion};
ghost use Rattle.bpf_machine.specs.Safe.{IsSafe};
ghost use Rattle.interp.specs.Plain.{given_class};
ghost use Rattle.interp.specs.Refusal.{table_error_number};

use crate::limits::CLASS_LIMIT;
use std::alloc::Global;
use std::marker::Model;
use thiserror::Error;
use verifier::VerifiedClass;

/// Why a class can't be added. It prints as number and name, as `1 TooMany`.
#[derive(Clone, Copy, Debug, PartialEq, Eq, Error)]
pub enum TableError {
    /// `CLASS_LIMIT` classes are loaded.
    #[error("1 TooMany")]
    TooMany,
    /// Memory was refused.
    #[error("2 NoMemory")]
    NoMemory,
}

impl TableError {
    /// Its number, 1 or 2.
    pub fn number(self) -> u8
        ensures { result ≡ table_error_number self }
    {
        match self {
            TableError::TooMany => 1,
            TableError::NoMemory => 2,
        }
    }
}

/// The loaded classes, at most `CLASS_LIMIT`, by ids from 0. Contracts see the list of them.
pub struct ClassTable {
    classes: Vec<VerifiedClass>,
}

// Written out, so that a crate that drops a table calls this, and proves nothing of its classes
// once more.
impl Drop for ClassTable {
    fn drop(self) {
        let ClassTable { classes } = self;
        drop(classes);
    }
}

impl Model for ClassTable {
    ghost use Rattle.std.specs.Prelude.{List, ◌≤◌, length};
    ghost use Rattle.bpf_decode.specs.Class.{ClassMethod};
    ghost use Rattle.interp.specs.declared.limits.TheConstants.{CLASS_LIMIT};

    ghost Value = { List (List ClassMethod) };

    ghost view = { λ t. t.classes.items };

    ghost invariant = { λ t. length t.classes.items ≤ CLASS_LIMIT };
}

impl ClassTable {
    /// A table without a class.
    pub fn new(alloc: Global) -> ClassTable
        ensures { result ≡ [] }
    {
        ClassTable {
            classes: Vec::new(alloc),
        }
    }

    /// Adds a class, and gives its id.
    pub fn add(&mut self, class: VerifiedClass) -> Result<usize, TableError>
        ensures id { IfOk result (λ id. id ≡ length self.old) }
        ensures added { IfOk result (λ _. self.new ≡ self.old ++ class ∷ []) }
        ensures too_many { (result ≡ Err TableError.TooMany) ↔ (length self.old ≡ CLASS_LIMIT) }
        ensures refused { OnErr result (self.new ≡ self.old) }
    {
        if self.classes.len() == CLASS_LIMIT {
            return Err(TableError::TooMany);
        }
        let id = self.classes.len();
        match self.classes.push(class) {
            Ok(()) => Ok(id),
            Err(_) => Err(TableError::NoMemory),
        }
    }

    /// The class of that id, if there is one; each of its methods is safe.
    pub fn get(&self, id: usize) -> Option<&VerifiedClass>
        ensures found { given_class result ≡ slice_get self.now id }
        ensures safe { IfSome result (λ class. AllByRecursion IsSafe class.now) }
        ensures limit { length self.now ≤ CLASS_LIMIT }
    {
        let class = self.classes.get(id)?;
        // For the proof: the contract of `methods` says that each is safe.
        let _ = class.methods();
        Some(class)
    }

    /// The number of classes that are loaded.
    pub fn len(&self) -> usize
        ensures value { result ≡ length self.now }
        ensures limit { length self.now ≤ CLASS_LIMIT }
    {
        self.classes.len()
    }

    /// True if no class is loaded.
    pub fn is_empty(&self) -> bool
        ensures { result ≡ (length self.now == 0) }
    {
        self.classes.is_empty()
    }
}

ghost use Rattle.std.specs.Prelude.{◌≡◌};
ghost use Rattle.verifier.specs.Verdict.{out_of_memory};

use crate::rule::Rule;
use std::alloc::{AllocError, AllocFailed};
use std::fmt;
use thiserror::Error;

/// Why a class is refused: the first method with a refusal, its lowest refused slot, and there the
/// lowest rule. Methods and slots count from 0; if memory was refused both are 0. It prints as
/// `refused method 0 slot 0: 5 UnsetRead`.
#[derive(Clone, Copy, Debug, PartialEq, Eq, Error)]
pub struct Refusal {
    pub method: usize,
    pub slot: usize,
    pub rule: Rule,
}

impl fmt::Display for Refusal {
    ghost use Rattle.std.specs.Prelude.{Some};
    ghost use Rattle.verifier.specs.RuleNumber.{refusal_text};

    ghost output = { λ r. Some (refusal_text r) };

    fn fmt<W: fmt::Write>(&self, f: &mut fmt::Formatter<W>) -> fmt::Result {
        let Refusal { method, slot, rule } = *self;
        write!(f, "refused method {method} slot {slot}: {rule}")
    }
}

impl From<AllocError> for Refusal {
    ghost from_gives = { λ _ e. e ≡ out_of_memory };

    fn from(_error: AllocError) -> Refusal {
        NO_MEMORY
    }
}

impl<T: Drop> From<AllocFailed<T>> for Refusal {
    ghost from_gives = { λ _ e. e ≡ out_of_memory };

    fn from(_error: AllocFailed<T>) -> Refusal {
        NO_MEMORY
    }
}

const NO_MEMORY: Refusal = Refusal {
    method: 0,
    slot: 0,
    rule: Rule::NoMemory,
};

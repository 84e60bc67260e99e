//! A law, for the proofs of the crates above: a number's parts hold what its definition says. The
//! function does nothing.

ghost use Rattle.std.specs.Prelude.{ℕ, ◌↔◌};
ghost use Rattle.abstract_num.specs.Plain.{Holds, view};
ghost use Rattle.abstract_num.specs.Plain.{Number as PlainNumber};

use crate::bits::Bits;
use crate::domain::Domain;
use crate::half::Half;
use crate::product::Product;
use crate::srange::SRange;
use crate::urange::URange;

/// A law, proved when the crate is checked; a call does nothing. What `Domain` says that a number
/// holds is what `Holds` says.
pub fn domain_of_numbers()
    ensures { (x : PlainNumber) (n : ℕ) →
        ⟦<Product<URange, Product<SRange, Product<Bits, Half>>> as Domain>⟧.holds x n ↔ Holds (view x) n }
{}

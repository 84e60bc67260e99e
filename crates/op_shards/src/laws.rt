//! Facts for the proofs of the crates above: a sender's pass keeps what it has. The function does
//! nothing.
ghost use Rattle.std.specs.Prelude.{◌≡◌};
ghost use Rattle.op_shards.specs.Passes.{Sender, Grew, WasSent};

use std::marker::Brand;

/// A property of an operation. Each use of the law below picks it.
pub trait Property<T> {
    ghost holds: { T → Type 0 };
}

impl<T> Property<T> for Brand {
    ghost holds = { λ _. Unit {0} };
}

/// From a state of a pass to itself nothing is lost, nor over several steps of each of which this
/// is so. If an operation was sent, one was sent that has each property of it; and what was sent
/// in one step was sent in that step together with steps before and after it. The property may
/// speak of `about`.
pub fn sending_goes_on<T, A, P: Property<T>>(about: &A)
    ensures none { (s : Sender T) → Grew s s }
    ensures several { (s t u : Sender T) → Grew s t → Grew t u → Grew s u }
    ensures property { (s t : Sender T) (op : T) → WasSent s t (λ x. x ≡ op) → P.holds op → WasSent s t P.holds }
    ensures further { (r s t u : Sender T) → WasSent s t P.holds → Grew r s → Grew t u → WasSent r u P.holds }
{
    let _ = about;
}

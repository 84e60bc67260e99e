//! Abstract numbers: what is known of a whole number below `2^64`, as an unsigned range, a signed
//! range, known bits and a half, the range of its low 32 bits as a signed number. With
//! `Precision::Whole` the half of every answer is any one.
//!
//! `Domain` is the trait of such values, with its laws; `Product` of any two lawful parts is
//! lawful. `arithmetic` and its like answer by the tables of specs/ and keep every number that was
//! held, by what the machine computes; `refine` keeps the numbers that pass along an edge of a
//! comparison; `tighten` passes knowledge between the parts. All of it takes no memory and can't
//! fail: `None` says that no number is left.
#![tactic(auto)]

mod bits;
mod domain;
mod fact;
mod half;
mod holding;
mod laws;
mod number;
mod precision;
mod product;
mod refining;
mod row;
mod srange;
mod tightening;
mod transfer;
mod urange;

pub use bits::Bits;
pub use domain::Domain;
pub use fact::Fact;
pub use half::Half;
pub use holding::domain_of_numbers;
pub use laws::{join_laws, keeping_laws, order_laws, whole_laws};
pub use number::{
    Number, any, between, constant, highest, holds, is_below, join, loaded, loaded_signed,
    signed_between,
};
pub use precision::Precision;
pub use product::Product;
pub use refining::refine;
pub use row::Row;
pub use srange::SRange;
pub use tightening::tighten;
pub use transfer::{arithmetic, copied, negative, offset_by, ordered, sign_extended};
pub use urange::URange;

use std::marker::Brand;

/// The classes that are ever loaded for a group, by id. It names them for the proofs of all calls
/// on one group.
// A type parameter, since nothing is known of a value that comes out of a lock but its type.
pub trait Classes {
    ghost use Rattle.std.specs.Prelude.{List};
    ghost use Rattle.bpf_decode.specs.Class.{ClassMethod};

    ghost classes: { List (List ClassMethod) };
}

impl Classes for Brand {
    ghost use Rattle.std.specs.Prelude.{[]};

    ghost classes = { [] };
}

use pg_log::Classes;
use std::marker::Brand;

/// The one board of a cluster, and the classes that are loaded there. It names them for the proofs
/// of all calls, also of those on a value that comes out of a lock, of which nothing but the type
/// is known.
pub trait BoardName: Classes {
    ghost use Rattle.atomic_table.specs.Seated.{TableId};

    ghost board: { TableId };
}

impl BoardName for Brand {
    ghost use Rattle.std.specs.Prelude.{[]};

    ghost board = { record { words = 0; slots = 0; views_name = 0; atom = 0; block = 0; offset = 0; slot_names = [] } };
}

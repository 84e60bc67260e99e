//! The table of the calls that can be refused memory, each with a row that makes it once, on small
//! values and with its longest chain of growths. Where one growth of the whole run is refused, the
//! row makes again what memory was refused to: the call answers its own number, leaves its state as
//! it was, and made again it gives the answer that it always gives. What a row is made of is made
//! again too. `tests_memory_rows` runs the row of a name, and tools/refuse.sh refuses each growth
//! of it in turn. Nothing here has a contract: it is a test, and the calls' contracts say what it
//! tests.
#![tactic(auto)]

mod calls;
mod ending;
mod handles;
mod images;
mod lists;
mod logs;
mod loops;
mod made;
mod nodes;
mod objects;
mod rounds;
mod staged;
mod store;
mod table;
mod texts;
mod verdicts;

pub use ending::Ending;
pub use logs::Verb;
pub use made::{names_of, nodes_of, request_of, table_of};
pub use nodes::NodeCall;
pub use objects::Deed;
pub use staged::{Step, Turn};
pub use table::{ROWS, Row};
pub use verdicts::Case;

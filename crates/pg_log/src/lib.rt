//! The log of a group, the sequential object that replication copies. `Group` runs requests one
//! after another: `append` gives the place of a logged pair of client and number, or adds the
//! request if the list stays legal, or refuses. Its objects, replies and index are always those of
//! its list, by the machine's outcome of each request in turn. The classes that it may be handed
//! are named by its type (`Classes`); `with_group` names those of a table. `go_on` gives a group a
//! name with classes added. The laws of legal lists, of their objects and of their replies are
//! contracts of functions that do nothing.
#![tactic(auto)]

mod class_test;
mod classes;
mod client_id;
mod crossing;
mod entry;
mod group;
mod group_work;
mod laws;
mod list_test;
mod log_error;
mod object_limits;
mod places;
mod request;
mod request_list;
mod request_number;
mod request_parts;
mod requests;

pub use class_test::class_refusal;
pub use classes::Classes;
pub use client_id::ClientId;
pub use crossing::{entry_crosses, group_crosses, request_crosses, table_crosses};
pub use entry::Entry;
pub use group::{Group, LOG_LIMIT};
pub use group_work::{GroupWork, go_on, go_on_as, start, with_group};
pub use interp::ClassTable;
pub use laws::{
    adopting, classes_added, folds, legal_lists, log_limit_by_number, pairs, refusals, replies,
    undoing,
};
pub use list_test::list_refusal;
pub use log_error::LogError;
pub use object_limits::{objects_within_limits, replies_run};
pub use request::Request;
pub use request_list::{are_same_requests, copy_log, copy_requests};
pub use request_number::RequestNumber;
pub use request_parts::RequestParts;
pub use requests::Requests;
pub use txn::NoMemory;

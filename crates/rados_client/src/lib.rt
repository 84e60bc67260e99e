//! A user's side of a cluster: `Cluster` is made, loaded with classes and run; a `Session` of the
//! running cluster calls methods on objects. If `exec` or `retry` answers Ok, the session then
//! knows a list of requests that begins with all that it had seen or been told of that list, and in
//! a legal beginning of it the whole request stands once, at the reply's place, and is answered
//! there as the reply says (`specs/Promise.antt`). A refusal by class, method or input is true;
//! after `Unanswered` a queue took the request in that call, after `NotTaken` none did. `tell` and
//! `hear` hand on what was seen.
#![tactic(auto)]

mod call;
mod class_id;
mod cluster;
mod config_error;
mod connection;
mod crossing;
mod exec_error;
mod exec_into;
mod exec_reply;
mod found;
mod laws;
mod load_error;
mod object_calls;
mod open_error;
mod patience;
mod run_error;
mod session;

pub use class_id::ClassId;
pub use cluster::Cluster;
pub use config_error::ConfigError;
pub use crossing::session_crosses;
pub use exec_error::ExecError;
pub use exec_reply::ExecReply;
pub use laws::{answers_have_run, no_number_comes_after_the_last, replies_are_true};
pub use load_error::LoadError;
pub use open_error::OpenError;
pub use osd::{ClusterName, Config, Running, Scenario};
pub use run_error::RunError;
pub use session::Session;

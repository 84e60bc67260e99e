//! The classes that a file of events or a cluster is run with: the built-in ones and tenants' own,
//! each read from the file of its image or text (`classes`), and the words that ask them
//! (`class_names`).
//! Each tenant's class is the one that its file holds, and safe; a failure says which is the
//! first that can't be had, and why (`specs/Classes.antt`).
#![tactic(auto)]

mod loading;
mod tenant_class;

pub use loading::{class_names, classes};
pub use tenant_class::{TENANT_LIMIT, TenantClass};

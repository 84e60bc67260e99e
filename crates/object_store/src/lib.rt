//! Objects in memory: data, xattrs and an omap, by name. `Objects` is a finite map from names to
//! the contents of the objects. Each of its reads and changes does as its definition says, or is
//! refused by the first refusal that applies; nothing has changed then. The same calls on one
//! object, absent or there, are in `calls`: a change makes a new object, which shares with the old
//! one all that it didn't touch. An object is always within its limits. `edit_all` makes several
//! edits of data or none, however the data is kept (`Data`).
#![tactic(auto)]

mod attributes;
pub mod calls;
mod data;
mod data_error;
mod edit;
mod extent;
mod extent_data;
mod extents;
mod flat_data;
mod held;
mod laws;
mod limits;
mod object;
mod object_name;
mod objects;
mod slices;
mod store_error;
mod stored_bytes;

pub use data::Data;
pub use data_error::DataError;
pub use edit::{DataEdit, edit_all};
pub use extent_data::ExtentData;
pub use flat_data::FlatData;
pub use laws::{
    changes_keep_the_form, changes_keep_the_limits, limits_by_number, reads_are_within,
};
pub use limits::{
    DATA_LIMIT, KEY_LIMIT, Limits, NAME_LIMIT, NameLimits, OBJECT_NAME_LIMIT, VALUE_LIMIT,
    XATTR_LIMIT,
};
pub use object::Object;
pub use object_name::ObjectName;
pub use objects::Objects;
pub use slices::part;
pub use store_error::StoreError;

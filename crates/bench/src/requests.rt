use anyhow::{Context, Result};
use object_store::ObjectName;
use pg_log::{ClientId, Request, RequestNumber, RequestParts};
use std::alloc::Global;

/// A client's request of that number, each 1 to 2^32 - 1, of class 0: `lock` of an object if the
/// number is odd, and else `unlock`.
pub fn lock_request(alloc: Global, client: u32, number: u32, object: &str) -> Result<Request> {
    let method = if number % 2 == 1 { "lock" } else { "unlock" };
    let client = ClientId::new(client).context("a client")?;
    let number = RequestNumber::new(number).context("a number")?;
    let object = ObjectName::new(alloc, object)?;
    let method = String::from_str(alloc, method)?;
    let parts = RequestParts {
        client,
        number,
        object,
        class: 0,
        method,
        input: Vec::new(alloc),
    };
    Ok(Request::new(alloc, parts)?)
}

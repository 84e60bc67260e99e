//! The values that rows are made of. None if memory is refused: the row is then made anew.

use bpf_asm::assemble_class;
use interp::ClassTable;
use object_store::ObjectName;
use pg_log::{ClientId, Request, RequestNumber, RequestParts};
use placement::NodeId;
use std::alloc::Global;
use verifier::{VerifiedClass, verify};

/// The class of a text, whose methods are safe.
pub fn class_of(alloc: Global, text: &str) -> Option<VerifiedClass> {
    let image = assemble_class(alloc, text).ok()?;
    verify(alloc, &image).ok()
}

/// The table of the class of a text.
pub fn table_of(alloc: Global, text: &str) -> Option<ClassTable> {
    let mut table = ClassTable::new(alloc);
    table.add(class_of(alloc, text)?).ok()?;
    Some(table)
}

/// Nodes by their numbers.
pub fn nodes_of(alloc: Global, numbers: &[u64]) -> Option<Vec<NodeId>> {
    let mut nodes = Vec::new(alloc);
    for number in numbers {
        nodes.push(NodeId::new(*number)).ok()?;
    }
    Some(nodes)
}

/// The names of objects.
pub fn names_of(alloc: Global, texts: &[&str]) -> Option<Vec<ObjectName>> {
    let mut names = Vec::new(alloc);
    for text in texts {
        names.push(ObjectName::new(alloc, text).ok()?).ok()?;
    }
    Some(names)
}

/// A client and its request's number, an object's name, a method and its input.
pub type Asked = (u32, u32, &'static str, &'static str, &'static [u8]);

/// A request of class 0.
pub fn request_of(alloc: Global, asked: &Asked) -> Option<Request> {
    let (client, number, object, method, input) = *asked;
    let client = ClientId::new(client)?;
    let number = RequestNumber::new(number)?;
    let object = ObjectName::new(alloc, object).ok()?;
    let method = String::from_str(alloc, method).ok()?;
    let input = Vec::from_slice(alloc, input).ok()?;
    let parts = RequestParts {
        client,
        number,
        object,
        class: 0,
        method,
        input,
    };
    Request::new(alloc, parts).ok()
}

/// A list of requests.
pub fn list_of(alloc: Global, asked: &[Asked]) -> Option<Vec<Request>> {
    let mut list = Vec::new(alloc);
    for one in asked {
        list.push(request_of(alloc, one)?).ok()?;
    }
    Some(list)
}

use crate::client_id::ClientId;
use crate::request_number::RequestNumber;
use object_store::ObjectName;

/// The parts of a request.
#[derive(Drop)]
pub struct RequestParts {
    /// The client that sent it.
    pub client: ClientId,
    /// The number that the client gave it.
    pub number: RequestNumber,
    /// The name of the object.
    pub object: ObjectName,
    /// The class, by its id in the table of classes.
    pub class: usize,
    /// The name of the method.
    pub method: String,
    /// The input.
    pub input: Vec<u8>,
}

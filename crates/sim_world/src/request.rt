//! Requests as a line's words spell them.
ghost use Rattle.std.specs.Prelude.{◌≡◌, IfOk, map};
ghost use Rattle.sim_world.specs.Lines.{ask_at, asks, ids_in, request_by, request_of};

use crate::line::Line;
use file_words::{bytes_in, class_of, id_in, number_in, object_in};
use pg_log::{ClientId, Request, RequestNumber, RequestParts};
use placement::NodeId;
use std::alloc::{AllocError, Global};

/// A client and a request's number.
fn ids_in(client: &str, number: &str) -> Option<(ClientId, RequestNumber)>
    ensures { result ≡ ids_in client.now number.now }
{
    let client = ClientId::new(id_in(client)?)?;
    let number = RequestNumber::new(id_in(number)?)?;
    Some((client, number))
}

/// The words of a request, in their order.
#[derive(Clone, Copy)]
struct RequestWords<'a> {
    client: &'a str,
    number: &'a str,
    object: &'a str,
    class: &'a str,
    method: &'a str,
    input: &'a str,
}

/// The request that those words spell. None if one is malformed.
fn request_by(
    alloc: Global,
    names: &[&str],
    words: &RequestWords<'_>,
) -> Result<Option<Request>, AllocError>
    ensures { IfOk result
        (λ r. r ≡ request_by (map (λ n. n.now) names.now)
        words.now.client.now words.now.number.now words.now.object.now words.now.class.now words.now.method.now
        words.now.input.now) }
{
    let Some((client, number)) = ids_in(words.client, words.number) else {
        return Ok(None);
    };
    let Some(object) = object_in(alloc, words.object)? else {
        return Ok(None);
    };
    let Some(input) = bytes_in(alloc, words.input)? else {
        return Ok(None);
    };
    let parts = RequestParts {
        client,
        number,
        object,
        class: class_of(names, words.class),
        method: String::from_str(alloc, words.method)?,
        input: input.into_items(),
    };
    match Request::new(alloc, parts) {
        Ok(request) => Ok(Some(request)),
        Err(_) => Err(AllocError),
    }
}

/// The request of the words after a node. None if they are more or less than six.
fn request_of(alloc: Global, names: &[&str], args: &[&str]) -> Result<Option<Request>, AllocError>
    ensures { IfOk result (λ r. r ≡ request_of (map (λ n. n.now) names.now) (map (λ w. w.now) args.now)) }
{
    match args {
        [client, number, object, class, method, input] => {
            let words = RequestWords {
                client,
                number,
                object,
                class,
                method,
                input,
            };
            request_by(alloc, names, &words)
        }
        _ => Ok(None),
    }
}

/// The line of a request that comes to a node.
fn ask_at(node: Option<u64>, request: Option<Request>) -> Line
    ensures { result ≡ ask_at node request }
{
    match node {
        Some(node) => match request {
            Some(request) => Line::Ask(NodeId::new(node), request),
            None => Line::Bad,
        },
        None => Line::Bad,
    }
}

/// The line of `req` with these words.
pub(crate) fn asks(alloc: Global, names: &[&str], args: &[&str]) -> Result<Line, AllocError>
    ensures { IfOk result (λ l. l ≡ asks (map (λ n. n.now) names.now) (map (λ w. w.now) args.now)) }
{
    match args {
        [node, rest @ ..] => {
            let request = request_of(alloc, names, rest)?;
            Ok(ask_at(number_in(*node), request))
        }
        [] => Ok(Line::Bad),
    }
}

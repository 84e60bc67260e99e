//! Clients' requests, and their answers.

use crate::hold::TURNS;
use crate::steps::Mail;
use group_cell::Post;
use object_store::ObjectName;
use osd::{ClusterName, Running, Sends};
use pg_log::{ClientId, Request, RequestNumber, RequestParts};
use std::alloc::Global;
use std::sync::Wait;
use std::thread::yield_now;

/// The parts of a request that tests choose.
#[derive(Clone, Copy)]
pub struct Asked {
    pub client: u32,
    pub number: u32,
    pub object: &'static str,
    pub class: usize,
}

/// The request of the method `lock`.
pub fn request(alloc: Global, asked: Asked) -> Option<Request> {
    let parts = RequestParts {
        client: ClientId::new(asked.client)?,
        number: RequestNumber::new(asked.number)?,
        object: ObjectName::new(alloc, asked.object).ok()?,
        class: asked.class,
        method: String::from_str(alloc, "lock").ok()?,
        input: Vec::new(alloc),
    };
    Request::new(alloc, parts).ok()
}

/// A client's request of the lock on an object.
pub fn lock(alloc: Global, client: u32, number: u32, object: &'static str) -> Option<Request> {
    let asked = Asked {
        client,
        number,
        object,
        class: 0,
    };
    request(alloc, asked)
}

/// The place and the code of the client's newest answer, if it is one to the request; `Some(None)`
/// if that is refused. It is out of the mailbox then.
pub fn look<N: ClusterName, R: Wait>(
    running: &Running<N, R>,
    request: &Request,
) -> Option<Option<(usize, i64)>> {
    let post = running.mail(request.client())?;
    if !post.answers(request) {
        return None;
    }
    Some(found(&post))
}

/// The place and the code of a reply.
fn found<N: ClusterName>(post: &Post<N>) -> Option<(usize, i64)> {
    match post {
        Post::Reply(reply) => Some((reply.place(), reply.code())),
        Post::Refused(_) => None,
    }
}

/// Waits for an answer to the request, as `look` finds it. None if that takes too long.
pub fn answer_to<N: ClusterName, R: Wait>(
    running: &Running<N, R>,
    request: &Request,
) -> Option<Option<(usize, i64)>> {
    for _ in 0..TURNS {
        let answer = look(running, request);
        if answer.is_some() {
            return answer;
        }
        yield_now();
    }
    None
}

/// The place and the code of a request that is sent again only once it is refused. So nothing of it
/// is under way afterwards.
pub fn call<N: ClusterName, R: Wait>(
    running: &Running<N, R>,
    sends: &mut Sends<N>,
    request: &Request,
) -> Option<(usize, i64)> {
    for _ in 0..TURNS {
        running.ask(sends, request).ok()?;
        if let Some(answer) = answer_to(running, request)? {
            return Some(answer);
        }
    }
    None
}

/// True if the mailbox of the request's client has what is wanted, and nothing else. A reply must
/// be one to the request.
pub fn is_mail<N: ClusterName, R: Wait>(
    running: &Running<N, R>,
    request: &Request,
    want: Mail,
) -> bool {
    let first = running.mail(request.client());
    is_newest(&first, request, want) && running.mail(request.client()).is_none()
}

fn is_newest<N: ClusterName>(newest: &Option<Post<N>>, request: &Request, want: Mail) -> bool {
    match (newest, want) {
        (_, Mail::Anything) => true,
        (None, Mail::Nothing) => true,
        (Some(Post::Refused(_)), Mail::Refusal) => true,
        (Some(Post::Reply(reply)), Mail::Reply(_)) => reply.request().is(request),
        _ => false,
    }
}

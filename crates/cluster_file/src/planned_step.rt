ghost use Rattle.std.specs.Prelude.{◌≡◌, IfOk, map};
ghost use Rattle.cluster_file.specs.Plan.{call_in, call_of, client_in, clients_after, step_in, step_of};

use crate::planned_call::PlannedCall;
use file_words::{Nodes, bytes_in, class_of, id_in, nodes_in, object_in, words};
use pg_log::ClientId;
use std::alloc::{AllocError, Global};

/// The limit on the clients that a file names.
pub(crate) const CLIENT_LIMIT: u32 = 64;

/// The step of a line after the first.
#[derive(Drop)]
pub enum PlannedStep {
    /// A client makes a call.
    Call(PlannedCall),
    /// A map is made of these up nodes, once all calls above have ended. The line's number, from 1,
    /// comes first, for the text of a refusal.
    Map(usize, Nodes),
}

/// A client: one of those named so far, or the next one, up to the 64th.
fn client_in(clients: u32, word: &str) -> Option<ClientId>
    ensures { result ≡ client_in clients word.now }
{
    let number = id_in(word)?;
    // In 64 bits, so that the sum can't overflow.
    if u64::from(number) <= u64::from(clients) + 1 && number <= CLIENT_LIMIT {
        ClientId::new(number)
    } else {
        None
    }
}

/// A call, by its client and the words that are left.
fn call_of(
    alloc: Global,
    names: &[&str],
    client: ClientId,
    args: &[&str],
) -> Result<Option<PlannedCall>, AllocError>
    ensures { IfOk result (λ c. c ≡ call_of (map (λ n. n.now) names.now) client (map (λ w. w.now) args.now)) }
{
    match args {
        [object, class, method, input] => {
            let Some(object) = object_in(alloc, *object)? else {
                return Ok(None);
            };
            let Some(input) = bytes_in(alloc, *input)? else {
                return Ok(None);
            };
            Ok(Some(PlannedCall {
                client,
                object,
                class: class_of(names, *class),
                word: String::from_str(alloc, *class)?,
                method: String::from_str(alloc, *method)?,
                input: input.into_items(),
            }))
        }
        _ => Ok(None),
    }
}

/// A call, by its words.
fn call_in(
    alloc: Global,
    names: &[&str],
    clients: u32,
    args: &[&str],
) -> Result<Option<PlannedCall>, AllocError>
    ensures { IfOk result (λ c. c ≡ call_in (map (λ n. n.now) names.now) clients (map (λ w. w.now) args.now)) }
{
    match args {
        [client, rest @ ..] => match client_in(clients, *client) {
            Some(client) => call_of(alloc, names, client, rest),
            None => Ok(None),
        },
        [] => Ok(None),
    }
}

/// The step of these words, if they are well-formed.
fn step_in(
    alloc: Global,
    names: &[&str],
    number: usize,
    clients: u32,
    words: &[&str],
) -> Result<Option<PlannedStep>, AllocError>
    ensures { IfOk result (λ s. s ≡ step_in (map (λ n. n.now) names.now) number clients (map (λ w. w.now) words.now)) }
{
    match words {
        [word, args @ ..] => {
            if *word == "client" {
                return match call_in(alloc, names, clients, args)? {
                    Some(call) => Ok(Some(PlannedStep::Call(call))),
                    None => Ok(None),
                };
            }
            if *word == "map" {
                return match nodes_in(alloc, args)? {
                    Some(nodes) => Ok(Some(PlannedStep::Map(number, nodes))),
                    None => Ok(None),
                };
            }
            Ok(None)
        }
        [] => Ok(None),
    }
}

/// The step of line `number`, if it is well-formed. The lines before it named `clients` clients.
pub(crate) fn read_step(
    alloc: Global,
    names: &[&str],
    number: usize,
    clients: u32,
    line: &str,
) -> Result<Option<PlannedStep>, AllocError>
    ensures { IfOk result (λ s. s ≡ step_of (map (λ n. n.now) names.now) number clients line.now) }
{
    let words = words(alloc, line)?;
    step_in(alloc, names, number, clients, &words)
}

impl PlannedStep {
    /// The number of clients named up to and including this step, if `clients` were named before.
    pub(crate) fn clients_after(&self, clients: u32) -> u32
        ensures { result ≡ clients_after clients self.now }
    {
        match self {
            PlannedStep::Call(call) => clients.max(call.client().get()),
            PlannedStep::Map(_, _) => clients,
        }
    }
}

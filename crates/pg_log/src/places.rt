ghost use Rattle.std.specs.Prelude.{◌≡◌, ◌<◌, ◌∷◌, ◌++◌, [], List, length, take, None, IsOk, IfOk, OnOk, OnErr};
ghost use Rattle.std.specs.Ordering.{nat_cmp};
ghost use Rattle.std.specs.BTreeMap as tree;
ghost use Rattle.pg_log.specs.Requests.{ClientRequest};
ghost use Rattle.pg_log.specs.Log.{NumbersRise};
ghost use Rattle.pg_log.specs.Refusals.{place_of, is_reached};
ghost use Rattle.pg_log.specs.Places.{ArePlaces, IsRising, place_in, reaches_in, kept_of, room_of, HasRoom, RoomStays};
ghost use Rattle.pg_log.specs.Entries.{requests_of};

use crate::client_id::ClientId;
use crate::entry::Entry;
use crate::request_number::RequestNumber;
use std::alloc::{AllocError, Global};
use std::collections::BTreeMap;

/// The places of the requests of a list by client: number and place of each, by rising numbers. A
/// question about a client costs a logarithm of the number of clients; about a number that isn't
/// its last, one of its requests too.
#[derive(Drop)]
pub(crate) struct Places {
    pub(crate) by_client: BTreeMap<u32, Vec<(u32, usize)>>,
}

impl Places {
    /// The places of the empty list.
    pub(crate) fn new(alloc: Global) -> Places
        ensures { ArePlaces result [] }
    {
        Places {
            by_client: BTreeMap::new(alloc),
        }
    }

    /// The place of the client's request of that number.
    pub(crate) fn place(&self, client: ClientId, number: RequestNumber) -> Option<usize>
        ensures { (list : List ClientRequest) → ArePlaces self.now list → NumbersRise list →
            result ≡ place_of client number list }
    {
        match self.by_client.get(&client.get()) {
            Some(requests) => find(requests, number.get()),
            None => None,
        }
    }

    /// True if the client has a request of that number or of a greater one.
    pub(crate) fn is_reached(&self, client: ClientId, number: RequestNumber) -> bool
        ensures { (list : List ClientRequest) → ArePlaces self.now list → NumbersRise list →
            result ≡ is_reached client number list }
    {
        match self.by_client.get(&client.get()) {
            Some(requests) => reaches(requests, number.get()),
            None => false,
        }
    }

    /// Adds the place of a request that follows the list.
    /// It needs no memory if the client has room.
    pub(crate) fn add(
        &mut self,
        alloc: Global,
        client: ClientId,
        number: RequestNumber,
        place: usize,
    ) -> Result<(), AllocError>
        ensures ok { OnOk result ((list : List ClientRequest) (r : ClientRequest) → ArePlaces self.old list
            → client ≡ r.client → number ≡ r.number → place ≡ length list → ArePlaces self.new (list ++ r ∷ [])) }
        ensures err { OnErr result ((list : List ClientRequest) → ArePlaces self.old list → ArePlaces self.new list) }
        ensures room { RoomStays self.old self.new }
        ensures succeeds { length (kept_of (tree.get nat_cmp self.old.by_client client)) < room_of
            (tree.get nat_cmp self.old.by_client client) → IsOk result }
    {
        let request = (number.get(), place);
        let key = client.get();
        match self.by_client.get_mut(&key) {
            Some(requests) => {
                requests.push(request)?;
                Ok(())
            }
            None => self.add_first(alloc, key, request),
        }
    }

    /// Adds the place of a request that follows the list, of a client that has none.
    fn add_first(
        &mut self,
        alloc: Global,
        key: u32,
        request: (u32, usize),
    ) -> Result<(), AllocError>
        requires { tree.get nat_cmp self.old.by_client key ≡ None }
        ensures ok { OnOk result ((list : List ClientRequest) (r : ClientRequest) → ArePlaces self.old list
            → key ≡ r.client → request.0 ≡ r.number → request.1 ≡ length list → ArePlaces self.new (list ++ r ∷ [])) }
        ensures err { OnErr result ((list : List ClientRequest) → ArePlaces self.old list → ArePlaces self.new list) }
        ensures room { RoomStays self.old self.new }
    {
        let requests = just(alloc, request)?;
        // The key is new (the requires), so there is no old value to use.
        let _ = self.by_client.insert(key, requests)?;
        Ok(())
    }

    /// Takes back the place of a list's last request.
    pub(crate) fn remove(&mut self, client: ClientId)
        ensures places { (list : List ClientRequest) (r : ClientRequest) → ArePlaces self.old (list ++ r ∷ []) →
            client ≡ r.client → ArePlaces self.new list }
        ensures room { RoomStays self.old self.new }
    {
        if let Some(requests) = self.by_client.get_mut(&client.get()) {
            // The list's last request is the last of its client's, since they were added in order.
            // A client's list that is empty then stays, with its room, for `give_back`.
            let _ = requests.pop();
        }
    }

    /// Takes back the places of a list's last requests, those of these entries.
    pub(crate) fn take_back(&mut self, entries: &[Entry])
        ensures places { (list : List ClientRequest) → ArePlaces self.old (list ++ requests_of entries.now) →
            ArePlaces self.new list }
        ensures room { RoomStays self.old self.new }
    {
        for back in 0..entries.len() {
            let entry = &entries[entries.len() - 1 - back];
            self.remove(entry.request.client());
        }
    }

    /// Adds the places of these entries from a place on, for which there is room.
    pub(crate) fn give_back(&mut self, alloc: Global, entries: &[Entry], at: usize)
        requires places { ArePlaces self.old (take at (requests_of entries.now)) }
        requires room { HasRoom self.old (requests_of entries.now) }
        ensures { ArePlaces self.new (requests_of entries.now) }
    {
        for place in at..entries.len() {
            let request = &entries[place].request;
            if self
                .add(alloc, request.client(), request.number(), place)
                .is_err()
            {
                unreachable!();
            }
        }
    }
}

/// The list of that request alone.
fn just(alloc: Global, request: (u32, usize)) -> Result<Vec<(u32, usize)>, AllocError>
    ensures { IfOk result (λ v. v.items ≡ request ∷ []) }
{
    let mut requests = Vec::new(alloc);
    requests.push(request)?;
    Ok(requests)
}

/// The place of a number. Above the last one it costs nothing.
fn find(requests: &[(u32, usize)], number: u32) -> Option<usize>
    ensures { IsRising requests.now → result ≡ place_in number requests.now }
{
    if !reaches(requests, number) {
        return None;
    }
    let at = requests.partition_point(|request| request.0 < number);
    let request = requests.get(at)?;
    if request.0 == number {
        Some(request.1)
    } else {
        None
    }
}

/// True if there is that number or a greater one. The last is the greatest, so it alone is
/// compared.
fn reaches(requests: &[(u32, usize)], number: u32) -> bool
    ensures { IsRising requests.now → result ≡ reaches_in number requests.now }
{
    match requests.last() {
        Some(last) => number <= last.0,
        None => false,
    }
}

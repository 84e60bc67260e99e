//! Lists without a beginning that the receiver has, and the least acknowledged length.
use super::requests::add_list;
use super::words::{halves, is_number, number_of, see};
use pg_log::{Request, Requests, are_same_requests, copy_requests};
use placement::{Epoch, NodeId};
use replication::{Ack, PackedLog, UnpackError, commit_point, pack_list, pack_log, unpack_log};
use std::alloc::Global;
use std::process::Abort;

/// The list that is packed, of three requests.
const LIST: &str = "1 1 a lock lock -; 2 1 a lock lock -; 1 2 a lock lock -";

/// The length that the receiver reported and the log that it has; then the number of requests left
/// out, the number packed, and the result of unpacking.
const ROWS: &str = "0 | 0 3 unpacked
1 1 1 a lock lock - | 1 2 unpacked
2 1 1 a lock lock -; 2 1 a lock lock -; 3 1 a lock lock - | 2 1 unpacked
9 1 1 a lock lock -; 2 1 a lock lock -; 1 2 a lock lock - | 3 0 unpacked
2 1 1 a lock lock - | 2 1 TooShort";

/// The list of a text.
fn list<R: Abort>(rt: &R, alloc: Global, text: &str) -> Vec<Request> {
    let mut list = Vec::new(alloc);
    add_list(rt, alloc, &mut list, text);
    list
}

/// True if unpacking gave the whole list, or the refusal of this name.
fn is_answer(answer: Result<Vec<Request>, UnpackError>, all: &[Request], wanted: &str) -> bool {
    match answer {
        Ok(found) => (wanted == "unpacked") & are_same_requests(&found, all),
        Err(error) => error == UnpackError::TooShort && wanted == "TooShort",
    }
}

/// True if a packed list is as the words say, and so is what a receiver with these requests unpacks.
fn is_right(
    alloc: Global,
    all: &[Request],
    own: &[Request],
    packed: &PackedLog,
    words: &str,
) -> bool {
    let (common, words) = halves(words, ' ');
    let (rest, wanted) = halves(words, ' ');
    is_number(common, packed.common() as u64)
        & is_number(rest, packed.rest().len() as u64)
        & is_answer(unpack_log(alloc, own, packed), all, wanted)
}

/// True if the list is packed and unpacked as the words say, both shared and not.
fn is_packed<R: Abort>(
    rt: &R,
    alloc: Global,
    all: &[Request],
    told: usize,
    own: &[Request],
    words: &str,
) -> bool {
    let packed = pack_log(alloc, all, told).expect(rt, "memory");
    let items = copy_requests(alloc, all).expect(rt, "memory");
    let shared = pack_list(Requests::new(alloc, items).expect(rt, "memory"), told);
    is_right(alloc, all, own, &packed, words) & is_right(alloc, all, own, &shared, words)
}

#[test]
fn lists_packed_and_unpacked(rt: HostRuntime) {
    let all = list(&rt, rt.alloc(), LIST);
    for line in ROWS.lines() {
        let (receiver, words) = halves(line, '|');
        let (told, own) = halves(receiver, ' ');
        let own = list(&rt, rt.alloc(), own);
        let told = number_of(&rt, told) as usize;
        let is_packed = is_packed(&rt, rt.alloc(), &all, told, &own, words);
        see(&rt, is_packed, line);
    }
}

/// True if the least of three members' acknowledged lengths is `least`.
fn is_least(lengths: [usize; 3], least: usize) -> bool {
    commit_point(&lengths) == least
}

#[test]
fn least_lengths(rt: HostRuntime) {
    assert!(rt; is_least([3, 3, 3], 3) && is_least([2, 5, 4], 2));
    assert!(rt; is_least([5, 4, 2], 2) && is_least([1, 0, 1], 0));
    let (epoch, sender) = (Epoch::new(2), NodeId::new(3));
    let ack = Ack {
        epoch,
        sender,
        length: 4,
    };
    assert!(rt; ack.epoch.get() == 2 && ack.sender.get() == 3 && ack.length == 4);
}

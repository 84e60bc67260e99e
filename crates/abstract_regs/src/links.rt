//! The links of all places of a frame, as a list: made empty, joined, and taken away.

ghost use Rattle.std.specs.Prelude.{◌≡◌, ◌≤◌, ◌&&◌, nat_lt, nat_le, IfOk, length, replicate};
ghost use Rattle.abstract_regs.specs.Link.{no_link, link_in, join_links, unlinked};

use crate::link::Link;
use std::alloc::{AllocError, Global};

/// `count` places without a link.
pub(crate) fn free(alloc: Global, count: usize) -> Result<Vec<Link>, AllocError>
    ensures { IfOk result (λ v. v.items ≡ replicate count no_link) }
{
    let mut links = Vec::with_capacity(alloc, count)?;
    for _ in 0..count {
        links.push(Link::none())?;
    }
    Ok(links)
}

/// The link of a place.
#[inline(always)]
pub(crate) fn link_in(links: &[Link], place: usize) -> Link
    ensures { result ≡ link_in links.now place }
{
    if place < links.len() {
        links[place]
    } else {
        Link::none()
    }
}

/// Joins links in place.
fn join_all(links: &mut [Link], others: &[Link])
    requires { length links.old ≤ length others.now }
    ensures { links.new ≡ join_links links.old others.now }
{
    for i in 0..links.len() {
        let link = links[i];
        links[i] = link.join(others[i]);
    }
}

/// Joins links in place.
pub(crate) fn join_links(links: &mut Vec<Link>, others: &[Link])
    ensures { links.new.items ≡ join_links links.old.items others.now }
{
    // For the proof: frames of a pass have equally many places, which the contract doesn't ask.
    links.truncate(others.len());
    join_all(links, others);
}

/// Takes the links of the places from `first` to before `end` away.
pub(crate) fn unlink(links: &mut [Link], first: usize, end: usize)
    ensures { links.new ≡ unlinked (λ place. nat_le first place && nat_lt place end) 0 links.old }
{
    for place in first..end.min(links.len()) {
        links[place] = Link::none();
    }
}

//! The text of what comes of a line.
ghost use Rattle.std.specs.Prelude.{◌≡◌, IfOk, IfSome, string_bytes};
ghost use Rattle.sim_world.specs.Texts.{again_lines, again_text, map_text, node_text, refused_text, said_text};
ghost use Rattle.sim_world.specs.Texts.{status_text};

use crate::taken::{MapMade, NodeShown, Taken};
use group_world::Status;
use std::alloc::{AllocError, Global};
use std::fmt::Display;

/// Why an event is refused.
fn refused_text<D: Display + Drop>(alloc: Global, why: D) -> Result<String, AllocError>
    ensures { IfOk result (λ t. IfSome (D.output why) (λ text. string_bytes t ≡ refused_text text)) }
{
    format!(in alloc; "refused {why}")
}

/// A new map.
fn map_text(alloc: Global, map: &MapMade) -> Result<String, AllocError>
    ensures { IfOk result (λ t. string_bytes t ≡ map_text map.now) }
{
    let (epoch, interval, prev) = (map.epoch.get(), map.interval.get(), map.prev.get());
    if epoch == interval {
        format!(in alloc; "map {epoch} prev {prev}")
    } else {
        format!(in alloc; "map {epoch} same {interval}")
    }
}

fn status_text(status: Status) -> &'static str
    ensures { result.now ≡ status_text status }
{
    match status {
        Status::Out => "out",
        Status::Waiting => "waiting",
        Status::Installed => "installed",
        Status::Asking => "asking",
        Status::Installing => "installing",
        Status::Active => "active",
    }
}

/// A node.
fn node_text(alloc: Global, shown: &NodeShown) -> Result<String, AllocError>
    ensures { IfOk result (λ t. string_bytes t ≡ node_text shown.now) }
{
    let (number, interval) = (shown.node.get(), shown.interval.get());
    let status = status_text(shown.status);
    let (length, committed) = (shown.length, shown.committed);
    format!(in alloc;
        "node {number} epoch {interval} {status} length {length} committed {committed}"
    )
}

/// The text of it in one line, without a line feed; empty for messages, and for a line that is bad
/// or says nothing. It fails for want of memory alone.
pub fn said_text(alloc: Global, taken: &Taken) -> Result<String, AllocError>
    ensures { IfOk result (λ t. string_bytes t ≡ said_text taken.now) }
{
    match taken {
        Taken::Bad => Ok(String::new(alloc)),
        Taken::Skipped => Ok(String::new(alloc)),
        Taken::Stopped => String::from_str(alloc, "stopped"),
        Taken::Sent(_) => Ok(String::new(alloc)),
        Taken::Refused(why) => refused_text(alloc, *why),
        Taken::MonitorRefused(why) => refused_text(alloc, *why),
        Taken::Made(map) => map_text(alloc, map),
        Taken::Shown(shown) => node_text(alloc, shown),
        Taken::Again(_) => Ok(String::new(alloc)),
    }
}

/// Messages that are sent again.
fn again_lines(alloc: Global, numbers: &[usize]) -> Result<String, AllocError>
    ensures { IfOk result (λ t. string_bytes t ≡ again_lines numbers.now) }
{
    let mut text = String::new(alloc);
    for number in numbers {
        let line = format!(in alloc; "again m{number}\n")?;
        text.push_str(line.as_str())?;
    }
    Ok(text)
}

/// Messages that are sent again, each in a line, or that there are none. It fails for want of
/// memory alone.
pub fn again_text(alloc: Global, numbers: &[usize]) -> Result<String, AllocError>
    ensures { IfOk result (λ t. string_bytes t ≡ again_text numbers.now) }
{
    if numbers.is_empty() {
        return String::from_str(alloc, "nothing\n");
    }
    again_lines(alloc, numbers)
}

//! The test that a list can be run, without running it.
ghost use Rattle.std.specs.Prelude.{◌≡◌, List, length, IfOk, IfErr};
ghost use Rattle.pg_log.specs.Requests.{ClientRequest};
ghost use Rattle.pg_log.specs.Log.{NumbersRise};
ghost use Rattle.pg_log.specs.Places.{ArePlaces};
ghost use Rattle.pg_log.specs.Refusals.{refusal, first_refusal};

use crate::class_test::class_refusal;
use crate::group::LOG_LIMIT;
use crate::log_error::LogError;
use crate::places::Places;
use crate::request::Request;
use interp::ClassTable;
use std::alloc::Global;

/// The refusal of a list that can't be run, as `replay` would refuse it: that of the first request
/// that can't follow those before it. It runs nothing, and costs a logarithm of the number of
/// clients for each request. It refuses by `NoMemory` alone.
pub fn list_refusal(
    alloc: Global,
    table: &ClassTable,
    list: &[Request],
) -> Result<Option<LogError>, LogError>
    ensures ok { IfOk result (λ why. why ≡ first_refusal table.now list.now) }
    ensures err { IfErr result (λ e. e ≡ LogError.NoMemory) }
{
    let mut places = Places::new(alloc);
    for place in 0..list.len() {
        let request = &list[place];
        let why = refusal_after(table, place, &places, request);
        if why.is_some() {
            return Ok(why);
        }
        places.add(alloc, request.client(), request.number(), place)?;
    }
    Ok(None)
}

/// The refusal of a request that can't follow a list that ends before a place, by the list's index.
fn refusal_after(
    table: &ClassTable,
    place: usize,
    places: &Places,
    request: &Request,
) -> Option<LogError>
    ensures { (list : List ClientRequest) → length list ≡ place → ArePlaces places.now list → NumbersRise list →
        result ≡ refusal table.now list request.now }
{
    if place >= LOG_LIMIT {
        return Some(LogError::LogFull);
    }
    if places.is_reached(request.client(), request.number()) {
        return Some(LogError::StaleNumber);
    }
    class_refusal(table, request)
}

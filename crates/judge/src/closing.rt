// Closing requests, one by one, with a cursor into the trace's file. A run is not written out.
ghost use Rattle.std.specs.Prelude.{◌+◌, ◌*◌, ◌≤◌, ◌<◌, ◌++◌, ◌≡◌, length};
ghost use Rattle.cursor.specs.Cursor.{requests_left};
ghost use Rattle.paging.specs.Refusals.{largest_k};
ghost use Rattle.judging.specs.Judging.{closing};
ghost use Rattle.judge.specs.inner.Fetches.{fetched_pages};
ghost use Rattle.judge.specs.inner.Places.{closing_of, Cursor, Sound};

use crate::buffer::Held;
use crate::fetches::settle;
use crate::place::{Files, Place};
use cursor::{Rest, next_request};

// The next `count` requests: what is left of the trace behind them, or none where more than k pages are held after one.
fn close(files: &Files<'_>, held: &mut Held, first: Rest, count: usize) -> Option<Rest>
    requires { (0 < first.from) × (count ≤ length (requests_left files.now.trace.now first).held) × (length held.old ≤ files.now.k) × (files.now.k ≤ largest_k) }
    ensures closes { closing_of files.now held.new result ≡ closing files.now.k count (requests_left files.now.trace.now first).held held.old }
    ensures rest { Cursor files.now held.new first result }
{
    let mut rest = first;
    for _done in 0..count {
        let request = next_request(files.trace, rest);
        if !held.add(files.k, request.page) {
            return None;
        }
        rest = request.left;
    }
    Some(rest)
}

// The same from a place on, whose request is open: its PFs join the pages held first.
pub(crate) fn close_open(
    files: &Files<'_>,
    held: &mut Held,
    place: Place,
    count: usize,
) -> Option<Rest>
    requires { Sound files.now held.old place × (0 < count) × (count ≤ length (requests_left files.now.trace.now place.rest).held) }
    ensures closes { closing_of files.now held.new result
        ≡ closing files.now.k count (requests_left files.now.trace.now place.rest).held (held.old ++ fetched_pages files.now.schedule.now place.from place.fetches) }
    ensures rest { Cursor files.now held.new place.rest result }
{
    if place.fetches > files.k - held.len() {
        return None;
    }
    settle(files.schedule, place.from, place.fetches, held);
    close(files, held, place.rest, count)
}

// Marking over a whole trace: requests served one after the other from the empty buffer, with no check of the state.
ghost use Rattle.std.specs.Prelude.{◌≡◌, length, replicate};
ghost use Rattle.paging.specs.Numbers.{refusal_of};
ghost use Rattle.mark.specs.Traces.{all_zero, early_refusal, table_with};
ghost use Rattle.mark.specs.inner.Over.{TraceReady, ServedOver};

use crate::serving::{Point, TablePoint};
use crate::{MarkRun, serving};
use paging::{Refusal, Sizes, Totals};

// Whether every place holds zero. The whole list is looked at, several places at once.
fn all_zero(list: &[u32]) -> bool
    ensures { result ≡ all_zero list.now }
{
    let mut used = false;
    for value in list {
        used |= *value != 0;
    }
    !used
}

// The refusals that are judged before the first request, in order: 1, 2, 3, 8, 9.
pub(crate) fn check(
    k: u32,
    a: u32,
    trace: &[u32],
    pages: &[u32],
    numbers: &[u32],
    times: &[u32],
) -> Result<(), Refusal>
    ensures { refusal_of result ≡ early_refusal k a trace.now (table_with pages.now numbers.now times.now) 0 }
{
    Sizes { k, a }.check_trace(trace)?;
    if numbers.len() != pages.len() || times.len() != pages.len() {
        return Err(Refusal::TooLittleRoom);
    }
    if !all_zero(pages) || !all_zero(numbers) || !all_zero(times) {
        return Err(Refusal::IllFormed);
    }
    Ok(())
}

// The requests of a trace on a table that is all unused, with the buffer beside it. It stops at the first request after which there would be too many pages.
fn serve_buffered(
    k: u32,
    a: u32,
    trace: &[u32],
    pages: &mut [u32],
    numbers: &mut [u32],
    times: &mut [u32],
) -> Option<Totals>
    requires { TraceReady k a trace.now (table_with pages.old numbers.old times.old) }
    ensures { ServedOver k a trace.now (table_with pages.old numbers.old times.old)
        (table_with pages.new numbers.new times.new) result }
{
    let mut cache = [0u32; MarkRun::K_MAX as usize];
    let mut marks = [0u32; MarkRun::K_MAX as usize];
    let mut priorities = [0u64; MarkRun::K_MAX as usize];
    let mut evicted = [0u32; MarkRun::K_MAX as usize];
    let table = TablePoint {
        s: 0,
        t: 0,
        revealed: 0,
        used: 0,
    };
    let mut point = Point { table, count: 0 };
    let mut bundles = 0;
    let mut loads = 0;
    for page in trace {
        let stepped = serving::step(
            k,
            a,
            point,
            *page,
            &mut cache,
            &mut marks,
            &mut priorities,
            &mut evicted,
            pages,
            numbers,
            times,
        )?;
        bundles += stepped.outcome.bundles();
        loads += stepped.outcome.loads();
        point = stepped.after;
    }
    Some(Totals { bundles, loads })
}

// The same where a = k. A bundle then takes all k pages, so that the cached pages are those that have a row in the table: no buffer is kept, and the layers'
// rule says what a request is.
fn serve_whole_bundles(
    k: u32,
    trace: &[u32],
    pages: &mut [u32],
    numbers: &mut [u32],
    times: &mut [u32],
) -> Option<Totals>
    requires { TraceReady k k trace.now (table_with pages.old numbers.old times.old) }
    ensures { ServedOver k k trace.now (table_with pages.old numbers.old times.old)
        (table_with pages.new numbers.new times.new) result }
{
    let mut point = TablePoint {
        s: 0,
        t: 0,
        revealed: 0,
        used: 0,
    };
    let mut bundles = 0;
    let mut loads = 0;
    for page in trace {
        let moved = serving::advance(k, k, point, *page, pages, numbers, times)?;
        let outcome = serving::whole_outcome(moved.rule);
        bundles += outcome.bundles();
        loads += outcome.loads();
        point = moved.after;
    }
    Some(Totals { bundles, loads })
}

// Serves a trace on a table that is all unused.
pub(crate) fn serve_all(
    k: u32,
    a: u32,
    trace: &[u32],
    pages: &mut [u32],
    numbers: &mut [u32],
    times: &mut [u32],
) -> Option<Totals>
    requires { TraceReady k a trace.now (table_with pages.old numbers.old times.old) }
    ensures { ServedOver k a trace.now (table_with pages.old numbers.old times.old)
        (table_with pages.new numbers.new times.new) result }
{
    if a == k {
        return serve_whole_bundles(k, trace, pages, numbers, times);
    }
    serve_buffered(k, a, trace, pages, numbers, times)
}

// The whole table unused again.
pub(crate) fn clear(pages: &mut [u32], numbers: &mut [u32], times: &mut [u32])
    ensures { (pages.new ≡ replicate (length pages.old) 0) × (numbers.new ≡ replicate (length numbers.old) 0)
        × (times.new ≡ replicate (length times.old) 0) }
{
    pages.fill(0);
    numbers.fill(0);
    times.fill(0);
}

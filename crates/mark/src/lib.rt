// Marking with priorities RDM beside the layers (document 02, request 09; source document 001, Algorithm 1), one request at a time on a record by value and
// seven lent lists, and over a whole trace. The definitions are in specs/, the model behind them in the crate marking.
#![tactic(auto)]

ghost use Rattle.std.specs.Prelude.{◌≡◌};
ghost use Rattle.mark.specs.Calls.{empty_run, Answered};
ghost use Rattle.mark.specs.Lent.{lent};
ghost use Rattle.mark.specs.Traces.{table_with, OverTrace};

use crate::refusing::LentLists;
use crate::serving::{Point, TablePoint};
use layers::LayersRun;
use paging::{Outcome, Refusal, Sizes, Totals};

mod refusing;
mod serving;
mod trace;

// The record: the sizes, the requests, loads and bundles counted, the time t, and the layers' record.
#[derive(Clone, Copy, Debug, PartialEq, Eq)]
pub struct MarkRun {
    pub k: u32,
    pub a: u32,
    pub requests: u32,
    pub loads: u32,
    pub evictions: u32,
    pub t: u32,
    pub layers: LayersRun,
}

impl MarkRun {
    // The largest k.
    pub const K_MAX: u32 = Sizes::K_MAX;

    // At this many requests a further one is refused (12).
    pub const COUNTER_MAX: u32 = paging::COUNTER_MAX;

    // The empty start: no page is cached, and the layer table is all unused, of any size, with zeros beside it.
    pub fn empty(k: u32, a: u32) -> MarkRun
        ensures { result ≡ empty_run k a }
    {
        let layers = LayersRun::empty(k, a);
        MarkRun {
            k,
            a,
            requests: 0,
            loads: 0,
            evictions: 0,
            t: 0,
            layers,
        }
    }
}

// What an accepted request answers: the new record and count, and what the request did.
#[derive(Clone, Copy, Debug, PartialEq, Eq)]
pub struct MarkReply {
    pub run: MarkRun,
    pub count: u32,
    pub outcome: Outcome,
}

// One request. The first `count` places of the first three lists are the cached pages, by page rising, with their marks and priorities; the evicted list
// receives a bundle; the last three are the layer table with t0 beside it.
pub fn request(
    run: MarkRun,
    count: u32,
    cache: &mut [u32],
    marks: &mut [u32],
    priorities: &mut [u64],
    evicted: &mut [u32],
    pages: &mut [u32],
    numbers: &mut [u32],
    times: &mut [u32],
    page: u32,
) -> Result<MarkReply, Refusal>
    ensures { Answered run count
        (lent cache.old marks.old priorities.old evicted.old
        pages.old numbers.old times.old) page result
        (lent cache.new marks.new priorities.new evicted.new
        pages.new numbers.new times.new) }
{
    let lists = LentLists {
        cache,
        marks,
        priorities,
        evicted,
        pages,
        numbers,
        times,
    };
    let revealed = refusing::judge(run, count, lists)?;
    let table = TablePoint {
        s: run.layers.s,
        t: run.t,
        revealed: revealed as usize,
        used: lists::find(numbers, 0),
    };
    let point = Point {
        table,
        count: count as usize,
    };
    let Some(stepped) = serving::step(
        run.k, run.a, point, page, cache, marks, priorities, evicted, pages, numbers, times,
    ) else {
        return Err(Refusal::TableFull);
    };
    Ok(serving::answered(run, stepped))
}

// Marking over a whole trace, into a layer table that is all unused, with t0 beside it. No request is checked: the state is proved to stay as it must.
pub fn over_trace(
    k: u32,
    a: u32,
    trace: &[u32],
    pages: &mut [u32],
    numbers: &mut [u32],
    times: &mut [u32],
) -> Result<Totals, Refusal>
    ensures { OverTrace k a trace.now (table_with pages.old numbers.old times.old) result
        (table_with pages.new numbers.new times.new) }
{
    trace::check(k, a, trace, pages, numbers, times)?;
    let Some(totals) = trace::serve_all(k, a, trace, pages, numbers, times) else {
        trace::clear(pages, numbers, times);
        return Err(Refusal::TableFull);
    };
    Ok(totals)
}

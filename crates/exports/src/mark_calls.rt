// Marking with priorities RDM beside the layers, one request at a time and over a whole trace. The record is handed over by its fields, and so is the
// layers' record in it.
ghost use Rattle.std.specs.Prelude.{◌≡◌};
ghost use Rattle.lists.specs.Places.{pasted};
ghost use Rattle.mark.specs.Calls.{mark_reply_answer, reply_of, lent_after};
ghost use Rattle.mark.specs.Lent.{lent};
ghost use Rattle.mark.specs.Traces.{table_with, totals_of, table_over};
ghost use Rattle.exports.specs.Records.{layers_run, mark_run};
ghost use Rattle.exports.specs.Fields.{mark_reply_fields, mark_totals_fields};

use crate::queue_fields::totals_fields;
use crate::store::refused;
use layers::LayersRun;
use lists::moves::copy;
use mark::{MarkReply, MarkRun};
use paging::Refusal;

// A request: refusal, the record's k, a, requests, loads, evictions and t, the layers' k, a, requests, evictions, s and three counts, then the number of
// cached pages, and 0 for a hit, 1 for a load, 2 for a load after a bundle.
#[unsafe(no_mangle)]
pub extern "C" fn mark_request(
    k: u32,
    a: u32,
    requests: u32,
    loads: u32,
    evictions: u32,
    t: u32,
    layers_k: u32,
    layers_a: u32,
    layers_requests: u32,
    layers_evictions: u32,
    s: u32,
    appends: u32,
    joins: u32,
    lifts: u32,
    count: u32,
    cache: &mut [u32],
    marks: &mut [u32],
    priorities: &mut [u64],
    evicted: &mut [u32],
    pages: &mut [u32],
    numbers: &mut [u32],
    times: &mut [u32],
    page: u32,
    out: &mut [u64],
)
    ensures { let run = mark_run k a requests loads evictions t (layers_run layers_k layers_a layers_requests layers_evictions s appends joins lifts) in
        let before = lent cache.old marks.old priorities.old evicted.old
        pages.old numbers.old times.old in
        let left = lent cache.new marks.new priorities.new evicted.new
        pages.new numbers.new times.new in
        (out.new ≡ pasted (mark_reply_fields (reply_of run count before page)) out.old)
        × (left ≡ lent_after run count before page) }
{
    let layers = LayersRun {
        k: layers_k,
        a: layers_a,
        requests: layers_requests,
        evictions: layers_evictions,
        s,
        appends,
        joins,
        lifts,
    };
    let run = MarkRun {
        k,
        a,
        requests,
        loads,
        evictions,
        t,
        layers,
    };
    let reply = mark::request(
        run, count, cache, marks, priorities, evicted, pages, numbers, times, page,
    );
    let all = reply_fields(reply);
    copy(&all, out);
}

fn reply_fields(reply: Result<MarkReply, Refusal>) -> [u64; 17]
    ensures { result ≡ mark_reply_fields (mark_reply_answer reply) }
{
    match reply {
        Ok(
            MarkReply {
                run,
                count,
                outcome,
            },
        ) => [
            0,
            u64::from(run.k),
            u64::from(run.a),
            u64::from(run.requests),
            u64::from(run.loads),
            u64::from(run.evictions),
            u64::from(run.t),
            u64::from(run.layers.k),
            u64::from(run.layers.a),
            u64::from(run.layers.requests),
            u64::from(run.layers.evictions),
            u64::from(run.layers.s),
            u64::from(run.layers.appends),
            u64::from(run.layers.joins),
            u64::from(run.layers.lifts),
            u64::from(count),
            u64::from(outcome.number()),
        ],
        Err(reason) => refused(reason),
    }
}

// A whole trace, into a layer table that is all unused, with t0 beside it: refusal, bundles, loads.
#[unsafe(no_mangle)]
pub extern "C" fn mark_over_trace(
    k: u32,
    a: u32,
    trace: &[u32],
    pages: &mut [u32],
    numbers: &mut [u32],
    times: &mut [u32],
    out: &mut [u64],
)
    ensures { let before = table_with pages.old numbers.old times.old in
        let left = table_with pages.new numbers.new times.new in
        (out.new ≡ pasted (mark_totals_fields (totals_of k a trace.now before)) out.old)
        × (left ≡ table_over k a trace.now before) }
{
    let all = totals_fields(mark::over_trace(k, a, trace, pages, numbers, times));
    copy(&all, out);
}

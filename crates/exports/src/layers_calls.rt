// The layers, one request at a time, their questions, and over a whole trace. The record is handed over by its fields.
ghost use Rattle.std.specs.Prelude.{◌≡◌};
ghost use Rattle.lists.specs.Places.{pasted};
ghost use Rattle.layers.specs.Calls.{layers_reply_answer, request_reply, pages_next, numbers_next};
ghost use Rattle.layers.specs.Questions.{revealed_answer, revealed_reply, verdict};
ghost use Rattle.layers.specs.Traces.{layers_totals_answer, trace_totals, pages_over, numbers_over};
ghost use Rattle.exports.specs.Records.{layers_run};
ghost use Rattle.exports.specs.Fields.{layers_reply_fields, revealed_fields, layers_totals_fields};
ghost use Rattle.exports.specs.Cases.{verdict_fields, possible_fields};

use crate::store::refused;
use layers::{LayersReply, LayersRun, LayersTotals, PossibleAnswer};
use lists::moves::copy;
use paging::Refusal;

// A request: refusal, the record's k, a, requests, evictions, s and three counts, then the rule that applied.
#[unsafe(no_mangle)]
pub extern "C" fn layers_request(
    k: u32,
    a: u32,
    requests: u32,
    evictions: u32,
    s: u32,
    appends: u32,
    joins: u32,
    lifts: u32,
    pages: &mut [u32],
    numbers: &mut [u32],
    page: u32,
    out: &mut [u64],
)
    ensures { (out.new
        ≡ pasted (layers_reply_fields (request_reply (layers_run k a requests evictions s appends joins lifts) pages.old numbers.old page)) out.old)
        × (pages.new ≡ pages_next (layers_run k a requests evictions s appends joins lifts) pages.old numbers.old page)
        × (numbers.new ≡ numbers_next (layers_run k a requests evictions s appends joins lifts) pages.old numbers.old page) }
{
    let run = LayersRun {
        k,
        a,
        requests,
        evictions,
        s,
        appends,
        joins,
        lifts,
    };
    let all = reply_fields(layers::request(run, pages, numbers, page));
    copy(&all, out);
}

fn reply_fields(reply: Result<LayersReply, Refusal>) -> [u64; 10]
    ensures { result ≡ layers_reply_fields (layers_reply_answer reply) }
{
    match reply {
        Ok(LayersReply { run, rule }) => [
            0,
            u64::from(run.k),
            u64::from(run.a),
            u64::from(run.requests),
            u64::from(run.evictions),
            u64::from(run.s),
            u64::from(run.appends),
            u64::from(run.joins),
            u64::from(run.lifts),
            u64::from(rule.number()),
        ],
        Err(reason) => refused(reason),
    }
}

// How many pages are revealed: refusal, count.
#[unsafe(no_mangle)]
pub extern "C" fn layers_revealed(
    k: u32,
    a: u32,
    requests: u32,
    evictions: u32,
    s: u32,
    appends: u32,
    joins: u32,
    lifts: u32,
    pages: &[u32],
    numbers: &[u32],
    out: &mut [u64],
)
    ensures { out.new
        ≡ pasted (revealed_fields (revealed_reply (layers_run k a requests evictions s appends joins lifts) pages.now numbers.now)) out.old }
{
    let run = LayersRun {
        k,
        a,
        requests,
        evictions,
        s,
        appends,
        joins,
        lifts,
    };
    let all = revealed_fields(layers::revealed(run, pages, numbers));
    copy(&all, out);
}

fn revealed_fields(shown: Result<u32, Refusal>) -> [u64; 2]
    ensures { result ≡ revealed_fields (revealed_answer shown) }
{
    match shown {
        Ok(count) => [0, u64::from(count)],
        Err(reason) => refused(reason),
    }
}

// Whether a set is possible: the case of the answer, and what it holds.
#[unsafe(no_mangle)]
pub extern "C" fn layers_possible(
    k: u32,
    a: u32,
    requests: u32,
    evictions: u32,
    s: u32,
    appends: u32,
    joins: u32,
    lifts: u32,
    pages: &[u32],
    numbers: &[u32],
    set: &[u32],
    out: &mut [u64],
)
    ensures { out.new
        ≡ pasted (verdict_fields (verdict (layers_run k a requests evictions s appends joins lifts) pages.now numbers.now set.now)) out.old }
{
    let run = LayersRun {
        k,
        a,
        requests,
        evictions,
        s,
        appends,
        joins,
        lifts,
    };
    let all = possible_fields(layers::possible(run, pages, numbers, set));
    copy(&all, out);
}

fn possible_fields(answer: Result<PossibleAnswer, Refusal>) -> [u64; 2]
    ensures { result ≡ possible_fields answer }
{
    match answer {
        Ok(PossibleAnswer::Yes) => [1, 0],
        Ok(PossibleAnswer::CountDiffers) => [2, 0],
        Ok(PossibleAnswer::BrokenAt(i)) => [3, u64::from(i)],
        Err(reason) => [0, u64::from(reason.number())],
    }
}

// A whole trace, into a table that is all unused: refusal, bundles, s, revealed pages.
#[unsafe(no_mangle)]
pub extern "C" fn layers_over_trace(
    k: u32,
    a: u32,
    trace: &[u32],
    pages: &mut [u32],
    numbers: &mut [u32],
    out: &mut [u64],
)
    ensures { (out.new
        ≡ pasted (layers_totals_fields (trace_totals k a trace.now pages.old numbers.old)) out.old)
        × (pages.new ≡ pages_over k a trace.now pages.old numbers.old)
        × (numbers.new ≡ numbers_over k a trace.now pages.old numbers.old) }
{
    let all = totals_fields(layers::over_trace(k, a, trace, pages, numbers));
    copy(&all, out);
}

fn totals_fields(totals: Result<LayersTotals, Refusal>) -> [u64; 4]
    ensures { result ≡ layers_totals_fields (layers_totals_answer totals) }
{
    match totals {
        Ok(
            LayersTotals {
                bundles,
                s,
                revealed,
            },
        ) => [0, u64::from(bundles), u64::from(s), u64::from(revealed)],
        Err(reason) => refused(reason),
    }
}

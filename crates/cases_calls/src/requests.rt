// Single requests and questions: the numbers of the record, then the lists lent.
use cases_rows::row::Numbers;
use cases_rows::show;
use layers::{LayersRun, PossibleAnswer};
use paging::Refusal;
use queue::{Reply, Run};

// An LRU request: the record, count, page; the cache and the evicted list.
pub(crate) fn lru(rt: &impl Print, n: Numbers, cache: &mut [u32], evicted: &mut [u32]) {
    answered(
        rt,
        least_recent::request(run(n), n[5], cache, evicted, n[6]),
    );
}

// An oldest load request: the same.
pub(crate) fn fifo(rt: &impl Print, n: Numbers, cache: &mut [u32], evicted: &mut [u32]) {
    answered(rt, fifo::request(run(n), n[5], cache, evicted, n[6]));
}

// A preview of an LRU request: the same. It prints the answer, then of the reply's record the requests, loads and evictions, and the count.
pub(crate) fn lru_preview(rt: &impl Print, n: Numbers, cache: &[u32], evicted: &mut [u32]) {
    previewed(
        rt,
        least_recent::preview(run(n), n[5], cache, evicted, n[6]),
    );
}

// A preview of an oldest load request: the same.
pub(crate) fn fifo_preview(rt: &impl Print, n: Numbers, cache: &[u32], evicted: &mut [u32]) {
    previewed(rt, fifo::preview(run(n), n[5], cache, evicted, n[6]));
}

fn previewed(rt: &impl Print, reply: Result<Reply, Refusal>) {
    show::answer(
        rt,
        reply.map(|r| {
            [
                r.outcome.number(),
                r.run.requests,
                r.run.loads,
                r.run.evictions,
                r.count,
            ]
        }),
    );
}

// Their record: k, a, requests, loads, evictions.
fn run(n: Numbers) -> Run {
    Run {
        k: n[0],
        a: n[1],
        requests: n[2],
        loads: n[3],
        evictions: n[4],
    }
}

pub(crate) fn answered(rt: &impl Print, reply: Result<Reply, Refusal>) {
    show::answer(rt, reply.map(|r| [r.outcome.number()]));
}

// The layers' record: k, a, requests, evictions, s, and the counts of the three rules.
fn record(n: Numbers) -> LayersRun {
    LayersRun {
        k: n[0],
        a: n[1],
        requests: n[2],
        evictions: n[3],
        s: n[4],
        appends: n[5],
        joins: n[6],
        lifts: n[7],
    }
}

// A layers request: the record and the page; the table's pages and numbers. The answer is the rule that applied, then s and the counts after it.
pub(crate) fn table(rt: &impl Print, n: Numbers, pages: &mut [u32], numbers: &mut [u32]) {
    let reply = layers::request(record(n), pages, numbers, n[8]);
    show::answer(
        rt,
        reply.map(|r| {
            [
                r.rule.number(),
                r.run.s,
                r.run.appends,
                r.run.joins,
                r.run.lifts,
            ]
        }),
    );
}

pub(crate) fn revealed(rt: &impl Print, n: Numbers, pages: &[u32], numbers: &[u32]) {
    let answer = layers::revealed(record(n), pages, numbers);
    show::answer(rt, answer.map(|count| [count]));
}

pub(crate) fn possible(rt: &impl Print, n: Numbers, pages: &[u32], numbers: &[u32], set: &[u32]) {
    match layers::possible(record(n), pages, numbers, set) {
        Ok(PossibleAnswer::Yes) => show::text(rt, b" possible"),
        Ok(PossibleAnswer::CountDiffers) => show::text(rt, b" count differs"),
        Ok(PossibleAnswer::BrokenAt(layer)) => {
            show::text(rt, b" breaks at layer");
            show::figure(rt, layer);
        }
        Err(reason) => show::figure(rt, reason),
    }
}

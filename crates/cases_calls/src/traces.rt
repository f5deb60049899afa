// Whole traces: the numbers k and a, then the trace's pages and the lists lent.
use crate::requests;
use cases_rows::row::Numbers;
use cases_rows::show;
use layers::LayersRun;
use queue::Run;

pub(crate) fn min(rt: &impl Print, n: Numbers, trace: &[u32]) {
    show::answer(
        rt,
        min::count(n[0], n[1], trace).map(|r| [r.bundles, r.loads]),
    );
}

pub(crate) fn lru(rt: &impl Print, n: Numbers, trace: &[u32]) {
    show::answer(
        rt,
        least_recent::over_trace(n[0], n[1], trace).map(|r| [r.bundles, r.loads]),
    );
}

pub(crate) fn fifo(rt: &impl Print, n: Numbers, trace: &[u32]) {
    show::answer(
        rt,
        fifo::over_trace(n[0], n[1], trace).map(|r| [r.bundles, r.loads]),
    );
}

pub(crate) fn layers(
    rt: &impl Print,
    n: Numbers,
    trace: &[u32],
    pages: &mut [u32],
    numbers: &mut [u32],
) {
    let totals = layers::over_trace(n[0], n[1], trace, pages, numbers);
    show::answer(rt, totals.map(|r| [r.bundles, r.s, r.revealed]));
}

// LRU's answers to one request after the other, from the empty start. Behind a refused one the record is that of no sizes, so that each is refused.
pub(crate) fn steps(
    rt: &impl Print,
    n: Numbers,
    trace: &[u32],
    cache: &mut [u32],
    evicted: &mut [u32],
) {
    let mut run = Run::empty(n[0], n[1]);
    let mut count = 0;
    for page in trace {
        let reply = least_recent::request(run, count, cache, evicted, *page);
        requests::answered(rt, reply);
        (run, count) = match reply {
            Ok(served) => (served.run, served.count),
            Err(_) => (Run::empty(0, 0), 0),
        };
    }
}

// The layers' answers to one request after the other, from the empty record on; then the record's counts of the three rules. Behind a refused one the
// record is that of no sizes, so that each is refused.
pub(crate) fn rules(
    rt: &impl Print,
    n: Numbers,
    trace: &[u32],
    pages: &mut [u32],
    numbers: &mut [u32],
) {
    let mut run = LayersRun::empty(n[0], n[1]);
    for page in trace {
        let reply = layers::request(run, pages, numbers, *page);
        show::answer(rt, reply.map(|served| [served.rule.number()]));
        run = match reply {
            Ok(served) => served.run,
            Err(_) => LayersRun::empty(0, 0),
        };
    }
    show::list(rt, &[run.appends, run.joins, run.lifts]);
}

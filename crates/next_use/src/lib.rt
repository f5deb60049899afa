// How near each page's next request is, for all requests of a trace: in linear time, whatever its pages are.
#![tactic(auto)]

ghost use Rattle.std.specs.Prelude.{◌≤◌, ◌+◌, ◌≡◌, length, take};
ghost use Rattle.paging.specs.Refusals.{longest_trace};
ghost use Rattle.next_use.specs.Chains.{told_of, Chained, LeftsFilled, Unchained, Walkable};
ghost use Rattle.next_use.specs.Left.{lefts_of};

use paging::Sizes;

// The values of the low half of a page, and of its high half: 16 bits each.
const HALVES: usize = 65536;

// The places of `before`: some more than requests, since whoever lends `lefts` has just as many. Two lists a multiple of a page of memory apart make
// each read of the one wait for the write to the other at the same place.
const BEFORE: usize = Sizes::TRACE_MAX + 32;

// Chains the requests by the low half of their pages: heads has one more than the last request of each chain, before for each request
// one more than the one before it.
fn chain(trace: &[u32], heads: &mut [u32; HALVES], before: &mut [u32; BEFORE])
    requires { Unchained trace.now heads.old }
    ensures { Chained (length trace.now) trace.now heads.new before.new }
{
    for (t, &page) in trace.iter().enumerate() {
        let low = page as usize % HALVES;
        before[t] = heads[low];
        heads[low] = (t + 1) as u32;
    }
}

// near, where the near-th request from the end is for this page, else 0, which in a list of lefts says that there is none: keys are made of these numbers.
#[tactic(auto, using(crate::proofs::Chains::told_rules))]
fn told(trace: &[u32], near: u32, page: u32) -> u32
    requires { near ≤ length trace.now }
    ensures { result ≡ told_of trace.now near page }
{
    if near == 0 {
        return 0;
    }
    if trace[trace.len() - near as usize] == page {
        return near;
    }
    0
}

// Walks the chain of the low half c from its end. `seen` has, by the high half of a page, how near the request seen last is.
fn walk(
    trace: &[u32],
    heads: &[u32; HALVES],
    before: &[u32; BEFORE],
    c: usize,
    seen: &mut [u32; HALVES],
    lefts: &mut [u32],
)
    requires { Walkable c trace.now heads.now before.now seen.old lefts.old }
    ensures { LeftsFilled (c + 1) trace.now seen.new lefts.new }
{
    // Along a chain: where the walk goes on stands in `before`, so no list gives the requests in this order.
    let mut s = heads[c];
    while s > 0 {
        let t = (s - 1) as usize;
        let page = trace[t];
        let high = page as usize / HALVES;
        lefts[t] = told(trace, seen[high], page);
        seen[high] = (trace.len() - t) as u32;
        s = before[t];
    }
}

// Entry t is how near the next request of request t's page is.
pub fn fill_lefts(trace: &[u32], lefts: &mut [u32])
    requires { (length trace.now ≤ longest_trace) × (length trace.now ≤ length lefts.old) }
    ensures { take (length trace.now) lefts.new ≡ lefts_of trace.now }
{
    let mut heads = [0u32; HALVES];
    let mut before = [0u32; BEFORE];
    let mut seen = [0u32; HALVES];
    chain(trace, &mut heads, &mut before);
    for c in 0..HALVES {
        walk(trace, &heads, &before, c, &mut seen, lefts);
    }
}

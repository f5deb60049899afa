// Serving one request: what it finds is decided first, then the lists are written and the answer is told. No check here: whoever calls keeps the
// state ready.
ghost use Rattle.std.specs.Prelude.{◌-◌, ◌≤◌, ◌<◌, ◌≡◌, length, take};
ghost use Rattle.lists.specs.Places.{moved_to_end, laid};
ghost use Rattle.queue.specs.Answers.{accepted};
ghost use Rattle.queue.specs.Serving.{counted_run, cache_served, evicted_served, reply_served};
ghost use Rattle.queue.specs.Standing.{run_over};
ghost use Rattle.queue.specs.inner.Cases.{found_in, loaded, reply_for, evicted_for, moved_from, cache_for};
ghost use Rattle.queue.specs.inner.Ready.{RequestReady, AnswerReady, SettleReady, CountersFit, TraceReady};

use crate::{Reply, Run};
use paging::{Keeping, Outcome};

// What a request finds: the page at a place of the pages held, or absent with room for it, or absent with k pages held.
#[derive(Clone, Copy, Debug, PartialEq, Eq)]
pub enum Found {
    Held(usize),
    Room,
    Full,
}

// One request on a state that is ready for it: what it finds is decided, the bundle goes into the evicted list and the page into the cache list, and the
// answer is told.
fn step(
    keeping: Keeping,
    run: Run,
    count: u32,
    cache: &mut [u32],
    evicted: &mut [u32],
    page: u32,
) -> Reply
    requires { RequestReady run count cache.old evicted.old }
    ensures { (accepted result ≡ reply_served keeping run count cache.old page)
        × ((cache.new ≡ cache_served keeping run count cache.old page)
        × (evicted.new ≡ evicted_served run count cache.old evicted.old page)) }
{
    let k = run.k as usize;
    let a = run.a as usize;
    let found = decide(k, &cache[..count as usize], page);
    evict(found, a, cache, evicted);
    settle(keeping, found, count as usize, k, a, cache, page);
    answered(found, run, count)
}

// The record after a trace, from the empty buffer. The state stays ready, so that no request is checked.
pub(crate) fn run_over(keeping: Keeping, k: u32, a: u32, trace: &[u32]) -> Run
    requires { TraceReady k a trace.now }
    ensures { result ≡ run_over keeping k a trace.now }
{
    let mut cache = [0u32; Run::K_MAX as usize];
    let mut evicted = [0u32; Run::K_MAX as usize];
    let mut run = Run::empty(k, a);
    let mut count = 0u32;
    for &page in trace {
        let reply = step(keeping, run, count, &mut cache, &mut evicted, page);
        run = reply.run;
        count = reply.count;
    }
    run
}

impl Run {
    // The record after one more request, with the loads and bundles it made.
    fn counted(self, loads: u32, bundles: u32) -> Run
        requires { CountersFit self loads bundles }
        ensures { result ≡ counted_run self loads bundles }
    {
        Run {
            requests: self.requests + 1,
            loads: self.loads + loads,
            evictions: self.evictions + bundles,
            ..self
        }
    }
}

// Which of hit, load and load after a bundle the request is, by the pages held.
#[tactic(auto, using(crate::proofs::Served::finds_rules))]
pub(crate) fn decide(k: usize, held: &[u32], page: u32) -> Found
    ensures { result ≡ found_in k page held.now }
{
    let at = lists::find(held, page);
    if at < held.len() {
        return Found::Held(at);
    }
    if held.len() < k {
        return Found::Room;
    }
    Found::Full
}

// What the request answers.
pub(crate) fn answered(found: Found, run: Run, count: u32) -> Reply
    requires { AnswerReady found run count }
    ensures { accepted result ≡ reply_for found run count }
{
    match found {
        Found::Held(_) => Reply {
            run: run.counted(0, 0),
            count,
            outcome: Outcome::Hit,
        },
        Found::Room => Reply {
            run: run.counted(1, 0),
            count: count + 1,
            outcome: Outcome::Load,
        },
        Found::Full => Reply {
            run: run.counted(1, 1),
            count: count - run.a + 1,
            outcome: Outcome::LoadAfterBundle,
        },
    }
}

// The bundle in the evicted list, where there is one.
pub(crate) fn evict(found: Found, a: usize, cache: &[u32], evicted: &mut [u32])
    requires { (a ≤ length cache.now) × (a ≤ length evicted.old) }
    ensures { evicted.new ≡ evicted_for found a cache.now evicted.old }
{
    match found {
        Found::Held(_) | Found::Room => {}
        Found::Full => {
            lists::moves::copy(&cache[..a], evicted);
        }
    }
}

// The cache list with the page in it. Of the n pages held the bundle's go. Inlined: on a hit of the last page a call takes longer than what it does.
#[inline(always)]
pub(crate) fn settle(
    keeping: Keeping,
    found: Found,
    n: usize,
    k: usize,
    a: usize,
    cache: &mut [u32],
    page: u32,
)
    requires { SettleReady found n k a cache.old }
    ensures { cache.new ≡ cache_for keeping found n k a page cache.old }
{
    match found {
        Found::Held(at) => {
            hit(cache, n, k, moved_from(keeping, at, n));
        }
        Found::Room => {
            load(cache, n, k, 0, page);
        }
        Found::Full => {
            load(cache, n, k, a, page);
        }
    }
}

// On a hit at a place of the n pages held: the place whose page becomes the last. This alone tells the policies apart.
fn moved_from(keeping: Keeping, at: usize, n: usize) -> usize
    ensures { result ≡ moved_from keeping at n }
{
    match keeping {
        Keeping::ByRequest => at,
        Keeping::ByLoad => n,
    }
}

// A hit: of the n pages held, the one at the place becomes the last; at place n no page stands, and none moves.
fn hit(cache: &mut [u32], n: usize, k: usize, at: usize)
    requires { (n ≤ k) × (k ≤ length cache.old) }
    ensures { cache.new ≡ laid k (moved_to_end at (take n cache.old)) cache.old }
{
    lists::moves::to_end(&mut cache[..n], at);
    lists::moves::fill_zero(&mut cache[n..k]);
}

// A load: of the n pages held, the first `out` go, and the page becomes the last.
fn load(cache: &mut [u32], n: usize, k: usize, out: usize, page: u32)
    requires { (n ≤ k) × ((k ≤ length cache.old) × ((out ≤ n) × (n - out < k))) }
    ensures { cache.new ≡ laid k (loaded out page (take n cache.old)) cache.old }
{
    lists::moves::drop_first(&mut cache[..n], out);
    let last = n - out;
    cache[last] = page;
    let behind = last + 1;
    lists::moves::fill_zero(&mut cache[behind..k]);
}

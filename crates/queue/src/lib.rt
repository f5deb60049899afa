// A buffer kept as a list that pages leave from the front: the call that a tracker makes, one request at a time, on a run record by value and two
// lent lists; and over a whole trace. How the list is kept makes the policy: by request it is least recent use (document 01, "LRU"; the crate
// least_recent), by load it is oldest load first (document 02, request 01; the crate fifo).
#![tactic(auto)]

ghost use Rattle.std.specs.Prelude.{◌≤◌, ◌≡◌, length};
ghost use Rattle.paging.specs.Numbers.{refusal_of, totals_answer};
ghost use Rattle.queue.specs.Answers.{reply_answer};
ghost use Rattle.queue.specs.Calls.{well_formed, request_refusal, reply_of, cache_of, evicted_of, Previewed, totals_of};
ghost use Rattle.queue.specs.Serving.{empty_run};
ghost use Rattle.queue.specs.inner.Telling.{Told};

use crate::serving::Found;
use paging::{Keeping, Outcome, Refusal, Sizes, Totals};

mod serving;

// Document 01's run record.
#[derive(Clone, Copy, Debug, PartialEq, Eq)]
pub struct Run {
    pub k: u32,
    pub a: u32,
    pub requests: u32,
    pub loads: u32,
    pub evictions: u32,
}

impl Run {
    // The largest k.
    pub const K_MAX: u32 = Sizes::K_MAX;

    // At this many requests a further one is refused (12).
    pub const COUNTER_MAX: u32 = paging::COUNTER_MAX;

    // The empty start.
    pub fn empty(k: u32, a: u32) -> Run
        ensures { result ≡ empty_run k a }
    {
        Run {
            k,
            a,
            requests: 0,
            loads: 0,
            evictions: 0,
        }
    }

    // The first refusal that holds of a request on this state, in document 01's order.
    #[tactic(auto, using(crate::proofs::Refusals::check_rules))]
    fn check(self, count: u32, cache: &[u32], evicted: &[u32]) -> Result<(), Refusal>
        ensures { refusal_of result ≡ request_refusal self count cache.now evicted.now }
    {
        let k = self.k;
        let a = self.a;
        Sizes { k, a }.check()?;
        if cache.len() < k as usize || evicted.len() < a as usize {
            return Err(Refusal::TooLittleRoom);
        }
        if !self.well_formed(count, cache) {
            return Err(Refusal::IllFormed);
        }
        if self.requests == Run::COUNTER_MAX {
            return Err(Refusal::CounterFull);
        }
        Ok(())
    }

    // Whether the record, the count and the cache list, which has k places, are well formed.
    #[tactic(auto, using(crate::proofs::Refusals::formed_rules))]
    fn well_formed(self, count: u32, cache: &[u32]) -> bool
        requires { self.k ≤ length cache.now }
        ensures { result ≡ well_formed self count cache.now }
    {
        if count > self.k || self.evictions > self.loads || self.loads > self.requests {
            return false;
        }
        repeats::no_page_twice_in_buffer(&cache[..count as usize])
    }
}

// What an accepted request answers: the new record and count, and what the request did.
#[derive(Clone, Copy, Debug, PartialEq, Eq)]
pub struct Reply {
    pub run: Run,
    pub count: u32,
    pub outcome: Outcome,
}

// One request. The cache list has its count beside it and is kept as said, the first page to go in front; the evicted list receives a bundle. The
// request is told first, as a preview tells it, and then the page goes into the cache list. A refusal changes nothing. The record, the count and the two lists come as
// the C interface lends them, one by one.
pub fn request(
    keeping: Keeping,
    run: Run,
    count: u32,
    cache: &mut [u32],
    evicted: &mut [u32],
    page: u32,
) -> Result<Reply, Refusal>
    ensures { (reply_answer result ≡ reply_of keeping run count cache.old evicted.old page)
        × ((cache.new ≡ cache_of keeping run count cache.old evicted.old page)
        × (evicted.new ≡ evicted_of run count cache.old evicted.old page)) }
{
    let (reply, found) = tell(run, count, cache, evicted, page)?;
    let k = run.k as usize;
    let a = run.a as usize;
    serving::settle(keeping, found, count as usize, k, a, cache, page);
    Ok(reply)
}

// What one request would answer and evict (document 02, request 05): the reply and the evicted list are those of `request` on a copy of the state,
// for either way of keeping the list. Nothing is served, and a preview counts as no request: the reply has the copy's record and count, and whoever
// hands these on has served by mistake.
pub fn preview(
    run: Run,
    count: u32,
    cache: &[u32],
    evicted: &mut [u32],
    page: u32,
) -> Result<Reply, Refusal>
    ensures { Previewed run count cache.now evicted.old page (reply_answer result) evicted.new }
{
    let (reply, _) = tell(run, count, cache, evicted, page)?;
    Ok(reply)
}

// All of a request but for the cache list: the refusals, the bundle in the evicted list, and the reply with what the request found. One for request and
// preview, so that the check, which takes most of the time of either, is there once.
#[tactic(auto, using(crate::proofs::Refusals::tell_rules))]
fn tell(
    run: Run,
    count: u32,
    cache: &[u32],
    evicted: &mut [u32],
    page: u32,
) -> Result<(Reply, Found), Refusal>
    ensures { Told run count cache.now evicted.old page result evicted.new }
{
    run.check(count, cache, evicted)?;
    let k = run.k as usize;
    let a = run.a as usize;
    let found = serving::decide(k, &cache[..count as usize], page);
    serving::evict(found, a, cache, evicted);
    let reply = serving::answered(found, run, count);
    Ok((reply, found))
}

// A whole trace, from the empty buffer.
#[tactic(auto, using(crate::proofs::Refusals::totals_rules))]
pub fn over_trace(keeping: Keeping, k: u32, a: u32, trace: &[u32]) -> Result<Totals, Refusal>
    ensures { totals_answer result ≡ totals_of keeping k a trace.now }
{
    Sizes { k, a }.check_trace(trace)?;
    let run = serving::run_over(keeping, k, a, trace);
    Ok(Totals {
        bundles: run.evictions,
        loads: run.loads,
    })
}

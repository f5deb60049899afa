// Least recent use (document 01, "LRU"): one request at a time and over a whole trace. The cache list runs from the least to the most recently
// requested page, and a hit makes its page the most recent.
// The crate fifo has the same three calls for the other way of keeping the list. What the two share is in the crate queue, which takes the way as a
// parameter. README, docs/ and the exports name the functions of each crate, so a generic type with the way as its constant would stand behind these same lines.
#![tactic(auto)]

ghost use Rattle.std.specs.Prelude.{◌≡◌};
ghost use Rattle.paging.specs.Numbers.{totals_answer};
ghost use Rattle.paging.specs.declared.Keeping.TheVariants.{ByRequest};
ghost use Rattle.queue.specs.Answers.{reply_answer};
ghost use Rattle.queue.specs.Calls.{reply_of, cache_of, evicted_of, totals_of};

use paging::{Keeping, Refusal, Totals};
use queue::{Reply, Run};

// One request. The evicted list receives a bundle, least recent first.
pub fn request(
    run: Run,
    count: u32,
    cache: &mut [u32],
    evicted: &mut [u32],
    page: u32,
) -> Result<Reply, Refusal>
    ensures { (reply_answer result ≡ reply_of ByRequest run count cache.old evicted.old page)
        × ((cache.new ≡ cache_of ByRequest run count cache.old evicted.old page)
        × (evicted.new ≡ evicted_of run count cache.old evicted.old page)) }
{
    queue::request(Keeping::ByRequest, run, count, cache, evicted, page)
}

// What that request would answer and evict (document 02, request 05), with the cache list only looked at. A preview counts as no request: its reply has
// the record and count of a copy of the state, and whoever hands these on has served by mistake.
pub fn preview(
    run: Run,
    count: u32,
    cache: &[u32],
    evicted: &mut [u32],
    page: u32,
) -> Result<Reply, Refusal>
    ensures { (reply_answer result ≡ reply_of ByRequest run count cache.now evicted.old page)
        × (evicted.new ≡ evicted_of run count cache.now evicted.old page) }
{
    queue::preview(run, count, cache, evicted, page)
}

// A whole trace, from the empty buffer.
pub fn over_trace(k: u32, a: u32, trace: &[u32]) -> Result<Totals, Refusal>
    ensures { totals_answer result ≡ totals_of ByRequest k a trace.now }
{
    queue::over_trace(Keeping::ByRequest, k, a, trace)
}

// Previews of least recent use and of oldest load first (document 02, request 05): nothing is served, and the cache list is only looked at.
ghost use Rattle.std.specs.Prelude.{◌≡◌};
ghost use Rattle.lists.specs.Places.{pasted};
ghost use Rattle.paging.specs.declared.Keeping.TheVariants.{ByRequest, ByLoad};
ghost use Rattle.queue.specs.Calls.{reply_of, evicted_of};
ghost use Rattle.exports.specs.Records.{queue_run};
ghost use Rattle.exports.specs.Fields.{queue_reply_fields};

use crate::queue_fields;
use lists::moves::copy;
use queue::Run;

// Least recent use: refusal, the copy's k, a, requests, loads and evictions, count, answer.
#[unsafe(no_mangle)]
pub extern "C" fn lru_preview(
    k: u32,
    a: u32,
    requests: u32,
    loads: u32,
    evictions: u32,
    count: u32,
    cache: &[u32],
    evicted: &mut [u32],
    page: u32,
    out: &mut [u64],
)
    ensures { (out.new
        ≡ pasted (queue_reply_fields (reply_of ByRequest (queue_run k a requests loads evictions) count cache.now evicted.old page)) out.old)
        × (evicted.new ≡ evicted_of (queue_run k a requests loads evictions) count cache.now evicted.old page) }
{
    let run = Run {
        k,
        a,
        requests,
        loads,
        evictions,
    };
    let all = queue_fields::reply_fields(least_recent::preview(run, count, cache, evicted, page));
    copy(&all, out);
}

// Oldest load first, the same: refusal, the copy's k, a, requests, loads and evictions, count, answer.
#[unsafe(no_mangle)]
pub extern "C" fn fifo_preview(
    k: u32,
    a: u32,
    requests: u32,
    loads: u32,
    evictions: u32,
    count: u32,
    cache: &[u32],
    evicted: &mut [u32],
    page: u32,
    out: &mut [u64],
)
    ensures { (out.new
        ≡ pasted (queue_reply_fields (reply_of ByLoad (queue_run k a requests loads evictions) count cache.now evicted.old page)) out.old)
        × (evicted.new ≡ evicted_of (queue_run k a requests loads evictions) count cache.now evicted.old page) }
{
    let run = Run {
        k,
        a,
        requests,
        loads,
        evictions,
    };
    let all = queue_fields::reply_fields(fifo::preview(run, count, cache, evicted, page));
    copy(&all, out);
}

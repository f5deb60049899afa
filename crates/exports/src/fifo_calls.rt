// Oldest load first, one request at a time and over a whole trace.
ghost use Rattle.std.specs.Prelude.{◌≡◌};
ghost use Rattle.lists.specs.Places.{pasted};
ghost use Rattle.paging.specs.declared.Keeping.TheVariants.{ByLoad};
ghost use Rattle.queue.specs.Calls.{reply_of, cache_of, evicted_of, totals_of};
ghost use Rattle.exports.specs.Records.{queue_run};
ghost use Rattle.exports.specs.Fields.{queue_reply_fields, queue_totals_fields};

use crate::queue_fields;
use lists::moves::copy;
use queue::Run;

// A request: refusal, the record's k, a, requests, loads and evictions, count, answer.
#[unsafe(no_mangle)]
pub extern "C" fn fifo_request(
    k: u32,
    a: u32,
    requests: u32,
    loads: u32,
    evictions: u32,
    count: u32,
    cache: &mut [u32],
    evicted: &mut [u32],
    page: u32,
    out: &mut [u64],
)
    ensures { (out.new
        ≡ pasted (queue_reply_fields (reply_of ByLoad (queue_run k a requests loads evictions) count cache.old evicted.old page)) out.old)
        × (cache.new ≡ cache_of ByLoad (queue_run k a requests loads evictions) count cache.old evicted.old page)
        × (evicted.new ≡ evicted_of (queue_run k a requests loads evictions) count cache.old evicted.old page) }
{
    let run = Run {
        k,
        a,
        requests,
        loads,
        evictions,
    };
    let all = queue_fields::reply_fields(fifo::request(run, count, cache, evicted, page));
    copy(&all, out);
}

// A whole trace: refusal, bundles, loads.
#[unsafe(no_mangle)]
pub extern "C" fn fifo_over_trace(k: u32, a: u32, trace: &[u32], out: &mut [u64])
    ensures { out.new ≡ pasted (queue_totals_fields (totals_of ByLoad k a trace.now)) out.old }
{
    let all = queue_fields::totals_fields(fifo::over_trace(k, a, trace));
    copy(&all, out);
}

// A trace file read whole. The answer's fields: refusal, k, a, requests.
ghost use Rattle.std.specs.Prelude.{◌≡◌, length};
ghost use Rattle.lists.specs.Places.{pasted};
ghost use Rattle.traces.specs.Calls.{trace_count_answer, count_of, pages_after};
ghost use Rattle.traces.specs.Traces.{trace_file};
ghost use Rattle.exports.specs.Fields.{trace_count_fields};

use crate::store::refused;
use lists::moves::copy;
use paging::Refusal;
use traces::TraceCount;

// With at most `most` requests.
#[unsafe(no_mangle)]
pub extern "C" fn trace_count(file: &[u8], most: usize, out: &mut [u64])
    ensures { out.new ≡ pasted (trace_count_fields (count_of (trace_file most file.now))) out.old }
{
    let all = count_fields(traces::count(file, most));
    copy(&all, out);
}

// With at most as many as the list has places, which receives them.
#[unsafe(no_mangle)]
pub extern "C" fn trace_fill(file: &[u8], pages: &mut [u32], out: &mut [u64])
    ensures { (out.new ≡ pasted (trace_count_fields (count_of (trace_file (length pages.old) file.now))) out.old)
        × (pages.new ≡ pages_after (trace_file (length pages.old) file.now) pages.old) }
{
    let all = count_fields(traces::fill(file, pages));
    copy(&all, out);
}

fn count_fields(told: Result<TraceCount, Refusal>) -> [u64; 4]
    ensures { result ≡ trace_count_fields (trace_count_answer told) }
{
    match told {
        Ok(TraceCount { k, a, requests }) => [0, u64::from(k), u64::from(a), requests as u64],
        Err(reason) => refused(reason),
    }
}

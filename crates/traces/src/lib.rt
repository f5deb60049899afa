// Trace files read whole (document 01, "Files" and "Sizes"; document 02, request 03): the sizes, and the requests one by one, whether they stand in the
// file as single records or as runs.
// `count` tells how many requests a file has, `fill` the same with the requests in a lent list.
#![tactic(auto)]

ghost use Rattle.std.specs.Prelude.{◌≡◌, length};
ghost use Rattle.reading.specs.Files.{requests_from};
ghost use Rattle.traces.specs.Calls.{trace_count_answer, count_of, pages_after};
ghost use Rattle.traces.specs.Traces.{trace_file};
ghost use Rattle.traces.specs.inner.Counting.{counted_answer, counted_in};

use cursor::{Rest, next_request};
use paging::{Refusal, Sizes};
use reading::TraceRecord;
use records::length;

// A trace's sizes and number of requests.
#[derive(Clone, Copy, Debug, PartialEq, Eq)]
pub struct TraceCount {
    pub k: u32,
    pub a: u32,
    pub requests: usize,
}

// A trace file of at most `most` requests.
pub fn count(file: &[u8], most: usize) -> Result<TraceCount, Refusal>
    ensures { trace_count_answer result ≡ count_of (trace_file most file.now) }
{
    let Sizes { k, a } = reading::ka(file)?;
    let requests = requests(file, most)?;
    Ok(TraceCount { k, a, requests })
}

// The same, and the requests go into a lent list, whose length is the most that are taken. A file that is refused changes nothing in it.
#[tactic(auto, using(crate::proofs::CallLaws::fill_rules))]
pub fn fill(file: &[u8], pages: &mut [u32]) -> Result<TraceCount, Refusal>
    ensures { (trace_count_answer result ≡ count_of (trace_file (length pages.old) file.now))
        × (pages.new ≡ pages_after (trace_file (length pages.old) file.now) pages.old) }
{
    let told = count(file, pages.len())?;
    list(file, &mut pages[..told.requests]);
    Ok(told)
}

// The requests behind the KA. The record that passes the limit is refused as a whole, judged in the loop.
fn requests(file: &[u8], most: usize) -> Result<usize, Refusal>
    ensures { counted_answer result ≡ counted_in most (requests_from file.now 6) }
{
    let mut at = length::KA;
    let mut n = 0;
    // From record to record: each says where the next one stands, so there is no index to count and nothing to iterate over.
    while let TraceRecord::Request { times, next, .. } = reading::trace(file, at)? {
        let more = usize::from(times);
        if more > most - n {
            return Err(Refusal::TraceTooLong);
        }
        n += more;
        at = next;
    }
    Ok(n)
}

// All requests behind the KA into a list of as many places.
fn list(file: &[u8], pages: &mut [u32])
    requires { length pages.old ≡ length (requests_from file.now 6).held }
    ensures { pages.new ≡ (requests_from file.now 6).held }
{
    let mut left = Rest {
        page: 0,
        times: 0,
        from: length::KA,
    };
    for i in 0..pages.len() {
        let request = next_request(file, left);
        pages[i] = request.page;
        left = request.left;
    }
}

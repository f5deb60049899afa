// The requests behind a trace's KA, judged and measured in one pass: how many they are, and the length of their new edition. The last run is not measured until
// it ends.
ghost use Rattle.std.specs.Prelude.{◌+◌, ◌≤◌, ◌<◌, ◌≡◌};
ghost use Rattle.reading.specs.Files.{requests_from};
ghost use Rattle.editions.specs.Calls.{library_requests};
ghost use Rattle.editions.specs.Editions.{longest_rr};
ghost use Rattle.editions.specs.inner.Measuring.{Added, measured_answer, measured_in, last_length};

use crate::runs::LONGEST;
use paging::Refusal;
use reading::TraceRecord;
use records::length;

// How many requests there are, and how long their new edition is.
#[derive(Clone, Copy)]
pub(crate) struct Measured {
    pub requests: usize,
    pub length: usize,
}

// The run that was read last, and the length of all that stands before it in the new edition. Before the first request it is a run of none, which needs no case
// of its own below.
#[derive(Clone, Copy)]
pub(crate) struct LastRun {
    pub page: u32,
    pub times: u32,
    pub size: usize,
}

// The length of the last run's record; there is none before the first request.
fn last_length(times: u32) -> usize
    ensures { result ≡ last_length times }
{
    match times {
        0 => 0,
        1 => length::RQ,
        _ => length::RR,
    }
}

// So many requests for a page more. The bound on the size, far above 8 bytes for each of 65,536 requests, keeps the sums inside their type.
fn with_record(last: LastRun, page: u32, times: u32) -> LastRun
    requires { (last.times ≤ longest_rr) × (last.size ≤ 1000000) × (0 < times) × (times ≤ longest_rr) }
    ensures { Added last page times result }
{
    if page != last.page {
        let size = last.size + last_length(last.times);
        return LastRun { page, times, size };
    }
    let all = last.times + times;
    if all > LONGEST {
        return LastRun {
            page,
            times: all - LONGEST,
            size: last.size + length::RR,
        };
    }
    LastRun {
        page,
        times: all,
        size: last.size,
    }
}

// A file of at most `most` requests. The record that passes the limit is refused as a whole, judged in the loop.
pub(crate) fn measure(file: &[u8], most: usize) -> Result<Measured, Refusal>
    requires { most ≤ library_requests }
    ensures { measured_answer result ≡ measured_in most (requests_from file.now 6) }
{
    let mut at = length::KA;
    let mut requests = 0;
    let mut last = LastRun {
        page: 0,
        times: 0,
        size: length::KA,
    };
    // No `for`, since each record says where the next one stands.
    while let TraceRecord::Request { page, times, next } = reading::trace(file, at)? {
        let more = usize::from(times);
        if more > most - requests {
            return Err(Refusal::TraceTooLong);
        }
        requests += more;
        last = with_record(last, page, u32::from(times));
        at = next;
    }
    let length = last.size + last_length(last.times);
    Ok(Measured { requests, length })
}

// The new edition: a record for each longest run, or for its parts where an RR has not room for all of it.
ghost use Rattle.std.specs.Prelude.{◌+◌, ◌≤◌, ◌<◌, ◌≡◌, length};
ghost use Rattle.wire.specs.Numbers.{placed};
ghost use Rattle.records.specs.Bytes.{trace_entry_bytes};
ghost use Rattle.reading.specs.Files.{requests_from};
ghost use Rattle.traces.specs.Traces.{trace_file};
ghost use Rattle.editions.specs.Calls.{library_requests, converted_answer, converted_of, bytes_after};
ghost use Rattle.editions.specs.Editions.{longest_rr, run_record, new_bytes};
ghost use Rattle.editions.specs.inner.Turning.{new_behind};

use crate::measure::measure;
use crate::runs::next_run;
use cursor::Rest;
use paging::{Refusal, Sizes};
use records::length;

// A run's record from an offset on; answers the offset behind it.
#[tactic(auto, using(crate::proofs::Written::run_rules))]
fn put_run(page: u32, times: u32, out: &mut [u8], at: usize) -> usize
    requires { (times ≤ longest_rr) × (at + length (trace_entry_bytes (run_record page times)) ≤ length out.old) }
    ensures { (result ≡ at + length (trace_entry_bytes (run_record page times)))
        × (out.new ≡ placed out.old at (trace_entry_bytes (run_record page times))) }
{
    if times == 1 {
        records::put::rq_at(out, at, page);
        return at + length::RQ;
    }
    records::put::rr_at(out, at, page, times as u16);
    at + length::RR
}

// A record for each run of the n requests behind the KA, behind the lent bytes' KA.
fn put_runs(file: &[u8], n: usize, out: &mut [u8])
    requires { (n ≡ length (requests_from file.now 6).held) × (6 + length (new_behind (requests_from file.now 6).held) ≤ length out.old) }
    ensures { out.new ≡ placed out.old 6 (new_behind (requests_from file.now 6).held) }
{
    let mut left = Rest {
        page: 0,
        times: 0,
        from: length::KA,
    };
    let mut at = length::KA;
    let mut i = 0;
    // No `for`, since a run stands for one request or for many.
    while i < n {
        let run = next_run(file, left, n - i);
        at = put_run(run.page, run.times, out, at);
        i += run.times as usize;
        left = run.left;
    }
}

// A file of at most `most` requests. Whether the bytes suffice is judged before the first of them is written.
pub(crate) fn within(input: &[u8], most: usize, out: &mut [u8]) -> Result<usize, Refusal>
    requires { most ≤ library_requests }
    ensures { (converted_answer result ≡ converted_of new_bytes (trace_file most input.now) out.old)
        × (out.new ≡ bytes_after new_bytes (trace_file most input.now) out.old) }
{
    let Sizes { k, a } = reading::ka(input)?;
    let all = measure(input, most)?;
    if out.len() < all.length {
        return Err(Refusal::TooLittleRoom);
    }
    records::put::ka(out, k as u16, a as u16);
    put_runs(input, all.requests, out);
    Ok(all.length)
}

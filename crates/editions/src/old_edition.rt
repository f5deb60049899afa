// The old edition: an RQ for each request.
ghost use Rattle.std.specs.Prelude.{◌+◌, ◌*◌, ◌≤◌, ◌≡◌, length, replicate};
ghost use Rattle.wire.specs.Numbers.{placed};
ghost use Rattle.records.specs.Bytes.{rq_bytes, joined};
ghost use Rattle.reading.specs.Files.{requests_from};
ghost use Rattle.traces.specs.Traces.{trace_file};
ghost use Rattle.editions.specs.Calls.{library_requests, converted_answer, converted_of, bytes_after};
ghost use Rattle.editions.specs.Editions.{old_bytes};
ghost use Rattle.editions.specs.inner.Turning.{old_behind};

use cursor::next_record;
use paging::Refusal;
use records::length;

// The length of the old edition of so many requests.
fn size(requests: usize) -> usize
    requires { requests ≤ library_requests }
    ensures { result ≡ 6 + 6 * requests }
{
    length::KA + length::RQ * requests
}

// So many RQs of one page from an offset on; answers the offset behind them.
fn put_same(page: u32, times: u32, out: &mut [u8], from: usize) -> usize
    requires { from + 6 * times ≤ length out.old }
    ensures { (result ≡ from + 6 * times) × (out.new ≡ placed out.old from (joined rq_bytes (replicate times page))) }
{
    let mut at = from;
    for _ in 0..times {
        records::put::rq_at(out, at, page);
        at += length::RQ;
    }
    at
}

// The same for a record's requests. Most records have one, which a loop would take longer to begin than to store.
fn put_requests(page: u32, times: u32, out: &mut [u8], from: usize) -> usize
    requires { from + 6 * times ≤ length out.old }
    ensures { (result ≡ from + 6 * times) × (out.new ≡ placed out.old from (joined rq_bytes (replicate times page))) }
{
    if times == 1 {
        records::put::rq_at(out, from, page);
        return from + length::RQ;
    }
    put_same(page, times, out, from)
}

// An RQ for each of the n requests behind the KA, behind the lent bytes' KA.
fn put_singles(file: &[u8], n: usize, out: &mut [u8])
    requires { (n ≡ length (requests_from file.now 6).held) × (6 + 6 * n ≤ length out.old) }
    ensures { out.new ≡ placed out.old 6 (old_behind (requests_from file.now 6).held) }
{
    let mut from = length::KA;
    let mut at = length::KA;
    let mut i = 0;
    // No `for`, since a record stands for one request or for many.
    while i < n {
        let found = next_record(file, from);
        at = put_requests(found.page, found.times, out, at);
        i += found.times as usize;
        from = found.from;
    }
}

// A file of at most `most` requests. Whether the bytes suffice is judged before the first of them is written.
pub(crate) fn within(input: &[u8], most: usize, out: &mut [u8]) -> Result<usize, Refusal>
    requires { most ≤ library_requests }
    ensures { (converted_answer result ≡ converted_of old_bytes (trace_file most input.now) out.old)
        × (out.new ≡ bytes_after old_bytes (trace_file most input.now) out.old) }
{
    let told = traces::count(input, most)?;
    let length = size(told.requests);
    if out.len() < length {
        return Err(Refusal::TooLittleRoom);
    }
    records::put::ka(out, told.k as u16, told.a as u16);
    put_singles(input, told.requests, out);
    Ok(length)
}

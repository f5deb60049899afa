// The readers: what stands at an offset of a file, by the functions and by the structs that hold a file. The answer's fields: its case, and
// what it holds.
ghost use Rattle.std.specs.Prelude.{◌≡◌, [], ◌∷◌, ◌*◌, length, take, drop};
ghost use Rattle.lists.specs.Places.{pasted};
ghost use Rattle.paging.specs.Numbers.{number_of};
ghost use Rattle.paging.specs.Refusals.{largest_k};
ghost use Rattle.records.specs.Marks.{mark_at};
ghost use Rattle.reading.specs.Reading.{refused, ka_read, read_trace, read_schedule};
ghost use Rattle.exports.specs.Cases.{answer_fields, start_fields, trace_fields, schedule_fields};

use lists::moves::copy;
use paging::{Refusal, Sizes};
use readers::schedule::schedule_at;
use readers::trace::trace_at;
use reading::{ScheduleRecord, TraceRecord};
use records::length;

// The KA at the start of a file.
#[unsafe(no_mangle)]
pub extern "C" fn read_ka(file: &[u8], out: &mut [u64])
    ensures { out.new ≡ pasted (answer_fields (ka_read (mark_at file.now) file.now)) out.old }
{
    let all = start_fields(reading::ka(file));
    copy(&all, out);
}

#[unsafe(no_mangle)]
pub extern "C" fn read_trace(file: &[u8], at: usize, out: &mut [u64])
    ensures { out.new ≡ pasted (answer_fields (read_trace file.now at)) out.old }
{
    let all = trace_fields(reading::trace(file, at));
    copy(&all, out);
}

// The same by the struct: it is made, moved and read.
#[unsafe(no_mangle)]
pub extern "C" fn trace_reader(file: &[u8], at: usize, out: &mut [u64])
    ensures { out.new ≡ pasted (answer_fields (read_trace file.now at)) out.old }
{
    let all = trace_fields(trace_at(file, at));
    copy(&all, out);
}

#[unsafe(no_mangle)]
pub extern "C" fn read_schedule(file: &[u8], at: usize, out: &mut [u64])
    ensures { out.new ≡ pasted (answer_fields (read_schedule largest_k file.now at)) out.old }
{
    let all = schedule_fields(reading::schedule(file, at));
    copy(&all, out);
}

// An EV may have up to `bound` pages.
#[unsafe(no_mangle)]
pub extern "C" fn read_schedule_within(file: &[u8], at: usize, bound: u32, out: &mut [u64])
    ensures { out.new ≡ pasted (answer_fields (read_schedule bound file.now at)) out.old }
{
    let all = schedule_fields(reading::schedule_within(file, at, bound));
    copy(&all, out);
}

// The schedule reader by the struct.
#[unsafe(no_mangle)]
pub extern "C" fn schedule_reader(file: &[u8], at: usize, out: &mut [u64])
    ensures { out.new ≡ pasted (answer_fields (read_schedule largest_k file.now at)) out.old }
{
    let all = schedule_fields(schedule_at(file, at));
    copy(&all, out);
}

// An EV's pages as a part of the file: its bytes go into lent bytes, and its length is the only field.
#[unsafe(no_mangle)]
pub extern "C" fn read_pages(file: &[u8], from: usize, n: usize, bytes: &mut [u8], out: &mut [u64])
    ensures { (out.new ≡ pasted (length (take (4 * n) (drop from file.now)) ∷ []) out.old)
        × (bytes.new ≡ pasted (take (4 * n) (drop from file.now)) bytes.old) }
{
    let part = reading::pages(file, from, n);
    copy(part, bytes);
    copy(&[part.len() as u64], out);
}

fn start_fields(start: Result<Sizes, Refusal>) -> [u64; 5]
    ensures { result ≡ start_fields start }
{
    match start {
        Ok(Sizes { k, a }) => [2, u64::from(k), u64::from(a), length::KA as u64, 0],
        Err(reason) => refused(reason),
    }
}

fn trace_fields(found: Result<TraceRecord, Refusal>) -> [u64; 5]
    ensures { result ≡ trace_fields found }
{
    match found {
        Ok(TraceRecord::End) => [1, 0, 0, 0, 0],
        Ok(TraceRecord::Sizes { k, a, next }) => [2, u64::from(k), u64::from(a), next as u64, 0],
        Ok(TraceRecord::Request { page, times, next }) => [
            3,
            u64::from(page),
            u64::from(times),
            next as u64,
            0,
        ],
        Err(reason) => refused(reason),
    }
}

fn schedule_fields(found: Result<ScheduleRecord, Refusal>) -> [u64; 5]
    ensures { result ≡ schedule_fields found }
{
    match found {
        Ok(ScheduleRecord::End) => [1, 0, 0, 0, 0],
        Ok(ScheduleRecord::Sizes { k, a, next }) => [2, u64::from(k), u64::from(a), next as u64, 0],
        Ok(ScheduleRecord::Bundle { t, n, from, next }) => [
            4,
            u64::from(t),
            n as u64,
            from as u64,
            next as u64,
        ],
        Ok(ScheduleRecord::Fetch { t, page, next }) => [
            5,
            u64::from(t),
            u64::from(page),
            next as u64,
            0,
        ],
        Err(reason) => refused(reason),
    }
}

// A refusal's case is 0, and it holds its number.
fn refused(reason: Refusal) -> [u64; 5]
    ensures { result ≡ answer_fields (refused (number_of reason)) }
{
    [0, u64::from(reason.number()), 0, 0, 0]
}

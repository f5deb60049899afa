// The readers (document 01, "Files"): what stands at an offset of a file. Refusals in their order: 9, 4, 5, then 1 and 2 for a KA, 13 for an RR (document
// 02, request 03), 6 for an EV and 5 for its pages.
#![tactic(auto)]

ghost use Rattle.std.specs.Prelude.{◌*◌, ◌≤◌, ◌≡◌, IfOk, length, take, drop};
ghost use Rattle.paging.specs.Refusals.{largest_k};
ghost use Rattle.records.specs.Answers.{kind_mark};
ghost use Rattle.records.specs.Marks.{KA, mark_at};
ghost use Rattle.reading.specs.Answers.{start_answer, trace_answer, schedule_answer};
ghost use Rattle.reading.specs.inner.Places.{place_answer, read_at};
ghost use Rattle.reading.specs.Reading.{Answer, ka_read, rq_read, rr_read, request_read, ev_read, pf_read, entry_read, read_trace, read_schedule};

use paging::{Refusal, Sizes};
use records::kind::Kind;
use records::length;

// What stands at an offset of a trace, with the offset behind it. A page is requested so many times in a row: once in an RQ.
#[derive(Clone, Copy, Debug, PartialEq, Eq)]
pub enum TraceRecord {
    Sizes { k: u32, a: u32, next: usize },
    Request { page: u32, times: u16, next: usize },
    End,
}

// What stands at an offset of a schedule, with the offset behind it. A bundle's n pages start at `from`: `pages` gives them.
#[derive(Clone, Copy, Debug, PartialEq, Eq)]
pub enum ScheduleRecord {
    Sizes {
        k: u32,
        a: u32,
        next: usize,
    },
    Bundle {
        t: u32,
        n: usize,
        from: usize,
        next: usize,
    },
    Fetch {
        t: u32,
        page: u32,
        next: usize,
    },
    End,
}

// Where an offset of a file lies, with the KA at its start.
#[derive(Clone, Copy)]
enum Place {
    Start(Sizes),
    Inside,
    End,
}

// The most pages of an EV for a reader of records, which has no a.
const MOST: u32 = Sizes::K_MAX;

#[tactic(auto, using(crate::proofs::Reading::mark_rules))]
fn mark_at(s: &[u8], at: usize) -> Result<Kind, Refusal>
    requires { at ≤ length s.now }
    ensures { kind_mark result ≡ mark_at (drop at s.now) }
{
    if s.len() - at < 2 {
        return Err(Refusal::CutShort);
    }
    Kind::try_from(wire::read16(s, at))
}

// The KA at the start of a file.
#[tactic(auto, unfolding(crate::specs::Reading::ka_read))]
pub fn ka(s: &[u8]) -> Result<Sizes, Refusal>
    ensures { start_answer result ≡ ka_read (mark_at s.now) s.now }
{
    match mark_at(s, 0)? {
        Kind::Ka => sizes(s),
        _ => Err(Refusal::WrongMark),
    }
}

// The trace reader.
#[tactic(auto, using(crate::proofs::Reading::trace_by_place))]
pub fn trace(s: &[u8], at: usize) -> Result<TraceRecord, Refusal>
    ensures { trace_answer result ≡ read_trace s.now at }
{
    match place_of(s, at)? {
        Place::Start(Sizes { k, a }) => {
            let next = length::KA;
            Ok(TraceRecord::Sizes { k, a, next })
        }
        Place::Inside => request(s, at),
        Place::End => Ok(TraceRecord::End),
    }
}

// The schedule reader, where an EV may have up to `bound` pages (and never more than 256): the judge's bound is its a.
#[tactic(auto, using(crate::proofs::Reading::schedule_by_place))]
pub fn schedule_within(s: &[u8], at: usize, bound: u32) -> Result<ScheduleRecord, Refusal>
    ensures { schedule_answer result ≡ read_schedule bound s.now at }
{
    match place_of(s, at)? {
        Place::Start(Sizes { k, a }) => {
            let next = length::KA;
            Ok(ScheduleRecord::Sizes { k, a, next })
        }
        Place::Inside => entry(s, at, bound),
        Place::End => Ok(ScheduleRecord::End),
    }
}

// The schedule reader.
pub fn schedule(s: &[u8], at: usize) -> Result<ScheduleRecord, Refusal>
    ensures { schedule_answer result ≡ read_schedule largest_k s.now at }
{
    schedule_within(s, at, MOST)
}

// The bytes of n pages from an offset on, as a part of the file; where the file ends before, those that are there. It only cuts: the answer that
// has `from` and n has judged 5, 6 and 9 of them.
#[tactic(auto, using(crate::proofs::Reading::pages_rules))]
pub fn pages(s: &[u8], from: usize, n: usize) -> &[u8]
    ensures { result.now ≡ take (4 * n) (drop from s.now) }
{
    if from > s.len() {
        return &s[..0];
    }
    if n > (s.len() - from) / 4 {
        return &s[from..];
    }
    &s[from..from + 4 * n]
}

// Where an offset of a file lies, which both readers ask first: past the end is 9, and at the start a KA is expected.
#[tactic(auto, using(crate::proofs::Reading::place_rules))]
fn place_of(s: &[u8], at: usize) -> Result<Place, Refusal>
    ensures answer { (x : Answer) → place_answer result x ≡ read_at s.now at x }
    ensures inside { IfOk result (λ _. at ≤ length s.now) }
{
    if at > s.len() {
        return Err(Refusal::IllFormed);
    }
    if at == 0 {
        return Ok(Place::Start(ka(s)?));
    }
    if at == s.len() {
        return Ok(Place::End);
    }
    Ok(Place::Inside)
}

// The fields of a KA behind its mark.
#[tactic(auto, using(crate::proofs::Reading::ka_rules))]
fn sizes(s: &[u8]) -> Result<Sizes, Refusal>
    ensures { start_answer result ≡ ka_read KA s.now }
{
    if s.len() < length::KA {
        return Err(Refusal::CutShort);
    }
    let k = u32::from(wire::read16(s, 2));
    let a = u32::from(wire::read16(s, 4));
    let sizes = Sizes { k, a };
    sizes.check()?;
    Ok(sizes)
}

// Behind a trace's KA, before its end.
#[tactic(auto, unfolding(crate::specs::Reading::request_read))]
fn request(s: &[u8], at: usize) -> Result<TraceRecord, Refusal>
    requires { at ≤ length s.now }
    ensures { trace_answer result ≡ request_read (mark_at (drop at s.now)) (drop at s.now) at }
{
    match mark_at(s, at)? {
        Kind::Rq => single(s, at),
        Kind::Rr => run(s, at),
        _ => Err(Refusal::WrongMark),
    }
}

// The field of an RQ behind its mark.
#[tactic(auto, using(crate::proofs::Reading::rq_rules))]
fn single(s: &[u8], at: usize) -> Result<TraceRecord, Refusal>
    requires { at ≤ length s.now }
    ensures { trace_answer result ≡ rq_read (drop at s.now) at }
{
    if s.len() - at < length::RQ {
        return Err(Refusal::CutShort);
    }
    Ok(TraceRecord::Request {
        page: wire::read32(s, at + 2),
        times: 1,
        next: at + length::RQ,
    })
}

// The fields of an RR behind its mark.
#[tactic(auto, using(crate::proofs::Reading::run_rules))]
fn run(s: &[u8], at: usize) -> Result<TraceRecord, Refusal>
    requires { at ≤ length s.now }
    ensures { trace_answer result ≡ rr_read (drop at s.now) at }
{
    if s.len() - at < length::RR {
        return Err(Refusal::CutShort);
    }
    let times = wire::read16(s, at + 6);
    if times == 0 {
        return Err(Refusal::EmptyRun);
    }
    Ok(TraceRecord::Request {
        page: wire::read32(s, at + 2),
        times,
        next: at + length::RR,
    })
}

// Behind a schedule's KA, before its end.
#[tactic(auto, unfolding(crate::specs::Reading::entry_read))]
fn entry(s: &[u8], at: usize, bound: u32) -> Result<ScheduleRecord, Refusal>
    requires { at ≤ length s.now }
    ensures { schedule_answer result
        ≡ entry_read (mark_at (drop at s.now)) bound (drop at s.now) at }
{
    match mark_at(s, at)? {
        Kind::Ev => bundle(s, at, bound),
        Kind::Pf => fetch(s, at),
        _ => Err(Refusal::WrongMark),
    }
}

// The fields of an EV behind its mark.
#[tactic(auto, using(crate::proofs::Reading::bundle_rules))]
fn bundle(s: &[u8], at: usize, bound: u32) -> Result<ScheduleRecord, Refusal>
    requires { at ≤ length s.now }
    ensures { schedule_answer result ≡ ev_read bound (drop at s.now) at }
{
    if s.len() - at < length::EV_HEAD {
        return Err(Refusal::CutShort);
    }
    let n = wire::read16(s, at + 6);
    if n == 0 || u32::from(n) > bound {
        return Err(Refusal::WrongRecord);
    }
    if u32::from(n) > MOST {
        return Err(Refusal::WrongRecord);
    }
    let n = usize::from(n);
    let size = length::ev_length(n).unwrap();
    if s.len() - at < size {
        return Err(Refusal::CutShort);
    }
    Ok(ScheduleRecord::Bundle {
        t: wire::read32(s, at + 2),
        n,
        from: at + length::EV_HEAD,
        next: at + size,
    })
}

// The fields of a PF behind its mark.
#[tactic(auto, using(crate::proofs::Reading::pf_rules))]
fn fetch(s: &[u8], at: usize) -> Result<ScheduleRecord, Refusal>
    requires { at ≤ length s.now }
    ensures { schedule_answer result ≡ pf_read (drop at s.now) at }
{
    if s.len() - at < length::PF {
        return Err(Refusal::CutShort);
    }
    Ok(ScheduleRecord::Fetch {
        t: wire::read32(s, at + 2),
        page: wire::read32(s, at + 6),
        next: at + length::PF,
    })
}

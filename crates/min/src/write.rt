// The schedule of farthest next use: each record goes into the unused rest of the lent bytes.
ghost use Rattle.std.specs.Prelude.{◌+◌, ◌*◌, ◌≤◌, ◌<◌, [], map, ◌≡◌, length, take};
ghost use Rattle.paging.specs.Numbers.{kind_of_outcome};
ghost use Rattle.paging.specs.Refusals.{largest_k, longest_trace};
ghost use Rattle.wire.specs.Numbers.{placed};
ghost use Rattle.records.specs.Bytes.{ev_length, ev_bytes, entry_bytes, joined};
ghost use Rattle.keys.specs.Keys.{page_of, bundle_of, bundles_of};
ghost use Rattle.min.specs.Answers.{scheduled_answer};
ghost use Rattle.min.specs.Calls.{bytes_refusal, scheduled_by, bytes_by};
ghost use Rattle.min.specs.inner.Run.{Accepted, EvRoom, BundleRoom};

use crate::Scheduled;
use crate::run::{Buffer, Pass};
use paging::{Outcome, Refusal, Sizes};

// The pages of a bundle's keys.
fn copy_pages(bundle: &[u64], pages: &mut [u32])
    requires { length bundle.now ≤ length pages.old }
    ensures { take (length bundle.now) pages.new ≡ map page_of bundle.now }
{
    for (i, &key) in bundle.iter().enumerate() {
        pages[i] = keys::page_of(key);
    }
}

// An EV of the pages of a bundle's keys, at request t.
fn put_bundle(bundle: &[u64], t: u32, rest: &mut [u8]) -> usize
    requires { EvRoom bundle.now rest.old }
    ensures { (result ≡ ev_length (length bundle.now)) × (rest.new ≡ placed rest.old 0 (ev_bytes t (map page_of bundle.now))) }
{
    let mut pages = [0u32; Sizes::K_MAX as usize];
    copy_pages(bundle, &mut pages);
    records::put::ev(rest, t, &pages[..bundle.len()]).unwrap()
}

// The bundle's EV from an offset on, where a request was a load after a bundle; answers the offset behind it.
fn put_if_bundled(
    outcome: Outcome,
    held: &Buffer,
    a: usize,
    t: usize,
    out: &mut [u8],
    at: usize,
) -> usize
    requires { BundleRoom (kind_of_outcome outcome) a t at held.now out.old }
    ensures { (result ≡ at + length (joined entry_bytes (bundle_of (kind_of_outcome outcome) a t held.now [])))
        × (out.new ≡ placed out.old at (joined entry_bytes (bundle_of (kind_of_outcome outcome) a t held.now []))) }
{
    if outcome != Outcome::LoadAfterBundle {
        return at;
    }
    let size = put_bundle(&held.keys()[..a], t as u32, &mut out[at..]);
    at + size
}

// An EV for each bundle of farthest next use over the trace, from an offset on.
fn put_bundles(pass: Pass, out: &mut [u8], from: usize)
    requires { from + length (joined entry_bytes (bundles_of pass.k pass.a 0 pass.trace.now [])) ≤ length out.old }
    ensures { out.new ≡ placed out.old from (joined entry_bytes (bundles_of pass.entry.k pass.entry.a 0 pass.entry.trace.now [])) }
{
    let mut held = Buffer::none();
    let mut at = from;
    for t in 0..pass.trace.len() {
        let (outcome, next) = pass.asked(&held, t);
        at = put_if_bundled(outcome, &held, pass.a, t, out, at);
        held.serve(pass.a, outcome, next);
    }
}

// The length of a schedule of so many bundles.
fn schedule_length(a: u32, bundles: u32) -> usize
    requires { (a ≤ largest_k) × (bundles ≤ longest_trace) }
    ensures { result ≡ 6 + bundles * ev_length a }
{
    let one = records::length::ev_length(a as usize).unwrap();
    records::length::KA + bundles as usize * one
}

// The call for sizes and a trace that are not refused, with places lent for the lefts. Whether the bytes suffice is judged before the
// first of them is written.
pub(crate) fn scheduled(
    k: u32,
    a: u32,
    trace: &[u32],
    lefts: &mut [u32],
    out: &mut [u8],
) -> Result<Scheduled, Refusal>
    requires { Accepted k a trace.now lefts.old }
    ensures { (scheduled_answer result ≡ scheduled_by (bytes_refusal k a trace.now out.old) k a trace.now)
        × (out.new ≡ bytes_by (bytes_refusal k a trace.now out.old) k a trace.now out.old) }
{
    let pass = Pass::over(k, a, trace, lefts);
    let all = pass.counts();
    let size = schedule_length(a, all.bundles);
    if out.len() < size {
        return Err(Refusal::TooLittleRoom);
    }
    let from = records::put::ka(out, k as u16, a as u16).unwrap();
    put_bundles(pass, out, from);
    Ok(Scheduled {
        bundles: all.bundles,
        loads: all.loads,
        length: size,
    })
}

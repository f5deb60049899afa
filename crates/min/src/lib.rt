// Farthest next use over a lent trace, and the schedule that it writes (document 01, "MIN").
#![tactic(auto)]

ghost use Rattle.std.specs.Prelude.{◌≡◌};
ghost use Rattle.paging.specs.Numbers.{totals_answer};
ghost use Rattle.min.specs.Answers.{scheduled_answer};
ghost use Rattle.min.specs.Calls.{counts_of, scheduled_of, bytes_of};

use crate::run::Pass;
use paging::{Refusal, Sizes, Totals};

mod run;
mod write;

// The bundles and loads of farthest next use, and the length of the schedule that was written, in bytes.
#[derive(Clone, Copy, Debug, PartialEq, Eq)]
pub struct Scheduled {
    pub bundles: u32,
    pub loads: u32,
    pub length: usize,
}

// The bundles and loads of farthest next use over the trace.
#[tactic(auto, using(crate::proofs::Refused::count_rules))]
pub fn count(k: u32, a: u32, trace: &[u32]) -> Result<Totals, Refusal>
    ensures { totals_answer result ≡ counts_of k a trace.now }
{
    Sizes { k, a }.check_trace(trace)?;
    let mut lefts = [0u32; Sizes::TRACE_MAX];
    let pass = Pass::over(k, a, trace, &mut lefts);
    Ok(pass.counts())
}

// The same, and the schedule that farthest next use makes of the trace in the first of the lent bytes: KA, then an EV for each bundle.
// A refusal leaves every byte as it was.
pub fn schedule(k: u32, a: u32, trace: &[u32], out: &mut [u8]) -> Result<Scheduled, Refusal>
    ensures { (scheduled_answer result ≡ scheduled_of k a trace.now out.old)
        × (out.new ≡ bytes_of k a trace.now out.old) }
{
    Sizes { k, a }.check_trace(trace)?;
    let mut lefts = [0u32; Sizes::TRACE_MAX];
    write::scheduled(k, a, trace, &mut lefts, out)
}

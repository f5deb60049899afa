// Both files: the trace first, its KA and its requests; then the schedule's KA and its records.
ghost use Rattle.std.specs.Prelude.{◌≤◌, ◌≡◌, length};
ghost use Rattle.paging.specs.Refusals.{largest_k};
ghost use Rattle.reading.specs.Files.{requests_from};
ghost use Rattle.judging.specs.Answer.{answer_number};
ghost use Rattle.judging.specs.Files.{judged, schedule_judged};
ghost use Rattle.judge.specs.inner.Verdicts.{verdict_answer, AtMost};

use crate::buffer::Held;
use crate::place::{Files, Place};
use crate::run::run;
use cursor::Rest;
use paging::{Refusal, Sizes};
use reading::{ScheduleRecord, schedule_within};
use records::length;

// The schedule of a trace that was found good: the cost.
fn schedule_answer(files: &Files<'_>) -> Result<usize, Refusal>
    requires { ((requests_from files.now.trace.now 6).damage ≡ 0) × (files.now.requests ≡ length (requests_from files.now.trace.now 6).held) × (files.now.k ≤ largest_k) }
    ensures answer { verdict_answer result ≡ schedule_judged files.now.k files.now.a (requests_from files.now.trace.now 6).held files.now.schedule.now }
    ensures fits { AtMost (length files.now.schedule.now) result }
{
    match schedule_within(files.schedule, 0, files.a)? {
        ScheduleRecord::Sizes { k, a, next } => {
            if k as usize != files.k || a != files.a {
                return Err(Refusal::WrongRecord);
            }
            let rest = Rest {
                page: 0,
                times: 0,
                from: length::KA,
            };
            let first = Place {
                t: 0,
                rest,
                from: next,
                fetches: 0,
                bundles: 0,
            };
            run(files, &mut Held::empty(), first)
        }
        ScheduleRecord::End => Err(Refusal::CutShort),
        ScheduleRecord::Bundle { .. } | ScheduleRecord::Fetch { .. } => Err(Refusal::WrongMark),
    }
}

// The judge's answer: the cost.
pub(crate) fn answer(trace: &[u8], schedule: &[u8]) -> Result<usize, Refusal>
    ensures answer { verdict_answer result ≡ judged trace.now schedule.now }
    ensures fits { AtMost (length schedule.now) result }
{
    let told = traces::count(trace, Sizes::TRACE_MAX)?;
    let files = Files {
        trace,
        schedule,
        k: told.k as usize,
        a: told.a,
        requests: told.requests,
    };
    schedule_answer(&files)
}

// The number that the caller receives.
pub(crate) fn number(verdict: Result<usize, Refusal>) -> i64
    requires { AtMost 9223372036854775807 verdict }
    ensures { result ≡ answer_number (verdict_answer verdict) }
{
    match verdict {
        Ok(bundles) => bundles as i64,
        Err(reason) => -i64::from(reason.number()),
    }
}

// The judge of schedules (document 01): the bytes of a trace file and of a schedule file in, the cost or a refusal out.
//   place     what the judge works on, and where it stands in it
//   buffer    the pages held
//   fetches   the PFs of the open request, read off the schedule's file
//   closing   closing requests, with a cursor into the trace that stands inside a run too
//   entries   one record of the schedule: the way to its request, then what it does there
//   many      more PFs at one request than a buffer holds
//   run       all records of the schedule
//   files     both files, from their first bytes on
#![tactic(auto)]

ghost use Rattle.std.specs.Prelude.{◌≡◌};
ghost use Rattle.judging.specs.Answer.{answer_number};
ghost use Rattle.judging.specs.Files.{judged};

mod buffer;
mod closing;
mod entries;
mod fetches;
mod files;
mod many;
mod place;
mod run;

// The cost of the schedule, or the refusal's number made negative.
pub fn judge(trace: &[u8], schedule: &[u8]) -> i64
    ensures { result ≡ answer_number (judged trace.now schedule.now) }
{
    files::number(files::answer(trace, schedule))
}

// The judge for C callers, as host/judge.h declares it: a static library over the crate `judge`, with the same promise.
#![tactic(auto)]

ghost use Rattle.std.specs.Prelude.{◌≡◌};
ghost use Rattle.judging.specs.Answer.{answer_number};
ghost use Rattle.judging.specs.Files.{judged};

// The cost of the schedule, or the refusal's number made negative.
#[unsafe(no_mangle)]
pub extern "C" fn judge(trace: &[u8], schedule: &[u8]) -> i64
    ensures { result ≡ answer_number (judged trace.now schedule.now) }
{
    judge::judge(trace, schedule)
}

// Farthest next use over a whole trace.
ghost use Rattle.std.specs.Prelude.{◌≡◌};
ghost use Rattle.lists.specs.Places.{pasted};
ghost use Rattle.min.specs.Answers.{scheduled_answer};
ghost use Rattle.min.specs.Calls.{counts_of, scheduled_of, bytes_of};
ghost use Rattle.exports.specs.Fields.{counts_fields, scheduled_fields};

use crate::queue_fields::totals_fields;
use crate::store::refused;
use lists::moves::copy;
use min::Scheduled;
use paging::Refusal;

// Its counts: refusal, bundles, loads.
#[unsafe(no_mangle)]
pub extern "C" fn min_count(k: u32, a: u32, trace: &[u32], out: &mut [u64])
    ensures { out.new ≡ pasted (counts_fields (counts_of k a trace.now)) out.old }
{
    let all = totals_fields(min::count(k, a, trace));
    copy(&all, out);
}

// Its schedule, in the first of the lent bytes: refusal, bundles, loads, length.
#[unsafe(no_mangle)]
pub extern "C" fn min_schedule(k: u32, a: u32, trace: &[u32], bytes: &mut [u8], out: &mut [u64])
    ensures { (out.new ≡ pasted (scheduled_fields (scheduled_of k a trace.now bytes.old)) out.old)
        × (bytes.new ≡ bytes_of k a trace.now bytes.old) }
{
    let all = scheduled_fields(min::schedule(k, a, trace, bytes));
    copy(&all, out);
}

fn scheduled_fields(scheduled: Result<Scheduled, Refusal>) -> [u64; 4]
    ensures { result ≡ scheduled_fields (scheduled_answer scheduled) }
{
    match scheduled {
        Ok(
            Scheduled {
                bundles,
                loads,
                length,
            },
        ) => [0, u64::from(bundles), u64::from(loads), length as u64],
        Err(reason) => refused(reason),
    }
}

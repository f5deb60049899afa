// The fields of an answer of least recent use or oldest load, which answer alike, and those of any policy over a trace.
ghost use Rattle.std.specs.Prelude.{◌≡◌};
ghost use Rattle.paging.specs.Numbers.{totals_answer};
ghost use Rattle.queue.specs.Answers.{reply_answer};
ghost use Rattle.exports.specs.Fields.{queue_reply_fields, queue_totals_fields};

use crate::store::refused;
use paging::{Refusal, Totals};
use queue::Reply;

pub(crate) fn reply_fields(reply: Result<Reply, Refusal>) -> [u64; 8]
    ensures { result ≡ queue_reply_fields (reply_answer reply) }
{
    match reply {
        Ok(
            Reply {
                run,
                count,
                outcome,
            },
        ) => [
            0,
            u64::from(run.k),
            u64::from(run.a),
            u64::from(run.requests),
            u64::from(run.loads),
            u64::from(run.evictions),
            u64::from(count),
            u64::from(outcome.number()),
        ],
        Err(reason) => refused(reason),
    }
}

pub(crate) fn totals_fields(totals: Result<Totals, Refusal>) -> [u64; 3]
    ensures { result ≡ queue_totals_fields (totals_answer totals) }
{
    match totals {
        Ok(Totals { bundles, loads }) => [0, u64::from(bundles), u64::from(loads)],
        Err(reason) => refused(reason),
    }
}

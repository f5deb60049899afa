// The requests of one record of the new edition, taken from what is left of a trace's file that was found good. A run may stand there in many records: RQs and
// RRs of one page in a row.
ghost use Rattle.std.specs.Prelude.{◌<◌};
ghost use Rattle.editions.specs.inner.Turning.{Passing, RunTaken};

use cursor::{Rest, begun, next_record};

// A page, how many requests for it the record has, and what is left behind them.
#[derive(Clone, Copy)]
pub(crate) struct NextRun {
    pub page: u32,
    pub times: u32,
    pub left: Rest,
}

// The most requests of an RR.
pub(crate) const LONGEST: u32 = 65535;

// The next run, where n requests are left: as many requests for one page as follow one another, but 65,535 at most. The record of the page behind them is
// read, and the rest begins with it.
pub(crate) fn next_run(file: &[u8], left: Rest, n: usize) -> NextRun
    requires { Passing file.now n 0 left × (0 < n) }
    ensures { RunTaken file.now left result.page result.times result.left }
{
    let first = begun(file, left);
    let page = first.page;
    let mut times = first.times;
    let mut from = first.from;
    // No `for`, since the page of each record decides whether the run goes on.
    while (times as usize) < n {
        let more = next_record(file, from);
        if more.page != page {
            return NextRun {
                page,
                times,
                left: more,
            };
        }
        let all = times + more.times;
        from = more.from;
        if all > LONGEST {
            let left = Rest {
                page,
                times: all - LONGEST,
                from,
            };
            return NextRun {
                page,
                times: LONGEST,
                left,
            };
        }
        times = all;
    }
    let left = Rest {
        page,
        times: 0,
        from,
    };
    NextRun { page, times, left }
}

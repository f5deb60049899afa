// The figures of a trace that was read: MIN's, LRU's, oldest load's, marking's and the layers'.
ghost use Rattle.std.specs.Prelude.{◌≤◌, ◌≡◌, length, replicate};
ghost use Rattle.paging.specs.Numbers.{totals_answer};
ghost use Rattle.mark.specs.Traces.{totals_of, table_with};
ghost use Rattle.paging.specs.Refusals.{SizesRight};
ghost use Rattle.report.specs.Calls.{figures, most_requests, report_answer};

use crate::Report;
use paging::{Refusal, Totals};

// Marking over the trace, on a table of its own with a place for each request.
fn marked(k: u32, a: u32, trace: &[u32]) -> Result<Totals, Refusal>
    ensures { totals_answer result
        ≡ totals_of k a trace.now (table_with (replicate most_requests 0) (replicate most_requests 0) (replicate most_requests 0)) }
{
    let mut pages = [0u32; Report::LONGEST];
    let mut numbers = [0u32; Report::LONGEST];
    let mut times = [0u32; Report::LONGEST];
    mark::over_trace(k, a, trace, &mut pages, &mut numbers, &mut times)
}

// The sizes are right and the trace is short enough: nothing is refused, and the table has a place for each request.
pub(crate) fn of(k: u32, a: u32, trace: &[u32]) -> Result<Report, Refusal>
    requires { SizesRight k a × (length trace.now ≤ most_requests) }
    ensures { report_answer result ≡ figures k a trace.now }
{
    let min = min::count(k, a, trace)?;
    let lru = least_recent::over_trace(k, a, trace)?;
    let fifo = fifo::over_trace(k, a, trace)?;
    let mark = marked(k, a, trace)?;
    let mut pages = [0u32; Report::LONGEST];
    let mut numbers = [0u32; Report::LONGEST];
    let layers = layers::over_trace(k, a, trace, &mut pages, &mut numbers)?;
    Ok(Report {
        k,
        a,
        requests: trace.len() as u32,
        min,
        lru,
        fifo,
        mark,
        layers,
    })
}

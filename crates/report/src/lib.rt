// The bench's figures for an input (document 01, "The eight-request shift"): one function on the input's bytes.
#![tactic(auto)]

ghost use Rattle.std.specs.Prelude.{◌≡◌};
ghost use Rattle.report.specs.Calls.{report_answer, report_of, ReadEnough};

use layers::LayersTotals;
use paging::{Refusal, Totals};
use records::length;

mod figures;

// The six lines' numbers.
#[derive(Clone, Copy, Debug, PartialEq, Eq)]
pub struct Report {
    pub k: u32,
    pub a: u32,
    pub requests: u32,
    pub min: Totals,
    pub lru: Totals,
    pub fifo: Totals,
    pub mark: Totals,
    pub layers: LayersTotals,
}

impl Report {
    // The most requests that the bench takes.
    pub const LONGEST: usize = 4096;

    // The bytes in which a request too many is seen whole: a KA and one record more than the bench takes requests. An RR is the longest.
    pub const INPUT: usize = length::KA + length::RR * (Report::LONGEST + 1);
}

// What the bench says of a trace file. An input that has `INPUT` bytes need not be read further: whatever follows, the report is the same.
pub fn of_input(input: &[u8]) -> Result<Report, Refusal>
    ensures value { report_answer result ≡ report_of input.now }
    ensures read_enough { ReadEnough Report.INPUT input.now (report_answer result) }
{
    let mut pages = [0u32; Report::LONGEST];
    let told = traces::fill(input, &mut pages)?;
    figures::of(told.k, told.a, &pages[..told.requests])
}

// The two editions of a trace (document 02, request 08): the old one has an RQ for each request, the new one an RQ or RR for each longest run of a page.
// Either is made of any trace file that the reader accepts, in lent bytes; a refused call changes none of them.
//   runs         the requests of one record of the new edition, taken from what is left of a file
//   measure      how long the new edition of a file is
//   old_edition  an RQ for each request
//   new_edition  a record for each longest run
//   program      the two calls as the programs `to_old` and `to_new` make them
#![tactic(auto)]

ghost use Rattle.std.specs.Prelude.{◌≡◌};
ghost use Rattle.traces.specs.Traces.{trace_file};
ghost use Rattle.editions.specs.Calls.{library_requests, converted_answer, converted_of, bytes_after};
ghost use Rattle.editions.specs.Editions.{old_bytes, new_bytes};

use paging::{Refusal, Sizes};

mod measure;
mod new_edition;
mod old_edition;
pub mod program;
mod runs;

// The old edition of a trace file of at most 65,536 requests, in the first of the lent bytes; the answer is its length.
pub fn to_old(input: &[u8], out: &mut [u8]) -> Result<usize, Refusal>
    ensures { (converted_answer result ≡ converted_of old_bytes (trace_file library_requests input.now) out.old)
        × (out.new ≡ bytes_after old_bytes (trace_file library_requests input.now) out.old) }
{
    old_edition::within(input, Sizes::TRACE_MAX, out)
}

// The new edition.
pub fn to_new(input: &[u8], out: &mut [u8]) -> Result<usize, Refusal>
    ensures { (converted_answer result ≡ converted_of new_bytes (trace_file library_requests input.now) out.old)
        × (out.new ≡ bytes_after new_bytes (trace_file library_requests input.now) out.old) }
{
    new_edition::within(input, Sizes::TRACE_MAX, out)
}

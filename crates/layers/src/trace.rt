// The layers over a whole trace: requests served one after the other on the table, with no check of the state.
ghost use Rattle.std.specs.Prelude.{◌≤◌, ◌≡◌, length, replicate};
ghost use Rattle.paging.specs.Numbers.{refusal_of};
ghost use Rattle.paging.specs.Refusals.{longest_trace};
ghost use Rattle.paging.specs.Rows.{rows_of, unused};
ghost use Rattle.table.specs.Serving.{Sound};
ghost use Rattle.layers.specs.Traces.{all_unused, early_refusal};
ghost use Rattle.layers.specs.inner.Over.{ServedTo};

use paging::{Refusal, Sizes};

// What the requests of a trace came to: s and the bundles counted.
#[derive(Clone, Copy)]
pub(crate) struct Served {
    pub s: u32,
    pub joins: u32,
}

// Serves a trace on a table that is all unused. A request sees the used places alone, and one more where there is one, so that it costs those.
// It stops at the first request after which there would be too many pages.
pub(crate) fn serve_all(
    k: u32,
    a: u32,
    trace: &[u32],
    pages: &mut [u32],
    numbers: &mut [u32],
) -> Option<Served>
    requires { (length pages.old ≡ length numbers.old) × Sound k a 0 × (length trace.now ≤ longest_trace)
        × (rows_of numbers.old pages.old ≡ replicate (length pages.old) unused) }
    ensures { ServedTo k a trace.now (length pages.old) (rows_of numbers.new pages.new) result }
{
    let mut s = 0;
    let mut joins = 0;
    let mut used = 0;
    for page in trace {
        let m = pages.len().min(used + 1);
        let stepped = table::quick::step(
            k,
            a,
            s,
            *page,
            &mut pages[..m],
            &mut numbers[..m],
            used,
        ).ok()?;
        joins += stepped.rule.bundles();
        s = stepped.s;
        used = stepped.used;
    }
    Some(Served { s, joins })
}

// Whether every place holds two zeros.
fn all_unused(pages: &[u32], numbers: &[u32]) -> bool
    requires { length pages.now ≡ length numbers.now }
    ensures { result ≡ all_unused (rows_of numbers.now pages.now) }
{
    numbers.iter().zip(pages).all(|(n, p)| *n == 0 && *p == 0)
}

// The refusals that are judged before the first request, in order: 1, 2, 3, 8, 9.
#[tactic(auto, using(crate::proofs::TraceLaws::early_rules))]
pub(crate) fn check(
    k: u32,
    a: u32,
    trace: &[u32],
    pages: &[u32],
    numbers: &[u32],
) -> Result<(), Refusal>
    ensures { refusal_of result ≡ early_refusal k a trace.now pages.now numbers.now 0 }
{
    Sizes { k, a }.check_trace(trace)?;
    if pages.len() != numbers.len() {
        return Err(Refusal::TooLittleRoom);
    }
    if !all_unused(pages, numbers) {
        return Err(Refusal::IllFormed);
    }
    Ok(())
}

// The layers of document 01 ("Layers", "Possible set"; source document 001, Figure 1), one request at a time on a record by value and a lent
// table of two lists, with the questions on them, and over a whole trace. The definitions are in specs/.
#![tactic(auto)]

ghost use Rattle.std.specs.Prelude.{◌≡◌};
ghost use Rattle.paging.specs.Numbers.{refusal_of, rule_of};
ghost use Rattle.layers.specs.Calls.{empty_run, state_refusal, reply_by, layers_reply_answer, request_reply, pages_next, numbers_next};
ghost use Rattle.layers.specs.Questions.{RevealedTold, verdict_of, verdict};
ghost use Rattle.layers.specs.Traces.{layers_totals_answer, trace_totals, pages_over, numbers_over};
ghost use Rattle.layers.specs.inner.Counting.{CountersFit};

use paging::{Refusal, RuleApplied, Sizes};

mod formed;
mod questions;
mod trace;

// The layers' record: the sizes, the requests and bundles counted, s, the number of the last layer, and how often each rule applied: 1a
// appends, 1b joins, 1c lifts.
#[derive(Clone, Copy, Debug, PartialEq, Eq)]
pub struct LayersRun {
    pub k: u32,
    pub a: u32,
    pub requests: u32,
    pub evictions: u32,
    pub s: u32,
    pub appends: u32,
    pub joins: u32,
    pub lifts: u32,
}

impl LayersRun {
    // The largest k.
    pub const K_MAX: u32 = Sizes::K_MAX;

    // At this many requests a further one is refused (12).
    pub const COUNTER_MAX: u32 = paging::COUNTER_MAX;

    // The empty state. Its table is all unused, of any size.
    pub fn empty(k: u32, a: u32) -> LayersRun
        ensures { result ≡ empty_run k a }
    {
        LayersRun {
            k,
            a,
            requests: 0,
            evictions: 0,
            s: 0,
            appends: 0,
            joins: 0,
            lifts: 0,
        }
    }

    // The record after one more request, which applied the rule and led to s. A join is a bundle.
    pub fn counted(self, rule: RuleApplied, s: u32) -> LayersRun
        requires { CountersFit self }
        ensures { result ≡ (reply_by (rule_of rule) s self).run }
    {
        let (appends, joins, lifts) = match rule {
            RuleApplied::Append => (1, 0, 0),
            RuleApplied::Join => (0, 1, 0),
            RuleApplied::Lift => (0, 0, 1),
        };
        LayersRun {
            requests: self.requests + 1,
            evictions: self.evictions + joins,
            s,
            appends: self.appends + appends,
            joins: self.joins + joins,
            lifts: self.lifts + lifts,
            ..self
        }
    }
}

// An accepted request's answer: the new record and the rule that applied.
#[derive(Clone, Copy, Debug, PartialEq, Eq)]
pub struct LayersReply {
    pub run: LayersRun,
    pub rule: RuleApplied,
}

// Whether a set is possible.
#[derive(Clone, Copy, Debug, PartialEq, Eq)]
pub enum PossibleAnswer {
    Yes,
    CountDiffers,
    // The smallest layer i such that more than i pages of the set are in L0 to Li.
    BrokenAt(u32),
}

// The layers over a whole trace: bundles, s and revealed pages.
#[derive(Clone, Copy, Debug, PartialEq, Eq)]
pub struct LayersTotals {
    pub bundles: u32,
    pub s: u32,
    pub revealed: u32,
}

// The refusals of every call on a record and a table, in order: 1, 2, 8, 9.
#[tactic(auto, using(crate::proofs::Refusing::state_rules))]
fn check_state(run: LayersRun, pages: &[u32], numbers: &[u32]) -> Result<(), Refusal>
    ensures { refusal_of result ≡ state_refusal run pages.now numbers.now 0 }
{
    Sizes { k: run.k, a: run.a }.check()?;
    if pages.len() != numbers.len() {
        return Err(Refusal::TooLittleRoom);
    }
    if !formed::well_formed(run, pages, numbers) {
        return Err(Refusal::IllFormed);
    }
    Ok(())
}

// A request for a page. A refusal leaves both lists as they are.
pub fn request(
    run: LayersRun,
    pages: &mut [u32],
    numbers: &mut [u32],
    page: u32,
) -> Result<LayersReply, Refusal>
    ensures { (layers_reply_answer result ≡ request_reply run pages.old numbers.old page)
        × (pages.new ≡ pages_next run pages.old numbers.old page)
        × (numbers.new ≡ numbers_next run pages.old numbers.old page) }
{
    check_state(run, pages, numbers)?;
    if run.requests == LayersRun::COUNTER_MAX {
        return Err(Refusal::CounterFull);
    }
    let served = table::step(run.k, run.a, run.s, page, pages, numbers);
    let stepped = served.map_err(|_| Refusal::TableFull)?;
    Ok(LayersReply {
        run: run.counted(stepped.rule, stepped.s),
        rule: stepped.rule,
    })
}

// How many pages are revealed: they are the last so many used places.
pub fn revealed(run: LayersRun, pages: &[u32], numbers: &[u32]) -> Result<u32, Refusal>
    ensures { RevealedTold run pages.now numbers.now result }
{
    check_state(run, pages, numbers)?;
    Ok(questions::singles_at_top(numbers, run.s))
}

// Whether a set is possible. The count is looked at first, then the layers from L0 up: a "no" names the first at which the rule breaks.
pub fn possible(
    run: LayersRun,
    pages: &[u32],
    numbers: &[u32],
    set: &[u32],
) -> Result<PossibleAnswer, Refusal>
    ensures { verdict_of result ≡ verdict run pages.now numbers.now set.now }
{
    check_state(run, pages, numbers)?;
    if !repeats::no_page_twice(set) {
        return Err(Refusal::PageTwice);
    }
    if set.len() != run.s as usize {
        return Ok(PossibleAnswer::CountDiffers);
    }
    let sizes = questions::tally_set(pages, numbers, set);
    Ok(questions::first_broken(&sizes, run.s))
}

// The layers over a whole trace, into a table that is all unused. No request is checked: the state is proved to stay well formed.
pub fn over_trace(
    k: u32,
    a: u32,
    trace: &[u32],
    pages: &mut [u32],
    numbers: &mut [u32],
) -> Result<LayersTotals, Refusal>
    ensures { (layers_totals_answer result ≡ trace_totals k a trace.now pages.old numbers.old)
        × (pages.new ≡ pages_over k a trace.now pages.old numbers.old)
        × (numbers.new ≡ numbers_over k a trace.now pages.old numbers.old) }
{
    trace::check(k, a, trace, pages, numbers)?;
    let Some(served) = trace::serve_all(k, a, trace, pages, numbers) else {
        pages.fill(0);
        numbers.fill(0);
        return Err(Refusal::TableFull);
    };
    Ok(LayersTotals {
        bundles: served.joins,
        s: served.s,
        revealed: questions::singles_at_top(numbers, served.s),
    })
}

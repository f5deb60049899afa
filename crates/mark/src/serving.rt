// One request on a state that was judged, or that a trace has led to: the page is found in the layer table, its priority is worked out, then the table
// and the cached pages are moved on. No check here but for room in the table, and that before anything is written.
ghost use Rattle.std.specs.Prelude.{◌≤◌, ◌≡◌};
ghost use Rattle.paging.specs.Layers.{is_join};
ghost use Rattle.paging.specs.Numbers.{kind_of_outcome, rule_of};
ghost use Rattle.paging.specs.Refusals.{largest_k};
ghost use Rattle.marking.proofs.Whole.{whole_kind};
ghost use Rattle.mark.specs.Lent.{lent};
ghost use Rattle.mark.specs.Traces.{table_with};
ghost use Rattle.mark.specs.inner.Stepping.{TableReady, AdvancedTo, StepReady, SteppedTo, AnswerReady, answered_by};

use crate::{MarkReply, MarkRun};
use paging::{Outcome, RuleApplied};

// What stands beside the layer table: s, the time t, how many pages are revealed, and the used places.
#[derive(Clone, Copy)]
pub(crate) struct TablePoint {
    pub s: u32,
    pub t: u32,
    pub revealed: usize,
    pub used: usize,
}

// What a request did to the layer table: the layers' rule, what stands beside the table after it, and the priority that the page gets.
#[derive(Clone, Copy)]
pub(crate) struct Advanced {
    pub rule: RuleApplied,
    pub after: TablePoint,
    pub priority: u64,
}

// What stands beside all lists: the same, and the count of cached pages.
#[derive(Clone, Copy)]
pub(crate) struct Point {
    pub table: TablePoint,
    pub count: usize,
}

// What a request did: the layers' rule, the state after it, and the outcome.
#[derive(Clone, Copy)]
pub(crate) struct Stepped {
    pub rule: RuleApplied,
    pub after: Point,
    pub outcome: Outcome,
}

// Whether all marks are cleared: the layers' rule is 1b.
fn clears(rule: RuleApplied) -> bool
    ensures { result ≡ is_join (rule_of rule) }
{
    matches!(rule, RuleApplied::Join)
}

// What a request is where a bundle takes all k pages: a hit by 1c, a load by 1a, a load after a bundle by 1b.
pub(crate) fn whole_outcome(rule: RuleApplied) -> Outcome
    ensures { kind_of_outcome result ≡ whole_kind (rule_of rule) }
{
    match rule {
        RuleApplied::Append => Outcome::Load,
        RuleApplied::Join => Outcome::LoadAfterBundle,
        RuleApplied::Lift => Outcome::Hit,
    }
}

// One request on the layer table, with t0 beside it. Where it has no room, nothing is done. Inlined, as `step` is: a call hands its answer over in memory.
#[inline(always)]
pub(crate) fn advance(
    k: u32,
    a: u32,
    point: TablePoint,
    page: u32,
    pages: &mut [u32],
    numbers: &mut [u32],
    times: &mut [u32],
) -> Option<Advanced>
    requires { TableReady k a point (table_with pages.old numbers.old times.old) }
    ensures { AdvancedTo k a page point (table_with pages.old numbers.old times.old)
        (table_with pages.new numbers.new times.new) result }
{
    let used = point.used;
    let at = lists::find(&pages[..used], page);
    let revealed = rank::is_revealed(at, used, point.revealed);
    let t = rank::time_after(point.t, revealed);
    let priority = rank::priority(t, rank::t0_of(times, at, used, t));
    let asked = timed::Asked {
        k,
        a,
        s: point.s,
        page,
        time: t,
        at,
        used,
    };
    let moved = timed::step(asked, pages, numbers, times).ok()?;
    let after = TablePoint {
        s: moved.s,
        t,
        revealed: rank::revealed_after(clears(moved.rule), revealed, point.revealed),
        used: moved.used,
    };
    Some(Advanced {
        rule: moved.rule,
        after,
        priority,
    })
}

// One request on all lists. Where the table has no room, nothing is done. C lends the lists one by one, and those that are written stay so here: a struct of
// them was proved for three, with a clause more for each list in every function, that it is still the caller's.
#[inline(always)]
pub(crate) fn step(
    k: u32,
    a: u32,
    point: Point,
    page: u32,
    cache: &mut [u32],
    marks: &mut [u32],
    priorities: &mut [u64],
    evicted: &mut [u32],
    pages: &mut [u32],
    numbers: &mut [u32],
    times: &mut [u32],
) -> Option<Stepped>
    requires { StepReady k a point (lent cache.old marks.old priorities.old evicted.old pages.old numbers.old times.old) }
    ensures { SteppedTo k a page point
        (lent cache.old marks.old priorities.old evicted.old
        pages.old numbers.old times.old)
        (lent cache.new marks.new priorities.new evicted.new
        pages.new numbers.new times.new) result }
{
    let moved = advance(k, a, point.table, page, pages, numbers, times)?;
    let served = marked::serve(
        k as usize,
        a as usize,
        point.count,
        page,
        moved.priority,
        clears(moved.rule),
        cache,
        marks,
        priorities,
        evicted,
    );
    let after = Point {
        table: moved.after,
        count: served.count,
    };
    Some(Stepped {
        rule: moved.rule,
        after,
        outcome: served.outcome,
    })
}

// What a request that was served answers.
pub(crate) fn answered(run: MarkRun, stepped: Stepped) -> MarkReply
    requires { AnswerReady run × (stepped.after.count ≤ largest_k) }
    ensures { result ≡ answered_by run stepped }
{
    let after = stepped.after;
    let run = MarkRun {
        requests: run.requests + 1,
        loads: run.loads + stepped.outcome.loads(),
        evictions: run.evictions + stepped.outcome.bundles(),
        t: after.table.t,
        layers: run.layers.counted(stepped.rule, after.table.s),
        ..run
    };
    MarkReply {
        run,
        count: after.count as u32,
        outcome: stepped.outcome,
    }
}

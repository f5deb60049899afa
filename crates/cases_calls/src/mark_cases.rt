// Marking with priorities RDM. Its lists stand one behind the other in one list of the row, and the row's numbers say how many places each of them has.
ghost use Rattle.std.specs.Prelude.{◌≤◌, ◌<◌};

use cases_rows::row::Numbers;
use cases_rows::{show, text};
use layers::LayersRun;
use mark::{MarkReply, MarkRun};
use paging::Refusal;
use std::fmt::Display;

// The places of a list. No list has more than 8.
fn places(all: [u32; 7], which: usize) -> usize
    requires { which < 7 }
    ensures { result ≤ 8 }
{
    all[which].min(8) as usize
}

// The places of the lists before it.
fn start(all: [u32; 7], which: usize) -> usize
    requires { which < 7 }
{
    let mut at = 0;
    for before in 0..which {
        at += places(all, before);
    }
    at
}

// A list of the row, with what stands behind it where it has fewer places than 8.
fn part(all: [u32; 7], which: usize, lists: &[u32]) -> [u32; 8]
    requires { which < 7 }
{
    let at = text::within(start(all, which), lists);
    let mut to = [0u32; 8];
    lists::moves::copy(&lists[at..], &mut to);
    to
}

// The same in more bits.
fn wide(narrow: [u32; 8]) -> [u64; 8] {
    narrow.map(|n| u64::from(n))
}

// A request: the places of the seven lists, the count and the page; the record; the lists. The answer is the record, the layers' record, the count and the
// answer, then the seven lists as they now are.
pub(crate) fn request(rt: &impl Print, n: Numbers, record: &[u32], lists: &[u32]) {
    let [c, m, r, e, p, l, t, count, page] = n;
    let all = [c, m, r, e, p, l, t];
    let mut cache = part(all, 0, lists);
    let mut marks = part(all, 1, lists);
    let mut priorities = wide(part(all, 2, lists));
    let mut evicted = part(all, 3, lists);
    let mut pages = part(all, 4, lists);
    let mut numbers = part(all, 5, lists);
    let mut times = part(all, 6, lists);
    let reply = mark::request(
        run(record),
        count,
        &mut cache[..places(all, 0)],
        &mut marks[..places(all, 1)],
        &mut priorities[..places(all, 2)],
        &mut evicted[..places(all, 3)],
        &mut pages[..places(all, 4)],
        &mut numbers[..places(all, 5)],
        &mut times[..places(all, 6)],
        page,
    );
    told(rt, reply);
    behind(rt, &cache[..places(all, 0)]);
    behind(rt, &marks[..places(all, 1)]);
    behind(rt, &priorities[..places(all, 2)]);
    behind(rt, &evicted[..places(all, 3)]);
    behind(rt, &pages[..places(all, 4)]);
    behind(rt, &numbers[..places(all, 5)]);
    behind(rt, &times[..places(all, 6)]);
}

// A whole trace: k, a and the places of the three lists of the layer table; the trace; these lists. The answer is bundles and loads, 0 where
// it is refused, then the three lists.
pub(crate) fn over_trace(rt: &impl Print, n: Numbers, trace: &[u32], lists: &[u32]) {
    let all = [n[2], n[3], n[4], 0, 0, 0, 0];
    let mut pages = part(all, 0, lists);
    let mut numbers = part(all, 1, lists);
    let mut times = part(all, 2, lists);
    let totals = mark::over_trace(
        n[0],
        n[1],
        trace,
        &mut pages[..places(all, 0)],
        &mut numbers[..places(all, 1)],
        &mut times[..places(all, 2)],
    );
    let figures = match totals {
        Ok(r) => [r.bundles, r.loads],
        Err(reason) => {
            refused(rt, reason);
            [0, 0]
        }
    };
    show::list(rt, &figures);
    behind(rt, &pages[..places(all, 0)]);
    behind(rt, &numbers[..places(all, 1)]);
    behind(rt, &times[..places(all, 2)]);
}

// A request's answer but for its lists. Of a refused one the record is that of no sizes, and the count and the answer are 0.
fn told(rt: &impl Print, reply: Result<MarkReply, Refusal>) {
    let (run, count, answer) = match reply {
        Ok(served) => (served.run, served.count, served.outcome.number()),
        Err(reason) => {
            refused(rt, reason);
            (MarkRun::empty(0, 0), 0, 0)
        }
    };
    shown(rt, run);
    behind(rt, &[count, answer]);
}

// A refusal, in front of a list.
fn refused(rt: &impl Print, reason: Refusal) {
    show::figure(rt, reason);
    show::text(rt, b";");
}

// A list behind another.
fn behind<T: Display + Copy>(rt: &impl Print, list: &[T]) {
    show::text(rt, b";");
    show::list(rt, list);
}

// The record: k, a, requests, loads, evictions, t; then the layers' record: k, a, requests, evictions, s, and the counts of the three rules.
fn run(record: &[u32]) -> MarkRun {
    let mut n = [0u32; 14];
    lists::moves::copy(record, &mut n);
    mark_run(&n)
}

fn mark_run(n: &[u32; 14]) -> MarkRun {
    MarkRun {
        k: n[0],
        a: n[1],
        requests: n[2],
        loads: n[3],
        evictions: n[4],
        t: n[5],
        layers: layers_run(n),
    }
}

fn layers_run(n: &[u32; 14]) -> LayersRun {
    LayersRun {
        k: n[6],
        a: n[7],
        requests: n[8],
        evictions: n[9],
        s: n[10],
        appends: n[11],
        joins: n[12],
        lifts: n[13],
    }
}

fn shown(rt: &impl Print, run: MarkRun) {
    show::list(
        rt,
        &[run.k, run.a, run.requests, run.loads, run.evictions, run.t],
    );
    let l = run.layers;
    behind(
        rt,
        &[
            l.k,
            l.a,
            l.requests,
            l.evictions,
            l.s,
            l.appends,
            l.joins,
            l.lifts,
        ],
    );
}

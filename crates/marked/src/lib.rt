// One request served on the buffer of marked pages: three lent lists beside each other, which have the cached pages by page rising, their marks and their
// priorities. No check here: whoever calls keeps the state ready, for which `rises` and `marks_formed` are questions.
#![tactic(auto)]

ghost use Rattle.std.specs.Prelude.{◌≤◌, ◌≡◌, length, replicate};
ghost use Rattle.lists.specs.Choice.{pick};
ghost use Rattle.marking.specs.Lists.{rising, all_marks};
ghost use Rattle.marked.specs.Buffer.{BufferReady, ServedTo};
ghost use Rattle.leaving.specs.Buffer.{Roomy};
ghost use Rattle.marked.specs.Inner.{wiped};

use paging::Outcome;

mod loading;

// What a request did, and how many pages are cached now.
#[derive(Clone, Copy)]
pub struct Served {
    pub outcome: Outcome,
    pub count: usize,
}

// Serves a request, which gets the priority, on n cached pages; with `clear` all marks are cleared first. A bundle goes into the evicted list. The lists are
// lent one by one, as C lends them: a struct of the three was proved for `wipe`, with a clause more for each list, that it is still the caller's.
pub fn serve(
    k: usize,
    a: usize,
    n: usize,
    page: u32,
    priority: u64,
    clear: bool,
    cache: &mut [u32],
    marks: &mut [u32],
    priorities: &mut [u64],
    evicted: &mut [u32],
) -> Served
    requires { BufferReady k a n cache.old marks.old priorities.old evicted.old }
    ensures { ServedTo k a n page priority clear
        cache.old marks.old priorities.old evicted.old
        cache.new marks.new priorities.new evicted.new result }
{
    let at = lists::find(&cache[..n], page);
    clear_marks(clear, &mut marks[..n]);
    if at < n {
        marks[at] = 1;
        priorities[at] = priority;
        wipe(n, k, cache, marks, priorities);
        return Served {
            outcome: Outcome::Hit,
            count: n,
        };
    }
    if n < k {
        let count = n + 1;
        loading::load(n, page, priority, cache, marks, priorities);
        wipe(count, k, cache, marks, priorities);
        return Served {
            outcome: Outcome::Load,
            count,
        };
    }
    let left = n - a;
    let count = left + 1;
    leaving::bundle(a, n, cache, marks, priorities, evicted);
    loading::load(left, page, priority, cache, marks, priorities);
    wipe(count, k, cache, marks, priorities);
    Served {
        outcome: Outcome::LoadAfterBundle,
        count,
    }
}

// Clears the marks, or leaves them.
fn clear_marks(clear: bool, marks: &mut [u32])
    ensures { marks.new ≡ pick clear (replicate (length marks.old) 0) marks.old }
{
    if clear {
        marks.fill(0);
    }
}

// Zeros in the places from n up to k of all three lists.
fn wipe(n: usize, k: usize, cache: &mut [u32], marks: &mut [u32], priorities: &mut [u64])
    requires { (n ≤ k) × Roomy k cache.old marks.old priorities.old }
    ensures { (cache.new ≡ wiped n k cache.old)
        × ((marks.new ≡ wiped n k marks.old)
        × (priorities.new ≡ wiped n k priorities.old)) }
{
    cache[n..k].fill(0);
    marks[n..k].fill(0);
    priorities[n..k].fill(0);
}

// Whether each page is below the next. The whole list is looked at, several places at once, which is quicker than to stop early.
pub fn rises(pages: &[u32]) -> bool
    ensures { result ≡ rising pages.now }
{
    let mut fine = true;
    for i in 1..pages.len() {
        fine &= pages[i - 1] < pages[i];
    }
    fine
}

// Whether every mark is 0 or 1. The whole list is looked at, several places at once, which is quicker than to stop early.
#[tactic(auto, using(crate::proofs::Forms::marks_turn))]
pub fn marks_formed(marks: &[u32]) -> bool
    ensures { result ≡ all_marks marks.now }
{
    let mut fine = true;
    for mark in marks {
        fine &= *mark <= 1;
    }
    fine
}

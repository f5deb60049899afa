// The refusals of a request but for 10: 1, 2, 8, 9 and 12, each on its condition and in this order.
ghost use Rattle.std.specs.Prelude.{◌≤◌, ◌≡◌, length};
ghost use Rattle.mark.specs.Calls.{lists_refused};
ghost use Rattle.mark.specs.Formed.{record_formed, buffer_formed, times_formed};
ghost use Rattle.mark.specs.Lent.{lent};
ghost use Rattle.mark.specs.inner.Judging.{JudgedTo};

use crate::MarkRun;
use paging::{Refusal, Sizes};

// The seven lists that a request is lent, to read.
#[derive(Clone, Copy)]
pub(crate) struct LentLists<'a> {
    pub cache: &'a [u32],
    pub marks: &'a [u32],
    pub priorities: &'a [u64],
    pub evicted: &'a [u32],
    pub pages: &'a [u32],
    pub numbers: &'a [u32],
    pub times: &'a [u32],
}

impl LentLists<'_> {
    // Whether a list is too short, or one of a length that it may not have.
    fn refused(self, k: usize, a: usize) -> bool
        ensures { result ≡ lists_refused k a (lent self.entry.cache.now self.entry.marks.now self.entry.priorities.now self.entry.evicted.now
            self.entry.pages.now self.entry.numbers.now self.entry.times.now) }
    {
        let held = self.cache.len();
        let places = self.pages.len();
        held < k
            || self.marks.len() != held
            || self.priorities.len() != held
            || self.evicted.len() < a
            || self.numbers.len() != places
            || self.times.len() != places
    }
}

// Whether the counters of the record fit each other, and those of the layers' record in it.
fn record_formed(run: MarkRun) -> bool
    ensures { result ≡ record_formed run }
{
    let layers = run.layers;
    run.evictions <= run.loads
        && run.loads <= run.requests
        && run.t <= run.requests
        && layers.k == run.k
        && layers.a == run.a
        && layers.requests == run.requests
}

// Whether at most k pages are cached, by page rising, with marks of 0 or 1.
fn buffer_formed(k: u32, count: u32, cache: &[u32], marks: &[u32]) -> bool
    requires { (k ≤ length cache.now) × (k ≤ length marks.now) }
    ensures { result ≡ buffer_formed k count cache.now marks.now }
{
    let n = count as usize;
    count <= k && marked::rises(&cache[..n]) && marked::marks_formed(&marks[..n])
}

// Whether no t0 is above t, and each is 0 in an unused place. The whole lists are looked at, several places at once.
fn times_formed(t: u32, numbers: &[u32], times: &[u32]) -> bool
    requires { length times.now ≡ length numbers.now }
    ensures { result ≡ times_formed t numbers.now times.now }
{
    let mut bad = false;
    for (i, time) in times.iter().enumerate() {
        bad |= (*time > t) | ((numbers[i] == 0) & (*time != 0));
    }
    !bad
}

// The refusals in order; where none holds, how many pages are revealed. The layers' table is judged by a question to the layers: sizes and lengths are
// judged before it, so that what it refuses is ill formed.
pub(crate) fn judge(run: MarkRun, count: u32, lists: LentLists) -> Result<u32, Refusal>
    ensures { JudgedTo run count (lent lists.entry.cache.now lists.entry.marks.now lists.entry.priorities.now lists.entry.evicted.now
        lists.entry.pages.now lists.entry.numbers.now lists.entry.times.now) result }
{
    let k = run.k;
    let a = run.a;
    Sizes { k, a }.check()?;
    if lists.refused(k as usize, a as usize) {
        return Err(Refusal::TooLittleRoom);
    }
    if !record_formed(run) || !buffer_formed(k, count, lists.cache, lists.marks) {
        return Err(Refusal::IllFormed);
    }
    let Ok(revealed) = layers::revealed(run.layers, lists.pages, lists.numbers) else {
        return Err(Refusal::IllFormed);
    };
    if !times_formed(run.t, lists.numbers, lists.times) {
        return Err(Refusal::IllFormed);
    }
    if run.requests == MarkRun::COUNTER_MAX {
        return Err(Refusal::CounterFull);
    }
    Ok(revealed)
}

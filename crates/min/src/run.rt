// One pass of farthest next use over a trace, from the empty buffer.
ghost use Rattle.std.specs.Prelude.{[], ◌≡◌, ◌<◌, ◌+◌, length, drop, get_or};
ghost use Rattle.lists.specs.Pages.{count};
ghost use Rattle.paging.specs.Numbers.{kind_of_outcome};
ghost use Rattle.paging.specs.Policy.{is_bundled, is_load};
ghost use Rattle.keys.specs.Keys.{key, kind_in, kinds_of};
ghost use Rattle.min.specs.inner.Run.{Accepted, PassReady};

use keys::Held;
use paging::{Outcome, Sizes, Totals};

// At most as many keys as pages can be held.
const K_MAX: usize = Sizes::K_MAX as usize;

// The keys of the pages held.
pub(crate) type Buffer = Held<K_MAX>;

// What a pass goes over: a trace with the left of each request, for sizes that are not refused.
#[derive(Clone, Copy)]
pub(crate) struct Pass<'a> {
    pub k: usize,
    pub a: usize,
    pub trace: &'a [u32],
    pub lefts: &'a [u32],
    ghost ready: { PassReady k a trace.now lefts.now },
}

impl<'a> Pass<'a> {
    // The lefts go into the places lent for them.
    pub(crate) fn over(k: u32, a: u32, trace: &'a [u32], lefts: &'a mut [u32]) -> Pass<'a>
        requires { Accepted k a trace.now lefts.old }
        ensures { (result.k ≡ k) × ((result.a ≡ a) × (result.trace.now ≡ trace.now)) }
    {
        next_use::fill_lefts(trace, lefts);
        Pass {
            k: k as usize,
            a: a as usize,
            trace,
            lefts,
        }
    }

    // What request t is, by the keys before it, and the key that its page has from then on.
    #[tactic(auto, using(crate::proofs::Turn::lefts_reach))]
    pub(crate) fn asked(self, held: &Buffer, t: usize) -> (Outcome, u64)
        requires { t < length self.trace.now }
        ensures { (kind_of_outcome result.0 ≡ kind_in self.entry.k (key (drop t self.entry.trace.now) (get_or self.entry.trace.now t 0)) held.now)
            × (result.1 ≡ key (drop (t + 1) self.entry.trace.now) (get_or self.entry.trace.now t 0)) }
    {
        let page = self.trace[t];
        let present = keys::key_of((self.trace.len() - t) as u32, page);
        let next = keys::key_of(self.lefts[t], page);
        let outcome = held.outcome(self.k, present);
        (outcome, next)
    }

    // How many bundles and loads it makes. write::put_bundles is the same pass with EVs in place of counts. They are two, since no byte is written
    // before the counts have told that the bytes suffice, and since a proof knows nothing of what a closure would write into the lent bytes; a request
    // is read alike in both, by `asked` and `serve`.
    pub(crate) fn counts(self) -> Totals
        ensures { (result.bundles ≡ count is_bundled (kinds_of self.entry.k self.entry.a self.entry.trace.now []))
            × (result.loads ≡ count is_load (kinds_of self.entry.k self.entry.a self.entry.trace.now [])) }
    {
        let mut held = Buffer::none();
        let mut bundles = 0;
        let mut loads = 0;
        for t in 0..self.trace.len() {
            let (outcome, next) = self.asked(&held, t);
            held.serve(self.a, outcome, next);
            bundles += outcome.bundles();
            loads += outcome.loads();
        }
        Totals { bundles, loads }
    }
}

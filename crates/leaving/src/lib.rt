// The cached pages that leave together: a bundle, taken out of three lists beside each other, which have the cached pages by page rising, their marks and
// their priorities. An inner crate: other crates call it.
#![tactic(auto)]

ghost use Rattle.leaving.specs.Buffer.{BundleReady, BundleLeft};

mod places;
mod singly;
mod sorting;
mod together;

// So few pages are quicker found one by one than by sorting all.
const FEW: usize = 16;

// Takes a of the n cached pages out, and puts their page numbers into the evicted list, the first to leave first. The lists that are written are lent one by
// one, as C lends them; where they are only read they are one struct.
pub fn bundle(
    a: usize,
    n: usize,
    cache: &mut [u32],
    marks: &mut [u32],
    priorities: &mut [u64],
    evicted: &mut [u32],
)
    requires { BundleReady a n cache.old marks.old priorities.old evicted.old }
    ensures { BundleLeft a n cache.old marks.old priorities.old evicted.old
        cache.new marks.new priorities.new evicted.new }
{
    if a <= FEW {
        singly::take_singly(a, n, cache, marks, priorities, evicted);
        return;
    }
    together::take_together(a, n, cache, marks, priorities, evicted);
}

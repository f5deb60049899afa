// Entries moved within a lent list, copied into one, and cleared.
ghost use Rattle.std.specs.Prelude.{◌≤◌, ◌++◌, ◌≡◌, length, take, drop, replicate};
ghost use Rattle.lists.specs.Places.{moved_to_end, first_dropped, pasted};

// The entry at the place goes to the end of the list, and each later one moves down a place.
#[tactic(auto, using(crate::proofs::Leaves::moved_by_copying))]
pub fn to_end<T: Copy>(list: &mut [T], at: usize)
    ensures { list.new ≡ moved_to_end at list.old }
{
    if at < list.len() {
        let entry = list[at];
        let last = list.len() - 1;
        list.copy_within(at + 1.., at);
        list[last] = entry;
    }
}

// The first n pages go, the others move to the front, and the places behind them become zero.
pub fn drop_first(pages: &mut [u32], n: usize)
    ensures { pages.new ≡ first_dropped n pages.old }
{
    let out = n.min(pages.len());
    let left = pages.len() - out;
    pages.copy_within(out.., 0);
    fill_zero(&mut pages[left..]);
}

// Zero in every place.
#[tactic(auto, using(crate::proofs::Leaves::zero_rules))]
pub fn fill_zero(pages: &mut [u32])
    ensures { pages.new ≡ replicate (length pages.old) 0 }
{
    // A loop: `fill` clones its value into all places but the last, which it stores apart.
    for i in 0..pages.len() {
        pages[i] = 0;
    }
}

// As many entries of the first list as the second has room for go into its first places. Two cases: in the first a caller's array has its length known
// when it is compiled, and needs no loop.
#[tactic(auto, using(crate::proofs::Leaves::pasted_rules))]
pub fn copy<T: Copy>(from: &[T], to: &mut [T])
    ensures { to.new ≡ pasted from.now to.old }
{
    if from.len() <= to.len() {
        put(from, to, from.len());
    } else {
        put(from, to, to.len());
    }
}

// The first n entries of the first list go into the first n places of the second.
#[tactic(auto, using(crate::proofs::Leaves::put_rules))]
fn put<T: Copy>(from: &[T], to: &mut [T], n: usize)
    requires { (n ≤ length from.now) × (n ≤ length to.old) }
    ensures { to.new ≡ take n from.now ++ drop n to.old }
{
    // A loop: `copy_from_slice` would want `memmove` from outside.
    for (i, entry) in from[..n].iter().enumerate() {
        to[i] = *entry;
    }
}

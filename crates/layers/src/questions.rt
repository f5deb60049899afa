// What the questions read off a table: the run of single-page layers at the top end, and the layers that the pages of a set are in.
ghost use Rattle.std.specs.Prelude.{ℕ, ◌+◌, ◌≤◌, ◌<◌, map, ◌≡◌, length, get_or};
ghost use Rattle.paging.specs.Refusals.{largest_k};
ghost use Rattle.paging.specs.Rows.{rows_of};
ghost use Rattle.paging.specs.Table.{number_in, revealed};
ghost use Rattle.layers.specs.inner.Sizes.{Tallied, numbered, Walked};

use crate::formed::NUMBERS;
use crate::{PossibleAnswer, formed};

// How many layers from s down have a single page.
#[tactic(auto, using(crate::proofs::Asking::revealed_rules))]
pub(crate) fn singles_at_top(numbers: &[u32], s: u32) -> u32
    requires { s ≤ largest_k }
    ensures { result ≡ revealed s (numbered numbers.now) }
{
    let sizes = formed::tally(numbers);
    let mut n = 0;
    for i in (0..s as usize).rev() {
        if sizes[i + 1] != 1 {
            return n;
        }
        n += 1;
    }
    n
}

// How many pages of the set have each number: `tally`, of numbers that stand in no list but are looked up one by one.
pub(crate) fn tally_set(pages: &[u32], numbers: &[u32], set: &[u32]) -> [usize; NUMBERS]
    requires { length pages.now ≡ length numbers.now }
    ensures { Tallied (map (number_in (rows_of numbers.now pages.now)) set.now) result }
{
    let mut sizes = [0usize; NUMBERS];
    for page in set {
        let n = table::number_in(pages, numbers, *page) as usize;
        if n < NUMBERS {
            sizes[n] += 1;
        }
    }
    sizes
}

// The smallest layer i of 0 to s such that more than i pages are in L0 to Li, if there is one.
pub(crate) fn first_broken(sizes: &[usize; NUMBERS], s: u32) -> PossibleAnswer
    requires { (length sizes.now ≡ largest_k + 1) × (s ≤ largest_k) × ((j : ℕ) → j < largest_k + 1 → get_or sizes.now j 0 ≤ largest_k) }
    ensures { Walked s sizes.now result }
{
    let mut total = 0;
    for i in 0..s + 1 {
        let at = i as usize;
        total += sizes[at];
        if total > at {
            return PossibleAnswer::BrokenAt(i);
        }
    }
    PossibleAnswer::Yes
}

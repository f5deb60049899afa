// Whether a record and a table are well formed (document 01, "Well formed"), for refusal 9.
ghost use Rattle.std.specs.Prelude.{◌+◌, ◌≤◌, ◌<◌, ◌≡◌, eqb, ltb, length};
ghost use Rattle.lists.specs.Choice.{◌or◌};
ghost use Rattle.lists.specs.Pages.{count};
ghost use Rattle.paging.specs.Refusals.{largest_k};
ghost use Rattle.paging.specs.Rows.{row_at, rows_of};
ghost use Rattle.paging.specs.Table.{above_zero};
ghost use Rattle.layers.specs.Formed.{is_unused, follows, ordered, table_formed, counts_formed, layers_well_formed};
ghost use Rattle.layers.specs.inner.Sizes.{Tallied, present_in, single_in, numbered, sizes_formed};

use crate::LayersRun;

// The numbers that a place can have: 0, and those of the layers.
pub(crate) const NUMBERS: usize = LayersRun::K_MAX as usize + 1;

// The place is used, or it holds two zeros.
fn used_or_zero(n: u32, p: u32) -> bool
    ensures { result ≡ (is_unused (row_at n p) or above_zero (row_at n p)) }
{
    n != 0 || p == 0
}

// The row of m and q may stand right behind that of n and p.
fn may_follow(n: u32, p: u32, m: u32, q: u32) -> bool
    ensures { result ≡ follows (row_at n p) (row_at m q) }
{
    if m == 0 {
        return q == 0;
    }
    n != 0 && rows::row_before(n, p, m, q)
}

// Whether the table is ordered.
fn in_order(pages: &[u32], numbers: &[u32]) -> bool
    requires { length pages.now ≡ length numbers.now }
    ensures { result ≡ ordered (rows_of numbers.now pages.now) }
{
    if pages.is_empty() {
        return true;
    }
    if !used_or_zero(numbers[0], pages[0]) {
        return false;
    }
    for i in 1..pages.len() {
        if !may_follow(numbers[i - 1], pages[i - 1], numbers[i], pages[i]) {
            return false;
        }
    }
    true
}

// How many places have each number. A number of 32 bits is an index as it is; the library has no `From` for that.
pub(crate) fn tally(numbers: &[u32]) -> [usize; NUMBERS]
    ensures { Tallied numbers.now result }
{
    let mut sizes = [0usize; NUMBERS];
    for number in numbers {
        let n = *number as usize;
        if n < NUMBERS {
            sizes[n] += 1;
        }
    }
    sizes
}

// How many places are used.
fn used(numbers: &[u32]) -> usize
    ensures { result ≡ count (λ n. ltb 0 n) numbers.now }
{
    let mut n = 0;
    for number in numbers {
        n += usize::from(*number > 0);
    }
    n
}

// Whether no number is above s.
fn none_above(numbers: &[u32], s: u32) -> bool
    ensures { result ≡ eqb (count (λ n. ltb s n) numbers.now) 0 }
{
    numbers.iter().all(|n| *n <= s)
}

// Whether layers 1 to s are all present.
fn present(sizes: &[usize; NUMBERS], s: usize) -> bool
    requires { (length sizes.now ≡ largest_k + 1) × (s < largest_k + 1) }
    ensures { result ≡ present_in s sizes.now }
{
    for i in (0..s).rev() {
        if sizes[i + 1] == 0 {
            return false;
        }
    }
    true
}

// Whether each layer of 1 to s that is above the limit has no second page.
fn single_above(sizes: &[usize; NUMBERS], limit: usize, s: usize) -> bool
    requires { (length sizes.now ≡ largest_k + 1) × (s < largest_k + 1) }
    ensures { result ≡ single_in limit s sizes.now }
{
    for i in (limit..s).rev() {
        if sizes[i + 1] > 1 {
            return false;
        }
    }
    true
}

// Whether the layers' sizes are well formed.
fn layers_sized(run: LayersRun, numbers: &[u32]) -> bool
    requires { (run.a ≤ run.k) × (run.k ≤ largest_k) × (run.s ≤ run.k) }
    ensures { result ≡ sizes_formed run (numbered numbers.now) }
{
    let limit = (run.k - run.a) as usize;
    let s = run.s as usize;
    let sizes = tally(numbers);
    present(&sizes, s)
        && single_above(&sizes, limit, s)
        && (limit < s || single_above(&sizes, 0, s))
}

// Whether the record and the table are as document 01 asks, for sizes that were judged.
fn table_formed(run: LayersRun, pages: &[u32], numbers: &[u32]) -> bool
    requires { (length pages.now ≡ length numbers.now) × (run.a ≤ run.k) × (run.k ≤ largest_k) }
    ensures { result ≡ table_formed run (rows_of numbers.now pages.now) }
{
    if run.evictions > run.requests || run.s > run.k || !in_order(pages, numbers) {
        return false;
    }
    let n = used(numbers);
    repeats::no_page_twice(&pages[..n]) && none_above(numbers, run.s) && layers_sized(run, numbers)
}

// Whether the three counts add up to the requests, and the joins are the bundles. The counts are any numbers of 32 bits, so the sum has 64.
fn counts_formed(run: LayersRun) -> bool
    ensures { result ≡ counts_formed run }
{
    let sum = u64::from(run.appends) + u64::from(run.joins) + u64::from(run.lifts);
    sum == u64::from(run.requests) && run.joins == run.evictions
}

// Whether the record and the table are well formed, for sizes that were judged. The counts take a few steps only, so they come first.
pub(crate) fn well_formed(run: LayersRun, pages: &[u32], numbers: &[u32]) -> bool
    requires { (length pages.now ≡ length numbers.now) × (run.a ≤ run.k) × (run.k ≤ largest_k) }
    ensures { result ≡ layers_well_formed run (rows_of numbers.now pages.now) }
{
    counts_formed(run) && table_formed(run, pages, numbers)
}

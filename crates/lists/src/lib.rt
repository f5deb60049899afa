// Lists of pages: the vocabulary that the code and the theory share is in specs/, here are questions on
// lent lists, and in moves.rt what changes them.
#![tactic(auto)]

ghost use Rattle.std.specs.Prelude.{◌+◌, ◌≤◌, ◌≡◌, length, drop};
ghost use Rattle.lists.specs.Pages.{mem};
ghost use Rattle.lists.specs.Places.{place};

pub mod moves;

// The places that are looked at together: a part without the page is passed over.
const PART: usize = 32;

// Whether the page stands in the list. The whole list is looked at, eight places or more at once, which is quicker than to stop early.
#[tactic(auto, using(crate::proofs::Leaves::has_turn))]
pub fn has(pages: &[u32], page: u32) -> bool
    ensures { result ≡ mem page pages.now }
{
    let mut found = false;
    for other in pages {
        found |= *other == page;
    }
    found
}

// The first place of the page, or the length where it is not in the list. Inlined: among few pages a call takes longer than the look.
#[inline(always)]
pub fn find(pages: &[u32], page: u32) -> usize
    ensures { result ≡ place page pages.now }
{
    let passed = parts_without(pages, page);
    for (i, other) in pages[passed..].iter().enumerate() {
        if *other == page {
            return passed + i;
        }
    }
    pages.len()
}

// How many places at the start, part by part, do not have the page.
fn parts_without(pages: &[u32], page: u32) -> usize
    ensures { (result ≤ length pages.now) × (place page pages.now ≡ result + place page (drop result pages.now)) }
{
    for part in 0..pages.len() / PART {
        let from = part * PART;
        if has(&pages[from..from + PART], page) {
            return from;
        }
    }
    pages.len() / PART * PART
}

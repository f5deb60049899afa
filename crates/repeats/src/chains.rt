// Repeats in a list, looked for in chains: the places whose pages share a slot, from the last one on.
ghost use Rattle.std.specs.Prelude.{◌-◌, ◌≤◌, ◌<◌, ◌≡◌, length};
ghost use Rattle.lists.specs.Pages.{distinct};
ghost use Rattle.repeats.specs.Chains.{in_chain, Linked, Unlinked};

use crate::slots::slot;

// Whether the page is in the chain that starts at a place. A link is one more than a place, and 0 ends the chain.
fn in_chain(pages: &[u32], before: &[u32], start: u32, page: u32) -> bool
    requires { Linked start pages.now before.now }
    ensures { result ≡ in_chain pages.now before.now start page }
{
    // A loop, since each turn goes where the link before it leads.
    let mut link = start as usize;
    while link > 0 {
        let place = link - 1;
        link = before[place] as usize;
        if pages[place] == page {
            return true;
        }
    }
    false
}

// Whether no page stands in the list twice. `heads` has for each slot the link to its last place, `before` for each place the link to the one before it.
fn chained_once(pages: &[u32], heads: &mut [u32], before: &mut [u32]) -> bool
    requires { Unlinked (length heads.old - 1) pages.now heads.old before.old }
    ensures { result ≡ distinct pages.now }
{
    let mask = heads.len() - 1;
    for (i, &page) in pages.iter().enumerate() {
        let at = slot(page, mask);
        let last = heads[at];
        if in_chain(pages, before, last, page) {
            return false;
        }
        before[i] = last;
        heads[at] = i as u32 + 1;
    }
    true
}

// Whether no page stands in the list twice, with tables on the stack: of so many slots, for so many places at most.
pub(crate) fn no_page_twice_of<const SLOTS: usize, const PLACES: usize>(pages: &[u32]) -> bool
    requires { (0 < SLOTS) × (SLOTS ≤ 65536) × (PLACES ≤ 65536) × (length pages.now ≤ PLACES) }
    ensures { result ≡ distinct pages.now }
{
    let mut heads = [0u32; SLOTS];
    let mut before = [0u32; PLACES];
    chained_once(pages, &mut heads, &mut before)
}

// The PFs of the open request: `count` records from an offset of the schedule on. There may be any number of them.
ghost use Rattle.std.specs.Prelude.{◌+◌, ◌*◌, ◌≤◌, ◌++◌, ◌≡◌, length};
ghost use Rattle.lists.specs.Pages.{mem};
ghost use Rattle.paging.specs.Refusals.{largest_k};
ghost use Rattle.judge.specs.inner.Fetches.{fetched_pages};

use crate::buffer::Held;

// Whether the page is one of theirs.
pub(crate) fn fetched(schedule: &[u8], from: usize, count: usize, page: u32) -> bool
    requires { from + 10 * count ≤ length schedule.now }
    ensures { result ≡ mem page (fetched_pages schedule.now from count) }
{
    for i in 0..count {
        if wire::read32(schedule, from + 10 * i + 6) == page {
            return true;
        }
    }
    false
}

// Their pages join the pages held.
pub(crate) fn settle(schedule: &[u8], from: usize, count: usize, held: &mut Held)
    requires { (from + 10 * count ≤ length schedule.now) × (length held.old + count ≤ largest_k) }
    ensures { held.new ≡ held.old ++ fetched_pages schedule.now from count }
{
    for i in 0..count {
        held.push(wire::read32(schedule, from + 10 * i + 6));
    }
}

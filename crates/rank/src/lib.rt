// The rank of a page for marking: the time and t0 of a requested page, the priority that it gets, and which of two cached pages leaves first. An inner
// crate: other crates call it.
#![tactic(auto)]

ghost use Rattle.std.specs.Prelude.{◌+◌, ◌*◌, ◌-◌, ◌≤◌, ◌<◌, ◌≡◌, leb, ltb, length, get_or};
ghost use Rattle.lists.specs.Choice.{pick, ◌and◌};
ghost use Rattle.paging.specs.Refusals.{full_counter};
ghost use Rattle.marking.specs.Marking.{cached_at, sooner};

// A cached page with what stands beside it. The order of the fields is that in which pages leave: unmarked ones first, then the lower priority, then the
// lower page.
#[derive(Clone, Copy, PartialEq, Eq, PartialOrd, Ord)]
pub struct CachedPage {
    pub mark: u32,
    pub priority: u64,
    pub page: u32,
}

impl CachedPage {
    // Whether it leaves before the other.
    pub fn leaves_before(self, other: CachedPage) -> bool
        ensures { result ≡ sooner (cached_at self.page self.mark self.priority) (cached_at other.page other.mark other.priority) }
    {
        self < other
    }
}

// Whether the page at a place of the table is revealed: it is one of the last so many used places.
pub fn is_revealed(at: usize, used: usize, revealed: usize) -> bool
    ensures { result ≡ (leb (used - revealed) at and ltb at used) }
{
    at < used && used - at <= revealed
}

// The time: it rises at each request of a page that was not revealed.
pub fn time_after(t: u32, revealed: bool) -> u32
    requires { t < full_counter }
    ensures { result ≡ pick revealed t (t + 1) }
{
    if revealed { t } else { t + 1 }
}

// t0 of the page: as it stands beside its place in the table, and the present time where it has none.
pub fn t0_of(times: &[u32], at: usize, used: usize, t: u32) -> u32
    requires { used ≤ length times.now }
    ensures { result ≡ pick (ltb at used) (get_or times.now at 0) t }
{
    if at < used { times[at] } else { t }
}

// RDM: nine times the time less t0.
pub fn priority(t: u32, t0: u32) -> u64
    requires { t0 ≤ t }
    ensures { result ≡ 9 * t - t0 }
{
    9 * u64::from(t) - u64::from(t0)
}

// How many pages are revealed after a request: one after a 1b, else one more if the page was not.
pub fn revealed_after(joined: bool, revealed: bool, before: usize) -> usize
    requires { before < 65536 }
    ensures { result ≡ pick joined 1 (pick revealed before (before + 1)) }
{
    if joined {
        1
    } else if revealed {
        before
    } else {
        before + 1
    }
}

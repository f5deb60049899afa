// A request served on the layers' table with a third list beside it: t0 of each page that has a row. The table is in order, and the place of the
// requested page in it is known. An inner crate: other crates call it.
#![tactic(auto)]

ghost use Rattle.timed.specs.Timed.{ReadyFor, ServedAs};

use paging::RuleApplied;
use table::Stepped;

pub mod joining;
pub mod lifting;

// A request: the sizes, s and how many places are used before it, the page, its first place among the used ones, and the time that it gets.
#[derive(Clone, Copy)]
pub struct Asked {
    pub k: u32,
    pub a: u32,
    pub s: u32,
    pub page: u32,
    pub time: u32,
    pub at: usize,
    pub used: usize,
}

// Serves a request for a page whose first place among the used ones is `at`, `used` if it has none. A page that had no row gets the time. Where the
// table has no room, nothing is done, and the error is the rule that would apply.
pub fn step(
    asked: Asked,
    pages: &mut [u32],
    numbers: &mut [u32],
    times: &mut [u32],
) -> Result<Stepped, RuleApplied>
    requires { ReadyFor asked numbers.old pages.old times.old }
    ensures { ServedAs asked numbers.old pages.old times.old
        numbers.new pages.new times.new result }
{
    if asked.at < asked.used {
        if numbers[asked.at] == 1 {
            return lifting::lift_lowest(asked, pages, numbers, times);
        }
        return lifting::lift_higher(asked, pages, numbers, times);
    }
    if asked.s < asked.k {
        return joining::append(asked, pages, numbers, times);
    }
    if asked.a < asked.k {
        return joining::join(asked, pages, numbers, times);
    }
    joining::restart(asked, pages, numbers, times)
}

// The sizes of document 01 ("Sizes") with refusals 1 and 2, which every call that has a k and an a judges first, and 3.
// The model itself, traces, LRU, MIN, layers and schedules, is in specs/.
#![tactic(auto)]

ghost use Rattle.std.specs.Prelude.{◌≡◌};
ghost use Rattle.paging.specs.Numbers.{refusal_of};
ghost use Rattle.paging.specs.Refusals.{sizes_refusal, trace_refusal};

mod applied;
mod outcomes;
mod reasons;

pub use crate::applied::RuleApplied;
pub use crate::outcomes::{Outcome, Totals};
pub use crate::reasons::Refusal;

// The largest number of a counter, which has 32 bits. The records that count have it as a constant of their own.
pub const COUNTER_MAX: u32 = 4294967295;

// How the list of the pages held is kept, which decides what a hit does: from the least to the most recently requested page (LRU, MIN), or from
// the oldest load to the newest (oldest load first). specs/Policy.antt says what each comes to.
#[derive(Clone, Copy, Debug, PartialEq, Eq)]
pub enum Keeping {
    ByRequest,
    ByLoad,
}

// The buffer's size k and the bundle's size a, as a call is handed them: any two numbers.
#[derive(Clone, Copy, Debug, PartialEq, Eq)]
pub struct Sizes {
    pub k: u32,
    pub a: u32,
}

impl Sizes {
    // The largest k.
    pub const K_MAX: u32 = 256;

    // The most requests of a trace, as a lent list or as a file.
    pub const TRACE_MAX: usize = 65536;

    // 1 where k is 0 or above 256, 2 where a is 0 or above k.
    #[tactic(auto, using(crate::proofs::Refusals::sizes_rules))]
    pub fn check(self) -> Result<(), Refusal>
        ensures { refusal_of result ≡ sizes_refusal self.k self.a 0 }
    {
        let k = self.k;
        let a = self.a;
        if k == 0 || k > Sizes::K_MAX {
            return Err(Refusal::BufferSize);
        }
        if a == 0 || a > k {
            return Err(Refusal::BundleSize);
        }
        Ok(())
    }

    // The same for a call over a lent trace: then 3 where it has too many requests.
    #[tactic(auto, using(crate::proofs::Refusals::trace_rules))]
    pub fn check_trace(self, trace: &[u32]) -> Result<(), Refusal>
        ensures { refusal_of result ≡ trace_refusal self.k self.a trace.now 0 }
    {
        self.check()?;
        if trace.len() > Sizes::TRACE_MAX {
            return Err(Refusal::TraceTooLong);
        }
        Ok(())
    }
}

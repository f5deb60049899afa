// What a request did, which document 01 answers by number; and what the requests of a trace come to.
ghost use Rattle.std.specs.Prelude.{◌≡◌};
ghost use Rattle.paging.specs.Numbers.{kind_of_outcome};
ghost use Rattle.lists.specs.Pages.{bit};
ghost use Rattle.paging.specs.Policy.{kind_number, is_bundled, is_load};

#[derive(Clone, Copy, Debug, PartialEq, Eq)]
pub enum Outcome {
    // 0: the page was held.
    Hit,
    // 1: there was room for it.
    Load,
    // 2: a bundle was evicted to make room.
    LoadAfterBundle,
}

impl Outcome {
    pub fn number(self) -> u32
        ensures { result ≡ kind_number (kind_of_outcome self) }
    {
        match self {
            Outcome::Hit => 0,
            Outcome::Load => 1,
            Outcome::LoadAfterBundle => 2,
        }
    }

    // The loads that it counts: one, but for a hit.
    pub fn loads(self) -> u32
        ensures { result ≡ bit (is_load (kind_of_outcome self)) }
    {
        u32::from(self != Outcome::Hit)
    }

    // The bundles that it counts.
    pub fn bundles(self) -> u32
        ensures { result ≡ bit (is_bundled (kind_of_outcome self)) }
    {
        u32::from(self == Outcome::LoadAfterBundle)
    }
}

// What a policy comes to over a trace.
#[derive(Clone, Copy, Debug, PartialEq, Eq)]
pub struct Totals {
    pub bundles: u32,
    pub loads: u32,
}

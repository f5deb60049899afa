// The records' lengths in bytes (document 01, "Files"). That of an EV depends on its number of pages; it is worked out here and nowhere
// else (document 02, request 04).
ghost use Rattle.std.specs.Prelude.{◌≡◌};
ghost use Rattle.records.specs.Bytes.{ev_length_answer};
ghost use Rattle.records.specs.Writing.{some_length};

pub const KA: usize = 6;

pub const RQ: usize = 6;

pub const RR: usize = 8;

pub const PF: usize = 10;

// An EV's mark, t and n.
pub const EV_HEAD: usize = 8;

// The most pages of an EV.
pub const PAGES_MAX: usize = paging::Sizes::K_MAX as usize;

// The length of an EV with n pages. No EV has more than 256: None for more, where 4n might not even fit.
#[tactic(auto, using(crate::proofs::Lengths::length_rules))]
pub fn ev_length(n: usize) -> Option<usize>
    ensures { result ≡ some_length (ev_length_answer n) }
{
    if n > PAGES_MAX {
        return None;
    }
    Some(EV_HEAD + 4 * n)
}

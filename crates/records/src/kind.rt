// The kind of a record, which its mark alone decides (document 01, "Files"; RR is document 02's, request 03).
ghost use Rattle.std.specs.Prelude.{◌≡◌};
ghost use Rattle.records.specs.Answers.{kind_mark};
ghost use Rattle.records.specs.Marks.{mark_of};

use paging::Refusal;

#[derive(Clone, Copy, Debug, PartialEq, Eq)]
pub enum Kind {
    Ka,
    Rq,
    Rr,
    Ev,
    Pf,
}

impl Kind {
    // The marks as 16-bit numbers: two ASCII letters, the first in the lower byte.
    pub const KA: u16 = 0x414b;

    pub const RQ: u16 = 0x5152;

    pub const RR: u16 = 0x5252;

    pub const EV: u16 = 0x5645;

    pub const PF: u16 = 0x4650;
}

// A kind's mark; an unknown mark is 4.
impl TryFrom<u16> for Kind {
    type Error = Refusal;

    ghost try_from_gives = { λ mark result. kind_mark result ≡ mark_of mark };

    #[tactic(auto, using(crate::proofs::Marks::mark_other), unfolding(crate::specs::Marks::mark_of))]
    fn try_from(mark: u16) -> Result<Kind, Refusal> {
        match mark {
            Kind::KA => Ok(Kind::Ka),
            Kind::RQ => Ok(Kind::Rq),
            Kind::RR => Ok(Kind::Rr),
            Kind::EV => Ok(Kind::Ev),
            Kind::PF => Ok(Kind::Pf),
            _ => Err(Refusal::WrongMark),
        }
    }
}

// The writers (document 01, "Files"): each record into lent bytes from an offset on; each answers the offset behind it. Own refusals first, then 9, then 8.
// What they share is three lines: a function for them all would take the call of `put` as a closure, and say of it what it leaves behind.
ghost use Rattle.std.specs.Prelude.{◌-◌, ◌≡◌, ltb};
ghost use Rattle.paging.specs.Numbers.{refusal_of};
ghost use Rattle.paging.specs.Refusals.{refuse};
ghost use Rattle.records.specs.Answers.{written_answer};
ghost use Rattle.records.specs.Bytes.{ka_bytes, rq_bytes, rr_bytes, ev_bytes, pf_bytes};
ghost use Rattle.records.specs.Writing.{ka_refusal, rq_refusal, rr_refusal, ev_refusal, pf_refusal, wrote, out_after};

use crate::{length, put};
use paging::{Refusal, Sizes};

#[tactic(auto, using(crate::proofs::Writing::ka_rules))]
pub fn ka(out: &mut [u8], at: usize, k: u32, a: u32) -> Result<usize, Refusal>
    ensures { (written_answer result ≡ wrote (ka_refusal k a out.old at) (ka_bytes k a) at)
        × (out.new ≡ out_after (ka_refusal k a out.old at) (ka_bytes k a) out.old at) }
{
    Sizes { k, a }.check()?;
    room(out.len(), at, length::KA)?;
    let size = put::ka(&mut out[at..], k as u16, a as u16).unwrap();
    Ok(at + size)
}

pub fn rq(out: &mut [u8], at: usize, page: u32) -> Result<usize, Refusal>
    ensures { (written_answer result ≡ wrote (rq_refusal page out.old at) (rq_bytes page) at)
        × (out.new ≡ out_after (rq_refusal page out.old at) (rq_bytes page) out.old at) }
{
    room(out.len(), at, length::RQ)?;
    let size = put::rq(&mut out[at..], page).unwrap();
    Ok(at + size)
}

// So many requests for a page in a row: 13 for none, then 9, then 8.
#[tactic(auto, using(crate::proofs::Writing::rr_rules))]
pub fn rr(out: &mut [u8], at: usize, page: u32, times: u16) -> Result<usize, Refusal>
    ensures { (written_answer result ≡ wrote (rr_refusal page times out.old at) (rr_bytes page times) at)
        × (out.new ≡ out_after (rr_refusal page times out.old at) (rr_bytes page times) out.old at) }
{
    if times == 0 {
        return Err(Refusal::EmptyRun);
    }
    room(out.len(), at, length::RR)?;
    let size = put::rr(&mut out[at..], page, times).unwrap();
    Ok(at + size)
}

#[tactic(auto, using(crate::proofs::Writing::ev_rules))]
pub fn ev(out: &mut [u8], at: usize, t: u32, pages: &[u32]) -> Result<usize, Refusal>
    ensures { (written_answer result ≡ wrote (ev_refusal t pages.now out.old at) (ev_bytes t pages.now) at)
        × (out.new ≡ out_after (ev_refusal t pages.now out.old at) (ev_bytes t pages.now) out.old at) }
{
    let n = pages.len();
    if n == 0 {
        return Err(Refusal::WrongRecord);
    }
    if n > length::PAGES_MAX {
        return Err(Refusal::WrongRecord);
    }
    room(out.len(), at, length::ev_length(n).unwrap())?;
    let size = put::ev(&mut out[at..], t, pages).unwrap();
    Ok(at + size)
}

pub fn pf(out: &mut [u8], at: usize, t: u32, page: u32) -> Result<usize, Refusal>
    ensures { (written_answer result ≡ wrote (pf_refusal t page out.old at) (pf_bytes t page) at)
        × (out.new ≡ out_after (pf_refusal t page out.old at) (pf_bytes t page) out.old at) }
{
    room(out.len(), at, length::PF)?;
    let size = put::pf(&mut out[at..], t, page).unwrap();
    Ok(at + size)
}

// A record of `size` bytes is to go into `len` lent bytes from `at` on: 9, then 8.
#[tactic(auto, using(crate::proofs::Writing::room_rules))]
fn room(len: usize, at: usize, size: usize) -> Result<(), Refusal>
    ensures { refusal_of result ≡ refuse (ltb len at) 9 (refuse (ltb (len - at) size) 8 0) }
{
    if at > len {
        return Err(Refusal::IllFormed);
    }
    if len - at < size {
        return Err(Refusal::TooLittleRoom);
    }
    Ok(())
}

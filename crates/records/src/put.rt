// Below the writers, and inner: a record goes to the start of the rest of the lent bytes. Each function answers the record's length; where
// the rest is too short it answers None and changes nothing. The writers have judged that by its number before.
ghost use Rattle.std.specs.Prelude.{◌+◌, ◌*◌, ◌≤◌, false, ◌≡◌, eqb, length};
ghost use Rattle.wire.specs.Numbers.{all_bytes32, placed};
ghost use Rattle.records.specs.Bytes.{ka_bytes, rq_bytes, rr_bytes, ev_bytes, pf_bytes};
ghost use Rattle.records.specs.Writing.{put_length, put_bytes, some_length, pages_refused};

use crate::kind::Kind;
use crate::length;

pub fn ka(rest: &mut [u8], k: u16, a: u16) -> Option<usize>
    ensures { (result ≡ some_length (put_length false (ka_bytes k a) rest.old))
        × (rest.new ≡ put_bytes false (ka_bytes k a) rest.old) }
{
    if rest.len() < length::KA {
        return None;
    }
    wire::write16(rest, 0, Kind::KA);
    wire::write16(rest, 2, k);
    wire::write16(rest, 4, a);
    Some(length::KA)
}

pub fn rq(rest: &mut [u8], page: u32) -> Option<usize>
    ensures { (result ≡ some_length (put_length false (rq_bytes page) rest.old))
        × (rest.new ≡ put_bytes false (rq_bytes page) rest.old) }
{
    if rest.len() < length::RQ {
        return None;
    }
    rq_at(rest, 0, page);
    Some(length::RQ)
}

// The same from an offset on, where there is room for it: nothing is judged.
pub fn rq_at(out: &mut [u8], at: usize, page: u32)
    requires { at + 6 ≤ length out.old }
    ensures { out.new ≡ placed out.old at (rq_bytes page) }
{
    wire::write16(out, at, Kind::RQ);
    wire::write32(out, at + 2, page);
}

// A run of no request is not written either.
pub fn rr(rest: &mut [u8], page: u32, times: u16) -> Option<usize>
    ensures { (result ≡ some_length (put_length (eqb times 0) (rr_bytes page times) rest.old))
        × (rest.new ≡ put_bytes (eqb times 0) (rr_bytes page times) rest.old) }
{
    if times == 0 || rest.len() < length::RR {
        return None;
    }
    rr_at(rest, 0, page, times);
    Some(length::RR)
}

// The same from an offset on, where there is room for it: nothing is judged.
pub fn rr_at(out: &mut [u8], at: usize, page: u32, times: u16)
    requires { at + 8 ≤ length out.old }
    ensures { out.new ≡ placed out.old at (rr_bytes page times) }
{
    wire::write16(out, at, Kind::RR);
    wire::write32(out, at + 2, page);
    wire::write16(out, at + 6, times);
}

// An EV with no page or more than 256 is not written either.
pub fn ev(rest: &mut [u8], t: u32, pages: &[u32]) -> Option<usize>
    ensures { (result ≡ some_length (put_length (pages_refused (length pages.now)) (ev_bytes t pages.now) rest.old))
        × (rest.new ≡ put_bytes (pages_refused (length pages.now)) (ev_bytes t pages.now) rest.old) }
{
    let n = pages.len();
    let size = length::ev_length(n)?;
    if n == 0 || rest.len() < size {
        return None;
    }
    wire::write16(rest, 0, Kind::EV);
    wire::write32(rest, 2, t);
    wire::write16(rest, 6, n as u16);
    list(rest, pages);
    Some(size)
}

pub fn pf(rest: &mut [u8], t: u32, page: u32) -> Option<usize>
    ensures { (result ≡ some_length (put_length false (pf_bytes t page) rest.old))
        × (rest.new ≡ put_bytes false (pf_bytes t page) rest.old) }
{
    if rest.len() < length::PF {
        return None;
    }
    wire::write16(rest, 0, Kind::PF);
    wire::write32(rest, 2, t);
    wire::write32(rest, 6, page);
    Some(length::PF)
}

// The pages of an EV, behind its fixed fields.
fn list(rest: &mut [u8], pages: &[u32])
    requires { 8 + 4 * length pages.now ≤ length rest.old }
    ensures { rest.new ≡ placed rest.old 8 (all_bytes32 pages.now) }
{
    for (i, page) in pages.iter().enumerate() {
        wire::write32(rest, length::EV_HEAD + 4 * i, *page);
    }
}

// The writers: a record into lent bytes from an offset on. The answer's fields: refusal, the offset behind the record.
ghost use Rattle.std.specs.Prelude.{◌≡◌};
ghost use Rattle.lists.specs.Places.{pasted};
ghost use Rattle.records.specs.Bytes.{ka_bytes, rq_bytes, rr_bytes, ev_bytes, pf_bytes};
ghost use Rattle.records.specs.Writing.{ka_refusal, rq_refusal, rr_refusal, ev_refusal, pf_refusal, wrote, out_after};
ghost use Rattle.exports.specs.Cases.{wrote_fields};

use crate::store::length_fields;
use lists::moves::copy;
use records::write;

#[unsafe(no_mangle)]
pub extern "C" fn write_ka(bytes: &mut [u8], at: usize, k: u32, a: u32, out: &mut [u64])
    ensures { (out.new ≡ pasted (wrote_fields (wrote (ka_refusal k a bytes.old at) (ka_bytes k a) at)) out.old)
        × (bytes.new ≡ out_after (ka_refusal k a bytes.old at) (ka_bytes k a) bytes.old at) }
{
    let all = length_fields(write::ka(bytes, at, k, a));
    copy(&all, out);
}

#[unsafe(no_mangle)]
pub extern "C" fn write_rq(bytes: &mut [u8], at: usize, page: u32, out: &mut [u64])
    ensures { (out.new ≡ pasted (wrote_fields (wrote (rq_refusal page bytes.old at) (rq_bytes page) at)) out.old)
        × (bytes.new ≡ out_after (rq_refusal page bytes.old at) (rq_bytes page) bytes.old at) }
{
    let all = length_fields(write::rq(bytes, at, page));
    copy(&all, out);
}

#[unsafe(no_mangle)]
pub extern "C" fn write_rr(bytes: &mut [u8], at: usize, page: u32, times: u16, out: &mut [u64])
    ensures { (out.new ≡ pasted (wrote_fields (wrote (rr_refusal page times bytes.old at) (rr_bytes page times) at)) out.old)
        × (bytes.new ≡ out_after (rr_refusal page times bytes.old at) (rr_bytes page times) bytes.old at) }
{
    let all = length_fields(write::rr(bytes, at, page, times));
    copy(&all, out);
}

#[unsafe(no_mangle)]
pub extern "C" fn write_ev(bytes: &mut [u8], at: usize, t: u32, pages: &[u32], out: &mut [u64])
    ensures { (out.new
        ≡ pasted (wrote_fields (wrote (ev_refusal t pages.now bytes.old at) (ev_bytes t pages.now) at)) out.old)
        × (bytes.new
        ≡ out_after (ev_refusal t pages.now bytes.old at) (ev_bytes t pages.now) bytes.old at) }
{
    let all = length_fields(write::ev(bytes, at, t, pages));
    copy(&all, out);
}

#[unsafe(no_mangle)]
pub extern "C" fn write_pf(bytes: &mut [u8], at: usize, t: u32, page: u32, out: &mut [u64])
    ensures { (out.new ≡ pasted (wrote_fields (wrote (pf_refusal t page bytes.old at) (pf_bytes t page) at)) out.old)
        × (bytes.new ≡ out_after (pf_refusal t page bytes.old at) (pf_bytes t page) bytes.old at) }
{
    let all = length_fields(write::pf(bytes, at, t, page));
    copy(&all, out);
}

// The calls on bytes of documents 01 and 02, made with the numbers and lists of a row; each prints its answer.
//   bytes          lists of numbers as bytes
//   records_read   the readers of records, and of a whole trace
#![tactic(auto)]

use cases_rows::call::Call;
use cases_rows::row::Asked;
use cases_rows::show;
use paging::Refusal;
use records::write;

mod bytes;
mod records_read;

// Makes a call on the bytes of the first list, which it may change, and of the second.
pub fn answer(rt: &impl Print, asked: Asked, first: &mut [u32], second: &[u32]) {
    let mut one = [0u8; bytes::ROOM];
    let s = bytes::of_list(first, &mut one);
    let mut two = [0u8; bytes::ROOM];
    let t = bytes::of_list(second, &mut two);
    on_bytes(rt, asked, &mut one[..s], &two[..t], second);
    bytes::into_list(&one, first);
}

fn on_bytes(rt: &impl Print, asked: Asked, file: &mut [u8], trace: &[u8], pages: &[u32]) {
    let n = asked.numbers;
    match asked.call {
        Call::Judge => judged(rt, judge::judge(trace, file)),
        Call::Trace => records_read::trace(rt, file, n[0]),
        Call::Schedule => records_read::schedule(rt, file, n[0]),
        Call::Count => records_read::count(rt, file, n[0]),
        Call::Farthest => farthest(rt, n[0], n[1], pages, file),
        Call::OldEdition => length(rt, editions::to_old(trace, file)),
        Call::NewEdition => length(rt, editions::to_new(trace, file)),
        Call::Ka => length(rt, write::ka(file, n[0] as usize, n[1], n[2])),
        Call::Rq => length(rt, write::rq(file, n[0] as usize, n[1])),
        Call::Rr => length(
            rt,
            write::rr(file, n[0] as usize, n[1], (n[2] % 65536) as u16),
        ),
        Call::Ev => length(rt, write::ev(file, n[0] as usize, n[1], pages)),
        Call::Pf => length(rt, write::pf(file, n[0] as usize, n[1], n[2])),
        _ => show::text(rt, b" no such call"),
    }
}

// The judge's answer: a cost, which is small here, or a refusal's number made negative.
fn judged(rt: &impl Print, answer: i64) {
    match answer {
        0..=2 => show::figure(rt, answer as u32),
        -7..=-1 | -13 => show::refused(rt, -answer as u32),
        _ => show::text(rt, b" another answer"),
    }
}

// A length or an offset in bytes.
fn length(rt: &impl Print, answer: Result<usize, Refusal>) {
    match answer {
        Ok(n) => show::figure(rt, n),
        Err(reason) => show::figure(rt, reason),
    }
}

// MIN's schedule of a trace, into bytes.
fn farthest(rt: &impl Print, k: u32, a: u32, trace: &[u32], out: &mut [u8]) {
    match min::schedule(k, a, trace, out) {
        Ok(written) => show::figure(rt, written.length),
        Err(reason) => show::figure(rt, reason),
    }
}

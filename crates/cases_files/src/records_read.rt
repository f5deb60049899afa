// The readers of records.
use cases_rows::show;
use readers::schedule::schedule_at;
use readers::trace::trace_at;
use reading::{ScheduleRecord, TraceRecord};

// A record of a trace at an offset, with the offset behind it.
pub(crate) fn trace(rt: &impl Print, file: &[u8], at: u32) {
    match trace_at(file, at as usize) {
        Ok(TraceRecord::Sizes { k, a, next }) => fields(rt, b" KA", k, a, next),
        Ok(TraceRecord::Request { page, times, next }) => request(rt, page, times, next),
        Ok(TraceRecord::End) => show::text(rt, b" end"),
        Err(reason) => show::figure(rt, reason),
    }
}

// A record of a schedule at an offset, with the offset behind it; a bundle's pages start at an offset.
pub(crate) fn schedule(rt: &impl Print, file: &[u8], at: u32) {
    match schedule_at(file, at as usize) {
        Ok(ScheduleRecord::Sizes { k, a, next }) => fields(rt, b" KA", k, a, next),
        Ok(ScheduleRecord::Bundle { t, n, from, next }) => bundle(rt, t, n, from, next),
        Ok(ScheduleRecord::Fetch { t, page, next }) => fields(rt, b" PF", t, page, next),
        Ok(ScheduleRecord::End) => show::text(rt, b" end"),
        Err(reason) => show::figure(rt, reason),
    }
}

// So many requests for a page in a row: once in an RQ.
fn request(rt: &impl Print, page: u32, times: u16, next: usize) {
    show::text(rt, b" request");
    show::figure(rt, page);
    show::text(rt, b", times");
    show::figure(rt, u32::from(times));
    behind(rt, next);
}

// A trace file read whole with a limit: k, a and the number of requests.
pub(crate) fn count(rt: &impl Print, file: &[u8], most: u32) {
    match traces::count(file, most as usize) {
        Ok(told) => {
            show::figure(rt, told.k);
            show::figure(rt, told.a);
            show::figure(rt, told.requests);
        }
        Err(reason) => show::figure(rt, reason),
    }
}

fn fields(rt: &impl Print, mark: &[u8], one: u32, two: u32, next: usize) {
    show::text(rt, mark);
    show::figure(rt, one);
    show::figure(rt, two);
    behind(rt, next);
}

fn bundle(rt: &impl Print, t: u32, n: usize, from: usize, next: usize) {
    show::text(rt, b" EV");
    show::figure(rt, t);
    show::figure(rt, n);
    show::text(rt, b", pages from");
    show::figure(rt, from);
    behind(rt, next);
}

fn behind(rt: &impl Print, next: usize) {
    show::text(rt, b", next");
    show::figure(rt, next);
}

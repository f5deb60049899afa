// The bench (document 01, "The eight-request shift"): reads a trace on standard input and prints six lines, or `refused` and a number.
// All that matters is in the crate `report`.
#![tactic(auto)]

use paging::Totals;
use report::Report;
use std::io::Stdout;
use streams::Output;

type Lines = Output<Stdout, HostRuntime>;

// A policy's line.
fn policy(out: Lines, name: &[u8], totals: Totals) -> Lines {
    out.text(name)
        .field(totals.bundles)
        .field(totals.loads)
        .end_line()
}

fn figures(out: Lines, r: Report) -> Lines {
    let out = out
        .text(b"trace")
        .field(r.k)
        .field(r.a)
        .field(r.requests)
        .end_line();
    let out = policy(out, b"min", r.min);
    let out = policy(out, b"lru", r.lru);
    let out = policy(out, b"fifo", r.fifo);
    let out = policy(out, b"mark", r.mark);
    out.text(b"layers")
        .field(r.layers.bundles)
        .field(r.layers.s)
        .field(r.layers.revealed)
        .end_line()
}

// Where the input cannot be read, nothing is printed: figures of a part would be wrong.
fn main(rt: HostRuntime) {
    let mut input = [0u8; Report::INPUT];
    let Ok(n) = streams::read(&mut rt.stdin(), &rt, &mut input) else {
        return;
    };
    let out = Output::new(rt.stdout(), rt);
    match report::of_input(&input[..n]) {
        Ok(r) => figures(out, r),
        Err(reason) => out.text(b"refused").field(reason.number()).end_line(),
    };
}

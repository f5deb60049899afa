// Document 01's "other cases", and the places where its text is clear and code goes wrong easily: each a row of the file `stdin`, whose head
// tells how rows are written. Their answers, in the file `stdout`, were worked out by hand.
#![tactic(auto)]

use cases_rows::row::{Asked, Row};
use cases_rows::{row, show, text};

// The longest list is a trace with one request too many. Where the input cannot be read, nothing is printed.
fn main(rt: HostRuntime) {
    let mut input = [0u8; 65536];
    let Ok(n) = streams::read(&mut rt.stdin(), &rt, &mut input) else {
        return;
    };
    let mut first = [0u32; 65537];
    let mut second = [0u32; 65537];
    let mut third = [0u32; 65537];
    run(&rt, &input[..n], &mut first, &mut second, &mut third);
}

// Each line in turn. The lists stay from row to row.
fn run(rt: &impl Print, input: &[u8], first: &mut [u32], second: &mut [u32], third: &mut [u32]) {
    let mut row = Row::empty();
    for line in input.split(|b| *b == b'\n') {
        row = row::read(rt, line, row, first, second, third);
        lend(rt, row, first, second, third);
    }
}

// Answers a row, with the places of each list that it has.
fn lend(rt: &impl Print, row: Row, first: &mut [u32], second: &mut [u32], third: &mut [u32]) {
    let Some(asked) = row.asked else {
        return;
    };
    let one = text::within(row.first, first);
    let two = text::within(row.second, second);
    let three = text::within(row.third, third);
    answer(
        rt,
        asked,
        &mut first[..one],
        &mut second[..two],
        &mut third[..three],
    );
    show::end(rt);
}

fn answer(rt: &impl Print, asked: Asked, first: &mut [u32], second: &mut [u32], third: &mut [u32]) {
    if !cases_calls::answer(rt, asked, first, second, third) {
        cases_files::answer(rt, asked, first, second);
    }
}

// The answer behind a label: figures, or `refused` and the refusal's number. Where a write fails, the rest is tried all the same.
use paging::Refusal;
use std::fmt::Display;

pub fn text(rt: &impl Print, words: &[u8]) {
    let _ = rt.write_all(words);
}

// A space and a number, or a refusal.
pub fn figure<T: Display + Drop>(rt: &impl Print, n: T) {
    let _ = print!(rt; " {n}");
}

pub fn end(rt: &impl Print) {
    text(rt, b"\n");
}

pub fn refused(rt: &impl Print, number: u32) {
    text(rt, b" refused");
    figure(rt, number);
}

// A list of numbers.
pub fn list<T: Display + Copy>(rt: &impl Print, numbers: &[T]) {
    for n in numbers {
        figure(rt, *n);
    }
}

// The figures, or the refusal.
pub fn answer<const N: usize>(rt: &impl Print, answer: Result<[u32; N], Refusal>) {
    match answer {
        Ok(figures) => list(rt, &figures),
        Err(reason) => figure(rt, reason),
    }
}

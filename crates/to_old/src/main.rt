// Reads a trace file on standard input and prints its old edition (document 02, request 08): the raw bytes and nothing else, or `refused` and a number.
// All that matters is in the crate `editions`. It differs from `to_new` in one call: each command is a program of its own.
#![tactic(auto)]

use editions::program;
use editions::program::Program;
use streams::Output;

// Where the input cannot be read, nothing is printed: the edition of a part would be wrong.
fn main(rt: HostRuntime) {
    let mut input = [0u8; Program::INPUT];
    let Ok(n) = streams::read(&mut rt.stdin(), &rt, &mut input) else {
        return;
    };
    let mut bytes = [0u8; Program::OUTPUT];
    let out = Output::new(rt.stdout(), rt);
    match program::to_old(&input[..n], &mut bytes) {
        Ok(length) => out.text(&bytes[..length]),
        Err(reason) => out.text(b"refused").field(reason.number()).end_line(),
    };
}

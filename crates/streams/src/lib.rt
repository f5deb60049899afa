// The standard input and output of a program. Where the system fails, a line on standard error says so, the input is not taken for whole, and
// nothing more is written. The contracts name the bytes of readers and writers that have known ones; no contract can say what the system's own
// streams give or take: what a program prints is tested.
#![tactic(auto)]

ghost use Rattle.std.specs.Prelude.{true, false, ◌≡◌, ◌<◌, length, take, IfOk, ℕ, ◌∷◌, []};
ghost use Rattle.std.specs.Io.KnownBytes.{Appends, Consumes, IsAtEnd};
ghost use Rattle.io.specs.Counts.{IsPrefixLen};
ghost use Rattle.io.specs.Digits.{IsDigitCount, last_digits};
ghost use Rattle.streams.specs.Reads.{bytes_filled, bytes_read};

use std::io::{Error, Read, Write};

// The input could not be read on behind its first bytes: so many were read.
#[derive(Clone, Copy, Debug, PartialEq, Eq)]
pub struct Unreadable {
    pub bytes: usize,
}

// The same, with the error of the read that stopped it.
#[derive(Drop)]
struct Stopped {
    bytes: usize,
    error: Error,
}

// Reads into the lent bytes, until they are full or the input ends or cannot be read: how many bytes a reader put at their start. The loop moves on
// by what each read gives, so it is a `while`.
fn fill<R: Read>(from: &mut R, into: &mut [u8]) -> Result<usize, Stopped>
    ensures count { IsPrefixLen (bytes_filled result) into.new }
    ensures given { Consumes (R.remaining from.old) (R.remaining from.new) (take (bytes_filled result) into.new) }
    ensures end { IfOk result (λ bytes. bytes < length into.new → IsAtEnd (R.remaining from.new)) }
{
    let mut bytes = 0;
    while bytes < into.len() {
        match from.read(&mut into[bytes..]) {
            Ok(0) => return Ok(bytes),
            Ok(n) => bytes += n,
            Err(error) => return Err(Stopped { bytes, error }),
        }
    }
    Ok(bytes)
}

// Reads the input into the lent bytes, until they are full or it ends: how many bytes were read.
pub fn read<R: Read>(
    from: &mut R,
    errors: &impl Eprint,
    into: &mut [u8],
) -> Result<usize, Unreadable>
    ensures count { IsPrefixLen (bytes_read result) into.new }
    ensures given { Consumes (R.remaining from.old) (R.remaining from.new) (take (bytes_read result) into.new) }
    ensures end { IfOk result (λ bytes. bytes < length into.new → IsAtEnd (R.remaining from.new)) }
{
    match fill(from, into) {
        Ok(bytes) => Ok(bytes),
        Err(stopped) => {
            let _ = eprintln!(errors; "standard input: {}", stopped.error);
            Err(Unreadable {
                bytes: stopped.bytes,
            })
        }
    }
}

// An output with who hears of its errors, and whether a write to it has failed. The flag stands beside the output, which is lent on after a failure
// too: so a program writes one thing after the other with no `?`, and its status stays as it is.
#[derive(Clone, Copy, Drop)]
pub struct Output<W, E> {
    to: W,
    errors: E,
    pub failed: bool,
}

impl<W: Write, E: Eprint> Output<W, E> {
    // Nothing is written yet.
    pub fn new(to: W, errors: E) -> Output<W, E>
        ensures failed { result.failed ≡ false }
        ensures to { result.to ≡ to }
    {
        Output {
            to,
            errors,
            failed: false,
        }
    }

    // The bytes, unless a write has failed before: that stays so.
    pub fn text(mut self, bytes: &[u8]) -> Output<W, E>
        ensures failed { self.failed ≡ true → result.failed ≡ true }
        ensures written { result.failed ≡ false → Appends (W.contents self.to) (W.contents result.to) bytes.now }
    {
        if self.failed {
            return self;
        }
        if let Err(e) = self.to.write_all(bytes) {
            let _ = eprintln!(self.errors; "standard output: {e}");
            self.failed = true;
        }
        self
    }

    // A space and a number in decimal.
    pub fn field(self, n: u32) -> Output<W, E>
        ensures failed { self.failed ≡ true → result.failed ≡ true }
        ensures written { result.failed ≡ false → (k : ℕ) × IsDigitCount 10 1 n k
            × Appends (W.contents self.to) (W.contents result.to) (32 ∷ last_digits 10 k n) }
    {
        let mut digits = [0u8; 20];
        let count = io::decimal(u64::from(n), &mut digits);
        self.text(b" ").text(&digits[..count])
    }

    pub fn end_line(self) -> Output<W, E>
        ensures failed { self.failed ≡ true → result.failed ≡ true }
        ensures written { result.failed ≡ false → Appends (W.contents self.to) (W.contents result.to) (10 ∷ []) }
    {
        self.text(b"\n")
    }
}

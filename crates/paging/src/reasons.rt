// Why a call is refused. A reason is known to C callers, to the programs and to whoever reads their output by its number, which docs/FORMAT.md explains.
ghost use Rattle.std.specs.Prelude.{◌≡◌};
ghost use Rattle.paging.specs.Numbers.{number_of};

use std::error::Error;
use std::fmt;

#[derive(Clone, Copy, Debug, PartialEq, Eq)]
pub enum Refusal {
    // 1: k is 0 or above 256.
    BufferSize,
    // 2: a is 0 or above k.
    BundleSize,
    // 3: the trace has more requests than the call takes.
    TraceTooLong,
    // 4: where a mark is due stand two bytes that are none, or a mark that belongs elsewhere.
    WrongMark,
    // 5: a file is empty, or it stops before a record is complete.
    CutShort,
    // 6: a record of a schedule is wrong in itself or where it stands.
    WrongRecord,
    // 7: more than k pages are held after a request.
    TooManyHeld,
    // 8: the lent memory does not suffice.
    TooLittleRoom,
    // 9: a state is not well formed, or an offset is past the end.
    IllFormed,
    // 10: the layers would have more pages than the lent table has places.
    TableFull,
    // 11: a set names a page twice.
    PageTwice,
    // 12: the counter of requests is full.
    CounterFull,
    // 13: a run of no request.
    EmptyRun,
}

impl Refusal {
    // The number of document 01 ("Who can cause a refusal"); 13 is document 02's, request 03.
    pub fn number(self) -> u32
        ensures { result ≡ number_of self }
    {
        match self {
            Refusal::BufferSize => 1,
            Refusal::BundleSize => 2,
            Refusal::TraceTooLong => 3,
            Refusal::WrongMark => 4,
            Refusal::CutShort => 5,
            Refusal::WrongRecord => 6,
            Refusal::TooManyHeld => 7,
            Refusal::TooLittleRoom => 8,
            Refusal::IllFormed => 9,
            Refusal::TableFull => 10,
            Refusal::PageTwice => 11,
            Refusal::CounterFull => 12,
            Refusal::EmptyRun => 13,
        }
    }
}

// As the program `cases` prints it, and as bench, to_old and to_new write it on their output: the word and the number.
impl fmt::Display for Refusal {
    fn fmt<W: fmt::Write>(&self, f: &mut fmt::Formatter<W>) -> fmt::Result {
        write!(f, "refused {}", self.number())
    }
}

impl Error for Refusal {}

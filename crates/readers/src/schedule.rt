// The schedule reader. At offset 0 it expects KA, elsewhere EV, PF or the end.
ghost use Rattle.std.specs.Prelude.{◌*◌, ◌≡◌, take, drop};
ghost use Rattle.paging.specs.Refusals.{largest_k};
ghost use Rattle.reading.specs.Answers.{schedule_answer};
ghost use Rattle.reading.specs.Reading.{read_schedule};

use paging::Refusal;
use reading::ScheduleRecord;

#[derive(Clone, Copy)]
pub struct ScheduleReader<'a> {
    pub file: &'a [u8],
    pub at: usize,
}

impl<'a> ScheduleReader<'a> {
    // A reader at the start of a file.
    pub fn new(file: &'a [u8]) -> ScheduleReader<'a>
        ensures { (result.file ≡ file.entry) × (result.at ≡ 0) }
    {
        ScheduleReader { file, at: 0 }
    }

    // What stands at its offset. Of a bundle the answer says where its pages start and how many they are: `pages` gives them.
    pub fn read(self) -> Result<ScheduleRecord, Refusal>
        ensures { schedule_answer result ≡ read_schedule largest_k self.entry.file.now self.entry.at }
    {
        reading::schedule(self.file, self.at)
    }

    // The bytes of n pages from an offset on, as a part of the file, for as long as the file is lent; where the file ends before, those that are there.
    pub fn pages(self, from: usize, n: usize) -> &'a [u8]
        ensures { result.now ≡ take (4 * n) (drop from self.entry.file.now) }
    {
        reading::pages(self.file, from, n)
    }

    // The same file's reader at another offset: a record says where the next one stands.
    pub fn moved(self, at: usize) -> ScheduleReader<'a>
        ensures { (result.file ≡ self.entry.file) × (result.at ≡ at) }
    {
        ScheduleReader {
            file: self.file,
            at,
        }
    }
}

// What a schedule reader of a file finds at an offset, for callers that have no reader.
pub fn schedule_at(file: &[u8], at: usize) -> Result<ScheduleRecord, Refusal>
    ensures { schedule_answer result ≡ read_schedule largest_k file.now at }
{
    ScheduleReader::new(file).moved(at).read()
}

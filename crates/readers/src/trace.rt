// The trace reader. At offset 0 it expects KA, elsewhere RQ, RR or the end.
ghost use Rattle.std.specs.Prelude.{◌≡◌};
ghost use Rattle.reading.specs.Answers.{trace_answer};
ghost use Rattle.reading.specs.Reading.{read_trace};

use paging::Refusal;
use reading::TraceRecord;

#[derive(Clone, Copy)]
pub struct TraceReader<'a> {
    pub file: &'a [u8],
    pub at: usize,
}

impl<'a> TraceReader<'a> {
    // A reader at the start of a file.
    pub fn new(file: &'a [u8]) -> TraceReader<'a>
        ensures { (result.file ≡ file.entry) × (result.at ≡ 0) }
    {
        TraceReader { file, at: 0 }
    }

    // What stands at its offset.
    pub fn read(self) -> Result<TraceRecord, Refusal>
        ensures { trace_answer result ≡ read_trace self.entry.file.now self.entry.at }
    {
        reading::trace(self.file, self.at)
    }

    // The same file's reader at another offset: a record says where the next one stands.
    pub fn moved(self, at: usize) -> TraceReader<'a>
        ensures { (result.file ≡ self.entry.file) × (result.at ≡ at) }
    {
        TraceReader {
            file: self.file,
            at,
        }
    }
}

// What a trace reader of a file finds at an offset, for callers that have no reader.
pub fn trace_at(file: &[u8], at: usize) -> Result<TraceRecord, Refusal>
    ensures { trace_answer result ≡ read_trace file.now at }
{
    TraceReader::new(file).moved(at).read()
}

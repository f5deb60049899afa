// The calls that a row can ask for. A row names a call by its first two letters.
#[derive(Clone, Copy, Debug, PartialEq, Eq)]
pub enum Call {
    // Whole traces.
    Min,
    Lru,
    Oldest,
    Layers,
    Steps,
    Rules,
    // Single requests, and questions.
    Cache,
    Load,
    CachePreview,
    LoadPreview,
    Table,
    Revealed,
    Possible,
    // Marking.
    Mark,
    Rdm,
    // A list of the row as it now is.
    First,
    Second,
    // Files.
    Judge,
    Trace,
    Schedule,
    Count,
    Farthest,
    OldEdition,
    NewEdition,
    // Records, written.
    Ka,
    Rq,
    Rr,
    Ev,
    Pf,
    // No such call.
    Unknown,
}

impl From<[u8; 2]> for Call {
    fn from(letters: [u8; 2]) -> Call {
        match letters {
            [b'm', b'i'] => Call::Min,
            [b'l', b'r'] => Call::Lru,
            [b'o', b'l'] => Call::Oldest,
            [b'l', b'a'] => Call::Layers,
            [b's', b't'] => Call::Steps,
            [b'r', b'u'] => Call::Rules,
            [b'c', b'a'] => Call::Cache,
            [b'l', b'o'] => Call::Load,
            [b'p', b'c'] => Call::CachePreview,
            [b'p', b'l'] => Call::LoadPreview,
            [b't', b'a'] => Call::Table,
            [b'r', b'e'] => Call::Revealed,
            [b'p', b'o'] => Call::Possible,
            [b'm', b'a'] => Call::Mark,
            [b'r', b'd'] => Call::Rdm,
            [b'f', b'i'] => Call::First,
            [b's', b'e'] => Call::Second,
            [b'j', b'u'] => Call::Judge,
            [b't', b'r'] => Call::Trace,
            [b's', b'c'] => Call::Schedule,
            [b'c', b'o'] => Call::Count,
            [b'f', b'a'] => Call::Farthest,
            [b'e', b'o'] => Call::OldEdition,
            [b'e', b'n'] => Call::NewEdition,
            [b'k', b'a'] => Call::Ka,
            [b'r', b'q'] => Call::Rq,
            [b'r', b'r'] => Call::Rr,
            [b'e', b'v'] => Call::Ev,
            [b'p', b'f'] => Call::Pf,
            _ => Call::Unknown,
        }
    }
}

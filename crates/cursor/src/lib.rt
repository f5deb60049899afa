// Inner: from record to record and from request to request through a trace's file that was found good (document 02, request 03). A run is not written out:
// its rest is a number beside its page, and reading on inside it looks at no byte of the file.
#![tactic(auto)]

ghost use Rattle.std.specs.Prelude.{◌<◌, ◌≤◌, [], ◌∷◌, ◌≡◌, length};
ghost use Rattle.reading.specs.Files.{before, requests_from};
ghost use Rattle.cursor.specs.Cursor.{Begun, requests_left};

use records::kind::Kind;
use records::length;

// What is left of a trace: `times` more requests for a page, then the records from an offset on.
#[derive(Clone, Copy, Debug, PartialEq, Eq)]
pub struct Rest {
    pub page: u32,
    pub times: u32,
    pub from: usize,
}

// A request, and what is left behind it.
#[derive(Clone, Copy, Debug, PartialEq, Eq)]
pub struct Request {
    pub page: u32,
    pub left: Rest,
}

// The record at an offset, where a request is left: the rest of the trace with the record's run begun. Whoever calls it has counted the requests (crate
// `traces`), so the mark alone is looked at.
#[tactic(auto, using(crate::proofs::Laws::record_rules))]
pub fn next_record(file: &[u8], from: usize) -> Rest
    requires { (0 < from) × (0 < length (requests_from file.now from).held) }
    ensures { Begun result × (requests_from file.now from ≡ requests_left file.now result) }
{
    let page = wire::read32(file, from + 2);
    if wire::read16(file, from) == Kind::RR {
        return Rest {
            page,
            times: u32::from(wire::read16(file, from + 6)),
            from: from + length::RR,
        };
    }
    Rest {
        page,
        times: 1,
        from: from + length::RQ,
    }
}

// What is left, with a run begun: as it is inside a run, else with the record's run.
#[tactic(auto, using(crate::proofs::Laws::some_there, crate::proofs::Laws::at_a_record))]
pub fn begun(file: &[u8], left: Rest) -> Rest
    requires { (0 < left.from) × (0 < length (requests_left file.now left).held) }
    ensures some { 0 < result.times }
    ensures few { left.times ≤ 65535 → result.times ≤ 65535 }
    ensures started { 0 < result.from }
    ensures same { requests_left file.now left ≡ requests_left file.now result }
{
    if left.times > 0 {
        return left;
    }
    next_record(file, left.from)
}

// The next request, where there is one.
#[tactic(auto, using(crate::proofs::Laws::in_a_run))]
pub fn next_request(file: &[u8], left: Rest) -> Request
    requires { (0 < left.from) × (0 < length (requests_left file.now left).held) }
    ensures { (0 < result.left.from) × (requests_left file.now left ≡ before (result.page ∷ []) (requests_left file.now result.left)) }
{
    let Rest { page, times, from } = begun(file, left);
    let left = Rest {
        page,
        times: times - 1,
        from,
    };
    Request { page, left }
}

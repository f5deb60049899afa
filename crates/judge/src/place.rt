// What the judge works on, and where it stands in it.
use cursor::Rest;

// Both files with their sizes, and how many requests the trace has.
#[derive(Clone, Copy)]
pub(crate) struct Files<'a> {
    pub trace: &'a [u8],
    pub schedule: &'a [u8],
    pub k: usize,
    pub a: u32,
    pub requests: usize,
}

// Where the judge stands between two records: the open request t and what is left of the trace from it on; the PFs at t, from an offset of the schedule
// on, which end where the next record starts; the cost. The pages held after the EVs at t stand beside it.
#[derive(Clone, Copy)]
pub(crate) struct Place {
    pub t: usize,
    pub rest: Rest,
    pub from: usize,
    pub fetches: usize,
    pub bundles: usize,
}

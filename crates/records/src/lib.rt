// The records of a trace and of a schedule (document 01, "Files"): KA has the sizes, RQ a request, RR a run of requests for one page (document 02,
// request 03), EV a bundle, PF a page fetched ahead.
//   kind    the kind of a record, by its mark alone
//   length  an EV's length
//   write   a writer for each record, into lent bytes from an offset
//   put     below the writers: a record at the start of the rest of the lent bytes
// Whoever writes a file calls `write`. The other three are inner: only crates of this repository call them. `kind` refuses an unknown mark itself, and
// `length` has none for more than 256 pages; whoever calls `put` has judged 6, 13, 8 and 9 before.
#![tactic(auto)]

pub mod kind;
pub mod length;
pub mod put;
pub mod write;

// The readers of document 01 ("Files") as structs: each holds a file's bytes and its offset, thin over the functions of `reading`, which do
// the work on a slice and an offset. No clause here asks for anything of a caller.
// They stay two structs: one for both would need a marker of its kind and a trait that has the definition of what `read` answers, which is more than
// `new` and `moved`, the two functions of one line that they share.
#![tactic(auto)]

pub mod schedule;
pub mod trace;

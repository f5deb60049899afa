// The public calls of the crates, exported to C for the tests and timings of the repository. Each call stores the fields of its answer into the
// first places of `out`, as many as there is room for, and leaves the other lent lists as the call behind it leaves them. None asks for anything
// of its caller. specs/Fields.antt has the fields of each answer that is a record, specs/Cases.antt those of each answer that is an enum.
// C has no generic function and lends lists and numbers one by one: so each call has a name and a body of its own, and a record is put together from its
// fields where it is lent, by a literal that names them. A length becomes a u64 by `as`, since usize has no `From` into u64.
//   store         the fields of a refusal, and of an answer that is a length
//   sizes         k and a
//   lru_calls     least recent use, a request and a trace
//   fifo_calls    oldest load first, the same
//   preview_calls what a request of either would answer and evict
//   queue_fields  the fields of their answers
//   min_calls     farthest next use, its counts and its schedule
//   layers_calls  the layers, a request, the questions and a trace
//   mark_calls    marking with priorities RDM beside the layers, a request and a trace
//   reader_calls  what stands at an offset of a file
//   trace_calls   a trace file read whole
//   edition_calls a trace file turned into the old or the new edition
//   writer_calls  a record into lent bytes
#![tactic(auto)]

mod edition_calls;
mod fifo_calls;
mod layers_calls;
mod lru_calls;
mod mark_calls;
mod min_calls;
mod preview_calls;
mod queue_fields;
mod reader_calls;
mod sizes;
mod store;
mod trace_calls;
mod writer_calls;

// The two calls as the programs make them: at most 4,096 requests, and from so many bytes of their input that the rest makes no difference.
ghost use Rattle.std.specs.Prelude.{◌≡◌};
ghost use Rattle.traces.specs.Traces.{trace_file};
ghost use Rattle.editions.specs.Calls.{program_requests, converted_answer, converted_of, bytes_after, ReadEnough, RoomEnough, OutputInside};
ghost use Rattle.editions.specs.Editions.{old_bytes, new_bytes};

use crate::{new_edition, old_edition};
use paging::Refusal;
use records::length;

// The limits of a program.
#[derive(Clone, Copy)]
pub struct Program {}

impl Program {
    // The most requests that a program takes.
    pub const LONGEST: usize = 4096;

    // The bytes in which a request too many is seen whole: a KA and one record more than requests are taken. An RR is the longest.
    pub const INPUT: usize = length::KA + length::RR * (Program::LONGEST + 1);

    // Room for every output: an old edition of as many requests as are taken.
    pub const OUTPUT: usize = length::KA + length::RQ * Program::LONGEST;
}

// What `to_old` prints for an input.
pub fn to_old(input: &[u8], out: &mut [u8]) -> Result<usize, Refusal>
    ensures value { (converted_answer result ≡ converted_of old_bytes (trace_file program_requests input.now) out.old)
        × (out.new ≡ bytes_after old_bytes (trace_file program_requests input.now) out.old) }
    ensures read_enough { ReadEnough Program.INPUT old_bytes input.now out.old out.new (converted_answer result) }
    ensures room_enough { RoomEnough Program.OUTPUT input.now out.old (converted_answer result) }
    ensures output_inside { OutputInside (converted_answer result) out.new }
{
    old_edition::within(input, Program::LONGEST, out)
}

// What `to_new` prints for an input.
pub fn to_new(input: &[u8], out: &mut [u8]) -> Result<usize, Refusal>
    ensures value { (converted_answer result ≡ converted_of new_bytes (trace_file program_requests input.now) out.old)
        × (out.new ≡ bytes_after new_bytes (trace_file program_requests input.now) out.old) }
    ensures read_enough { ReadEnough Program.INPUT new_bytes input.now out.old out.new (converted_answer result) }
    ensures room_enough { RoomEnough Program.OUTPUT input.now out.old (converted_answer result) }
    ensures output_inside { OutputInside (converted_answer result) out.new }
{
    new_edition::within(input, Program::LONGEST, out)
}

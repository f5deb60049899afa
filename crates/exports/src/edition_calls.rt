// The two editions of a trace file. The answer's fields: refusal, length. The output goes into `bytes`.
ghost use Rattle.std.specs.Prelude.{◌≡◌};
ghost use Rattle.lists.specs.Places.{pasted};
ghost use Rattle.traces.specs.Traces.{trace_file};
ghost use Rattle.editions.specs.Calls.{library_requests, program_requests, converted_of, bytes_after};
ghost use Rattle.editions.specs.Editions.{old_bytes, new_bytes};
ghost use Rattle.exports.specs.Fields.{converted_fields};

use crate::store::length_fields;
use lists::moves::copy;

// As the library has them, with at most 65,536 requests.
#[unsafe(no_mangle)]
pub extern "C" fn to_old(file: &[u8], bytes: &mut [u8], out: &mut [u64])
    ensures { (out.new ≡ pasted (converted_fields (converted_of old_bytes (trace_file library_requests file.now) bytes.old)) out.old)
        × (bytes.new ≡ bytes_after old_bytes (trace_file library_requests file.now) bytes.old) }
{
    let all = length_fields(editions::to_old(file, bytes));
    copy(&all, out);
}

#[unsafe(no_mangle)]
pub extern "C" fn to_new(file: &[u8], bytes: &mut [u8], out: &mut [u64])
    ensures { (out.new ≡ pasted (converted_fields (converted_of new_bytes (trace_file library_requests file.now) bytes.old)) out.old)
        × (bytes.new ≡ bytes_after new_bytes (trace_file library_requests file.now) bytes.old) }
{
    let all = length_fields(editions::to_new(file, bytes));
    copy(&all, out);
}

// As the programs make them, with at most 4,096.
#[unsafe(no_mangle)]
pub extern "C" fn program_to_old(file: &[u8], bytes: &mut [u8], out: &mut [u64])
    ensures { (out.new ≡ pasted (converted_fields (converted_of old_bytes (trace_file program_requests file.now) bytes.old)) out.old)
        × (bytes.new ≡ bytes_after old_bytes (trace_file program_requests file.now) bytes.old) }
{
    let all = length_fields(editions::program::to_old(file, bytes));
    copy(&all, out);
}

#[unsafe(no_mangle)]
pub extern "C" fn program_to_new(file: &[u8], bytes: &mut [u8], out: &mut [u64])
    ensures { (out.new ≡ pasted (converted_fields (converted_of new_bytes (trace_file program_requests file.now) bytes.old)) out.old)
        × (bytes.new ≡ bytes_after new_bytes (trace_file program_requests file.now) bytes.old) }
{
    let all = length_fields(editions::program::to_new(file, bytes));
    copy(&all, out);
}

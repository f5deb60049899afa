// Lists of numbers as bytes.
ghost use Rattle.io.specs.Counts.{IsPrefixLen};

// The most bytes of a file here: enough for an EV of 257 pages.
pub(crate) const ROOM: usize = 2048;

// The numbers of a list as bytes, the lower 8 bits of each, as many as there is room for; their count.
pub(crate) fn of_list(list: &[u32], bytes: &mut [u8]) -> usize
    ensures { IsPrefixLen result bytes.new }
{
    for (byte, n) in bytes.iter_mut().zip(list) {
        *byte = (*n % 256) as u8;
    }
    list.len().min(bytes.len())
}

// Bytes as the first numbers of a list, as many as there is room for.
pub(crate) fn into_list(bytes: &[u8], list: &mut [u32]) {
    for (n, byte) in list.iter_mut().zip(bytes) {
        *n = u32::from(*byte);
    }
}

// Numbers of a file in bytes (document 01): 16 and 32 bits, the lowest byte first, read at an offset and written.
// These are leaves: whoever calls one has tested that the bytes are there.
#![tactic(auto)]

ghost use Rattle.std.specs.Prelude.{◌+◌, ◌≤◌, ◌≡◌, length, drop};
ghost use Rattle.wire.specs.Numbers.{num16, num32, bytes16, bytes32, placed};

pub fn read16(s: &[u8], at: usize) -> u16
    requires { at + 2 ≤ length s.now }
    ensures { result ≡ num16 (drop at s.now) }
{
    u16::from_le_bytes([s[at], s[at + 1]])
}

pub fn read32(s: &[u8], at: usize) -> u32
    requires { at + 4 ≤ length s.now }
    ensures { result ≡ num32 (drop at s.now) }
{
    u32::from_le_bytes([s[at], s[at + 1], s[at + 2], s[at + 3]])
}

pub fn write16(s: &mut [u8], at: usize, x: u16)
    requires { at + 2 ≤ length s.old }
    ensures { s.new ≡ placed s.old at (bytes16 x) }
{
    s[at..at + 2].copy_from_slice(&x.to_le_bytes());
}

pub fn write32(s: &mut [u8], at: usize, x: u32)
    requires { at + 4 ≤ length s.old }
    ensures { s.new ≡ placed s.old at (bytes32 x) }
{
    s[at..at + 4].copy_from_slice(&x.to_le_bytes());
}

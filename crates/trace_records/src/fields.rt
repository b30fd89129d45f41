ghost use Rattle.std.specs.Prelude.{◌≡◌, ◌+◌, ◌*◌, ◌≤◌, length};
ghost use Rattle.trace_records.specs.Record.{big_endian, slot_in, argument_in, header_holds};

use trace_kinds::VERSION;

// The number of at most eight bytes, the most significant first.
// By `from_be_bytes` it is no plainer: each field would have to become an array first, of its own length.
fn big_endian(bytes: &[u8]) -> u64
    requires { length bytes.now ≤ 8 }
    ensures { result ≡ big_endian bytes.now }
{
    let mut value = 0;
    for byte in bytes {
        value = value * 256 + u64::from(*byte);
    }
    value
}

// The slot byte of a record.
pub(crate) fn slot(s: &[u8]) -> u64
    requires { 5 ≤ length s.now }
    ensures { result ≡ slot_in s.now }
{
    u64::from(s[4])
}

// An argument of a record, numbered from 0, by how many it has; one that it does not have counts as 0.
pub(crate) fn argument(s: &[u8], count: u8, number: u8) -> u64
    requires { 5 + 8 * count ≤ length s.now }
    ensures { result ≡ argument_in s.now count number }
{
    if number < count {
        let start = 5 + 8 * usize::from(number);
        big_endian(&s[start..start + 8])
    } else {
        0
    }
}

// Whether the first bytes are those of a record of this length.
pub(crate) fn header_holds(s: &[u8], expected: usize) -> bool
    requires { 4 ≤ length s.now }
    ensures { result ≡ header_holds s.now expected }
{
    big_endian(&s[0..2]) == expected as u64 && s[2] == VERSION
}

ghost use Rattle.std.specs.Prelude.{◌≡◌, get_or};
ghost use Rattle.trace_kinds.specs.RecordKind.{some_length, start_holds};

use crate::kinds::{KINDS, RecordKind, VERSION};

// A byte, or another where there is none.
fn byte_or(s: &[u8], at: usize, other: usize) -> usize
    ensures { result ≡ get_or s.now at other }
{
    s.get(at).map_or(other, |byte| usize::from(*byte))
}

// Whether some kind has this length.
fn some_length(length: usize) -> bool
    ensures { result ≡ some_length length }
{
    KINDS.iter().any(|kind| kind.length() == length)
}

// Whether fewer than four bytes are those that a record begins with.
pub fn start_holds(s: &[u8]) -> bool
    ensures { result ≡ start_holds s.now }
{
    let version = usize::from(VERSION);
    byte_or(s, 0, 0) == 0
        && some_length(byte_or(s, 1, RecordKind::Create.length()))
        && byte_or(s, 2, version) == version
}

ghost use Rattle.std.specs.Prelude.{◌≡◌, ◌+◌, ◌≤◌, length};
ghost use Rattle.trace_kinds.specs.RecordKind.{length_of};
ghost use Rattle.trace_records.specs.Record.{asked_in, decode_of};

use crate::fields::{argument, header_holds, slot};
use calls::Call;
use trace_kinds::{RecordKind, start_holds};

// A good record: what it asks for, and where the next record begins.
#[derive(Clone, Copy)]
pub struct Record {
    pub call: Call,
    pub size: usize,
}

// No bytes that follow can make the bytes a good record.
#[derive(Clone, Copy, Debug, PartialEq, Eq)]
pub struct BadRecord;

// The first record of some bytes, any bytes. There is none yet where they are the beginning of a good record.
pub fn decode(s: &[u8]) -> Result<Option<Record>, BadRecord>
    ensures { result ≡ decode_of s.now }
{
    if s.len() < 4 {
        return if start_holds(s) {
            Ok(None)
        } else {
            Err(BadRecord)
        };
    }
    let kind = RecordKind::of(s[3]).ok_or(BadRecord)?;
    let length = kind.length();
    if !header_holds(s, length) {
        return Err(BadRecord);
    }
    let size = 2 + length;
    if s.len() < size {
        return Ok(None);
    }
    Ok(Some(Record {
        call: asked(kind, s),
        size,
    }))
}

// What a whole record of a kind asks for.
fn asked(kind: RecordKind, s: &[u8]) -> Call
    requires { 2 + length_of kind ≤ length s.now }
    ensures { result ≡ asked_in kind s.now }
{
    let n = kind.arguments();
    kind.call(
        slot(s),
        argument(s, n, 0),
        argument(s, n, 1),
        argument(s, n, 2),
        argument(s, n, 3),
    )
}

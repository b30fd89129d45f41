ghost use Rattle.std.specs.Prelude.{◌≡◌, [], ◌+◌, ◌≤◌, length, drop};
ghost use Rattle.trace_lines.specs.Filled.{filled_to, cleared, with_put};

use std::marker::Model;

// Bytes one behind the other, in fixed memory: the first of an array, so many as `filled` says. Any number may stand there. Where it is beyond
// the array, all of the array counts.
#[derive(Drop)]
pub struct Buffer<const ROOM: usize> {
    pub bytes: [u8; ROOM],
    pub filled: usize,
}

impl<const ROOM: usize> Model for Buffer<ROOM> {
    ghost use Rattle.trace_lines.specs.Filled.{Filled, filled_to};

    ghost Value = { Filled };

    ghost view = { λ b. filled_to b.filled b.bytes };
}

impl<const ROOM: usize> Buffer<ROOM> {
    // The first bytes of an array, so many at the most.
    pub fn of(bytes: [u8; ROOM], count: usize) -> Self
        ensures { result ≡ filled_to count bytes.entry }
    {
        Buffer {
            bytes,
            filled: count.min(ROOM),
        }
    }

    pub fn new() -> Self
        ensures { result.text ≡ [] }
    {
        Buffer::of([0; ROOM], 0)
    }

    pub fn as_slice(&self) -> &[u8]
        ensures bytes { result.now ≡ self.now.text }
        ensures fits { length self.now.text ≤ ROOM }
    {
        &self.bytes[..self.filled.min(ROOM)]
    }

    pub fn clear(&mut self)
        ensures { self.new ≡ cleared self.old }
    {
        self.filled = 0;
    }

    // Takes away the first bytes, so many at the most, and moves the others to the front.
    #[tactic(auto, using(crate::proofs::BufferLaws::moved))]
    pub fn consume(&mut self, count: usize)
        ensures { self.new.text ≡ drop count self.old.text }
    {
        let end = self.filled.min(ROOM);
        let start = count.min(end);
        self.bytes.copy_within(start..end, 0);
        self.filled = end - start;
    }

    pub(crate) fn put(&mut self, bytes: &[u8])
        requires { length self.old.text + length bytes.now ≤ ROOM }
        ensures { self.new ≡ with_put self.old bytes.now }
    {
        let start = self.filled.min(ROOM);
        let end = start + bytes.len();
        let all = &mut self.bytes[..];
        all[start..end].copy_from_slice(bytes);
        self.filled = end;
    }
}

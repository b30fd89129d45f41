ghost use Rattle.std.specs.Prelude.{◌≡◌, ◌≤◌, length};
ghost use Rattle.commands.specs.Command.{view, result_of};
ghost use Rattle.calls.specs.Step.{command_of};
ghost use Rattle.trace_lines.specs.Filled.{cleared, with_put};
ghost use Rattle.trace.specs.Replay.{fresh_replay, closing};
ghost use Rattle.trace.specs.Ensured.{kept, Answers, Replays, Turns};

use answers::Numbers;
use calls::Call;
use records::{Change, Guest, Monitor};
use trace_lines::{Buffer, Line, Text};
use trace_records::{BadRecord, Record, decode};

// F, and 8 × W for W = 64.
pub const FRAMES: usize = 256;

pub const MAP_WORDS: usize = 512;

// The bytes of a log that can be at hand at the most. The lines of their records have room in a text.
pub const PIECE: usize = 6236;

// The bytes of a log that are at hand.
pub type Input = Buffer<PIECE>;

// What a replay keeps beside the tables.
#[derive(Clone, Copy)]
pub struct Session {
    pub monitor: Monitor,
    // The number of answered records.
    pub answered: u64,
    // A record was bad, and what follows is passed over. A state of its own, which `Replay` has too: the records and the count stand beside it.
    pub stopped: bool,
}

impl Session {
    // A session before any record, with its tables.
    pub fn begin(frames: &mut [u32; FRAMES], map: &mut [u32; MAP_WORDS]) -> Session
        ensures { kept result frames.new map.new ≡ fresh_replay }
    {
        *frames = [0; FRAMES];
        *map = [0; MAP_WORDS];
        Session {
            monitor: Monitor::fresh(),
            answered: 0,
            stopped: false,
        }
    }

    // Answers the records of the bytes at hand; the text is then their lines. The bytes of a record that is not yet finished stay at hand.
    pub fn turn(&mut self, frames: &mut [u32], map: &mut [u32], input: &mut Input, text: &mut Text)
        ensures { Turns (kept self.old frames.old map.old) input.old.text
            (kept self.new frames.new map.new) input.new.text text.new.text }
    {
        let taken = self.replay(frames, map, input.as_slice(), text);
        input.consume(taken);
    }

    // Answers the records at the start of some bytes in turn; the text is then their lines. It ends where a record is bad or not yet finished,
    // or where there are no more bytes, and answers how many bytes it took.
    fn replay(
        &mut self,
        frames: &mut [u32],
        map: &mut [u32],
        bytes: &[u8],
        text: &mut Text,
    ) -> usize
        requires { length bytes.now ≤ 6236 }
        ensures { Replays (kept self.old frames.old map.old) bytes.now
            (kept self.new frames.new map.new) text.new.text result }
    {
        text.clear();
        if self.stopped {
            return bytes.len();
        }
        let mut taken = 0;
        // Records have different lengths, so no iterator of std steps over them.
        while taken < bytes.len() {
            match decode(&bytes[taken..]) {
                Ok(None) => return taken,
                Err(BadRecord) => {
                    Line::Bad.put(text);
                    self.stopped = true;
                    return bytes.len();
                }
                Ok(Some(Record { call, size })) => {
                    // One record is copied, and where there is no slot any: by `Monitor::guest` and `with_change`, which copy all, a replay is slower.
                    let slot = call.slot(self.monitor);
                    let at = (slot % 8) as usize;
                    let guest = self.monitor.guests[at];
                    let change = answer(call, slot, guest, frames, map, text);
                    if slot < 8 && change.alters() {
                        self.monitor.guests[at] = change.apply(guest);
                    }
                    self.answered = self.answered.wrapping_add(1);
                    taken += size;
                }
            }
        }
        taken
    }

    // Makes the text the last lines: `bad` first where bytes are held.
    pub fn close(self, held: usize, text: &mut Text)
        ensures { text.new ≡ with_put (cleared text.old) (closing self.answered held) }
    {
        text.clear();
        if held != 0 {
            Line::Bad.put(text);
        }
        Line::Last(self.answered).put(text);
    }
}

// A call decided by the record of its slot, and its line put: what is to be done to that record.
fn answer(
    call: Call,
    slot: u64,
    guest: Guest,
    frames: &mut [u32],
    map: &mut [u32],
    text: &mut Text,
) -> Change
    ensures { Answers (result_of (command_of call) (view frames.old map.old slot guest)) frames.new map.new
        text.old text.new result }
{
    let decision = call.decide(slot, guest, frames, map);
    Line::Answer(Numbers::from(decision.answer)).put(text);
    decision.change
}

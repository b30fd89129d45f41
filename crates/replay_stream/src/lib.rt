// A replay from a reader to a writer, for programs.
// It rests on trace and trace_lines for everything that is decided, and on std for reading and writing. It only reads, calls and writes, and
// holds one piece of the log at a time.
#![tactic(auto)]

ghost use Rattle.std.specs.Prelude.{◌≡◌, true, OnOk};
ghost use Rattle.trace.specs.Ensured.{kept};
ghost use Rattle.replay_stream.specs.Stream.{WritesPieces, WritesReplay};

mod descriptors;

use descriptors::{Stop, read_behind, write_out};
use std::io::{Eprint, Read, Write};
use trace::{FRAMES, Input, MAP_WORDS, Session};
use trace_lines::{Line, Text};

// Replays the log that a reader gives to its end, and writes the text to a writer. It reads so many pieces at the most, the end of the log
// among them. Where a piece can't be read, the text can't be written, or the pieces run out, it stops with a message on standard error and
// no last line. It answers whether the whole text is written.
pub fn replay<R: Read, W: Write>(
    from: &mut R,
    to: &mut W,
    pieces: u64,
    errors: &impl Eprint,
) -> bool
    ensures { result ≡ true → WritesReplay (R.remaining from.old) (W.contents to.old) (W.contents to.new) }
{
    match replay_whole(from, to, pieces) {
        Ok(()) => true,
        Err(stop) => {
            // Where the message can't be written either, nothing is left to be done.
            let _ = eprintln!(errors; "replay: {stop}");
            false
        }
    }
}

// The same with no message.
fn replay_whole<R: Read, W: Write>(from: &mut R, to: &mut W, pieces: u64) -> Result<(), Stop>
    ensures { OnOk result (WritesReplay (R.remaining from.old) (W.contents to.old) (W.contents to.new)) }
{
    let mut frames = [0u32; FRAMES];
    let mut map = [0u32; MAP_WORDS];
    let mut session = Session::begin(&mut frames, &mut map);
    let mut text = Text::new();
    Line::First.put(&mut text);
    write_out(to, &text)?;
    read_on(
        &mut session,
        &mut frames,
        &mut map,
        &mut text,
        from,
        to,
        pieces,
    )
}

// Answers piece by piece, and writes the text of each.
fn read_on<R: Read, W: Write>(
    session: &mut Session,
    frames: &mut [u32],
    map: &mut [u32],
    text: &mut Text,
    from: &mut R,
    to: &mut W,
    pieces: u64,
) -> Result<(), Stop>
    ensures { OnOk result (WritesPieces (kept session.old frames.old map.old) (R.remaining from.old)
        (W.contents to.old) (W.contents to.new)) }
{
    let mut input = Input::new();
    for _ in 0..pieces {
        if read_behind(from, &mut input)? == 0 {
            // The end of the log.
            session.close(input.as_slice().len(), text);
            return write_out(to, text);
        }
        session.turn(frames, map, &mut input, text);
        write_out(to, text)?;
    }
    Err(Stop::OutOfPieces)
}

ghost use Rattle.std.specs.Prelude.{◌≡◌, IfOk, OnOk, OnErr};
ghost use Rattle.std.specs.Io.KnownBytes.{Appends};
ghost use Rattle.replay_stream.specs.Stream.{Reads};

use std::fmt;
use std::fmt::{Display, Formatter};
use std::io::{Read, Write};
use trace::Input;
use trace_lines::Text;

// Why a replay stops with no last line.
#[derive(Clone, Copy)]
pub(crate) enum Stop {
    Unread,
    Unwritten,
    OutOfPieces,
}

impl Display for Stop {
    fn fmt<W: fmt::Write>(&self, f: &mut Formatter<W>) -> fmt::Result {
        f.write_str(match *self {
            Stop::Unread => "the log can't be read",
            Stop::Unwritten => "the text can't be written",
            Stop::OutOfPieces => "the log has more pieces than can be read",
        })
    }
}

// Reads behind the bytes at hand, which stay, and answers how many bytes it read. Where there is room for a byte, it reads none at the end
// alone. It sets the input's length itself: a method that lends the free bytes would return a `&mut`, of which the check proves too little.
pub(crate) fn read_behind<R: Read>(from: &mut R, input: &mut Input) -> Result<usize, Stop>
    ensures stay { OnErr result (input.new.text ≡ input.old.text) }
    ensures read { IfOk result (Reads (R.remaining from.old) (R.remaining from.new) input.old.text input.new.text) }
{
    let bytes = &mut input.bytes[..];
    let held = input.filled.min(bytes.len());
    match from.read(&mut bytes[held..]) {
        Ok(count) => {
            input.filled = held + count;
            Ok(count)
        }
        Err(_) => Err(Stop::Unread),
    }
}

// Writes a text out.
pub(crate) fn write_out<W: Write>(to: &mut W, text: &Text) -> Result<(), Stop>
    ensures { OnOk result (Appends (W.contents to.old) (W.contents to.new) text.now.text) }
{
    to.write_all(text.as_slice()).map_err(|_| Stop::Unwritten)
}

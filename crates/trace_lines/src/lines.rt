ghost use Rattle.std.specs.Prelude.{◌≡◌, ◌+◌, ◌≤◌, length};
ghost use Rattle.trace_lines.specs.Filled.{with_put};
ghost use Rattle.trace_lines.specs.Line.{cell, decimal, text_put};

use crate::buffer::Buffer;
use answers::Numbers;

// The bytes that a text can have at the most.
pub const ROOM: usize = 131072;

// The bytes of the longest line: five numbers of 20 digits, each with the byte behind it.
const LONGEST: usize = 105;

// The lines of a replay, one behind the other.
pub type Text = Buffer<ROOM>;

// A line of a replay's output.
#[derive(Clone, Copy)]
pub enum Line {
    // Before any record.
    First,
    // The answer of a record.
    Answer(Numbers),
    // A record that is not good.
    Bad,
    // After all records, with the number of those answered.
    Last(u64),
}

impl Line {
    // Puts the line behind what is there. Where there is no room for the longest line it puts nothing.
    #[tactic(auto, using(crate::proofs::DecimalLaws::after_cell))]
    pub fn put(self, text: &mut Text)
        ensures { text.new ≡ with_put text.old (text_put (length text.old.text) self) }
    {
        if ROOM - LONGEST < text.as_slice().len() {
            return;
        }
        match self {
            Line::First => text.put(b"monitor 1\n"),
            Line::Answer(numbers) => {
                put_cell(text, numbers.verdict, b' ');
                put_cell(text, numbers.v0, b' ');
                put_cell(text, numbers.v1, b' ');
                put_cell(text, numbers.v2, b' ');
                put_cell(text, numbers.v3, b'\n');
            }
            Line::Bad => text.put(b"bad\n"),
            Line::Last(answered) => {
                text.put(b"end ");
                put_cell(text, answered, b'\n');
            }
        }
    }
}

// Puts a number in decimals, and one byte behind it. Most numbers of an answer have one digit. `write!` says nothing of when it succeeds, so it
// can't stand here.
#[tactic(auto, using(crate::proofs::DecimalLaws::after_decimal, crate::proofs::DecimalLaws::decimal_digit, crate::proofs::DecimalLaws::digits_cell))]
fn put_cell(text: &mut Text, number: u64, end: u8)
    requires { length text.old.text + 21 ≤ 131072 }
    ensures { text.new ≡ with_put text.old (cell number end) }
{
    if number < 10 {
        text.put(&[b'0' + number as u8, end]);
        return;
    }
    let mut digits = [0u8; 20];
    let count = io::decimal(number, &mut digits);
    text.put(&digits[..count]);
    text.put(&[end]);
}

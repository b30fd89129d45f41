// The lines that a replay writes, put one behind the other into a text, which is a buffer in fixed memory.
// It rests on answers for the numbers of an answer, and on io for the digits of a number. It writes nothing out.
#![tactic(auto)]

mod buffer;
mod lines;

pub use buffer::Buffer;
pub use lines::{Line, ROOM, Text};

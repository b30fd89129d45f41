// The replay of a trace: its records answered in turn, with the text that is to be written.
// It rests on trace_records for what bytes mean, on calls, records and answers for the calls, and on trace_lines for the lines. It reads and writes no
// file: a caller hands over a log piece by piece, and writes out the text.
#![tactic(auto)]

mod session;

pub use session::{FRAMES, Input, MAP_WORDS, PIECE, Session};
